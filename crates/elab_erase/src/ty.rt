//! The erasures of types and kinds.
ghost use Rattle.cdle_model.specs.Trees.{Tree};
ghost use Rattle.elab_erase.specs.Forms.{over_types};
ghost use Rattle.elab_model.specs.Questions.{limited, then};
ghost use Rattle.elab_model.specs.Rules.{erase};
ghost use Rattle.elab_model.specs.ScopedForms.{s_allt, s_at, s_eq, s_kpi, s_kpit, s_tlam, s_xtlam};
ghost use Rattle.elab_model.specs.Soundness.{no_encodings};
ghost use Rattle.elab_reduce.specs.Items.{env_of};
ghost use Rattle.elab_rules.specs.Answers.{Meets};
ghost use Rattle.scope_model.specs.Scoped.{Scoped as Written};
ghost use Rattle.scoped_tree.specs.Trees.{bind_form, leaf_form, place, two_form};
ghost use Rattle.source_model.specs.Source.{Span as Where, bind, leaf, two};

use crate::forms::OverTypes;
use crate::term::erased_term;
use crate::{guide, guide_kind};
use cdle_names::Span;
use elab_rules::{Fault, Rules};
use elab_tree::{EGuide, EGuideKind};
use scoped_tree::{BindForm, LeafForm, Scoped, ScopedForm, TwoForm};

/// The erasure of a type. Of a node that is no type it is want of memory.
#[cycle(erased_type)]
pub fn erased_type(rules: &Rules<'_>, node: &Scoped) -> Result<EGuide, Fault>
    ensures { Meets rules.now.env.now rules.now.budget (erase (env_of rules.now.env.now) no_encodings node.now) result }
{
    match node.form() {
        ScopedForm::Use(reference) => guide::type_name(rules.alloc, node.span(), *reference),
        ScopedForm::Two(form, left, right) => type_of_two(rules, node.span(), *form, left, right),
        ScopedForm::Bind(form, domain, part) => {
            type_of_binder(rules, node.span(), *form, domain, part)
        }
        _ => Err(Fault::NoMemory),
    }
}

/// A type of two parts.
#[cycle(erased_type)]
fn type_of_two(
    rules: &Rules<'_>,
    span: Span,
    form: TwoForm,
    left: &Scoped,
    right: &Scoped,
) -> Result<EGuide, Fault>
    ensures { Meets rules.now.env.now rules.now.budget (erase (env_of rules.now.env.now) no_encodings (two (place span) (two_form form) left.now right.now)) result }
{
    match form {
        TwoForm::At => type_at_term(rules, span, left, right),
        TwoForm::On => over_two_types(rules, span, OverTypes::On, left, right),
        TwoForm::Eq => equation(rules, span, left, right),
        _ => Err(Fault::NoMemory),
    }
}

/// A type of two parts of which the second stands under the binder.
#[cycle(erased_type)]
fn type_of_binder(
    rules: &Rules<'_>,
    span: Span,
    form: BindForm,
    domain: &Scoped,
    part: &Scoped,
) -> Result<EGuide, Fault>
    ensures { Meets rules.now.env.now rules.now.budget (erase (env_of rules.now.env.now) no_encodings (bind (place span) (bind_form form) tt domain.now part.now)) result }
{
    match form {
        BindForm::Pi => over_two_types(rules, span, OverTypes::Pi, domain, part),
        BindForm::All => over_two_types(rules, span, OverTypes::All, domain, part),
        BindForm::Iota => over_two_types(rules, span, OverTypes::Iota, domain, part),
        BindForm::Allt => product_over_types(rules, span, domain, part),
        BindForm::Tlam => function_over_terms(rules, span, part),
        BindForm::Xtlam => function_over_types(rules, span, part),
        _ => Err(Fault::NoMemory),
    }
}

/// A form over two types.
#[cycle(erased_type)]
fn over_two_types(
    rules: &Rules<'_>,
    span: Span,
    over: OverTypes,
    left: &Scoped,
    right: &Scoped,
) -> Result<EGuide, Fault>
    ensures { Meets rules.now.env.now rules.now.budget (then (erase (env_of rules.now.env.now) no_encodings left.now) (λ (p : Tree). then (erase (env_of rules.now.env.now) no_encodings right.now) (λ (q : Tree). limited (place span) (over_types over p q)))) result }
{
    let left = erased_type(rules, left)?;
    let right = erased_type(rules, right)?;
    guide::over_two(rules.alloc, span, over, &left, &right)
}

/// `∀ X : domain . part` over types.
#[cycle(erased_type)]
fn product_over_types(
    rules: &Rules<'_>,
    span: Span,
    domain: &Scoped,
    part: &Scoped,
) -> Result<EGuide, Fault>
    ensures { Meets rules.now.env.now rules.now.budget (erase (env_of rules.now.env.now) no_encodings (s_allt (place span) tt domain.now part.now)) result }
{
    let domain = erased_kind(rules, domain)?;
    let part = erased_type(rules, part)?;
    guide::over_kind(rules.alloc, span, &domain, &part)
}

/// `λ x . part` over terms, whose domain is dropped.
#[cycle(erased_type)]
fn function_over_terms(rules: &Rules<'_>, span: Span, part: &Scoped) -> Result<EGuide, Fault>
    ensures { (a : Written) → Meets rules.now.env.now rules.now.budget (erase (env_of rules.now.env.now) no_encodings (s_tlam (place span) tt a part.now)) result }
{
    let part = erased_type(rules, part)?;
    guide::term_function(rules.alloc, span, &part)
}

/// `λ X . part` over types, whose domain is dropped.
#[cycle(erased_type)]
fn function_over_types(rules: &Rules<'_>, span: Span, part: &Scoped) -> Result<EGuide, Fault>
    ensures { (a : Written) → Meets rules.now.env.now rules.now.budget (erase (env_of rules.now.env.now) no_encodings (s_xtlam (place span) tt a part.now)) result }
{
    let part = erased_type(rules, part)?;
    guide::type_function(rules.alloc, span, &part)
}

/// A type applied to a term.
#[cycle(erased_type)]
fn type_at_term(rules: &Rules<'_>, span: Span, head: &Scoped, arg: &Scoped) -> Result<EGuide, Fault>
    ensures { Meets rules.now.env.now rules.now.budget (erase (env_of rules.now.env.now) no_encodings (s_at (place span) head.now arg.now)) result }
{
    let head = erased_type(rules, head)?;
    let arg = erased_term(rules, arg)?;
    guide::at_term(rules.alloc, span, &head, &arg)
}

/// `{ left ≃ right }`.
fn equation(rules: &Rules<'_>, span: Span, left: &Scoped, right: &Scoped) -> Result<EGuide, Fault>
    ensures { Meets rules.now.env.now rules.now.budget (erase (env_of rules.now.env.now) no_encodings (s_eq (place span) left.now right.now)) result }
{
    let left = erased_term(rules, left)?;
    let right = erased_term(rules, right)?;
    guide::equal(rules.alloc, span, &left, &right)
}

/// The erasure of a kind. Of a node that is no kind it is want of memory.
#[cycle(erased_type)]
pub fn erased_kind(rules: &Rules<'_>, node: &Scoped) -> Result<EGuideKind, Fault>
    ensures { Meets rules.now.env.now rules.now.budget (erase (env_of rules.now.env.now) no_encodings node.now) result }
{
    match node.form() {
        ScopedForm::Leaf(form) => kind_leaf(rules, *form),
        ScopedForm::Bind(form, domain, part) => {
            kind_of_binder(rules, node.span(), *form, domain, part)
        }
        _ => Err(Fault::NoMemory),
    }
}

/// `★`.
fn kind_leaf(rules: &Rules<'_>, form: LeafForm) -> Result<EGuideKind, Fault>
    ensures { (s : Where) → Meets rules.now.env.now rules.now.budget (erase (env_of rules.now.env.now) no_encodings (leaf s (leaf_form form))) result }
{
    match form {
        LeafForm::Star => Ok(EGuideKind::star(rules.alloc)?),
        LeafForm::LeftOut => Err(Fault::NoMemory),
    }
}

/// A kind of two parts of which the second stands under the binder.
#[cycle(erased_type)]
fn kind_of_binder(
    rules: &Rules<'_>,
    span: Span,
    form: BindForm,
    domain: &Scoped,
    part: &Scoped,
) -> Result<EGuideKind, Fault>
    ensures { Meets rules.now.env.now rules.now.budget (erase (env_of rules.now.env.now) no_encodings (bind (place span) (bind_form form) tt domain.now part.now)) result }
{
    match form {
        BindForm::Kpi => kind_over_term(rules, span, domain, part),
        BindForm::Kpit => kind_over_type(rules, span, domain, part),
        _ => Err(Fault::NoMemory),
    }
}

/// A product of kinds over terms.
#[cycle(erased_type)]
fn kind_over_term(
    rules: &Rules<'_>,
    span: Span,
    domain: &Scoped,
    part: &Scoped,
) -> Result<EGuideKind, Fault>
    ensures { Meets rules.now.env.now rules.now.budget (erase (env_of rules.now.env.now) no_encodings (s_kpi (place span) tt domain.now part.now)) result }
{
    let domain = erased_type(rules, domain)?;
    let part = erased_kind(rules, part)?;
    guide_kind::of_terms(rules.alloc, span, &domain, &part)
}

/// A product of kinds over types.
#[cycle(erased_type)]
fn kind_over_type(
    rules: &Rules<'_>,
    span: Span,
    domain: &Scoped,
    part: &Scoped,
) -> Result<EGuideKind, Fault>
    ensures { Meets rules.now.env.now rules.now.budget (erase (env_of rules.now.env.now) no_encodings (s_kpit (place span) tt domain.now part.now)) result }
{
    let domain = erased_kind(rules, domain)?;
    let part = erased_kind(rules, part)?;
    guide_kind::of_types(rules.alloc, span, &domain, &part)
}
