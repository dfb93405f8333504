//! The erasure of a term.
ghost use Rattle.elab_model.specs.Rules.{erase};
ghost use Rattle.elab_model.specs.ScopedForms.{s_app, s_elam, s_lam};
ghost use Rattle.elab_model.specs.Soundness.{no_encodings};
ghost use Rattle.elab_reduce.specs.Items.{env_of};
ghost use Rattle.elab_rules.specs.Answers.{Meets};
ghost use Rattle.scope_model.specs.Scoped.{Scoped as Tree};
ghost use Rattle.scoped_tree.specs.Trees.{bind_form, leaf_form, one_form, place, two_form};
ghost use Rattle.source_model.specs.Source.{Span as Where, bind, leaf, one, phi_of, rho_of, two};

use crate::pure::{applied, function, identity, name, without_variable};
use cdle_names::Span;
use elab_rules::{Fault, Rules};
use elab_tree::EPure;
use scoped_tree::{BindForm, LeafForm, OneForm, Scoped, ScopedForm, TwoForm};

/// The erasure of a term. Of a node that is no term it is want of memory.
#[cycle(erased_term)]
pub fn erased_term(rules: &Rules<'_>, node: &Scoped) -> Result<EPure, Fault>
    ensures { Meets rules.now.env.now rules.now.budget (erase (env_of rules.now.env.now) no_encodings node.now) result }
{
    match node.form() {
        ScopedForm::Use(reference) => name(rules.alloc, node.span(), *reference),
        ScopedForm::Leaf(form) => of_leaf(rules, *form),
        ScopedForm::One(form, part) => of_one(rules, *form, part),
        ScopedForm::Two(form, left, right) => of_two(rules, node.span(), *form, left, right),
        ScopedForm::Bind(form, _, part) => of_binder(rules, node.span(), *form, part),
        ScopedForm::Cases(_, _, _, _) => Err(Fault::NoMemory),
    }
}

/// A part that is left out.
fn of_leaf(rules: &Rules<'_>, form: LeafForm) -> Result<EPure, Fault>
    ensures { (s : Where) → Meets rules.now.env.now rules.now.budget (erase (env_of rules.now.env.now) no_encodings (leaf s (leaf_form form))) result }
{
    match form {
        LeafForm::LeftOut => Ok(identity(rules.alloc)?),
        LeafForm::Star => Err(Fault::NoMemory),
    }
}

/// A form of one part, of which the part is left.
#[cycle(erased_term)]
fn of_one(rules: &Rules<'_>, form: OneForm, part: &Scoped) -> Result<EPure, Fault>
    ensures { (s : Where) → Meets rules.now.env.now rules.now.budget (erase (env_of rules.now.env.now) no_encodings (one s (one_form form) part.now)) result }
{
    match form {
        OneForm::Fst | OneForm::Snd | OneForm::Flip => erased_term(rules, part),
    }
}

/// A form of two parts.
#[cycle(erased_term)]
fn of_two(
    rules: &Rules<'_>,
    span: Span,
    form: TwoForm,
    left: &Scoped,
    right: &Scoped,
) -> Result<EPure, Fault>
    ensures { Meets rules.now.env.now rules.now.budget (erase (env_of rules.now.env.now) no_encodings (two (place span) (two_form form) left.now right.now)) result }
{
    match form {
        TwoForm::App => application(rules, span, left, right),
        TwoForm::Eapp | TwoForm::Tapp | TwoForm::Pair => erased_term(rules, left),
        TwoForm::Beta | TwoForm::Chi => erased_term(rules, right),
        TwoForm::Phi => kept(rules, left, right),
        TwoForm::Rho => guided(rules, left, right),
        TwoForm::Delta => Ok(identity(rules.alloc)?),
        TwoForm::At | TwoForm::On | TwoForm::Eq | TwoForm::Group => Err(Fault::NoMemory),
    }
}

/// `head arg`.
#[cycle(erased_term)]
fn application(rules: &Rules<'_>, span: Span, head: &Scoped, arg: &Scoped) -> Result<EPure, Fault>
    ensures { Meets rules.now.env.now rules.now.budget (erase (env_of rules.now.env.now) no_encodings (s_app (place span) head.now arg.now)) result }
{
    let head = erased_term(rules, head)?;
    let arg = erased_term(rules, arg)?;
    applied(rules.alloc, span, &head, &arg)
}

/// What `φ` keeps, where the first part is a group.
#[cycle(erased_term)]
fn kept(rules: &Rules<'_>, group: &Scoped, part: &Scoped) -> Result<EPure, Fault>
    ensures { (s : Where) → Meets rules.now.env.now rules.now.budget (erase (env_of rules.now.env.now) no_encodings (two s phi_of group.now part.now)) result }
{
    match group.form() {
        ScopedForm::Two(TwoForm::Group, _, _) => erased_term(rules, part),
        _ => Err(Fault::NoMemory),
    }
}

/// What stands under `ρ`, where the first part is a guide.
#[cycle(erased_term)]
fn guided(rules: &Rules<'_>, guide: &Scoped, part: &Scoped) -> Result<EPure, Fault>
    ensures { (s : Where) → Meets rules.now.env.now rules.now.budget (erase (env_of rules.now.env.now) no_encodings (two s rho_of guide.now part.now)) result }
{
    match guide.form() {
        ScopedForm::Bind(BindForm::Guide, _, _) => erased_term(rules, part),
        _ => Err(Fault::NoMemory),
    }
}

/// A form whose second part stands under the binder, whatever the first part is.
#[cycle(erased_term)]
fn of_binder(rules: &Rules<'_>, span: Span, form: BindForm, part: &Scoped) -> Result<EPure, Fault>
    ensures { (a : Tree) → Meets rules.now.env.now rules.now.budget (erase (env_of rules.now.env.now) no_encodings (bind (place span) (bind_form form) tt a part.now)) result }
{
    match form {
        BindForm::Lam => abstraction(rules, span, part),
        BindForm::Elam | BindForm::Xlam | BindForm::Unclassed => {
            erased_abstraction(rules, span, part)
        }
        _ => Err(Fault::NoMemory),
    }
}

/// `λ x . part`.
#[cycle(erased_term)]
fn abstraction(rules: &Rules<'_>, span: Span, part: &Scoped) -> Result<EPure, Fault>
    ensures { (a : Tree) → Meets rules.now.env.now rules.now.budget (erase (env_of rules.now.env.now) no_encodings (s_lam (place span) tt a part.now)) result }
{
    let part = erased_term(rules, part)?;
    function(rules.alloc, span, &part)
}

/// `Λ x . part`.
#[cycle(erased_term)]
fn erased_abstraction(rules: &Rules<'_>, span: Span, part: &Scoped) -> Result<EPure, Fault>
    ensures { (a : Tree) → Meets rules.now.env.now rules.now.budget (erase (env_of rules.now.env.now) no_encodings (s_elam (place span) tt a part.now)) result }
{
    let part = erased_term(rules, part)?;
    without_variable(rules.alloc, span, &part)
}
