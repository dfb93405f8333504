//! Guides, made of the erasures of a form's parts.
ghost use Rattle.std.specs.Prelude.{◌≡◌, IfOk, ℕ};
ghost use Rattle.cdle_model.specs.Forms.{allt, at_, eq, guide_tlam, guide_xtlam};
ghost use Rattle.elab_erase.specs.Forms.{over_types};
ghost use Rattle.elab_model.specs.Questions.{limited};
ghost use Rattle.elab_model.specs.Soundness.{no_encodings};
ghost use Rattle.elab_model.specs.SourceErasure.{name_erased};
ghost use Rattle.elab_rules.specs.Answers.{Meets};
ghost use Rattle.elab_tree.specs.Known.{Known};
ghost use Rattle.scoped_tree.specs.Trees.{place, reference as reference_in};

use crate::forms::OverTypes;
use cdle_names::Span;
use elab_rules::{Fault, low};
use elab_tree::{EGuide, EGuideKind, EPure, NoMemory};
use scoped_tree::Reference;
use std::alloc::Global;

/// The guide of that form, unless it is too deep.
fn limited_guide(form: Span, guide: EGuide) -> Result<EGuide, Fault>
    ensures { (e : Known) (n : ℕ) → Meets e n (limited (place form) guide) result }
{
    low(form, guide.depth())?;
    Ok(guide)
}

/// What a name stands for. No type is a cast.
fn named_guide(alloc: Global, reference: Reference) -> Result<EGuide, NoMemory>
    ensures { IfOk result (λ t. t ≡ name_erased no_encodings (reference_in reference)) }
{
    match reference {
        Reference::Variable(index) => EGuide::var(alloc, index),
        Reference::Item(item) => EGuide::name(alloc, item),
        Reference::Cast(_) => Err(NoMemory),
    }
}

/// A name.
pub(crate) fn type_name(alloc: Global, form: Span, reference: Reference) -> Result<EGuide, Fault>
    ensures { (e : Known) (n : ℕ) → Meets e n (limited (place form) (name_erased no_encodings (reference_in reference))) result }
{
    limited_guide(form, named_guide(alloc, reference)?)
}

/// The guide of that form over two guides.
fn made_of_types(
    alloc: Global,
    over: OverTypes,
    left: &EGuide,
    right: &EGuide,
) -> Result<EGuide, NoMemory>
    ensures { IfOk result (λ t. t ≡ over_types over left.now right.now) }
{
    match over {
        OverTypes::Pi => EGuide::pi(alloc, left, right),
        OverTypes::All => EGuide::all(alloc, left, right),
        OverTypes::Iota => EGuide::iota(alloc, left, right),
        OverTypes::On => EGuide::on(alloc, left, right),
    }
}

/// A form over two types.
pub(crate) fn over_two(
    alloc: Global,
    form: Span,
    over: OverTypes,
    left: &EGuide,
    right: &EGuide,
) -> Result<EGuide, Fault>
    ensures { (e : Known) (n : ℕ) → Meets e n (limited (place form) (over_types over left.now right.now)) result }
{
    limited_guide(form, made_of_types(alloc, over, left, right)?)
}

/// `∀ X : domain . part` over types.
pub(crate) fn over_kind(
    alloc: Global,
    form: Span,
    domain: &EGuideKind,
    part: &EGuide,
) -> Result<EGuide, Fault>
    ensures { (e : Known) (n : ℕ) → Meets e n (limited (place form) (allt domain.now part.now)) result }
{
    limited_guide(form, EGuide::allt(alloc, domain, part)?)
}

/// `λ x . part` over terms.
pub(crate) fn term_function(alloc: Global, form: Span, part: &EGuide) -> Result<EGuide, Fault>
    ensures { (e : Known) (n : ℕ) → Meets e n (limited (place form) (guide_tlam part.now)) result }
{
    limited_guide(form, EGuide::tlam(alloc, part)?)
}

/// `λ X . part` over types.
pub(crate) fn type_function(alloc: Global, form: Span, part: &EGuide) -> Result<EGuide, Fault>
    ensures { (e : Known) (n : ℕ) → Meets e n (limited (place form) (guide_xtlam part.now)) result }
{
    limited_guide(form, EGuide::xtlam(alloc, part)?)
}

/// A type applied to a term.
pub(crate) fn at_term(
    alloc: Global,
    form: Span,
    head: &EGuide,
    arg: &EPure,
) -> Result<EGuide, Fault>
    ensures { (e : Known) (n : ℕ) → Meets e n (limited (place form) (at_ head.now arg.now)) result }
{
    limited_guide(form, EGuide::at(alloc, head, arg)?)
}

/// `{ left ≃ right }`.
pub(crate) fn equal(alloc: Global, form: Span, left: &EPure, right: &EPure) -> Result<EGuide, Fault>
    ensures { (e : Known) (n : ℕ) → Meets e n (limited (place form) (eq left.now right.now)) result }
{
    limited_guide(form, EGuide::eq(alloc, left, right)?)
}
