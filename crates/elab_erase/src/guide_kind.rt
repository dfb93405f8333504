//! Guide kinds, made of the erasures of a form's parts.
ghost use Rattle.std.specs.Prelude.{ℕ};
ghost use Rattle.cdle_model.specs.Forms.{kpi, kpit};
ghost use Rattle.elab_model.specs.Questions.{limited};
ghost use Rattle.elab_rules.specs.Answers.{Meets};
ghost use Rattle.elab_tree.specs.Known.{Known};
ghost use Rattle.scoped_tree.specs.Trees.{place};

use cdle_names::Span;
use elab_rules::{Fault, low};
use elab_tree::{EGuide, EGuideKind};
use std::alloc::Global;

/// The guide kind of that form, unless it is too deep.
fn limited_guide_kind(form: Span, kind: EGuideKind) -> Result<EGuideKind, Fault>
    ensures { (e : Known) (n : ℕ) → Meets e n (limited (place form) kind) result }
{
    low(form, kind.depth())?;
    Ok(kind)
}

/// A product of kinds over terms.
pub(crate) fn of_terms(
    alloc: Global,
    form: Span,
    domain: &EGuide,
    part: &EGuideKind,
) -> Result<EGuideKind, Fault>
    ensures { (e : Known) (n : ℕ) → Meets e n (limited (place form) (kpi domain.now part.now)) result }
{
    limited_guide_kind(form, EGuideKind::kpi(alloc, domain, part)?)
}

/// A product of kinds over types.
pub(crate) fn of_types(
    alloc: Global,
    form: Span,
    domain: &EGuideKind,
    part: &EGuideKind,
) -> Result<EGuideKind, Fault>
    ensures { (e : Known) (n : ℕ) → Meets e n (limited (place form) (kpit domain.now part.now)) result }
{
    limited_guide_kind(form, EGuideKind::kpit(alloc, domain, part)?)
}
