//! The formers of erased types and kinds, with their parts.
ghost use Rattle.std.specs.Prelude.{IfSome};
ghost use Rattle.elab_convert.specs.Formers.{IsFormerOf, part_tree};

use crate::side::Part;
use elab_tree::{EGuide, EGuideForm, EGuideKind, EGuideKindForm};

/// The words of the formers.
#[derive(Clone, Copy, PartialEq, Eq)]
pub(crate) enum Word {
    Star,
    Unknown(u32),
    Tlam,
    Xtlam,
    Pi,
    All,
    Allt,
    Iota,
    Eq,
    Kpi,
    Kpit,
}

/// The parts of a former, in the order in which Core text writes them.
#[derive(Clone, Copy)]
pub(crate) enum Parts<'a> {
    Zero,
    One(Part<'a>),
    Two(Part<'a>, Part<'a>),
}

/// A former by its word, with its parts.
#[derive(Clone, Copy)]
pub(crate) struct Former<'a> {
    pub(crate) word: Word,
    pub(crate) parts: Parts<'a>,
}

/// The tree as a former; none where it is a variable, a name, an application or a pure term.
pub(crate) fn as_former<'a>(part: Part<'a>) -> Option<Former<'a>>
    ensures { IfSome result (λ f. IsFormerOf (part_tree part.entry) f) }
{
    match part {
        Part::Term(_) => None,
        Part::OfType(ty) => type_former(ty),
        Part::Kind(kind) => Some(kind_former(kind)),
    }
}

fn type_former<'a>(ty: &'a EGuide) -> Option<Former<'a>>
    ensures { IfSome result (λ f. IsFormerOf ty.now f) }
{
    let (word, parts) = match ty.form() {
        EGuideForm::Unknown(number) => (Word::Unknown(*number), Parts::Zero),
        EGuideForm::Tlam(body) => (Word::Tlam, Parts::One(Part::OfType(body))),
        EGuideForm::Xtlam(body) => (Word::Xtlam, Parts::One(Part::OfType(body))),
        EGuideForm::Pi(a, b) => (Word::Pi, Parts::Two(Part::OfType(a), Part::OfType(b))),
        EGuideForm::All(a, b) => (Word::All, Parts::Two(Part::OfType(a), Part::OfType(b))),
        EGuideForm::Allt(k, b) => (Word::Allt, Parts::Two(Part::Kind(k), Part::OfType(b))),
        EGuideForm::Iota(a, b) => (Word::Iota, Parts::Two(Part::OfType(a), Part::OfType(b))),
        EGuideForm::Eq(p, q) => (Word::Eq, Parts::Two(Part::Term(p), Part::Term(q))),
        _ => return None,
    };
    Some(Former { word, parts })
}

fn kind_former<'a>(kind: &'a EGuideKind) -> Former<'a>
    ensures { IsFormerOf kind.now result }
{
    let (word, parts) = match kind.form() {
        EGuideKindForm::Star => (Word::Star, Parts::Zero),
        EGuideKindForm::Kpi(a, k) => (Word::Kpi, Parts::Two(Part::OfType(a), Part::Kind(k))),
        EGuideKindForm::Kpit(k, l) => (Word::Kpit, Parts::Two(Part::Kind(k), Part::Kind(l))),
    };
    Former { word, parts }
}
