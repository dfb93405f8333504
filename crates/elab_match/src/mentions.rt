//! Whether an unknown stands in a tree.
ghost use Rattle.std.specs.Prelude.{◌≡◌};
ghost use Rattle.elab_model.specs.Instances.{mentions};

use elab_tree::{
    EGuide, EGuideForm, EGuideKind, EGuideKindForm, EKind, EKindForm, EPure, EPureForm, ETerm,
    ETermForm, EType, ETypeForm,
};

/// Whether the unknown of that number stands in the type.
#[cycle(mentions)]
#[tactic(auto, using(crate::proofs::Mentioned::none_mentioned))]
pub(crate) fn type_mentions(ty: &EType, number: u32) -> bool
    ensures { result ≡ mentions number ty.now }
{
    if !ty.has_unknown() {
        return false;
    }
    match ty.form() {
        ETypeForm::Var(_) | ETypeForm::Name(_) => false,
        ETypeForm::Unknown(other) => number == *other,
        ETypeForm::Pi(left, right)
        | ETypeForm::All(left, right)
        | ETypeForm::Tlam(left, right)
        | ETypeForm::Iota(left, right)
        | ETypeForm::On(left, right) => type_mentions(left, number) || type_mentions(right, number),
        ETypeForm::Allt(domain, part) | ETypeForm::Xtlam(domain, part) => {
            kind_mentions(domain, number) || type_mentions(part, number)
        }
        ETypeForm::At(head, arg) => type_mentions(head, number) || term_mentions(arg, number),
        ETypeForm::Eq(left, right) => pure_mentions(left, number) || pure_mentions(right, number),
    }
}

/// Whether the unknown of that number stands in the kind.
#[cycle(mentions)]
#[tactic(auto, using(crate::proofs::Mentioned::none_mentioned))]
fn kind_mentions(kind: &EKind, number: u32) -> bool
    ensures { result ≡ mentions number kind.now }
{
    if !kind.has_unknown() {
        return false;
    }
    match kind.form() {
        EKindForm::Star => false,
        EKindForm::Kpi(domain, part) => {
            type_mentions(domain, number) || kind_mentions(part, number)
        }
        EKindForm::Kpit(domain, part) => {
            kind_mentions(domain, number) || kind_mentions(part, number)
        }
    }
}

/// Whether the unknown of that number stands in the term.
#[cycle(mentions)]
#[tactic(auto, using(crate::proofs::Mentioned::none_mentioned))]
fn term_mentions(term: &ETerm, number: u32) -> bool
    ensures { result ≡ mentions number term.now }
{
    if !term.has_unknown() {
        return false;
    }
    match term.form() {
        ETermForm::Var(_) | ETermForm::Name(_) => false,
        ETermForm::Lam(ty, part) | ETermForm::Elam(ty, part) | ETermForm::Delta(ty, part) => {
            type_mentions(ty, number) || term_mentions(part, number)
        }
        ETermForm::Xlam(kind, part) => kind_mentions(kind, number) || term_mentions(part, number),
        ETermForm::App(head, arg) | ETermForm::Eapp(head, arg) => {
            term_mentions(head, number) || term_mentions(arg, number)
        }
        ETermForm::Tapp(head, arg) => term_mentions(head, number) || type_mentions(arg, number),
        ETermForm::Pair(left, right, ty) => {
            term_mentions(right, number) || term_mentions(left, number) || type_mentions(ty, number)
        }
        ETermForm::Fst(part) | ETermForm::Snd(part) => term_mentions(part, number),
        ETermForm::Beta(side, kept) => pure_mentions(side, number) || pure_mentions(kept, number),
        ETermForm::Rho(proof, guide, ty, part) => {
            term_mentions(proof, number)
                || guide_mentions(guide, number)
                || type_mentions(ty, number)
                || term_mentions(part, number)
        }
        ETermForm::Phi(proof, part, kept) => {
            term_mentions(proof, number)
                || term_mentions(part, number)
                || pure_mentions(kept, number)
        }
    }
}

/// Whether the unknown of that number stands in the guide.
#[cycle(mentions_erased)]
#[tactic(auto, using(crate::proofs::Mentioned::none_mentioned))]
fn guide_mentions(guide: &EGuide, number: u32) -> bool
    ensures { result ≡ mentions number guide.now }
{
    if !guide.has_unknown() {
        return false;
    }
    match guide.form() {
        EGuideForm::Var(_) | EGuideForm::Name(_) => false,
        EGuideForm::Unknown(other) => number == *other,
        EGuideForm::Pi(left, right)
        | EGuideForm::All(left, right)
        | EGuideForm::Iota(left, right)
        | EGuideForm::On(left, right) => {
            guide_mentions(left, number) || guide_mentions(right, number)
        }
        EGuideForm::Allt(domain, part) => {
            guide_kind_mentions(domain, number) || guide_mentions(part, number)
        }
        EGuideForm::Tlam(part) | EGuideForm::Xtlam(part) => guide_mentions(part, number),
        EGuideForm::At(head, arg) => guide_mentions(head, number) || pure_mentions(arg, number),
        EGuideForm::Eq(left, right) => pure_mentions(left, number) || pure_mentions(right, number),
    }
}

/// Whether the unknown of that number stands in the guide kind.
#[cycle(mentions_erased)]
#[tactic(auto, using(crate::proofs::Mentioned::none_mentioned))]
fn guide_kind_mentions(kind: &EGuideKind, number: u32) -> bool
    ensures { result ≡ mentions number kind.now }
{
    if !kind.has_unknown() {
        return false;
    }
    match kind.form() {
        EGuideKindForm::Star => false,
        EGuideKindForm::Kpi(domain, part) => {
            guide_mentions(domain, number) || guide_kind_mentions(part, number)
        }
        EGuideKindForm::Kpit(domain, part) => {
            guide_kind_mentions(domain, number) || guide_kind_mentions(part, number)
        }
    }
}

/// Whether the unknown of that number stands in the pure term.
#[tactic(auto, using(crate::proofs::Mentioned::none_mentioned))]
fn pure_mentions(pure: &EPure, number: u32) -> bool
    ensures { result ≡ mentions number pure.now }
{
    if !pure.has_unknown() {
        return false;
    }
    match pure.form() {
        EPureForm::Var(_) | EPureForm::Name(_) => false,
        EPureForm::Function(part) => pure_mentions(part, number),
        EPureForm::Ap(head, arg) => pure_mentions(head, number) || pure_mentions(arg, number),
    }
}
