//! Whether a variable stands in a tree.
ghost use Rattle.std.specs.Prelude.{◌≡◌, ◌+◌, ◌≤◌};
ghost use Rattle.cdle_model.specs.Trees.{lacks};
ghost use Rattle.cdle_model.specs.Depth.{depth};

use elab_tree::{
    EGuide, EGuideForm, EGuideKind, EGuideKindForm, EKind, EKindForm, EPure, EPureForm, ETerm,
    ETermForm, EType, ETypeForm,
};

/// Whether the variable of that number is not in the type.
#[cycle(lacks)]
pub(crate) fn type_lacks(ty: &EType, index: u32) -> bool
    requires { index + depth ty.now ≤ 65536 }
    ensures { result ≡ lacks index ty.now }
{
    match ty.form() {
        ETypeForm::Var(other) => *other != index,
        ETypeForm::Name(_) | ETypeForm::Unknown(_) => true,
        ETypeForm::Pi(left, right)
        | ETypeForm::All(left, right)
        | ETypeForm::Tlam(left, right)
        | ETypeForm::Iota(left, right) => type_lacks(left, index) && type_lacks(right, index + 1),
        ETypeForm::Allt(domain, part) | ETypeForm::Xtlam(domain, part) => {
            kind_lacks(domain, index) && type_lacks(part, index + 1)
        }
        ETypeForm::At(head, arg) => type_lacks(head, index) && term_lacks(arg, index),
        ETypeForm::On(head, arg) => type_lacks(head, index) && type_lacks(arg, index),
        ETypeForm::Eq(left, right) => pure_lacks(left, index) && pure_lacks(right, index),
    }
}

/// Whether the variable of that number is not in the kind.
#[cycle(lacks)]
fn kind_lacks(kind: &EKind, index: u32) -> bool
    requires { index + depth kind.now ≤ 65536 }
    ensures { result ≡ lacks index kind.now }
{
    match kind.form() {
        EKindForm::Star => true,
        EKindForm::Kpi(domain, part) => type_lacks(domain, index) && kind_lacks(part, index + 1),
        EKindForm::Kpit(domain, part) => kind_lacks(domain, index) && kind_lacks(part, index + 1),
    }
}

/// Whether the variable of that number is not in the term.
#[cycle(lacks)]
fn term_lacks(term: &ETerm, index: u32) -> bool
    requires { index + depth term.now ≤ 65536 }
    ensures { result ≡ lacks index term.now }
{
    match term.form() {
        ETermForm::Var(other) => *other != index,
        ETermForm::Name(_) => true,
        ETermForm::Lam(ty, part) | ETermForm::Elam(ty, part) => {
            type_lacks(ty, index) && term_lacks(part, index + 1)
        }
        ETermForm::Xlam(kind, part) => kind_lacks(kind, index) && term_lacks(part, index + 1),
        ETermForm::App(head, arg) | ETermForm::Eapp(head, arg) => {
            term_lacks(head, index) && term_lacks(arg, index)
        }
        ETermForm::Tapp(head, arg) => term_lacks(head, index) && type_lacks(arg, index),
        ETermForm::Pair(left, right, ty) => {
            term_lacks(right, index) && term_lacks(left, index) && type_lacks(ty, index + 1)
        }
        ETermForm::Fst(part) | ETermForm::Snd(part) => term_lacks(part, index),
        ETermForm::Beta(side, kept) => pure_lacks(side, index) && pure_lacks(kept, index),
        ETermForm::Rho(proof, guide, ty, part) => {
            term_lacks(proof, index)
                && guide_lacks(guide, index + 1)
                && type_lacks(ty, index)
                && term_lacks(part, index)
        }
        ETermForm::Phi(proof, part, kept) => {
            term_lacks(proof, index) && term_lacks(part, index) && pure_lacks(kept, index)
        }
        ETermForm::Delta(ty, proof) => type_lacks(ty, index) && term_lacks(proof, index),
    }
}

/// Whether the variable of that number is not in the guide.
#[cycle(lacks_erased)]
fn guide_lacks(guide: &EGuide, index: u32) -> bool
    requires { index + depth guide.now ≤ 65536 }
    ensures { result ≡ lacks index guide.now }
{
    match guide.form() {
        EGuideForm::Var(other) => *other != index,
        EGuideForm::Name(_) | EGuideForm::Unknown(_) => true,
        EGuideForm::Pi(left, right)
        | EGuideForm::All(left, right)
        | EGuideForm::Iota(left, right) => {
            guide_lacks(left, index) && guide_lacks(right, index + 1)
        }
        EGuideForm::Allt(domain, part) => {
            guide_kind_lacks(domain, index) && guide_lacks(part, index + 1)
        }
        EGuideForm::Tlam(part) | EGuideForm::Xtlam(part) => guide_lacks(part, index + 1),
        EGuideForm::At(head, arg) => guide_lacks(head, index) && pure_lacks(arg, index),
        EGuideForm::On(head, arg) => guide_lacks(head, index) && guide_lacks(arg, index),
        EGuideForm::Eq(left, right) => pure_lacks(left, index) && pure_lacks(right, index),
    }
}

/// Whether the variable of that number is not in the guide kind.
#[cycle(lacks_erased)]
fn guide_kind_lacks(kind: &EGuideKind, index: u32) -> bool
    requires { index + depth kind.now ≤ 65536 }
    ensures { result ≡ lacks index kind.now }
{
    match kind.form() {
        EGuideKindForm::Star => true,
        EGuideKindForm::Kpi(domain, part) => {
            guide_lacks(domain, index) && guide_kind_lacks(part, index + 1)
        }
        EGuideKindForm::Kpit(domain, part) => {
            guide_kind_lacks(domain, index) && guide_kind_lacks(part, index + 1)
        }
    }
}

/// Whether the variable of that number is not in the pure term.
fn pure_lacks(pure: &EPure, index: u32) -> bool
    requires { index + depth pure.now ≤ 65536 }
    ensures { result ≡ lacks index pure.now }
{
    match pure.form() {
        EPureForm::Var(other) => *other != index,
        EPureForm::Name(_) => true,
        EPureForm::Function(part) => pure_lacks(part, index + 1),
        EPureForm::Ap(head, arg) => pure_lacks(head, index) && pure_lacks(arg, index),
    }
}
