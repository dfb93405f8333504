//! Whether what the reader gives is what was printed: the elaborator's trees and the checker's, form by form.
//!
//! Each comparison goes down so many levels, and takes deeper trees for different.

use core_tree::{
    CoreItem, Guide, GuideForm, GuideKind, GuideKindForm, Kind, KindForm, Pure, PureForm, Term,
    TermForm, Ty, TyForm,
};
use elab_tree::{
    EGuide, EGuideForm, EGuideKind, EGuideKindForm, EKind, EKindForm, EPure, EPureForm, ETerm,
    ETermForm, EType, ETypeForm, OutItem,
};

/// More than the text of an item can nest.
const LEVELS: u32 = 2048;

fn same_pure(levels: u32, tree: &EPure, read: &Pure) -> bool {
    if levels == 0 {
        return false;
    }
    let below = levels - 1;
    match (tree.form(), read.form()) {
        (EPureForm::Var(i), PureForm::Var(j)) => i == j,
        (EPureForm::Name(i), PureForm::Name(j)) => i == j,
        (EPureForm::Function(a), PureForm::Function(p)) => same_pure(below, a, p),
        (EPureForm::Ap(a, b), PureForm::Ap(p, q)) => {
            same_pure(below, a, p) && same_pure(below, b, q)
        }
        _ => false,
    }
}

/// Whether both sides are the same.
fn same_pures(levels: u32, a: &EPure, p: &Pure, b: &EPure, q: &Pure) -> bool {
    same_pure(levels, a, p) && same_pure(levels, b, q)
}

/// Whether both guides are the same.
#[cycle(guide)]
fn same_guides(levels: u32, a: &EGuide, p: &Guide, b: &EGuide, q: &Guide) -> bool {
    same_guide(levels, a, p) && same_guide(levels, b, q)
}

#[cycle(guide)]
fn same_guide(levels: u32, tree: &EGuide, read: &Guide) -> bool {
    if levels == 0 {
        return false;
    }
    let below = levels - 1;
    match (tree.form(), read.form()) {
        (EGuideForm::Var(i), GuideForm::Var(j)) => i == j,
        (EGuideForm::Name(i), GuideForm::Name(j)) => i == j,
        (EGuideForm::Pi(a, b), GuideForm::Pi(p, q)) => same_guides(below, a, p, b, q),
        (EGuideForm::All(a, b), GuideForm::All(p, q)) => same_guides(below, a, p, b, q),
        (EGuideForm::Allt(a, b), GuideForm::Allt(p, q)) => {
            same_guide_kind(below, a, p) && same_guide(below, b, q)
        }
        (EGuideForm::Tlam(a), GuideForm::Tlam(p)) => same_guide(below, a, p),
        (EGuideForm::Xtlam(a), GuideForm::Xtlam(p)) => same_guide(below, a, p),
        (EGuideForm::At(a, b), GuideForm::At(p, q)) => {
            same_guide(below, a, p) && same_pure(below, b, q)
        }
        (EGuideForm::On(a, b), GuideForm::On(p, q)) => same_guides(below, a, p, b, q),
        (EGuideForm::Iota(a, b), GuideForm::Iota(p, q)) => same_guides(below, a, p, b, q),
        (EGuideForm::Eq(a, b), GuideForm::Eq(p, q)) => same_pures(below, a, p, b, q),
        _ => false,
    }
}

#[cycle(guide)]
fn same_guide_kind(levels: u32, tree: &EGuideKind, read: &GuideKind) -> bool {
    if levels == 0 {
        return false;
    }
    let below = levels - 1;
    match (tree.form(), read.form()) {
        (EGuideKindForm::Star, GuideKindForm::Star) => true,
        (EGuideKindForm::Kpi(a, b), GuideKindForm::Kpi(p, q)) => {
            same_guide(below, a, p) && same_guide_kind(below, b, q)
        }
        (EGuideKindForm::Kpit(a, b), GuideKindForm::Kpit(p, q)) => {
            same_guide_kind(below, a, p) && same_guide_kind(below, b, q)
        }
        _ => false,
    }
}

/// Whether both terms are the same.
#[cycle(term)]
fn same_terms(levels: u32, a: &ETerm, p: &Term, b: &ETerm, q: &Term) -> bool {
    same_term(levels, a, p) && same_term(levels, b, q)
}

/// Whether the type and the term are the same.
#[cycle(term)]
fn same_typed(levels: u32, a: &EType, p: &Ty, b: &ETerm, q: &Term) -> bool {
    same_type(levels, a, p) && same_term(levels, b, q)
}

/// Whether both types are the same.
#[cycle(term)]
fn same_types(levels: u32, a: &EType, p: &Ty, b: &EType, q: &Ty) -> bool {
    same_type(levels, a, p) && same_type(levels, b, q)
}

/// Whether the kind and the type are the same.
#[cycle(term)]
fn same_over_kind(levels: u32, a: &EKind, p: &Kind, b: &EType, q: &Ty) -> bool {
    same_kind(levels, a, p) && same_type(levels, b, q)
}

#[cycle(term)]
fn same_term(levels: u32, tree: &ETerm, read: &Term) -> bool {
    if levels == 0 {
        return false;
    }
    let below = levels - 1;
    match (tree.form(), read.form()) {
        (ETermForm::Var(i), TermForm::Var(j)) => i == j,
        (ETermForm::Name(i), TermForm::Name(j)) => i == j,
        (ETermForm::Lam(a, b), TermForm::Lam(p, q)) => same_typed(below, a, p, b, q),
        (ETermForm::Elam(a, b), TermForm::Elam(p, q)) => same_typed(below, a, p, b, q),
        (ETermForm::Xlam(a, b), TermForm::Xlam(p, q)) => {
            same_kind(below, a, p) && same_term(below, b, q)
        }
        (ETermForm::App(a, b), TermForm::App(p, q)) => same_terms(below, a, p, b, q),
        (ETermForm::Eapp(a, b), TermForm::Eapp(p, q)) => same_terms(below, a, p, b, q),
        (ETermForm::Tapp(a, b), TermForm::Tapp(p, q)) => same_typed(below, b, q, a, p),
        (ETermForm::Pair(a, b, c), TermForm::Pair(p, q, r)) => {
            same_terms(below, a, p, b, q) && same_type(below, c, r)
        }
        (ETermForm::Fst(a), TermForm::Fst(p)) => same_term(below, a, p),
        (ETermForm::Snd(a), TermForm::Snd(p)) => same_term(below, a, p),
        (ETermForm::Beta(a, b), TermForm::Beta(p, q)) => same_pures(below, a, p, b, q),
        (ETermForm::Rho(a, b, c, d), TermForm::Rho(p, q, r, s)) => {
            same_typed(below, c, r, a, p) && same_guide(below, b, q) && same_term(below, d, s)
        }
        (ETermForm::Phi(a, b, c), TermForm::Phi(p, q, r)) => {
            same_terms(below, a, p, b, q) && same_pure(below, c, r)
        }
        (ETermForm::Delta(a, b), TermForm::Delta(p, q)) => same_typed(below, a, p, b, q),
        _ => false,
    }
}

#[cycle(term)]
fn same_type(levels: u32, tree: &EType, read: &Ty) -> bool {
    if levels == 0 {
        return false;
    }
    let below = levels - 1;
    match (tree.form(), read.form()) {
        (ETypeForm::Var(i), TyForm::Var(j)) => i == j,
        (ETypeForm::Name(i), TyForm::Name(j)) => i == j,
        (ETypeForm::Pi(a, b), TyForm::Pi(p, q)) => same_types(below, a, p, b, q),
        (ETypeForm::All(a, b), TyForm::All(p, q)) => same_types(below, a, p, b, q),
        (ETypeForm::Allt(a, b), TyForm::Allt(p, q)) => same_over_kind(below, a, p, b, q),
        (ETypeForm::Tlam(a, b), TyForm::Tlam(p, q)) => same_types(below, a, p, b, q),
        (ETypeForm::Xtlam(a, b), TyForm::Xtlam(p, q)) => same_over_kind(below, a, p, b, q),
        (ETypeForm::At(a, b), TyForm::At(p, q)) => same_typed(below, a, p, b, q),
        (ETypeForm::On(a, b), TyForm::On(p, q)) => same_types(below, a, p, b, q),
        (ETypeForm::Iota(a, b), TyForm::Iota(p, q)) => same_types(below, a, p, b, q),
        (ETypeForm::Eq(a, b), TyForm::Eq(p, q)) => same_pures(below, a, p, b, q),
        _ => false,
    }
}

#[cycle(term)]
fn same_kind(levels: u32, tree: &EKind, read: &Kind) -> bool {
    if levels == 0 {
        return false;
    }
    let below = levels - 1;
    match (tree.form(), read.form()) {
        (EKindForm::Star, KindForm::Star) => true,
        (EKindForm::Kpi(a, b), KindForm::Kpi(p, q)) => {
            same_type(below, a, p) && same_kind(below, b, q)
        }
        (EKindForm::Kpit(a, b), KindForm::Kpit(p, q)) => {
            same_kind(below, a, p) && same_kind(below, b, q)
        }
        _ => false,
    }
}

fn same_item(item: &OutItem, read: &CoreItem) -> bool {
    let named = item.name().as_str() == read.name().as_str();
    match (item, read) {
        (OutItem::Def { ty: a, body: b, .. }, CoreItem::Def { ty: c, body: d, .. }) => {
            named && same_type(LEVELS, a, c) && same_term(LEVELS, b, d)
        }
        (
            OutItem::TypeDef {
                kind: a,
                body: b,
                ..
            },
            CoreItem::TypeDef {
                kind: c,
                body: d,
                ..
            },
        ) => { named && same_kind(LEVELS, a, c) && same_type(LEVELS, b, d) }
        _ => false,
    }
}

/// Whether the items are the same, one after the other.
pub(crate) fn same_items(items: &[OutItem], read: &[CoreItem]) -> bool {
    if items.len() != read.len() {
        return false;
    }
    for (item, given) in items.iter().zip(read.iter()) {
        if !same_item(item, given) {
            return false;
        }
    }
    true
}
