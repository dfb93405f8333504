//! Trees as text.
use crate::page::Page;
use elab_tree::{
    EGuide, EGuideForm, EGuideKind, EGuideKindForm, EKind, EKindForm, EPure, EPureForm, ETerm,
    ETermForm, EType, ETypeForm,
};

pub(crate) fn show_pure(tree: &EPure, page: &mut Page) {
    match tree.form() {
        EPureForm::Var(number) => page.number(" x", *number),
        EPureForm::Name(number) => page.number(" n", *number),
        EPureForm::Function(a) => {
            page.word(" (fn");
            show_pure(a, page);
            page.word(")");
        }
        EPureForm::Ap(a, b) => {
            page.word(" (ap");
            show_pure(a, page);
            show_pure(b, page);
            page.word(")");
        }
    }
}

/// How a guide that has parts begins.
fn guide_word(form: &EGuideForm) -> &'static str {
    match form {
        EGuideForm::Pi(_, _) => " (pi",
        EGuideForm::All(_, _) => " (all",
        EGuideForm::Allt(_, _) => " (allt",
        EGuideForm::Tlam(_) => " (tlam",
        EGuideForm::Xtlam(_) => " (xtlam",
        EGuideForm::At(_, _) => " (at",
        EGuideForm::On(_, _) => " (on",
        EGuideForm::Iota(_, _) => " (iota",
        EGuideForm::Eq(_, _) => " (eq",
        EGuideForm::Var(_) | EGuideForm::Name(_) | EGuideForm::Unknown(_) => "",
    }
}

#[cycle(show_guide)]
pub(crate) fn show_guide(tree: &EGuide, page: &mut Page) {
    let form = tree.form();
    page.word(guide_word(form));
    match form {
        EGuideForm::Var(number) => return page.number(" X", *number),
        EGuideForm::Name(number) => return page.number(" N", *number),
        EGuideForm::Unknown(number) => return page.number(" ?", *number),
        EGuideForm::Pi(a, b)
        | EGuideForm::All(a, b)
        | EGuideForm::On(a, b)
        | EGuideForm::Iota(a, b) => {
            show_guide(a, page);
            show_guide(b, page);
        }
        EGuideForm::Allt(a, b) => {
            show_guide_kind(a, page);
            show_guide(b, page);
        }
        EGuideForm::Tlam(a) | EGuideForm::Xtlam(a) => show_guide(a, page),
        EGuideForm::At(a, b) => {
            show_guide(a, page);
            show_pure(b, page);
        }
        EGuideForm::Eq(a, b) => {
            show_pure(a, page);
            show_pure(b, page);
        }
    }
    page.word(")");
}

#[cycle(show_guide)]
pub(crate) fn show_guide_kind(tree: &EGuideKind, page: &mut Page) {
    match tree.form() {
        EGuideKindForm::Star => return page.word(" star"),
        EGuideKindForm::Kpi(a, b) => {
            page.word(" (kpi");
            show_guide(a, page);
            show_guide_kind(b, page);
        }
        EGuideKindForm::Kpit(a, b) => {
            page.word(" (kpit");
            show_guide_kind(a, page);
            show_guide_kind(b, page);
        }
    }
    page.word(")");
}

/// How a term that has parts begins.
fn term_word(form: &ETermForm) -> &'static str {
    match form {
        ETermForm::Lam(_, _) => " (lam",
        ETermForm::Elam(_, _) => " (elam",
        ETermForm::Xlam(_, _) => " (xlam",
        ETermForm::App(_, _) => " (app",
        ETermForm::Eapp(_, _) => " (eapp",
        ETermForm::Tapp(_, _) => " (tapp",
        ETermForm::Pair(_, _, _) => " (pair",
        ETermForm::Fst(_) => " (fst",
        ETermForm::Snd(_) => " (snd",
        ETermForm::Beta(_, _) => " (beta",
        ETermForm::Rho(_, _, _, _) => " (rho",
        ETermForm::Phi(_, _, _) => " (phi",
        ETermForm::Delta(_, _) => " (delta",
        ETermForm::Var(_) | ETermForm::Name(_) => "",
    }
}

#[cycle(show_term)]
pub(crate) fn show_term(tree: &ETerm, page: &mut Page) {
    let form = tree.form();
    page.word(term_word(form));
    match form {
        ETermForm::Var(number) => return page.number(" x", *number),
        ETermForm::Name(number) => return page.number(" n", *number),
        ETermForm::Lam(a, b) | ETermForm::Elam(a, b) | ETermForm::Delta(a, b) => {
            show_type(a, page);
            show_term(b, page);
        }
        ETermForm::Xlam(a, b) => {
            show_kind(a, page);
            show_term(b, page);
        }
        ETermForm::App(a, b) | ETermForm::Eapp(a, b) => {
            show_term(a, page);
            show_term(b, page);
        }
        ETermForm::Tapp(a, b) => {
            show_term(a, page);
            show_type(b, page);
        }
        ETermForm::Pair(a, b, c) => {
            show_term(a, page);
            show_term(b, page);
            show_type(c, page);
        }
        ETermForm::Fst(a) | ETermForm::Snd(a) => show_term(a, page),
        ETermForm::Beta(a, b) => {
            show_pure(a, page);
            show_pure(b, page);
        }
        ETermForm::Rho(a, b, c, d) => {
            show_term(a, page);
            show_guide(b, page);
            show_type(c, page);
            show_term(d, page);
        }
        ETermForm::Phi(a, b, c) => {
            show_term(a, page);
            show_term(b, page);
            show_pure(c, page);
        }
    }
    page.word(")");
}

/// How a type that has parts begins.
fn type_word(form: &ETypeForm) -> &'static str {
    match form {
        ETypeForm::Pi(_, _) => " (pi",
        ETypeForm::All(_, _) => " (all",
        ETypeForm::Allt(_, _) => " (allt",
        ETypeForm::Tlam(_, _) => " (tlam",
        ETypeForm::Xtlam(_, _) => " (xtlam",
        ETypeForm::At(_, _) => " (at",
        ETypeForm::On(_, _) => " (on",
        ETypeForm::Iota(_, _) => " (iota",
        ETypeForm::Eq(_, _) => " (eq",
        ETypeForm::Var(_) | ETypeForm::Name(_) | ETypeForm::Unknown(_) => "",
    }
}

#[cycle(show_term)]
pub(crate) fn show_type(tree: &EType, page: &mut Page) {
    let form = tree.form();
    page.word(type_word(form));
    match form {
        ETypeForm::Var(number) => return page.number(" X", *number),
        ETypeForm::Name(number) => return page.number(" N", *number),
        ETypeForm::Unknown(number) => return page.number(" ?", *number),
        ETypeForm::Pi(a, b)
        | ETypeForm::All(a, b)
        | ETypeForm::Tlam(a, b)
        | ETypeForm::On(a, b)
        | ETypeForm::Iota(a, b) => {
            show_type(a, page);
            show_type(b, page);
        }
        ETypeForm::Allt(a, b) | ETypeForm::Xtlam(a, b) => {
            show_kind(a, page);
            show_type(b, page);
        }
        ETypeForm::At(a, b) => {
            show_type(a, page);
            show_term(b, page);
        }
        ETypeForm::Eq(a, b) => {
            show_pure(a, page);
            show_pure(b, page);
        }
    }
    page.word(")");
}

#[cycle(show_term)]
pub(crate) fn show_kind(tree: &EKind, page: &mut Page) {
    match tree.form() {
        EKindForm::Star => return page.word(" star"),
        EKindForm::Kpi(a, b) => {
            page.word(" (kpi");
            show_type(a, page);
            show_kind(b, page);
        }
        EKindForm::Kpit(a, b) => {
            page.word(" (kpit");
            show_kind(a, page);
            show_kind(b, page);
        }
    }
    page.word(")");
}
