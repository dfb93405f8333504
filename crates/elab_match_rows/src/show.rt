//! Trees as text: the forms that the rows have.
use crate::page::Page;
use elab_tree::{EKind, EKindForm, EPure, EPureForm, ETerm, ETermForm, EType, ETypeForm};

fn show_pure(tree: &EPure, page: &mut Page) {
    match tree.form() {
        EPureForm::Var(number) => page.number(" x", *number),
        EPureForm::Name(number) => page.number(" n", *number),
        _ => page.word(" another"),
    }
}

/// The form's word, and its two parts.
#[cycle(show)]
fn two_types(word: &str, left: &EType, right: &EType, page: &mut Page) {
    page.word(word);
    show_type(left, page);
    show_type(right, page);
    page.word(")");
}

#[cycle(show)]
fn kind_and_type(word: &str, domain: &EKind, part: &EType, page: &mut Page) {
    page.word(word);
    show_kind(domain, page);
    show_type(part, page);
    page.word(")");
}

#[cycle(show)]
pub(crate) fn show_type(tree: &EType, page: &mut Page) {
    match tree.form() {
        ETypeForm::Var(number) => page.number(" X", *number),
        ETypeForm::Name(number) => page.number(" N", *number),
        ETypeForm::Unknown(number) => page.number(" ?", *number),
        ETypeForm::Pi(a, b) => two_types(" (pi", a, b, page),
        ETypeForm::All(a, b) => two_types(" (all", a, b, page),
        ETypeForm::Iota(a, b) => two_types(" (iota", a, b, page),
        ETypeForm::Tlam(a, b) => two_types(" (tlam", a, b, page),
        ETypeForm::On(a, b) => two_types(" (on", a, b, page),
        ETypeForm::Allt(a, b) => kind_and_type(" (allt", a, b, page),
        ETypeForm::Xtlam(a, b) => kind_and_type(" (xtlam", a, b, page),
        ETypeForm::At(a, b) => {
            page.word(" (at");
            show_type(a, page);
            show_term(b, page);
            page.word(")");
        }
        ETypeForm::Eq(a, b) => {
            page.word(" (eq");
            show_pure(a, page);
            show_pure(b, page);
            page.word(")");
        }
    }
}

#[cycle(show)]
fn show_term(tree: &ETerm, page: &mut Page) {
    match tree.form() {
        ETermForm::Var(number) => page.number(" x", *number),
        ETermForm::Name(number) => page.number(" n", *number),
        ETermForm::Tapp(a, b) => {
            page.word(" (tapp");
            show_term(a, page);
            show_type(b, page);
            page.word(")");
        }
        _ => page.word(" another"),
    }
}

#[cycle(show)]
fn show_kind(tree: &EKind, page: &mut Page) {
    match tree.form() {
        EKindForm::Star => page.word(" star"),
        EKindForm::Kpi(a, b) => {
            page.word(" (kpi");
            show_type(a, page);
            show_kind(b, page);
            page.word(")");
        }
        EKindForm::Kpit(a, b) => {
            page.word(" (kpit");
            show_kind(a, page);
            show_kind(b, page);
            page.word(")");
        }
    }
}
