//! Trees as text: the forms that the rows have.
use crate::page::Page;
use elab_tree::{EPure, EPureForm, ETerm, ETermForm, EType, ETypeForm};

fn show_pure(tree: &EPure, page: &mut Page) {
    match tree.form() {
        EPureForm::Var(number) => page.number(" x", *number as u64),
        EPureForm::Name(number) => page.number(" n", *number as u64),
        _ => page.word(" another"),
    }
}

#[cycle(show)]
fn show_term(tree: &ETerm, page: &mut Page) {
    match tree.form() {
        ETermForm::Var(number) => page.number(" x", *number as u64),
        ETermForm::Name(number) => page.number(" n", *number as u64),
        ETermForm::Tapp(head, arg) => {
            page.word(" (tapp");
            show_term(head, page);
            show_type(arg, page);
            page.word(")");
        }
        _ => page.word(" another"),
    }
}

#[cycle(show)]
pub(crate) fn show_type(tree: &EType, page: &mut Page) {
    page.word(opening(tree.form()));
    match tree.form() {
        ETypeForm::Var(number) | ETypeForm::Name(number) | ETypeForm::Unknown(number) => {
            return page.number("", *number as u64);
        }
        ETypeForm::Pi(left, right) | ETypeForm::Tlam(left, right) | ETypeForm::On(left, right) => {
            show_type(left, page);
            show_type(right, page);
        }
        ETypeForm::Allt(_, part) | ETypeForm::Xtlam(_, part) => show_type(part, page),
        ETypeForm::At(head, arg) => {
            show_type(head, page);
            show_term(arg, page);
        }
        ETypeForm::Eq(left, right) => {
            show_pure(left, page);
            show_pure(right, page);
        }
        _ => page.word("another"),
    }
    page.word(")");
}

/// How the form begins. One over a kind has the kind of types: no row has another.
fn opening(form: &ETypeForm) -> &str {
    match form {
        ETypeForm::Var(_) => " X",
        ETypeForm::Name(_) => " N",
        ETypeForm::Unknown(_) => " ?",
        ETypeForm::Pi(_, _) => " (pi",
        ETypeForm::Tlam(_, _) => " (tlam",
        ETypeForm::On(_, _) => " (on",
        ETypeForm::Allt(_, _) => " (allt star",
        ETypeForm::Xtlam(_, _) => " (xtlam star",
        ETypeForm::At(_, _) => " (at",
        ETypeForm::Eq(_, _) => " (eq",
        _ => " (",
    }
}
