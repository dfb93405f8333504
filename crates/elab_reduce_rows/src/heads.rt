//! Names, unknowns, contractions, and what is stuck.
use crate::page::{Ask, Page};
use crate::trees::{at, eq, identity, on, pi, tapp, tlam, xtlam};
use elab_tree::{EPure, ETerm, EType, Env};
use std::alloc::Global;

/// A datatype's name is kept where that is asked. A term's name, and what is no item's, unfolds to nothing.
fn names(page: &mut Page, alloc: Global, env: &Env) {
    page.head(alloc, env, EType::name(alloc, 0), Ask::Kept(0));
    page.head(alloc, env, EType::name(alloc, 0), Ask::Unfolded(1));
    page.head(alloc, env, EType::name(alloc, 0), Ask::Unfolded(0));
    page.head(alloc, env, EType::name(alloc, 1), Ask::Unfolded(0));
    page.head(alloc, env, EType::name(alloc, 99), Ask::Unfolded(0));
    page.head(alloc, env, EType::name(alloc, 3), Ask::Kept(1));
}

fn applied_names(page: &mut Page, alloc: Global, env: &Env) {
    let data = on(alloc, EType::name(alloc, 2), EType::name(alloc, 0));
    page.head(alloc, env, data, Ask::Kept(2));
    let data = on(alloc, EType::name(alloc, 2), EType::name(alloc, 0));
    page.head(alloc, env, data, Ask::Unfolded(2));
    let data = on(alloc, EType::name(alloc, 2), EType::name(alloc, 0));
    page.head(alloc, env, data, Ask::Unfolded(3));
    let data = on(alloc, EType::name(alloc, 0), EType::var(alloc, 1));
    page.head(alloc, env, data, Ask::Kept(0));
    let data = on(alloc, EType::name(alloc, 0), EType::var(alloc, 1));
    page.head(alloc, env, data, Ask::Unfolded(1));
}

/// An unknown is its own head form, and so is what applies one.
fn unknowns(page: &mut Page, alloc: Global, env: &Env) {
    page.head(alloc, env, EType::unknown(alloc, 0), Ask::Unfolded(0));
    let call = on(alloc, EType::unknown(alloc, 0), EType::name(alloc, 2));
    page.head(alloc, env, call, Ask::Unfolded(0));
    let call = on(alloc, EType::unknown(alloc, 0), EType::var(alloc, 1));
    let call = at(alloc, call, ETerm::var(alloc, 2));
    page.head(alloc, env, call, Ask::Unfolded(0));
    let call = on(alloc, EType::name(alloc, 2), EType::unknown(alloc, 4));
    page.head(alloc, env, call, Ask::Unfolded(2));
    let call = on(alloc, EType::name(alloc, 2), EType::unknown(alloc, 4));
    let call = on(alloc, call, EType::var(alloc, 3));
    page.head(alloc, env, call, Ask::Unfolded(2));
}

/// The innermost argument is put for the outermost variable.
fn two_arguments(page: &mut Page, alloc: Global, env: &Env) {
    let first = xtlam(alloc, xtlam(alloc, EType::var(alloc, 1)));
    let call = on(alloc, first, EType::var(alloc, 3));
    let call = on(alloc, call, EType::var(alloc, 4));
    page.head(alloc, env, call, Ask::Unfolded(2));
    let second = xtlam(alloc, xtlam(alloc, EType::var(alloc, 0)));
    let call = on(alloc, second, EType::var(alloc, 3));
    let call = on(alloc, call, EType::var(alloc, 4));
    page.head(alloc, env, call, Ask::Unfolded(2));
}

/// Terms are put for variables, and under a binder they are raised.
fn terms(page: &mut Page, alloc: Global, env: &Env) {
    let domain = at(alloc, EType::var(alloc, 1), ETerm::var(alloc, 0));
    let part = at(alloc, EType::var(alloc, 2), ETerm::var(alloc, 1));
    let function = tlam(alloc, pi(alloc, domain, part));
    let call = at(alloc, function, ETerm::var(alloc, 5));
    page.head(alloc, env, call, Ask::Unfolded(1));
    let part = at(alloc, EType::var(alloc, 0), ETerm::var(alloc, 1));
    let function = tlam(alloc, xtlam(alloc, part));
    let call = at(alloc, function, ETerm::var(alloc, 5));
    let call = on(alloc, call, EType::var(alloc, 7));
    page.head(alloc, env, call, Ask::Unfolded(2));
}

/// In a side the erasure of the term is put.
fn sides(page: &mut Page, alloc: Global, env: &Env) {
    for units in 0..2 {
        let function = tlam(alloc, eq(alloc, EPure::var(alloc, 0)));
        let part = tapp(alloc, ETerm::var(alloc, 3), EType::var(alloc, 4));
        page.head(alloc, env, at(alloc, function, part), Ask::Unfolded(units));
    }
}

/// No step is made at an argument or within a form, and a function waits for an argument of its own class.
fn stuck(page: &mut Page, alloc: Global, env: &Env) {
    let call = at(alloc, EType::var(alloc, 0), ETerm::var(alloc, 1));
    page.head(alloc, env, call, Ask::Unfolded(0));
    let call = at(alloc, identity(alloc), ETerm::var(alloc, 1));
    page.head(alloc, env, call, Ask::Unfolded(0));
    let call = at(alloc, identity(alloc), ETerm::var(alloc, 1));
    let call = on(alloc, call, EType::var(alloc, 2));
    page.head(alloc, env, call, Ask::Unfolded(0));
    let constant = tlam(alloc, EType::var(alloc, 1));
    let call = on(alloc, constant, EType::var(alloc, 3));
    page.head(alloc, env, call, Ask::Unfolded(0));
}

fn still(page: &mut Page, alloc: Global, env: &Env) {
    let inner = on(alloc, EType::name(alloc, 2), EType::var(alloc, 1));
    let product = pi(alloc, inner, EType::var(alloc, 0));
    page.head(alloc, env, product, Ask::Unfolded(0));
    let inner = on(alloc, EType::name(alloc, 2), EType::var(alloc, 1));
    let call = on(alloc, EType::var(alloc, 0), inner);
    page.head(alloc, env, call, Ask::Unfolded(0));
}

/// The lines of this file.
pub(crate) fn lines(page: &mut Page, alloc: Global, env: &Env) {
    names(page, alloc, env);
    applied_names(page, alloc, env);
    unknowns(page, alloc, env);
    two_arguments(page, alloc, env);
    terms(page, alloc, env);
    sides(page, alloc, env);
    stuck(page, alloc, env);
    still(page, alloc, env);
}
