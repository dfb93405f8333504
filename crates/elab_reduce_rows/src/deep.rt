//! Head forms of 4,096 levels, and of one more.
use crate::Made;
use crate::page::{Ask, Page};
use crate::trees::{arrow, on, pi, xtlam};
use elab_tree::{EKind, EType, Env};
use std::alloc::Global;

/// Products that deep over the item 1.
fn nested(alloc: Global, levels: u32) -> Made<EType> {
    let star = EKind::star(alloc)?;
    let mut tree = EType::name(alloc, 1)?;
    for _ in 0..levels {
        tree = EType::allt(alloc, &star, &tree)?;
    }
    Ok(tree)
}

/// A variable applied so often to the item 1.
fn applied_often(alloc: Global, times: u32) -> Made<EType> {
    let arg = EType::name(alloc, 1)?;
    let mut tree = EType::var(alloc, 0)?;
    for _ in 0..times {
        tree = EType::on(alloc, &tree, &arg)?;
    }
    Ok(tree)
}

/// `(xtlam X star N1)`, which drops its argument.
fn constant(alloc: Global) -> Made<EType> {
    xtlam(alloc, EType::name(alloc, 1))
}

/// `(xtlam X star (on (xtlam Y star N1) (pi x X X)))`: its body is two levels deeper than its argument, which the next contraction drops.
fn dropped_later(alloc: Global) -> Made<EType> {
    let product = pi(alloc, EType::var(alloc, 0), EType::var(alloc, 1));
    xtlam(alloc, on(alloc, constant(alloc), product))
}

/// What a contraction gives is one level deeper than the argument.
fn contractions(page: &mut Page, alloc: Global, env: &Env) {
    let call = on(alloc, arrow(alloc), nested(alloc, 4095));
    page.head(alloc, env, call, Ask::Unfolded(1));
    let call = on(alloc, arrow(alloc), nested(alloc, 4096));
    page.head(alloc, env, call, Ask::Unfolded(1));
    let call = on(alloc, arrow(alloc), nested(alloc, 4096));
    page.head(alloc, env, call, Ask::Unfolded(0));
}

/// A tree that a contraction gives may not be too deep, even if the head form is not. An argument that is dropped may.
fn dropped(page: &mut Page, alloc: Global, env: &Env) {
    let call = on(alloc, dropped_later(alloc), nested(alloc, 4094));
    page.head(alloc, env, call, Ask::Unfolded(2));
    let call = on(alloc, dropped_later(alloc), nested(alloc, 4095));
    page.head(alloc, env, call, Ask::Unfolded(2));
    let call = on(alloc, constant(alloc), nested(alloc, 5000));
    page.head(alloc, env, call, Ask::Unfolded(1));
}

/// The head form as a whole may not be too deep.
fn wholes(page: &mut Page, alloc: Global, env: &Env) {
    page.head(alloc, env, nested(alloc, 4096), Ask::Unfolded(0));
    page.head(alloc, env, nested(alloc, 4097), Ask::Unfolded(0));
    page.head(alloc, env, applied_often(alloc, 4096), Ask::Unfolded(0));
    page.head(alloc, env, applied_often(alloc, 4097), Ask::Unfolded(0));
    let call = on(alloc, EType::var(alloc, 0), nested(alloc, 4095));
    page.head(alloc, env, call, Ask::Unfolded(0));
    let call = on(alloc, EType::var(alloc, 0), nested(alloc, 4096));
    page.head(alloc, env, call, Ask::Unfolded(0));
}

/// The lines of this file.
pub(crate) fn lines(page: &mut Page, alloc: Global, env: &Env) {
    contractions(page, alloc, env);
    dropped(page, alloc, env);
    wholes(page, alloc, env);
}
