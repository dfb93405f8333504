//! Towers of doublings, with units just enough and one less.
use crate::Made;
use crate::items::TOP;
use crate::page::{Ask, Page};
use crate::trees::{identity, on, xtlam};
use elab_tree::{EType, Env};
use std::alloc::Global;

/// `(xtlam X star (on X X))`
fn doubling(alloc: Global) -> Made<EType> {
    let variable = EType::var(alloc, 0)?;
    xtlam(alloc, EType::on(alloc, &variable, &variable))
}

/// The identity with that many doublings over it. A tower takes twice the units of the one below, and two more: one to contract the doubling, and
/// one to contract the identity that is left of the lower tower on the left. So it takes 2 ^ (doublings + 1) - 2 units.
fn doubled(alloc: Global, doublings: u32) -> Made<EType> {
    let doubling = doubling(alloc)?;
    let mut tree = identity(alloc)?;
    for _ in 0..doublings {
        tree = EType::on(alloc, &doubling, &tree)?;
    }
    Ok(tree)
}

fn doublings(page: &mut Page, alloc: Global, env: &Env) {
    page.head(alloc, env, doubled(alloc, 1), Ask::Unfolded(2));
    page.head(alloc, env, doubled(alloc, 1), Ask::Unfolded(1));
    page.head(alloc, env, doubled(alloc, 20), Ask::Unfolded(2_097_150));
    page.head(alloc, env, doubled(alloc, 20), Ask::Unfolded(2_097_149));
}

/// The item 2 takes two units, one to unfold and one to contract, and each item over it takes two and twice those of the item below. So the item
/// n takes 2 ^ n - 2 units.
fn named(page: &mut Page, alloc: Global, env: &Env, item: u32, units: u64) {
    let call = on(alloc, EType::name(alloc, item), EType::var(alloc, 7));
    page.head(alloc, env, call, Ask::Kept(units));
}

/// What applies itself to itself takes all units.
fn endless(page: &mut Page, alloc: Global, env: &Env) {
    let call = on(alloc, doubling(alloc), doubling(alloc));
    page.head(alloc, env, call, Ask::Unfolded(1000));
}

/// The lines of this file.
pub(crate) fn lines(page: &mut Page, alloc: Global, env: &Env) {
    doublings(page, alloc, env);
    named(page, alloc, env, 3, 6);
    named(page, alloc, env, 3, 5);
    named(page, alloc, env, TOP, 4094);
    named(page, alloc, env, TOP, 4093);
    endless(page, alloc, env);
}
