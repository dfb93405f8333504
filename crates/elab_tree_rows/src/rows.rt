//! Raising variables, solving unknowns, erasing, and what a node keeps of its tree.
use crate::calls::{erase, shift, size, solve};
use crate::guides;
use crate::page::Page;
use crate::terms::{ap, app, beta, elam, function, lam, phi, rho, tapp, xlam};
use crate::types::{at, kpi, pi, tlam};
use elab_tree::{EGuide, EPure, ETerm, EType};
use std::alloc::Global;

fn raised_terms(page: &mut Page, alloc: Global) {
    let call = app(alloc, ETerm::var(alloc, 1), ETerm::var(alloc, 4));
    shift(page, alloc, 2, 3, call);
    let bound = lam(alloc, EType::name(alloc, 0), ETerm::var(alloc, 2));
    shift(page, alloc, 2, 3, bound);
    let free = lam(alloc, EType::name(alloc, 0), ETerm::var(alloc, 3));
    shift(page, alloc, 2, 3, free);
}

/// A guide stands under a binder of its own, and a variable has a number below 2 ^ 32.
fn raised_further(page: &mut Page, alloc: Global) {
    let guide = guides::pi(alloc, EGuide::var(alloc, 0), EGuide::var(alloc, 2));
    let tree = rho(alloc, ETerm::var(alloc, 0), guide, EType::var(alloc, 0));
    shift(page, alloc, 0, 2, tree);
    shift(page, alloc, 0, 1, ETerm::var(alloc, 4_294_967_294));
    shift(page, alloc, 0, 1, ETerm::var(alloc, 4_294_967_295));
}

fn raised_others(page: &mut Page, alloc: Global) {
    let applied = at(alloc, EType::var(alloc, 0), ETerm::var(alloc, 2));
    shift(page, alloc, 1, 5, applied);
    shift(page, alloc, 0, 1, kpi(alloc, EType::var(alloc, 2)));
    let identity = function(alloc, EPure::var(alloc, 0));
    shift(page, alloc, 0, 4, ap(alloc, identity, EPure::var(alloc, 0)));
}

fn raised_guides(page: &mut Page, alloc: Global) {
    let guide = guides::pi(alloc, EGuide::var(alloc, 0), EGuide::var(alloc, 1));
    shift(page, alloc, 0, 2, guide);
    shift(page, alloc, 0, 1, guides::kpi(alloc, EGuide::var(alloc, 0)));
}

/// Under a binder the solution is raised, and an unknown that has none stays.
fn solved_types(page: &mut Page, alloc: Global) {
    let arrow = pi(alloc, EType::unknown(alloc, 0), EType::unknown(alloc, 0));
    solve(page, alloc, 0, EType::var(alloc, 3), arrow);
    let arrow = pi(alloc, EType::unknown(alloc, 0), EType::unknown(alloc, 1));
    solve(page, alloc, 1, EType::var(alloc, 3), arrow);
    solve(
        page,
        alloc,
        1,
        EType::var(alloc, 3),
        EType::unknown(alloc, 7),
    );
}

/// In guides the solution's erasure is put.
fn solved_others(page: &mut Page, alloc: Global) {
    let guide = EGuide::unknown(alloc, 0);
    let tree = rho(alloc, ETerm::var(alloc, 0), guide, EType::name(alloc, 0));
    let part = tlam(alloc, EType::name(alloc, 2), EType::var(alloc, 1));
    solve(page, alloc, 0, part, tree);
    solve(
        page,
        alloc,
        0,
        EType::name(alloc, 2),
        kpi(alloc, EType::unknown(alloc, 0)),
    );
}

/// The binders that erasure takes away lower the variables over them, and a term that needs one of them has no erasure.
fn erased_binders(page: &mut Page, alloc: Global) {
    let call = app(alloc, ETerm::var(alloc, 0), ETerm::var(alloc, 3));
    let function = lam(alloc, EType::var(alloc, 1), call);
    let tree = xlam(alloc, elam(alloc, EType::var(alloc, 0), function));
    erase(page, alloc, tree);
    let tree = elam(alloc, EType::name(alloc, 0), ETerm::var(alloc, 0));
    erase(page, alloc, tree);
}

fn erased_terms(page: &mut Page, alloc: Global) {
    let guide = EGuide::name(alloc, 0);
    let tree = rho(alloc, ETerm::var(alloc, 4), guide, EType::name(alloc, 0));
    erase(page, alloc, tree);
    let tree = phi(alloc, ETerm::var(alloc, 0), EPure::var(alloc, 6));
    erase(page, alloc, tree);
    erase(page, alloc, beta(alloc, EPure::var(alloc, 2)));
}

fn erased_others(page: &mut Page, alloc: Global) {
    let identity = lam(alloc, EType::name(alloc, 0), ETerm::var(alloc, 0));
    let part = at(alloc, EType::var(alloc, 2), identity);
    erase(page, alloc, tlam(alloc, EType::name(alloc, 0), part));
    erase(page, alloc, EType::unknown(alloc, 4));
    erase(page, alloc, kpi(alloc, EType::var(alloc, 1)));
}

fn sizes(page: &mut Page, alloc: Global) {
    size(page, ap(alloc, EPure::var(alloc, 0), EPure::var(alloc, 0)));
    size(page, EGuide::unknown(alloc, 0));
    size(page, guides::kpi(alloc, EGuide::unknown(alloc, 0)));
    size(
        page,
        tapp(alloc, ETerm::var(alloc, 0), EType::unknown(alloc, 0)),
    );
    size(page, EType::unknown(alloc, 0));
    size(page, kpi(alloc, EType::unknown(alloc, 0)));
}

/// The lines of this file.
pub(crate) fn lines(page: &mut Page, alloc: Global) {
    raised_terms(page, alloc);
    raised_further(page, alloc);
    raised_others(page, alloc);
    raised_guides(page, alloc);
    solved_types(page, alloc);
    solved_others(page, alloc);
    erased_binders(page, alloc);
    erased_terms(page, alloc);
    erased_others(page, alloc);
    sizes(page, alloc);
}
