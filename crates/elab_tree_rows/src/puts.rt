//! Putting a part for a variable.
use crate::calls::put;
use crate::guides;
use crate::page::Page;
use crate::terms::{ap, app, beta, function, lam, phi, rho, tapp};
use crate::types::{at, eq, kpi, pi, tlam};
use elab_tree::{EGuide, EPure, ETerm, EType};
use std::alloc::Global;

/// The variables above the one that is put are lowered, and under a binder the part is raised.
fn term_in_terms(page: &mut Page, alloc: Global) {
    let inner = app(alloc, ETerm::var(alloc, 0), ETerm::var(alloc, 1));
    let outer = app(alloc, inner, ETerm::var(alloc, 2));
    put(page, alloc, 1, ETerm::name(alloc, 5), outer);
    let call = app(alloc, ETerm::var(alloc, 0), ETerm::var(alloc, 1));
    let under = lam(alloc, EType::name(alloc, 0), call);
    put(page, alloc, 0, ETerm::var(alloc, 2), under);
}

/// In sides the part's erasure is put.
fn term_in_sides(page: &mut Page, alloc: Global) {
    let sides = eq(alloc, ap(alloc, EPure::var(alloc, 0), EPure::var(alloc, 1)));
    let identity = lam(alloc, EType::name(alloc, 5), ETerm::var(alloc, 0));
    put(page, alloc, 0, identity, sides);
    let at_type = tapp(alloc, ETerm::var(alloc, 3), EType::var(alloc, 4));
    put(page, alloc, 0, at_type, beta(alloc, EPure::var(alloc, 0)));
}

fn term_in_kept(page: &mut Page, alloc: Global) {
    let at_type = tapp(alloc, ETerm::var(alloc, 3), EType::var(alloc, 4));
    let tree = phi(alloc, ETerm::var(alloc, 0), EPure::var(alloc, 0));
    put(page, alloc, 0, at_type, tree);
}

/// A guide stands under a binder of its own.
fn term_in_guides(page: &mut Page, alloc: Global) {
    let guide = guides::at(alloc, EGuide::name(alloc, 9), EPure::var(alloc, 1));
    let tree = rho(alloc, ETerm::var(alloc, 0), guide, EType::var(alloc, 2));
    let at_type = tapp(alloc, ETerm::var(alloc, 4), EType::name(alloc, 0));
    put(page, alloc, 0, at_type, tree);
    let part = guides::at(alloc, EGuide::name(alloc, 1), EPure::var(alloc, 2));
    let guide = guides::pi(alloc, EGuide::name(alloc, 1), part);
    let tree = rho(alloc, ETerm::name(alloc, 0), guide, EType::name(alloc, 0));
    put(page, alloc, 0, ETerm::var(alloc, 5), tree);
}

fn term_in_sides_under_binders(page: &mut Page, alloc: Global) {
    let side = ap(alloc, EPure::var(alloc, 1), EPure::var(alloc, 0));
    let tree = lam(alloc, EType::name(alloc, 0), beta(alloc, side));
    put(page, alloc, 0, ETerm::var(alloc, 2), tree);
    let part = ap(alloc, EPure::var(alloc, 1), EPure::var(alloc, 0));
    put(
        page,
        alloc,
        0,
        ETerm::var(alloc, 2),
        eq(alloc, function(alloc, part)),
    );
}

/// A tree that has not the variable stays, and a term for a variable of types has no answer.
fn term_in_others(page: &mut Page, alloc: Global) {
    let domain = at(alloc, EType::name(alloc, 1), ETerm::var(alloc, 0));
    put(page, alloc, 0, ETerm::var(alloc, 4), kpi(alloc, domain));
    let tree = app(alloc, ETerm::var(alloc, 0), ETerm::var(alloc, 1));
    put(page, alloc, 3, ETerm::var(alloc, 5), tree);
    put(page, alloc, 0, ETerm::name(alloc, 1), EType::var(alloc, 0));
}

fn type_in_types(page: &mut Page, alloc: Global) {
    let arrow = pi(alloc, EType::var(alloc, 0), EType::var(alloc, 1));
    let part = at(alloc, EType::name(alloc, 3), ETerm::name(alloc, 1));
    put(page, alloc, 0, part, arrow);
    let arrow = pi(alloc, EType::var(alloc, 0), EType::var(alloc, 1));
    put(page, alloc, 0, EType::var(alloc, 4), arrow);
}

/// In guides the part's erasure is put.
fn type_in_guides(page: &mut Page, alloc: Global) {
    let tree = rho(
        alloc,
        ETerm::name(alloc, 0),
        EGuide::var(alloc, 1),
        EType::var(alloc, 0),
    );
    let part = tlam(alloc, EType::name(alloc, 3), EType::var(alloc, 1));
    put(page, alloc, 0, part, tree);
    put(
        page,
        alloc,
        0,
        EType::name(alloc, 2),
        kpi(alloc, EType::var(alloc, 0)),
    );
}

fn pure_in_erased(page: &mut Page, alloc: Global) {
    let tree = ap(
        alloc,
        EPure::var(alloc, 0),
        function(alloc, EPure::var(alloc, 1)),
    );
    put(page, alloc, 0, EPure::var(alloc, 4), tree);
    let domain = guides::at(alloc, EGuide::name(alloc, 0), EPure::var(alloc, 0));
    let part = guides::at(alloc, EGuide::name(alloc, 0), EPure::var(alloc, 1));
    let guide = guides::pi(alloc, domain, part);
    put(page, alloc, 0, EPure::name(alloc, 3), guide);
    let domain = guides::at(alloc, EGuide::name(alloc, 0), EPure::var(alloc, 0));
    put(
        page,
        alloc,
        0,
        EPure::name(alloc, 3),
        guides::kpi(alloc, domain),
    );
}

fn guide_in_guides(page: &mut Page, alloc: Global) {
    let guide = guides::pi(alloc, EGuide::var(alloc, 0), EGuide::var(alloc, 1));
    put(page, alloc, 0, EGuide::var(alloc, 5), guide);
    let guide = guides::pi(alloc, EGuide::var(alloc, 1), EGuide::var(alloc, 4));
    put(page, alloc, 1, EGuide::name(alloc, 5), guide);
    let kind = guides::kpi(alloc, EGuide::var(alloc, 0));
    put(page, alloc, 0, EGuide::name(alloc, 2), kind);
}

/// The lines of this file.
pub(crate) fn lines(page: &mut Page, alloc: Global) {
    term_in_terms(page, alloc);
    term_in_sides(page, alloc);
    term_in_kept(page, alloc);
    term_in_guides(page, alloc);
    term_in_sides_under_binders(page, alloc);
    term_in_others(page, alloc);
    type_in_types(page, alloc);
    type_in_guides(page, alloc);
    pure_in_erased(page, alloc);
    guide_in_guides(page, alloc);
}
