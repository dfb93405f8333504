//! Trees of 4,096 levels, and of one more: what is deeper than 4,096 is refused.
use crate::Made;
use crate::calls::{put, shift, size, solve};
use crate::page::Page;
use crate::terms::tapp;
use crate::types::{at, eq};
use elab_tree::{EGuide, EPure, ETerm, EType};
use std::alloc::Global;

/// Projections that deep over the term.
fn projections(alloc: Global, levels: u32, term: Made<ETerm>) -> Made<ETerm> {
    let mut tree = term?;
    for _ in 0..levels {
        tree = ETerm::fst(alloc, &tree)?;
    }
    Ok(tree)
}

/// Functions that deep over the innermost variable of their context.
fn functions(alloc: Global, levels: u32) -> Made<EPure> {
    let mut tree = EPure::var(alloc, levels)?;
    for _ in 0..levels {
        tree = EPure::function(alloc, &tree)?;
    }
    Ok(tree)
}

/// Functions that deep over the innermost variable of their context, as guides.
fn guides(alloc: Global, levels: u32) -> Made<EGuide> {
    let mut tree = EGuide::var(alloc, levels)?;
    for _ in 0..levels {
        tree = EGuide::tlam(alloc, &tree)?;
    }
    Ok(tree)
}

fn raised(page: &mut Page, alloc: Global) {
    shift(
        page,
        alloc,
        0,
        1,
        projections(alloc, 4096, ETerm::var(alloc, 0)),
    );
    shift(
        page,
        alloc,
        0,
        1,
        projections(alloc, 4097, ETerm::var(alloc, 0)),
    );
}

/// The part's levels and the tree's together.
fn put_terms(page: &mut Page, alloc: Global) {
    let part = projections(alloc, 96, ETerm::var(alloc, 1));
    let tree = projections(alloc, 4000, ETerm::var(alloc, 0));
    put(page, alloc, 0, part, tree);
    let part = projections(alloc, 97, ETerm::var(alloc, 1));
    let tree = projections(alloc, 4000, ETerm::var(alloc, 0));
    put(page, alloc, 0, part, tree);
}

/// A part is not too deep where it is not put, or only its erasure is.
fn put_deep_parts(page: &mut Page, alloc: Global) {
    let part = projections(alloc, 5000, ETerm::var(alloc, 2));
    put(page, alloc, 3, part, ETerm::var(alloc, 1));
    let part = projections(alloc, 5000, ETerm::var(alloc, 1));
    put(page, alloc, 0, part, eq(alloc, EPure::var(alloc, 0)));
}

fn put_erased(page: &mut Page, alloc: Global) {
    put(
        page,
        alloc,
        0,
        EPure::name(alloc, 1),
        functions(alloc, 4096),
    );
    put(
        page,
        alloc,
        0,
        EPure::name(alloc, 1),
        functions(alloc, 4097),
    );
    put(page, alloc, 0, EGuide::name(alloc, 1), guides(alloc, 4096));
    put(page, alloc, 0, EGuide::name(alloc, 1), guides(alloc, 4097));
}

fn unknown_below(alloc: Global) -> Made<ETerm> {
    let applied = tapp(alloc, ETerm::var(alloc, 0), EType::unknown(alloc, 0));
    projections(alloc, 4095, applied)
}

fn solved(page: &mut Page, alloc: Global) {
    solve(page, alloc, 0, EType::name(alloc, 0), unknown_below(alloc));
    let part = at(alloc, EType::name(alloc, 0), ETerm::name(alloc, 0));
    solve(page, alloc, 0, part, unknown_below(alloc));
}

/// No tree has more than 16,384 levels.
fn deepest(page: &mut Page, alloc: Global) {
    size(page, projections(alloc, 16_384, ETerm::var(alloc, 0)));
    size(page, projections(alloc, 16_385, ETerm::var(alloc, 0)));
}

/// The lines of this file.
pub(crate) fn lines(page: &mut Page, alloc: Global) {
    raised(page, alloc);
    put_terms(page, alloc);
    put_deep_parts(page, alloc);
    put_erased(page, alloc);
    solved(page, alloc);
    deepest(page, alloc);
}
