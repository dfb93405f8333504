//! What a solution tells of itself.
use crate::Made;
use crate::page::Page;
use crate::trees::{hole, name, pi, unsolved};
use elab_match::Solution;
use elab_tree::{EType, TreeStop};
use std::alloc::Global;

fn told(page: &mut Page, solution: &Solution) {
    page.number("of ", solution.len());
    if solution.is_whole() {
        page.word(" all found\n");
    } else {
        page.word(" not all found\n");
    }
}

/// The numbers of two fresh unknowns.
fn fresh(page: &mut Page, solution: &mut Solution) -> Made<()> {
    page.number("fresh ", solution.fresh()?);
    page.number(", fresh ", solution.fresh()?);
    page.word("\n");
    Ok(())
}

/// Two unknowns, of which the first is found last.
fn filled(page: &mut Page, alloc: Global) -> Made<()> {
    let mut solution = Solution::new(alloc);
    told(page, &solution);
    fresh(page, &mut solution)?;
    page.search(alloc, hole(alloc, 1), name(alloc, 7), &mut solution);
    told(page, &solution);
    page.search(alloc, hole(alloc, 0), name(alloc, 8), &mut solution);
    told(page, &solution);
    Ok(())
}

/// The product of two unknowns, with what is found put for them.
fn put(alloc: Global, solution: &Solution) -> Result<EType, TreeStop> {
    let open = pi(alloc, hole(alloc, 0), hole(alloc, 1))?;
    open.solve(alloc, solution.as_slice())
}

/// A pattern in which what is found is put.
fn solved(page: &mut Page, alloc: Global) -> Made<()> {
    let mut solution = unsolved(alloc, 2)?;
    page.search(alloc, hole(alloc, 1), name(alloc, 7), &mut solution);
    if let Ok(pattern) = put(alloc, &solution) {
        let target = pi(alloc, name(alloc, 6), name(alloc, 7));
        page.search(alloc, Ok(pattern), target, &mut solution);
    }
    Ok(())
}

/// The lines of this file.
pub(crate) fn lines(page: &mut Page, alloc: Global) {
    if filled(page, alloc).is_err() || solved(page, alloc).is_err() {
        page.word("no memory\n");
    }
}
