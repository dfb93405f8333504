//! What is found, and what stays: each unknown once or twice, with one type and with two, and what was found before.
use crate::Made;
use crate::page::Page;
use crate::trees::{all, at, eq, hole, name, pi, tlam, unsolved};
use elab_match::Solution;
use std::alloc::Global;

/// An unknown that stands twice.
fn twice(page: &mut Page, alloc: Global) -> Made<()> {
    let mut solution = unsolved(alloc, 1)?;
    let pattern = pi(alloc, hole(alloc, 0), hole(alloc, 0));
    let target = pi(alloc, name(alloc, 1), name(alloc, 2));
    page.search(alloc, pattern, target, &mut solution);
    let pattern = pi(alloc, hole(alloc, 0), hole(alloc, 0));
    let target = pi(alloc, name(alloc, 1), name(alloc, 1));
    page.search(alloc, pattern, target, &mut solution);
    Ok(())
}

/// What was found stays, whether or not it fits.
fn again(page: &mut Page, alloc: Global) -> Made<()> {
    let mut solution = unsolved(alloc, 2)?;
    page.search(alloc, hole(alloc, 0), name(alloc, 1), &mut solution);
    let pattern = pi(alloc, hole(alloc, 0), hole(alloc, 1));
    let target = pi(alloc, name(alloc, 3), name(alloc, 2));
    page.search(alloc, pattern, target, &mut solution);
    let pattern = pi(alloc, hole(alloc, 0), hole(alloc, 1));
    let target = pi(alloc, name(alloc, 1), name(alloc, 2));
    page.search(alloc, pattern, target, &mut solution);
    Ok(())
}

/// The part as it is annotated, and then one that differs from it in what erasure drops.
fn annotated(page: &mut Page, alloc: Global) -> Made<()> {
    let mut solution = unsolved(alloc, 1)?;
    let target = tlam(alloc, name(alloc, 5), name(alloc, 2));
    page.search(alloc, hole(alloc, 0), target, &mut solution);
    let target = tlam(alloc, name(alloc, 6), name(alloc, 2));
    page.search(alloc, hole(alloc, 0), target, &mut solution);
    Ok(())
}

/// Patterns without unknowns.
fn without_unknowns(page: &mut Page, alloc: Global) {
    let mut none = Solution::new(alloc);
    page.search(alloc, name(alloc, 1), name(alloc, 1), &mut none);
    page.search(alloc, name(alloc, 1), name(alloc, 2), &mut none);
    page.search(alloc, eq(alloc, 0, 1), eq(alloc, 0, 1), &mut none);
    page.search(alloc, eq(alloc, 0, 1), eq(alloc, 1, 0), &mut none);
    let pattern = at(alloc, name(alloc, 1), 2);
    page.search(alloc, pattern, at(alloc, name(alloc, 1), 3), &mut none);
    let pattern = tlam(alloc, name(alloc, 1), name(alloc, 2));
    let target = tlam(alloc, name(alloc, 3), name(alloc, 2));
    page.search(alloc, pattern, target, &mut none);
}

/// Two formers, and an unknown that the pattern does not have.
fn others(page: &mut Page, alloc: Global) -> Made<()> {
    let mut solution = unsolved(alloc, 2)?;
    let pattern = pi(alloc, hole(alloc, 0), name(alloc, 1));
    let target = all(alloc, name(alloc, 2), name(alloc, 1));
    page.search(alloc, pattern, target, &mut solution);
    page.search(alloc, hole(alloc, 1), name(alloc, 4), &mut solution);
    Ok(())
}

/// Unknowns past those of the solution: one stays, in the pattern and in the target.
fn past(page: &mut Page, alloc: Global) -> Made<()> {
    let mut solution = unsolved(alloc, 1)?;
    page.search(alloc, hole(alloc, 5), name(alloc, 1), &mut solution);
    let pattern = pi(alloc, hole(alloc, 5), hole(alloc, 0));
    let target = pi(alloc, hole(alloc, 5), name(alloc, 1));
    page.search(alloc, pattern, target, &mut solution);
    Ok(())
}

fn all_lines(page: &mut Page, alloc: Global) -> Made<()> {
    twice(page, alloc)?;
    again(page, alloc)?;
    annotated(page, alloc)?;
    without_unknowns(page, alloc);
    others(page, alloc)?;
    past(page, alloc)
}

/// The lines of this file.
pub(crate) fn lines(page: &mut Page, alloc: Global) {
    if all_lines(page, alloc).is_err() {
        page.word("no memory\n");
    }
}
