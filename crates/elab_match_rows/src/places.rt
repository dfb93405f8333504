//! Where an unknown has its place, and which part is taken there.
use crate::Made;
use crate::page::Page;
use crate::trees::{
    all, allt, at, at_tapp, hole, iota, kpi, kpit, name, on, pi, products, tlam, unsolved, var,
    xtlam,
};
use elab_tree::EType;
use std::alloc::Global;

/// A search that begins with one unknown, for which nothing is found.
fn search(page: &mut Page, alloc: Global, pattern: Made<EType>, target: Made<EType>) -> Made<()> {
    let mut solution = unsolved(alloc, 1)?;
    page.search(alloc, pattern, target, &mut solution);
    Ok(())
}

/// Below a binder: the part is taken outside it, unless it has its variable.
fn below(page: &mut Page, alloc: Global) -> Made<()> {
    let pattern = pi(alloc, name(alloc, 0), hole(alloc, 0));
    let target = pi(alloc, name(alloc, 0), var(alloc, 3));
    search(page, alloc, pattern, target)?;
    let pattern = all(alloc, name(alloc, 0), hole(alloc, 0));
    let target = all(alloc, name(alloc, 0), at(alloc, name(alloc, 1), 0));
    search(page, alloc, pattern, target)?;
    let pattern = iota(
        alloc,
        name(alloc, 0),
        pi(alloc, name(alloc, 0), hole(alloc, 0)),
    );
    let target = iota(
        alloc,
        name(alloc, 0),
        pi(alloc, name(alloc, 0), at(alloc, name(alloc, 1), 1)),
    );
    search(page, alloc, pattern, target)?;
    let pattern = iota(
        alloc,
        name(alloc, 0),
        pi(alloc, name(alloc, 0), hole(alloc, 0)),
    );
    let target = iota(
        alloc,
        name(alloc, 0),
        pi(alloc, name(alloc, 0), at(alloc, name(alloc, 1), 2)),
    );
    search(page, alloc, pattern, target)
}

/// The variable stands in what erasure drops.
fn erased_use(page: &mut Page, alloc: Global) -> Made<()> {
    let pattern = pi(alloc, name(alloc, 0), hole(alloc, 0));
    let dropped = tlam(alloc, at(alloc, name(alloc, 1), 0), name(alloc, 2));
    search(page, alloc, pattern, pi(alloc, name(alloc, 0), dropped))
}

/// The head of an application is no place.
fn heads(page: &mut Page, alloc: Global) -> Made<()> {
    let pattern = on(alloc, hole(alloc, 0), name(alloc, 1));
    let target = on(alloc, name(alloc, 2), name(alloc, 1));
    search(page, alloc, pattern, target)?;
    let target = at(alloc, name(alloc, 2), 0);
    search(page, alloc, at(alloc, hole(alloc, 0), 0), target)?;
    let pattern = on(alloc, hole(alloc, 0), hole(alloc, 0));
    let target = on(alloc, name(alloc, 2), name(alloc, 2));
    search(page, alloc, pattern, target)?;
    let pattern = on(
        alloc,
        on(alloc, name(alloc, 3), hole(alloc, 0)),
        name(alloc, 1),
    );
    let target = on(
        alloc,
        on(alloc, name(alloc, 3), name(alloc, 2)),
        name(alloc, 1),
    );
    search(page, alloc, pattern, target)
}

/// What erasure drops has no place, nor has the argument of an application.
fn dropped(page: &mut Page, alloc: Global) -> Made<()> {
    let pattern = tlam(alloc, hole(alloc, 0), name(alloc, 1));
    let target = tlam(alloc, name(alloc, 5), name(alloc, 1));
    search(page, alloc, pattern, target)?;
    let pattern = tlam(alloc, hole(alloc, 0), hole(alloc, 0));
    let target = tlam(alloc, name(alloc, 5), name(alloc, 1));
    search(page, alloc, pattern, target)?;
    let pattern = at_tapp(alloc, name(alloc, 0), hole(alloc, 0));
    let target = at_tapp(alloc, name(alloc, 0), name(alloc, 1));
    search(page, alloc, pattern, target)
}

/// In kinds.
fn kinds(page: &mut Page, alloc: Global) -> Made<()> {
    let pattern = allt(alloc, kpi(alloc, hole(alloc, 0)), name(alloc, 1));
    let target = allt(alloc, kpi(alloc, name(alloc, 2)), name(alloc, 1));
    search(page, alloc, pattern, target)?;
    let pattern = allt(
        alloc,
        kpit(alloc, kpi(alloc, hole(alloc, 0))),
        name(alloc, 1),
    );
    let target = allt(
        alloc,
        kpit(alloc, kpi(alloc, var(alloc, 4))),
        name(alloc, 1),
    );
    search(page, alloc, pattern, target)?;
    let pattern = xtlam(alloc, kpi(alloc, hole(alloc, 0)), name(alloc, 1));
    let target = xtlam(alloc, kpi(alloc, name(alloc, 2)), name(alloc, 1));
    search(page, alloc, pattern, target)
}

/// Unknowns of the target, and the deepest target.
fn limits(page: &mut Page, alloc: Global) -> Made<()> {
    let pattern = pi(alloc, name(alloc, 0), hole(alloc, 0));
    let target = pi(alloc, name(alloc, 0), hole(alloc, 3));
    search(page, alloc, pattern, target)?;
    let pattern = pi(alloc, name(alloc, 0), hole(alloc, 0));
    let target = pi(alloc, name(alloc, 0), hole(alloc, 4_294_967_295));
    search(page, alloc, pattern, target)?;
    let pattern = products(alloc, 4096, hole(alloc, 0));
    let target = products(alloc, 4096, name(alloc, 1));
    search(page, alloc, pattern, target)?;
    let target = products(alloc, 4097, name(alloc, 1));
    search(page, alloc, hole(alloc, 0), target)
}

fn all_lines(page: &mut Page, alloc: Global) -> Made<()> {
    below(page, alloc)?;
    erased_use(page, alloc)?;
    heads(page, alloc)?;
    dropped(page, alloc)?;
    kinds(page, alloc)?;
    limits(page, alloc)
}

/// The lines of this file.
pub(crate) fn lines(page: &mut Page, alloc: Global) {
    if all_lines(page, alloc).is_err() {
        page.word("no memory\n");
    }
}
