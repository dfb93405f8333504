//! Erased types and kinds of the rows.
use crate::Made;
use elab_tree::{EGuide, EGuideKind, EPure};
use std::alloc::Global;

pub(crate) fn var(alloc: Global, index: u32) -> Made<EGuide> {
    EGuide::var(alloc, index)
}

pub(crate) fn name(alloc: Global, item: u32) -> Made<EGuide> {
    EGuide::name(alloc, item)
}

/// The type of functions from the type of the variable 0 to that of the variable 1, which is 0 outside of the binder.
pub(crate) fn pi(alloc: Global) -> Made<EGuide> {
    EGuide::pi(alloc, &EGuide::var(alloc, 0)?, &EGuide::var(alloc, 1)?)
}

/// The same of erased functions.
pub(crate) fn all(alloc: Global) -> Made<EGuide> {
    EGuide::all(alloc, &EGuide::var(alloc, 0)?, &EGuide::var(alloc, 1)?)
}

pub(crate) fn allt(alloc: Global, domain: Made<EGuideKind>, part: Made<EGuide>) -> Made<EGuide> {
    EGuide::allt(alloc, &domain?, &part?)
}

pub(crate) fn iota(alloc: Global, left: Made<EGuide>, right: Made<EGuide>) -> Made<EGuide> {
    EGuide::iota(alloc, &left?, &right?)
}

pub(crate) fn eq(alloc: Global, left: Made<EPure>, right: Made<EPure>) -> Made<EGuide> {
    EGuide::eq(alloc, &left?, &right?)
}

pub(crate) fn tlam(alloc: Global, part: Made<EGuide>) -> Made<EGuide> {
    EGuide::tlam(alloc, &part?)
}

pub(crate) fn xtlam(alloc: Global, part: Made<EGuide>) -> Made<EGuide> {
    EGuide::xtlam(alloc, &part?)
}

pub(crate) fn at(alloc: Global, head: Made<EGuide>, arg: Made<EPure>) -> Made<EGuide> {
    EGuide::at(alloc, &head?, &arg?)
}

pub(crate) fn on(alloc: Global, head: Made<EGuide>, arg: Made<EGuide>) -> Made<EGuide> {
    EGuide::on(alloc, &head?, &arg?)
}

pub(crate) fn star(alloc: Global) -> Made<EGuideKind> {
    EGuideKind::star(alloc)
}

/// The kind of predicates on the type of that variable.
pub(crate) fn kpi(alloc: Global, index: u32) -> Made<EGuideKind> {
    EGuideKind::kpi(
        alloc,
        &EGuide::var(alloc, index)?,
        &EGuideKind::star(alloc)?,
    )
}

/// The kind of functions from types to types.
pub(crate) fn kpit(alloc: Global) -> Made<EGuideKind> {
    EGuideKind::kpit(alloc, &EGuideKind::star(alloc)?, &EGuideKind::star(alloc)?)
}
