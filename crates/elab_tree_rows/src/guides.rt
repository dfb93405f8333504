//! Guides and guide kinds, from parts that may have failed.
use crate::Made;
use elab_tree::{EGuide, EGuideKind, EPure};
use std::alloc::Global;

pub(crate) fn pi(alloc: Global, domain: Made<EGuide>, part: Made<EGuide>) -> Made<EGuide> {
    EGuide::pi(alloc, &domain?, &part?)
}

pub(crate) fn all(alloc: Global, domain: Made<EGuide>, part: Made<EGuide>) -> Made<EGuide> {
    EGuide::all(alloc, &domain?, &part?)
}

pub(crate) fn allt(alloc: Global, domain: Made<EGuideKind>, part: Made<EGuide>) -> Made<EGuide> {
    EGuide::allt(alloc, &domain?, &part?)
}

pub(crate) fn xtlam(alloc: Global, part: Made<EGuide>) -> Made<EGuide> {
    EGuide::xtlam(alloc, &part?)
}

pub(crate) fn on(alloc: Global, head: Made<EGuide>, arg: Made<EGuide>) -> Made<EGuide> {
    EGuide::on(alloc, &head?, &arg?)
}

pub(crate) fn iota(alloc: Global, left: Made<EGuide>, right: Made<EGuide>) -> Made<EGuide> {
    EGuide::iota(alloc, &left?, &right?)
}

pub(crate) fn kpit(
    alloc: Global,
    domain: Made<EGuideKind>,
    part: Made<EGuideKind>,
) -> Made<EGuideKind> {
    EGuideKind::kpit(alloc, &domain?, &part?)
}

pub(crate) fn tlam(alloc: Global, part: Made<EGuide>) -> Made<EGuide> {
    EGuide::tlam(alloc, &part?)
}

pub(crate) fn at(alloc: Global, head: Made<EGuide>, arg: Made<EPure>) -> Made<EGuide> {
    EGuide::at(alloc, &head?, &arg?)
}

/// Over the kind of types.
pub(crate) fn kpi(alloc: Global, domain: Made<EGuide>) -> Made<EGuideKind> {
    EGuideKind::kpi(alloc, &domain?, &EGuideKind::star(alloc)?)
}
