//! Terms and pure terms, from parts that may have failed.
use crate::Made;
use elab_tree::{EGuide, EKind, EPure, ETerm, EType};
use std::alloc::Global;

pub(crate) fn function(alloc: Global, part: Made<EPure>) -> Made<EPure> {
    EPure::function(alloc, &part?)
}

pub(crate) fn ap(alloc: Global, head: Made<EPure>, arg: Made<EPure>) -> Made<EPure> {
    EPure::ap(alloc, &head?, &arg?)
}

pub(crate) fn lam(alloc: Global, ty: Made<EType>, part: Made<ETerm>) -> Made<ETerm> {
    ETerm::lam(alloc, &ty?, &part?)
}

pub(crate) fn elam(alloc: Global, ty: Made<EType>, part: Made<ETerm>) -> Made<ETerm> {
    ETerm::elam(alloc, &ty?, &part?)
}

/// Under the kind of types.
pub(crate) fn xlam(alloc: Global, part: Made<ETerm>) -> Made<ETerm> {
    ETerm::xlam(alloc, &EKind::star(alloc)?, &part?)
}

pub(crate) fn app(alloc: Global, head: Made<ETerm>, arg: Made<ETerm>) -> Made<ETerm> {
    ETerm::app(alloc, &head?, &arg?)
}

pub(crate) fn eapp(alloc: Global, head: Made<ETerm>, arg: Made<ETerm>) -> Made<ETerm> {
    ETerm::eapp(alloc, &head?, &arg?)
}

pub(crate) fn pair(
    alloc: Global,
    left: Made<ETerm>,
    right: Made<ETerm>,
    ty: Made<EType>,
) -> Made<ETerm> {
    ETerm::pair(alloc, &left?, &right?, &ty?)
}

pub(crate) fn snd(alloc: Global, part: Made<ETerm>) -> Made<ETerm> {
    ETerm::snd(alloc, &part?)
}

pub(crate) fn delta(alloc: Global, ty: Made<EType>, proof: Made<ETerm>) -> Made<ETerm> {
    ETerm::delta(alloc, &ty?, &proof?)
}

pub(crate) fn tapp(alloc: Global, head: Made<ETerm>, arg: Made<EType>) -> Made<ETerm> {
    ETerm::tapp(alloc, &head?, &arg?)
}

/// With the same side twice.
pub(crate) fn beta(alloc: Global, side: Made<EPure>) -> Made<ETerm> {
    let side = side?;
    ETerm::beta(alloc, &side, &side)
}

/// With the same term for the proof and the part.
pub(crate) fn rho(
    alloc: Global,
    part: Made<ETerm>,
    guide: Made<EGuide>,
    ty: Made<EType>,
) -> Made<ETerm> {
    let part = part?;
    ETerm::rho(alloc, &part, &guide?, &ty?, &part)
}

/// With the same term for the proof and the part.
pub(crate) fn phi(alloc: Global, part: Made<ETerm>, kept: Made<EPure>) -> Made<ETerm> {
    let part = part?;
    ETerm::phi(alloc, &part, &part, &kept?)
}
