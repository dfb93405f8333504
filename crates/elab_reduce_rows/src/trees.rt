//! Types, and a term, from parts that may have failed.
use crate::Made;
use elab_tree::{EKind, EPure, ETerm, EType};
use std::alloc::Global;

pub(crate) fn pi(alloc: Global, domain: Made<EType>, part: Made<EType>) -> Made<EType> {
    EType::pi(alloc, &domain?, &part?)
}

/// Over the kind of types.
pub(crate) fn allt(alloc: Global, part: Made<EType>) -> Made<EType> {
    EType::allt(alloc, &EKind::star(alloc)?, &part?)
}

/// Over the item 0.
pub(crate) fn tlam(alloc: Global, part: Made<EType>) -> Made<EType> {
    EType::tlam(alloc, &EType::name(alloc, 0)?, &part?)
}

/// Over the kind of types.
pub(crate) fn xtlam(alloc: Global, part: Made<EType>) -> Made<EType> {
    EType::xtlam(alloc, &EKind::star(alloc)?, &part?)
}

pub(crate) fn at(alloc: Global, head: Made<EType>, arg: Made<ETerm>) -> Made<EType> {
    EType::at(alloc, &head?, &arg?)
}

pub(crate) fn on(alloc: Global, head: Made<EType>, arg: Made<EType>) -> Made<EType> {
    EType::on(alloc, &head?, &arg?)
}

pub(crate) fn tapp(alloc: Global, head: Made<ETerm>, arg: Made<EType>) -> Made<ETerm> {
    ETerm::tapp(alloc, &head?, &arg?)
}

/// With the same side twice.
pub(crate) fn eq(alloc: Global, side: Made<EPure>) -> Made<EType> {
    let side = side?;
    EType::eq(alloc, &side, &side)
}

/// `(xtlam X star X)`
pub(crate) fn identity(alloc: Global) -> Made<EType> {
    xtlam(alloc, EType::var(alloc, 0))
}

/// `(xtlam X star (pi x X X))`, whose body has one level more than its argument.
pub(crate) fn arrow(alloc: Global) -> Made<EType> {
    xtlam(alloc, pi(alloc, EType::var(alloc, 0), EType::var(alloc, 1)))
}
