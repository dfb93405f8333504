//! Types and kinds, from parts that may have failed.
use crate::Made;
use elab_tree::{EKind, EPure, ETerm, EType};
use std::alloc::Global;

pub(crate) fn pi(alloc: Global, domain: Made<EType>, part: Made<EType>) -> Made<EType> {
    EType::pi(alloc, &domain?, &part?)
}

pub(crate) fn all(alloc: Global, domain: Made<EType>, part: Made<EType>) -> Made<EType> {
    EType::all(alloc, &domain?, &part?)
}

pub(crate) fn allt(alloc: Global, domain: Made<EKind>, part: Made<EType>) -> Made<EType> {
    EType::allt(alloc, &domain?, &part?)
}

pub(crate) fn xtlam(alloc: Global, domain: Made<EKind>, part: Made<EType>) -> Made<EType> {
    EType::xtlam(alloc, &domain?, &part?)
}

pub(crate) fn on(alloc: Global, head: Made<EType>, arg: Made<EType>) -> Made<EType> {
    EType::on(alloc, &head?, &arg?)
}

pub(crate) fn iota(alloc: Global, left: Made<EType>, right: Made<EType>) -> Made<EType> {
    EType::iota(alloc, &left?, &right?)
}

pub(crate) fn kpit(alloc: Global, domain: Made<EKind>, part: Made<EKind>) -> Made<EKind> {
    EKind::kpit(alloc, &domain?, &part?)
}

pub(crate) fn tlam(alloc: Global, domain: Made<EType>, part: Made<EType>) -> Made<EType> {
    EType::tlam(alloc, &domain?, &part?)
}

pub(crate) fn at(alloc: Global, head: Made<EType>, arg: Made<ETerm>) -> Made<EType> {
    EType::at(alloc, &head?, &arg?)
}

/// With the same side twice.
pub(crate) fn eq(alloc: Global, side: Made<EPure>) -> Made<EType> {
    let side = side?;
    EType::eq(alloc, &side, &side)
}

/// Over the kind of types.
pub(crate) fn kpi(alloc: Global, domain: Made<EType>) -> Made<EKind> {
    EKind::kpi(alloc, &domain?, &EKind::star(alloc)?)
}
