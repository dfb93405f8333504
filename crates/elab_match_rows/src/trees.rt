//! Types and kinds, from parts that may have failed.
use crate::Made;
use elab_match::Solution;
use elab_tree::{EKind, EPure, ETerm, EType};
use std::alloc::Global;

/// A solution of so many unknowns, for none of which something is found.
pub(crate) fn unsolved(alloc: Global, unknowns: u32) -> Made<Solution> {
    let mut solution = Solution::new(alloc);
    for _ in 0..unknowns {
        solution.fresh()?;
    }
    Ok(solution)
}

pub(crate) fn hole(alloc: Global, number: u32) -> Made<EType> {
    EType::unknown(alloc, number)
}

pub(crate) fn name(alloc: Global, item: u32) -> Made<EType> {
    EType::name(alloc, item)
}

pub(crate) fn var(alloc: Global, index: u32) -> Made<EType> {
    EType::var(alloc, index)
}

pub(crate) fn pi(alloc: Global, domain: Made<EType>, part: Made<EType>) -> Made<EType> {
    EType::pi(alloc, &domain?, &part?)
}

pub(crate) fn all(alloc: Global, domain: Made<EType>, part: Made<EType>) -> Made<EType> {
    EType::all(alloc, &domain?, &part?)
}

pub(crate) fn iota(alloc: Global, left: Made<EType>, right: Made<EType>) -> Made<EType> {
    EType::iota(alloc, &left?, &right?)
}

pub(crate) fn tlam(alloc: Global, domain: Made<EType>, part: Made<EType>) -> Made<EType> {
    EType::tlam(alloc, &domain?, &part?)
}

pub(crate) fn on(alloc: Global, head: Made<EType>, arg: Made<EType>) -> Made<EType> {
    EType::on(alloc, &head?, &arg?)
}

pub(crate) fn allt(alloc: Global, domain: Made<EKind>, part: Made<EType>) -> Made<EType> {
    EType::allt(alloc, &domain?, &part?)
}

pub(crate) fn xtlam(alloc: Global, domain: Made<EKind>, part: Made<EType>) -> Made<EType> {
    EType::xtlam(alloc, &domain?, &part?)
}

/// Applied to the variable.
pub(crate) fn at(alloc: Global, head: Made<EType>, index: u32) -> Made<EType> {
    EType::at(alloc, &head?, &ETerm::var(alloc, index)?)
}

/// Applied to the variable 0, which is applied to the type.
pub(crate) fn at_tapp(alloc: Global, head: Made<EType>, arg: Made<EType>) -> Made<EType> {
    let term = ETerm::tapp(alloc, &ETerm::var(alloc, 0)?, &arg?)?;
    EType::at(alloc, &head?, &term)
}

/// An equation of two variables.
pub(crate) fn eq(alloc: Global, left: u32, right: u32) -> Made<EType> {
    EType::eq(alloc, &EPure::var(alloc, left)?, &EPure::var(alloc, right)?)
}

/// Over the kind of types.
pub(crate) fn kpi(alloc: Global, domain: Made<EType>) -> Made<EKind> {
    EKind::kpi(alloc, &domain?, &EKind::star(alloc)?)
}

/// From the kind of types.
pub(crate) fn kpit(alloc: Global, part: Made<EKind>) -> Made<EKind> {
    EKind::kpit(alloc, &EKind::star(alloc)?, &part?)
}

/// Products that deep, over the type and each with it as its domain.
pub(crate) fn products(alloc: Global, levels: u32, ty: Made<EType>) -> Made<EType> {
    let ty = ty?;
    let mut tree = ty.clone()?;
    for _ in 0..levels {
        tree = EType::pi(alloc, &ty, &tree)?;
    }
    Ok(tree)
}
