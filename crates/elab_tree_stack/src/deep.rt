//! Deep trees, one of each class.
use elab_tree::{EGuide, EGuideKind, EKind, EPure, ETerm, EType, NoMemory};
use std::alloc::Global;

/// The variable 0 applied that many times.
pub(crate) fn deep_pure(alloc: Global, levels: u32) -> Result<EPure, NoMemory> {
    let name = EPure::name(alloc, 0)?;
    let mut tree = EPure::var(alloc, 0)?;
    for _ in 0..levels {
        tree = EPure::ap(alloc, &tree, &name)?;
    }
    Ok(tree)
}

/// A guide with that many products in one another, over the variable 1.
pub(crate) fn deep_guide(alloc: Global, levels: u32) -> Result<EGuide, NoMemory> {
    let name = EGuide::name(alloc, 0)?;
    let mut tree = EGuide::var(alloc, 1)?;
    for _ in 0..levels {
        tree = EGuide::pi(alloc, &tree, &name)?;
    }
    Ok(tree)
}

/// Guide kinds in guides in guide kinds.
pub(crate) fn deep_guide_kind(alloc: Global, levels: u32) -> Result<EGuideKind, NoMemory> {
    let name = EGuide::name(alloc, 0)?;
    let star = EGuideKind::star(alloc)?;
    let mut tree = EGuideKind::star(alloc)?;
    for _ in 0..levels / 2 {
        let guide = EGuide::allt(alloc, &tree, &name)?;
        tree = EGuideKind::kpi(alloc, &guide, &star)?;
    }
    Ok(tree)
}

/// The variable 0 applied that many times, as a term.
pub(crate) fn deep_term(alloc: Global, levels: u32) -> Result<ETerm, NoMemory> {
    let name = ETerm::name(alloc, 0)?;
    let mut tree = ETerm::var(alloc, 0)?;
    for _ in 0..levels {
        tree = ETerm::app(alloc, &tree, &name)?;
    }
    Ok(tree)
}

/// A type with that many products in one another.
pub(crate) fn deep_type(alloc: Global, levels: u32) -> Result<EType, NoMemory> {
    let name = EType::name(alloc, 0)?;
    let mut tree = EType::var(alloc, 0)?;
    for _ in 0..levels {
        tree = EType::pi(alloc, &tree, &name)?;
    }
    Ok(tree)
}

/// Kinds in types in kinds.
pub(crate) fn deep_kind(alloc: Global, levels: u32) -> Result<EKind, NoMemory> {
    let name = EType::name(alloc, 0)?;
    let star = EKind::star(alloc)?;
    let mut tree = EKind::star(alloc)?;
    for _ in 0..levels / 2 {
        let ty = EType::allt(alloc, &tree, &name)?;
        tree = EKind::kpi(alloc, &ty, &star)?;
    }
    Ok(tree)
}

/// The unknown 0 under that many products.
pub(crate) fn open_type(alloc: Global, levels: u32) -> Result<EType, NoMemory> {
    let name = EType::name(alloc, 0)?;
    let mut tree = EType::unknown(alloc, 0)?;
    for _ in 0..levels {
        tree = EType::pi(alloc, &name, &tree)?;
    }
    Ok(tree)
}
