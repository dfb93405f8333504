//! The items over which is compared.
use crate::Made;
use cdle_model::Text;
use elab_tree::{EKind, ETerm, EType, Env, OutItem};
use std::alloc::Global;

/// A definition of the identity, whose domain is written as the item 0.
fn identity(alloc: Global, name: &str) -> Made<OutItem> {
    let ty = EType::name(alloc, 0)?;
    let body = ETerm::lam(alloc, &ty, &ETerm::var(alloc, 0)?)?;
    let name = Text::new(alloc, name)?;
    Ok(OutItem::Def { name, ty, body })
}

/// A definition of the identity on types.
fn type_identity(alloc: Global, name: &str) -> Made<OutItem> {
    let star = EKind::star(alloc)?;
    let body = EType::xtlam(alloc, &star, &EType::var(alloc, 0)?)?;
    let name = Text::new(alloc, name)?;
    Ok(OutItem::TypeDef {
        name,
        kind: star,
        body,
    })
}

/// The identity twice, as the items 0 and 1, and that on types as the item 2.
pub(crate) fn three_items(alloc: Global) -> Made<Env> {
    let mut env = Env::new(alloc);
    env.push(alloc, identity(alloc, "one")?, None)?;
    env.push(alloc, identity(alloc, "two")?, None)?;
    env.push(alloc, type_identity(alloc, "three")?, None)?;
    Ok(env)
}
