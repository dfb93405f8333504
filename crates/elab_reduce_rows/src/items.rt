//! The items of the rows.
//!
//! Item 0 is a datatype's name, `(allt X star (pi x X X))`, and item 1 is a term. Item 2 is the identity of types, and each of the next ten
//! applies the one before it twice: item 3 is `(xtlam X star (on N2 (on N2 X)))`, and so on to item 12.
use crate::Made;
use crate::trees::{allt, identity, on, pi, xtlam};
use cdle_model::Text;
use elab_tree::{Datatype, EKind, ETerm, EType, Env, OutItem};
use std::alloc::Global;

/// The last of the items that apply the one before twice.
pub(crate) const TOP: u32 = 12;

/// Puts a definition of a type under the kind of types last.
fn push_type(
    alloc: Global,
    env: &mut Env,
    name: &str,
    body: Made<EType>,
    known: Option<Datatype>,
) -> Made<()> {
    let body = body?;
    let kind = EKind::star(alloc)?;
    let name = Text::new(alloc, name)?;
    env.push(alloc, OutItem::TypeDef { name, kind, body }, known)
}

/// Puts a term under the type that is item 0 last.
fn push_term(alloc: Global, env: &mut Env, name: &str, body: Made<ETerm>) -> Made<()> {
    let body = body?;
    let ty = EType::name(alloc, 0)?;
    let name = Text::new(alloc, name)?;
    env.push(alloc, OutItem::Def { name, ty, body }, None)
}

/// A datatype without constructors.
fn datatype(alloc: Global) -> Datatype {
    Datatype {
        params: 0,
        constructors: Vec::new(alloc),
        mu: 0,
        sigma: 0,
        has_index: false,
        case: None,
    }
}

/// `(xtlam X star (on N (on N X)))`, where N is the item.
fn twice(alloc: Global, item: u32) -> Made<EType> {
    let once = on(alloc, EType::name(alloc, item), EType::var(alloc, 0));
    xtlam(alloc, on(alloc, EType::name(alloc, item), once))
}

/// Puts the items.
pub(crate) fn fill(alloc: Global, env: &mut Env) -> Made<()> {
    let product = pi(alloc, EType::var(alloc, 0), EType::var(alloc, 1));
    push_type(
        alloc,
        env,
        "data",
        allt(alloc, product),
        Some(datatype(alloc)),
    )?;
    push_term(alloc, env, "term", ETerm::name(alloc, 0))?;
    push_type(alloc, env, "once", identity(alloc), None)?;
    for item in 2..TOP {
        push_type(alloc, env, "twice", twice(alloc, item), None)?;
    }
    Ok(())
}
