//! Pure terms of the rows.
use crate::Made;
use elab_tree::EPure;
use std::alloc::Global;

pub(crate) fn function(alloc: Global, part: Made<EPure>) -> Made<EPure> {
    EPure::function(alloc, &part?)
}

pub(crate) fn ap(alloc: Global, head: Made<EPure>, arg: Made<EPure>) -> Made<EPure> {
    EPure::ap(alloc, &head?, &arg?)
}

pub(crate) fn var(alloc: Global, index: u32) -> Made<EPure> {
    EPure::var(alloc, index)
}

pub(crate) fn name(alloc: Global, item: u32) -> Made<EPure> {
    EPure::name(alloc, item)
}

/// `fn x. x`
pub(crate) fn identity(alloc: Global) -> Made<EPure> {
    function(alloc, var(alloc, 0))
}

/// `fn x. x x`
pub(crate) fn twice(alloc: Global) -> Made<EPure> {
    function(alloc, ap(alloc, var(alloc, 0), var(alloc, 0)))
}

/// `fn x. fn y. left right`, where the two are the variables of these numbers.
pub(crate) fn one_argument(alloc: Global, left: u32, right: u32) -> Made<EPure> {
    let body = ap(alloc, var(alloc, left), var(alloc, right));
    function(alloc, function(alloc, body))
}

/// `fn x. fn y. x first second`, where the two are the variables of these numbers.
pub(crate) fn two_arguments(alloc: Global, first: u32, second: u32) -> Made<EPure> {
    let half = ap(alloc, var(alloc, 1), var(alloc, first));
    let body = ap(alloc, half, var(alloc, second));
    function(alloc, function(alloc, body))
}

/// `(fn x. x x) (fn x. x x)`, which contracts to itself.
pub(crate) fn omega(alloc: Global) -> Made<EPure> {
    ap(alloc, twice(alloc), twice(alloc))
}

/// The identity with that many functions `fn x. x x` applied to it, one to the other.
pub(crate) fn tower(alloc: Global, doublings: u32) -> Made<EPure> {
    let mut tree = identity(alloc)?;
    for _ in 0..doublings {
        tree = EPure::ap(alloc, &twice(alloc)?, &tree)?;
    }
    Ok(tree)
}

/// `W W (fn z. z)`, where W is `fn x. fn a. x x ((fn y. y) a)`: each two contractions make the argument deeper by one.
pub(crate) fn growing(alloc: Global) -> Made<EPure> {
    let both = ap(alloc, half_of_growing(alloc), half_of_growing(alloc));
    ap(alloc, both, identity(alloc))
}

/// `fn x. fn a. x x ((fn y. y) a)`
fn half_of_growing(alloc: Global) -> Made<EPure> {
    let head = ap(alloc, var(alloc, 1), var(alloc, 1));
    let arg = ap(alloc, identity(alloc), var(alloc, 0));
    function(alloc, function(alloc, ap(alloc, head, arg)))
}
