//! Pairs of sides that are still to be compared.

use core_reduce::Side;

/// Two sides of one class, and at least the number of binders under which they stand.
#[derive(Drop)]
pub(crate) struct SidePair {
    pub(crate) left: Side,
    pub(crate) right: Side,
    pub(crate) binders: u32,
}
