//! How deep trees may be, so that no recursion over them leaves the stack that a program has by default.
//! docs/PERFORMANCE.md tells what was measured.
use crate::change::Change;
use cdle_model::NoMemory;

/// The deepest guide that is built; dropping one goes down by one call for each level.
pub(crate) const DEEPEST: u32 = 32_768;

/// The deepest tree that is shifted.
const DEEPEST_SHIFTED: u32 = 16_384;

/// Refuses to shift a tree that is too deep for it, where the change concerns a variable that is free in it.
pub(crate) fn refuse_deep_shift(
    change: &Change<'_>,
    depth: u32,
    free: u64,
) -> Result<(), NoMemory> {
    if depth > DEEPEST_SHIFTED && !change.leaves(free, 0) {
        Err(NoMemory)
    } else {
        Ok(())
    }
}
