//! Sharing nodes, and how much a change of a tree would build.
ghost use Rattle.std.specs.Prelude.{IfOk};

use cdle_model::NoMemory;

/// Both nodes once more.
pub(crate) fn share_both<A: Clone, B: Clone>(left: &A, right: &B) -> Result<(A, B), NoMemory>
    ensures { IfOk result (λ both. A.is_clone left.now both.0 × B.is_clone right.now both.1) }
{
    let left = left.clone()?;
    let right = right.clone()?;
    Ok((left, right))
}

/// The most nodes that one shift or one put builds. More would not fit in memory, and to try would take minutes.
pub(crate) const MOST_NODES: u64 = 4_294_967_296;

/// The number of nodes of a tree that have a free variable, or the counter's last value, where `parts` is the sum over its parts.
/// The other nodes are never built anew.
pub(crate) fn count_open(free: u64, parts: u64) -> u64 {
    if free == 0 {
        0
    } else {
        parts.saturating_add(1)
    }
}
