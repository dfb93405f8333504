//! Sharing nodes.
ghost use Rattle.std.specs.Prelude.{IfOk};

use cdle_model::NoMemory;

/// Both nodes once more.
pub(crate) fn share_both<A: Clone, B: Clone>(left: &A, right: &B) -> Result<(A, B), NoMemory>
    ensures { IfOk result (λ both. A.is_clone left.now both.0 × B.is_clone right.now both.1) }
{
    let left = left.clone()?;
    let right = right.clone()?;
    Ok((left, right))
}
