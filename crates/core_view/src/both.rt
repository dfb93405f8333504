//! Two values that are made one after the other.
ghost use Rattle.std.specs.Prelude.{◌≡◌, Ok, IfOk};

use cdle_model::NoMemory;

/// Both values, where there are both. What is left where one is missing is dropped here, and not by cases at each place where two are made.
pub(crate) fn both<A: Drop, B: Drop>(
    left: Result<A, NoMemory>,
    right: Result<B, NoMemory>,
) -> Result<(A, B), NoMemory>
    ensures { IfOk result (λ b. (left ≡ Ok b.0) × (right ≡ Ok b.1)) }
{
    let left = left?;
    let right = right?;
    Ok((left, right))
}
