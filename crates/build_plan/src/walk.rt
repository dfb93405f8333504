//! The cycle among modules that cannot be taken.
ghost use Rattle.std.specs.Prelude.{◌≡◌, ◌<◌, ◌++◌, ◌∷◌, [], ℕ, Contains, IfOk, MatchOption, drop, get_or, length};
ghost use Rattle.plan_model.specs.Orders.{Imports};
ghost use Rattle.plan_model.specs.Cycles.{CanBeTaken, IsCycleOf, IsFirstStuck, IsStuck};
ghost use Rattle.build_plan.specs.Tables.{IsTaken, needs_of};

use crate::table::first_left;
use cdle_model::NoMemory;
use std::alloc::Global;

/// Where the number stands.
fn place_of(path: &[usize], number: usize) -> Option<usize>
    ensures { MatchOption result (Contains path.now number → ⊥) (λ k. (k < length path.now) × (get_or path.now k 0 ≡ number)) }
{
    for k in 0..path.len() {
        if path[k] == number {
            return Some(k);
        }
    }
    None
}

/// The path from that place on, and the number behind it.
fn round(alloc: Global, path: &[usize], from: usize, number: usize) -> Result<Vec<usize>, NoMemory>
    requires { from < length path.now }
    ensures { IfOk result (λ cycle. cycle.items ≡ drop from path.now ++ number ∷ []) }
{
    let mut cycle = Vec::new(alloc);
    cycle.extend_from_slice(&path[from..])?;
    cycle.push(number)?;
    Ok(cycle)
}

/// The numbers of the cycle to which the first imports that cannot be taken lead from this module.
pub(crate) fn cycle(
    alloc: Global,
    needs: &[Vec<usize>],
    taken: &[bool],
    start: usize,
) -> Result<Vec<usize>, NoMemory>
    requires can { (i : ℕ) → IsTaken taken.now i → CanBeTaken (needs_of needs.now) i }
    requires stuck { (i : ℕ) → i < length needs.now → (IsTaken taken.now i → ⊥) → IsStuck (needs_of needs.now) i }
    requires below { (i j : ℕ) → Imports (needs_of needs.now) i j → j < length needs.now }
    requires start { IsFirstStuck (needs_of needs.now) start }
    ensures { IfOk result (λ cycle. IsCycleOf (needs_of needs.now) cycle.items) }
{
    let mut path = Vec::new(alloc);
    let mut at = start;
    'walk: loop {
        if let Some(from) = place_of(path.as_slice(), at) {
            return round(alloc, path.as_slice(), from, at);
        }
        path.push(at)?;
        let imports = &needs[at];
        match first_left(taken, imports.as_slice()) {
            Some(next) => at = next,
            None => unreachable!(),
        }
    }
}
