//! The search for an instance.
ghost use Rattle.std.specs.Prelude.{◌≡◌, length, IfOk};
ghost use Rattle.cdle_model.specs.Erasure.{erased};
ghost use Rattle.elab_model.specs.Instances.{first_place, found_in, if_whole, instance, part_outside, same_tree, solved as solved_from, solved_in};
ghost use Rattle.elab_match.specs.Answers.{Extends, Finds, standing};

use crate::mentions::type_mentions;
use crate::outside::outside;
use crate::place::type_place;
use crate::same::same_guides;
use crate::solution::Solution;
use cdle_model::NoMemory;
use elab_tree::EType;
use std::alloc::Global;

/// The deepest target.
const DEEPEST: u32 = 4096;

/// Extends the solution so that the pattern, with it put for its unknowns, erases as the target does. False where no solution does that; then, and
/// after want of memory, the solution is as before.
pub fn instance(
    alloc: Global,
    pattern: &EType,
    target: &EType,
    solution: &mut Solution,
) -> Result<bool, NoMemory>
    ensures { Finds (instance solution.old pattern.now target.now) solution.old solution.new result }
{
    // Not reached: elaboration refuses types that are deeper.
    if target.depth() > DEEPEST {
        return Err(NoMemory);
    }
    let pattern = solve(alloc, solution, pattern)?;
    match whole(alloc, solution, &pattern, target)? {
        Some(found) => {
            *solution = found;
            Ok(true)
        }
        None => Ok(false),
    }
}

/// The type with what is found put for its unknowns.
#[tactic(auto, using(crate::proofs::Solving::solving))]
fn solve(alloc: Global, solution: &Solution, ty: &EType) -> Result<EType, NoMemory>
    ensures { IfOk result (λ t. t ≡ solved_in solution.now ty.now) }
{
    match ty.solve(alloc, solution.as_slice()) {
        Ok(ty) => Ok(ty),
        // Deeper than 4,096. The pattern is not so deep with what was found before it is matched; with what is found then it may be, in what
        // erasure drops, and then its spine is too deep.
        Err(_) => Err(NoMemory),
    }
}

/// The solution that makes the pattern the target, for a pattern in which what was found before is put.
fn whole(
    alloc: Global,
    solution: &Solution,
    pattern: &EType,
    target: &EType,
) -> Result<Option<Solution>, NoMemory>
    ensures { IfOk result (λ o. o ≡ if_whole (solved_from 0 solution.now pattern.now target.now) pattern.now target.now) }
{
    match extended(alloc, solution, pattern, target)? {
        Some(found) => {
            if makes(alloc, &found, pattern, target)? {
                Ok(Some(found))
            } else {
                Ok(None)
            }
        }
        None => Ok(None),
    }
}

/// Whether the pattern erases as the target does, once what is found is put for its unknowns.
fn makes(alloc: Global, found: &Solution, pattern: &EType, target: &EType) -> Result<bool, NoMemory>
    ensures { IfOk result (λ b. b ≡ same_tree (erased (solved_in found.now pattern.now)) (erased target.now)) }
{
    let pattern = solve(alloc, found, pattern)?;
    let pattern = pattern.erase(alloc)?;
    let target = target.erase(alloc)?;
    Ok(same_guides(&pattern, &target))
}

/// The solution with the target's part for each unknown of the pattern that has none, where each of these has a part.
fn extended(
    alloc: Global,
    solution: &Solution,
    pattern: &EType,
    target: &EType,
) -> Result<Option<Solution>, NoMemory>
    ensures { IfOk result (λ o. o ≡ solved_from 0 solution.now pattern.now target.now) }
{
    let mut found = Solution::new(alloc);
    'unknowns: while found.len() < solution.len() {
        if !extend(alloc, solution, pattern, target, &mut found)? {
            return Ok(None);
        }
    }
    Ok(Some(found))
}

/// Puts what stands for the next unknown; false where the pattern has it and there is no part for it.
fn extend(
    alloc: Global,
    solution: &Solution,
    pattern: &EType,
    target: &EType,
    found: &mut Solution,
) -> Result<bool, NoMemory>
    ensures { IfOk result (λ b. Extends (standing (length found.old) (found_in solution.now (length found.old)) pattern.now target.now) found.old found.new b) }
{
    let number = found.len();
    if let Some(ty) = solution.get(number) {
        found.push(Some(ty.clone()?))?;
        return Ok(true);
    }
    match part_for(alloc, number, pattern, target)? {
        Some(ty) => {
            found.push(Some(ty))?;
            Ok(true)
        }
        None if type_mentions(pattern, number) => Ok(false),
        None => {
            found.push(None)?;
            Ok(true)
        }
    }
}

/// The target's part at the first place of the unknown, where it mentions no variable that is bound inside the pattern.
fn part_for(
    alloc: Global,
    number: u32,
    pattern: &EType,
    target: &EType,
) -> Result<Option<EType>, NoMemory>
    ensures { IfOk result (λ o. o ≡ part_outside (first_place number 0 pattern.now target.now)) }
{
    // Asked for its bound alone.
    let _depth = pattern.depth();
    match type_place(pattern, target, number, 0) {
        Some(part) => outside(alloc, part.binders, part.ty),
        None => Ok(None),
    }
}
