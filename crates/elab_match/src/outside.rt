//! A part of the target, taken outside the pattern's binders.
ghost use Rattle.std.specs.Prelude.{◌≡◌, ◌<◌, cond, IfOk, None, Some};
ghost use Rattle.cdle_model.specs.Trees.{lacks};
ghost use Rattle.cdle_model.specs.Erasure.{lowered};
ghost use Rattle.elab_model.specs.Instances.{outside};

use crate::variables::type_lacks;
use cdle_model::NoMemory;
use elab_tree::EType;
use std::alloc::Global;

/// The type without its innermost variables, so many, where it has none of them.
pub(crate) fn outside(alloc: Global, binders: u32, ty: &EType) -> Result<Option<EType>, NoMemory>
    ensures { IfOk result (λ o. o ≡ outside binders ty.now) }
{
    let mut left = binders;
    let mut outer = ty.clone()?;
    'binders: while left > 0 {
        match without_innermost(alloc, &outer)? {
            Some(lower) => outer = lower,
            None => return Ok(None),
        }
        left -= 1;
    }
    Ok(Some(outer))
}

/// The type without its innermost variable, where it does not have it.
#[tactic(auto, using(crate::proofs::Lowered::lowered_by_put))]
fn without_innermost(alloc: Global, ty: &EType) -> Result<Option<EType>, NoMemory>
    ensures { IfOk result (λ o. o ≡ cond (lacks 0 ty.now) (Some (lowered ty.now)) None) }
{
    // Asked for its bound alone.
    let _depth = ty.depth();
    if !type_lacks(ty, 0) {
        return Ok(None);
    }
    // What is put for a variable that is nowhere comes nowhere.
    let anything = EType::unknown(alloc, 0)?;
    match ty.put_type(alloc, 0, &anything) {
        Ok(lower) => Ok(Some(lower)),
        // Not reached: the target is not deeper than 4,096, and its part without a variable is as deep as it was.
        Err(_) => Err(NoMemory),
    }
}
