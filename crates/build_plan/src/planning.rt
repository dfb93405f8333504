//! The order of modules.
ghost use Rattle.std.specs.Prelude.{IfOk, map};
ghost use Rattle.build_plan.specs.Answers.{IsPlan};
ghost use Rattle.build_plan.specs.Tables.{AllTaken, needs_of};

use crate::fault::PlanFault;
use crate::numbers::{all_numbers, names_at};
use crate::table::{lowest_left, lowest_next};
use crate::walk::cycle;
use cdle_model::NoMemory;
use std::alloc::Global;
use surf_tree::SrcModule;

/// Modules in the order in which they were taken, and for each module whether it is.
#[derive(Drop)]
struct Plan {
    order: Vec<usize>,
    taken: Vec<bool>,
}

/// Takes modules as long as one can be taken, each the lowest that can be the next.
fn take_all(alloc: Global, needs: &[Vec<usize>]) -> Result<Plan, NoMemory>
    ensures { IfOk result (λ plan. AllTaken (needs_of needs.now) plan.order.items plan.taken.items) }
{
    let mut order = Vec::new(alloc);
    let mut taken = vec![in alloc; false; needs.len()]?;
    'modules: while let Some(number) = lowest_next(taken.as_slice(), needs) {
        order.push(number)?;
        taken[number] = true;
    }
    Ok(Plan { order, taken })
}

/// The first order of the modules, by the numbers that they have in the list, in which each module stands behind what it imports; or the names of their cycle.
///
/// Where a module imports one that is not in the list there is neither, and `NoMemory` is answered too.
pub fn order(alloc: Global, modules: &[SrcModule]) -> Result<Vec<usize>, PlanFault>
    ensures { IsPlan modules.now result }
{
    let needs = all_numbers(alloc, modules)?;
    let plan = take_all(alloc, needs.as_slice())?;
    match lowest_left(plan.taken.as_slice()) {
        None => Ok(plan.order),
        Some(start) => {
            let numbers = cycle(alloc, needs.as_slice(), plan.taken.as_slice(), start)?;
            let names = names_at(alloc, modules, numbers.as_slice())?;
            Err(PlanFault::Cycle { names })
        }
    }
}
