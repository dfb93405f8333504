//! The check of all items.
ghost use Rattle.std.specs.Prelude.{◌≡◌, ◌<◌, ◌≤◌, [], ℕ, IfOk, List, None, length};
ghost use Rattle.build_outcome.specs.declared.outcome.Outcome.TheVariants as outcomes;
ghost use Rattle.cdle_model.specs.Classes.{AreScoped};
ghost use Rattle.cdle_model.specs.Forms.{Written};
ghost use Rattle.core_check.specs.Answer.{IsFaultOf};
ghost use Rattle.core_check.specs.Items.{items_of};
ghost use Rattle.build_drive.specs.Answers.{most_items};
ghost use Rattle.build_drive.specs.Checks.{IsItemName, IsNameAt, IsVerdictAtSomeBudget};
ghost use Rattle.build_outcome.specs.Reports.{IsReported, IsShown};

use build_outcome::{Done, Outcome, Reason, Spot};
use cdle_model::{Count, NoMemory, Text};
use core_check::check_files;
use core_tree::{CoreFault, CoreFile, Path};
use std::alloc::Global;

/// What the check of all items comes to.
pub(crate) fn checked(alloc: Global, files: &Vec<CoreFile>, budget: u64) -> Result<Done, NoMemory>
    requires items { AreScoped (items_of files.now.items) }
    requires few { length (items_of files.now.items) ≤ most_items }
    ensures verdict { IfOk result (λ done. IsVerdictAtSomeBudget budget (items_of files.now.items) done.outcome) }
    ensures report { IfOk result (IsReported None []) }
{
    let outcome = match check_files(alloc, files, budget) {
        Ok(checked) => Outcome::Ok {
            modules: 0,
            items: checked.items,
        },
        Err(fault) => refused(alloc, files, budget, fault)?,
    };
    Done::new(alloc, None, outcome, b"")
}

/// The outcome of items that are not accepted.
pub(crate) fn refused(
    alloc: Global,
    files: &Vec<CoreFile>,
    budget: u64,
    fault: CoreFault,
) -> Result<Outcome, NoMemory>
    requires items { AreScoped (items_of files.now.items) }
    requires fault { IsFaultOf budget (items_of files.now.items) fault }
    ensures verdict { IfOk result (IsVerdictAtSomeBudget budget (items_of files.now.items)) }
    ensures stopped { IfOk result (λ outcome. (modules items : ℕ) → outcome ≡ outcomes.Ok modules items → ⊥) }
    ensures shown { IfOk result (IsShown []) }
{
    match name_at(alloc, files, budget, &fault) {
        Ok(name) => Ok(outcome_at(alloc, name, budget, fault)),
        Err(wanted) => {
            drop(fault);
            Err(wanted)
        }
    }
}

/// The name of the item at which the check stopped.
fn name_at(
    alloc: Global,
    files: &Vec<CoreFile>,
    budget: u64,
    fault: &CoreFault,
) -> Result<Text, NoMemory>
    requires { IsFaultOf budget (items_of files.now.items) fault.now }
    ensures { IfOk result (IsNameAt (items_of files.now.items) fault.now) }
{
    match fault {
        CoreFault::Refused { item, .. } => item_name(alloc, files, *item),
        CoreFault::Duplicate { item, .. } => item_name(alloc, files, *item),
        CoreFault::Undecided { item, .. } => item_name(alloc, files, *item),
        CoreFault::TooDeep { item } => item_name(alloc, files, *item),
        CoreFault::NoMemory => Err(NoMemory),
    }
}

/// The outcome of a fault in the item of that name.
fn outcome_at(alloc: Global, item: Text, budget: u64, fault: CoreFault) -> Outcome
    ensures verdict { (ws : List Written) → AreScoped ws → IsFaultOf budget ws fault → IsNameAt ws fault item → IsVerdictAtSomeBudget budget ws result }
    ensures stopped { (modules items : ℕ) → result ≡ outcomes.Ok modules items → ⊥ }
    ensures shown { IsShown [] result }
{
    match fault {
        CoreFault::Refused { path, why, .. } => Outcome::Refused {
            place: Spot::CoreSpot { item, path },
            why: Reason::Core(why),
        },
        CoreFault::Duplicate { earlier, .. } => Outcome::Refused {
            place: Spot::CoreSpot {
                item,
                path: Path::new(Vec::new(alloc)),
            },
            why: Reason::Duplicate { earlier },
        },
        CoreFault::Undecided { path, .. } => Outcome::Undecided {
            place: Spot::CoreSpot { item, path },
            budget,
        },
        CoreFault::TooDeep { .. } => Outcome::Limit {
            name: item,
            what: Count::Depth,
        },
        CoreFault::NoMemory => Outcome::NoMemory,
    }
}

/// The name of the item of that number over all files.
fn item_name(alloc: Global, files: &Vec<CoreFile>, item: u32) -> Result<Text, NoMemory>
    requires { item < length (items_of files.now.items) }
    ensures { IfOk result (IsItemName (items_of files.now.items) item) }
{
    let mut number = item as usize;
    for file in files {
        match file.items.get(number) {
            Some(item) => return Ok(Text::new(alloc, item.name().as_str())?),
            None => number -= file.items.len(),
        }
    }
    unreachable!()
}
