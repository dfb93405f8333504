//! The command `core`.
ghost use Rattle.std.specs.Prelude.{◌≡◌, ◌⊎◌, [], ℕ, IfErr, IfOk, List, Some, length, map, string_bytes};
ghost use Rattle.cdle_folder.specs.Causes.{Quiet};
ghost use Rattle.cdle_folder.specs.Files.{Files};
ghost use Rattle.cdle_model.specs.Check.{accepts, check_items};
ghost use Rattle.cdle_model.specs.Forms.{Written};
ghost use Rattle.build_drive.specs.Answers.{IsOutcome};
ghost use Rattle.build_drive.specs.Calls.{AreAccepted, AreRefused, AreReadable, AreUndecided, IsCall, IsTraced};
ghost use Rattle.build_drive.specs.Checks.{IsVerdictAtBudget, IsVerdictAtSomeBudget};
ghost use Rattle.build_drive.specs.Traces.{IsFaultlessTrace, Trace};
ghost use Rattle.build_drive.specs.Progress.{EndsEarly};
ghost use Rattle.build_outcome.specs.declared.outcome.Outcome.{Outcome as OutcomeOf};
ghost use Rattle.build_outcome.specs.declared.outcome.Reason.{Reason as ReasonOf};
ghost use Rattle.build_outcome.specs.declared.outcome.Spot.{Spot as SpotOf};
ghost use Rattle.build_outcome.specs.declared.outcome.Outcome.TheVariants as outcomes;

use crate::check::checked;
use crate::reading::read_files;
use build_outcome::{Done, Stop};
use cdle_folder::Folder;
use std::alloc::Global;

/// Reads these files in their order, each behind the earlier ones, and checks all their items together, with so many units for each
/// comparison and each head form. With no files it accepts none.
pub fn core_command<F: Folder>(
    alloc: Global,
    files: &Vec<String>,
    budget: u64,
    folder: &mut F,
) -> Done
    // The end of the call with its cause: the trace over the files, and what they say.
    ensures call { IsCall budget (record { before = F.state folder.old; after = F.state folder.new }) (map string_bytes files.now.items) result }

    // Accepted: each file in its order is read to its end, and the list of all items has a derivation.
    ensures accepted { (modules items : ℕ) → result.outcome ≡ outcomes.Ok modules items → AreAccepted (record { before = F.state folder.old; after = F.state folder.new }) (map string_bytes files.now.items) items }

    // Refused: likewise each file is read, and the items up to the one that is named have no derivation.
    ensures refused { (place : SpotOf) (why : ReasonOf) → result.outcome ≡ outcomes.Refused place why → AreRefused (record { before = F.state folder.old; after = F.state folder.new }) (map string_bytes files.now.items) place }

    // Undecided: likewise each file is read; the question at that place is spent with this budget, and so is the plain check of all items, there
    // or earlier.
    ensures undecided { (place : SpotOf) (units : ℕ) → result.outcome ≡ outcomes.Undecided place units → (units ≡ budget) × AreUndecided budget (record { before = F.state folder.old; after = F.state folder.new }) (map string_bytes files.now.items) place }

    // No file is written, and no write fails.
    ensures files { (F.state folder.new).files ≡ (F.state folder.old).files }
    ensures write_faults { (F.state folder.new).write_faults ≡ (F.state folder.old).write_faults }

    // Where the folder tells its files, and none of its faults is counted, then the trace is the one where nothing fails; and where the plain
    // check with this budget is not spent, that has one outcome, in whose place only want of memory may be answered.
    ensures exact { (f : Files) (s : Trace) (o : OutcomeOf) → (F.state folder.old).files ≡ Some f → Quiet (F.state folder.old).read_faults (F.state folder.new).read_faults
        → IsFaultlessTrace f (map string_bytes files.now.items) s → IsOutcome (IsVerdictAtBudget budget) [] s o → (result.outcome ≡ o) ⊎ (result.outcome ≡ outcomes.NoMemory) }

    // So it accepts wherever the files are there, within the limits, and the plain check with this budget accepts their items.
    ensures complete { (f : Files) (all : List Written) → (F.state folder.old).files ≡ Some f → Quiet (F.state folder.old).read_faults (F.state folder.new).read_faults
        → AreReadable f [] (map string_bytes files.now.items) all → check_items budget all ≡ accepts
        → (result.outcome ≡ outcomes.Ok 0 (length all)) ⊎ (result.outcome ≡ outcomes.NoMemory) }
{
    match work(alloc, files, budget, folder) {
        Ok(done) => done,
        Err(Stop::Ended(done)) => done,
        Err(Stop::NoMemory) => Done::no_memory(alloc),
    }
}

/// The work of the command: all files, and then the check.
fn work<F: Folder>(
    alloc: Global,
    files: &Vec<String>,
    budget: u64,
    folder: &mut F,
) -> Result<Done, Stop>
    ensures files { (F.state folder.new).files ≡ (F.state folder.old).files }
    ensures write_faults { (F.state folder.new).write_faults ≡ (F.state folder.old).write_faults }
    ensures done { IfOk result (IsTraced (IsVerdictAtSomeBudget budget) (record { before = F.state folder.old; after = F.state folder.new }) (map string_bytes files.now.items)) }
    ensures ended { IfErr result (EndsEarly (IsVerdictAtSomeBudget budget) (record { before = F.state folder.old; after = F.state folder.new }) (map string_bytes files.now.items)) }
{
    let read = read_files(alloc, files, folder)?;
    Ok(checked(alloc, &read, budget)?)
}
