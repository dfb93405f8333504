//! The command `build`, on one module.
ghost use Rattle.std.specs.Prelude.{◌≡◌, ◌⊎◌, ◌≤◌, ℕ, IfErr, IfOk, List, Some, length};
ghost use Rattle.cdle_folder.specs.Causes.{Quiet};
ghost use Rattle.cdle_folder.specs.Files.{Bytes, Files};
ghost use Rattle.cdle_model.specs.Check.{accepts, check_items};
ghost use Rattle.cdle_model.specs.Forms.{Written};
ghost use Rattle.build_module.specs.ModuleAnswers.{IsModuleAnswer, gives};
ghost use Rattle.build_outcome.specs.declared.outcome.Outcome.{Outcome as OutcomeOf};
ghost use Rattle.build_outcome.specs.declared.outcome.Reason.{Reason as ReasonOf};
ghost use Rattle.build_outcome.specs.declared.outcome.Spot.{Spot as SpotOf};
ghost use Rattle.build_outcome.specs.declared.outcome.Outcome.TheVariants as outcomes;
ghost use Rattle.build_drive.specs.BuildCalls.{IsBuildCall, IsBuildDetermined, IsBuilt, IsLeft, IsRefusedSource, IsUndecidedModule};
ghost use Rattle.build_drive.specs.BuildProgress.{IsBuilding};
ghost use Rattle.build_drive.specs.BuildTraces.{most_core_bytes};
ghost use Rattle.build_outcome.specs.Changes.{most_bytes};
ghost use Rattle.build_source.specs.Files.{IsThere, source_file};
ghost use Rattle.build_source.specs.Progress.{IfEnded};

use crate::written::write_core;
use build_outcome::{Done, Stop};
use build_source::source_text;
use cdle_folder::Folder;
use std::alloc::Global;

/// Builds the module of that name: reads its file, elaborates it by the surface rules with so many units for each comparison and each head form, writes its Core
/// file, reads that back and checks it. The module stands alone: an import is not built yet.
pub fn build<F: Folder>(alloc: Global, name: &str, budget: u64, folder: &mut F) -> Done
    // The end of the call with its cause: the trace over the two files, and what the module's file comes to by the rules.
    ensures call { IsBuildCall budget (record { before = F.state folder.old; after = F.state folder.new }) name.now result }

    // Built: the Core file has what the rules give for the module's file, that says items with the names of its definitions in order, which erase to these and
    // have a derivation; and just that was read back.
    ensures built { (modules items : ℕ) → result.outcome ≡ outcomes.Ok modules items → IsBuilt budget (record { before = F.state folder.old; after = F.state folder.new }) name.now modules items }

    // Refused: only what the rules refuse in the module's file, or what is not built, and Core's check never.
    ensures refused { (place : SpotOf) (why : ReasonOf) → result.outcome ≡ outcomes.Refused place why → IsRefusedSource budget (record { before = F.state folder.old; after = F.state folder.new }) name.now place why }

    // Undecided: a question of the rules is spent there with this budget; or the check of the Core file is, and so is the plain check of its items, there or
    // earlier.
    ensures undecided { (place : SpotOf) (units : ℕ) → result.outcome ≡ outcomes.Undecided place units → (units ≡ budget)
        × IsUndecidedModule budget (record { before = F.state folder.old; after = F.state folder.new }) name.now place }

    // Whatever the outcome, only the Core file may be written, with what the rules give.
    ensures files { IsLeft budget (record { before = F.state folder.old; after = F.state folder.new }) name.now }

    // Where the folder tells its files, and none of its faults is counted, there is one outcome where the plain check of what is given is not spent with
    // this budget; only want of memory may be answered in its place.
    ensures exact { (f : Files) (o : OutcomeOf) → (F.state folder.old).files ≡ Some f → Quiet (F.state folder.old).read_faults (F.state folder.new).read_faults
        → Quiet (F.state folder.old).write_faults (F.state folder.new).write_faults → IsBuildDetermined budget f name.now o → (result.outcome ≡ o) ⊎ (result.outcome ≡ outcomes.NoMemory) }

    // So it builds wherever the module's file is there, the rules give items for it with this budget, and the plain check with this budget accepts them.
    ensures complete { (f : Files) (source text : Bytes) (ws : List Written) → (F.state folder.old).files ≡ Some f → Quiet (F.state folder.old).read_faults (F.state folder.new).read_faults
        → Quiet (F.state folder.old).write_faults (F.state folder.new).write_faults → IsThere (Some f) most_bytes (source_file name.now) source
        → IsModuleAnswer budget source name.now (gives ws text) → length text ≤ most_core_bytes → check_items budget ws ≡ accepts
        → (result.outcome ≡ outcomes.Ok 1 (length ws)) ⊎ (result.outcome ≡ outcomes.NoMemory) }
{
    match building(alloc, name, budget, folder) {
        Ok(done) => done,
        Err(Stop::Ended(done)) => done,
        Err(Stop::NoMemory) => Done::no_memory(alloc),
    }
}

/// The work of the command: the text of the Core file, and then that file.
fn building<F: Folder>(alloc: Global, name: &str, budget: u64, folder: &mut F) -> Result<Done, Stop>
    ensures left { IsLeft budget (record { before = F.state folder.old; after = F.state folder.new }) name.now }
    ensures done { IfOk result (IsBuilding budget (record { before = F.state folder.old; after = F.state folder.new }) name.now) }
    ensures ended { IfErr result (IfEnded (IsBuilding budget (record { before = F.state folder.old; after = F.state folder.new }) name.now)) }
{
    let text = source_text(alloc, name, budget, folder)?;
    write_core(alloc, name, &text, budget, folder)
}
