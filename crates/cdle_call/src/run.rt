//! The top call.
ghost use Rattle.std.specs.Prelude.{◌≡◌, ◌⊎◌, ◌≤◌, [], ℕ, List, None, Some, length, map, string_bytes};
ghost use Rattle.cdle_folder.specs.Causes.{Quiet, Rose, next_count};
ghost use Rattle.cdle_folder.specs.Files.{Bytes, Files};
ghost use Rattle.cdle_model.specs.Check.{accepts, check_items};
ghost use Rattle.cdle_model.specs.Forms.{Written};
ghost use Rattle.cdle_words.specs.Words.{build, command_of, core};
ghost use Rattle.build_drive.specs.Calls.{AreReadable};
ghost use Rattle.build_drive.specs.BuildTraces.{most_core_bytes};
ghost use Rattle.build_module.specs.ModuleAnswers.{IsModuleAnswer, gives};
ghost use Rattle.build_outcome.specs.Changes.{most_bytes};
ghost use Rattle.build_outcome.specs.Reports.{IsReported, status_of};
ghost use Rattle.build_source.specs.Files.{IsThere, source_file};
ghost use Rattle.build_outcome.specs.declared.outcome.Outcome.{Outcome as OutcomeOf};
ghost use Rattle.build_outcome.specs.declared.outcome.Outcome.TheVariants as outcomes;
ghost use Rattle.build_outcome.specs.declared.outcome.Reason.{Reason as ReasonOf};
ghost use Rattle.build_outcome.specs.declared.outcome.Spot.{Spot as SpotOf};
ghost use Rattle.cdle_call.specs.Run.{Ends, IsRun, bytes_put};
ghost use Rattle.cdle_call.specs.Work.{IsAccepted, IsDetermined, IsQuiet, IsRefused, IsSpent, IsWanting, IsWork, LeavesFiles};

use build_drive::{Done, Outcome, build, core_command};
use cdle_folder::{Folder, Sink};
use cdle_words::{Asked, WordsFault, command_asked};
use std::alloc::Global;

/// The end of a call: the program's status, and its cause.
#[derive(Drop)]
pub struct Exit {
    pub status: u8,
    pub outcome: Outcome,
}

/// Does what the words ask for, over the folder, and puts one report.
pub fn cdle_run<F: Folder, S: Sink>(
    alloc: Global,
    words: &Vec<String>,
    folder: &mut F,
    out: &mut S,
) -> Exit
    ensures status { result.status ≡ status_of result.outcome }

    // The end of the call with its cause: what the words ask for, the trace over the files and what they say, and what became of the report.
    ensures call { IsRun (command_of (map string_bytes words.now.items))
        (record { before = F.state folder.old; after = F.state folder.new })
        (record { before = S.state out.old; after = S.state out.new }) result.outcome }

    // Usage is answered only where the words are no command.
    ensures usage { result.outcome ≡ outcomes.Usage → command_of (map string_bytes words.now.items) ≡ None }

    // Where they are none it is answered, or want of memory, or that the report was not put, which the sink counted in this call.
    ensures no_command { command_of (map string_bytes words.now.items) ≡ None → (result.outcome ≡ outcomes.Usage) ⊎ ((result.outcome ≡ outcomes.NoMemory)
        ⊎ (result.outcome ≡ outcomes.WriteFault None) × Rose (S.state out.old).faults (S.state out.new).faults) }

    // Accepted by `core`: each file of the words is read to its end, in their order, and the list of all items has a derivation. Built by `build`: the module's
    // Core file has what the rules give for its file; it says items with the names of the module's definitions in order, which erase to these and have a
    // derivation; and just that was read back.
    ensures accepted { (modules items : ℕ) → result.outcome ≡ outcomes.Ok modules items → IsAccepted (command_of (map string_bytes words.now.items))
        (record { before = F.state folder.old; after = F.state folder.new }) modules items }

    // Refused by `core`: likewise each file is read, and the items up to the one that is named have no derivation. Refused by `build`: only what the surface
    // rules refuse in the module's file, or what is not built; Core's check never refuses what they give.
    ensures refused { (place : SpotOf) (why : ReasonOf) → result.outcome ≡ outcomes.Refused place why → IsRefused (command_of (map string_bytes words.now.items))
        (record { before = F.state folder.old; after = F.state folder.new }) place why }

    // Undecided: likewise each file is read; the question at that place is spent with the words' budget, and where it is one of Core's check so is the plain
    // check of all items, there or earlier.
    ensures undecided { (place : SpotOf) (units : ℕ) → result.outcome ≡ outcomes.Undecided place units → IsSpent (command_of (map string_bytes words.now.items))
        (record { before = F.state folder.old; after = F.state folder.new }) place units }

    // Without a command and by `core` no file is written, and no write fails; by `build` only the module's Core file may be written, with what the rules give.
    ensures files { LeavesFiles (command_of (map string_bytes words.now.items)) (record { before = F.state folder.old; after = F.state folder.new }) }

    // Bytes are put just once, whatever the outcome.
    ensures puts { (S.state out.new).puts ≡ next_count (S.state out.old).puts }

    // Where the folder tells its files, and no fault of folder or sink is counted, there is one outcome, which the words and the files determine
    // where the plain check with the words' budget is not spent; only want of memory may be answered in its place.
    ensures exact { (f : Files) (o : OutcomeOf) → (F.state folder.old).files ≡ Some f
        → IsQuiet (command_of (map string_bytes words.now.items)) (record { before = F.state folder.old; after = F.state folder.new })
        → Quiet (S.state out.old).faults (S.state out.new).faults → IsDetermined (command_of (map string_bytes words.now.items)) f o
        → (result.outcome ≡ o) ⊎ (result.outcome ≡ outcomes.NoMemory) }

    // So it accepts wherever the files of the words are there, within the limits, and the plain check with the words' budget accepts their items.
    ensures complete { (f : Files) (files : List Bytes) (budget : ℕ) (all : List Written) → (F.state folder.old).files ≡ Some f
        → Quiet (F.state folder.old).read_faults (F.state folder.new).read_faults → Quiet (S.state out.old).faults (S.state out.new).faults
        → command_of (map string_bytes words.now.items) ≡ Some (core files budget) → AreReadable f [] files all → check_items budget all ≡ accepts
        → (result.outcome ≡ outcomes.Ok 0 (length all)) ⊎ (result.outcome ≡ outcomes.NoMemory) }

    // And it builds wherever the file of the words' module is there, the rules give items for it with the words' budget, and the plain check with it accepts them.
    ensures builds { (f : Files) (name source text : Bytes) (budget : ℕ) (ws : List Written) → (F.state folder.old).files ≡ Some f
        → Quiet (F.state folder.old).read_faults (F.state folder.new).read_faults → Quiet (F.state folder.old).write_faults (F.state folder.new).write_faults
        → Quiet (S.state out.old).faults (S.state out.new).faults → command_of (map string_bytes words.now.items) ≡ Some (build name budget)
        → IsThere (Some f) most_bytes (source_file name) source → IsModuleAnswer budget source name (gives ws text) → length text ≤ most_core_bytes → check_items budget ws ≡ accepts
        → (result.outcome ≡ outcomes.Ok 1 (length ws)) ⊎ (result.outcome ≡ outcomes.NoMemory) }
{
    let done = work(alloc, words, folder);
    let outcome = put_report(done, out);
    Exit {
        status: outcome.status(),
        outcome,
    }
}

/// Does what the words ask for.
fn work<F: Folder>(alloc: Global, words: &Vec<String>, folder: &mut F) -> Done
    ensures files { LeavesFiles (command_of (map string_bytes words.now.items)) (record { before = F.state folder.old; after = F.state folder.new }) }
    ensures work { IsWork (command_of (map string_bytes words.now.items))
        (record { before = F.state folder.old; after = F.state folder.new }) result }
{
    match command_asked(alloc, words) {
        Ok(Asked::Core { files, budget }) => core_command(alloc, &files, budget, folder),
        Ok(Asked::Build { module, budget }) => build(alloc, module.as_str(), budget, folder),
        Err(WordsFault::Usage) => usage(alloc),
        Err(WordsFault::NoMemory) => Done::no_memory(alloc),
    }
}

/// That the words are no command, reported where there is memory.
fn usage(alloc: Global) -> Done
    ensures { IsWanting result ⊎ (result.outcome ≡ outcomes.Usage) × IsReported None [] result }
{
    match Done::new(alloc, None, Outcome::Usage, b"") {
        Ok(done) => done,
        Err(_) => Done::no_memory(alloc),
    }
}

/// Puts the report; the outcome stands where that is done.
fn put_report<S: Sink>(done: Done, out: &mut S) -> Outcome
    ensures puts { (S.state out.new).puts ≡ next_count (S.state out.old).puts }
    ensures ends { Ends (record { before = S.state out.old; after = S.state out.new }) (bytes_put done.outcome done.report.items) done.outcome result }
{
    match out.put(bytes_of(&done)) {
        Ok(()) => done.outcome,
        Err(_) => {
            drop(done);
            Outcome::WriteFault { file: None }
        }
    }
}

/// The bytes that are put. That memory is wanting is said without any.
fn bytes_of(done: &Done) -> &[u8]
    ensures { result.now ≡ bytes_put done.now.outcome done.now.report.items }
{
    match &done.outcome {
        Outcome::NoMemory => b"out of memory\n",
        _ => &done.report,
    }
}
