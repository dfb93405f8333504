//! The Core file: written, read back and checked.
ghost use Rattle.std.specs.Prelude.{◌≡◌, ◌⊎◌, ◌≤◌, [], IfErr, IfOk, List, MatchOption, Some, length, option_map, slice_get};
ghost use Rattle.cdle_folder.specs.Causes.{Rose};
ghost use Rattle.cdle_folder.specs.Files.{IsOtherwiseSame, with_file};
ghost use Rattle.cdle_model.specs.Classes.{AreScoped};
ghost use Rattle.cdle_model.specs.CoreText.{Says};
ghost use Rattle.cdle_model.specs.Derivation.{AreDerived};
ghost use Rattle.cdle_model.specs.Forms.{Written};
ghost use Rattle.core_check.specs.Items.{items_of};
ghost use Rattle.core_text.specs.File.{IsFaultOf};
ghost use Rattle.build_outcome.specs.Reports.{IsReported, IsShown};
ghost use Rattle.build_drive.specs.BuildAnswers.{DifferAt, IsReadBackEnd, OfOneModule};
ghost use Rattle.build_drive.specs.BuildProgress.{EndsWriting};
ghost use Rattle.build_source.specs.Files.{core_file};
ghost use Rattle.build_source.specs.Progress.{IfEnded};
ghost use Rattle.build_drive.specs.Checks.{IsVerdictAtSomeBudget};

use crate::check::refused;
use build_outcome::{Done, Outcome, Stop};
use build_source::{core_file, read_file_for, write_file_for};
use cdle_folder::Folder;
use cdle_model::{NoMemory, Text};
use core_check::check_files;
use core_text::{CoreScope, CoreTextFault, read_core};
use core_tree::CoreFile;
use std::alloc::Global;

/// The most bytes of a Core file that is read back.
const MOST_CORE_BYTES: u64 = 67_108_864;

/// Writes the Core file of the module of that name with this text, reads it back, and checks what it says, with so many units for each comparison and each head
/// form.
pub(crate) fn write_core<F: Folder>(
    alloc: Global,
    name: &str,
    text: &[u8],
    budget: u64,
    folder: &mut F,
) -> Result<Done, Stop>
    requires { (ws : List Written) × Says text.now [] ws × AreDerived ws }
    ensures read_faults { (F.state folder.old).read_faults ≤ (F.state folder.new).read_faults }
    ensures absences { (F.state folder.old).absences ≤ (F.state folder.new).absences }
    ensures left { ((F.state folder.new).files ≡ (F.state folder.old).files) ⊎ (((F.state folder.new).files ≡ option_map (with_file (core_file name.now) text.now) (F.state folder.old).files)
        ⊎ Rose (F.state folder.old).write_faults (F.state folder.new).write_faults × IsOtherwiseSame (core_file name.now) (F.state folder.old).files (F.state folder.new).files) }
    ensures done { IfOk result (EndsWriting budget (record { before = F.state folder.old; after = F.state folder.new }) name.now text.now) }
    ensures ended { IfErr result (IfEnded (EndsWriting budget (record { before = F.state folder.old; after = F.state folder.new }) name.now text.now)) }
{
    let file = core_file(alloc, name)?;
    write_file_for(alloc, name, file.as_str(), text, folder)?;
    let bytes = read_file_for(alloc, name, file.as_str(), MOST_CORE_BYTES, folder)?;
    Ok(read_back(alloc, name, file.as_str(), text, &bytes, budget)?)
}

/// The outcome where these bytes were read back of the file, which was written with this text.
fn read_back(
    alloc: Global,
    name: &str,
    file: &str,
    text: &[u8],
    bytes: &[u8],
    budget: u64,
) -> Result<Done, NoMemory>
    requires text { (ws : List Written) × Says text.now [] ws × AreDerived ws }
    requires short { length bytes.now ≤ 67108864 }
    ensures outcome { IfOk result (λ done. (ws : List Written) → Says text.now [] ws → AreDerived ws
        → (bytes.now ≡ text.now) × OfOneModule (IsVerdictAtSomeBudget budget) ws done.outcome ⊎ IsReadBackEnd file.now text.now bytes.now done.outcome) }
    ensures report { IfOk result (IsReported (Some name.now) []) }
{
    match first_difference(text, bytes) {
        Some(at) => different(alloc, name, file, text, bytes, at),
        None => checked_module(alloc, name, bytes, budget),
    }
}

/// The number of the first byte at which the two are not the same, the end of one being like no byte.
fn first_difference(left: &[u8], right: &[u8]) -> Option<usize>
    ensures { MatchOption result (right.now ≡ left.now) (λ at. DifferAt left.now right.now at (slice_get left.now at) (slice_get right.now at)) }
{
    let mut at = 0;
    while at < left.len() && at < right.len() {
        if left[at] != right[at] {
            return Some(at);
        }
        at += 1;
    }
    if left.len() == right.len() {
        None
    } else {
        Some(at)
    }
}

/// What was read back differs at that byte.
fn different(
    alloc: Global,
    name: &str,
    file: &str,
    text: &[u8],
    bytes: &[u8],
    at: usize,
) -> Result<Done, NoMemory>
    requires there { DifferAt text.now bytes.now at (slice_get text.now at) (slice_get bytes.now at) }
    requires short { length bytes.now ≤ 67108864 }
    ensures outcome { IfOk result (λ done. IsReadBackEnd file.now text.now bytes.now done.outcome) }
    ensures report { IfOk result (IsReported (Some name.now) []) }
{
    let outcome = Outcome::ReadBack {
        file: Text::new(alloc, file)?,
        at: at as u32,
        wrote: text.get(at).copied(),
        read: bytes.get(at).copied(),
    };
    Done::new(alloc, Some(name), outcome, b"")
}

/// The check of the items that the bytes say.
fn checked_module(alloc: Global, name: &str, bytes: &[u8], budget: u64) -> Result<Done, NoMemory>
    requires said { (ws : List Written) × Says bytes.now [] ws × AreDerived ws }
    requires short { length bytes.now ≤ 67108864 }
    ensures outcome { IfOk result (λ done. (ws : List Written) → Says bytes.now [] ws → AreDerived ws → OfOneModule (IsVerdictAtSomeBudget budget) ws done.outcome) }
    ensures report { IfOk result (IsReported (Some name.now) []) }
{
    let files = said(alloc, bytes)?;
    let outcome = verdict(alloc, &files, budget)?;
    Done::new(alloc, Some(name), outcome, b"")
}

/// The items that the bytes say, as those of one file.
fn said(alloc: Global, bytes: &[u8]) -> Result<Vec<CoreFile>, NoMemory>
    requires said { (ws : List Written) × Says bytes.now [] ws × AreDerived ws }
    requires short { length bytes.now ≤ 67108864 }
    ensures { IfOk result (λ files. Says bytes.now [] (items_of files.items)) }
{
    match read_core(alloc, bytes, &CoreScope::new(alloc)) {
        Ok(file) => one(alloc, file),
        Err(fault) => Err(memory_wanted(bytes, fault)),
    }
}

/// Bytes that say items have no fault but want of memory.
fn memory_wanted(bytes: &[u8], fault: CoreTextFault) -> NoMemory
    requires said { (ws : List Written) × Says bytes.now [] ws × AreDerived ws }
    requires fault { IsFaultOf bytes.now [] fault }
{
    match fault {
        CoreTextFault::NotUtf8 { .. } => unreachable!(),
        CoreTextFault::BadText { .. } => unreachable!(),
        CoreTextFault::Unbound { .. } => unreachable!(),
        CoreTextFault::WrongClass { .. } => unreachable!(),
        CoreTextFault::TooDeep { .. } => unreachable!(),
        CoreTextFault::NoMemory => NoMemory,
    }
}

fn one(alloc: Global, file: CoreFile) -> Result<Vec<CoreFile>, NoMemory>
    ensures { IfOk result (λ files. items_of files.items ≡ file.items) }
{
    let mut files = Vec::new(alloc);
    files.push(file)?;
    Ok(files)
}

/// The outcome of the check of items that have a derivation.
fn verdict(alloc: Global, files: &Vec<CoreFile>, budget: u64) -> Result<Outcome, NoMemory>
    requires items { AreScoped (items_of files.now.items) }
    requires derived { AreDerived (items_of files.now.items) }
    ensures verdict { IfOk result (OfOneModule (IsVerdictAtSomeBudget budget) (items_of files.now.items)) }
    ensures shown { IfOk result (IsShown []) }
{
    match check_files(alloc, files, budget) {
        Ok(checked) => Ok(Outcome::Ok {
            modules: 1,
            items: checked.items,
        }),
        Err(fault) => refused(alloc, files, budget, fault),
    }
}
