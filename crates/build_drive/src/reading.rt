//! Reading the files, one behind the other.
ghost use Rattle.std.specs.Prelude.{◌≡◌, ◌+◌, ◌≤◌, ◌++◌, [], ℕ, List, IfErr, IfOk, MatchOption, OnOk, length, map, string_bytes};
ghost use Rattle.cdle_model.specs.Classes.{AreScoped};
ghost use Rattle.cdle_model.specs.CoreNames.{Name};
ghost use Rattle.cdle_model.specs.CoreText.{Says};
ghost use Rattle.cdle_model.specs.Forms.{Written};
ghost use Rattle.cdle_model.specs.Report.{wanted_word};
ghost use Rattle.core_check.specs.Items.{items_of};
ghost use Rattle.core_text.specs.File.{IsFaultOf};
ghost use Rattle.core_text.specs.Scope.{known_names};
ghost use Rattle.core_text.specs.View.{IsPlaced};
ghost use Rattle.build_drive.specs.Answers.{IsEnd, IsStopped, most_items, item_names};
ghost use Rattle.build_drive.specs.Checks.{IsVerdictAtSomeBudget};
ghost use Rattle.build_outcome.specs.Reports.{IsShown};
ghost use Rattle.build_drive.specs.Progress.{EndsAt, EndsEarly, EndsIn, HasCome, IsInStep, IsRead, trace_of_stop};

use build_outcome::{Badness, Done, Outcome, Stop};
use cdle_folder::{Folder, ReadStop};
use cdle_model::{CoreWanted, Count, NoMemory, Text};
use core_text::{CoreScope, CoreTextFault, read_core, word_at};
use core_tree::CoreFile;
use std::alloc::Global;

/// The most bytes of a file.
const MOST_BYTES: u64 = 1_048_576;

/// The most items of all files.
const MOST_ITEMS: usize = 10_000;

/// The files that were read, the names of their items, and how many these are.
#[derive(Drop)]
pub(crate) struct Reading {
    files: Vec<CoreFile>,
    known: CoreScope,
    items: usize,
}

/// The files in their order, each behind the earlier ones.
pub(crate) fn read_files<F: Folder>(
    alloc: Global,
    files: &Vec<String>,
    folder: &mut F,
) -> Result<Vec<CoreFile>, Stop>
    ensures files { (F.state folder.new).files ≡ (F.state folder.old).files }
    ensures write_faults { (F.state folder.new).write_faults ≡ (F.state folder.old).write_faults }
    ensures items { IfOk result (λ read. AreScoped (items_of read.items)) }
    ensures few { IfOk result (λ read. length (items_of read.items) ≤ most_items) }
    ensures read { IfOk result (λ read. (n : ℕ) → HasCome (IsVerdictAtSomeBudget n) (record { before = F.state folder.old; after = F.state folder.new }) (map string_bytes files.now.items) (F.state folder.new).given (items_of read.items) []) }
    ensures ended { IfErr result (λ stop. (n : ℕ) → EndsEarly (IsVerdictAtSomeBudget n) (record { before = F.state folder.old; after = F.state folder.new }) (map string_bytes files.now.items) stop) }
{
    let mut reading = Reading::new(alloc);
    for file in files {
        reading.add(alloc, file.as_str(), folder)?;
    }
    Ok(reading.files)
}

impl Reading {
    /// Before any file.
    fn new(alloc: Global) -> Reading
        ensures in_step { IsInStep result }
        ensures empty { items_of result.files.items ≡ [] }
    {
        Reading {
            files: Vec::new(alloc),
            known: CoreScope::new(alloc),
            items: 0,
        }
    }

    /// Reads the next file, behind the others.
    fn add<F: Folder>(&mut self, alloc: Global, file: &str, folder: &mut F) -> Result<(), Stop>
        requires { IsInStep self.old }
        ensures files { (F.state folder.new).files ≡ (F.state folder.old).files }
        ensures write_faults { (F.state folder.new).write_faults ≡ (F.state folder.old).write_faults }
        ensures read_faults { (F.state folder.old).read_faults ≤ (F.state folder.new).read_faults }
        ensures absences { (F.state folder.old).absences ≤ (F.state folder.new).absences }
        ensures in_step { OnOk result (IsInStep self.new) }
        ensures read { OnOk result ((ws : List Written) × (items_of self.new.files.items ≡ items_of self.old.files.items ++ ws)
            × IsRead (record { before = F.state folder.old; after = F.state folder.new }) file.now (item_names (items_of self.old.files.items)) ws) }
        ensures ended { IfErr result (EndsAt (record { before = F.state folder.old; after = F.state folder.new }) file.now (item_names (items_of self.old.files.items))) }
    {
        let next = read_file(alloc, file, &self.known, self.items, folder)?;
        self.known.add(alloc, &next)?;
        self.items += next.items.len();
        self.files.push(next)?;
        Ok(())
    }
}

/// The next file, behind so many items of these names.
fn read_file<F: Folder>(
    alloc: Global,
    file: &str,
    known: &CoreScope,
    items: usize,
    folder: &mut F,
) -> Result<CoreFile, Stop>
    requires counted { items ≡ length (known_names known.now) }
    requires few { items ≤ most_items }
    ensures files { (F.state folder.new).files ≡ (F.state folder.old).files }
    ensures write_faults { (F.state folder.new).write_faults ≡ (F.state folder.old).write_faults }
    ensures read_faults { (F.state folder.old).read_faults ≤ (F.state folder.new).read_faults }
    ensures absences { (F.state folder.old).absences ≤ (F.state folder.new).absences }
    ensures read { IfOk result (λ read. IsRead (record { before = F.state folder.old; after = F.state folder.new }) file.now (known_names known.now) read.items) }
    ensures ended { IfErr result (EndsAt (record { before = F.state folder.old; after = F.state folder.new }) file.now (known_names known.now)) }
{
    match folder.read(alloc, file, MOST_BYTES) {
        Ok(text) => items_of_text(alloc, file, &text, known, items),
        Err(stop) => {
            let outcome = unread(alloc, file, stop)?;
            Err(Stop::Ended(Done::new(alloc, None, outcome, b"")?))
        }
    }
}

/// The outcome where the file was not read.
fn unread(alloc: Global, file: &str, stop: ReadStop) -> Result<Outcome, NoMemory>
    ensures { IfOk result (λ outcome. (known : List Name) → MatchOption (trace_of_stop file.now stop) ⊥ (λ trace. IsStopped known trace outcome)) }
{
    let name = Text::new(alloc, file)?;
    match stop {
        ReadStop::Failed => Ok(Outcome::ReadFault { file: name }),
        ReadStop::Absent => Ok(Outcome::Missing { file: name }),
        ReadStop::TooLong => Ok(Outcome::Limit {
            name,
            what: Count::Bytes,
        }),
        ReadStop::NoMemory => Err(NoMemory),
    }
}

/// The items that a text says behind so many of these names.
fn items_of_text(
    alloc: Global,
    file: &str,
    text: &[u8],
    known: &CoreScope,
    items: usize,
) -> Result<CoreFile, Stop>
    requires short { length text.now ≤ 1048576 }
    requires counted { items ≡ length (known_names known.now) }
    requires few { items ≤ most_items }
    ensures says { IfOk result (λ read. Says text.now (known_names known.now) read.items × (length (known_names known.now) + length read.items ≤ most_items)) }
    ensures ended { IfErr result (EndsIn file.now text.now (known_names known.now)) }
{
    match read_core(alloc, text, known) {
        Ok(read) if items + read.items.len() <= MOST_ITEMS => Ok(read),
        Ok(_) => {
            let name = Text::new(alloc, file)?;
            let what = Count::Items;
            Err(Stop::Ended(Done::new(alloc, None, Outcome::Limit { name, what }, text)?))
        }
        Err(fault) => {
            let outcome = malformed(alloc, file, text, fault)?;
            Err(Stop::Ended(Done::new(alloc, None, outcome, text)?))
        }
    }
}

/// The outcome of a text that is none of the grammar and its scope.
fn malformed(
    alloc: Global,
    file: &str,
    text: &[u8],
    fault: CoreTextFault,
) -> Result<Outcome, NoMemory>
    requires short { length text.now ≤ 1048576 }
    requires fault { (known : List Name) × IsFaultOf text.now known fault }
    requires placed { IsPlaced text.now fault }
    ensures ended { IfOk result (λ outcome. (known : List Name) → IsFaultOf text.now known fault → IsEnd known file.now text.now outcome) }
    ensures shown { IfOk result (IsShown text.now) }
{
    let file = Text::new(alloc, file)?;
    let (at, what) = match fault {
        CoreTextFault::NotUtf8 { at } => (at, Badness::NotUtf8),
        CoreTextFault::BadText { at, wanted } => {
            (at, Badness::Wanted(Text::new(alloc, word_of(wanted))?))
        }
        CoreTextFault::Unbound { at } => {
            let name = Text::new(alloc, word_at(text, at))?;
            (at, Badness::Unbound(name))
        }
        CoreTextFault::WrongClass { at } => {
            let name = Text::new(alloc, word_at(text, at))?;
            (at, Badness::WrongClass(name))
        }
        CoreTextFault::TooDeep { .. } => {
            return Ok(Outcome::Limit {
                name: file,
                what: Count::Nesting,
            });
        }
        CoreTextFault::NoMemory => return Err(NoMemory),
    };
    Ok(Outcome::Malformed { file, at, what })
}

/// The word for what the grammar wants.
fn word_of(wanted: CoreWanted) -> &'static str
    ensures { result.now ≡ wanted_word wanted }
{
    match wanted {
        CoreWanted::Core => "core",
        CoreWanted::One => "1",
        CoreWanted::Item => "item",
        CoreWanted::Name => "name",
        CoreWanted::Kind => "kind",
        CoreWanted::Ty => "type",
        CoreWanted::Term => "term",
        CoreWanted::Pure => "pure term",
        CoreWanted::Guide => "guide",
        CoreWanted::GuideKind => "guide kind",
        CoreWanted::Close => ")",
    }
}
