//! The files of `build`: named, read and written.
ghost use Rattle.std.specs.Prelude.{◌≡◌, ◌⊎◌, ◌≤◌, [], IfErr, IfOk, MatchOption, OnErr, OnOk, option_map, string_bytes};
ghost use Rattle.cdle_folder.specs.Causes.{Rose};
ghost use Rattle.cdle_folder.specs.Files.{IsOtherwiseSame, with_file, with_read};
ghost use Rattle.build_outcome.specs.Reports.{IsReported, IsShown};
ghost use Rattle.build_outcome.specs.declared.outcome.Outcome.TheVariants as outcomes;
ghost use Rattle.build_source.specs.Files.{IsThere, IsUnreadEnd, core_file, source_file};
ghost use Rattle.build_source.specs.Progress.{EndsUnread, IfEnded, unread_by};

use build_outcome::{Done, Outcome, Stop};
use cdle_folder::{Folder, ReadStop, WriteStop};
use cdle_model::{Count, NoMemory, Text};
use std::alloc::Global;

/// The file of the module of that name.
pub(crate) fn source_file(alloc: Global, name: &str) -> Result<String, NoMemory>
    ensures { IfOk result (λ file. string_bytes file ≡ source_file name.now) }
{
    Ok(format!(in alloc; "{name}.cdle")?)
}

/// Its Core file.
pub fn core_file(alloc: Global, name: &str) -> Result<String, NoMemory>
    ensures { IfOk result (λ file. string_bytes file ≡ core_file name.now) }
{
    Ok(format!(in alloc; "{name}.core")?)
}

/// The bytes of a file, of which there may be so many, for the module of that name.
pub fn read_file_for<F: Folder>(
    alloc: Global,
    name: &str,
    file: &str,
    most: u64,
    folder: &mut F,
) -> Result<Vec<u8>, Stop>
    ensures files { (F.state folder.new).files ≡ (F.state folder.old).files }
    ensures write_faults { (F.state folder.new).write_faults ≡ (F.state folder.old).write_faults }
    ensures read_faults { (F.state folder.old).read_faults ≤ (F.state folder.new).read_faults }
    ensures absences { (F.state folder.old).absences ≤ (F.state folder.new).absences }
    ensures given { IfOk result (λ bytes. (F.state folder.new).given ≡ with_read file.now bytes.items (F.state folder.old).given) }
    ensures there { IfOk result (λ bytes. IsThere (F.state folder.old).files most file.now bytes.items) }
    ensures ended { IfErr result (IfEnded (EndsUnread (record { before = F.state folder.old; after = F.state folder.new }) name.now most file.now)) }
{
    match folder.read(alloc, file, most) {
        Ok(bytes) => Ok(bytes),
        Err(stop) => {
            let outcome = unread(alloc, file, stop)?;
            Err(Stop::Ended(Done::new(alloc, Some(name), outcome, b"")?))
        }
    }
}

/// The outcome where a file was not read.
fn unread(alloc: Global, file: &str, stop: ReadStop) -> Result<Outcome, NoMemory>
    ensures ended { IfOk result (λ outcome. MatchOption (unread_by stop) ⊥ (λ u. IsUnreadEnd file.now u outcome)) }
    ensures shown { IfOk result (IsShown []) }
{
    let name = Text::new(alloc, file)?;
    match stop {
        ReadStop::Failed => Ok(Outcome::ReadFault { file: name }),
        ReadStop::Absent => Ok(Outcome::Missing { file: name }),
        ReadStop::TooLong => Ok(Outcome::Limit {
            name,
            what: Count::Bytes,
        }),
        ReadStop::NoMemory => Err(NoMemory),
    }
}

/// Makes the bytes all that the file has, for the module of that name.
pub fn write_file_for<F: Folder>(
    alloc: Global,
    name: &str,
    file: &str,
    bytes: &[u8],
    folder: &mut F,
) -> Result<(), Stop>
    ensures given { (F.state folder.new).given ≡ (F.state folder.old).given }
    ensures read_faults { (F.state folder.new).read_faults ≡ (F.state folder.old).read_faults }
    ensures absences { (F.state folder.new).absences ≡ (F.state folder.old).absences }
    ensures left { OnErr result (((F.state folder.new).files ≡ (F.state folder.old).files) ⊎ Rose (F.state folder.old).write_faults (F.state folder.new).write_faults
        × IsOtherwiseSame file.now (F.state folder.old).files (F.state folder.new).files) }
    ensures written { OnOk result ((F.state folder.new).files ≡ option_map (with_file file.now bytes.now) (F.state folder.old).files) }
    ensures ended { IfErr result (IfEnded (λ done. Rose (F.state folder.old).write_faults (F.state folder.new).write_faults
        × IsOtherwiseSame file.now (F.state folder.old).files (F.state folder.new).files
        × (done.outcome ≡ outcomes.WriteFault (Some file.now)) × IsReported (Some name.now) [] done)) }
{
    match folder.write(alloc, file, bytes) {
        Ok(()) => Ok(()),
        Err(WriteStop::Failed) => Err(Stop::Ended(unwritten(alloc, name, file)?)),
        Err(WriteStop::NoMemory) => Err(Stop::NoMemory),
    }
}

/// That the file was not written.
fn unwritten(alloc: Global, name: &str, file: &str) -> Result<Done, NoMemory>
    ensures outcome { IfOk result (λ done. done.outcome ≡ outcomes.WriteFault (Some file.now)) }
    ensures report { IfOk result (IsReported (Some name.now) []) }
{
    let file = Some(Text::new(alloc, file)?);
    Done::new(alloc, Some(name), Outcome::WriteFault { file }, b"")
}
