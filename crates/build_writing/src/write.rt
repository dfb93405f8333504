//! Writing the files.
ghost use Rattle.std.specs.Prelude.{◌≤◌, ◌∷◌, [], IfErr, IfSome, OnOk, map, string_bytes};
ghost use Rattle.build_writing.specs.Steps.{AreWritten, EndsWriting};
ghost use Rattle.build_writing.specs.Writing.{HasReadNothing, HaveWritten, IsLeft, IsWriting, end_of, output_of};

use crate::fault::{OutputFile, WritingFault};
use cdle_folder::{Folder, WriteStop};
use std::alloc::Global;

/// Writes the files, one behind the other.
pub(crate) fn write_all<F: Folder>(
    alloc: Global,
    files: &[OutputFile],
    folder: &mut F,
) -> Result<(), WritingFault>
    ensures read { HasReadNothing (record { before = F.state folder.old; after = F.state folder.new }) }
    ensures write_faults { (F.state folder.old).write_faults ≤ (F.state folder.new).write_faults }
    ensures written { OnOk result (HaveWritten (record { before = F.state folder.old; after = F.state folder.new }) (map output_of files.now)) }
    ensures left { IsLeft (record { before = F.state folder.old; after = F.state folder.new }) (map output_of files.now) }
    ensures ended { IfErr result (λ fault. IfSome (end_of fault) (IsWriting (record { before = F.state folder.old; after = F.state folder.new }) (map output_of files.now))) }
{
    for (number, file) in files.iter().enumerate() {
        write_file(alloc, number, file, folder)?;
    }
    Ok(())
}

/// Writes the file of that number.
fn write_file<F: Folder>(
    alloc: Global,
    number: usize,
    file: &OutputFile,
    folder: &mut F,
) -> Result<(), WritingFault>
    ensures written { OnOk result (AreWritten (record { before = F.state folder.old; after = F.state folder.new }) (output_of file.now ∷ [])) }
    ensures read { HasReadNothing (record { before = F.state folder.old; after = F.state folder.new }) }
    ensures write_faults { (F.state folder.old).write_faults ≤ (F.state folder.new).write_faults }
    ensures ended { IfErr result (EndsWriting (record { before = F.state folder.old; after = F.state folder.new }) number (string_bytes file.now.name)) }
{
    match folder.write(alloc, file.name.as_str(), &file.bytes) {
        Ok(()) => Ok(()),
        Err(WriteStop::Failed) => Err(WritingFault::Unwritten { file: number }),
        Err(WriteStop::NoMemory) => Err(WritingFault::NoMemory),
    }
}
