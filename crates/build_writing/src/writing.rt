//! The whole call.
ghost use Rattle.std.specs.Prelude.{◌≡◌, IfErr, IfOk, IfSome, map};
ghost use Rattle.build_writing.specs.Steps.{CountsStand};
ghost use Rattle.build_writing.specs.Writing.{IsLeft, IsWriting, all_same, end_of, output_of};

use crate::fault::{OutputFile, WritingFault};
use crate::read_back::read_all;
use crate::write::write_all;
use cdle_folder::Folder;
use std::alloc::Global;

/// Writes all the files in their order, and then reads all of them back. The bytes of each, in their order, where these are what was written; else why the call ended at the first file that was not
/// written, or not read back as it was written.
pub fn write_and_read_back<F: Folder>(
    alloc: Global,
    files: &[OutputFile],
    folder: &mut F,
) -> Result<Vec<Vec<u8>>, WritingFault>
    ensures counts { CountsStand (record { before = F.state folder.old; after = F.state folder.new }) }
    ensures left { IsLeft (record { before = F.state folder.old; after = F.state folder.new }) (map output_of files.now) }
    ensures bytes { IfOk result (λ read. map (λ bytes. bytes.items) read.items ≡ map (λ file. file.bytes.items) files.now) }
    ensures same { IfOk result (λ _. IsWriting (record { before = F.state folder.old; after = F.state folder.new }) (map output_of files.now) all_same) }
    ensures ended { IfErr result (λ fault. IfSome (end_of fault) (IsWriting (record { before = F.state folder.old; after = F.state folder.new }) (map output_of files.now))) }
{
    write_all(alloc, files, folder)?;
    read_all(alloc, files, folder)
}
