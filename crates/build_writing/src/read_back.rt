//! Reading the files back.
ghost use Rattle.std.specs.Prelude.{◌≡◌, ◌≤◌, ◌∷◌, [], IfErr, IfOk, IfSome, map};
ghost use Rattle.build_writing.specs.Steps.{AreReadBack, EndsReading};
ghost use Rattle.build_writing.specs.Writing.{IsReadingBack, all_same, end_of, output_of};
ghost use Rattle.build_writing.specs.declared.fault.WritingFault.TheVariants as faults;

use crate::difference::compared;
use crate::fault::{OutputFile, Unread, WritingFault};
use cdle_folder::{Folder, ReadStop};
use std::alloc::Global;

/// The most bytes of a file that is read back.
const MOST_CORE_BYTES: u64 = 67_108_864;

/// Reads the files, one behind the other, which all are to have the bytes that were written.
pub(crate) fn read_all<F: Folder>(
    alloc: Global,
    files: &[OutputFile],
    folder: &mut F,
) -> Result<Vec<Vec<u8>>, WritingFault>
    ensures files { (F.state folder.new).files ≡ (F.state folder.old).files }
    ensures write_faults { (F.state folder.new).write_faults ≡ (F.state folder.old).write_faults }
    ensures read_faults { (F.state folder.old).read_faults ≤ (F.state folder.new).read_faults }
    ensures absences { (F.state folder.old).absences ≤ (F.state folder.new).absences }
    ensures bytes { IfOk result (λ read. map (λ bytes. bytes.items) read.items ≡ map (λ file. file.bytes.items) files.now) }
    ensures same { IfOk result (λ _. IsReadingBack (record { before = F.state folder.old; after = F.state folder.new }) (map output_of files.now) all_same) }
    ensures ended { IfErr result (λ fault. IfSome (end_of fault) (IsReadingBack (record { before = F.state folder.old; after = F.state folder.new }) (map output_of files.now))) }
{
    let mut read = Vec::new(alloc);
    for (number, file) in files.iter().enumerate() {
        let bytes = read_file(alloc, number, file, folder)?;
        read.push(bytes)?;
    }
    Ok(read)
}

/// Reads the file of that number, which is to have the bytes that were written.
fn read_file<F: Folder>(
    alloc: Global,
    number: usize,
    file: &OutputFile,
    folder: &mut F,
) -> Result<Vec<u8>, WritingFault>
    ensures files { (F.state folder.new).files ≡ (F.state folder.old).files }
    ensures write_faults { (F.state folder.new).write_faults ≡ (F.state folder.old).write_faults }
    ensures read_faults { (F.state folder.old).read_faults ≤ (F.state folder.new).read_faults }
    ensures absences { (F.state folder.old).absences ≤ (F.state folder.new).absences }
    ensures same { IfOk result (λ bytes. bytes.items ≡ file.now.bytes.items) }
    ensures read { IfOk result (λ _. AreReadBack (record { before = F.state folder.old; after = F.state folder.new }) (output_of file.now ∷ [])) }
    ensures ended { IfErr result (EndsReading (record { before = F.state folder.old; after = F.state folder.new }) number (output_of file.now)) }
{
    match folder.read(alloc, file.name.as_str(), MOST_CORE_BYTES) {
        Ok(read) => compared(number, &file.bytes, read),
        Err(ReadStop::Failed) => Err(unread(number, Unread::Failed)),
        Err(ReadStop::Absent) => Err(unread(number, Unread::Absent)),
        Err(ReadStop::TooLong) => Err(unread(number, Unread::TooLong)),
        Err(ReadStop::NoMemory) => Err(WritingFault::NoMemory),
    }
}

/// That the file of that number was not read.
fn unread(file: usize, why: Unread) -> WritingFault
    ensures { result ≡ faults.Unread file why }
{
    WritingFault::Unread { file, why }
}
