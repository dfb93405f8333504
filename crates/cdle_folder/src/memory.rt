//! A folder in memory, of which single calls can be made to fail, and single reads to give other bytes.
ghost use Rattle.std.specs.Prelude.{◌≡◌, ◌++◌, [], ◌∷◌, Some, IfOk, OnOk, OnErr, option_map, slice_get};
ghost use Rattle.cdle_folder.specs.Causes.{next_count};
ghost use Rattle.cdle_folder.specs.Files.{no_files, with_file};
ghost use Rattle.cdle_folder.specs.Memory.{altered, changed, files_in, files_told, is_in, reads_in};

use crate::outside::{Folder, ReadStop, WriteStop};
use cdle_model::NoMemory;
use std::alloc::{AllocError, Global};
use std::collections::BTreeMap;

/// What one read gave.
#[derive(Debug, Drop)]
struct Reading {
    name: String,
    bytes: Vec<u8>,
}

/// That the read which is this call gives one byte otherwise, where it gives so many.
#[derive(Clone, Copy, Debug, PartialEq, Eq)]
pub struct ChangeRead {
    /// The number of the call.
    pub call: u32,
    /// Which byte.
    pub at: u32,
    /// What the read gives there.
    pub byte: u8,
}

/// Files in memory, with calls that fail and reads that are altered. It tells what its reads gave, and its files where no read is to be
/// altered.
#[derive(Debug, Drop)]
pub struct MemoryFolder {
    alloc: Global,
    files: BTreeMap<String, Vec<u8>>,
    given: Vec<Reading>,
    fail: Vec<u32>,
    change: Vec<ChangeRead>,
    calls: u64,
    read_faults: u64,
    write_faults: u64,
    absences: u64,
}

impl MemoryFolder {
    /// No files. The calls in `fail` fail; reads and writes are counted together, from 0. Each change in `change` is made to what the read of
    /// that number gives, in their order; one past the end of the bytes does nothing.
    pub fn new(alloc: Global, fail: Vec<u32>, change: Vec<ChangeRead>) -> MemoryFolder
        ensures state { ⟦<MemoryFolder as Folder>⟧.state result
            ≡ record { files = files_told change.items no_files; given = Some []; read_faults = 0; write_faults = 0; absences = 0 } }
        ensures files { files_in result.files ≡ no_files }
        ensures calls { result.calls ≡ 0 }
        ensures fail { result.fail ≡ fail }
        ensures change { result.change ≡ change }
    {
        MemoryFolder {
            alloc,
            files: BTreeMap::new(alloc),
            given: Vec::new(alloc),
            fail,
            change,
            calls: 0,
            read_faults: 0,
            write_faults: 0,
            absences: 0,
        }
    }

    /// Puts a file there, over one of that name. This is no call that is counted.
    pub fn add(&mut self, name: &str, bytes: &[u8]) -> Result<(), NoMemory>
        ensures added { OnOk result (⟦<MemoryFolder as Folder>⟧.state self.new
            ≡ record (⟦<MemoryFolder as Folder>⟧.state self.old) { files = option_map (with_file name.now bytes.now) (⟦<MemoryFolder as Folder>⟧.state self.old).files }) }
        ensures same { OnErr result (⟦<MemoryFolder as Folder>⟧.state self.new ≡ ⟦<MemoryFolder as Folder>⟧.state self.old) }
        ensures stands { OnOk result (files_in self.new.files ≡ with_file name.now bytes.now (files_in self.old.files)) }
        ensures stays { OnErr result (files_in self.new.files ≡ files_in self.old.files) }
        ensures calls { self.new.calls ≡ self.old.calls }
        ensures fail { self.new.fail ≡ self.old.fail }
        ensures change { self.new.change ≡ self.old.change }
    {
        put_file(self.alloc, &mut self.files, name, bytes).map_err(|_| NoMemory)
    }

    /// What stands under that name, also where reads are altered. This is no call that is counted.
    pub fn file(&self, name: &str) -> Option<&Vec<u8>>
        ensures { option_map (λ v. v.now.items) result ≡ files_in self.now.files name.now }
    {
        look(&self.files, name)
    }

    /// The name and the bytes that the read gave which was the one of this number, from 0, among those that gave bytes.
    pub fn given(&self, number: usize) -> Option<(&str, &[u8])>
        ensures { option_map (λ reads. slice_get reads number) (⟦<MemoryFolder as Folder>⟧.state self.now).given ≡ Some (option_map (λ r. (r.0.now, r.1.now)) result) }
    {
        match self.given.get(number) {
            Some(reading) => Some((reading.name.as_str(), reading.bytes.as_slice())),
            None => None,
        }
    }

    // Counts this call, and answers whether it is listed as failing.
    fn fails_now(&mut self) -> bool
        ensures listed { result ≡ is_in self.old.fail.items self.old.calls }
        ensures rest { self.new ≡ record self.old { calls = next_count self.old.calls } }
    {
        let call = self.calls;
        self.calls = call.saturating_add(1);
        is_listed(&self.fail, call)
    }

    // Keeps what a read gives.
    fn keep(&mut self, name: &str, bytes: &[u8]) -> Result<(), AllocError>
        ensures kept { OnOk result (reads_in self.new.given.items ≡ reads_in self.old.given.items ++ (name.now, bytes.now) ∷ []) }
        ensures same { OnErr result (reads_in self.new.given.items ≡ reads_in self.old.given.items) }
        ensures rest { self.new ≡ record self.old { given = self.new.given } }
    {
        let name = String::from_str(self.alloc, name)?;
        let bytes = bytes.to_vec(self.alloc)?;
        self.given.push(Reading { name, bytes })?;
        Ok(())
    }
}

pub(crate) fn put_file(
    alloc: Global,
    files: &mut BTreeMap<String, Vec<u8>>,
    name: &str,
    bytes: &[u8],
) -> Result<(), AllocError>
    ensures added { OnOk result (files_in files.new ≡ with_file name.now bytes.now (files_in files.old)) }
    ensures same { OnErr result (files_in files.new ≡ files_in files.old) }
{
    let key = String::from_str(alloc, name)?;
    let value = bytes.to_vec(alloc)?;
    files.insert(key, value)?;
    Ok(())
}

pub(crate) fn look<'a>(files: &'a BTreeMap<String, Vec<u8>>, name: &str) -> Option<&'a Vec<u8>>
    ensures { option_map (λ v. v.now.items) result ≡ files_in files.entry.now name.now }
{
    files.get(name)
}

pub(crate) fn is_listed(list: &Vec<u32>, call: u64) -> bool
    ensures { result ≡ is_in list.now.items call }
{
    list.iter().any(|n| u64::from(*n) == call)
}

// The bytes of a file, as the call of that number gives them.
fn altered_copy(
    alloc: Global,
    file: &Vec<u8>,
    changes: &Vec<ChangeRead>,
    call: u64,
) -> Result<Vec<u8>, AllocError>
    ensures { IfOk result (λ bytes. bytes.items ≡ altered changes.now.items call file.now.items) }
{
    let mut bytes = file.as_slice().to_vec(alloc)?;
    for change in changes {
        make_change(change, call, &mut bytes);
    }
    Ok(bytes)
}

// Makes the change, where it is of this call.
fn make_change(change: &ChangeRead, call: u64, bytes: &mut Vec<u8>)
    ensures { bytes.new.items ≡ changed change.now call bytes.old.items }
{
    let at = change.at as usize;
    if u64::from(change.call) == call && at < bytes.len() {
        bytes[at] = change.byte;
    }
}

impl Folder for MemoryFolder {
    ghost state = { λ s. record { files = files_told s.change.items (files_in s.files); given = Some (reads_in s.given.items); read_faults = s.read_faults; write_faults = s.write_faults; absences = s.absences } };

    fn read(&mut self, alloc: Global, name: &str, limit: u64) -> Result<Vec<u8>, ReadStop> {
        let call = self.calls;
        if self.fails_now() {
            self.read_faults = self.read_faults.saturating_add(1);
            return Err(ReadStop::Failed);
        }
        let Some(file) = look(&self.files, name) else {
            self.absences = self.absences.saturating_add(1);
            return Err(ReadStop::Absent);
        };
        if limit < file.len() as u64 {
            return Err(ReadStop::TooLong);
        }
        let Ok(bytes) = altered_copy(alloc, file, &self.change, call) else {
            return Err(ReadStop::NoMemory);
        };
        match self.keep(name, &bytes) {
            Ok(()) => Ok(bytes),
            Err(_) => Err(ReadStop::NoMemory),
        }
    }

    /// A write that fails leaves the file as it was.
    fn write(&mut self, alloc: Global, name: &str, bytes: &[u8]) -> Result<(), WriteStop> {
        if self.fails_now() {
            self.write_faults = self.write_faults.saturating_add(1);
            return Err(WriteStop::Failed);
        }
        put_file(alloc, &mut self.files, name, bytes).map_err(|_| WriteStop::NoMemory)
    }
}
