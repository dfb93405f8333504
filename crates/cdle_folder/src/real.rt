//! The real folder and the real output: nothing is told of what they hold.
ghost use Rattle.std.specs.Prelude.{◌≡◌, ◌≤◌, None, IfOk, IsTrue, length, string_bytes};
ghost use Rattle.std.specs.Io.KnownBytes.{Appends};
ghost use Rattle.cdle_folder.specs.Real.{TakesAll, path_in};

use crate::outside::{Folder, PutFailed, ReadStop, Sink, WriteStop};
use std::alloc::{AllocError, Global};
use std::fs;
use std::io::{ErrorKind, Print, Read, Write};
use std::rt::Files;

/// The files of a folder of the system.
#[derive(Drop)]
pub struct DirFolder<'a, R: Files> {
    rt: &'a R,
    dir: String,
    read_faults: u64,
    write_faults: u64,
    absences: u64,
}

impl<'a, R: Files> DirFolder<'a, R> {
    /// The folder of that name. A name of a file that begins with `/` stays as it is.
    pub fn new(rt: &'a R, dir: String) -> DirFolder<'a, R> {
        DirFolder {
            rt,
            dir,
            read_faults: 0,
            write_faults: 0,
            absences: 0,
        }
    }
}

// An absolute name stays as it is.
fn path_of(alloc: Global, dir: &str, name: &str) -> Result<String, AllocError>
    ensures { IfOk result (λ path. string_bytes path ≡ path_in dir.now name.now) }
{
    if dir.is_empty() || name.starts_with('/') {
        String::from_str(alloc, name)
    } else {
        format!(in alloc; "{dir}/{name}")
    }
}

// All that the file gives, where it gives at most `limit` bytes. A source that gives nothing has ended.
fn take_all<F: Read>(alloc: Global, file: &mut F, limit: u64) -> Result<Vec<u8>, ReadStop>
    ensures { TakesAll limit (F.remaining file.old) (F.remaining file.new) result }
{
    let mut bytes = Vec::new(alloc);
    let mut chunk = [0u8; 4096];
    while bytes.len() as u64 <= limit {
        match file.read(&mut chunk) {
            Ok(0) => return Ok(bytes),
            Ok(count) => {
                if bytes.extend_from_slice(&chunk[..count]).is_err() {
                    return Err(ReadStop::NoMemory);
                }
            }
            Err(_) => return Err(ReadStop::Failed),
        }
    }
    Err(ReadStop::TooLong)
}

// All the bytes of the file of that path, where they are at most `limit`.
fn read_path<R: Files>(rt: &R, alloc: Global, path: &str, limit: u64) -> Result<Vec<u8>, ReadStop>
    ensures { IfOk result (λ bytes. length bytes.items ≤ limit) }
{
    match fs::open(rt, path) {
        Ok(mut file) => take_all(alloc, &mut file, limit),
        Err(error) if error.kind() == ErrorKind::NotFound => Err(ReadStop::Absent),
        Err(_) => Err(ReadStop::Failed),
    }
}

// Writes all the bytes at the end of the file, or answers that it failed. A file that takes nothing has failed.
fn append_all<F: Write>(file: &mut F, bytes: &[u8]) -> bool
    ensures { IsTrue result → Appends (F.contents file.old) (F.contents file.new) bytes.now }
{
    let mut at = 0;
    while at < bytes.len() {
        match file.write(&bytes[at..]) {
            Ok(0) | Err(_) => return false,
            Ok(count) => at += count,
        }
    }
    true
}

// Makes these bytes the file of that path, or answers that it failed.
fn write_path<R: Files>(rt: &R, path: &str, bytes: &[u8]) -> bool {
    match fs::create(rt, path) {
        Ok(mut file) => append_all(&mut file, bytes),
        Err(_) => false,
    }
}

impl<'a, R: Files> Folder for DirFolder<'a, R> {
    ghost state = { λ s. record { files = None; given = None; read_faults = s.read_faults; write_faults = s.write_faults; absences = s.absences } };

    /// An absence is counted where the system says that the name does not exist. A folder's name, and a path whose middle is a plain
    /// file, are faults.
    fn read(&mut self, alloc: Global, name: &str, limit: u64) -> Result<Vec<u8>, ReadStop> {
        let Ok(path) = path_of(alloc, self.dir.as_str(), name) else {
            return Err(ReadStop::NoMemory);
        };
        let answer = read_path(self.rt, alloc, path.as_str(), limit);
        match &answer {
            Err(ReadStop::Absent) => self.absences = self.absences.saturating_add(1),
            Err(ReadStop::Failed) => self.read_faults = self.read_faults.saturating_add(1),
            _ => {}
        }
        answer
    }

    /// A file that is there loses what it had before the first byte is written.
    fn write(&mut self, alloc: Global, name: &str, bytes: &[u8]) -> Result<(), WriteStop> {
        let Ok(path) = path_of(alloc, self.dir.as_str(), name) else {
            return Err(WriteStop::NoMemory);
        };
        if write_path(self.rt, path.as_str(), bytes) {
            return Ok(());
        }
        self.write_faults = self.write_faults.saturating_add(1);
        Err(WriteStop::Failed)
    }
}

/// The standard output.
#[derive(Drop)]
pub struct StdSink<'a, R: Print> {
    rt: &'a R,
    puts: u64,
    faults: u64,
}

impl<'a, R: Print> StdSink<'a, R> {
    /// The output of that runtime.
    pub fn new(rt: &'a R) -> StdSink<'a, R> {
        StdSink {
            rt,
            puts: 0,
            faults: 0,
        }
    }
}

// Prints all the bytes, or answers that it failed. An output that takes nothing has failed.
fn print_all<R: Print>(rt: &R, bytes: &[u8]) -> bool {
    let mut at = 0;
    while at < bytes.len() {
        match rt.write_some(&bytes[at..]) {
            Ok(0) | Err(_) => return false,
            Ok(count) => at += count,
        }
    }
    true
}

impl<'a, R: Print> Sink for StdSink<'a, R> {
    ghost state = { λ s. record { written = None; puts = s.puts; faults = s.faults } };

    fn put(&mut self, bytes: &[u8]) -> Result<(), PutFailed> {
        self.puts = self.puts.saturating_add(1);
        if print_all(self.rt, bytes) {
            return Ok(());
        }
        self.faults = self.faults.saturating_add(1);
        Err(PutFailed)
    }
}
