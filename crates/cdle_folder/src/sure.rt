//! A folder in memory that never fails.
ghost use Rattle.std.specs.Prelude.{◌≡◌, Some, None, OnOk, OnErr, option_map};
ghost use Rattle.cdle_folder.specs.Files.{no_files, with_file};
ghost use Rattle.cdle_folder.specs.Memory.{files_in};

use crate::memory::{look, put_file};
use crate::outside::{Folder, ReadStop, WriteStop};
use cdle_model::NoMemory;
use std::alloc::Global;
use std::collections::BTreeMap;

/// Files in memory. Its counts of faults are 0.
#[derive(Debug, Drop)]
pub struct SureFolder {
    alloc: Global,
    files: BTreeMap<String, Vec<u8>>,
    absences: u64,
}

impl SureFolder {
    /// No files.
    pub fn new(alloc: Global) -> SureFolder
        ensures { ⟦<SureFolder as Folder>⟧.state result ≡ record { files = Some no_files; given = None; read_faults = 0; write_faults = 0; absences = 0 } }
    {
        SureFolder {
            alloc,
            files: BTreeMap::new(alloc),
            absences: 0,
        }
    }

    /// Puts a file there, over one of that name.
    pub fn add(&mut self, name: &str, bytes: &[u8]) -> Result<(), NoMemory>
        ensures added { OnOk result (⟦<SureFolder as Folder>⟧.state self.new
            ≡ record (⟦<SureFolder as Folder>⟧.state self.old) { files = option_map (with_file name.now bytes.now) (⟦<SureFolder as Folder>⟧.state self.old).files }) }
        ensures same { OnErr result (⟦<SureFolder as Folder>⟧.state self.new ≡ ⟦<SureFolder as Folder>⟧.state self.old) }
    {
        put_file(self.alloc, &mut self.files, name, bytes).map_err(|_| NoMemory)
    }
}

impl Folder for SureFolder {
    ghost state = { λ s. record { files = Some (files_in s.files); given = None; read_faults = 0; write_faults = 0; absences = s.absences } };

    fn read(&mut self, alloc: Global, name: &str, limit: u64) -> Result<Vec<u8>, ReadStop> {
        let Some(file) = look(&self.files, name) else {
            self.absences = self.absences.saturating_add(1);
            return Err(ReadStop::Absent);
        };
        if limit < file.len() as u64 {
            return Err(ReadStop::TooLong);
        }
        match file.as_slice().to_vec(alloc) {
            Ok(bytes) => Ok(bytes),
            Err(_) => Err(ReadStop::NoMemory),
        }
    }

    fn write(&mut self, alloc: Global, name: &str, bytes: &[u8]) -> Result<(), WriteStop> {
        put_file(alloc, &mut self.files, name, bytes).map_err(|_| WriteStop::NoMemory)
    }
}
