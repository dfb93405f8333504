//! A sink in memory.
ghost use Rattle.std.specs.Prelude.{◌≡◌, ◌+◌, ◌-◌, ◌≤◌, ◌++◌, ◌&&◌, not, [], Some, nat_le, if◌then◌else◌, IfOk, length, vec_capacity};
ghost use Rattle.cdle_folder.specs.Causes.{next_count};
ghost use Rattle.cdle_folder.specs.Memory.{is_in};

use crate::memory::is_listed;
use crate::outside::{PutFailed, Sink};
use cdle_model::NoMemory;
use std::alloc::Global;

/// Bytes in memory, whose room is taken when it is made.
#[derive(Debug, Drop)]
pub struct MemorySink {
    bytes: Vec<u8>,
    // For how many more bytes there is room.
    room: usize,
    fail: Vec<u32>,
    puts: u64,
    faults: u64,
    ghost in_room: { length bytes.items + room ≤ vec_capacity bytes },
}

impl MemorySink {
    /// Nothing is written. The puts in `fail` fail, counted from 0, and each that finds too little room.
    pub fn new(alloc: Global, fail: Vec<u32>, room: usize) -> Result<MemorySink, NoMemory>
        ensures state { IfOk result (λ sink. ⟦<MemorySink as Sink>⟧.state sink ≡ record { written = Some []; puts = 0; faults = 0 }) }
        ensures fails { IfOk result (λ sink. sink.fail ≡ fail) }
        ensures room { IfOk result (λ sink. sink.room ≡ room) }
        ensures puts { IfOk result (λ sink. sink.puts ≡ 0) }
    {
        let Ok(bytes) = Vec::with_capacity(alloc, room) else {
            return Err(NoMemory);
        };
        Ok(MemorySink {
            bytes,
            room,
            fail,
            puts: 0,
            faults: 0,
        })
    }

    // Writes all the bytes, or nothing where this put is listed as failing or there is too little room.
    fn append(&mut self, bytes: &[u8]) -> bool
        ensures takes { result ≡ (not (is_in self.old.fail.items self.old.puts) && nat_le (length bytes.now) self.old.room) }
        ensures written { self.new.bytes.items ≡ (if result then self.old.bytes.items ++ bytes.now else self.old.bytes.items) }
        ensures room { self.new.room ≡ (if result then self.old.room - length bytes.now else self.old.room) }
        ensures faults { self.new.faults ≡ self.old.faults }
        ensures puts { self.new.puts ≡ next_count self.old.puts }
        ensures fail { self.new.fail ≡ self.old.fail }
    {
        let put = self.puts;
        self.puts = put.saturating_add(1);
        if is_listed(&self.fail, put) || self.room < bytes.len() {
            return false;
        }
        self.room -= bytes.len();
        self.bytes.extend_from_slice(bytes).is_ok()
    }

    /// How often bytes were put, failing puts too.
    pub fn puts(&self) -> u64
        ensures { result ≡ (⟦<MemorySink as Sink>⟧.state self.now).puts }
    {
        self.puts
    }

    /// What is written.
    pub fn bytes(&self) -> &[u8]
        ensures { Some result.now ≡ (⟦<MemorySink as Sink>⟧.state self.now).written }
    {
        self.bytes.as_slice()
    }
}

impl Sink for MemorySink {
    ghost state = { λ s. record { written = Some s.bytes.items; puts = s.puts; faults = s.faults } };

    fn put(&mut self, bytes: &[u8]) -> Result<(), PutFailed> {
        if self.append(bytes) {
            return Ok(());
        }
        self.faults = self.faults.saturating_add(1);
        Err(PutFailed)
    }
}
