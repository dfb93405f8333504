//! The traits of the outside.
ghost use Rattle.std.specs.Prelude.{◌≡◌, ◌≤◌, ◌⊎◌, Some, None, IfOk, OnOk, OnErr, IfSome, IsErrOf, length, option_map};
ghost use Rattle.cdle_folder.specs.Files.{IsLonger, IsOtherwiseSame, PutsPrefix, told, with_bytes, with_file, with_read};
ghost use Rattle.cdle_folder.specs.Causes.{Quiet, Rose, next_count};
ghost use Rattle.cdle_folder.specs.States.{FolderState, SinkState};
ghost use Rattle.cdle_folder.specs.declared.outside.ReadStop.TheVariants as stop;
ghost use Rattle.cdle_folder.specs.declared.outside.WriteStop.TheVariants as write_stop;

use std::alloc::Global;

/// Why a read gives no bytes.
#[derive(Clone, Copy, Debug, PartialEq, Eq)]
pub enum ReadStop {
    Failed,
    Absent,
    TooLong,
    NoMemory,
}

/// Why a write did not write all.
#[derive(Clone, Copy, Debug, PartialEq, Eq)]
pub enum WriteStop {
    Failed,
    NoMemory,
}

/// The sink failed.
#[derive(Clone, Copy, Debug, PartialEq, Eq)]
pub struct PutFailed;

/// A folder of files. Its counts never fall, and generic code can't raise them by itself.
pub trait Folder {
    /// What is known of it: its files and what its reads gave, where it tells them, and how often a read failed, a write failed and a name
    /// was not there.
    ghost state: { Self → FolderState };

    /// The bytes of a file, of which there are at most `limit`.
    fn read(&mut self, alloc: Global, name: &str, limit: u64) -> Result<Vec<u8>, ReadStop>
        ensures bytes { IfOk result (λ bytes. IfSome (state self.old).files (λ f. f name.now ≡ Some bytes.items)) }
        ensures bound { IfOk result (λ bytes. length bytes.items ≤ limit) }
        ensures files { (state self.new).files ≡ (state self.old).files }
        ensures given { IfOk result (λ bytes. (state self.new).given ≡ with_read name.now bytes.items (state self.old).given) }
        ensures not_given { OnErr result ((state self.new).given ≡ (state self.old).given) }
        ensures read_faults { (state self.old).read_faults ≤ (state self.new).read_faults }
        ensures write_faults { (state self.new).write_faults ≡ (state self.old).write_faults }
        ensures absences { (state self.old).absences ≤ (state self.new).absences }
        ensures failed { IsErrOf result stop.Failed → Rose (state self.old).read_faults (state self.new).read_faults }
        ensures absent { IsErrOf result stop.Absent → Rose (state self.old).absences (state self.new).absences }
        ensures absent_only { IsErrOf result stop.Absent → IfSome (state self.old).files (λ f. f name.now ≡ None) }
        ensures absent_always { told (state self.old).files name.now ≡ Some None → Quiet (state self.old).read_faults (state self.new).read_faults
            → IsErrOf result stop.Absent ⊎ IsErrOf result stop.NoMemory }
        ensures too_long_only { IsErrOf result stop.TooLong → IfSome (state self.old).files (λ f. IsLonger limit (f name.now)) }
        ensures too_long_always { IfSome (state self.old).files (λ f. IsLonger limit (f name.now) → Quiet (state self.old).read_faults (state self.new).read_faults
            → IsErrOf result stop.TooLong ⊎ IsErrOf result stop.NoMemory) };

    /// Makes the bytes all that the file of that name has, or makes the file. Where this fails the file may hold any bytes, and where memory
    /// is wanted nothing is changed.
    fn write(&mut self, alloc: Global, name: &str, bytes: &[u8]) -> Result<(), WriteStop>
        ensures files { OnOk result ((state self.new).files ≡ option_map (with_file name.now bytes.now) (state self.old).files) }
        ensures others { IsErrOf result write_stop.Failed → IsOtherwiseSame name.now (state self.old).files (state self.new).files }
        ensures same { IsErrOf result write_stop.NoMemory → state self.new ≡ state self.old }
        ensures given { (state self.new).given ≡ (state self.old).given }
        ensures read_faults { (state self.new).read_faults ≡ (state self.old).read_faults }
        ensures write_faults { (state self.old).write_faults ≤ (state self.new).write_faults }
        ensures absences { (state self.new).absences ≡ (state self.old).absences }
        ensures failed { IsErrOf result write_stop.Failed → Rose (state self.old).write_faults (state self.new).write_faults };
}

/// Where a report goes. Its counts never fall.
pub trait Sink {
    /// What is known of it: what is written, where it tells that, how often it was put to, and how often that has failed.
    ghost state: { Self → SinkState };

    /// Writes all the bytes at the end. It takes no memory.
    fn put(&mut self, bytes: &[u8]) -> Result<(), PutFailed>
        ensures all { OnOk result ((state self.new).written ≡ with_bytes bytes.now (state self.old).written) }
        ensures prefix { OnErr result (PutsPrefix bytes.now (state self.old).written (state self.new).written) }
        ensures puts { (state self.new).puts ≡ next_count (state self.old).puts }
        ensures faults { (state self.old).faults ≤ (state self.new).faults }
        ensures failed { OnErr result (Rose (state self.old).faults (state self.new).faults) };
}
