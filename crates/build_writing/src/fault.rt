//! The files that are written, and why the work on them ends early.
ghost use Rattle.std.specs.Prelude.{◌≡◌};
ghost use Rattle.build_writing.specs.declared.fault.WritingFault.TheVariants as faults;

use std::alloc::AllocFailed;

/// A file that is to be written.
#[derive(Debug, Drop)]
pub struct OutputFile {
    pub name: String,
    pub bytes: Vec<u8>,
}

/// Why a file was not read back.
#[derive(Clone, Copy, Debug, PartialEq, Eq)]
pub enum Unread {
    Absent,
    TooLong,
    Failed,
}

/// Why the files were not all written and read back as they were written. `file` is a place in their list.
#[derive(Clone, Copy, Debug, PartialEq, Eq)]
pub enum WritingFault {
    /// The file was not written.
    Unwritten {
        file: usize,
    },
    /// The file was not read back.
    Unread {
        file: usize,
        why: Unread,
    },
    /// Other bytes were read back, first at `at`. Where one of the two has ended there, it has no byte.
    Differs {
        file: usize,
        at: usize,
        wrote: Option<u8>,
        read: Option<u8>,
    },
    /// Memory was wanted and not there.
    NoMemory,
}

impl<T: Drop> From<AllocFailed<T>> for WritingFault {
    ghost from_gives = { λ _ fault. fault ≡ faults.NoMemory };

    fn from(_: AllocFailed<T>) -> WritingFault {
        WritingFault::NoMemory
    }
}
