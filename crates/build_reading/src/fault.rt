//! Why the modules of a build are not all read.
use cdle_model::{NoMemory, Text};
use std::alloc::{AllocError, AllocFailed};
use surf_source::SourceFault;

/// Why a file gives nothing.
#[derive(Clone, Copy, Debug, PartialEq, Eq)]
pub enum Unread {
    /// There is none.
    Absent,
    /// It has more bytes than may be.
    TooLong,
    /// Reading it failed.
    Failed,
}

/// Why the modules are not all read. Each has the name of the module at which reading ended.
#[derive(Drop)]
pub enum ReadingFault {
    /// The module's file gives nothing.
    Unread {
        name: Text,
        stop: Unread,
    },
    /// As many modules are read as may be, and this is one more.
    TooMany {
        name: Text,
    },
    /// The bytes of its file are no module.
    Source {
        name: Text,
        bytes: Vec<u8>,
        fault: SourceFault,
    },
    /// Memory was wanted and not there.
    NoMemory,
}

impl From<NoMemory> for ReadingFault {
    ghost use Rattle.std.specs.Prelude.{◌≡◌};
    ghost use Rattle.build_reading.specs.declared.fault.ReadingFault.TheVariants as faults;

    ghost from_gives = { λ _ fault. fault ≡ faults.NoMemory };

    fn from(_: NoMemory) -> ReadingFault {
        ReadingFault::NoMemory
    }
}

impl From<AllocError> for ReadingFault {
    ghost use Rattle.std.specs.Prelude.{◌≡◌};
    ghost use Rattle.build_reading.specs.declared.fault.ReadingFault.TheVariants as faults;

    ghost from_gives = { λ _ fault. fault ≡ faults.NoMemory };

    fn from(_: AllocError) -> ReadingFault {
        ReadingFault::NoMemory
    }
}
