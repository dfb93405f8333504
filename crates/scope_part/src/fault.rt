//! The faults of scope.
ghost use Rattle.std.specs.Prelude.{◌≡◌};
ghost use Rattle.scope_part.specs.declared.fault.ScopeFault.TheVariants.{NoMemory as Wanted};

use cdle_names::{NoMemory, Span};
use std::alloc::{AllocError, AllocFailed};

/// The first fault of a module's scope, with the place of the name.
#[derive(Clone, Copy, Debug, PartialEq, Eq)]
pub enum ScopeFault {
    /// The name stands for nothing.
    Unbound { span: Span },
    /// The name stands for a type where a term is wanted, or the other way round.
    WrongClass { span: Span },
    /// An item before this one has its name.
    Twice { span: Span },
    /// Memory was wanted and not there.
    NoMemory,
}

impl From<AllocError> for ScopeFault {
    ghost from_gives = { λ _ fault. fault ≡ Wanted };

    fn from(_: AllocError) -> ScopeFault {
        ScopeFault::NoMemory
    }
}

impl<T: Drop> From<AllocFailed<T>> for ScopeFault {
    ghost from_gives = { λ _ fault. fault ≡ Wanted };

    fn from(_: AllocFailed<T>) -> ScopeFault {
        ScopeFault::NoMemory
    }
}

impl From<NoMemory> for ScopeFault {
    ghost from_gives = { λ _ fault. fault ≡ Wanted };

    fn from(_: NoMemory) -> ScopeFault {
        ScopeFault::NoMemory
    }
}
