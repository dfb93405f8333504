//! The faults of a Core text.
ghost use Rattle.std.specs.Prelude.{◌≡◌};
ghost use Rattle.core_text.specs.declared.error.CoreTextFault.TheVariants.{NoMemory as Wanted};

use cdle_model::{CoreWanted, NoMemory};
use std::alloc::{AllocError, AllocFailed};

/// The first fault of a Core text. Places count the bytes before them.
#[derive(Clone, Copy, Debug, PartialEq, Eq)]
pub enum CoreTextFault {
    /// The bytes before this place are the longest beginning that is UTF-8.
    NotUtf8 { at: u32 },
    /// No text of the grammar continues with the token at this place, or the text ends there and is none.
    BadText { at: u32, wanted: CoreWanted },
    /// The name at this place stands for nothing.
    Unbound { at: u32 },
    /// The name at this place stands for a type where a term is wanted, or the other way round.
    WrongClass { at: u32 },
    /// The parenthesis at this place opens where 1,024 are open.
    TooDeep { at: u32 },
    /// Memory was wanted and not there.
    NoMemory,
}

impl From<AllocError> for CoreTextFault {
    ghost from_gives = { λ _ fault. fault ≡ Wanted };

    fn from(_: AllocError) -> CoreTextFault {
        CoreTextFault::NoMemory
    }
}

impl<T: Drop> From<AllocFailed<T>> for CoreTextFault {
    ghost from_gives = { λ _ fault. fault ≡ Wanted };

    fn from(_: AllocFailed<T>) -> CoreTextFault {
        CoreTextFault::NoMemory
    }
}

impl From<NoMemory> for CoreTextFault {
    ghost from_gives = { λ _ fault. fault ≡ Wanted };

    fn from(_: NoMemory) -> CoreTextFault {
        CoreTextFault::NoMemory
    }
}
