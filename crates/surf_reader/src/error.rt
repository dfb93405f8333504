//! The faults of a text's tree.
use cdle_model::Count;
use cdle_names::NoMemory;
use source_model::Wanted;
use std::alloc::AllocFailed;
use thiserror::Error;

/// Why tokens are no module.
#[derive(Clone, Copy, Debug, PartialEq, Eq, Error)]
pub enum ParseFault {
    /// The token at this place, or the end, cannot stand there, and this is wanted.
    #[error("unexpected at {at}")]
    Unexpected { at: u32, wanted: Wanted },
    /// With the token at this place nesting would pass 256, or a part is higher than 1,024.
    #[error("too deep at {at}")]
    TooDeep { at: u32 },
    /// There are more constructors, arguments or parameters than may be.
    #[error("too many at {at}")]
    TooMany { at: u32, what: Count },
    /// Memory was wanted and not there.
    #[error("out of memory")]
    NoMemory,
}

impl From<NoMemory> for ParseFault {
    ghost use Rattle.std.specs.Prelude.{◌≡◌};
    ghost use Rattle.surf_reader.specs.declared.error.ParseFault.TheVariants as faults;

    ghost from_gives = { λ _ fault. fault ≡ faults.NoMemory };

    fn from(_: NoMemory) -> ParseFault {
        ParseFault::NoMemory
    }
}

impl<T: Drop> From<AllocFailed<T>> for ParseFault {
    ghost use Rattle.std.specs.Prelude.{◌≡◌};
    ghost use Rattle.surf_reader.specs.declared.error.ParseFault.TheVariants as faults;

    ghost from_gives = { λ _ fault. fault ≡ faults.NoMemory };

    fn from(_: AllocFailed<T>) -> ParseFault {
        ParseFault::NoMemory
    }
}
