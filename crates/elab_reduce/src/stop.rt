//! Why there is no head form.
ghost use Rattle.std.specs.Prelude.{◌≡◌};
ghost use Rattle.elab_reduce.specs.Heads.{stop_of};
ghost use Rattle.elab_reduce.specs.declared.stop.ElabStop.TheVariants.{NoMemory as Wanted};

use cdle_model::NoMemory;
use elab_tree::TreeStop;
use std::alloc::{AllocError, AllocFailed};

/// Why there is no head form.
#[derive(Clone, Copy, Debug, PartialEq, Eq)]
pub enum ElabStop {
    /// More units are needed than there are.
    Spent,
    /// The head form, or a tree that a contraction gives, is deeper than 4,096.
    TooDeep,
    NoMemory,
}

impl From<NoMemory> for ElabStop {
    ghost from_gives = { λ _ stop. stop ≡ Wanted };

    fn from(_: NoMemory) -> ElabStop {
        ElabStop::NoMemory
    }
}

impl From<AllocError> for ElabStop {
    ghost from_gives = { λ _ stop. stop ≡ Wanted };

    fn from(_: AllocError) -> ElabStop {
        ElabStop::NoMemory
    }
}

impl<T: Drop> From<AllocFailed<T>> for ElabStop {
    ghost from_gives = { λ _ stop. stop ≡ Wanted };

    fn from(_: AllocFailed<T>) -> ElabStop {
        ElabStop::NoMemory
    }
}

impl From<TreeStop> for ElabStop {
    ghost from_gives = { λ cause stop. stop ≡ stop_of cause };

    fn from(cause: TreeStop) -> ElabStop {
        match cause {
            TreeStop::TooDeep => ElabStop::TooDeep,
            TreeStop::NoMemory => ElabStop::NoMemory,
        }
    }
}
