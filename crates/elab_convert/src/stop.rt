//! Why a comparison gives no answer, and the units that are left.
ghost use Rattle.std.specs.Prelude.{◌≡◌, ◌+◌, IsFalse, IsTrue};
ghost use Rattle.elab_convert.specs.declared.stop.ConvertStop.TheVariants.{NoMemory as Wanted};

use cdle_model::NoMemory;
use elab_tree::TreeStop;
use std::alloc::{AllocError, AllocFailed};

/// Why a comparison gives no answer.
#[derive(Clone, Copy, Debug, PartialEq, Eq)]
pub enum ConvertStop {
    /// More units are needed than there are.
    Spent,
    /// A tree that a contraction gives is deeper than 4,096.
    TooDeep,
    NoMemory,
}

impl From<NoMemory> for ConvertStop {
    ghost from_gives = { λ _ e. e ≡ Wanted };

    fn from(_: NoMemory) -> ConvertStop {
        ConvertStop::NoMemory
    }
}

impl From<TreeStop> for ConvertStop {
    ghost use Rattle.elab_convert.specs.Heads.{convert_stop};

    ghost from_gives = { λ stop e. e ≡ convert_stop stop };

    fn from(stop: TreeStop) -> ConvertStop {
        match stop {
            TreeStop::TooDeep => ConvertStop::TooDeep,
            TreeStop::NoMemory => ConvertStop::NoMemory,
        }
    }
}

impl From<AllocError> for ConvertStop {
    ghost from_gives = { λ _ e. e ≡ Wanted };

    fn from(_: AllocError) -> ConvertStop {
        ConvertStop::NoMemory
    }
}

impl<T: Drop> From<AllocFailed<T>> for ConvertStop {
    ghost from_gives = { λ _ e. e ≡ Wanted };

    fn from(_: AllocFailed<T>) -> ConvertStop {
        ConvertStop::NoMemory
    }
}

/// The units that are left.
#[derive(Drop)]
pub(crate) struct Units {
    pub(crate) left: u64,
}

impl Units {
    /// Takes one unit; false exactly where none is left.
    pub(crate) fn take(&mut self) -> bool
        ensures taken { IsTrue result → self.old.left ≡ self.new.left + 1 }
        ensures none { IsFalse result → self.old.left ≡ 0 }
    {
        if self.left == 0 {
            return false;
        }
        self.left -= 1;
        true
    }
}
