//! What a check of files answers: that it accepted them, or what it found, and where.
ghost use Rattle.std.specs.Prelude.{◌≡◌};
ghost use Rattle.core_tree.specs.declared.faults.CoreFault.TheVariants.{NoMemory as Wanted};

use crate::guide::{Guide, GuideKind};
use crate::pure::Pure;
use cdle_model::NoMemory;
use std::alloc::{AllocError, AllocFailed};
use std::marker::Model;

/// A value that a refusal keeps, or that it was deeper than 4,096.
#[derive(Drop)]
pub enum Kept<T> {
    Whole(T),
    Deep,
}

/// What a list of files that was accepted holds.
#[derive(Clone, Copy, Debug, PartialEq, Eq)]
pub struct Checked {
    /// The number of items over all files.
    pub items: u32,
}

/// The place of a part inside an item: the number of the part at each level, from the outermost. Contracts see the list.
#[derive(Debug, Drop)]
pub struct Path {
    numbers: Vec<u32>,
}

impl Model for Path {
    ghost use Rattle.std.specs.Prelude.{List, ℕ};

    ghost Value = { List ℕ };

    ghost view = { λ a. a.numbers.items };
}

impl Path {
    ghost use Rattle.std.specs.Prelude.{◌≡◌};

    /// The place with these numbers.
    pub fn new(numbers: Vec<u32>) -> Path
        ensures { result ≡ numbers.items }
    {
        Path { numbers }
    }

    /// The numbers of the parts, from the outermost.
    pub fn numbers(&self) -> &[u32]
        ensures { result.now ≡ self.now }
    {
        &self.numbers
    }
}

/// Why a list of files was not accepted. Items are numbered from 0 over all files.
#[derive(Drop)]
pub enum CoreFault {
    /// The item breaks a rule at this place.
    Refused { item: u32, path: Path, why: Why },
    /// The budget was spent at this place, and the item was neither accepted nor refused.
    Undecided { item: u32, path: Path },
    /// The item has the name of an earlier one.
    Duplicate { item: u32, earlier: u32 },
    /// The item leads to a tree deeper than 4,096.
    TooDeep { item: u32 },
    NoMemory,
}

impl From<NoMemory> for CoreFault {
    ghost from_gives = { λ _ fault. fault ≡ Wanted };

    fn from(_: NoMemory) -> CoreFault {
        CoreFault::NoMemory
    }
}

impl From<AllocError> for CoreFault {
    ghost from_gives = { λ _ fault. fault ≡ Wanted };

    fn from(_: AllocError) -> CoreFault {
        CoreFault::NoMemory
    }
}

impl<T: Drop> From<AllocFailed<T>> for CoreFault {
    ghost from_gives = { λ _ fault. fault ≡ Wanted };

    fn from(_: AllocFailed<T>) -> CoreFault {
        CoreFault::NoMemory
    }
}

/// Why an item was refused, with the values that the report of it names.
#[derive(Drop)]
pub enum Why {
    NotAFunction {
        head: Kept<Guide>,
    },
    NotAnIntersection {
        head: Kept<Guide>,
    },
    NotAnEquation {
        head: Kept<Guide>,
    },
    /// With no wanted kind, a product of the class that the form needs was wanted.
    WrongKind {
        found: Kept<GuideKind>,
        wanted: Option<Kept<GuideKind>>,
    },
    Mismatch {
        found: Kept<Guide>,
        wanted: Kept<Guide>,
    },
    ErasedUse,
    PartsDiffer {
        left: Kept<Pure>,
        right: Kept<Pure>,
    },
    /// The two sides of the equation.
    NotBooleans {
        left: Kept<Pure>,
        right: Kept<Pure>,
    },
    /// Two pure sides stand as the equation of each with itself.
    SidesDiffer {
        left: Kept<Guide>,
        right: Kept<Guide>,
    },
}
