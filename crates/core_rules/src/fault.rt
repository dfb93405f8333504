//! Why the check of an item ends.
ghost use Rattle.std.specs.Prelude.{◌≡◌, ◌∷◌, IfOk};
ghost use Rattle.cdle_model.specs.Check.{Reason};
ghost use Rattle.core_rules.specs.Faults.{HasRoom, IsInside, IsOfItem, IsRefusal, IsUndecidedAt, fault_of, path_of};
ghost use Rattle.core_rules.specs.Reasons.{IsWhy};
ghost use Rattle.core_rules.specs.declared.fault.Fault.TheVariants.{NoMemory as Wanted};

use cdle_model::NoMemory;
use core_tree::{CoreFault, Path, PutStop, Why};
use std::alloc::{AllocError, AllocFailed, Global};

/// Where a question of a form stands: at the form itself, or at the part of it that has this number.
#[derive(Clone, Copy, Debug, PartialEq, Eq)]
pub(crate) enum Place {
    Form,
    Part(u32),
}

/// Why the check of an item, or of a part of it, ends. A path begins at the part.
#[derive(Drop)]
pub enum Fault {
    /// A rule is broken at this place.
    Refused { path: Vec<u32>, why: Why },
    /// The budget was spent at this place.
    Undecided { path: Vec<u32> },
    /// A tree would be deeper than 4,096.
    TooDeep,
    /// Want of memory.
    NoMemory,
}

impl From<NoMemory> for Fault {
    ghost from_gives = { λ _ fault. fault ≡ Wanted };

    fn from(_: NoMemory) -> Fault {
        Fault::NoMemory
    }
}

impl From<AllocError> for Fault {
    ghost from_gives = { λ _ fault. fault ≡ Wanted };

    fn from(_: AllocError) -> Fault {
        Fault::NoMemory
    }
}

impl<T: Drop> From<AllocFailed<T>> for Fault {
    ghost from_gives = { λ _ fault. fault ≡ Wanted };

    fn from(_: AllocFailed<T>) -> Fault {
        Fault::NoMemory
    }
}

impl From<PutStop> for Fault {
    ghost from_gives = { λ stop fault. fault ≡ fault_of stop };

    fn from(stop: PutStop) -> Fault {
        match stop {
            PutStop::TooDeep => Fault::TooDeep,
            PutStop::NoMemory => Fault::NoMemory,
        }
    }
}

impl Fault {
    /// A refusal at this place.
    pub(crate) fn refusal(alloc: Global, place: Place, why: Why) -> Fault
        ensures { (r : Reason) → IsWhy r why → IsRefusal (path_of place) r result }
    {
        match path(alloc, place) {
            Ok(path) => Fault::Refused { path, why },
            Err(_) => Fault::NoMemory,
        }
    }

    /// The budget was spent at this place.
    pub(crate) fn undecided(alloc: Global, place: Place) -> Fault
        ensures { IsUndecidedAt (path_of place) result }
    {
        match path(alloc, place) {
            Ok(path) => Fault::Undecided { path },
            Err(_) => Fault::NoMemory,
        }
    }

    /// The fault of the item of that number, in which the path begins.
    pub fn of_item(self, item: u32) -> CoreFault
        ensures { IsOfItem item self result }
    {
        match self {
            Fault::Refused { path, why } => CoreFault::Refused {
                item,
                path: Path::new(path),
                why,
            },
            Fault::Undecided { path } => CoreFault::Undecided {
                item,
                path: Path::new(path),
            },
            Fault::TooDeep => CoreFault::TooDeep { item },
            Fault::NoMemory => CoreFault::NoMemory,
        }
    }

    /// The fault as seen from the form of which this is the part of that number.
    pub fn inside(self, number: u32) -> Fault
        ensures { IsInside number self result }
    {
        match self {
            Fault::Refused { path, why } => match with_front(path, number) {
                Ok(path) => Fault::Refused { path, why },
                Err(_) => Fault::NoMemory,
            },
            Fault::Undecided { path } => match with_front(path, number) {
                Ok(path) => Fault::Undecided { path },
                Err(_) => Fault::NoMemory,
            },
            Fault::TooDeep => Fault::TooDeep,
            Fault::NoMemory => Fault::NoMemory,
        }
    }
}

/// The path to a place.
fn path(alloc: Global, place: Place) -> Result<Vec<u32>, NoMemory>
    ensures { IfOk result (λ path. path.items ≡ path_of place) }
{
    let mut path = Vec::new(alloc);
    if let Place::Part(number) = place {
        path.push(number)?;
    }
    Ok(path)
}

/// The path with a part's number before it. A path has at most 4,096 numbers, so moving them up is cheap.
fn with_front(mut path: Vec<u32>, number: u32) -> Result<Vec<u32>, NoMemory>
    ensures { IfOk result (λ longer. longer.items ≡ number ∷ path.items) }
{
    path.insert(0, number)?;
    Ok(path)
}

/// Refuses a form over parts of this depth that would be too deep.
pub(crate) fn room(depth: u32) -> Result<(), Fault>
    ensures { HasRoom depth result }
{
    if depth < 4096 {
        Ok(())
    } else {
        Err(Fault::TooDeep)
    }
}
