//! Why the rules give nothing.
ghost use Rattle.std.specs.Prelude.{◌≡◌};
ghost use Rattle.elab_rules.specs.Answers.{IsLow, fault_of};
ghost use Rattle.elab_rules.specs.declared.fault.Fault.TheVariants.{NoMemory as Wanted};
ghost use Rattle.scoped_tree.specs.Trees.{place};

use crate::place::At;
use cdle_model::NoMemory;
use cdle_names::Span;
use elab_model::Code;
use elab_tree::TreeStop;
use std::alloc::{AllocError, AllocFailed};

/// Why there is no answer of a rule.
#[derive(Clone, Copy, Debug, PartialEq, Eq)]
pub enum Fault {
    /// The rule says this code at this place.
    Rejected(At, Code),
    /// A question's budget is spent at this place.
    Undecided(At),
    /// A tree is deeper than 4,096: the place of the form that gives it.
    TooDeep(Span),
    /// Want of memory.
    NoMemory,
}

impl From<NoMemory> for Fault {
    ghost from_gives = { λ _ fault. fault ≡ Wanted };

    fn from(_: NoMemory) -> Fault {
        Fault::NoMemory
    }
}

impl From<AllocError> for Fault {
    ghost from_gives = { λ _ fault. fault ≡ Wanted };

    fn from(_: AllocError) -> Fault {
        Fault::NoMemory
    }
}

impl<T: Drop> From<AllocFailed<T>> for Fault {
    ghost from_gives = { λ _ fault. fault ≡ Wanted };

    fn from(_: AllocFailed<T>) -> Fault {
        Fault::NoMemory
    }
}

impl Fault {
    /// The fault of this form, where a change of its trees was stopped.
    pub fn stopped(form: Span, stop: TreeStop) -> Fault
        ensures { result ≡ fault_of form stop }
    {
        match stop {
            TreeStop::TooDeep => Fault::TooDeep(form),
            TreeStop::NoMemory => Fault::NoMemory,
        }
    }
}

/// Refuses a tree of this form that is deeper than 4,096.
pub fn low(form: Span, depth: u32) -> Result<(), Fault>
    ensures { IsLow (place form) depth result }
{
    if depth <= 4096 {
        Ok(())
    } else {
        Err(Fault::TooDeep(form))
    }
}
