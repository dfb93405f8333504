//! Why a module has no items.
ghost use Rattle.std.specs.Prelude.{◌≡◌};
ghost use Rattle.cdle_model.specs.Forms.{Written};
ghost use Rattle.elab_check.specs.Answers.{IsElabFault};
ghost use Rattle.elab_item.specs.Answers.{IsItemFault};
ghost use Rattle.elab_item.specs.declared.fault.ItemFault.TheVariants.{NoMemory as Wanted};
ghost use Rattle.elab_model.specs.Questions.{Finding};

use cdle_model::NoMemory;
use cdle_names::Span;
use elab_check::ElabFault;
use elab_model::Code;
use std::alloc::{AllocError, AllocFailed};

/// Why a module has no items. The number is that of the source item among those of its module, from 0.
#[derive(Clone, Copy, Debug, PartialEq, Eq)]
pub enum ItemFault {
    /// The rules say this code at this place.
    Reject { item: u32, span: Span, code: Code },
    /// A comparison or a head form needs more units than there are: where its refusal would stand.
    Spent { item: u32, span: Span },
    /// A tree is deeper than 4,096.
    TooDeep { item: u32 },
    /// An earlier call on these items was refused.
    Failed,
    NoMemory,
}

impl From<NoMemory> for ItemFault {
    ghost from_gives = { λ _ fault. fault ≡ Wanted };

    fn from(_: NoMemory) -> ItemFault {
        ItemFault::NoMemory
    }
}

impl From<AllocError> for ItemFault {
    ghost from_gives = { λ _ fault. fault ≡ Wanted };

    fn from(_: AllocError) -> ItemFault {
        ItemFault::NoMemory
    }
}

impl<T: Drop> From<AllocFailed<T>> for ItemFault {
    ghost from_gives = { λ _ fault. fault ≡ Wanted };

    fn from(_: AllocFailed<T>) -> ItemFault {
        ItemFault::NoMemory
    }
}

impl ItemFault {
    /// The fault of the item of that number, by that of one of its parts.
    pub(crate) fn of(number: u32, fault: ElabFault) -> ItemFault
        ensures { (x : Finding Written) → IsElabFault x fault → IsItemFault number x result }
    {
        match fault {
            ElabFault::Reject { span, code } => ItemFault::Reject {
                item: number,
                span,
                code,
            },
            ElabFault::Spent { span } => ItemFault::Spent { item: number, span },
            ElabFault::TooDeep { .. } => ItemFault::TooDeep { item: number },
            ElabFault::NoMemory => ItemFault::NoMemory,
        }
    }
}
