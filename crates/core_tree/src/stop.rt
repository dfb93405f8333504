//! Why a put gives no tree.
ghost use Rattle.std.specs.Prelude.{◌≡◌};
ghost use Rattle.core_tree.specs.Nodes.{HasRoom};
ghost use Rattle.core_tree.specs.declared.stop.PutStop.TheVariants.{NoMemory as Wanted};

use cdle_model::NoMemory;

/// Why a put gives no tree.
#[derive(Debug, Drop)]
pub enum PutStop {
    /// The tree would be deeper than 4,096.
    TooDeep,
    NoMemory,
}

impl From<NoMemory> for PutStop {
    ghost from_gives = { λ _ stop. stop ≡ Wanted };

    fn from(_: NoMemory) -> PutStop {
        PutStop::NoMemory
    }
}

/// Refuses a tree of this depth where it is too deep.
pub(crate) fn refuse_too_deep(depth: u32) -> Result<(), PutStop>
    ensures { HasRoom depth result }
{
    if depth <= 4096 {
        Ok(())
    } else {
        Err(PutStop::TooDeep)
    }
}
