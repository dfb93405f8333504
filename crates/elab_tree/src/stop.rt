//! Why a change of a tree gives none, and how deep trees may be.
ghost use Rattle.std.specs.Prelude.{◌≡◌};
ghost use Rattle.elab_tree.specs.Answers.{HasRoom};
ghost use Rattle.elab_tree.specs.declared.stop.TreeStop.TheVariants.{NoMemory as Wanted};

use cdle_model::NoMemory;

/// The deepest tree that is erased: a deeper one would leave the stack that a program has by default. Elaboration erases none, since it
/// refuses trees deeper than 4,096.
const DEEPEST_ERASED: u32 = 8192;

/// Why a shift, a put or a solving gives no tree.
#[derive(Debug, Drop)]
pub enum TreeStop {
    /// The tree would be deeper than 4,096.
    TooDeep,
    NoMemory,
}

impl From<NoMemory> for TreeStop {
    ghost from_gives = { λ _ stop. stop ≡ Wanted };

    fn from(_: NoMemory) -> TreeStop {
        TreeStop::NoMemory
    }
}

/// Refuses a tree of this depth where it is too deep.
pub(crate) fn refuse_too_deep(depth: u32) -> Result<(), TreeStop>
    ensures { HasRoom depth result }
{
    if depth <= 4096 {
        Ok(())
    } else {
        Err(TreeStop::TooDeep)
    }
}

/// Refuses to erase a tree that is too deep for the stack.
pub(crate) fn refuse_deep_erasure(depth: u32) -> Result<(), NoMemory> {
    if depth > DEEPEST_ERASED {
        Err(NoMemory)
    } else {
        Ok(())
    }
}
