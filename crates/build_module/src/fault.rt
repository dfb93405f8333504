//! Why a module's file has no Core text.
ghost use Rattle.std.specs.Prelude.{◌≡◌};
ghost use Rattle.build_module.specs.declared.fault.ModuleFault.TheVariants.{NoMemory as Wanted};

use cdle_model::{NoMemory, Text};
use cdle_names::Span;
use elab_model::Code;
use surf_scope::ScopeFault;
use surf_source::SourceFault;

/// Why there is no text.
#[derive(Debug, Drop)]
pub enum ModuleFault {
    /// The bytes are no module.
    Source(SourceFault),
    /// It has more Core items than 10,000.
    ManyItems,
    /// A name does not stand for what is wanted.
    Scope(ScopeFault),
    /// The form there is not built.
    NotBuilt { span: Span },
    /// The rules say this code at this place.
    Refused { span: Span, code: Code },
    /// A comparison or a head form there needs more units than there are.
    Spent { span: Span },
    /// The item of that name is too deep, or nests too deep for any text.
    TooDeep { item: Text },
    /// Memory was wanted and not there.
    NoMemory,
}

impl From<NoMemory> for ModuleFault {
    ghost from_gives = { λ _ fault. fault ≡ Wanted };

    fn from(_: NoMemory) -> ModuleFault {
        ModuleFault::NoMemory
    }
}
