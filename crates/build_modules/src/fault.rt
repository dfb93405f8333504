//! Why modules have no Core texts.
ghost use Rattle.std.specs.Prelude.{◌≡◌};
ghost use Rattle.build_modules.specs.Answers.{IsBuildFault};
ghost use Rattle.build_modules.specs.declared.fault.BuildFault.TheVariants.{NoMemory as Wanted};
ghost use Rattle.modules_model.specs.ModuleTexts.{deepens};

use cdle_model::{NoMemory, Text};
use cdle_names::Span;
use elab_model::Code;
use std::alloc::{AllocFailed, Global};
use surf_scope::ScopeFault;

/// Why there are no texts. A module is told by its place in the order, from 0.
#[derive(Debug, Drop)]
pub enum BuildFault {
    /// With this module there are more Core items than 10,000.
    ManyItems {
        module: usize,
    },
    /// A name in this module does not stand for what is wanted.
    Scope {
        module: usize,
        fault: ScopeFault,
    },
    /// The form there is not built.
    NotBuilt {
        module: usize,
        span: Span,
    },
    /// The rules say this code at this place.
    Refused {
        module: usize,
        span: Span,
        code: Code,
    },
    /// A comparison or a head form there needs more units than there are.
    Spent {
        module: usize,
        span: Span,
    },
    /// The item of that name is too deep, or nests too deep for any text.
    TooDeep {
        item: Text,
    },
    /// Memory was wanted and not there.
    NoMemory,
}

impl From<NoMemory> for BuildFault {
    ghost from_gives = { λ _ fault. fault ≡ Wanted };

    fn from(_: NoMemory) -> BuildFault {
        BuildFault::NoMemory
    }
}

impl<T: Drop> From<AllocFailed<T>> for BuildFault {
    ghost from_gives = { λ _ fault. fault ≡ Wanted };

    fn from(_: AllocFailed<T>) -> BuildFault {
        BuildFault::NoMemory
    }
}

/// That the item of that name is too deep.
pub(crate) fn named(alloc: Global, name: &Text) -> BuildFault
    ensures { IsBuildFault (λ a. a ≡ deepens name.now) result }
{
    match Text::new(alloc, name.as_str()) {
        Ok(item) => BuildFault::TooDeep { item },
        Err(_) => BuildFault::NoMemory,
    }
}
