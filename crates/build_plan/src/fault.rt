//! Why modules have no order.
ghost use Rattle.std.specs.Prelude.{◌≡◌};
ghost use Rattle.build_plan.specs.declared.fault.PlanFault.TheVariants.{NoMemory as Wanted};

use cdle_model::NoMemory;
use cdle_names::NameId;

/// Why modules have no order.
#[derive(Debug, Drop)]
pub enum PlanFault {
    /// The modules of these names import one another in a circle, from the first of them to where it comes again.
    Cycle { names: Vec<NameId> },
    /// Memory was wanted and not there, or a module imports one that is not among the modules.
    NoMemory,
}

impl From<NoMemory> for PlanFault {
    ghost from_gives = { λ _ fault. fault ≡ Wanted };

    fn from(_: NoMemory) -> PlanFault {
        PlanFault::NoMemory
    }
}
