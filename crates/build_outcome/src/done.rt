//! What a command comes to, with its report.
ghost use Rattle.std.specs.Prelude.{◌≡◌, [], IfOk, option_map};
ghost use Rattle.build_outcome.specs.Reports.{IsReported, IsShown};
ghost use Rattle.build_outcome.specs.declared.done.Stop.TheVariants as stops;
ghost use Rattle.build_outcome.specs.declared.outcome.Outcome.TheVariants as outcomes;

use crate::outcome::Outcome;
use crate::reports::report;
use cdle_model::NoMemory;
use std::alloc::{AllocError, AllocFailed, Global};

/// The outcome of a command, and its report. That memory was wanted has no report here: the caller says so without any.
#[derive(Drop)]
pub struct Done {
    pub outcome: Outcome,
    pub report: Vec<u8>,
}

impl Done {
    /// This outcome of the job, which is `core` or the building of the module of that name, reported over the text of the file at which the call ended.
    pub fn new(
        alloc: Global,
        job: Option<&str>,
        outcome: Outcome,
        text: &[u8],
    ) -> Result<Done, NoMemory>
        requires { IsShown text.now outcome }
        ensures outcome { IfOk result (λ done. done.outcome ≡ outcome) }
        ensures report { IfOk result (IsReported (option_map (λ name. name.now) job.entry) text.now) }
    {
        match report(alloc, job, &outcome, text) {
            Ok(report) => Ok(Done {
                outcome,
                report: report.into_bytes(),
            }),
            Err(wanted) => {
                drop(outcome);
                Err(wanted)
            }
        }
    }

    /// That memory was wanted. Saying so takes none.
    pub fn no_memory(alloc: Global) -> Done
        ensures outcome { result.outcome ≡ outcomes.NoMemory }
        ensures report { result.report.items ≡ [] }
    {
        Done {
            outcome: Outcome::NoMemory,
            report: Vec::new(alloc),
        }
    }
}

/// Why a part of the work gives nothing.
#[derive(Drop)]
pub enum Stop {
    /// The command ends here.
    Ended(Done),
    /// Memory was wanted and not there.
    NoMemory,
}

impl From<NoMemory> for Stop {
    ghost from_gives = { λ _ stop. stop ≡ stops.NoMemory };

    fn from(_: NoMemory) -> Stop {
        Stop::NoMemory
    }
}

impl From<AllocError> for Stop {
    ghost from_gives = { λ _ stop. stop ≡ stops.NoMemory };

    fn from(_: AllocError) -> Stop {
        Stop::NoMemory
    }
}

impl<T: Drop> From<AllocFailed<T>> for Stop {
    ghost from_gives = { λ _ stop. stop ≡ stops.NoMemory };

    fn from(_: AllocFailed<T>) -> Stop {
        Stop::NoMemory
    }
}
