//! What a command comes to: its outcome, the status and the report.
//!
//! An `Outcome` has all that a report says but the text of the file in which a place lies; `Done` is an outcome with its report, which `Done::new` makes over that
//! text, exactly as `specs/Reports` has it. Nothing is read or written here, and no outcome is chosen: that is the commands' work. The crate stands on the
//! checker's reasons (`core_tree`), the codes of the surface rules (`elab_model`), the words of the grammars and places (`cdle_names`).
#![tactic(auto)]

mod done;
mod outcome;
mod reports;
mod words;

pub use done::{Done, Stop};
pub use outcome::{Badness, Outcome, Reason, Spot};
pub use words::wanted_text;
