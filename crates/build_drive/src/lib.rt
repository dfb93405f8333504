//! The commands of the program, over any folder.
//!
//! `build` reads a module's file, writes its Core file and checks that. `core_command` reads Core files one behind the other and checks all their items together. Its contract is the theorem on `core`: `Ok` says that
//! every file was read to its end and that the list of all items has a derivation by Core's rules; what it refuses has none; and every other
//! answer has its cause. The report is a function of the outcome and of the file at which the call ended. The crate stands on the reader
//! (`core_text`), the checker (`core_check`), the folder (`cdle_folder`) and places (`cdle_names`).
#![tactic(auto)]

mod check;
mod command;
mod laws;
mod one_module;
mod reading;
mod written;

pub use build_outcome::{Badness, Done, Outcome, Reason, Spot};
pub use command::core_command;
pub use laws::{one_outcome_of_build, one_outcome_where_nothing_fails};
pub use one_module::build;
