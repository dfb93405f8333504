//! The top call: all that the program does, over any folder and any sink.
//!
//! `cdle_run` does what the words ask for and puts one report. Its contract is the theorem of the product: `Ok` says that every file of the
//! words was read to its end and that the list of all their items has a derivation by Core's rules, what it refuses has none, and every other
//! answer has its cause. It stands on the command `core` (`build_drive`), the words (`cdle_words`), and the folder and sink (`cdle_folder`).
#![tactic(auto)]

mod laws;
mod run;

pub use build_drive::{Badness, Outcome, Reason, Spot};
pub use laws::one_outcome_is_determined;
pub use run::{Exit, cdle_run};
