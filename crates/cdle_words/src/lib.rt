//! The words of the command line, read for the top call.
//!
//! `command_asked` answers the command that the words ask for exactly where `specs/Words` has one, and `Usage` exactly where it has none; beside
//! these there is only want of memory. The definition knows nothing of a parser, and nothing that the parser would print is printed. The
//! crate stands on `clap`, of whose simple commands the matches and the kinds of refusal are known by their words, and on the definitions of
//! `source_model` and the tables of `unicode_ident`, which say what is a module's name. It lies apart from `cdle`, so that the top call is
//! proved without it.
#![tactic(auto)]

mod asked;
mod given;
mod module;
mod number;

pub use asked::{Asked, WordsFault, command_asked};
