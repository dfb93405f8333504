//! A module's file, read end to end.
//!
//! `read_source` gives exactly the module that the bytes of a file are, with its names by the numbers of a table that only grows, or exactly the first fault of
//! the file: bytes that are not UTF-8, else a fault of its tokens, else one of its tree. What a module's names stand for by their numbers stays the same while
//! the table grows, so several modules are read into one. The crate stands on `surf_lex` and `surf_parse`, and on `build_model`, whose definitions say what a
//! file is and whose laws say what holds of it.
#![tactic(auto)]

mod fault;
mod laws;
mod read;

pub use fault::SourceFault;
pub use laws::{spelled_is_renamed, spelling_stays};
pub use read::read_source;
