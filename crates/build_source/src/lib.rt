//! What `build` does before it writes: a module's file, read and elaborated to the text of its Core file; and the files of `build`.
//!
//! `source_text` reads the file and gives just the text that the rules give for it, or ends the call with the outcome and the report that the file has
//! coming; it writes nothing. `read_file_for` and `write_file_for` read and write one file and end the call where that fails. The crate stands on
//! `build_module` for what a module's file comes to, on `build_outcome` for outcomes and reports, and on `cdle_folder`.
#![tactic(auto)]

mod end;
mod files;
mod source;

pub use files::{core_file, read_file_for, write_file_for};
pub use source::source_text;
