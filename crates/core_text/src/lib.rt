//! The reader of Core text, version 1.
//!
//! `read_core` gives exactly the one list of items that a file's bytes say behind the items of earlier files, or its first fault, at its place:
//! bytes that are not UTF-8, else the first token after which no text of the grammar continues, a name that stands for nothing or for
//! something of the other class, or a parenthesis too many. `CoreScope::add` takes a file's names for the files after it, or changes nothing.
//! It reads once from the left, driven by the table of forms, on a stack that 1,024 parentheses bound.
//! It stands on the definitions (`cdle_model`), on the trees that it builds (`core_tree`), and on the kit's ordered map.
#![tactic(auto)]

mod binders;
mod build;
mod entry;
mod error;
mod file;
mod forms;
mod part;
mod reader;
mod scope;
mod token;
mod words;

pub use cdle_model::CoreWanted;
pub use error::CoreTextFault;
pub use file::read_core;
pub use scope::CoreScope;
pub use words::word_at;
