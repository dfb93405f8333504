//! The parser of surface text: from the tokens of a module to its tree.
//!
//! `parse` gives exactly the module that the definition of surface text says the tokens are, with names by the numbers of a table that only
//! grows, or exactly the first fault. Names are numbered first; then there is one function for each row of the grammar, which reads as the table
//! of `source_model` says. The crate stands on it, on `surf_lex` for tokens, on `surf_tree` for what is made, and on `cdle_names`.
#![tactic(auto)]

mod data;
mod item;
mod module;
mod numbers;
mod parser;

pub use parser::parse;
pub use surf_reader::{NoMemory, ParseFault};
