//! Reading one token at a time, and what each row of the grammar makes and tests: all of the parser of surface text that does not recur.
//!
//! A `Reader` goes over tokens whose names are numbers. Each call gives what the definition of surface text says that a symbol, a test or
//! the end of a row gives at that place, or its fault there. The crate stands on `source_model`, on `surf_tree` for what is made, and on
//! `cdle_names`.
#![tactic(auto)]

mod begins;
mod binder;
mod class_ends;
mod error;
mod kinds;
mod names;
mod patterns;
mod projections;
mod reader;
mod spans;
mod term_ends;
mod token;

pub use begins::{begins_argument, begins_class_atom, begins_type_argument};
pub use binder::Binder;
pub use cdle_names::NoMemory;
pub use class_ends::{one_less, word_behind_arrow, word_of_part};
pub use error::ParseFault;
pub use kinds::is_same;
pub use names::used;
pub use reader::Reader;
pub use spans::{
    between, over_class_and_type, over_classes, over_term_and_type, over_terms, over_type_and_term,
    over_types, term_to_token, to_class, to_term, to_type,
};
pub use token::Named;
