//! The small words in which the crates above speak of a text: spans, places and the numbers of names.
//!
//! `place_of` says where a byte of a text stands for a reader. Its line and its column are those of the definitions of `cdle_model`, on
//! which the crate stands. It takes no memory. A `NameTable` gives each text one number, by which it is found again, and stays as it was
//! where memory is wanted.
#![tactic(auto)]

mod place;
mod table;

pub use cdle_model::NoMemory;
pub use place::{Place, place_of};
pub use table::{NameId, NameTable};

/// The bytes of a text from `from` on, and before `to`.
#[derive(Clone, Copy, Debug, PartialEq, Eq)]
pub struct Span {
    pub from: u32,
    pub to: u32,
}
