//! The comparison of the elaborator: whether two erased trees are the same over the items so far, with a number of units.
//!
//! Each answer is exactly that of the definitions' comparison with these units, or tells that memory is wanted. The trees are pure terms,
//! erased types or erased kinds. A side is a head with its arguments, and what is left to compare is a list of pairs, so that no
//! comparison calls itself. It stands on `elab_tree` and `cdle_model`, and has no code of the checker.
#![tactic(auto)]

mod convert;
mod former;
mod head;
mod settle;
mod side;
mod stop;

pub use convert::{convert_kinds, convert_terms, convert_types};
pub use stop::ConvertStop;
