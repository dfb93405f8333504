//! The calls of `core_tree` once each with ample memory, and the rows that are told by hand: at the largest depth, at an erased binder,
//! and over trees that are small only because they are shared.
//!
//! Here are only tests, and what builds their trees. The crate stands on `core_tree` and promises nothing to a crate above.
#![tactic(auto)]

#[cfg(test)]
mod forms;
#[cfg(test)]
mod rows;
