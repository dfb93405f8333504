//! The calls of `core_reduce` once each with ample memory, and head forms whose units were counted by hand.
//!
//! Here are only tests, with what builds their trees. The crate stands on `core_reduce` and `core_tree`, and promises nothing to a crate above.
#![tactic(auto)]

#[cfg(test)]
mod rows;
