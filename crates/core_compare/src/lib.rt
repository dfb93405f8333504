//! The comparison of erased trees, with a budget.
//!
//! `compare` says of two sides of one class in one context whether they are the same, by their head forms: a name is the same as itself, functions
//! are compared by their bodies, variables and forms part by part. Each pair that is taken, each contraction and each unfolding takes a unit. Its
//! answers are those of the definitions' comparison: `Same` says that the two are joined, `Apart` that they are not. The pairs that are left stand on a
//! list, so it never calls itself. The crate stands on `core_reduce`, `core_tree` and `cdle_model`.
#![tactic(auto)]

mod comparison;
mod pairs;
mod settle;

pub use comparison::{Answer, compare};
