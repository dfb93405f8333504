//! Instances of a pattern: what is found for the unknowns of a spine.
//!
//! `instance` puts for each unknown of a type the part of a target at its first place, once, and then compares what is left of both by
//! erasure. It finds a solution exactly where the definition `instance` of `elab_model` has one, and that one; else the solution given stays.
//! A `Solution` has the type found for each unknown by its number. The crate stands on `elab_tree` and `elab_model`.
#![tactic(auto)]

mod laws;
mod matching;
mod mentions;
mod outside;
mod place;
mod same;
mod solution;
mod variables;

pub use elab_tree::NoMemory;
pub use laws::solving_puts_what_is_found;
pub use matching::instance;
pub use solution::Solution;
