//! The worked rows of orders: in which order modules are taken, and which cycle is told where there is none.
//!
//! Here are only tests, whose values were worked out by hand. The crate stands on `build_plan` and what that stands on, and promises nothing to a crate above.
#![tactic(auto)]

#[cfg(test)]
mod rows;
