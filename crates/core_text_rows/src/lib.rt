//! The worked rows of Core text, told by hand: each form with its parts cut off in turn, faults at their places, files behind files, and
//! the deepest nesting.
//!
//! Here are only tests, and what builds their texts. The crate stands on `core_text` and promises nothing to a crate above.
#![tactic(auto)]

#[cfg(test)]
mod forms;
#[cfg(test)]
mod rows;
#[cfg(test)]
mod tests;
