//! The worked rows of several modules: the texts of their Core files, and the first reasons why there are none.
//!
//! Here are only tests, whose values were worked out by hand. The crate stands on `build_modules` and what that stands on, and promises nothing to a crate above.
#![tactic(auto)]

#[cfg(test)]
mod rows;
