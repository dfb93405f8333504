//! The worked rows of reading: the order of modules, each fault, and the most modules that are read.
//!
//! Here are only tests, whose values were worked out by hand. The crate stands on `build_reading` and promises nothing to a crate above.
#![tactic(auto)]

#[cfg(test)]
mod rows;
