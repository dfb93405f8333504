//! Calls of `write_and_read_back` over folders in memory: that files are read back as they were written, in their order, each call that fails, and each way in which bytes differ.
//!
//! Here are only tests, whose values were worked out by hand. The crate stands on `build_writing` and `cdle_folder`, and promises nothing to a crate above.
#![tactic(auto)]

#[cfg(test)]
mod rows;
