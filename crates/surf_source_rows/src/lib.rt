//! The worked rows of files: what their bytes are read as, and their first faults.
//!
//! Here are only tests, whose values were worked out by hand. The crate stands on `surf_source` and what that stands on, and promises nothing to a crate above.
#![tactic(auto)]

#[cfg(test)]
mod rows;
