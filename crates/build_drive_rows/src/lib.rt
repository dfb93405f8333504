//! Calls of the commands over folders in memory: of `core` the order of files, the limits, and a read that fails; of `build` the identity.
//!
//! Here are only tests. The crate stands on `build_drive` and promises nothing to a crate above.
#![tactic(auto)]

#[cfg(test)]
mod rows;
