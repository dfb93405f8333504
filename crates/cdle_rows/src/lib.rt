//! The worked calls of the program over folders in memory: what they report, and the status with which they end.
//!
//! Here are only tests. The crate stands on the top call (`cdle_call`) and promises nothing to a crate above.
#![tactic(auto)]

#[cfg(test)]
mod build_folders;
#[cfg(test)]
mod build_rows;
#[cfg(test)]
mod calls;
#[cfg(test)]
mod rows;
