//! The worked rows of surface text: tokens with their places, a source tree of each form, whole modules, and the first faults of both.
//!
//! Here are only tests, whose values were worked out by hand, and what builds their trees. The crate stands on `surf_lex`, `surf_tree`, `surf_parse`
//! and what these stand on, and promises nothing to a crate above.
#![tactic(auto)]

#[cfg(test)]
mod faults;
#[cfg(test)]
mod modules;
#[cfg(test)]
mod tokens;
#[cfg(test)]
mod trees;
