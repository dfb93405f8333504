//! The worked rows of scope: modules in which each name is told by what it stands for, and the first faults with their places.
//!
//! Here are only tests, whose values were worked out by hand. The crate stands on `surf_scope`, on `surf_parse` and `surf_lex`, which read the
//! modules, and on what these stand on, and promises nothing to a crate above.
#![tactic(auto)]

#[cfg(test)]
mod faults;
#[cfg(test)]
mod many;
#[cfg(test)]
mod read;
#[cfg(test)]
mod scopes;
#[cfg(test)]
mod tell;
