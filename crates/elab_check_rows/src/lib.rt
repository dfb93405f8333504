//! The worked rows of single calls of `elab_check`, over a context of a type and a term of that type.
//!
//! Here are only tests, whose values were worked out by hand. The crate stands on `elab_check` and what that stands on, and promises nothing to a crate above.
#![tactic(auto)]

#[cfg(test)]
mod rows;
