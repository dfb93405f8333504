//! The worked rows of what stands round the checker: the words of the command line, folders and sinks, places and numbers of names.
//!
//! Here are only tests. The crate stands on `cdle_words`, `cdle_folder` and `cdle_names`, and promises nothing to a crate above.
#![tactic(auto)]

#[cfg(test)]
mod folders;
#[cfg(test)]
mod names;
#[cfg(test)]
mod words;
