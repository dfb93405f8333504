//! The Core files of a build: all of them are written in their order, and then all are read back in the same order.
//!
//! What is read back is compared with what was written. The first refusal ends the call: a write that failed, a file that is not there, not read or too long, or bytes that differ, at the first
//! one that does. The contract of `write_and_read_back` says of each end what was written and read, over any folder; the laws say which end there is where nothing fails. The crate stands on the
//! folder (`cdle_folder`).
#![tactic(auto)]

mod difference;
mod fault;
mod laws;
mod read_back;
mod write;
mod writing;

pub use fault::{OutputFile, Unread, WritingFault};
pub use laws::{one_writing_where_nothing_fails, writing_is_the_one_where_nothing_fails};
pub use writing::write_and_read_back;
