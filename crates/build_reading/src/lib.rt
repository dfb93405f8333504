//! The modules of a build, read one after the other.
//!
//! `read_modules` reads the root's file, and then that of each module that those before it import, in the order in which the imports come: at most 500. It gives
//! just these modules with the bytes of their files, or the first fault: a file that gives nothing, one module too many, or bytes that are no module. Nothing is
//! written. The crate stands on `surf_source`, which reads one file's bytes, and on `cdle_folder`; its laws say that there is one reading of given files.
#![tactic(auto)]

mod fault;
mod files;
mod laws;
mod reading;
mod wanted;

pub use fault::{ReadingFault, Unread};
pub use laws::{one_reading_where_nothing_fails, read_modules_differ_and_are_closed};
pub use reading::{ReadModules, read_modules};
