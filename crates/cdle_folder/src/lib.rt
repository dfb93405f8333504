//! What the program reads and writes, as traits with a written meaning, and their implementations.
//!
//! A `Folder` gives and takes the bytes of files, and a `Sink` takes the bytes of a report. Their clauses say what each call answers and what it
//! leaves, and that a fault is answered only where its count rose, which generic code can't bring about by itself. The folders and the
//! sink in memory tell all that they hold. `DirFolder` and `StdSink` are the trusted edge: they tell no content, and stand on std's files.
#![tactic(auto)]

mod memory;
mod outside;
mod real;
mod sink;
mod sure;

pub use cdle_model::NoMemory;
pub use memory::{ChangeRead, MemoryFolder};
pub use outside::{Folder, PutFailed, ReadStop, Sink, WriteStop};
pub use real::{DirFolder, StdSink};
pub use sink::MemorySink;
pub use sure::SureFolder;
