//! The scope of surface names: each name of a module replaced by what it stands for.
//!
//! `resolve` gives exactly the module that the definitions of scope give for a module behind those that are known, or exactly the first fault of
//! its text; `Exports` has the modules that are known. Terms and classes are gone through by `scope_part`. The crate stands on that, on `scope_model`
//! for the definitions, on `scoped_tree` for what is made, on `surf_tree` for what is read, and on `cdle_names`.
#![tactic(auto)]

mod data;
mod data_names;
mod exports;
mod items;
mod modules;
mod texts;

pub use cdle_names::NoMemory;
pub use exports::Exports;
pub use modules::resolve;
pub use scope_part::ScopeFault;
