//! What the names of one part of a module stand for: the pass over terms and classes.
//!
//! `term`, `ty`, `kind` and `class` of a `Resolver` give exactly the tree, or its first fault, that the definitions of scope give for a part of an item behind
//! others; `ItemIndex` and `ExportedModule` find items by maps from their names. The crate stands on `scope_model` for the definitions, on `scoped_tree`
//! for what is made, on `surf_tree` for what is read, and on `cdle_names`.
#![tactic(auto)]

mod binders;
mod exported;
mod fault;
mod first_use;
mod index;
mod names;
mod part;
mod resolver;
mod shape;

pub use binders::{Binders, Layer};
pub use cdle_names::NoMemory;
pub use exported::ExportedModule;
pub use fault::ScopeFault;
pub use index::ItemIndex;
pub use names::spelling;
pub use resolver::Resolver;
