//! Trees whose scope is known: terms, types and kinds in which each name stands for something, each with its place, and the items of a module.
//!
//! A tree is a node shared by its owners, and its form is one of six shapes. Each node is the definitions' tree of its form at its place,
//! whatever builds it, and has at most 16,384 levels: where a constructor would make more, it tells that memory is wanted, as it does where
//! there is none. The crate stands on `scope_model` and `source_model`, on `cdle_names` for spans, and on `cdle_model`.
#![tactic(auto)]

mod forms;
mod items;
mod node;

pub use cdle_model::NoMemory;
pub use forms::{Argument, BindForm, CaseForm, LeafForm, OneForm, Reference, TwoForm};
pub use items::{ItemName, ScopedCtor, ScopedData, ScopedItem, ScopedModule, ScopedParam};
pub use node::{Scoped, ScopedBranch, ScopedForm};

/// A term whose scope is known.
pub type ScopedTerm = Scoped;

/// A type whose scope is known.
pub type ScopedType = Scoped;

/// A kind whose scope is known.
pub type ScopedKind = Scoped;
