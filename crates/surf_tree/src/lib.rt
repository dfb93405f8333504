//! Source trees: terms, types and kinds as a module writes them, each with its place, and the items of a module.
//!
//! A tree is a node shared by its owners. Each node is the definitions' tree of its form at its place, whatever builds it, and has at most
//! 16,384 levels: where a constructor would make more, it tells that memory is wanted, as it does where there is none. The crate stands on
//! `source_model`, on `cdle_names` for spans and the numbers of names, and on `cdle_model`.
#![tactic(auto)]

mod items;
mod names;
mod node;
mod term_forms;
mod type_forms;

pub use cdle_model::NoMemory;
pub use items::{SrcCtor, SrcItem, SrcModule, SrcParam};
pub use names::NameUse;
pub use node::{
    Src, SrcBranch, SrcClass, SrcForm, SrcKind, SrcKindForm, SrcPattern, SrcType, SrcTypeForm,
};
