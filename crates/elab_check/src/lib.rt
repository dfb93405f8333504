//! The surface rules, read upwards: terms with their types, or against types that they are to have; types with their kinds; kinds.
//!
//! `infer`, `check` and `kind_of` answer exactly what the rules of `elab_model` give over the items so far, with a budget for each comparison and
//! each head form; or they want memory. Only the recursion stands here: what a rule asks and gives once its parts are found is in `elab_rules`, on which
//! the crate stands. No call asks anything of its trees.
#![tactic(auto)]

mod calls;
mod checker;
mod context;
mod equation;
mod fault;
mod item;
mod kind;
mod pair;
mod parts;
mod rewrite;
mod term;
mod ty;

pub use calls::{check, definition, infer, kind_of, type_definition};
pub use cdle_model::NoMemory;
pub use context::Ctx;
pub use fault::ElabFault;
