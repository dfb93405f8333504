//! Head forms of annotated types, with a number of units.
//!
//! `head_type` brings a type to its head form by contractions and unfoldings over the items so far, each of which takes one unit. Its answer
//! is that of the definitions with these units: the head form, that the units are used up, or that a tree is too deep; or it wants memory.
//! Names of datatypes stay where that is asked. It asks nothing of the type, which may have unknowns. The crate stands on `elab_tree`,
//! and on `elab_model` for the definitions.
#![tactic(auto)]

mod bodies;
mod budget;
mod head;
mod stop;

pub use cdle_model::NoMemory;
pub use head::head_type;
pub use stop::ElabStop;
