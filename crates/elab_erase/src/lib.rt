//! Pure positions of the surface rules, read upwards: the sides of an equation, what `β` and `φ` keep, the guide of `ρ`.
//!
//! What stands there is erased, so it needs scope only. Each call answers exactly what the rules of `elab_model` give for its node: the erasure, a
//! refusal of a variable that is used where it is to be erased, or that the tree of a form is too deep; or it wants memory, as it does of a node of
//! another class. No call asks anything of its node. The crate stands on `elab_rules` and the trees of scope and of elaboration.
#![tactic(auto)]

mod forms;
mod guide;
mod guide_kind;
mod pure;
mod term;
mod ty;

pub use term::erased_term;
pub use ty::{erased_kind, erased_type};
