//! What a rule of the surface asks and gives, once its parts are found: the rules without their recursion.
//!
//! Each call stands for some of the questions of `elab_model`'s rules, over the items so far and with a budget for each question, and answers exactly
//! as these do: what they give, a refusal with its code at its place, that a question's budget is spent at its place, or that a tree of a form is too
//! deep; or it wants memory. No call asks anything of its trees. The crate stands on the elaborator's trees, head forms, comparison and instances.
#![tactic(auto)]

mod arguments;
mod ask;
mod context;
mod ends;
mod equations;
mod fault;
mod forms;
mod kinds;
mod names;
mod place;
mod rewriting;
mod spine;
mod uses;

pub use ask::Rules;
pub use context::{Binding, Context};
pub use fault::{Fault, low};
pub use forms::{Former, Product};
pub use place::At;
pub use spine::{Argument, Made, Opened, OpenedType, Spine};
pub use uses::is_unused;
