//! What Core's rules ask and give, once the types and kinds of a form's parts have been found.
//!
//! `Rules` puts the questions of a rule to comparison and head forms, each with a budget of its own, and ends the rule with the type or kind that it gives.
//! Each contract says which of the definitions' questions were asked, and what follows from the answers. Whatever finds the parts' types (`core_check`)
//! recurs over the forms and owns nothing of this. The crate stands on `core_compare`, `core_reduce`, `core_view`, `core_tree` and `cdle_model`.
#![tactic(auto)]

mod ask;
mod context;
mod fault;
mod limit;
mod names;
mod rest;
mod sides;

pub use ask::Rules;
pub use context::Context;
pub use fault::Fault;
pub use limit::{allt, eq, kpi, kpit, limited, pi, whole_type};
