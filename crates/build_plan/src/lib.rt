//! The order in which the modules of a build are taken.
//!
//! `order` gives the first order in the order of a dictionary in which each module stands behind what it imports, by the numbers that the modules have in reading
//! order; where none is, the names of a cycle of imports. By `plan_model`, on whose definitions and laws the crate stands, modules in reading order have just one
//! answer, so that it is exact but for want of memory. It stands on `surf_tree`, `source_model`, `cdle_names` and `cdle_model` too.
#![tactic(auto)]

mod fault;
mod numbers;
mod planning;
mod table;
mod walk;

pub use fault::PlanFault;
pub use planning::order;
