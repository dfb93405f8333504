//! The order in which the modules of a build are taken, and the cycle that is told where there is none: definitions and laws.
//!
//! `specs/` says what modules in reading order are, with their numbers (Reading), which orders there are and which is the first of them (Orders), which modules
//! no order can have, with the cycle among them (Cycles), and what modules with other names are (Renamed). They hold for names of any type. Each law is the contract of a function with an empty body.
//! The crate stands on `source_model` and `cdle_model`; no code runs here.
#![tactic(auto)]

mod laws;

pub use laws::{modules_have_an_order_or_a_cycle, orders_are_kept_by_names};
