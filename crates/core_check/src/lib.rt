//! The checker of Core files.
//!
//! `check_files` reads Core's rules upwards over the items of files, in their order, and puts to comparison and head forms what each rule asks, with a
//! budget for each question. What it accepts has a derivation; the items up to one that it refuses have none; every refusal is the definitions', with
//! item, path and values; and wherever the definitions' check has a verdict at the budget given, the answer is that verdict, or want of memory.
//! What a rule asks and gives lies below (`core_rules`); here are the recursion over the forms and the list of items. It stands on `core_rules`, the
//! comparison (`core_compare`), head forms (`core_reduce`), the trees (`core_tree`) and the definitions (`cdle_model`) alone.
#![tactic(auto)]

mod check;
mod item;
mod kind;
mod term;
mod ty;

pub use check::check_files;
pub use core_tree::{Checked, CoreFault, Why};
