//! Several modules, elaborated: from modules that were read to the texts of their Core files.
//!
//! `core_texts` gives exactly the texts that the definitions give for modules in their order, or exactly the first reason why there are none: of all modules the
//! number of items, of all modules the scope, then forms that are not built, the rules item by item, and what is too deep to be printed. It stands on
//! `modules_model` for what modules come to, on `surf_scope`, `elab_item` and `elab_print`, and reads or writes no files.
#![tactic(auto)]

mod count;
mod fault;
mod items;
mod order;
mod print;
mod scope;
mod texts;
mod unbuilt;

pub use fault::BuildFault;
pub use texts::core_texts;
