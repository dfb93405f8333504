//! A module's file, elaborated: from its bytes to the text of its Core file.
//!
//! `module_text` gives exactly the text that the definitions give, or exactly the first reason why there is none, in the order of refusals: the file, the
//! number of items, the scope, forms that are not built, and then the rules item by item. Laws say that any bytes come to just one answer, and what a text that
//! is given is to its module. It stands on `surf_source`, `surf_scope`, `elab_item` and `elab_print`, and reads or writes no files.
#![tactic(auto)]

mod count;
mod fault;
mod items;
mod laws;
mod module;
mod unbuilt;

pub use fault::ModuleFault;
pub use laws::{file_comes_to_one_answer, given_text_is_the_modules};
pub use module::module_text;
