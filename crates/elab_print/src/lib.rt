//! The printer: the elaborator's items as Core text.
//!
//! `print_core` gives exactly the text of the definitions in `print_model`, whose laws say that it is read as these items. Each node is first
//! looked at as a layout, which is a word, or a form with what stands in it in written order; one short recursion prints layouts, and `layout`
//! alone knows the forms. Time and stack go with the text. The crate stands on `elab_tree` and `print_model`.
#![tactic(auto)]

mod layout;
mod part;
mod text;

pub use text::{PrintFault, print_core};
