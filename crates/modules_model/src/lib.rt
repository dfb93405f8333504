//! What several modules come to, in their order: the texts of their Core files, or the first reason why there are none.
//!
//! `specs/` has the definitions: what modules come to, stage after stage (ModuleTexts), and what the texts that are given are to their modules (AllBuilt).
//! Each law is the contract of a function with an empty body: modules that are said come to an answer, and the texts that are given say items with the names of
//! the modules' definitions, which erase to these and have a derivation. No code runs here. The crate stands on `build_model`, `elab_model` and `print_model`.
#![tactic(auto)]

mod laws;

pub use laws::{given_texts_are_the_modules, modules_come_to_an_answer};
