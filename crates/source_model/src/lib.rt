//! The definitions of the source language, and their laws: what the contracts of the elaborator's crates cite.
//!
//! `specs/` has the definitions, in the subject's order: source trees with their places and heights, the tokens of a text, the grammar as a
//! table of rows, and what tokens say by it, or their first fault. Each law is the contract of a function of `token_laws.rt` or
//! `grammar_laws.rt` whose body is empty, and so is proved at every check. The crate stands on `cdle_model` and, for the characters of
//! names, on `unicode_ident`; no code runs here but the two plain types that definitions and code both name.
#![tactic(auto)]

mod grammar_laws;
mod token;
mod token_laws;
mod wanted;

pub use grammar_laws::{
    module_is_said_or_faulty, one_module, read_is_said, reading_goes_by_rows,
    said_module_is_faultless,
};
pub use token::TokenKind;
pub use token_laws::{token_fault_is_first, tokens_are_of_their_text};
pub use wanted::Wanted;
