//! The tokens of surface text.
//!
//! `lex` gives exactly the tokens that the definition of surface text gives for the text, each with its place, or the first fault: a
//! character with which nothing begins, or a comment that does not end. It reads once from the left. The crate stands on `source_model`,
//! whose laws say what tokens are of their text, on `unicode_ident` for the characters of names, and on `cdle_names` for spans.
#![tactic(auto)]

mod chars;
mod fault;
mod front;
mod sign;
mod tokens;

pub use fault::LexFault;
pub use source_model::TokenKind;
pub use tokens::{Token, lex};
