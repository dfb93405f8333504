//! Tokens with the numbers of their names.
use cdle_names::{NameId, Span};
use source_model::TokenKind;

/// A token, with the number of its text where it is a name. (Any other token has a number that nothing reads.)
#[derive(Clone, Copy, Debug, PartialEq, Eq)]
pub struct Named {
    pub kind: TokenKind,
    pub span: Span,
    pub name: NameId,
}
