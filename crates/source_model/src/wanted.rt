//! What the grammar of surface text wants.
use crate::token::TokenKind;

/// What the grammar wants at a place where a text goes wrong.
#[derive(Clone, Copy, Debug, PartialEq, Eq)]
pub enum Wanted {
    Name,
    Item,
    Ty,
    Kind,
    Class,
    Term,
    Branch,
    Token(TokenKind),
}
