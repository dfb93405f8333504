//! The tokens with which parts begin, and what stands where no nesting is left.
ghost use Rattle.std.specs.Prelude.{◌≡◌, ◌<◌, ℕ, Some, None};
ghost use Rattle.source_model.specs.Grammar.{Term};
ghost use Rattle.source_model.specs.Rows.{class_atom_row, class_row, type_argument_row, argument_row, term_row};
ghost use Rattle.source_model.specs.declared.wanted.Wanted.TheVariants as wanteds;
ghost use Rattle.surf_reader.specs.View.{IsDeep, begins_row};

use crate::error::ParseFault;
use crate::reader::Reader;
use source_model::{TokenKind, Wanted};

impl<'a> Reader<'a> {
    /// A class where no nesting is left.
    pub fn deep_class(&self, wanted: Wanted, at: usize) -> ParseFault
        ensures { (n : ℕ) (count : _) → IsDeep self.now result (class_row n count) wanted at }
    {
        match self.peek(at) {
            None => ParseFault::Unexpected {
                at: self.end,
                wanted,
            },
            Some(token) => {
                if begins_class(token.kind) {
                    ParseFault::TooDeep {
                        at: token.span.from,
                    }
                } else {
                    ParseFault::Unexpected {
                        at: token.span.from,
                        wanted,
                    }
                }
            }
        }
    }

    /// A term where no nesting is left.
    pub fn deep_term(&self, at: usize) -> ParseFault
        ensures { (n : ℕ) → IsDeep self.now result (term_row n) wanteds.Term at }
    {
        match self.peek(at) {
            None => ParseFault::Unexpected {
                at: self.end,
                wanted: Wanted::Term,
            },
            Some(token) => {
                if begins_term(token.kind) {
                    ParseFault::TooDeep {
                        at: token.span.from,
                    }
                } else {
                    ParseFault::Unexpected {
                        at: token.span.from,
                        wanted: Wanted::Term,
                    }
                }
            }
        }
    }
}

/// Whether an argument of a type begins with a token of that kind.
pub fn begins_type_argument(kind: TokenKind) -> bool
    ensures { (n : ℕ) → begins_row (type_argument_row n kind) ≡ result }
{
    match kind {
        TokenKind::MiddleDot => true,
        TokenKind::Name => true,
        TokenKind::Open => true,
        TokenKind::OpenBracket => true,
        TokenKind::Beta => true,
        _ => false,
    }
}

/// Whether a class begins with a token of that kind.
fn begins_class(kind: TokenKind) -> bool
    ensures { (n : ℕ) (count : _) → begins_row (class_row n count kind) ≡ result }
{
    match kind {
        TokenKind::BigPi => true,
        TokenKind::ForAll => true,
        TokenKind::Lambda => true,
        TokenKind::Iota => true,
        TokenKind::Star => true,
        TokenKind::Name => true,
        TokenKind::Open => true,
        TokenKind::OpenBrace => true,
        _ => false,
    }
}

/// Whether an atom of a class begins with a token of that kind.
pub fn begins_class_atom(kind: TokenKind) -> bool
    ensures { (n : ℕ) → begins_row (class_atom_row n kind) ≡ result }
{
    match kind {
        TokenKind::Star => true,
        TokenKind::Name => true,
        TokenKind::Open => true,
        TokenKind::OpenBrace => true,
        _ => false,
    }
}

/// Whether an argument of a term begins with a token of that kind.
pub fn begins_argument(kind: TokenKind) -> bool
    ensures { (n : ℕ) → begins_row (argument_row n kind) ≡ result }
{
    match kind {
        TokenKind::Minus => true,
        TokenKind::MiddleDot => true,
        TokenKind::Name => true,
        TokenKind::Open => true,
        TokenKind::OpenBracket => true,
        TokenKind::Beta => true,
        _ => false,
    }
}

/// Whether a term begins with a token of that kind.
fn begins_term(kind: TokenKind) -> bool
    ensures { (n : ℕ) → begins_row (term_row n kind) ≡ result }
{
    match kind {
        TokenKind::Lambda => true,
        TokenKind::BigLambda => true,
        TokenKind::Rho => true,
        TokenKind::Phi => true,
        TokenKind::Delta => true,
        TokenKind::Chi => true,
        TokenKind::FinalSigma => true,
        TokenKind::Mu => true,
        TokenKind::Sigma => true,
        TokenKind::Name => true,
        TokenKind::Open => true,
        TokenKind::OpenBracket => true,
        TokenKind::Beta => true,
        _ => false,
    }
}
