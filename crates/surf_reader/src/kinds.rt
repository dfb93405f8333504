//! Kinds of tokens by number.
ghost use Rattle.std.specs.Prelude.{◌≡◌};
ghost use Rattle.source_model.specs.Rows.{kind_number, same_kind};

use source_model::TokenKind;

fn number(kind: TokenKind) -> u8
    ensures { result ≡ kind_number kind }
{
    match kind {
        TokenKind::Lambda => 0,
        TokenKind::BigLambda => 1,
        TokenKind::BigPi => 2,
        TokenKind::Iota => 3,
        TokenKind::Beta => 4,
        TokenKind::Rho => 5,
        TokenKind::Phi => 6,
        TokenKind::Delta => 7,
        TokenKind::Chi => 8,
        TokenKind::FinalSigma => 9,
        TokenKind::Mu => 10,
        TokenKind::Sigma => 11,
        TokenKind::Star => 12,
        TokenKind::ForAll => 13,
        TokenKind::Arrow => 14,
        TokenKind::ErasedArrow => 15,
        TokenKind::Equal => 16,
        TokenKind::MiddleDot => 17,
        TokenKind::First => 18,
        TokenKind::Second => 19,
        TokenKind::Period => 20,
        TokenKind::Colon => 21,
        TokenKind::Is => 22,
        TokenKind::Open => 23,
        TokenKind::Close => 24,
        TokenKind::OpenBracket => 25,
        TokenKind::CloseBracket => 26,
        TokenKind::OpenBrace => 27,
        TokenKind::CloseBrace => 28,
        TokenKind::Less => 29,
        TokenKind::Greater => 30,
        TokenKind::Comma => 31,
        TokenKind::Bar => 32,
        TokenKind::Minus => 33,
        TokenKind::At => 34,
        TokenKind::Hash => 35,
        TokenKind::Module => 36,
        TokenKind::Import => 37,
        TokenKind::Data => 38,
        TokenKind::Name => 39,
    }
}

/// Whether the kinds are the same.
pub fn is_same(kind: TokenKind, other: TokenKind) -> bool
    ensures { result ≡ same_kind kind other }
{
    number(kind) == number(other)
}
