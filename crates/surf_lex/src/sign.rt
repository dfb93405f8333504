//! The tables of characters.
ghost use Rattle.std.specs.Prelude.{◌≡◌, ◌∷◌, []};
ghost use Rattle.cdle_model.specs.CoreTokens.{is_white};
ghost use Rattle.source_model.specs.SurfaceTokens.{continues_name, is_reserved, sign_of, single_signs, starts_name, word_kind, words};

use source_model::TokenKind;
use unicode_ident::{is_xid_continue, is_xid_start};

/// The token that is this one character.
pub(crate) fn single_sign(c: char) -> Option<TokenKind>
    ensures { result ≡ sign_of single_signs (c ∷ []) }
{
    let kind = match c {
        'λ' => TokenKind::Lambda,
        'Λ' => TokenKind::BigLambda,
        'Π' => TokenKind::BigPi,
        'ι' => TokenKind::Iota,
        'β' => TokenKind::Beta,
        'ρ' => TokenKind::Rho,
        'φ' => TokenKind::Phi,
        'δ' => TokenKind::Delta,
        'χ' => TokenKind::Chi,
        'ς' => TokenKind::FinalSigma,
        'μ' => TokenKind::Mu,
        'σ' => TokenKind::Sigma,
        '★' => TokenKind::Star,
        '∀' => TokenKind::ForAll,
        '➔' => TokenKind::Arrow,
        '➾' => TokenKind::ErasedArrow,
        '≃' => TokenKind::Equal,
        '·' => TokenKind::MiddleDot,
        '.' => TokenKind::Period,
        ':' => TokenKind::Colon,
        '=' => TokenKind::Is,
        '(' => TokenKind::Open,
        ')' => TokenKind::Close,
        '[' => TokenKind::OpenBracket,
        ']' => TokenKind::CloseBracket,
        '{' => TokenKind::OpenBrace,
        '}' => TokenKind::CloseBrace,
        '<' => TokenKind::Less,
        '>' => TokenKind::Greater,
        ',' => TokenKind::Comma,
        '|' => TokenKind::Bar,
        '-' => TokenKind::Minus,
        '@' => TokenKind::At,
        '#' => TokenKind::Hash,
        _ => return None,
    };
    Some(kind)
}

/// White space.
pub(crate) fn is_white_space(c: char) -> bool
    ensures { result ≡ is_white c }
{
    c == ' ' || c == '\t' || c == '\n' || c == '\r'
}

/// Whether a name may begin with the character.
pub(crate) fn begins_name(c: char) -> bool
    ensures { result ≡ starts_name c }
{
    (is_xid_start(c) || c == '_') && !is_kept_apart(c)
}

// Unicode lets names have these too.
fn is_kept_apart(c: char) -> bool
    ensures { result ≡ is_reserved c }
{
    matches!(
        c,
        'λ' | 'Λ' | 'Π' | 'ι' | 'β' | 'ρ' | 'φ' | 'δ' | 'χ' | 'ς' | 'μ' | 'σ' | '·'
    )
}

/// Whether a name may go on with the character.
pub(crate) fn is_in_name(c: char) -> bool
    ensures { result ≡ continues_name c }
{
    (is_xid_continue(c) || c == '/' || c == '\'') && !is_kept_apart(c)
}

/// The kind of a word: one of those that are no names, or a name.
pub(crate) fn kind_of_word(word: &str) -> TokenKind
    ensures { result ≡ word_kind words word.now }
{
    if word == "module" {
        TokenKind::Module
    } else if word == "import" {
        TokenKind::Import
    } else if word == "data" {
        TokenKind::Data
    } else {
        TokenKind::Name
    }
}
