//! Reading atoms of terms.
ghost use Rattle.std.specs.Prelude.{◌+◌, ◌<◌, ◌∷◌, [], ℕ, Ok, Some, None};
ghost use Rattle.source_model.specs.Grammar.{Read, Make, Term, Token, Atom, Side, KeptTerm};
ghost use Rattle.source_model.specs.Grammar as m;
ghost use Rattle.source_model.specs.Rows.{atom_row, sign};
ghost use Rattle.source_model.specs.Made.{behind};
ghost use Rattle.source_model.specs.Parsing.{one};
ghost use Rattle.source_model.specs.declared.token.TokenKind.TheVariants as kinds;
ghost use Rattle.source_model.specs.declared.wanted.Wanted.TheVariants as wanteds;
ghost use Rattle.surf_reader.specs.View.{Gives, Goes, Reads, enclosed_value, on_token, term_part};

use crate::terms::term;
use source_model::{TokenKind, Wanted};
use surf_reader::{Named, ParseFault, Reader, between};
use surf_tree::Src;

/// A term in parentheses, behind the first.
#[cycle(part)]
fn parenthesized(
    reader: &Reader<'_>,
    left: u32,
    bracket: Named,
    at: usize,
) -> Result<((u32, Src), usize), ParseFault>
    ensures { Goes reader.now term_part result (Read (Term left) ∷ sign kinds.Close ∷ Make m.Parenthesized ∷ []) (on_token bracket) at }
{
    let ((_, term), at) = term(reader, left, at)?;
    let (_, at) = reader.sign(TokenKind::Close, at)?;
    Ok(((bracket.span.from, term), at))
}

/// A pair, behind its bracket.
#[cycle(part)]
fn pair(
    reader: &Reader<'_>,
    left: u32,
    bracket: Named,
    at: usize,
) -> Result<((u32, Src), usize), ParseFault>
    ensures { Goes reader.now term_part result (Read (Term left) ∷ sign kinds.Comma ∷ Read (Term left) ∷ sign kinds.CloseBracket ∷ Make m.Pair ∷ []) (on_token bracket) at }
{
    let ((_, first), at) = term(reader, left, at)?;
    let (_, at) = reader.sign(TokenKind::Comma, at)?;
    let ((_, second), at) = term(reader, left, at)?;
    let (close, at) = reader.sign(TokenKind::CloseBracket, at)?;
    let term = Src::pair(reader.alloc, between(bracket, close), &first, &second)?;
    Ok(((bracket.span.from, term), at))
}

/// A term that ends with a sign, behind the sign with which it begins; and the place behind both.
#[cycle(part)]
fn enclosed(
    reader: &Reader<'_>,
    left: u32,
    closing: TokenKind,
    at: usize,
) -> Result<(Option<(u32, Src)>, usize), ParseFault>
    ensures { (d : Token ℕ) → Goes reader.now enclosed_value result (Read (Term left) ∷ sign closing ∷ Make m.Enclosed ∷ []) (λ vs. m.token d ∷ vs) at }
{
    let ((_, term), at) = term(reader, left, at)?;
    let (close, at) = reader.sign(closing, at)?;
    Ok((Some((close.span.to, term)), at))
}

/// The side of `β`, where it has one.
#[cycle(part)]
fn side(
    reader: &Reader<'_>,
    left: u32,
    at: usize,
) -> Result<(Option<(u32, Src)>, usize), ParseFault>
    ensures { Gives reader.now enclosed_value result (Side left) at }
{
    match reader.taken(TokenKind::Less, at) {
        Some(_) => enclosed(reader, left, TokenKind::Greater, at + 1),
        None => Ok((None, at)),
    }
}

/// The term that `β` keeps, where it has one.
#[cycle(part)]
fn kept_term(
    reader: &Reader<'_>,
    left: u32,
    at: usize,
) -> Result<(Option<(u32, Src)>, usize), ParseFault>
    ensures { Gives reader.now enclosed_value result (KeptTerm left) at }
{
    match reader.taken(TokenKind::OpenBrace, at) {
        Some(_) => enclosed(reader, left, TokenKind::CloseBrace, at + 1),
        None => Ok((None, at)),
    }
}

/// `β`, behind its letter.
#[cycle(part)]
fn beta(
    reader: &Reader<'_>,
    left: u32,
    letter: Named,
    at: usize,
) -> Result<((u32, Src), usize), ParseFault>
    ensures { Goes reader.now term_part result (Read (Side left) ∷ Read (KeptTerm left) ∷ Make m.Beta ∷ []) (on_token letter) at }
{
    let (side, at) = side(reader, left, at)?;
    let (kept, at) = kept_term(reader, left, at)?;
    let term = reader.beta_of(letter, side, kept)?;
    Ok(((letter.span.from, term), at))
}

/// An atom without projections.
#[cycle(part)]
fn simple(reader: &Reader<'_>, left: u32, at: usize) -> Result<((u32, Src), usize), ParseFault>
    ensures { Reads reader.now term_part result (atom_row left) wanteds.Term at }
{
    match reader.peek(at) {
        None => Err(ParseFault::Unexpected {
            at: reader.end,
            wanted: Wanted::Term,
        }),
        Some(token) => match token.kind {
            TokenKind::Name => reader.term_name(token, at + 1),
            TokenKind::Open => parenthesized(reader, left, token, at + 1),
            TokenKind::OpenBracket => pair(reader, left, token, at + 1),
            TokenKind::Beta => beta(reader, left, token, at + 1),
            _ => Err(ParseFault::Unexpected {
                at: token.span.from,
                wanted: Wanted::Term,
            }),
        },
    }
}

/// An atom, with its projections.
#[cycle(part)]
pub(crate) fn atom(
    reader: &Reader<'_>,
    left: u32,
    at: usize,
) -> Result<((u32, Src), usize), ParseFault>
    ensures { Gives reader.now term_part result (Atom left) at }
{
    let ((first, term), at) = simple(reader, left, at)?;
    reader.projections(first, term, at)
}
