//! Reading classes: kinds and types.
ghost use Rattle.std.specs.Prelude.{◌≡◌, ◌<◌, ◌∷◌, [], ℕ, Ok, Some, None};
ghost use Rattle.source_model.specs.Grammar.{Read, Make, Test_, ClassAtom, Class, MaybeArrow, Term, Token, TypeArguments, IsType, IsShallow, any, of_type};
ghost use Rattle.source_model.specs.Grammar as m;
ghost use Rattle.source_model.specs.Rows.{binding, class_atom_row, class_row, counted, one_less, sign, type_argument_row, ◌▸◌};
ghost use Rattle.source_model.specs.Parsing.{one};
ghost use Rattle.source_model.specs.declared.token.TokenKind.TheVariants as kinds;
ghost use Rattle.source_model.specs.declared.wanted.Wanted.TheVariants as wanteds;
ghost use Rattle.surf_tree.specs.Forms.{class_tree};
ghost use Rattle.surf_reader.specs.View.{ClassArgued, ClassGives, Gives, Goes, Reads, Told, arrow_tail, binder_row, by, ends_of, need_of, class_part, given_of, here, on_token, type_part};

use crate::atoms::atom;
use crate::terms::term;
use source_model::{TokenKind, Wanted};
use surf_reader::{
    Binder, Named, ParseFault, Reader, begins_type_argument, between, one_less, word_behind_arrow,
    word_of_part,
};
use surf_tree::{SrcClass, SrcType};

/// A class in parentheses, behind the first.
#[cycle(part)]
fn parenthesized_class(
    reader: &Reader<'_>,
    left: u32,
    bracket: Named,
    at: usize,
) -> Result<((u32, SrcClass), usize), ParseFault>
    ensures { Goes reader.now class_part result (Read (Class left any None) ∷ sign kinds.Close ∷ Make m.Parenthesized ∷ []) (on_token bracket) at }
{
    let ((_, class), at) = class(reader, left, None, Wanted::Class, at)?;
    let (_, at) = reader.sign(TokenKind::Close, at)?;
    Ok(((bracket.span.from, class), at))
}

/// An equation, behind its brace.
#[cycle(part)]
fn equation(
    reader: &Reader<'_>,
    left: u32,
    bracket: Named,
    at: usize,
) -> Result<((u32, SrcClass), usize), ParseFault>
    ensures { Goes reader.now class_part result (Read (Term left) ∷ sign kinds.Equal ∷ Read (Term left) ∷ sign kinds.CloseBrace ∷ Make m.Equation ∷ []) (on_token bracket) at }
{
    let ((_, first), at) = term(reader, left, at)?;
    let (_, at) = reader.sign(TokenKind::Equal, at)?;
    let ((_, second), at) = term(reader, left, at)?;
    let (close, at) = reader.sign(TokenKind::CloseBrace, at)?;
    let ty = SrcType::eq(reader.alloc, between(bracket, close), &first, &second)?;
    Ok(((bracket.span.from, SrcClass::OfType(ty)), at))
}

/// A class that is one name, `★`, an equation, or a class in parentheses.
#[cycle(part)]
pub(crate) fn class_atom(
    reader: &Reader<'_>,
    left: u32,
    wanted: Wanted,
    at: usize,
) -> Result<((u32, SrcClass), usize), ParseFault>
    ensures { Gives reader.now class_part result (ClassAtom left wanted) at }
{
    match reader.peek(at) {
        None => Err(ParseFault::Unexpected {
            at: reader.end,
            wanted,
        }),
        Some(token) => match token.kind {
            TokenKind::Star => reader.star(token, at + 1),
            TokenKind::Name => reader.type_name(token, at + 1),
            TokenKind::Open => parenthesized_class(reader, left, token, at + 1),
            TokenKind::OpenBrace => equation(reader, left, token, at + 1),
            _ => Err(ParseFault::Unexpected {
                at: token.span.from,
                wanted,
            }),
        },
    }
}

/// What stands behind `Π`, `∀`, or the `λ` of types.
#[cycle(part)]
fn binder(
    reader: &Reader<'_>,
    left: u32,
    binder: Binder,
    count: Option<u32>,
    letter: Named,
    at: usize,
) -> Result<((u32, SrcClass), usize), ParseFault>
    ensures { Goes reader.now class_part result (binder_row left count binder) (on_token letter) at }
{
    reader.counted(count, at)?;
    let (name, at) = reader.binding(at)?;
    let (_, at) = reader.sign(TokenKind::Colon, at)?;
    let ((_, domain), at) = class(reader, left, None, Wanted::Class, at)?;
    let (_, at) = reader.sign(TokenKind::Period, at)?;
    binder_part(reader, left, binder, count, letter, name, &domain, at)
}

/// The part of a binder, behind its period.
#[cycle(part)]
fn binder_part(
    reader: &Reader<'_>,
    left: u32,
    binder: Binder,
    count: Option<u32>,
    letter: Named,
    name: Named,
    domain: &SrcClass,
    at: usize,
) -> Result<((u32, SrcClass), usize), ParseFault>
    ensures { (d e : Token ℕ) (f : ℕ) → Goes reader.now class_part result (Read (Class left (need_of binder) (one_less count)) ∷ ends_of binder)
        (λ vs. m.token d ∷ m.part f (class_tree domain.now) ∷ m.token e ∷ on_token name (on_token letter vs)) at }
{
    let wanted = word_of_part(binder, domain);
    let ((first, part), at) = class(reader, left, one_less(count), wanted, at)?;
    let class = reader.bound(binder, letter, name, domain, first, part)?;
    Ok(((letter.span.from, class), at))
}

/// What stands behind `ι`.
#[cycle(part)]
fn iota(
    reader: &Reader<'_>,
    left: u32,
    letter: Named,
    at: usize,
) -> Result<((u32, SrcClass), usize), ParseFault>
    ensures { Goes reader.now class_part result
        (binding ∷ sign kinds.Colon ∷ Read (Class left of_type None) ∷ Test_ IsType ∷ sign kinds.Period ∷ Read (Class left of_type None) ∷ Test_ IsType ∷ Make m.Iota ∷ [])
        (on_token letter) at }
{
    let (name, at) = reader.binding(at)?;
    let (_, at) = reader.sign(TokenKind::Colon, at)?;
    let ((first, found), at) = class(reader, left, None, Wanted::Ty, at)?;
    let domain = reader.as_type(first, found)?;
    let (_, at) = reader.sign(TokenKind::Period, at)?;
    iota_part(reader, left, letter, name, &domain, at)
}

/// The part of `ι`, behind its period.
#[cycle(part)]
fn iota_part(
    reader: &Reader<'_>,
    left: u32,
    letter: Named,
    name: Named,
    domain: &SrcType,
    at: usize,
) -> Result<((u32, SrcClass), usize), ParseFault>
    ensures { (d e : Token ℕ) (f : ℕ) → Goes reader.now class_part result (Read (Class left of_type None) ∷ Test_ IsType ∷ Make m.Iota ∷ [])
        (λ vs. m.token d ∷ m.part f domain.now ∷ m.token e ∷ on_token name (on_token letter vs)) at }
{
    let ((first, found), at) = class(reader, left, None, Wanted::Ty, at)?;
    let ty = reader.iota_end(letter, name, domain, first, found)?;
    Ok(((letter.span.from, SrcClass::OfType(ty)), at))
}

/// A class, inside which nesting may still rise so often.
#[cycle(part)]
fn class_form(
    reader: &Reader<'_>,
    left: u32,
    count: Option<u32>,
    wanted: Wanted,
    at: usize,
) -> Result<((u32, SrcClass), usize), ParseFault>
    ensures { Reads reader.now class_part result (class_row left count) wanted at }
{
    match reader.peek(at) {
        None => Err(ParseFault::Unexpected {
            at: reader.end,
            wanted,
        }),
        Some(token) => match token.kind {
            TokenKind::BigPi => binder(reader, left, Binder::Product, count, token, at + 1),
            TokenKind::ForAll => binder(reader, left, Binder::Forall, count, token, at + 1),
            TokenKind::Lambda => binder(reader, left, Binder::Lambda, None, token, at + 1),
            TokenKind::Iota => iota(reader, left, token, at + 1),
            _ => class_head(reader, left, count, wanted, at),
        },
    }
}

/// A class that begins with an atom: its arguments and its arrow.
#[cycle(part)]
fn class_head(
    reader: &Reader<'_>,
    left: u32,
    count: Option<u32>,
    wanted: Wanted,
    at: usize,
) -> Result<((u32, SrcClass), usize), ParseFault>
    ensures { Reads reader.now class_part result (λ t. class_atom_row left t ▸ (Read (TypeArguments left) ∷ Read (MaybeArrow left count) ∷ [])) wanted at }
{
    let ((first, head), at) = class_atom(reader, left, wanted, at)?;
    class_tail(reader, left, count, first, head, at)
}

/// What stands behind the atom with which a class begins.
#[cycle(part)]
fn class_tail(
    reader: &Reader<'_>,
    left: u32,
    count: Option<u32>,
    first: u32,
    head: SrcClass,
    at: usize,
) -> Result<((u32, SrcClass), usize), ParseFault>
    ensures { Goes reader.now class_part result (Read (TypeArguments left) ∷ Read (MaybeArrow left count) ∷ []) (λ vs. m.part first (class_tree head) ∷ vs) at }
{
    let (applied, at) = type_arguments(reader, left, first, head, at)?;
    maybe_arrow(reader, left, count, first, applied, at)
}

/// The arrow that may stand behind a class.
#[cycle(part)]
fn maybe_arrow(
    reader: &Reader<'_>,
    left: u32,
    count: Option<u32>,
    first: u32,
    domain: SrcClass,
    at: usize,
) -> Result<((u32, SrcClass), usize), ParseFault>
    ensures { Told reader.now class_part result (λ vs. one (given_of reader.now) (Read (MaybeArrow left count)) (here reader.now at (m.part first (class_tree domain) ∷ vs))) }
{
    match reader.peek(at) {
        None => Ok(((first, domain), at)),
        Some(token) => match token.kind {
            TokenKind::Arrow => arrow(reader, left, false, count, first, &domain, at + 1),
            TokenKind::ErasedArrow => arrow(reader, left, true, count, first, &domain, at + 1),
            _ => Ok(((first, domain), at)),
        },
    }
}

/// What stands behind `➔`, or behind `➾` where the domain is erased.
#[cycle(part)]
fn arrow(
    reader: &Reader<'_>,
    left: u32,
    erased: bool,
    count: Option<u32>,
    begin: u32,
    domain: &SrcClass,
    at: usize,
) -> Result<((u32, SrcClass), usize), ParseFault>
    ensures { (d : Token ℕ) → Goes reader.now class_part result (arrow_tail left count erased) (λ vs. m.token d ∷ m.part begin (class_tree domain.now) ∷ vs) at }
{
    reader.counted(count, at)?;
    let wanted = word_behind_arrow(erased, domain);
    let ((first, part), at) = class(reader, left, one_less(count), wanted, at)?;
    let class = reader.arrowed(erased, begin, domain, first, part)?;
    Ok(((begin, class), at))
}

/// A class with all the arguments behind it.
#[cycle(part)]
fn type_arguments(
    reader: &Reader<'_>,
    left: u32,
    first: u32,
    head: SrcClass,
    at: usize,
) -> Result<(SrcClass, usize), ParseFault>
    ensures { Told reader.now (λ c vs. m.part first (class_tree c) ∷ vs) result (λ vs. one (given_of reader.now) (Read (TypeArguments left)) (here reader.now at (m.part first (class_tree head) ∷ vs))) }
{
    let mut now = head;
    let mut room = left;
    let mut to = at;
    'arguments: while let Some((more, next)) = type_argument(reader, room, first, &now, to)? {
        now = more;
        room -= 1;
        to = next;
    }
    Ok((now, to))
}

/// The class with the argument that is next, if one is.
#[cycle(part)]
fn type_argument(
    reader: &Reader<'_>,
    left: u32,
    first: u32,
    head: &SrcClass,
    at: usize,
) -> Result<Option<(SrcClass, usize)>, ParseFault>
    ensures argued { ClassArgued reader.now left first (class_tree head.now) at result }
    ensures nested { (x : _) → result ≡ Ok (Some x) → 0 < left }
{
    match reader.peek(at) {
        None => Ok(None),
        Some(token) => {
            if !begins_type_argument(token.kind) {
                return Ok(None);
            }
            let head = reader.head_type(first, head)?;
            if left == 0 {
                return Err(ParseFault::TooDeep {
                    at: token.span.from,
                });
            }
            let (ty, to) = applied_type(reader, left - 1, first, head, at)?;
            Ok(Some((SrcClass::OfType(ty), to)))
        }
    }
}

/// A type with the argument that is next.
#[cycle(part)]
fn applied_type(
    reader: &Reader<'_>,
    left: u32,
    first: u32,
    head: &SrcType,
    at: usize,
) -> Result<(SrcType, usize), ParseFault>
    ensures { Told reader.now (type_part first) result (λ vs. by (given_of reader.now) (λ t. type_argument_row left t ▸ (Test_ IsShallow ∷ [])) wanteds.Term (here reader.now at (m.part first head.now ∷ vs))) }
{
    match reader.peek(at) {
        None => Err(ParseFault::Unexpected {
            at: reader.end,
            wanted: Wanted::Term,
        }),
        Some(token) => match token.kind {
            TokenKind::MiddleDot => on_type(reader, left, first, head, at + 1),
            _ => at_term(reader, left, first, head, at),
        },
    }
}

/// A type that is applied to a type, behind its `·`.
#[cycle(part)]
fn on_type(
    reader: &Reader<'_>,
    left: u32,
    first: u32,
    head: &SrcType,
    at: usize,
) -> Result<(SrcType, usize), ParseFault>
    ensures { (d : Token ℕ) → Goes reader.now (type_part first) result (Read (ClassAtom left wanteds.Ty) ∷ Test_ IsType ∷ Make m.On ∷ Test_ IsShallow ∷ []) (λ vs. m.token d ∷ m.part first head.now ∷ vs) at }
{
    let ((begin, class), at) = class_atom(reader, left, Wanted::Ty, at)?;
    let ty = reader.on_end(head, begin, class, at)?;
    Ok((ty, at))
}

/// A type that is applied to a term.
#[cycle(part)]
fn at_term(
    reader: &Reader<'_>,
    left: u32,
    first: u32,
    head: &SrcType,
    at: usize,
) -> Result<(SrcType, usize), ParseFault>
    ensures { Goes reader.now (type_part first) result (Read (m.Atom left) ∷ Make m.At ∷ Test_ IsShallow ∷ []) (λ vs. m.part first head.now ∷ vs) at }
{
    let ((_, arg), at) = atom(reader, left, at)?;
    let ty = reader.at_end(head, &arg, at)?;
    Ok((ty, at))
}

/// A class, where nesting may still rise so often. Where arguments are counted, so many may still come.
#[cycle(part)]
pub fn class(
    reader: &Reader<'_>,
    left: u32,
    count: Option<u32>,
    wanted: Wanted,
    at: usize,
) -> Result<((u32, SrcClass), usize), ParseFault>
    ensures { ClassGives reader.now result left count wanted at }
{
    if left == 0 {
        return Err(reader.deep_class(wanted, at));
    }
    class_form(reader, left - 1, count, wanted, at)
}
