//! Reading terms.
ghost use Rattle.std.specs.Prelude.{◌≡◌, ◌<◌, ◌∷◌, [], ℕ, Ok, Some, None};
ghost use Rattle.source_model.specs.Grammar.{Read, Make, Test_, Term, Token, Atom, Spine, Class, ClassAtom, Annotation, TypeGiven, Motive, Arguments, IsType, IsShallow, any, of_type};
ghost use Rattle.source_model.specs.Grammar as m;
ghost use Rattle.source_model.specs.Rows.{argument_row, binding, sign, term_row, ◌▸◌};
ghost use Rattle.source_model.specs.Parsing.{one};
ghost use Rattle.source_model.specs.declared.token.TokenKind.TheVariants as kinds;
ghost use Rattle.source_model.specs.declared.wanted.Wanted.TheVariants as wanteds;
ghost use Rattle.surf_reader.specs.View.{Argued, Gives, Goes, Reads, Told, by, class_given_part, given_of, here, on_token, term_on, term_part, type_given};

use crate::atoms::atom;
use crate::cases::{cases, mu};
use crate::classes::{class, class_atom};
use source_model::{TokenKind, Wanted};
use surf_reader::{
    Named, ParseFault, Reader, begins_argument, begins_class_atom, between, to_term,
};
use surf_tree::{Src, SrcClass, SrcType};

/// A type behind its sign.
#[cycle(part)]
fn type_behind(
    reader: &Reader<'_>,
    left: u32,
    at: usize,
) -> Result<((u32, Option<SrcType>), usize), ParseFault>
    ensures { (d : Token ℕ) → Goes reader.now type_given result (Read (Class left of_type None) ∷ Test_ IsType ∷ Make m.Given ∷ []) (λ vs. m.token d ∷ vs) at }
{
    let ((first, class), at) = class(reader, left, None, Wanted::Ty, at)?;
    let ty = reader.as_type(first, class)?;
    Ok(((first, Some(ty)), at))
}

/// The type of a `λ`, where it has one.
#[cycle(part)]
fn annotation(
    reader: &Reader<'_>,
    left: u32,
    at: usize,
) -> Result<((u32, Option<SrcType>), usize), ParseFault>
    ensures { Gives reader.now type_given result (Annotation left of_type) at }
{
    match reader.taken(TokenKind::Colon, at) {
        Some(_) => type_behind(reader, left, at + 1),
        None => Ok(((0, None), at)),
    }
}

/// A class behind its sign.
#[cycle(part)]
fn class_behind(
    reader: &Reader<'_>,
    left: u32,
    at: usize,
) -> Result<((u32, Option<SrcClass>), usize), ParseFault>
    ensures { (d : Token ℕ) → Goes reader.now class_given_part result (Read (Class left any None) ∷ Make m.Given ∷ []) (λ vs. m.token d ∷ vs) at }
{
    let ((first, class), at) = class(reader, left, None, Wanted::Class, at)?;
    Ok(((first, Some(class)), at))
}

/// The class of a `Λ`, where it has one.
#[cycle(part)]
fn class_annotation(
    reader: &Reader<'_>,
    left: u32,
    at: usize,
) -> Result<((u32, Option<SrcClass>), usize), ParseFault>
    ensures { Gives reader.now class_given_part result (Annotation left any) at }
{
    match reader.taken(TokenKind::Colon, at) {
        Some(_) => class_behind(reader, left, at + 1),
        None => Ok(((0, None), at)),
    }
}

/// A type that is an atom, behind its sign.
#[cycle(part)]
fn motive_behind(
    reader: &Reader<'_>,
    left: u32,
    at: usize,
) -> Result<((u32, Option<SrcType>), usize), ParseFault>
    ensures { (d : Token ℕ) → Goes reader.now type_given result (Read (ClassAtom left wanteds.Ty) ∷ Test_ IsType ∷ Make m.Given ∷ []) (λ vs. m.token d ∷ vs) at }
{
    let ((first, class), at) = class_atom(reader, left, Wanted::Ty, at)?;
    let ty = reader.as_type(first, class)?;
    Ok(((first, Some(ty)), at))
}

/// The motive of `μ` and of `σ`, where one is given.
#[cycle(part)]
pub(crate) fn motive(
    reader: &Reader<'_>,
    left: u32,
    at: usize,
) -> Result<((u32, Option<SrcType>), usize), ParseFault>
    ensures { Gives reader.now type_given result (Motive left) at }
{
    match reader.taken(TokenKind::At, at) {
        Some(_) => motive_behind(reader, left, at + 1),
        None => Ok(((0, None), at)),
    }
}

/// A type that is an atom.
#[cycle(part)]
fn atom_given(
    reader: &Reader<'_>,
    left: u32,
    at: usize,
) -> Result<((u32, Option<SrcType>), usize), ParseFault>
    ensures { Goes reader.now type_given result (Read (ClassAtom left wanteds.Ty) ∷ Test_ IsType ∷ []) (λ vs. vs) at }
{
    let ((first, class), at) = class_atom(reader, left, Wanted::Ty, at)?;
    let ty = reader.as_type(first, class)?;
    Ok(((first, Some(ty)), at))
}

/// The type of `δ`, where one is given.
#[cycle(part)]
fn type_of_delta(
    reader: &Reader<'_>,
    left: u32,
    at: usize,
) -> Result<((u32, Option<SrcType>), usize), ParseFault>
    ensures { Gives reader.now type_given result (TypeGiven left) at }
{
    match reader.peek(at) {
        None => Ok(((0, None), at)),
        Some(token) => {
            if begins_class_atom(token.kind) {
                atom_given(reader, left, at)
            } else {
                Ok(((0, None), at))
            }
        }
    }
}

/// What stands behind `λ`.
#[cycle(part)]
fn lam(
    reader: &Reader<'_>,
    left: u32,
    letter: Named,
    at: usize,
) -> Result<((u32, Src), usize), ParseFault>
    ensures { Goes reader.now term_part result (binding ∷ Read (Annotation left of_type) ∷ sign kinds.Period ∷ Read (Term left) ∷ Make m.Lam ∷ []) (on_token letter) at }
{
    let (name, at) = reader.binding(at)?;
    let ((_, ty), at) = annotation(reader, left, at)?;
    let (_, at) = reader.sign(TokenKind::Period, at)?;
    let ((_, part), at) = term(reader, left, at)?;
    let term = Src::lam(reader.alloc, to_term(letter, &part), name.name, ty, &part)?;
    Ok(((letter.span.from, term), at))
}

/// What stands behind `Λ`.
#[cycle(part)]
fn elam(
    reader: &Reader<'_>,
    left: u32,
    letter: Named,
    at: usize,
) -> Result<((u32, Src), usize), ParseFault>
    ensures { Goes reader.now term_part result (binding ∷ Read (Annotation left any) ∷ sign kinds.Period ∷ Read (Term left) ∷ Make m.Elam ∷ []) (on_token letter) at }
{
    let (name, at) = reader.binding(at)?;
    let ((_, class), at) = class_annotation(reader, left, at)?;
    let (_, at) = reader.sign(TokenKind::Period, at)?;
    let ((_, part), at) = term(reader, left, at)?;
    let term = reader.elam_of(letter, name, class, &part)?;
    Ok(((letter.span.from, term), at))
}

/// What stands behind `ρ`.
#[cycle(part)]
fn rho(
    reader: &Reader<'_>,
    left: u32,
    letter: Named,
    at: usize,
) -> Result<((u32, Src), usize), ParseFault>
    ensures { Goes reader.now term_part result
        (Read (Atom left) ∷ sign kinds.At ∷ binding ∷ sign kinds.Period ∷ Read (Class left of_type None) ∷ Test_ IsType ∷ sign kinds.Minus ∷ Read (Term left) ∷ Make m.Rho ∷ [])
        (on_token letter) at }
{
    let ((_, proof), at) = atom(reader, left, at)?;
    let (_, at) = reader.sign(TokenKind::At, at)?;
    let (name, at) = reader.binding(at)?;
    let (_, at) = reader.sign(TokenKind::Period, at)?;
    rewritten(reader, left, letter, &proof, name, at)
}

/// The guide of `ρ`, and what stands behind it.
#[cycle(part)]
fn rewritten(
    reader: &Reader<'_>,
    left: u32,
    letter: Named,
    proof: &Src,
    name: Named,
    at: usize,
) -> Result<((u32, Src), usize), ParseFault>
    ensures { (d e : Token ℕ) (f : ℕ) → Goes reader.now term_part result (Read (Class left of_type None) ∷ Test_ IsType ∷ sign kinds.Minus ∷ Read (Term left) ∷ Make m.Rho ∷ [])
        (λ vs. m.token d ∷ on_token name (m.token e ∷ m.part f proof.now ∷ on_token letter vs)) at }
{
    let ((first, class), at) = class(reader, left, None, Wanted::Ty, at)?;
    let guide = reader.as_type(first, class)?;
    let (_, at) = reader.sign(TokenKind::Minus, at)?;
    let ((_, part), at) = term(reader, left, at)?;
    let span = to_term(letter, &part);
    let term = Src::rho(reader.alloc, span, proof, name.name, &guide, &part)?;
    Ok(((letter.span.from, term), at))
}

/// What stands behind `φ`.
#[cycle(part)]
fn phi(
    reader: &Reader<'_>,
    left: u32,
    letter: Named,
    at: usize,
) -> Result<((u32, Src), usize), ParseFault>
    ensures { Goes reader.now term_part result
        (Read (Atom left) ∷ sign kinds.Minus ∷ Read (Atom left) ∷ sign kinds.OpenBrace ∷ Read (Term left) ∷ sign kinds.CloseBrace ∷ Make m.Phi ∷ [])
        (on_token letter) at }
{
    let ((_, proof), at) = atom(reader, left, at)?;
    let (_, at) = reader.sign(TokenKind::Minus, at)?;
    let ((_, part), at) = atom(reader, left, at)?;
    let (_, at) = reader.sign(TokenKind::OpenBrace, at)?;
    phi_part(reader, left, letter, &proof, &part, at)
}

/// The term that `φ` keeps, behind its brace.
#[cycle(part)]
fn phi_part(
    reader: &Reader<'_>,
    left: u32,
    letter: Named,
    proof: &Src,
    part: &Src,
    at: usize,
) -> Result<((u32, Src), usize), ParseFault>
    ensures { (d e : Token ℕ) (f g : ℕ) → Goes reader.now term_part result (Read (Term left) ∷ sign kinds.CloseBrace ∷ Make m.Phi ∷ [])
        (λ vs. m.token d ∷ m.part f part.now ∷ m.token e ∷ m.part g proof.now ∷ on_token letter vs) at }
{
    let ((_, kept), at) = term(reader, left, at)?;
    let (close, at) = reader.sign(TokenKind::CloseBrace, at)?;
    let term = Src::phi(reader.alloc, between(letter, close), proof, part, &kept)?;
    Ok(((letter.span.from, term), at))
}

/// What stands behind `δ`.
#[cycle(part)]
fn delta(
    reader: &Reader<'_>,
    left: u32,
    letter: Named,
    at: usize,
) -> Result<((u32, Src), usize), ParseFault>
    ensures { Goes reader.now term_part result (Read (TypeGiven left) ∷ sign kinds.Minus ∷ Read (Atom left) ∷ Make m.Delta ∷ []) (on_token letter) at }
{
    let ((_, ty), at) = type_of_delta(reader, left, at)?;
    let (_, at) = reader.sign(TokenKind::Minus, at)?;
    let ((_, proof), at) = atom(reader, left, at)?;
    let term = Src::delta(reader.alloc, to_term(letter, &proof), ty, &proof)?;
    Ok(((letter.span.from, term), at))
}

/// What stands behind `χ`.
#[cycle(part)]
fn chi(
    reader: &Reader<'_>,
    left: u32,
    letter: Named,
    at: usize,
) -> Result<((u32, Src), usize), ParseFault>
    ensures { Goes reader.now term_part result (Read (ClassAtom left wanteds.Ty) ∷ Test_ IsType ∷ sign kinds.Minus ∷ Read (Term left) ∷ Make m.Chi ∷ []) (on_token letter) at }
{
    let ((first, class), at) = class_atom(reader, left, Wanted::Ty, at)?;
    let ty = reader.as_type(first, class)?;
    let (_, at) = reader.sign(TokenKind::Minus, at)?;
    let ((_, part), at) = term(reader, left, at)?;
    let term = Src::chi(reader.alloc, to_term(letter, &part), &ty, &part)?;
    Ok(((letter.span.from, term), at))
}

/// What stands behind `ς`.
#[cycle(part)]
fn flip(
    reader: &Reader<'_>,
    left: u32,
    letter: Named,
    at: usize,
) -> Result<((u32, Src), usize), ParseFault>
    ensures { Goes reader.now term_part result (Read (Atom left) ∷ Make m.Flip ∷ []) (on_token letter) at }
{
    let ((_, proof), at) = atom(reader, left, at)?;
    let term = Src::flip(reader.alloc, to_term(letter, &proof), &proof)?;
    Ok(((letter.span.from, term), at))
}

/// A term, inside which nesting may still rise so often.
#[cycle(part)]
fn term_form(reader: &Reader<'_>, left: u32, at: usize) -> Result<((u32, Src), usize), ParseFault>
    ensures { Reads reader.now term_part result (term_row left) wanteds.Term at }
{
    match reader.peek(at) {
        None => Err(ParseFault::Unexpected {
            at: reader.end,
            wanted: Wanted::Term,
        }),
        Some(token) => match token.kind {
            TokenKind::Lambda => lam(reader, left, token, at + 1),
            TokenKind::BigLambda => elam(reader, left, token, at + 1),
            TokenKind::Rho => rho(reader, left, token, at + 1),
            TokenKind::Phi => phi(reader, left, token, at + 1),
            TokenKind::Delta => delta(reader, left, token, at + 1),
            TokenKind::Chi => chi(reader, left, token, at + 1),
            TokenKind::FinalSigma => flip(reader, left, token, at + 1),
            TokenKind::Mu => mu(reader, left, token, at + 1),
            TokenKind::Sigma => cases(reader, left, token, None, at + 1),
            _ => spine(reader, left, at),
        },
    }
}

/// An atom, and the arguments behind it.
#[cycle(part)]
pub(crate) fn spine(
    reader: &Reader<'_>,
    left: u32,
    at: usize,
) -> Result<((u32, Src), usize), ParseFault>
    ensures { Gives reader.now term_part result (Spine left) at }
{
    let ((first, head), at) = atom(reader, left, at)?;
    arguments(reader, left, first, head, at)
}

/// A term with all the arguments behind it.
#[cycle(part)]
fn arguments(
    reader: &Reader<'_>,
    left: u32,
    first: u32,
    head: Src,
    at: usize,
) -> Result<((u32, Src), usize), ParseFault>
    ensures { Told reader.now term_part result (λ vs. one (given_of reader.now) (Read (Arguments left)) (here reader.now at (m.part first head ∷ vs))) }
{
    let mut now = head;
    let mut room = left;
    let mut to = at;
    'arguments: while let Some((more, next)) = argument(reader, room, first, &now, to)? {
        now = more;
        room -= 1;
        to = next;
    }
    Ok(((first, now), to))
}

/// The term with the argument that is next, if one is.
#[cycle(part)]
fn argument(
    reader: &Reader<'_>,
    left: u32,
    first: u32,
    head: &Src,
    at: usize,
) -> Result<Option<(Src, usize)>, ParseFault>
    ensures argued { Argued reader.now left first head.now at result }
    ensures nested { (x : _) → result ≡ Ok (Some x) → 0 < left }
{
    match reader.peek(at) {
        None => Ok(None),
        Some(token) => {
            if !begins_argument(token.kind) {
                return Ok(None);
            }
            if left == 0 {
                return Err(ParseFault::TooDeep {
                    at: token.span.from,
                });
            }
            Ok(Some(applied(reader, left - 1, head, at)?))
        }
    }
}

/// A term with the argument that is next.
#[cycle(part)]
fn applied(
    reader: &Reader<'_>,
    left: u32,
    head: &Src,
    at: usize,
) -> Result<(Src, usize), ParseFault>
    ensures { (first : ℕ) → Told reader.now (term_on first) result (λ vs. by (given_of reader.now) (λ t. argument_row left t ▸ (Test_ IsShallow ∷ [])) wanteds.Term (here reader.now at (m.part first head.now ∷ vs))) }
{
    match reader.peek(at) {
        None => Err(ParseFault::Unexpected {
            at: reader.end,
            wanted: Wanted::Term,
        }),
        Some(token) => match token.kind {
            TokenKind::Minus => eapp(reader, left, head, at + 1),
            TokenKind::MiddleDot => tapp(reader, left, head, at + 1),
            _ => app(reader, left, head, at),
        },
    }
}

/// A term that is applied to an erased term, behind its `-`.
#[cycle(part)]
fn eapp(reader: &Reader<'_>, left: u32, head: &Src, at: usize) -> Result<(Src, usize), ParseFault>
    ensures { (d : Token ℕ) (f : ℕ) → Goes reader.now (term_on f) result (Read (Atom left) ∷ Make m.Eapp ∷ Test_ IsShallow ∷ []) (λ vs. m.token d ∷ m.part f head.now ∷ vs) at }
{
    let ((_, arg), at) = atom(reader, left, at)?;
    let term = reader.eapp_end(head, &arg, at)?;
    Ok((term, at))
}

/// A term that is applied to a type, behind its `·`.
#[cycle(part)]
fn tapp(reader: &Reader<'_>, left: u32, head: &Src, at: usize) -> Result<(Src, usize), ParseFault>
    ensures { (d : Token ℕ) (f : ℕ) → Goes reader.now (term_on f) result (Read (ClassAtom left wanteds.Ty) ∷ Test_ IsType ∷ Make m.Tapp ∷ Test_ IsShallow ∷ []) (λ vs. m.token d ∷ m.part f head.now ∷ vs) at }
{
    let ((begin, class), at) = class_atom(reader, left, Wanted::Ty, at)?;
    let term = reader.tapp_end(head, begin, class, at)?;
    Ok((term, at))
}

/// A term that is applied to a term.
#[cycle(part)]
fn app(reader: &Reader<'_>, left: u32, head: &Src, at: usize) -> Result<(Src, usize), ParseFault>
    ensures { (f : ℕ) → Goes reader.now (term_on f) result (Read (Atom left) ∷ Make m.App ∷ Test_ IsShallow ∷ []) (λ vs. m.part f head.now ∷ vs) at }
{
    let ((_, arg), at) = atom(reader, left, at)?;
    let term = reader.app_end(head, &arg, at)?;
    Ok((term, at))
}

/// A term, where nesting may still rise so often.
#[cycle(part)]
pub fn term(reader: &Reader<'_>, left: u32, at: usize) -> Result<((u32, Src), usize), ParseFault>
    ensures { Gives reader.now term_part result (Term left) at }
{
    if left == 0 {
        return Err(reader.deep_term(at));
    }
    term_form(reader, left - 1, at)
}
