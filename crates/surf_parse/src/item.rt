//! Reading items: definitions and datatypes.
ghost use Rattle.std.specs.Prelude.{◌≡◌, ◌∷◌, ℕ, List, false, map, true, Ok, Some};
ghost use Rattle.source_model.specs.Source.{Module};
ghost use Rattle.source_model.specs.Grammar.{Items, Token, Value};
ghost use Rattle.source_model.specs.Grammar as m;
ghost use Rattle.surf_tree.specs.Items.{item_of, parameter_of};
ghost use Rattle.source_model.specs.Heights.{is_kind};
ghost use Rattle.source_model.specs.Made.{defined};
ghost use Rattle.surf_reader.specs.View.{Goes, on_token, token_of};
ghost use Rattle.surf_parse.specs.Outer.{Advances, Repeats, constructors_row, datatype_row, definition_row, item_on, term_rows, type_rows};

use crate::data::{constructors, parameters};
use source_model::{TokenKind, Wanted};
use surf_part::{class, term};
use surf_reader::{Named, ParseFault, Reader};
use surf_tree::{Src, SrcClass, SrcItem, SrcKind, SrcParam, SrcType};

/// With the outermost term or class itself, which nests nothing, this is one more than nesting may rise.
pub(crate) const OUTERMOST: u32 = 257;

/// A definition of a term.
fn defined(name: Named, ty: SrcType, body: Src) -> SrcItem
    ensures item { item_of result ≡ defined (token_of name) ty body }
    ensures class { is_kind ty ≡ false }
{
    ty.levels();
    SrcItem::Def {
        name: name.name,
        span: name.span,
        ty,
        body,
    }
}

/// A definition of a type.
fn type_defined(name: Named, kind: SrcKind, body: SrcType) -> SrcItem
    ensures item { item_of result ≡ defined (token_of name) kind body }
    ensures class { is_kind kind ≡ true }
{
    kind.levels();
    SrcItem::TypeDef {
        name: name.name,
        span: name.span,
        kind,
        body,
    }
}

/// A definition of a term, behind its `=`.
fn term_definition(
    reader: &Reader<'_>,
    name: Named,
    ty: SrcType,
    at: usize,
) -> Result<(SrcItem, usize), ParseFault>
    ensures { (b : Module ℕ) (d e : Token ℕ) (f : ℕ) → Goes reader.now (λ i vs. item_on b vs i) result term_rows (λ vs. m.token e ∷ m.part f ty ∷ m.token d ∷ on_token name (m.module_so_far b ∷ vs)) at }
{
    let ((_, body), at) = term(reader, OUTERMOST, at)?;
    body.levels();
    let (_, at) = reader.sign(TokenKind::Period, at)?;
    Ok((defined(name, ty, body), at))
}

/// A definition of a type, behind its `=`.
fn type_definition(
    reader: &Reader<'_>,
    name: Named,
    kind: SrcKind,
    at: usize,
) -> Result<(SrcItem, usize), ParseFault>
    ensures { (b : Module ℕ) (d e : Token ℕ) (f : ℕ) → Goes reader.now (λ i vs. item_on b vs i) result type_rows (λ vs. m.token e ∷ m.part f kind ∷ m.token d ∷ on_token name (m.module_so_far b ∷ vs)) at }
{
    let ((first, class), at) = class(reader, OUTERMOST, None, Wanted::Ty, at)?;
    let body = reader.as_type(first, class)?;
    let (_, at) = reader.sign(TokenKind::Period, at)?;
    Ok((type_defined(name, kind, body), at))
}

/// A definition, behind its name.
fn definition(reader: &Reader<'_>, name: Named, at: usize) -> Result<(SrcItem, usize), ParseFault>
    ensures { (b : Module ℕ) → Goes reader.now (λ i vs. item_on b vs i) result definition_row (λ vs. on_token name (m.module_so_far b ∷ vs)) at }
{
    let (_, at) = reader.sign(TokenKind::Colon, at)?;
    let ((_, class), at) = class(reader, OUTERMOST, None, Wanted::Class, at)?;
    let (_, at) = reader.sign(TokenKind::Is, at)?;
    match class {
        SrcClass::OfType(ty) => {
            ty.levels();
            term_definition(reader, name, ty, at)
        }
        SrcClass::OfKind(kind) => {
            kind.levels();
            type_definition(reader, name, kind, at)
        }
    }
}

/// The constructors of a datatype, behind its parameters.
fn datatype_behind(
    reader: &Reader<'_>,
    name: Named,
    params: Vec<SrcParam>,
    at: usize,
) -> Result<(SrcItem, usize), ParseFault>
    ensures { (b : Module ℕ) (d : Token ℕ) → Goes reader.now (λ i vs. item_on b vs i) result constructors_row
        (λ vs. m.parameters (map parameter_of params.items) ∷ on_token name (m.token d ∷ m.module_so_far b ∷ vs)) at }
{
    let (_, at) = reader.sign(TokenKind::Colon, at)?;
    let (_, at) = reader.sign(TokenKind::Star, at)?;
    let (_, at) = reader.sign(TokenKind::Is, at)?;
    let (ctors, at) = constructors(reader, at)?;
    let (_, at) = reader.sign(TokenKind::Period, at)?;
    let item = SrcItem::Data {
        name: name.name,
        span: name.span,
        params,
        ctors,
    };
    Ok((item, at))
}

/// A datatype, behind its word.
fn datatype(reader: &Reader<'_>, word: Named, at: usize) -> Result<(SrcItem, usize), ParseFault>
    ensures { (b : Module ℕ) → Goes reader.now (λ i vs. item_on b vs i) result datatype_row (λ vs. on_token word (m.module_so_far b ∷ vs)) at }
{
    let (name, at) = reader.binding(at)?;
    let (params, at) = parameters(reader, at)?;
    datatype_behind(reader, name, params, at)
}

/// The item that is next, if one is.
pub(crate) fn item(reader: &Reader<'_>, at: usize) -> Result<Option<(SrcItem, usize)>, ParseFault>
    ensures repeats { (b : Module ℕ) (vs : List (Value ℕ)) → Repeats reader.now Items Items (m.module_so_far b ∷ vs) (item_on b vs) at result }
    ensures ahead { (x : _) → result ≡ Ok (Some x) → Advances reader.now at x.1 }
{
    match reader.peek(at) {
        None => Ok(None),
        Some(token) => match token.kind {
            TokenKind::Name => Ok(Some(definition(reader, token, at + 1)?)),
            TokenKind::Data => Ok(Some(datatype(reader, token, at + 1)?)),
            _ => Ok(None),
        },
    }
}
