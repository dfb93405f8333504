//! Reading the parameters and the constructors of datatypes.
ghost use Rattle.std.specs.Prelude.{◌≡◌, ◌∷◌, ◌<◌, [], ℕ, List, pred, leb, Ok, Some};
ghost use Rattle.source_model.specs.Heights.{arguments_of};
ghost use Rattle.source_model.specs.Grammar.{Constructors, HasFewArguments, Parameters, Read, Token, Value};
ghost use Rattle.source_model.specs.Grammar as m;
ghost use Rattle.source_model.specs.Parsing.{one};
ghost use Rattle.source_model.specs.Made.{a_parameter};
ghost use Rattle.surf_tree.specs.Forms.{class_tree};
ghost use Rattle.surf_tree.specs.Items.{parameter_of};
ghost use Rattle.surf_reader.specs.View.{Goes, Tested, Told, given_of, here, token_of};
ghost use Rattle.surf_parse.specs.Outer.{ConstructorTree, ParameterTree, Repeats, row_of_constructor, constructor_on, constructors_of, row_of_parameter, parameter_on, parameters_of};

use crate::item::OUTERMOST;
use cdle_model::Count;
use source_model::{TokenKind, Wanted};
use surf_part::class;
use surf_reader::{Named, ParseFault, Reader};
use surf_tree::{SrcClass, SrcCtor, SrcParam, SrcType, SrcTypeForm};

/// The most parameters of a datatype.
const MOST_PARAMETERS: u32 = 16;

/// The most constructors of a datatype.
const MOST_CONSTRUCTORS: u32 = 64;

/// The most arguments of a constructor.
const MOST_ARGUMENTS: u32 = 32;

/// Whether a constructor of that type has at most so many arguments.
fn has_at_most(ty: &SrcType, left: u32) -> bool
    ensures { result ≡ leb (arguments_of ty.now) left }
{
    match ty.form() {
        SrcTypeForm::Pi { part, .. } => left > 0 && has_at_most(part, left - 1),
        SrcTypeForm::All { part, .. } => left > 0 && has_at_most(part, left - 1),
        SrcTypeForm::Allt { part, .. } => left > 0 && has_at_most(part, left - 1),
        _ => true,
    }
}

/// A parameter of its name and its class.
fn a_parameter(name: Named, class: SrcClass) -> SrcParam
    ensures { parameter_of result ≡ a_parameter (token_of name) (class_tree class) }
{
    match class {
        SrcClass::OfType(ty) => {
            ty.levels();
            SrcParam {
                name: name.name,
                span: name.span,
                class: SrcClass::OfType(ty),
            }
        }
        SrcClass::OfKind(kind) => {
            kind.levels();
            SrcParam {
                name: name.name,
                span: name.span,
                class: SrcClass::OfKind(kind),
            }
        }
    }
}

/// That a constructor of that type has not too many arguments.
fn few_arguments(reader: &Reader<'_>, first: u32, ty: &SrcType) -> Result<(), ParseFault>
    ensures { (at : ℕ) → Tested reader.now (λ u vs. m.part first ty.now ∷ vs) result HasFewArguments (λ vs. m.part first ty.now ∷ vs) at }
{
    if has_at_most(ty, MOST_ARGUMENTS) {
        Ok(())
    } else {
        Err(ParseFault::TooMany {
            at: first,
            what: Count::Arguments,
        })
    }
}

/// A parameter, behind its parenthesis.
fn parameter_behind(reader: &Reader<'_>, at: usize) -> Result<(SrcParam, usize), ParseFault>
    ensures { (d : Token ℕ) (ps : List ParameterTree) → Goes reader.now (λ p vs. parameter_on ps vs p) result row_of_parameter (λ vs. m.token d ∷ m.parameters ps ∷ vs) at }
{
    let (name, at) = reader.binding(at)?;
    let (_, at) = reader.sign(TokenKind::Colon, at)?;
    let ((_, class), at) = class(reader, OUTERMOST, None, Wanted::Class, at)?;
    let (_, at) = reader.sign(TokenKind::Close, at)?;
    Ok((a_parameter(name, class), at))
}

/// The parameter that is next, if one is, where so many may still come.
fn parameter(
    reader: &Reader<'_>,
    room: u32,
    at: usize,
) -> Result<Option<(SrcParam, usize)>, ParseFault>
    ensures repeats { (ps : List ParameterTree) (vs : List (Value ℕ)) → Repeats reader.now (Parameters room) (Parameters (pred room)) (m.parameters ps ∷ vs) (parameter_on ps vs) at result }
    ensures within { (x : _) → result ≡ Ok (Some x) → 0 < room }
{
    match reader.taken(TokenKind::Open, at) {
        None => Ok(None),
        Some(token) => {
            if room == 0 {
                return Err(ParseFault::TooMany {
                    at: token.span.from,
                    what: Count::Parameters,
                });
            }
            Ok(Some(parameter_behind(reader, at + 1)?))
        }
    }
}

/// All the parameters of a datatype.
pub(crate) fn parameters(
    reader: &Reader<'_>,
    at: usize,
) -> Result<(Vec<SrcParam>, usize), ParseFault>
    ensures { Told reader.now parameters_of result (λ vs. one (given_of reader.now) (Read (Parameters 16)) (here reader.now at (m.parameters [] ∷ vs))) }
{
    let mut list = Vec::new(reader.alloc);
    let mut room = MOST_PARAMETERS;
    let mut to = at;
    'parameters: while let Some((parameter, next)) = parameter(reader, room, to)? {
        list.push(parameter)?;
        room -= 1;
        to = next;
    }
    Ok((list, to))
}

/// A constructor, behind its `|`.
fn constructor_behind(reader: &Reader<'_>, at: usize) -> Result<(SrcCtor, usize), ParseFault>
    ensures { (d : Token ℕ) (cs : List ConstructorTree) → Goes reader.now (λ c vs. constructor_on cs vs c) result row_of_constructor (λ vs. m.token d ∷ m.constructors cs ∷ vs) at }
{
    let (name, at) = reader.binding(at)?;
    let (_, at) = reader.sign(TokenKind::Colon, at)?;
    let ((first, class), at) = class(reader, OUTERMOST, Some(MOST_ARGUMENTS), Wanted::Ty, at)?;
    let ty = reader.as_type(first, class)?;
    few_arguments(reader, first, &ty)?;
    let constructor = SrcCtor {
        name: name.name,
        span: name.span,
        ty,
    };
    Ok((constructor, at))
}

/// The constructor that is next, if one is, where so many may still come.
fn constructor(
    reader: &Reader<'_>,
    room: u32,
    at: usize,
) -> Result<Option<(SrcCtor, usize)>, ParseFault>
    ensures repeats { (cs : List ConstructorTree) (vs : List (Value ℕ)) → Repeats reader.now (Constructors room) (Constructors (pred room)) (m.constructors cs ∷ vs) (constructor_on cs vs) at result }
    ensures within { (x : _) → result ≡ Ok (Some x) → 0 < room }
{
    match reader.taken(TokenKind::Bar, at) {
        None => Ok(None),
        Some(token) => {
            if room == 0 {
                return Err(ParseFault::TooMany {
                    at: token.span.from,
                    what: Count::Constructors,
                });
            }
            Ok(Some(constructor_behind(reader, at + 1)?))
        }
    }
}

/// All the constructors of a datatype.
pub(crate) fn constructors(
    reader: &Reader<'_>,
    at: usize,
) -> Result<(Vec<SrcCtor>, usize), ParseFault>
    ensures { Told reader.now constructors_of result (λ vs. one (given_of reader.now) (Read (Constructors 64)) (here reader.now at (m.constructors [] ∷ vs))) }
{
    let mut list = Vec::new(reader.alloc);
    let mut room = MOST_CONSTRUCTORS;
    let mut to = at;
    'constructors: while let Some((constructor, next)) = constructor(reader, room, to)? {
        list.push(constructor)?;
        room -= 1;
        to = next;
    }
    Ok((list, to))
}
