//! The words of reasons, and of what a grammar wants.
ghost use Rattle.std.specs.Prelude.{◌≡◌};
ghost use Rattle.build_outcome.specs.Reports.{why_word};
ghost use Rattle.build_outcome.specs.Words.{code_word, surface_word};
ghost use Rattle.source_model.specs.SurfaceTokens.{spelling};
ghost use Rattle.std.specs.Str.{encode_utf8_all};

use core_tree::Why;
use elab_model::Code;
use source_model::{TokenKind, Wanted};

/// Why Core's rules refuse.
pub(crate) fn why_text(why: &Why) -> &'static str
    ensures { result.now ≡ why_word why.now }
{
    match why {
        Why::NotAFunction { .. } => "not a function",
        Why::NotAnIntersection { .. } => "not an intersection",
        Why::NotAnEquation { .. } => "not an equation",
        Why::WrongKind { .. } => "wrong kind",
        Why::Mismatch { .. } => "mismatch",
        Why::ErasedUse => "erased variable used",
        Why::PartsDiffer { .. } => "parts differ",
        Why::NotBooleans { .. } => "not booleans",
        Why::SidesDiffer { .. } => "sides differ",
    }
}

/// Why the surface rules refuse, with the code.
pub(crate) fn code_text(code: Code) -> &'static str
    ensures { result.now ≡ code_word code }
{
    match code {
        Code::WantedFunction => "J1 wanted function",
        Code::WantedIntersection => "J2 wanted intersection",
        Code::WantedEquation => "J3 wanted equation",
        Code::WantedKind => "J4 wanted kind",
        Code::Mismatch => "J5 mismatch",
        Code::ErasedVariableUsed => "J6 erased variable used",
        Code::PartsDiffer => "J7 parts differ",
        Code::NotTheTwoBooleans => "J8 not the two booleans",
        Code::SidesDiffer => "J9 sides differ",
        Code::ArgumentLeftOpen => "J10 argument left open",
        Code::AnnotationWanted => "J11 annotation wanted",
        Code::WrongBranches => "J12 wrong branches",
    }
}

/// What the grammar of surface text wants.
pub fn wanted_text(wanted: Wanted) -> &'static str
    ensures { result.now ≡ surface_word wanted }
{
    match wanted {
        Wanted::Name => "name",
        Wanted::Item => "item",
        Wanted::Ty => "type",
        Wanted::Kind => "kind",
        Wanted::Class => "class",
        Wanted::Term => "term",
        Wanted::Branch => "branch",
        Wanted::Token(kind) => token_text(kind),
    }
}

/// How the token is spelled; a name has no spelling of its own.
fn token_text(kind: TokenKind) -> &'static str
    ensures { result.now ≡ encode_utf8_all (spelling kind) }
{
    match kind {
        TokenKind::Lambda => "λ",
        TokenKind::BigLambda => "Λ",
        TokenKind::BigPi => "Π",
        TokenKind::Iota => "ι",
        TokenKind::Beta => "β",
        TokenKind::Rho => "ρ",
        TokenKind::Phi => "φ",
        TokenKind::Delta => "δ",
        TokenKind::Chi => "χ",
        TokenKind::FinalSigma => "ς",
        TokenKind::Mu => "μ",
        TokenKind::Sigma => "σ",
        TokenKind::Star => "★",
        TokenKind::ForAll => "∀",
        TokenKind::Arrow => "➔",
        TokenKind::ErasedArrow => "➾",
        TokenKind::Equal => "≃",
        TokenKind::MiddleDot => "·",
        TokenKind::First => ".1",
        TokenKind::Second => ".2",
        TokenKind::Period => ".",
        TokenKind::Colon => ":",
        TokenKind::Is => "=",
        TokenKind::Open => "(",
        TokenKind::Close => ")",
        TokenKind::OpenBracket => "[",
        TokenKind::CloseBracket => "]",
        TokenKind::OpenBrace => "{",
        TokenKind::CloseBrace => "}",
        TokenKind::Less => "<",
        TokenKind::Greater => ">",
        TokenKind::Comma => ",",
        TokenKind::Bar => "|",
        TokenKind::Minus => "-",
        TokenKind::At => "@",
        TokenKind::Hash => "#",
        TokenKind::Module => "module",
        TokenKind::Import => "import",
        TokenKind::Data => "data",
        TokenKind::Name => "",
    }
}
