//! The first faults of modules, each at the place that a `¦` marks in its row; all were worked out by hand.
use cdle_names::NameTable;
use source_model::{TokenKind, Wanted};
use std::alloc::Global;
use std::test::Fail;
use surf_lex::{LexFault, lex};
use surf_parse::{ParseFault, parse};
use surf_tree::SrcModule;

/// What is wanted at the mark. Each row is a module `m` whole, or what stands behind `module m.` and a line feed.
const WANTED: &[(&str, Wanted)] = &[
    ("a ¦★ = A .", Wanted::Token(TokenKind::Colon)),
    ("a : ★ ¦.", Wanted::Token(TokenKind::Is)),
    ("a : A = x ¦:", Wanted::Token(TokenKind::Period)),
    ("a : A = x¦", Wanted::Token(TokenKind::Period)),
    ("a : Π x ¦. A", Wanted::Token(TokenKind::Colon)),
    ("a : Π x : A ¦= B .", Wanted::Token(TokenKind::Period)),
    ("a : (A ¦.", Wanted::Token(TokenKind::Close)),
    ("a : { x ¦} = x .", Wanted::Token(TokenKind::Equal)),
    ("a : { x ≃ y ¦] = x .", Wanted::Token(TokenKind::CloseBrace)),
    ("a : A = [x ¦] .", Wanted::Token(TokenKind::Comma)),
    ("a : A = [x, y ¦) .", Wanted::Token(TokenKind::CloseBracket)),
    ("a : A = β<x ¦} .", Wanted::Token(TokenKind::Greater)),
    ("a : A = β{x ¦> .", Wanted::Token(TokenKind::CloseBrace)),
    ("a : A = λ x ¦x .", Wanted::Token(TokenKind::Period)),
    ("a : A = ρ q ¦x .", Wanted::Token(TokenKind::At)),
    ("a : A = ρ q @ x . G ¦.", Wanted::Token(TokenKind::Minus)),
    ("a : A = φ q ¦{ x } .", Wanted::Token(TokenKind::Minus)),
    ("a : A = φ q - t ¦.", Wanted::Token(TokenKind::OpenBrace)),
    ("a : A = δ ¦.", Wanted::Token(TokenKind::Minus)),
    ("a : A = δ A ¦.", Wanted::Token(TokenKind::Minus)),
    ("a : A = χ A ¦.", Wanted::Token(TokenKind::Minus)),
    ("a : A = μ r ¦x { } .", Wanted::Token(TokenKind::Period)),
    ("a : A = μ r . x ¦.", Wanted::Token(TokenKind::OpenBrace)),
    ("a : A = σ x @ Q ¦.", Wanted::Token(TokenKind::OpenBrace)),
    ("a : A = σ x { | c y ¦} .", Wanted::Token(TokenKind::Arrow)),
    ("data D ¦= .", Wanted::Token(TokenKind::Colon)),
    ("data D (A ¦) : ★ = .", Wanted::Token(TokenKind::Colon)),
    ("data D (A : ★ ¦: ★ = .", Wanted::Token(TokenKind::Close)),
    ("data D : ¦A = .", Wanted::Token(TokenKind::Star)),
    ("data D : ★ ¦.", Wanted::Token(TokenKind::Is)),
    ("data D : ★ = ¦x", Wanted::Token(TokenKind::Period)),
    ("data D : ★ = | c ¦D .", Wanted::Token(TokenKind::Colon)),
    ("import a¦", Wanted::Token(TokenKind::Period)),
    ("a : Π ¦★ : A . B = x .", Wanted::Name),
    ("a : A = λ ¦. x .", Wanted::Name),
    ("a : M#¦. = x .", Wanted::Name),
    ("a : A = M#¦.", Wanted::Name),
    ("a : A = ρ q @ ¦. G - t .", Wanted::Name),
    ("a : A = μ ¦. x { } .", Wanted::Name),
    ("a : A = σ x { | ¦➔ y } .", Wanted::Name),
    ("a : A = σ x { | c -¦➔ y } .", Wanted::Name),
    ("a : A = σ x { | c ·¦➔ y } .", Wanted::Name),
    ("data ¦: ★ = .", Wanted::Name),
    ("data D (¦: ★) : ★ = .", Wanted::Name),
    ("data D : ★ = | ¦: D .", Wanted::Name),
    ("import ¦.", Wanted::Name),
    ("import ¦prelude.", Wanted::Name),
    ("import ¦a/b.", Wanted::Name),
    ("¦★", Wanted::Item),
    ("a : ★ = A . ¦.", Wanted::Item),
    ("a : ★ = A . ¦import b.", Wanted::Item),
    ("a : ¦= A .", Wanted::Class),
    ("a : (¦) = A .", Wanted::Class),
    ("a : Π x : ¦. A = x .", Wanted::Class),
    ("a : Π x : A . ¦= x .", Wanted::Class),
    ("a : A ➔ ¦= x .", Wanted::Class),
    ("a : A = λ x : ¦. x .", Wanted::Ty),
    ("a : A = Λ x : ¦. x .", Wanted::Class),
    ("a : A = f ·(¦) .", Wanted::Class),
    ("a : Π X : ★ . ¦= A .", Wanted::Kind),
    ("a : ★ ➔ ¦= A .", Wanted::Kind),
    ("a : ∀ X : ★ . ¦= x .", Wanted::Ty),
    ("a : A ➾ ¦= x .", Wanted::Ty),
    ("a : ★ = λ x : A . ¦.", Wanted::Ty),
    ("a : ι x : ¦. B = x .", Wanted::Ty),
    ("a : ι x : A . ¦= x .", Wanted::Ty),
    ("a : List ·¦= x .", Wanted::Ty),
    ("a : A = f ·¦.", Wanted::Ty),
    ("a : A = χ ¦- x .", Wanted::Ty),
    ("a : A = σ x @ ¦. .", Wanted::Ty),
    ("a : A = ρ q @ x . ¦- t .", Wanted::Ty),
    ("a : ★ = ¦.", Wanted::Ty),
    ("data D : ★ = | c : ¦.", Wanted::Ty),
    ("a : A = ¦.", Wanted::Term),
    ("a : A = ¦module .", Wanted::Term),
    ("a : A = f -¦.", Wanted::Term),
    ("a : A = (¦) .", Wanted::Term),
    ("a : A = ς ¦λ x . x .", Wanted::Term),
    ("a : A = μ r . ¦{ } .", Wanted::Term),
    ("a : A = σ ¦{ } .", Wanted::Term),
    ("a : { ¦≃ x } = x .", Wanted::Term),
    ("a : A = σ x { | c ➔ ¦} .", Wanted::Term),
    ("a : A = σ x { ¦x } .", Wanted::Branch),
    ("a : A = σ x { | c ➔ y ¦. .", Wanted::Branch),
];

/// A part of the wrong class, at its first token, the parenthesis included.
const CLASSES: &[(&str, Wanted)] = &[
    ("a : ★ = ¦T ➔ ★ .", Wanted::Ty),
    ("a : ★ = ¦(T ➔ ★) .", Wanted::Ty),
    ("a : ∀ X : ★ . ¦★ = x .", Wanted::Ty),
    ("a : A ➾ ¦Π X : ★ . ★ = x .", Wanted::Ty),
    ("a : ι x : ¦★ . A = x .", Wanted::Ty),
    ("a : ι x : A . ¦(★) = x .", Wanted::Ty),
    ("a : Π X : ★ . ¦(A) = A .", Wanted::Kind),
    ("a : ★ ➔ ¦A ➔ B = A .", Wanted::Kind),
    ("a : ¦★ x = A .", Wanted::Ty),
    ("a : ¦(★) ·A = A .", Wanted::Ty),
    ("a : List ·¦★ = A .", Wanted::Ty),
    ("a : A = f ·¦(★ ➔ ★) .", Wanted::Ty),
    ("a : A = λ x : ¦★ . x .", Wanted::Ty),
    ("a : A = χ ¦★ - x .", Wanted::Ty),
    ("a : A = δ ¦★ - x .", Wanted::Ty),
    ("a : A = ρ q @ x . ¦★ - t .", Wanted::Ty),
    ("a : A = σ x @ ¦★ { } .", Wanted::Ty),
    ("data D : ★ = | c : ¦A ➔ ★ .", Wanted::Ty),
];

/// Whole texts, whose module is to be `m`.
const WHOLE: &[(&str, Wanted)] = &[
    ("¦", Wanted::Token(TokenKind::Module)),
    ("¦a : ★ = A .", Wanted::Token(TokenKind::Module)),
    ("module ¦.", Wanted::Name),
    ("module m¦", Wanted::Token(TokenKind::Period)),
    ("module ¦n.", Wanted::Name),
    ("module ¦m/m.", Wanted::Name),
];

/// The module `m` that this text is.
pub(crate) fn read_module(
    alloc: Global,
    text: &str,
    names: &mut NameTable,
) -> Result<SrcModule, ParseFault> {
    if text.len() > 1_048_576 || names.len() > 1_000 {
        return Err(ParseFault::NoMemory);
    }
    match lex(alloc, text) {
        Ok(tokens) if tokens.len() <= 1_048_576 => parse(alloc, &tokens, text, "m", names),
        _ => Err(ParseFault::NoMemory),
    }
}

/// Whether the text without its mark has this fault, at the mark.
fn is_wanted(alloc: Global, before: &str, row: &str, wanted: Wanted) -> Result<bool, Fail> {
    let Some((front, behind)) = row.split_once('¦') else {
        return Ok(false);
    };
    let text = format!(in alloc; "{before}{front}{behind}")?;
    let Ok(at) = u32::try_from(before.len().saturating_add(front.len())) else {
        return Ok(false);
    };
    let mut names = NameTable::new(alloc);
    match read_module(alloc, text.as_str(), &mut names) {
        Err(fault) => Ok(fault == ParseFault::Unexpected { at, wanted }),
        Ok(module) => {
            drop(module);
            Ok(false)
        }
    }
}

#[test]
fn wanted_words(rt: HostRuntime) -> Result<(), Fail> {
    for (row, wanted) in WANTED {
        assert!(rt;
            is_wanted(rt.alloc(), "module m.\n", row, *wanted)?,
            "of {row}"
        );
    }
    Ok(())
}

#[test]
fn wrong_classes(rt: HostRuntime) -> Result<(), Fail> {
    for (row, wanted) in CLASSES {
        assert!(rt;
            is_wanted(rt.alloc(), "module m.\n", row, *wanted)?,
            "of {row}"
        );
    }
    Ok(())
}

#[test]
fn wrong_beginnings(rt: HostRuntime) -> Result<(), Fail> {
    for (row, wanted) in WHOLE {
        assert!(rt; is_wanted(rt.alloc(), "", row, *wanted)?, "of {row}");
    }
    Ok(())
}

/// Thirty lines with each form of the language.
const THIRTY: &str = "module m.\n\
import nat.\n\
import list.\n\
-- the unit, the empty type and the types of their proofs\n\
Top : ★ = { λ x . x ≃ λ x . x } .\n\
top : Top = β .\n\
Bot : ★ = ∀ X : ★ . X .\n\
id : ∀ X : ★ . X ➔ X = Λ X . λ x . x .\n\
Pair : ★ ➔ ★ ➔ ★ = λ A : ★ . λ B : ★ . ∀ C : ★ . (A ➔ B ➔ C) ➔ C .\n\
pair : ∀ A : ★ . ∀ B : ★ . A ➔ B ➔ Pair ·A ·B\n\
  = Λ A . Λ B . λ a . λ b . Λ C . λ f . f a b .\n\
{- an intersection, and a function\n\
   whose argument is erased -}\n\
Both : ★ = ι x : Top . { x ≃ x } .\n\
both : Both = [top, β<top>{λ x . x}] .\n\
first : Both ➔ Top = λ b . b.1 .\n\
drop : Top ➾ Top = Λ x : Top . β .\n\
use : Top = drop -top .\n\
back : { top ≃ id } ➔ { id ≃ top } = λ q . ς q .\n\
cast : Π q : { top ≃ id } . Top = λ q : { top ≃ id } . φ q - top { id } .\n\
absurd : { λ x . λ y . x ≃ λ x . λ y . y } ➔ Bot\n\
  = λ q . Λ X : ★ . δ X - q .\n\
data Bool : ★ = | true : Bool | false : Bool .\n\
data Tree (A : ★) (n : nat#Nat) : ★ =\n\
  | leaf : Tree\n\
  | node : A ➔ (Bool ➔ Tree) ➔ ∀ b : Bool . Tree .\n\
not : Bool ➔ Bool = λ b . σ b { | true ➔ false | false ➔ true } .\n\
size : ∀ A : ★ . Tree ·A ➔ nat#Nat = Λ A . λ t . μ r . t @ (λ x : Tree ·A . nat#Nat)\n\
  { | leaf ➔ nat#zero | node a f -b ➔ nat#succ (r (f true)) } .\n\
same : Π n : Bool . { not (not n) ≃ n } = λ n . χ { n ≃ n } - ρ (β<n>) @ z . { z ≃ n } - β .\n";

/// Whether the text is a module, or malformed.
fn is_read_or_malformed(alloc: Global, text: &str) -> bool {
    let mut names = NameTable::new(alloc);
    match read_module(alloc, text, &mut names) {
        Ok(module) => {
            drop(module);
            true
        }
        Err(ParseFault::Unexpected { .. }) => true,
        Err(_) => has_bad_tokens(alloc, text),
    }
}

/// Whether the text has a bad character, or a comment that is open.
fn has_bad_tokens(alloc: Global, text: &str) -> bool {
    if text.len() > 1_048_576 {
        return false;
    }
    match lex(alloc, text) {
        Ok(_) => false,
        Err(fault) => fault != LexFault::NoMemory,
    }
}

#[test]
fn each_beginning(rt: HostRuntime) {
    for (at, _) in THIRTY.char_indices() {
        if let Some(front) = THIRTY.get(..at) {
            assert!(rt; is_read_or_malformed(rt.alloc(), front), "to {at}");
        }
    }
    assert!(rt;
        matches!(
            read_module(rt.alloc(), THIRTY, &mut NameTable::new(rt.alloc())),
            Ok(_)
        )
    );
}
