//! The first faults of scope, each at the name between the two marks `¦` of its row; all were worked out by hand.
use crate::read::{Row, exports_of, scope_of};
use cdle_names::{NameTable, Span};
use std::alloc::Global;
use std::test::Fail;
use surf_scope::ScopeFault;

/// The modules before each module `m`.
const KNOWN: &[Row] = &[
    (
        "prelude",
        "module prelude. Top : ★ = ∀ X : ★ . X . top : Top = β .",
    ),
    (
        "nat",
        "module nat. data Nat : ★ = | zero : Nat | succ : Nat ➔ Nat .",
    ),
    ("other", "module other. hidden : Top = top ."),
];

/// Names that stand for nothing.
const UNBOUND: &[&str] = &[
    "a : ¦b¦ = b .",
    "a : Top = ¦b¦ .",
    "a : Top = ¦a¦ .",
    "A : ★ = ¦A¦ .",
    "a : ¦A¦ = top . A : ★ = Top .",
    "a : Top = λ x . x ¦x'¦ .",
    "a : Top = (λ x . x) ¦x¦ .",
    "a : Top = ¦zero¦ .",
    "import nat. a : Nat = ¦one¦ .",
    "a : ¦nat#Nat¦ = top .",
    "a : Top = ¦other#hidden¦ .",
    "import nat. a : Top = ¦hidden¦ .",
    "import nat. a : ¦nat#Top¦ = top .",
    "a : Top = ¦m#top¦ .",
    "a : Top = ¦m#a¦ .",
    "a : Top = λ x . ¦m#x¦ .",
    "a : ¦missing#A¦ = top .",
    "a : ¦prelude#Nat¦ = top .",
    "import absent. a : ¦absent#A¦ = top .",
    // constructors and generated items are not in scope in their own declaration
    "data D : ★ = | c : D | d : { ¦c¦ ≃ c } ➔ D .",
    "data D : ★ = | c : { ¦D/mu¦ ≃ D/mu } ➔ D .",
    "data D : ★ = | c : ¦D/F¦ ➔ D .",
    "data D (A : ¦D¦) : ★ = | c : D .",
    "data D (A : ¦B¦) (B : ★) : ★ = .",
    "data D (A : ★) : ★ = . a : ¦A¦ = top .",
    // nothing is bound outside of a branch
    "import nat. a : Nat = μ r . ¦r¦ { | zero ➔ zero } .",
    "import nat. a : Nat = μ r . zero @ ¦Type/r¦ { | zero ➔ zero } .",
    "import nat. a : Nat = μ r . zero { | succ p ➔ zero | zero ➔ ¦p¦ } .",
    "import nat. a : Nat = σ zero { | succ p ➔ ¦r¦ } .",
    "import nat. a : Nat = λ r . ¦to/r¦ .",
    "import nat. a : Nat = λ r . λ x : ¦Type/r¦ . x .",
    "import nat. a : Nat = σ zero { | ¦one¦ ➔ zero } .",
    // the first of several
    "a : Top = [¦b¦, c] .",
    "a : Top = ρ ¦b¦ @ x . { c ≃ d } - e .",
    "a : Top = φ ¦b¦ - c { d } .",
    "a : Top = top . b : ¦B¦ = c . a : Top = top .",
    "data D : ★ = | c : ¦B¦ ➔ D | c : D .",
];

/// Types where terms are wanted, or the other way round.
const CLASSES: &[&str] = &[
    "a : Top = ¦Top¦ .",
    "a : ¦top¦ = top .",
    "A : ★ = ¦top¦ .",
    "A : ¦top¦ ➔ ★ = Top .",
    "A : Π x : ¦top¦ . ★ = Top .",
    "a : Π x : ¦top¦ . Top = top .",
    "a : Top ➔ ¦top¦ = top .",
    "a : ι x : Top . ¦x¦ = top .",
    "a : { ¦Top¦ ≃ top } = top .",
    "a : { top ≃ ¦Top¦ } = top .",
    "a : ∀ X : ★ . { ¦X¦ ≃ top } = top .",
    "a : ∀ x : Top . ¦x¦ = top .",
    "A : ★ = Top ¦Top¦ .",
    "A : ★ = Top ·¦top¦ .",
    "A : ★ = ¦top¦ ·Top .",
    "a : Top = ¦Top¦ top .",
    "a : Top = top ¦Top¦ .",
    "a : Top = top -¦Top¦ .",
    "a : Top = top ·¦top¦ .",
    "a : Top = λ x : ¦top¦ . x .",
    "a : Top = λ x : Top . top ·¦x¦ .",
    "a : Top = Λ X : ★ . ¦X¦ .",
    "a : Top = Λ x : Top . top ·¦x¦ .",
    "a : Top = [¦Top¦, top] .",
    "a : Top = ¦Top¦.1 .",
    "a : Top = ς ¦Top¦ .",
    "a : Top = β<¦Top¦> .",
    "a : Top = β{¦Top¦} .",
    "a : Top = χ ¦top¦ - top .",
    "a : Top = χ Top - ¦Top¦ .",
    "a : Top = δ ¦top¦ - top .",
    "a : Top = δ Top - ¦Top¦ .",
    "a : Top = ρ ¦Top¦ @ x . Top - top .",
    "a : Top = ρ top @ x . ¦x¦ - top .",
    "a : Top = ρ top @ x . Top - ¦Top¦ .",
    "a : Top = φ ¦Top¦ - top { top } .",
    "a : Top = φ top - ¦Top¦ { top } .",
    "a : Top = φ top - top { ¦Top¦ } .",
    "import nat. a : Nat = σ ¦Nat¦ { } .",
    "import nat. a : Nat = σ zero @ ¦zero¦ { } .",
    "import nat. a : Nat = σ zero { | ¦Nat¦ ➔ zero } .",
    "import nat. a : Nat = σ zero { | zero ➔ ¦Nat¦ } .",
    "import nat. a : Nat = σ zero { | succ ·p ➔ ¦p¦ } .",
    "import nat. a : Nat = σ zero { | succ p ➔ zero ·¦p¦ } .",
    "import nat. a : Nat = σ zero { | succ -p ➔ zero ·¦p¦ } .",
    "import nat. a : Nat = μ r . zero { | succ p ➔ ¦Type/r¦ } .",
    "import nat. a : Nat = μ r . zero { | succ p ➔ zero ·¦to/r¦ } .",
    "import nat. a : Nat = μ r . zero { | succ p ➔ zero ·¦r¦ } .",
    "data D (x : ¦top¦) : ★ = .",
    "data D (x : Top) : ★ = | c : ¦x¦ ➔ D .",
    "data D (A : ★) : ★ = | c : { ¦A¦ ≃ top } ➔ D .",
    "data D : ★ = | c : { ¦D¦ ≃ top } ➔ D .",
    // a `Λ` whose first use is a type, and the second a term, and the other way round
    "a : Top = Λ X . λ x : X . ¦X¦ .",
    "a : Top = Λ x . λ f . f x ·¦x¦ .",
    "a : Top = Λ x . λ f . f (λ x : x . x) ¦x¦ .",
];

/// Items whose name an earlier one has.
const TWICE: &[&str] = &[
    "A : ★ = Top . ¦A¦ : ★ = Top .",
    "a : Top = top . ¦a¦ : ★ = Top .",
    "a : Top = top . ¦a¦ : b = c .",
    "data D : ★ = . ¦D¦ : ★ = Top .",
    "data D : ★ = . ¦D/F¦ : ★ = Top .",
    "data D : ★ = . ¦D/mono¦ : Top = top .",
    "data D : ★ = . ¦D/mu¦ : Top = top .",
    "data D : ★ = . ¦D/sigma¦ : Top = top .",
    "data D : ★ = | c : D . ¦c¦ : Top = top .",
    "D/F : ★ = Top . data ¦D¦ : ★ = .",
    "D/sigma : Top = top . data ¦D¦ (A : b) : ★ = .",
    "data D : ★ = . data ¦D¦ : ★ = .",
    "c : Top = top . data D : ★ = | ¦c¦ : D .",
    "data D : ★ = | c : D | ¦c¦ : b .",
    "data D : ★ = | ¦D¦ : D .",
    "data D : ★ = | ¦D/F¦ : D .",
    "data D : ★ = | ¦D/mu¦ : D .",
    "data D : ★ = | c : D | ¦D/sigma¦ : D .",
    "data D : ★ = | c : D . data E : ★ = | ¦c¦ : E .",
];

/// A row without its marks behind `module m.`, with the place between them.
fn unmarked(alloc: Global, row: &str) -> Result<Option<(String, Span)>, Fail> {
    let Some((front, rest)) = row.split_once('¦') else {
        return Ok(None);
    };
    let Some((word, behind)) = rest.split_once('¦') else {
        return Ok(None);
    };
    let text = format!(in alloc; "module m.{front}{word}{behind}")?;
    let from = front.len().saturating_add(9);
    let to = from.saturating_add(word.len());
    match (u32::try_from(from), u32::try_from(to)) {
        (Ok(from), Ok(to)) => Ok(Some((text, Span { from, to }))),
        _ => Ok(None),
    }
}

/// The fault of the module `m`.
fn fault_of(alloc: Global, text: &str) -> Option<ScopeFault> {
    let mut names = NameTable::new(alloc);
    let exports = exports_of(alloc, KNOWN, &mut names)?;
    match scope_of(alloc, "m", text, &exports, &mut names) {
        Some(Err(fault)) => Some(fault),
        _ => None,
    }
}

#[test]
fn unbound_names(rt: HostRuntime) -> Result<(), Fail> {
    for row in UNBOUND {
        if let Some((text, span)) = unmarked(rt.alloc(), row)? {
            assert_eq!(rt;
                fault_of(rt.alloc(), text.as_str()),
                Some(ScopeFault::Unbound { span }),
                "of {row}"
            );
        }
    }
    Ok(())
}

#[test]
fn wrong_classes(rt: HostRuntime) -> Result<(), Fail> {
    for row in CLASSES {
        if let Some((text, span)) = unmarked(rt.alloc(), row)? {
            assert_eq!(rt;
                fault_of(rt.alloc(), text.as_str()),
                Some(ScopeFault::WrongClass { span }),
                "of {row}"
            );
        }
    }
    Ok(())
}

#[test]
fn names_given_twice(rt: HostRuntime) -> Result<(), Fail> {
    for row in TWICE {
        if let Some((text, span)) = unmarked(rt.alloc(), row)? {
            assert_eq!(rt;
                fault_of(rt.alloc(), text.as_str()),
                Some(ScopeFault::Twice { span }),
                "of {row}"
            );
        }
    }
    Ok(())
}

/// All rows have both marks.
#[test]
fn rows_are_marked(rt: HostRuntime) -> Result<(), Fail> {
    for row in UNBOUND {
        assert!(rt; unmarked(rt.alloc(), row)?.is_some(), "of {row}");
    }
    for row in CLASSES {
        assert!(rt; unmarked(rt.alloc(), row)?.is_some(), "of {row}");
    }
    for row in TWICE {
        assert!(rt; unmarked(rt.alloc(), row)?.is_some(), "of {row}");
    }
    Ok(())
}
