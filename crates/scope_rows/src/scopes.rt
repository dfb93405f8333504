//! Modules, each told by what its names stand for: a variable by the binders between, an item by its number among all Core items, a cast by its proof's
//! variable. All were worked out by hand.
use crate::read::{Row, exports_of, scope_of};
use crate::tell::{tell, tell_names};
use cdle_names::NameTable;
use std::alloc::Global;
use std::test::Fail;

/// One Core item.
const A: Row = ("a", "module a. T : ★ = ∀ X : ★ . X .");

const B: Row = ("b", "module b. T : ★ = ∀ X : ★ . X ➔ X . U : ★ = T .");

const PRELUDE: Row = (
    "prelude",
    "module prelude. T : ★ = ∀ X : ★ . X . unit : T = β .",
);
/// Seven Core items.
const NAT: Row = (
    "nat",
    "module nat. data Nat : ★ = | zero : Nat | succ : Nat ➔ Nat .",
);

/// Each row has the modules before a module `m`, what stands in it behind `module m.`, and what that tells.
const SCOPES: &[(&[Row], &str, &str)] = &[
    (&[], "", "from 0: "),
    (&[B], "", "from 2: "),
    // each under its own binder; nothing stands for the first X
    (
        &[],
        "id : ∀ X : ★ . X ➔ X = Λ X . λ x . x .",
        "from 0: def m.id: v0 v1 Λ v0 ",
    ),
    // items, each from those before it
    (
        &[],
        "T : ★ = ∀ X : ★ . X . a : T ➔ T = λ x . x . b : T ➔ T = λ y . a (a y) .",
        "from 0: type m.T: v0 def m.a: i0 i0 v0 def m.b: i0 i0 i1 i1 v0 ",
    ),
    // a binder hides an item, only under itself
    (
        &[],
        "T : ★ = ∀ X : ★ . X . a : T = (λ a . a) β . b : T = (λ a . a) a .",
        "from 0: type m.T: v0 def m.a: i0 v0 def m.b: i0 v0 i1 ",
    ),
    // the inner of two binders
    (
        &[],
        "K : ∀ x : (∀ X : ★ . X) . ∀ X : ★ . ∀ x : X . { x ≃ x } = Λ x . Λ X . Λ x . β .",
        "from 0: def m.K: v0 v0 v0 v0 Λ Λ Λ ",
    ),
    // the first import that has the name
    (
        &[A, B],
        "import a. import b. V : ★ = T . W : ★ = U .",
        "from 3: type m.V: i0 type m.W: i2 ",
    ),
    (
        &[A, B],
        "import b. import a. V : ★ = T .",
        "from 3: type m.V: i1 ",
    ),
    // an own item before each import, and a module's name before its item
    (
        &[A, B],
        "import a. import b. V : ★ = T . T : ★ = b#T . W : ★ = T . X : ★ = a#T . Y : ★ = m#T .",
        "from 3: type m.V: i0 type m.T: i1 type m.W: i4 type m.X: i0 type m.Y: i4 ",
    ),
    // a binder has no module before it
    (
        &[A],
        "import a. V : ★ ➔ ★ = λ T : ★ . T ➔ a#T .",
        "from 1: type m.V: v0 i0 ",
    ),
    // the prelude is hidden by an import and by an item, and is always there by its name
    (
        &[PRELUDE],
        "V : ★ = T . T : ★ = T ➔ prelude#T . W : ★ = T . X : ★ = prelude#T .",
        "from 2: type m.V: i0 type m.T: i0 i0 type m.W: i3 type m.X: i0 ",
    ),
    (
        &[PRELUDE, A],
        "import a. V : ★ = T . W : ★ = prelude#T . u : W = unit .",
        "from 3: type m.V: i2 type m.W: i0 def m.u: i4 i1 ",
    ),
    // in its own declaration the datatype is a variable, which stands inside of its parameters
    (
        &[],
        "data Nat : ★ = | zero : Nat | succ : Nat ➔ Nat . one : Nat = succ zero . two : Nat = succ one .",
        "from 0: data m.Nat 0: | m.zero: v0 | m.succ: v0 v1 def m.one: i2 i4 i3 def m.two: i2 i4 i7 ",
    ),
    (
        &[A],
        "import a. data List (A : ★) (n : T) : ★ = | nil : List | cons : A ➔ { n ≃ n } ➔ List .",
        "from 1: data m.List 1: (type) (term) i0 | m.nil: v0 | m.cons: v2 v2 v2 v2 ",
    ),
    (
        &[],
        "data D (D : ★) : ★ = | c : D ➔ D .",
        "from 0: data m.D 0: (type) | m.c: v0 v1 ",
    ),
    // generated items by their names
    (
        &[NAT],
        "import nat. V : ★ ➔ ★ = Nat/F . a : Nat = Nat/mono . b : Nat = Nat/mu . c : Nat = Nat/sigma . d : Nat = nat#Nat/mu zero succ .",
        "from 7: type m.V: i0 def m.a: i2 i1 def m.b: i2 i5 def m.c: i2 i6 def m.d: i2 i5 i3 i4 ",
    ),
    // a datatype behind another item, and what stands behind a datatype without constructors
    (
        &[],
        "T : ★ = ∀ X : ★ . X . data D : ★ = . e : D = β . f : D ➔ T = λ d . e .",
        "from 0: type m.T: v0 data m.D 1: def m.e: i3 def m.f: i3 i0 i6 ",
    ),
    // the class of a `Λ` from its first use
    (
        &[],
        "a : ∀ X : ★ . X ➔ X = Λ X . λ x : X . x .",
        "from 0: def m.a: v0 v1 Λtype v0 v0 ",
    ),
    (
        &[],
        "T : ★ = ∀ X : ★ . X . a : T ➾ T = Λ x . λ f . f -x .",
        "from 0: type m.T: v0 def m.a: i0 i0 Λterm v0 v1 ",
    ),
    // a use under a binder of the same name is none
    (
        &[],
        "T : ★ = ∀ X : ★ . X . a : T = Λ x . λ f . f (λ x . x) ·(∀ x : T . { x ≃ x }) .",
        "from 0: type m.T: v0 def m.a: i0 Λ v0 v0 i0 v0 v0 ",
    ),
    (
        &[],
        "a : ∀ X : ★ . X = Λ X : ★ . Λ x : X . x .",
        "from 0: def m.a: v0 Λtype Λterm v0 v0 ",
    ),
    // in a branch of `μ r`: the pattern's names, r, the proof, `Type/r`
    (
        &[NAT],
        "import nat. a : Nat ➔ Nat = λ n . μ r . n { | zero ➔ zero | succ p ➔ r (to/r p) } .",
        "from 7: def m.a: i2 i2 v0 i3 i3 i4 v1 c2 v0 ",
    ),
    // a pattern's name r hides r, but neither `to/r` nor `Type/r`
    (
        &[NAT],
        "import nat. a : Nat ➔ Nat = λ n . μ r . n { | succ r ➔ r (λ x : Type/r . to/r x) } .",
        "from 7: def m.a: i2 i2 v0 i4 v0 v3 c3 v0 ",
    ),
    // outside of the branches r is none, and a branch of `σ` binds its pattern alone
    (
        &[NAT],
        "import nat. a : Nat ➔ Nat = λ r . μ r . r @ (λ x : Nat . Nat) { | zero ➔ σ r { | zero ➔ zero | succ p ➔ p } } .",
        "from 7: def m.a: i2 i2 v0 i2 i2 i3 v0 i3 i3 i4 v0 ",
    ),
];

/// What the module `m` behind these tells.
fn answer(alloc: Global, before: &[Row], items: &str) -> Result<String, Fail> {
    let text = format!(in alloc; "module m.{items}")?;
    let mut names = NameTable::new(alloc);
    let Some(exports) = exports_of(alloc, before, &mut names) else {
        return Ok(String::from_str(alloc, "not known")?);
    };
    match scope_of(alloc, "m", text.as_str(), &exports, &mut names) {
        Some(Ok(module)) => tell(alloc, &module),
        Some(Err(_)) => Ok(String::from_str(alloc, "a fault")?),
        None => Ok(String::from_str(alloc, "not read")?),
    }
}

#[test]
fn names_stand_for_these(rt: HostRuntime) -> Result<(), Fail> {
    for (before, items, wanted) in SCOPES {
        assert_eq!(rt;
            answer(rt.alloc(), before, items)?.as_str(),
            *wanted,
            "of {items}"
        );
    }
    Ok(())
}

/// The names of the module's Core items.
fn names_of(alloc: Global, text: &str) -> Result<String, Fail> {
    let mut names = NameTable::new(alloc);
    let exports = surf_scope::Exports::new(alloc);
    match scope_of(alloc, "m", text, &exports, &mut names) {
        Some(Ok(module)) => tell_names(alloc, &module),
        _ => Ok(String::from_str(alloc, "none")?),
    }
}

#[test]
fn modules_give_these_names(rt: HostRuntime) -> Result<(), Fail> {
    let text =
        "module m. T : ★ = ∀ X : ★ . X . data D (A : ★) : ★ = | c : D | d : D ➔ D . e : T = β .";
    assert_eq!(rt;
        names_of(rt.alloc(), text)?.as_str(),
        "·T ·D/F D/mono ·D c d D/mu D/sigma e "
    );
    Ok(())
}
