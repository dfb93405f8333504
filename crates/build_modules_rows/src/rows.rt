//! Modules that are read from texts into one table, and taken in an order.
use build_modules::{BuildFault, core_texts};
use cdle_names::{NameTable, Span};
use std::alloc::Global;
use std::test::Fail;
use surf_source::read_source;
use surf_tree::SrcModule;

/// A module's name and its text.
type Source<'a> = (&'a str, &'a str);

/// The identity.
const IDENTITY: Source<'static> = ("m", "module m.\nid : ∀ X : ★ . X ➔ X = Λ X . λ x . x .\n");

const IDENTITY_CORE: &str =
    "core 1\n(def m.id (allt _0 * (pi _1 _0 _0)) (xlam _0 * (lam _1 _0 _1)))\n";

/// A module that uses the identity.
const USE: Source<'static> = (
    "n",
    "module n. import m.\ntwo : ∀ A : ★ . A ➔ A = Λ A . λ a . id a .\n",
);

const USE_CORE: &str =
    "core 1\n(def n.two (allt _0 * (pi _1 _0 _0)) (xlam _0 * (lam _1 _0 (app (tapp m.id _0) _1))))\n";

/// A function from types to types, of which two applications take five units.
const FUNCTION: Source<'static> = ("m", "module m.\nId : ★ ➔ ★ = λ X : ★ . X .\n");

const APPLIED: Source<'static> = (
    "n",
    "module n. import m.\ni : ∀ X : ★ . Id ·(Id ·X) ➔ X = Λ X . λ x . x .\n",
);

/// The modules that these texts are.
fn read(
    alloc: Global,
    sources: &[Source<'_>],
    names: &mut NameTable,
) -> Result<Vec<SrcModule>, Fail> {
    let mut modules = Vec::new(alloc);
    for (name, text) in sources {
        if text.len() > 1_048_576 {
            return Err(Fail::new("long"));
        }
        modules.push(read_source(alloc, text.as_bytes(), name, names)?)?;
    }
    Ok(modules)
}

/// A place as it is shown.
fn shown(alloc: Global, span: Span) -> Result<String, Fail> {
    Ok(format!(in alloc; "{}..{}", span.from, span.to)?)
}

/// Why there are no texts.
fn told(alloc: Global, fault: &BuildFault) -> Result<String, Fail> {
    let told = match fault {
        BuildFault::ManyItems { module } => format!(in alloc; "{module}: many items")?,
        BuildFault::Scope { module, fault } => format!(in alloc; "{module}: {fault:?}")?,
        BuildFault::NotBuilt { module, span } => {
            format!(in alloc; "{module}: {}: not built", shown(alloc, *span)?)?
        }
        BuildFault::Refused { module, span, code } => {
            format!(in alloc; "{module}: {}: {code:?}", shown(alloc, *span)?)?
        }
        BuildFault::Spent { module, span } => {
            format!(in alloc; "{module}: {}: spent", shown(alloc, *span)?)?
        }
        BuildFault::TooDeep { item } => format!(in alloc; "{}: too deep", item.as_str())?,
        BuildFault::NoMemory => String::from_str(alloc, "no memory")?,
    };
    Ok(told)
}

/// The texts, one behind the other.
fn joined(alloc: Global, texts: &[Vec<u8>]) -> Result<String, Fail> {
    let mut all = String::new(alloc);
    for text in texts {
        all.push_str(std::str::from_utf8(text)?)?;
    }
    Ok(all)
}

/// What these modules come to in that order: the texts one behind the other, or why there are none.
fn answer(
    alloc: Global,
    sources: &[Source<'_>],
    order: &[usize],
    budget: u64,
) -> Result<String, Fail> {
    let mut names = NameTable::new(alloc);
    let modules = read(alloc, sources, &mut names)?;
    match core_texts(alloc, &modules, order, &mut names, budget) {
        Ok(texts) => joined(alloc, &texts),
        Err(fault) => told(alloc, &fault),
    }
}

/// What the identity and a module `n` behind it come to.
fn answer_behind_identity(alloc: Global, text: &str) -> Result<String, Fail> {
    answer(alloc, &[IDENTITY, ("n", text)], &[0, 1], 200_000)
}

#[test]
fn two_modules_in_order(rt: HostRuntime) -> Result<(), Fail> {
    let alloc = rt.alloc();
    let both = format!(in alloc; "{IDENTITY_CORE}{USE_CORE}")?;
    let as_read = answer(alloc, &[IDENTITY, USE], &[0, 1], 200_000)?;
    assert_eq!(rt; as_read.as_str(), both.as_str());
    let otherwise = answer(alloc, &[USE, IDENTITY], &[1, 0], 200_000)?;
    assert_eq!(rt; otherwise.as_str(), both.as_str());
    // the import is not known before it
    let too_early = answer(alloc, &[USE, IDENTITY], &[0, 1], 200_000)?;
    assert_eq!(rt;
        too_early.as_str(),
        "0: Unbound { span: Span { from: 64, to: 66 } }"
    );
    Ok(())
}

#[test]
fn modules_by_their_numbers(rt: HostRuntime) -> Result<(), Fail> {
    let alloc = rt.alloc();
    assert_eq!(rt; answer(alloc, &[], &[], 200_000)?.as_str(), "");
    assert_eq!(rt; answer(alloc, &[IDENTITY, USE], &[], 200_000)?.as_str(), "");
    assert_eq!(rt;
        answer(alloc, &[USE, IDENTITY], &[1], 200_000)?.as_str(),
        IDENTITY_CORE
    );
    assert_eq!(rt;
        answer(alloc, &[("m", "module m.")], &[0], 200_000)?.as_str(),
        "core 1\n"
    );
    assert_eq!(rt;
        answer(alloc, &[IDENTITY], &[0, 1], 200_000)?.as_str(),
        "no memory"
    );
    Ok(())
}

#[test]
fn faults_of_the_second(rt: HostRuntime) -> Result<(), Fail> {
    let rows = [
        // what `g` stands for
        (
            "module n. import m.\nf : ★ = g .\n",
            "1: Unbound { span: Span { from: 30, to: 31 } }",
        ),
        // a datatype at its name
        (
            "module n. import m.\ndata D : ★ = | c : D .\n",
            "1: 25..26: not built",
        ),
        // the last x has the type X, and Y is wanted
        (
            "module n. import m.\na : ∀ X : ★ . ∀ Y : ★ . X ➔ Y = Λ X . Λ Y . λ x . x .\n",
            "1: 83..84: Mismatch",
        ),
        // scope is before what is not built, and that before the rules
        (
            "module n. import m.\na : ★ = id .\ndata D : ★ = | c : D .\nf : ★ = g .\n",
            "1: WrongClass { span: Span { from: 30, to: 32 } }",
        ),
    ];
    for (text, wanted) in rows.iter() {
        assert_eq!(rt; answer_behind_identity(rt.alloc(), text)?.as_str(), *wanted);
    }
    Ok(())
}

#[test]
fn stages_go_over_all_modules(rt: HostRuntime) -> Result<(), Fail> {
    let alloc = rt.alloc();
    let refused = (
        "m",
        "module m.\na : ∀ X : ★ . ∀ Y : ★ . X ➔ Y = Λ X . Λ Y . λ x . x .\n",
    );
    let unbound = ("n", "module n. import m.\nf : ★ = g .\n");
    let datatype = ("n", "module n. import m.\ndata D : ★ = | c : D .\n");
    let rows = [
        (
            [refused, unbound],
            "1: Unbound { span: Span { from: 30, to: 31 } }",
        ),
        ([refused, datatype], "1: 25..26: not built"),
        (
            [refused, USE],
            "1: Unbound { span: Span { from: 64, to: 66 } }",
        ),
        ([refused, ("n", "module n.")], "0: 73..74: Mismatch"),
    ];
    for (sources, wanted) in rows.iter() {
        assert_eq!(rt; answer(alloc, sources, &[0, 1], 200_000)?.as_str(), *wanted);
    }
    Ok(())
}

#[test]
fn budgets(rt: HostRuntime) -> Result<(), Fail> {
    let alloc = rt.alloc();
    let both =
        "core 1\n(type m.Id (kpit _0 * *) (xtlam _0 * _0))\ncore 1\n(def n.i (allt _0 * (pi _1 (on m.Id (on m.Id _0)) _0)) (xlam _0 * (lam _1 (on m.Id (on m.Id _0)) _1)))\n";
    let rows = [(5, both), (4, "1: 74..75: spent"), (2, "0: 29..43: spent")];
    for (budget, wanted) in rows.iter() {
        assert_eq!(rt;
            answer(alloc, &[FUNCTION, APPLIED], &[0, 1], *budget)?.as_str(),
            *wanted
        );
    }
    Ok(())
}

/// An equation of a term that grows as it is contracted, without end, in a module behind the identity.
#[test]
fn too_deep_item(rt: HostRuntime) -> Result<(), Fail> {
    let alloc = rt.alloc();
    let grow = "(λ x . λ a . x x ((λ y . y) a))";
    let text = format!(in alloc;
        "module n. import m.\nT : ★ = ∀ X : ★ . X .\nh : {{ {grow} {grow} (λ z . z) ≃ λ x . x }} = β .\n"
    )?;
    assert_eq!(rt;
        answer_behind_identity(alloc, &text)?.as_str(),
        "n.h: too deep"
    );
    Ok(())
}

/// A module of so many items, each a type.
fn types(alloc: Global, name: &str, count: u32) -> Result<String, Fail> {
    let mut text = format!(in alloc; "module {name}.\n")?;
    for number in 0..count {
        text.push_str(&format!(in alloc; "t{number}:★=∀X:★.X.\n")?)?;
    }
    Ok(text)
}

/// What a module of so many items, one of so many others, and one of one item come to.
fn answer_of_items(alloc: Global, count: u32, others: u32) -> Result<String, Fail> {
    let first = types(alloc, "a", count)?;
    let second = types(alloc, "b", others)?;
    let sources = [
        ("a", first.as_str()),
        ("b", second.as_str()),
        ("c", "module c.\nt:★=∀X:★.X.\n"),
    ];
    answer(alloc, &sources, &[0, 1, 2], 200_000)
}

#[test]
fn most_items_of_all(rt: HostRuntime) -> Result<(), Fail> {
    let alloc = rt.alloc();
    assert_eq!(rt;
        answer_of_items(alloc, 5_000, 5_001)?.as_str(),
        "1: many items"
    );
    assert_eq!(rt;
        answer_of_items(alloc, 5_000, 5_000)?.as_str(),
        "2: many items"
    );
    assert_eq!(rt;
        answer_of_items(alloc, 10_001, 0)?.as_str(),
        "0: many items"
    );
    let most = answer_of_items(alloc, 5_000, 4_999)?;
    assert!(rt;
        most.as_str()
            .starts_with("core 1\n(type a.t0 * (allt _0 * _0))\n")
    );
    assert!(rt;
        most.as_str()
            .ends_with("core 1\n(type c.t * (allt _0 * _0))\n")
    );
    Ok(())
}
