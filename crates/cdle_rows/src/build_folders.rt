//! The worked calls of `build` over folders in which calls fail or reads are altered, past limits and past budgets.
use crate::calls::{only, put, run, status};
use cdle_folder::{ChangeRead, MemoryFolder, MemorySink};
use std::alloc::Global;
use std::test::Fail;

const SOURCE: &str = "module m.\nid : ∀ X : ★ . X ➔ X = Λ X . λ x . x .\n";

const CORE: &str = "core 1\n(def m.id (allt _0 * (pi _1 _0 _0)) (xlam _0 * (lam _1 _0 _1)))\n";

/// Whether the file of this name has these bytes.
fn holds(folder: &MemoryFolder, name: &str, bytes: &str) -> bool {
    match folder.file(name) {
        Some(found) => found.as_slice() == bytes.as_bytes(),
        None => false,
    }
}

/// The answer of the line over this folder, and whether `m.core` is the module's Core file, something else, or not there, as one text.
fn answer(alloc: Global, line: &str, folder: &mut MemoryFolder) -> Result<String, Fail> {
    let mut answer = run(alloc, line, folder)?;
    let left = if holds(folder, "m.core", CORE) {
        "written"
    } else if folder.file("m.core").is_some() {
        "other"
    } else {
        "none"
    };
    answer.push_str(left)?;
    Ok(answer)
}

/// The same of `build m` over the identity, where this call on the folder fails.
fn answer_where_fails(alloc: Global, call: u32) -> Result<String, Fail> {
    let mut folder = MemoryFolder::new(alloc, only(alloc, call)?, Vec::new(alloc));
    folder.add("m.cdle", SOURCE.as_bytes())?;
    answer(alloc, "build m", &mut folder)
}

#[test]
fn failing_calls(rt: HostRuntime) -> Result<(), Fail> {
    let alloc = rt.alloc();
    let rows = [
        (0, "5 cannot read m.cdle\nnone"),
        (1, "6 cannot write m.core\nnone"),
        (2, "5 cannot read m.core\nwritten"),
        (3, "0 built m modules 1 items 1\nwritten"),
    ];
    for (call, wanted) in rows.iter() {
        assert_eq!(rt; answer_where_fails(alloc, *call)?.as_str(), *wanted);
    }
    Ok(())
}

/// The same, where the read that is this call gives that byte otherwise.
fn answer_where_altered(alloc: Global, call: u32, at: u32, byte: u8) -> Result<String, Fail> {
    let mut change = Vec::new(alloc);
    change.push(ChangeRead { call, at, byte })?;
    let mut folder = MemoryFolder::new(alloc, Vec::new(alloc), change);
    folder.add("m.cdle", SOURCE.as_bytes())?;
    answer(alloc, "build m", &mut folder)
}

#[test]
fn altered_reads(rt: HostRuntime) -> Result<(), Fail> {
    let alloc = rt.alloc();
    let rows = [
        (0, 7, 110, "1 m.cdle:1:8: malformed: wanted name\nnone"),
        (
            2,
            0,
            100,
            "8 read back m.core differs at byte 0: wrote 99, read 100\nwritten",
        ),
        (
            2,
            5,
            50,
            "8 read back m.core differs at byte 5: wrote 49, read 50\nwritten",
        ),
        (2, 0, 99, "0 built m modules 1 items 1\nwritten"),
        (2, 1000, 100, "0 built m modules 1 items 1\nwritten"),
        (3, 0, 100, "0 built m modules 1 items 1\nwritten"),
    ];
    for (call, at, byte, wanted) in rows.iter() {
        let answer = answer_where_altered(alloc, *call, *at, *byte)?;
        assert_eq!(rt; answer.as_str(), *wanted);
    }
    Ok(())
}

/// Whether the read of that number gave just this file, with these bytes.
fn gave(folder: &MemoryFolder, number: usize, name: &str, bytes: &str) -> bool {
    match folder.given(number) {
        Some((read, found)) => read == name && found == bytes.as_bytes(),
        None => false,
    }
}

/// A folder with the identity, one that is refused, and an older `m.core`.
fn older_folder(alloc: Global) -> Result<MemoryFolder, Fail> {
    let mut folder = MemoryFolder::new(alloc, Vec::new(alloc), Vec::new(alloc));
    folder.add("m.cdle", SOURCE.as_bytes())?;
    folder.add("n.cdle", "module n.\na : ★ = b .".as_bytes())?;
    folder.add("m.core", b"core 1\n(older")?;
    Ok(folder)
}

#[test]
fn files_of_a_call(rt: HostRuntime) -> Result<(), Fail> {
    let alloc = rt.alloc();
    let mut folder = older_folder(alloc)?;
    let rows = [
        ("core m.core", "1 m.core:2:2: malformed: wanted item\nother"),
        ("build n", "1 n.cdle:2:9: malformed: unbound b\nother"),
        ("build none", "10 missing none.cdle\nother"),
        ("build m", "0 built m modules 1 items 1\nwritten"),
        ("core m.core", "0 accepted 1\nwritten"),
        ("build m", "0 built m modules 1 items 1\nwritten"),
    ];
    for (line, wanted) in rows.iter() {
        assert_eq!(rt; answer(alloc, line, &mut folder)?.as_str(), *wanted);
    }
    assert!(rt; holds(&folder, "m.cdle", SOURCE));
    assert!(rt; folder.file("n.core").is_none());
    assert!(rt; gave(&folder, 2, "m.cdle", SOURCE));
    assert!(rt; gave(&folder, 3, "m.core", CORE));
    Ok(())
}

/// The status of `build m` where the report is not put, with what went out and what was left.
fn answer_without_report(alloc: Global) -> Result<String, Fail> {
    let mut folder = MemoryFolder::new(alloc, Vec::new(alloc), Vec::new(alloc));
    folder.add("m.cdle", SOURCE.as_bytes())?;
    let mut out = MemorySink::new(alloc, only(alloc, 0)?, 4096)?;
    let status = status(alloc, "build m", &mut folder, &mut out)?;
    let mut answer = put(alloc, status, &out)?;
    if holds(&folder, "m.core", CORE) {
        answer.push_str("written")?;
    }
    Ok(answer)
}

#[test]
fn failing_report(rt: HostRuntime) -> Result<(), Fail> {
    assert_eq!(rt; answer_without_report(rt.alloc())?.as_str(), "6 written");
    Ok(())
}

/// The answer of the line over a folder with this file alone.
fn answer_to(alloc: Global, line: &str, source: &str) -> Result<String, Fail> {
    let mut folder = MemoryFolder::new(alloc, Vec::new(alloc), Vec::new(alloc));
    folder.add("m.cdle", source.as_bytes())?;
    answer(alloc, line, &mut folder)
}

#[test]
fn words_of_build(rt: HostRuntime) -> Result<(), Fail> {
    let alloc = rt.alloc();
    let usage = "2 usage: cdle core FILE.. | cdle build MODULE | cdle make N [--budget N]\nnone";
    let rows = [
        "build",
        "build --budget 0 m",
        "build --budget m",
        "build a/b",
        "build m.cdle",
        "build prelude",
        "build module",
        "build m m",
        "build -m",
        "build -- -m",
        "Build m",
    ];
    for line in rows.iter() {
        assert_eq!(rt;
            answer_to(alloc, line, SOURCE)?.as_str(),
            usage,
            "of {line}"
        );
    }
    let rows = [
        "build m",
        "build --budget=200000 m",
        "build --budget 10000000 -- m",
    ];
    for line in rows.iter() {
        assert_eq!(rt;
            answer_to(alloc, line, SOURCE)?.as_str(),
            "0 built m modules 1 items 1\nwritten",
            "of {line}"
        );
    }
    Ok(())
}

#[test]
fn budgets_of_omega(rt: HostRuntime) -> Result<(), Fail> {
    let omega = "module m.\na : { (λ x . x x) (λ x . x x) ≃ λ x . x } = β .\n";
    let rows = [
        ("build m", "4 m.cdle:2:45: undecided: budget 200000\nnone"),
        (
            "build --budget 7 m",
            "4 m.cdle:2:45: undecided: budget 7\nnone",
        ),
    ];
    for (line, wanted) in rows.iter() {
        assert_eq!(rt; answer_to(rt.alloc(), line, omega)?.as_str(), *wanted);
    }
    Ok(())
}

/// An equation of a term that grows as it is contracted, without end.
fn growing(alloc: Global) -> Result<String, Fail> {
    let grow = "(λ x . λ a . x x ((λ y . y) a))";
    Ok(format!(in alloc; "module m.\nh : {{ {grow} {grow} (λ z . z) ≃ λ x . x }} = β .\n")?)
}

#[test]
fn budgets_of_what_grows(rt: HostRuntime) -> Result<(), Fail> {
    let deep = growing(rt.alloc())?;
    let rows = [
        ("build m", "9 limit m.h: depth\nnone"),
        (
            "build --budget 1000 m",
            "4 m.cdle:2:95: undecided: budget 1000\nnone",
        ),
    ];
    for (line, wanted) in rows.iter() {
        assert_eq!(rt; answer_to(rt.alloc(), line, &deep)?.as_str(), *wanted);
    }
    Ok(())
}

/// The identity behind spaces, so many bytes in all.
fn answer_of_bytes(alloc: Global, bytes: usize) -> Result<String, Fail> {
    let mut source = String::from_str(alloc, SOURCE)?;
    let spaces = " ".repeat(alloc, bytes.saturating_sub(SOURCE.len()))?;
    source.push_str(&spaces)?;
    answer_to(alloc, "build m", &source)
}

#[test]
fn limit_of_bytes(rt: HostRuntime) -> Result<(), Fail> {
    let rows = [
        (1_048_576, "0 built m modules 1 items 1\nwritten"),
        (1_048_577, "9 limit m.cdle: bytes\nnone"),
    ];
    for (bytes, wanted) in rows.iter() {
        assert_eq!(rt; answer_of_bytes(rt.alloc(), *bytes)?.as_str(), *wanted);
    }
    Ok(())
}

/// The answer to a type in so many parentheses.
fn answer_of_nested(alloc: Global, deep: usize) -> Result<String, Fail> {
    let before = "(".repeat(alloc, deep)?;
    let after = ")".repeat(alloc, deep)?;
    let source = format!(in alloc;
        "module m.\nT : ★ = ∀ X : ★ . X .\na : ★ = {before}T{after} .\n"
    )?;
    answer_to(alloc, "build m", &source)
}

#[test]
fn limit_of_nesting(rt: HostRuntime) -> Result<(), Fail> {
    let rows = [
        (200, "0 built m modules 1 items 2\nother"),
        (300, "9 limit m.cdle: nesting\nnone"),
    ];
    for (deep, wanted) in rows.iter() {
        assert_eq!(rt; answer_of_nested(rt.alloc(), *deep)?.as_str(), *wanted);
    }
    Ok(())
}

/// The answer to one item more than there may be.
fn answer_of_items(alloc: Global) -> Result<String, Fail> {
    let mut source = String::from_str(alloc, "module m.\n")?;
    for number in 0..10_001 {
        source.push_str(&format!(in alloc; "t{number}:★=∀X:★.X.\n")?)?;
    }
    answer_to(alloc, "build m", &source)
}

#[test]
fn limit_of_items(rt: HostRuntime) -> Result<(), Fail> {
    assert_eq!(rt;
        answer_of_items(rt.alloc())?.as_str(),
        "9 limit m.cdle: items\nnone"
    );
    Ok(())
}

/// The answer to a datatype with this text, of which the middle stands so many times.
fn answer_of_datatype(alloc: Global, copies: usize, parts: [&str; 3]) -> Result<String, Fail> {
    let [before, middle, after] = parts;
    let middle = middle.repeat(alloc, copies)?;
    let source = format!(in alloc; "module m.\ndata D {before}{middle}{after}\n")?;
    answer_to(alloc, "build m", &source)
}

#[test]
fn limits_of_datatypes(rt: HostRuntime) -> Result<(), Fail> {
    let unbuilt = "3 m.cdle:2:6: refused: form not built\nnone";
    let rows = [
        (
            64,
            [": ★ =", " | c : D", " ."],
            "1 m.cdle:2:24: malformed: twice c\nnone",
        ),
        (
            65,
            [": ★ =", " | c : D", " ."],
            "9 limit m.cdle: constructors\nnone",
        ),
        (32, [": ★ = | c : ", "D ➔ ", "D ."], unbuilt),
        (
            33,
            [": ★ = | c : ", "D ➔ ", "D ."],
            "9 limit m.cdle: arguments\nnone",
        ),
        (16, ["", "(A : ★) ", ": ★ = ."], unbuilt),
        (
            17,
            ["", "(A : ★) ", ": ★ = ."],
            "9 limit m.cdle: parameters\nnone",
        ),
    ];
    for (copies, parts, wanted) in rows.iter() {
        assert_eq!(rt;
            answer_of_datatype(rt.alloc(), *copies, *parts)?.as_str(),
            *wanted
        );
    }
    Ok(())
}
