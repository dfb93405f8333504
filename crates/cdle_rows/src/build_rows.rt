//! The worked calls of `build` over one module in memory, whose reports, statuses and Core files were written down by hand.
use crate::calls::run;
use cdle_folder::MemoryFolder;
use std::alloc::Global;
use std::test::Fail;

/// The status and the report of the line over one file, `m.cdle`, and then the bytes of `m.core`, where that is there.
fn answer(alloc: Global, line: &str, source: &[u8]) -> Result<String, Fail> {
    let mut folder = MemoryFolder::new(alloc, Vec::new(alloc), Vec::new(alloc));
    folder.add("m.cdle", source)?;
    let mut answer = run(alloc, line, &mut folder)?;
    if let Some(core) = folder.file("m.core") {
        answer.push_str(String::from_utf8_lossy(alloc, core)?.as_str())?;
    }
    match folder.file("m.cdle") {
        Some(bytes) if bytes.as_slice() == source => Ok(answer),
        _ => Ok(String::from_str(alloc, "another m.cdle")?),
    }
}

/// The same, where the file has these lines behind its first.
fn answer_to(alloc: Global, line: &str, lines: &str) -> Result<String, Fail> {
    let source = format!(in alloc; "module m.\n{lines}\n")?;
    answer(alloc, line, source.as_bytes())
}

/// Whether the module of these lines is built with so many items, which are these lines of its Core file.
fn is_built(alloc: Global, lines: &str, items: u32, core: &str) -> Result<bool, Fail> {
    let wanted = format!(in alloc; "0 built m modules 1 items {items}\ncore 1\n{core}")?;
    Ok(answer_to(alloc, "build m", lines)?.as_str() == wanted.as_str())
}

/// Whether the report on the module of these lines is this one of its file, with this status.
fn is_told(alloc: Global, lines: &str, status: u8, wanted: &str) -> Result<bool, Fail> {
    let wanted = format!(in alloc; "{status} m.cdle:{wanted}\n")?;
    Ok(answer_to(alloc, "build m", lines)?.as_str() == wanted.as_str())
}

#[test]
fn built_modules(rt: HostRuntime) -> Result<(), Fail> {
    let alloc = rt.alloc();
    let rows = [
        ("", 0, ""),
        (
            "id : ∀ X : ★ . X ➔ X = Λ X . λ x . x .",
            1,
            "(def m.id (allt _0 * (pi _1 _0 _0)) (xlam _0 * (lam _1 _0 _1)))\n",
        ),
        (
            "id:∀X:★.X➔X=ΛX.λx.x.",
            1,
            "(def m.id (allt _0 * (pi _1 _0 _0)) (xlam _0 * (lam _1 _0 _1)))\n",
        ),
        (
            "-- annotated\nid : ∀ X : ★ . X ➔ X = {- at every type -} Λ X : ★ . λ x : X . x .",
            1,
            "(def m.id (allt _0 * (pi _1 _0 _0)) (xlam _0 * (lam _1 _0 _1)))\n",
        ),
        (
            "id : ∀ X : ★ . X ➔ X = Λ X . λ x . x .\ntwo : ∀ A : ★ . A ➔ A = Λ A . λ a . id a .",
            2,
            "(def m.id (allt _0 * (pi _1 _0 _0)) (xlam _0 * (lam _1 _0 _1)))\n(def m.two (allt _0 * (pi _1 _0 _0)) (xlam _0 * (lam _1 _0 (app (tapp m.id _0) _1))))\n",
        ),
        (
            "id : ∀ X : ★ . X ➔ X = Λ X . λ x . x .\nf : ∀ X : ★ . X ➔ X = Λ X . λ id . id .",
            2,
            "(def m.id (allt _0 * (pi _1 _0 _0)) (xlam _0 * (lam _1 _0 _1)))\n(def m.f (allt _0 * (pi _1 _0 _0)) (xlam _0 * (lam _1 _0 _1)))\n",
        ),
        (
            "T : ★ = ∀ X : ★ . X .\na : ★ = m#T ➔ T .",
            2,
            "(type m.T * (allt _0 * _0))\n(type m.a * (pi _0 m.T m.T))\n",
        ),
        (
            "a : { λ x . x ≃ λ y . y } = β .",
            1,
            "(def m.a (eq (fn _0 _0) (fn _0 _0)) (beta (fn _0 _0) (fn _0 _0)))\n",
        ),
    ];
    for (lines, items, core) in rows.iter() {
        assert!(rt; is_built(alloc, lines, *items, core)?, "of {lines}");
    }
    Ok(())
}

#[test]
fn refused_modules(rt: HostRuntime) -> Result<(), Fail> {
    let alloc = rt.alloc();
    let rows = [
        (
            "a : ∀ X : ★ . X ➔ X = Λ X . λ x . x x .",
            "2:35: refused: J1 wanted function",
        ),
        (
            "a : ∀ X : ★ . X ➔ X = Λ X . λ x . x.1 .",
            "2:35: refused: J2 wanted intersection",
        ),
        (
            "a : ∀ X : ★ . X ➔ X = Λ X . λ x . φ x - x { x } .",
            "2:37: refused: J3 wanted equation",
        ),
        ("a : ★ = ∀ F : ★ ➔ ★ . F .", "2:23: refused: J4 wanted kind"),
        (
            "a : ∀ X : ★ . ∀ Y : ★ . X ➔ Y = Λ X . Λ Y . λ x . x .",
            "2:51: refused: J5 mismatch",
        ),
        (
            "a : ∀ X : ★ . X ➾ X = Λ X . Λ x . x .",
            "2:29: refused: J6 erased variable used",
        ),
        (
            "a : ι w : { λ x . x ≃ λ x . x } . { λ x . x ≃ λ x . x } = [ β , β { λ x . λ y . y } ] .",
            "2:59: refused: J7 parts differ",
        ),
        (
            "a : ∀ X : ★ . X = Λ X . δ - β<λ x . x> .",
            "2:25: refused: J8 not the two booleans",
        ),
        (
            "a : { λ x . x ≃ λ x . λ y . x } = β .",
            "2:35: refused: J9 sides differ",
        ),
        (
            "k : ∀ X : ★ . ∀ Y : ★ . X ➔ X = Λ X . Λ Y . λ x . x .\nl : ∀ A : ★ . A ➔ A = Λ A . λ a . k a .",
            "3:35: refused: J10 argument left open",
        ),
        (
            "a : ∀ X : ★ . X ➔ X = Λ X . λ x . (λ y . y).1 .",
            "2:36: refused: J11 annotation wanted",
        ),
    ];
    for (lines, wanted) in rows.iter() {
        assert!(rt; is_told(alloc, lines, 3, wanted)?, "of {wanted}");
    }
    Ok(())
}

#[test]
fn forms_that_are_not_built(rt: HostRuntime) -> Result<(), Fail> {
    let alloc = rt.alloc();
    let rows = [
        ("import nat.", "2:8: refused: form not built"),
        (
            "data Bool : ★ = | true : Bool | false : Bool .",
            "2:6: refused: form not built",
        ),
        (
            "a : ∀ X : ★ . X ➔ X = Λ X . λ x . μ r . x { } .",
            "2:35: refused: form not built",
        ),
        (
            "a : ∀ X : ★ . X ➔ X = Λ X . λ x . x x .\nb : ∀ X : ★ . X ➔ X = Λ X . λ x . σ x { } .",
            "3:35: refused: form not built",
        ),
    ];
    for (lines, wanted) in rows.iter() {
        assert!(rt; is_told(alloc, lines, 3, wanted)?, "of {wanted}");
    }
    Ok(())
}

#[test]
fn malformed_modules(rt: HostRuntime) -> Result<(), Fail> {
    let alloc = rt.alloc();
    let rows = [
        ("a ? b", "2:3: malformed: bad character"),
        ("{- x", "2:1: malformed: open comment"),
        ("a : ★ = b .", "2:9: malformed: unbound b"),
        (
            "import nat.\na : ★ = nat # Nat .",
            "3:9: malformed: unbound nat#Nat",
        ),
        (
            "id : ∀ X : ★ . X ➔ X = Λ X . λ x . x .\na : id = id .",
            "3:5: malformed: wrong class id",
        ),
        (
            "id : ∀ X : ★ . X ➔ X = Λ X . λ x . x .\nid : ∀ X : ★ . X ➔ X = Λ X . λ x . x .",
            "3:1: malformed: twice id",
        ),
        (".", "2:1: malformed: wanted item"),
        ("a : .", "2:5: malformed: wanted class"),
        ("a : ★ = λ", "3:1: malformed: wanted name"),
        ("id : ∀ X : ★ . X ➔ X = .", "2:24: malformed: wanted term"),
        ("a : ★ = ∀ X : ★ . X", "3:1: malformed: wanted ."),
    ];
    for (lines, wanted) in rows.iter() {
        assert!(rt; is_told(alloc, lines, 1, wanted)?, "of {wanted}");
    }
    Ok(())
}

#[test]
fn first_lines(rt: HostRuntime) -> Result<(), Fail> {
    let alloc = rt.alloc();
    let rows: [(&[u8], &str); 6] = [
        (b"module m.", "0 built m modules 1 items 0\ncore 1\n"),
        (b"", "1 m.cdle:1:1: malformed: wanted module\n"),
        (b"module m", "1 m.cdle:1:9: malformed: wanted .\n"),
        (b"module n.", "1 m.cdle:1:8: malformed: wanted name\n"),
        (b"module m\xff", "1 m.cdle:1:9: malformed: not UTF-8\n"),
        (b"?\xff", "1 m.cdle:1:2: malformed: not UTF-8\n"),
    ];
    for (source, wanted) in rows.iter() {
        assert_eq!(rt; answer(alloc, "build m", source)?.as_str(), *wanted);
    }
    Ok(())
}
