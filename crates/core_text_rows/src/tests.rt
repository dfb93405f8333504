//! Texts with what the reader answers, worked out by hand, and each form cut short behind each of its parts.
use crate::forms::{ROWS, Row, Want, around, leaf, other, wanted};
use crate::rows::{counted, read_behind, read_third};
use core_text::{CoreTextFault, CoreWanted};
use core_tree::{CoreFile, CoreItem, Ty, TyForm};
use std::alloc::{AllocError, Global};
use std::test::Fail;

const EMPTY: &[u8] = b"core 1";

const KNOWN: &[u8] = b"core 1 (type T * (eq (fn x x) (fn x x))) (def t T (beta (fn x x) (fn x x)))";

fn answer(alloc: Global, text: &[u8]) -> Result<usize, CoreTextFault> {
    counted(read_behind(alloc, EMPTY, text))
}

fn bad(at: usize, wanted: CoreWanted) -> Result<usize, CoreTextFault> {
    Err(CoreTextFault::BadText {
        at: (at % 67_108_865) as u32,
        wanted,
    })
}

/// A text that stops behind so many parts of a form.
fn beginning(alloc: Global, row: &Row, parts: usize) -> Result<Vec<u8>, AllocError> {
    let (before, _) = around(row.class);
    let mut text = Vec::from_slice(alloc, before.as_bytes())?;
    text.extend_from_slice(b"(")?;
    text.extend_from_slice(row.word.as_bytes())?;
    for want in row.parts.iter().take(parts) {
        text.extend_from_slice(b" ")?;
        text.extend_from_slice(leaf(*want).as_bytes())?;
    }
    Ok(text)
}

/// The same, with one word more.
fn with_word(alloc: Global, row: &Row, parts: usize, word: &str) -> Result<Vec<u8>, AllocError> {
    let mut text = beginning(alloc, row, parts)?;
    text.extend_from_slice(b" ")?;
    text.extend_from_slice(word.as_bytes())?;
    Ok(text)
}

#[test]
fn each_form_whole(rt: HostRuntime) -> Result<(), Fail> {
    let alloc = rt.alloc();
    for row in &ROWS {
        let mut text = beginning(alloc, row, row.parts.len())?;
        assert_eq!(rt;
            counted(read_behind(alloc, KNOWN, &text)),
            bad(text.len(), CoreWanted::Close),
            "{}",
            row.word
        );
        let (_, behind) = around(row.class);
        text.extend_from_slice(b")")?;
        text.extend_from_slice(behind.as_bytes())?;
        assert_eq!(rt;
            counted(read_behind(alloc, KNOWN, &text)),
            Ok(1),
            "{}",
            row.word
        );
    }
    Ok(())
}

#[test]
fn each_part_cut_off(rt: HostRuntime) -> Result<(), Fail> {
    let alloc = rt.alloc();
    for row in &ROWS {
        for (part, want) in row.parts.iter().enumerate() {
            let text = beginning(alloc, row, part)?;
            assert_eq!(rt;
                counted(read_behind(alloc, KNOWN, &text)),
                bad(text.len(), wanted(*want)),
                "{} {}",
                row.word,
                part
            );
        }
    }
    Ok(())
}

#[test]
fn names_in_the_wrong_place(rt: HostRuntime) -> Result<(), Fail> {
    let alloc = rt.alloc();
    for row in &ROWS {
        for (part, want) in row.parts.iter().enumerate() {
            let before = beginning(alloc, row, part)?;
            let at = ((before.len() + 1) % 67_108_865) as u32;
            if let Some(name) = other(*want) {
                let text = with_word(alloc, row, part, name)?;
                assert_eq!(rt;
                    counted(read_behind(alloc, KNOWN, &text)),
                    Err(CoreTextFault::WrongClass { at }),
                    "{} {}",
                    row.word,
                    part
                );
                let text = with_word(alloc, row, part, "unknown")?;
                assert_eq!(rt;
                    counted(read_behind(alloc, KNOWN, &text)),
                    Err(CoreTextFault::Unbound { at }),
                    "{} {}",
                    row.word,
                    part
                );
            }
            // `*` is a kind alone, and no name is one
            let word = if matches!(*want, Want::Kind | Want::GuideKind) {
                "T"
            } else {
                "*"
            };
            let text = with_word(alloc, row, part, word)?;
            assert_eq!(rt;
                counted(read_behind(alloc, KNOWN, &text)),
                bad(before.len() + 1, wanted(*want)),
                "{} {}",
                row.word,
                part
            );
        }
    }
    Ok(())
}

#[test]
fn told_rows(rt: HostRuntime) {
    let alloc = rt.alloc();
    let table: [(&[u8], Result<usize, CoreTextFault>); 20] = [
        (b"core 1", Ok(0)),
        (
            b"core 1\n(def id (allt X * (pi x X X)) (xlam X * (lam x X x)))",
            Ok(1),
        ),
        (
            b"core 1 ; comment )\n(type T * (allt X * X))(def i (pi x T T) (lam x T x))",
            Ok(2),
        ),
        (b"core 1 ; comment\r(type T * (allt X * X))\n", Ok(0)),
        (b"core 1(type core * (eq (fn def def) (fn lam lam)))", Ok(1)),
        (
            b"core 1\n(def id (allt X * (pi x X X)) (lam X x X))",
            Err(CoreTextFault::Unbound { at: 44 }),
        ),
        (
            b"core 1\n(def id (allt X * (pi x X X)) (lam x X x))",
            Err(CoreTextFault::Unbound { at: 44 }),
        ),
        (
            b"core 1\n(def e (eq (fn x x) (fn x",
            bad(32, CoreWanted::Pure),
        ),
        (
            b"core 1\n(def e (eq (fn x x) (fn x ; and no more",
            bad(46, CoreWanted::Pure),
        ),
        (b"cor", bad(0, CoreWanted::Core)),
        (b"", bad(0, CoreWanted::Core)),
        (b"core", bad(4, CoreWanted::One)),
        (b"core 2", bad(5, CoreWanted::One)),
        (b"core 1\xff", Err(CoreTextFault::NotUtf8 { at: 6 })),
        (b"(((\xc3", Err(CoreTextFault::NotUtf8 { at: 3 })),
        (b"core 1 )", bad(7, CoreWanted::Item)),
        (b"core 1 (lam x", bad(8, CoreWanted::Item)),
        (b"core 1 (def * ", bad(12, CoreWanted::Name)),
        (b"core 1 (type a (kpi (", bad(20, CoreWanted::Name)),
        (
            b"core 1\n(type X * (allt Y * Y))\n(def a X X)",
            Err(CoreTextFault::WrongClass { at: 40 }),
        ),
    ];
    for (text, told) in table {
        assert_eq!(rt; answer(alloc, text), told);
    }
}

#[test]
fn files_in_all_their_orders(rt: HostRuntime) {
    let alloc = rt.alloc();
    let p = b"core 1\n(type T * (allt X * (pi x X X)))";
    let q = b"core 1\n(def i T (xlam X * (lam x X x)))";
    assert_eq!(rt; counted(read_behind(alloc, p, q)), Ok(1));
    assert_eq!(rt;
        counted(read_behind(alloc, q, p)),
        Err(CoreTextFault::Unbound { at: 14 })
    );
    assert_eq!(rt; counted(read_behind(alloc, p, p)), Ok(1));
    assert_eq!(rt; counted(read_third(alloc, p, p, q)), Ok(1));
    assert_eq!(rt; counted(read_third(alloc, p, q, p)), Ok(1));
    assert_eq!(rt;
        counted(read_third(alloc, q, p, p)),
        Err(CoreTextFault::Unbound { at: 14 })
    );
}

/// What the body of the last item is, if that is a variable or a name.
fn body(file: Result<CoreFile, CoreTextFault>) -> Option<(bool, u32)> {
    let Ok(file) = file else {
        return None;
    };
    match file.items.get(file.items.len().saturating_sub(1)) {
        Some(CoreItem::TypeDef { body, .. }) => innermost(body),
        _ => None,
    }
}

/// What stands below two products over types.
fn innermost(ty: &Ty) -> Option<(bool, u32)> {
    let TyForm::Allt(_, part) = ty.form() else {
        return None;
    };
    let TyForm::Allt(_, part) = part.form() else {
        return None;
    };
    match part.form() {
        TyForm::Var(index) => Some((true, *index)),
        TyForm::Name(number) => Some((false, *number)),
        _ => None,
    }
}

#[test]
fn what_a_name_stands_for(rt: HostRuntime) {
    let alloc = rt.alloc();
    let two = b"core 1 (type x * (allt a * a)) (type x * (allt a * a))";
    let innermost: &[u8] = b"core 1 (type y * (allt x * (allt x * x)))";
    let outer: &[u8] = b"core 1 (type y * (allt x * (allt y * x)))";
    let earlier: &[u8] = b"core 1 (type y * (allt a * (allt b * x)))";
    let own: &[u8] = b"core 1 (type x * (allt a * (allt b * x)))";
    let last: &[u8] = b"core 1 (type x * (allt a * a)) (type y * (allt a * (allt b * x)))";
    assert_eq!(rt; body(read_behind(alloc, two, innermost)), Some((true, 0)));
    assert_eq!(rt; body(read_behind(alloc, two, outer)), Some((true, 1)));
    assert_eq!(rt; body(read_behind(alloc, two, earlier)), Some((false, 1)));
    assert_eq!(rt; body(read_behind(alloc, two, own)), Some((false, 1)));
    assert_eq!(rt; body(read_behind(alloc, two, last)), Some((false, 2)));
    assert_eq!(rt;
        body(read_third(alloc, two, two, earlier)),
        Some((false, 3))
    );
    assert_eq!(rt; answer(alloc, own), Err(CoreTextFault::Unbound { at: 37 }));
}

fn place(fault: CoreTextFault) -> Option<u32> {
    match fault {
        CoreTextFault::NotUtf8 { at }
        | CoreTextFault::BadText { at, .. }
        | CoreTextFault::Unbound { at }
        | CoreTextFault::WrongClass { at }
        | CoreTextFault::TooDeep { at } => Some(at),
        CoreTextFault::NoMemory => None,
    }
}

// The fault of a text that is cut stands at its end, or at the word that is cut.
#[test]
fn each_beginning_of_an_item(rt: HostRuntime) {
    let alloc = rt.alloc();
    let text =
        b"core 1\n(def a (allt X * (iota w (pi x X X) (eq (fn y y) (fn y y)))) (xlam X * (pair (lam x X x) (beta (fn y y) (fn y (fn z z))) w (eq (fn y y) (fn y y)))))";
    let mut word = 0usize;
    for (end, byte) in text.iter().enumerate() {
        let fault = match answer(alloc, &text[..end]) {
            Ok(_) => None,
            Err(fault) => place(fault),
        };
        let at = fault.map(|at| at as usize);
        let whole = end == 6 || end == 7;
        assert!(rt; whole || at == Some(end) || at == Some(word));
        if matches!(*byte, b' ' | b'\n' | b'(' | b')') {
            word = end + 1;
        }
    }
    assert_eq!(rt; answer(alloc, text), Ok(1));
}

fn nested(alloc: Global, open: usize, last: &[u8]) -> Result<Vec<u8>, AllocError> {
    let mut text = Vec::new(alloc);
    text.extend_from_slice(b"core 1 (type a ")?;
    for _ in 1..open {
        text.extend_from_slice(b"(kpit X * ")?;
    }
    text.extend_from_slice(last)?;
    Ok(text)
}

// So many parentheses may be open, the item's counted, and one more is too deep wherever it stands.
#[test]
fn nesting(rt: HostRuntime) -> Result<(), Fail> {
    let alloc = rt.alloc();
    let table: [(usize, &[u8], Result<usize, CoreTextFault>); 6] = [
        (1024, b"* ", bad(10247, CoreWanted::Close)),
        (1025, b"* ", Err(CoreTextFault::TooDeep { at: 10245 })),
        (1023, b"(kpit (", Err(CoreTextFault::TooDeep { at: 10241 })),
        (1024, b"* (", Err(CoreTextFault::TooDeep { at: 10247 })),
        (1023, b"((", Err(CoreTextFault::TooDeep { at: 10236 })),
        (1022, b"((", bad(10226, CoreWanted::Kind)),
    ];
    for (open, last, told) in table {
        let text = nested(alloc, open, last)?;
        assert_eq!(rt; answer(alloc, &text), told);
    }
    Ok(())
}
