//! The worked calls of `core` over folders in memory, whose reports and statuses were written down by hand.
use crate::calls::{end, only, put, run};
use cdle_call::{Exit, Outcome, cdle_run};
use cdle_folder::{MemoryFolder, MemorySink, SureFolder};
use std::alloc::Global;
use std::test::Fail;

const IDENTITY: &str = "core 1\n(def id (allt X * (pi x X X)) (xlam X * (lam x X x)))\n";

/// The status and the report of the line over one file, `a.core`.
fn answer(alloc: Global, line: &str, text: &[u8]) -> Result<String, Fail> {
    let mut folder = SureFolder::new(alloc);
    folder.add("a.core", text)?;
    run(alloc, line, &mut folder)
}

/// The same, where the file is this behind its first line.
fn answer_to(alloc: Global, line: &str, items: &str) -> Result<String, Fail> {
    let text = format!(in alloc; "core 1\n{items}\n")?;
    answer(alloc, line, text.as_bytes())
}

/// The same of `core a.core`.
fn answer_of(alloc: Global, items: &str) -> Result<String, Fail> {
    answer_to(alloc, "core a.core", items)
}

#[test]
fn accepted_items(rt: HostRuntime) -> Result<(), Fail> {
    let alloc = rt.alloc();
    let rows = [
        "(def id (allt X * (pi x X X)) (xlam X * (lam x X x)))",
        "(def shadowed (allt X * (pi x X X)) (xlam X * (lam id X id)))",
        "(def p (allt A * (iota z (pi x (pi y A A) (pi y A A)) (pi x (pi y A A) (pi y A A)))) (xlam A * (pair (lam x (pi y A A) x) (lam x (pi y A A) (lam y A (app x y))) z (pi x (pi y A A) (pi y A A)))))",
        "(def k (allt X * (pi a X (eq (ap (ap (fn u (fn v u)) a) (ap (fn w (ap w w)) (fn w (ap w w)))) a))) (xlam X * (lam a X (beta a (fn y y)))))",
        "(def r (allt X * (pi a X (pi b X (pi q (eq a b) X)))) (xlam X * (lam a X (lam b X (lam q (eq a b) (rho q x X X a))))))",
        "(def s (allt X * (pi a X (pi b X (pi q (eq a b) (eq b a))))) (xlam X * (lam a X (lam b X (lam q (eq a b) (rho q x (eq b x) (eq b a) (beta b q)))))))",
    ];
    for item in rows.iter() {
        assert_eq!(rt;
            answer_of(alloc, item)?.as_str(),
            "0 accepted 1\n",
            "of {item}"
        );
    }
    let two =
        "(type Arr (kpit A * (kpit B * *)) (xtlam A * (xtlam B * (pi x A B))))(def id (allt X * (on (on Arr X) X)) (xlam X * (lam x X x)))";
    assert_eq!(rt; answer_of(alloc, two)?.as_str(), "0 accepted 2\n");
    Ok(())
}

#[test]
fn refused_items(rt: HostRuntime) -> Result<(), Fail> {
    let alloc = rt.alloc();
    let rows = [
        (
            "(def a (allt X * (pi x X X)) (xlam X * (lam x X (app x x))))",
            "3 refused a at 2/2/2/1: not a function\n",
        ),
        (
            "(def a (allt X * (pi x X X)) (xlam X * (lam x X (fst x))))",
            "3 refused a at 2/2/2/1: not an intersection\n",
        ),
        (
            "(def a (allt X * (pi x X X)) (xlam X * (lam x X (phi x x x))))",
            "3 refused a at 2/2/2/1: not an equation\n",
        ),
        (
            "(type a * (allt F (kpit X * *) F))",
            "3 refused a at 2/2: wrong kind\n",
        ),
        (
            "(def a (allt X * (allt Y * (pi x X Y))) (xlam X * (xlam Y * (lam x X x))))",
            "3 refused a at 2: mismatch\n",
        ),
        (
            "(def f (allt X * (all x X X)) (xlam X * (elam x X x)))",
            "3 refused f at 2/2: erased variable used\n",
        ),
        (
            "(def g (allt X * (all x X (eq (fn y y) (fn y y)))) (xlam X * (elam x X (beta (fn y y) x))))",
            "3 refused g at 2/2: erased variable used\n",
        ),
        (
            "(def a (allt X * (iota w (pi x X X) (eq (fn y y) (fn y y)))) (xlam X * (pair (lam x X x) (beta (fn y y) (fn y (fn z z))) w (eq (fn y y) (fn y y)))))",
            "3 refused a at 2/2: parts differ\n",
        ),
        (
            "(def a (allt X * (pi x X (allt Y * Y))) (xlam X * (lam x X (xlam Y * (delta Y (beta x x))))))",
            "3 refused a at 2/2/2/2: not booleans\n",
        ),
        (
            "(def s (allt X * (pi a X (pi b X (pi q (eq a b) (eq b a))))) (xlam X * (lam a X (lam b X (lam q (eq a b) (rho q x (eq x a) (eq b a) (beta a q)))))))",
            "3 refused s at 2/2/2/2/2: sides differ\n",
        ),
        (
            "(type t * (allt X * X))(type t * (allt X * X))",
            "3 refused t: duplicate\n",
        ),
    ];
    for (items, wanted) in rows.iter() {
        assert_eq!(rt; answer_of(alloc, items)?.as_str(), *wanted, "of {items}");
    }
    Ok(())
}

/// The file of this text is malformed so.
fn is_malformed(alloc: Global, text: &[u8], wanted: &str) -> Result<bool, Fail> {
    let wanted = format!(in alloc; "1 a.core:{wanted}\n")?;
    Ok(answer(alloc, "core a.core", text)?.as_str() == wanted.as_str())
}

#[test]
fn malformed_texts(rt: HostRuntime) -> Result<(), Fail> {
    let alloc = rt.alloc();
    let rows: [(&[u8], &str); 18] = [
        (b"cor", "1:1: malformed: wanted core"),
        (b"core 2", "1:6: malformed: wanted 1"),
        (b"core 1 \xc3\xa9", "1:8: malformed: wanted item"),
        (b"core 1\n(let a", "2:2: malformed: wanted item"),
        (b"core 1\n(def (a", "2:6: malformed: wanted name"),
        (b"core 1\n(type a (allt", "2:10: malformed: wanted kind"),
        (b"core 1\n(def a", "2:7: malformed: wanted type"),
        (
            b"core 1\n(def a (allt X * X) (pi x x x))",
            "2:22: malformed: wanted term",
        ),
        (
            b"core 1\n(def e (eq (fn x x) (fn x",
            "2:26: malformed: wanted pure term",
        ),
        (
            b"core 1\n(def a (allt X * (pi q X X)) (xlam X * (lam q X (rho q x (fn",
            "2:59: malformed: wanted guide",
        ),
        (
            b"core 1\n(def a (allt X * (pi q X X)) (xlam X * (lam q X (rho q x (allt Y (pi",
            "2:67: malformed: wanted guide kind",
        ),
        (
            b"core 1\n(type t * (allt X * X) X)",
            "2:24: malformed: wanted )",
        ),
        (
            b"core 1\n(def id (allt X * (pi x X X)) (lam x X x))",
            "2:38: malformed: unbound X",
        ),
        (
            b"core 1\n(def a (allt Y * Y) a)",
            "2:21: malformed: unbound a",
        ),
        (
            b"core 1\n(type X * (allt Y * Y))\n(def a X X)",
            "3:10: malformed: wrong class X",
        ),
        (
            b"core 1 ; \xc3\xa9\n(def \xc3\xa9 (allt X * X) (app X",
            "2:26: malformed: unbound X",
        ),
        (b"core 1\xff", "1:7: malformed: not UTF-8"),
        (b"cor\n\xff", "2:1: malformed: not UTF-8"),
    ];
    for (text, wanted) in rows.iter() {
        assert!(rt; is_malformed(alloc, text, wanted)?, "of {wanted}");
    }
    Ok(())
}

/// This many copies of the first, then the middle, then as many of the last.
fn nested(alloc: Global, copies: usize, parts: [&str; 3]) -> Result<String, Fail> {
    let [before, middle, after] = parts;
    let before = before.repeat(alloc, copies)?;
    let after = after.repeat(alloc, copies)?;
    Ok(format!(in alloc; "{before}{middle}{after}")?)
}

/// The answer of a text of so many bytes, spaces behind its first line.
fn answer_of_bytes(alloc: Global, bytes: usize) -> Result<String, Fail> {
    let mut text = Vec::from_slice(alloc, b"core 1")?;
    text.resize(bytes, b' ')?;
    answer(alloc, "core a.core", &text)
}

/// The answer of an item that opens so many parentheses in its own.
fn answer_of_nested(alloc: Global, deep: usize) -> Result<String, Fail> {
    let kind = nested(alloc, deep, ["(kpit X * ", "*", ")"])?;
    let item = format!(in alloc; "(type t {kind} (allt Y * Y))")?;
    answer_of(alloc, &item)
}

/// So many items, and the text behind them.
fn answer_of_items(alloc: Global, count: u32, more: &str) -> Result<String, Fail> {
    let mut items = String::new(alloc);
    for number in 0..count {
        items.push_str(&format!(in alloc; "(type t{number} * (allt X * X))\n")?)?;
    }
    items.push_str(more)?;
    answer_of(alloc, &items)
}

#[test]
fn limit_of_bytes(rt: HostRuntime) -> Result<(), Fail> {
    let rows = [
        (1_048_576, "0 accepted 0\n"),
        (1_048_577, "9 limit a.core: bytes\n"),
    ];
    for (bytes, wanted) in rows.iter() {
        assert_eq!(rt; answer_of_bytes(rt.alloc(), *bytes)?.as_str(), *wanted);
    }
    Ok(())
}

#[test]
fn limit_of_nesting(rt: HostRuntime) -> Result<(), Fail> {
    let rows = [
        (1023, "3 refused t at 2: wrong kind\n"),
        (1024, "9 limit a.core: nesting\n"),
    ];
    for (deep, wanted) in rows.iter() {
        assert_eq!(rt; answer_of_nested(rt.alloc(), *deep)?.as_str(), *wanted);
    }
    Ok(())
}

#[test]
fn limit_of_items(rt: HostRuntime) -> Result<(), Fail> {
    let rows = [
        ("", "0 accepted 10000\n"),
        ("(type t * (allt X * X))", "9 limit a.core: items\n"),
    ];
    for (more, wanted) in rows.iter() {
        assert_eq!(rt;
            answer_of_items(rt.alloc(), 10_000, more)?.as_str(),
            *wanted
        );
    }
    Ok(())
}

#[test]
fn budgets_of_omega(rt: HostRuntime) -> Result<(), Fail> {
    let omega =
        "(def o (eq (ap (fn w (ap w w)) (fn w (ap w w))) (fn x x)) (beta (fn x x) (fn x x)))";
    let rows = [
        ("core a.core", "4 undecided o at 2: budget 200000\n"),
        ("core --budget 7 a.core", "4 undecided o at 2: budget 7\n"),
    ];
    for (line, wanted) in rows.iter() {
        assert_eq!(rt; answer_to(rt.alloc(), line, omega)?.as_str(), *wanted);
    }
    Ok(())
}

/// Twenty doublings, one in another.
fn tower(alloc: Global) -> Result<String, Fail> {
    let twice = nested(alloc, 20, ["(ap (fn x (ap x x)) ", "(fn y y)", ")"])?;
    Ok(format!(in alloc; "(def d (eq {twice} (fn y y)) (beta (fn y y) (fn y y)))")?)
}

#[test]
fn budgets_of_the_tower(rt: HostRuntime) -> Result<(), Fail> {
    let tower = tower(rt.alloc())?;
    let rows = [
        ("core a.core", "4 undecided d at 2: budget 200000\n"),
        ("core --budget 3000000 a.core", "0 accepted 1\n"),
    ];
    for (line, wanted) in rows.iter() {
        assert_eq!(rt; answer_to(rt.alloc(), line, &tower)?.as_str(), *wanted);
    }
    Ok(())
}

/// A term that grows as it is contracted, without end.
fn growing(alloc: Global) -> Result<String, Fail> {
    let grow = "(fn x (fn a (ap (ap x x) (ap (fn y y) a))))";
    Ok(format!(in alloc;
        "(def h (eq (ap (ap {grow} {grow}) (fn z z)) (fn x x)) (beta (fn x x) (fn x x)))"
    )?)
}

#[test]
fn budgets_of_what_grows(rt: HostRuntime) -> Result<(), Fail> {
    let deep = growing(rt.alloc())?;
    let rows = [
        ("core a.core", "9 limit h: depth\n"),
        (
            "core --budget 1000 a.core",
            "4 undecided h at 2: budget 1000\n",
        ),
        (
            "core --budget 8191 a.core",
            "4 undecided h at 2: budget 8191\n",
        ),
        ("core --budget 8192 a.core", "9 limit h: depth\n"),
    ];
    for (line, wanted) in rows.iter() {
        assert_eq!(rt; answer_to(rt.alloc(), line, &deep)?.as_str(), *wanted);
    }
    Ok(())
}

/// Whether no words are no command.
fn is_usage_without_words(alloc: Global) -> Result<bool, Fail> {
    let mut out = MemorySink::new(alloc, Vec::new(alloc), 4096)?;
    let exit = cdle_run(
        alloc,
        &Vec::new(alloc),
        &mut SureFolder::new(alloc),
        &mut out,
    );
    let is_usage = matches!(&exit.outcome, Outcome::Usage);
    drop(exit);
    Ok(is_usage)
}

#[test]
fn words(rt: HostRuntime) -> Result<(), Fail> {
    let alloc = rt.alloc();
    let usage = "2 usage: cdle core FILE.. | cdle build MODULE | cdle make N [--budget N]\n";
    let rows = [
        "",
        "core",
        "core --budget 0 a.core",
        "core --budget=10000001 a.core",
        "core --budget 5 --budget 6 a.core",
        "core --budget -5 a.core",
        "core --budget 000000005 a.core",
        "core --budget a.core",
        "core -x",
        "core --",
        "core --help",
        "Core a.core",
        "make 4",
    ];
    for line in rows.iter() {
        assert_eq!(rt;
            answer(alloc, line, b"core 1")?.as_str(),
            usage,
            "of {line}"
        );
    }
    let rows = [
        "core a.core",
        "core --budget=1 a.core",
        "core a.core --budget 00000001",
        "core --budget 10000000 -- a.core",
    ];
    for line in rows.iter() {
        assert_eq!(rt;
            answer(alloc, line, b"core 1")?.as_str(),
            "0 accepted 0\n",
            "of {line}"
        );
    }
    assert!(rt; is_usage_without_words(alloc)?);
    Ok(())
}

#[test]
fn several_files(rt: HostRuntime) -> Result<(), Fail> {
    let alloc = rt.alloc();
    let mut folder = SureFolder::new(alloc);
    folder.add("p.core", b"core 1\n(type T * (allt X * (pi x X X)))\n")?;
    folder.add("q.core", b"core 1\n(def i T (xlam X * (lam x X x)))\n")?;
    folder.add("cut.core", b"core 1\n(def")?;
    folder.add("-x", IDENTITY.as_bytes())?;
    let rows = [
        ("core p.core q.core", "0 accepted 2\n"),
        ("core q.core p.core", "1 q.core:2:8: malformed: unbound T\n"),
        ("core p.core p.core", "3 refused T: duplicate\n"),
        ("core p.core -- -x q.core", "0 accepted 3\n"),
        (
            "core cut.core none",
            "1 cut.core:2:5: malformed: wanted name\n",
        ),
        ("core none cut.core", "10 missing none\n"),
        ("core p.core p.core none", "10 missing none\n"),
    ];
    for (line, wanted) in rows.iter() {
        assert_eq!(rt;
            run(alloc, line, &mut folder)?.as_str(),
            *wanted,
            "of {line}"
        );
    }
    Ok(())
}

/// The same of `core a.core b.core`, where this call on the folder fails.
fn answer_where_fails(alloc: Global, call: u32) -> Result<String, Fail> {
    let mut folder = MemoryFolder::new(alloc, only(alloc, call)?, Vec::new(alloc));
    folder.add("a.core", IDENTITY.as_bytes())?;
    folder.add("b.core", IDENTITY.as_bytes())?;
    run(alloc, "core a.core b.core", &mut folder)
}

#[test]
fn failing_reads(rt: HostRuntime) -> Result<(), Fail> {
    let alloc = rt.alloc();
    let rows = [
        (0, "5 cannot read a.core\n"),
        (1, "5 cannot read b.core\n"),
        (2, "3 refused id: duplicate\n"),
    ];
    for (call, wanted) in rows.iter() {
        assert_eq!(rt; answer_where_fails(alloc, *call)?.as_str(), *wanted);
    }
    Ok(())
}

/// The end of `core a.core` over the identity.
fn identity(alloc: Global, out: &mut MemorySink) -> Result<Exit, Fail> {
    let mut folder = SureFolder::new(alloc);
    folder.add("a.core", IDENTITY.as_bytes())?;
    end(alloc, "core a.core", &mut folder, out)
}

/// Its status where this put fails, and what went out, as one text.
fn identity_where_fails(alloc: Global, call: u32) -> Result<String, Fail> {
    let mut out = MemorySink::new(alloc, only(alloc, call)?, 4096)?;
    let exit = identity(alloc, &mut out)?;
    let status = exit.status;
    drop(exit);
    put(alloc, status, &out)
}

/// Whether this put's failing is answered as such, and nothing else.
fn is_write_fault(alloc: Global, call: u32) -> Result<bool, Fail> {
    let mut out = MemorySink::new(alloc, only(alloc, call)?, 4096)?;
    let exit = identity(alloc, &mut out)?;
    let is_fault = matches!(&exit.outcome, Outcome::WriteFault { file: None });
    drop(exit);
    Ok(is_fault)
}

/// Whether one item is accepted where this put fails.
fn is_one_accepted(alloc: Global, call: u32) -> Result<bool, Fail> {
    let mut out = MemorySink::new(alloc, only(alloc, call)?, 4096)?;
    let exit = identity(alloc, &mut out)?;
    let is_one = matches!(
        &exit.outcome,
        Outcome::Ok {
            modules: 0,
            items: 1
        }
    );
    drop(exit);
    Ok(is_one)
}

#[test]
fn failing_puts(rt: HostRuntime) -> Result<(), Fail> {
    let alloc = rt.alloc();
    assert_eq!(rt; identity_where_fails(alloc, 0)?.as_str(), "6 ");
    assert!(rt; is_write_fault(alloc, 0)?);
    assert_eq!(rt; identity_where_fails(alloc, 1)?.as_str(), "0 accepted 1\n");
    assert!(rt; is_one_accepted(alloc, 1)?);
    Ok(())
}
