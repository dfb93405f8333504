//! Reads the deepest texts that may be, one of each class, and ten thousand items that each name the one before. It prints how many items
//! each text has.
//!
//! It shows that the reader fits a program's default stack, as each compiler builds it, and that a name is found without going over the items.
#![tactic(auto)]

use core_text::{CoreScope, read_core};
use std::alloc::{AllocError, Global};
use std::io;

/// Two items that the texts name.
const ITEMS: &str = "core 1 (type T * (eq (fn x x) (fn x x))) (def t T (beta (fn x x) (fn x x)))";

/// A form within itself, so many times.
struct Nest {
    before: &'static str,
    open: &'static str,
    times: usize,
    innermost: &'static str,
    close: &'static str,
    after: &'static str,
}

/// The deepest of each class, each with 1,024 parentheses open.
const NESTS: [Nest; 7] = [
    Nest {
        before: "(type a ",
        open: "(kpit X * ",
        times: 1023,
        innermost: "*",
        close: ")",
        after: " T)",
    },
    Nest {
        before: "(def a ",
        open: "(pi x T ",
        times: 1023,
        innermost: "T",
        close: ")",
        after: " t)",
    },
    Nest {
        before: "(def a T ",
        open: "(lam x T ",
        times: 1023,
        innermost: "x",
        close: ")",
        after: ")",
    },
    Nest {
        before: "(def a T ",
        open: "(app ",
        times: 1023,
        innermost: "t",
        close: " t)",
        after: ")",
    },
    Nest {
        before: "(def a (eq ",
        open: "(fn x ",
        times: 1022,
        innermost: "x",
        close: ")",
        after: " t) t)",
    },
    Nest {
        before: "(def a T (rho t x ",
        open: "(pi y T ",
        times: 1022,
        innermost: "T",
        close: ")",
        after: " T t))",
    },
    Nest {
        before: "(def a T (rho t x (allt Y ",
        open: "(kpit Z * ",
        times: 1021,
        innermost: "*",
        close: ")",
        after: " T) T t))",
    },
];

fn nested(alloc: Global, nest: &Nest) -> Result<Vec<u8>, AllocError> {
    let mut text = Vec::from_slice(alloc, ITEMS.as_bytes())?;
    text.extend_from_slice(nest.before.as_bytes())?;
    for _ in 0..nest.times {
        text.extend_from_slice(nest.open.as_bytes())?;
    }
    text.extend_from_slice(nest.innermost.as_bytes())?;
    for _ in 0..nest.times {
        text.extend_from_slice(nest.close.as_bytes())?;
    }
    text.extend_from_slice(nest.after.as_bytes())?;
    Ok(text)
}

/// The name of an item, in five digits.
fn push_name(text: &mut Vec<u8>, number: u32) -> Result<(), AllocError> {
    text.extend_from_slice(b" n")?;
    let mut power = 10_000u32;
    for _ in 0..5u32 {
        text.push(b'0' + (number / power.max(1) % 10) as u8)?;
        power /= 10;
    }
    Ok(())
}

/// So many items behind `n00000`, each of which names the one before.
fn chained(alloc: Global, items: u32) -> Result<Vec<u8>, AllocError> {
    let mut text = Vec::from_slice(alloc, ITEMS.as_bytes())?;
    text.extend_from_slice(b"(def n00000 T t)")?;
    for number in 0..items {
        text.extend_from_slice(b"(def")?;
        push_name(&mut text, number.saturating_add(1))?;
        text.extend_from_slice(b" T")?;
        push_name(&mut text, number)?;
        text.extend_from_slice(b")")?;
    }
    Ok(text)
}

/// How many items a text has.
fn items_of(alloc: Global, text: &[u8]) -> Option<usize> {
    if text.len() > 67_108_864 {
        return None;
    }
    match read_core(alloc, text, &CoreScope::new(alloc)) {
        Ok(file) => Some(file.items.len()),
        Err(_) => None,
    }
}

fn main(rt: HostRuntime) -> io::Result<()> {
    let alloc = rt.alloc();
    for nest in &NESTS {
        let text = nested(alloc, nest)?;
        println!(rt; "{} {}", nest.open, items_of(alloc, &text).unwrap_or(0))?;
    }
    let text = chained(alloc, 10_000)?;
    println!(rt; "chained {}", items_of(alloc, &text).unwrap_or(0))?;
    Ok(())
}
