//! Reads the deepest modules that may be, and long ones: a line `FORM COPIES` of the input is one module, and what is printed is how many items it has.
//!
//! What it prints shows that the parser fits a program's default stack, as each compiler builds it; a long module shows how long one takes. It promises
//! nothing else, and stands on `surf_parse`.
#![tactic(auto)]

use cdle_names::NameTable;
use std::alloc::{AllocError, Global};
use std::io;
use surf_lex::lex;
use surf_parse::parse;

/// A piece so many times, a middle, and another piece as many times.
#[derive(Clone, Copy)]
struct Nest {
    start: &'static str,
    before: &'static str,
    middle: &'static str,
    after: &'static str,
    end: &'static str,
}

/// What is nested, by the word of its line.
fn nest_of(form: &str) -> Nest {
    let (start, before, middle, after, end) = match form {
        "terms" => ("a : A = ", "(", "x", ")", " ."),
        "functions" => ("a : A = ", "λ x . ", "x", "", " ."),
        "annotations" => ("a : A = ", "Λ x : A . ", "x", "", " ."),
        "arguments" => ("a : A = f", " x", "", "", " ."),
        "projections" => ("a : A = x", ".1", "", "", " ."),
        "pairs" => ("a : A = ", "[x, ", "x", "]", " ."),
        "cases" => ("a : A = ", "σ x { | c ➔ ", "x", " }", " ."),
        "classes" => ("a : ", "(", "A", ")", " = x ."),
        "products" => ("a : ", "Π x : A . ", "A", "", " = x ."),
        "arrows" => ("a : ", "A ➔ ", "A", "", " = x ."),
        "equations" => ("a : A = ", "χ { x ≃ ", "x", " } - x", " ."),
        _ => ("", "id : ∀ X : ★ . X ➔ X = Λ X . λ x . x .\n", "", "", ""),
    };
    Nest {
        start,
        before,
        middle,
        after,
        end,
    }
}

/// The module's text.
fn text_of(alloc: Global, nest: &Nest, copies: usize) -> Result<String, AllocError> {
    let mut text = String::from_str(alloc, "module m.\n")?;
    text.push_str(nest.start)?;
    for _ in 0..copies {
        text.push_str(nest.before)?;
    }
    text.push_str(nest.middle)?;
    for _ in 0..copies {
        text.push_str(nest.after)?;
    }
    text.push_str(nest.end)?;
    Ok(text)
}

/// How many items the text has, where it is a module.
fn items_of(alloc: Global, text: &str) -> Option<usize> {
    if text.len() > 1_048_576 {
        return None;
    }
    let Ok(tokens) = lex(alloc, text) else {
        return None;
    };
    if tokens.len() > 1_048_576 {
        return None;
    }
    let mut names = NameTable::new(alloc);
    match parse(alloc, &tokens, text, "m", &mut names) {
        Ok(module) => Some(module.items.len()),
        Err(_) => None,
    }
}

fn main(rt: HostRuntime) -> io::Result<()> {
    let alloc = rt.alloc();
    for line in rt.lines(alloc) {
        let line = line?;
        let mut words = line.as_str().split_whitespace();
        let form = words.next().unwrap_or("");
        let copies: u32 = words.next().unwrap_or("").parse().unwrap_or(0);
        let text = text_of(alloc, &nest_of(form), copies as usize)?;
        println!(rt;
            "{form} {copies}: {} items",
            items_of(alloc, text.as_str()).unwrap_or(0)
        )?;
    }
    Ok(())
}
