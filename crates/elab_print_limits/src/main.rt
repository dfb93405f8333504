//! Prints the deepest items that may be, and long lists of items: a line `FORM TIMES` of the input is one file, and what is printed is how long its
//! text is and how many items the checker's reader finds in it.
//!
//! What it prints shows that the printer fits a program's default stack, as each compiler builds it, and that a text that no memory holds is not
//! waited for; long lists show how long it takes. It promises nothing else, and stands on `elab_print` and `core_text`.
#![tactic(auto)]

mod nested;

use cdle_model::{NoMemory, Text};
use core_text::{CoreScope, read_core};
use elab_print::{PrintFault, print_core};
use elab_tree::OutItem;
use nested::{Made, long_items, nested_items};
use std::alloc::Global;
use std::io;

/// The names of the items by their numbers.
fn names_of(alloc: Global, items: &[OutItem]) -> Made<Vec<Text>> {
    let mut names = Vec::new(alloc);
    for item in items {
        names.push(Text::new(alloc, item.name().as_str())?)?;
    }
    Ok(names)
}

fn text_of(alloc: Global, items: &[OutItem]) -> Result<Vec<u8>, PrintFault> {
    let Ok(names) = names_of(alloc, items) else {
        return Err(PrintFault::NoMemory);
    };
    if items.len() > 1_000_000 {
        return Err(PrintFault::NoMemory);
    }
    print_core(alloc, items, &names)
}

/// How many items the reader finds.
fn count_of(alloc: Global, text: &[u8]) -> usize {
    if text.len() > 67_108_864 {
        return 0;
    }
    match read_core(alloc, text, &CoreScope::new(alloc)) {
        Ok(file) => file.items.len(),
        Err(_) => 0,
    }
}

/// The items of a line; `built`, `printed` and `read` are long lists, of which no more is done than that.
fn items_of(alloc: Global, form: &str, times: u32) -> Made<Vec<OutItem>> {
    match form {
        "built" | "printed" | "read" => long_items(alloc, times),
        _ => nested_items(alloc, form, times),
    }
}

fn show(rt: &impl Print, alloc: Global, form: &str, items: &[OutItem]) -> io::Result<()> {
    if form == "built" {
        return println!(rt; "{} items", items.len());
    }
    match text_of(alloc, items) {
        Ok(text) if form == "printed" => println!(rt; "{} bytes", text.len()),
        Ok(text) => println!(rt;
            "{} bytes, {} items read",
            text.len(),
            count_of(alloc, &text)
        ),
        Err(PrintFault::TooDeep { item }) => println!(rt; "item {item} is too deep"),
        Err(PrintFault::NoMemory) => println!(rt; "no memory"),
    }
}

fn main(rt: HostRuntime) -> io::Result<()> {
    let alloc = rt.alloc();
    for line in rt.lines(alloc) {
        let line = line?;
        let mut words = line.as_str().split_whitespace();
        let form = words.next().unwrap_or("");
        let times: u32 = words.next().unwrap_or("").parse().unwrap_or(0);
        print!(rt; "{form} {times}: ")?;
        match items_of(alloc, form, times) {
            Ok(items) => show(&rt, alloc, form, &items)?,
            Err(NoMemory) => println!(rt; "no memory")?,
        }
    }
    Ok(())
}
