//! Worked files, built by constructors: each is printed, and then whether the checker's reader gives the same items of what was printed.
//!
//! What must be printed was worked out by hand: the identity, an argument that the source leaves out, a binder that hides an item, names, an item
//! of an earlier file, every form of the grammar, and the deepest item. The program promises nothing, and stands on the printer (`elab_print`) and
//! the reader (`core_text`).
#![tactic(auto)]

ghost use Rattle.std.specs.Prelude.{◌<◌, ◌≤◌, ◌^◌, length, IfSome};
ghost use Rattle.core_text.specs.Scope.{known_names};

mod guides;
mod same;
mod terms;
mod types;
mod worked;

use cdle_model::{NoMemory, Text};
use core_text::{CoreScope, read_core};
use core_tree::CoreFile;
use elab_print::{PrintFault, print_core};
use elab_tree::OutItem;
use same::same_items;
use std::alloc::Global;
use std::io;

/// What was made, where memory was there.
pub(crate) type Made<T> = Result<T, NoMemory>;

/// The names of the items by their numbers, those of the earlier file first.
fn names_of(alloc: Global, earlier: &[OutItem], items: &[OutItem]) -> Made<Vec<Text>> {
    let mut names = Vec::new(alloc);
    for item in earlier {
        names.push(Text::new(alloc, item.name().as_str())?)?;
    }
    for item in items {
        names.push(Text::new(alloc, item.name().as_str())?)?;
    }
    Ok(names)
}

/// What the reader gives of the text, behind the items of an earlier file.
fn read(alloc: Global, known: &CoreScope, text: &[u8]) -> Option<CoreFile>
    requires { length (known_names known.now) < 2 ^ 31 }
    ensures { IfSome result (λ file. length file.items ≤ 67108864) }
{
    if text.len() > 67_108_864 {
        return None;
    }
    match read_core(alloc, text, known) {
        Ok(file) => Some(file),
        Err(_) => None,
    }
}

/// The text of the items, behind those of the earlier file.
fn text_of(alloc: Global, earlier: &[OutItem], items: &[OutItem]) -> Result<Vec<u8>, PrintFault> {
    let Ok(names) = names_of(alloc, earlier, items) else {
        return Err(PrintFault::NoMemory);
    };
    if items.len() > 1_000_000 {
        return Err(PrintFault::NoMemory);
    }
    print_core(alloc, items, &names)
}

/// What the reader knows behind the earlier file's text.
fn scope_of(alloc: Global, earlier: &[OutItem]) -> Option<CoreScope>
    ensures { IfSome result (λ known. length (known_names known) < 2 ^ 31) }
{
    let mut known = CoreScope::new(alloc);
    let Ok(text) = text_of(alloc, &[], earlier) else {
        return None;
    };
    let file = read(alloc, &known, &text)?;
    match known.add(alloc, &file) {
        Ok(()) => Some(known),
        Err(NoMemory) => None,
    }
}

/// What the reader makes of the text, of which these are the items.
fn reading(alloc: Global, earlier: &[OutItem], text: &[u8], items: &[OutItem]) -> &'static str {
    let Some(known) = scope_of(alloc, earlier) else {
        return "the earlier file is not read";
    };
    match read(alloc, &known, text) {
        Some(file) if same_items(items, file.items.as_slice()) => "read as these items",
        Some(_) => "read as other items",
        None => "not read",
    }
}

/// Prints the text of the items, and what the reader makes of it.
fn show(
    rt: &impl Print,
    alloc: Global,
    earlier: &[OutItem],
    items: Made<Vec<OutItem>>,
) -> io::Result<()> {
    let Ok(items) = items else {
        return println!(rt; "no memory");
    };
    match text_of(alloc, earlier, &items) {
        Ok(text) => {
            print!(rt; "{}", std::str::from_utf8(&text).unwrap_or("no UTF-8"))?;
            println!(rt; "-- {}", reading(alloc, earlier, &text, &items))
        }
        Err(_) => println!(rt; "-- not printed"),
    }
}

/// Prints what becomes of an item of so many projections, which has one parenthesis more.
fn show_deep(rt: &impl Print, alloc: Global, projections: u32) -> io::Result<()> {
    let Ok(items) = worked::projections(alloc, projections) else {
        return println!(rt; "no memory");
    };
    match text_of(alloc, &[], &items) {
        Ok(text) => println!(rt;
            "{projections} projections: {}",
            reading(alloc, &[], &text, &items)
        ),
        Err(PrintFault::TooDeep { item }) => println!(rt;
            "{projections} projections: item {item} is too deep"
        ),
        Err(PrintFault::NoMemory) => println!(rt; "{projections} projections: no memory"),
    }
}

fn main(rt: HostRuntime) -> io::Result<()> {
    let alloc = rt.alloc();
    let none: [OutItem; 0] = [];
    show(&rt, alloc, &none, worked::identity(alloc, "m.id"))?;
    show(&rt, alloc, &none, worked::left_out(alloc))?;
    show(&rt, alloc, &none, worked::shadowed(alloc))?;
    show(&rt, alloc, &none, worked::names(alloc))?;
    show(&rt, alloc, &none, worked::forms(alloc))?;
    if let Ok(earlier) = worked::identity(alloc, "p.id") {
        show(&rt, alloc, &earlier, worked::behind(alloc))?;
    }
    show_deep(&rt, alloc, 1023)?;
    show_deep(&rt, alloc, 1024)
}
