//! Calls of `elab_tree` whose answers were worked out by hand, each with ample memory: a line for each call, and behind it what it gives.
//!
//! A tree is written as Core text writes its form, but a variable is `x` with the number of binders between it and its own, or `X` where
//! it stands for a type, an item is `n` or `N` with its number, and an unknown `?` with its number. Trees of many levels are told by
//! their depth. What is printed was worked out by hand. The program promises nothing, and stands on `elab_tree`.
#![tactic(auto)]

mod calls;
mod deep;
mod forms;
mod guides;
mod items;
mod page;
mod puts;
mod rows;
mod show;
mod terms;
mod types;

use cdle_model::NoMemory;
use page::Page;
use std::io;

/// What was made, where memory was there.
pub(crate) type Made<T> = Result<T, NoMemory>;

fn main(rt: HostRuntime) -> io::Result<()> {
    let mut page = Page::new(rt.alloc());
    puts::lines(&mut page, rt.alloc());
    rows::lines(&mut page, rt.alloc());
    forms::lines(&mut page, rt.alloc());
    deep::lines(&mut page, rt.alloc());
    items::lines(&mut page, rt.alloc());
    print!(rt; "{}", page.text())?;
    Ok(())
}
