//! Calls of `elab_match` whose answers were worked out by hand, each with ample memory: a line for each search for an instance, with the
//! pattern, the target, the answer, and what is found for each unknown afterwards.
//!
//! A tree is written as Core text writes its form, but a variable is `x` with the number of binders between it and its own, or `X` where
//! it stands for a type, an item is `n` or `N` with its number, and an unknown `?` with its number. A `-` is an unknown for which nothing
//! is found. The program promises nothing, and stands on `elab_match` and `elab_tree`.
#![tactic(auto)]

mod found;
mod page;
mod places;
mod searches;
mod show;
mod trees;

use elab_tree::NoMemory;
use page::Page;
use std::io;

/// What was made, where memory was there.
pub(crate) type Made<T> = Result<T, NoMemory>;

fn main(rt: HostRuntime) -> io::Result<()> {
    let mut page = Page::new(rt.alloc());
    searches::lines(&mut page, rt.alloc());
    places::lines(&mut page, rt.alloc());
    found::lines(&mut page, rt.alloc());
    print!(rt; "{}", page.text())?;
    Ok(())
}
