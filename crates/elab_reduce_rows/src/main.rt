//! Head forms whose units were counted by hand, each with ample memory: a line for each call, and behind it what it gives.
//!
//! A tree is written as Core text writes its form, but a variable is `x` with the number of binders between it and its own, or `X` where
//! it stands for a type, an item is `n` or `N` with its number, and an unknown `?` with its number. Trees of many levels are told by
//! their depth. What is printed was worked out by hand. The program promises nothing, and stands on `elab_reduce` and `elab_tree`.
#![tactic(auto)]

mod deep;
mod heads;
mod items;
mod page;
mod show;
mod towers;
mod trees;

use cdle_model::NoMemory;
use elab_tree::Env;
use page::Page;
use std::io;

/// What was made, where memory was there.
pub(crate) type Made<T> = Result<T, NoMemory>;

fn main(rt: HostRuntime) -> io::Result<()> {
    let mut page = Page::new(rt.alloc());
    let mut env = Env::new(rt.alloc());
    if items::fill(rt.alloc(), &mut env).is_err() {
        page.word("no memory for the items\n");
    }
    heads::lines(&mut page, rt.alloc(), &env);
    deep::lines(&mut page, rt.alloc(), &env);
    towers::lines(&mut page, rt.alloc(), &env);
    print!(rt; "{}", page.text())?;
    Ok(())
}
