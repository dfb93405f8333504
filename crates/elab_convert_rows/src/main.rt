//! Comparisons of `elab_convert` whose answers were worked out by hand, each with ample memory: a line for each, with its units and its
//! answer.
//!
//! A row's units are those that it just needs, and mostly stand there once more with one less. What is printed was counted by hand: each
//! pair that is taken is one unit, and so is each contraction and each unfolding. The program promises nothing, and stands on
//! `elab_convert` and `elab_tree`.
#![tactic(auto)]

mod items;
mod page;
mod rows;
mod term_rows;
mod terms;
mod type_rows;
mod types;

use elab_tree::NoMemory;
use page::Page;
use rows::Rows;
use std::io;

/// What was made, where memory was there.
pub(crate) type Made<T> = Result<T, NoMemory>;

fn main(rt: HostRuntime) -> io::Result<()> {
    match items::three_items(rt.alloc()) {
        Ok(env) => {
            let mut rows = Rows {
                alloc: rt.alloc(),
                env,
                page: Page::new(rt.alloc()),
            };
            term_rows::lines(&mut rows);
            type_rows::lines(&mut rows);
            print!(rt; "{}", rows.page.text())
        }
        Err(NoMemory) => println!(rt; "no memory for the items"),
    }
}
