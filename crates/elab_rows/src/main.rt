//! Modules that were elaborated by hand: a line `NAME BUDGET LINE | LINE ..` of the input is a module of these lines, with that budget.
//!
//! Each is printed by its name: the lines of its Core file, or why there is none, with the place. So what is printed is the table of what the rules say
//! by hand. The program promises nothing, and stands on the crates from the tokens (`surf_lex`) to the printed text (`elab_print`).
#![tactic(auto)]

mod module;

use module::{Answer, answer_of};
use std::io;

fn main(rt: HostRuntime) -> io::Result<()> {
    for line in rt.lines(rt.alloc()) {
        let line = line?;
        let mut words = line.as_str().splitn(3, ' ');
        let name = words.next().unwrap_or("");
        let budget: u64 = words.next().unwrap_or("").parse().unwrap_or(0);
        let answer: Answer = answer_of(rt.alloc(), words.next().unwrap_or(""), budget);
        println!(rt; "{name}: {answer}")?;
    }
    Ok(())
}
