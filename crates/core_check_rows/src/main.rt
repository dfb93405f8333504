//! Lists of Core files that were checked by hand: a line `NAME BUDGET FILE | FILE ..` of the input is one of them, with that budget.
//!
//! Each is printed by its name with what the checker answers, so what is printed is the table of what the rules say by hand: for each rule what
//! it accepts, and each of its refusals with its place. The program promises nothing, and stands on the reader (`core_text`) and the checker
//! (`core_check`).
#![tactic(auto)]

mod answer;
mod files;

use answer::Answer;
use core_check::check_files;
use files::read_files;
use std::alloc::Global;
use std::io;

/// What the checker answers of these files; or that they are no Core files.
fn answer_of(alloc: Global, texts: &str, budget: u64) -> Answer {
    match read_files(alloc, texts) {
        Ok(files) => Answer::Checked(check_files(alloc, &files, budget)),
        Err(fault) => Answer::Unread(fault),
    }
}

fn main(rt: HostRuntime) -> io::Result<()> {
    for line in rt.lines(rt.alloc()) {
        let line = line?;
        let mut words = line.as_str().splitn(3, ' ');
        let name = words.next().unwrap_or("");
        let budget: u64 = words.next().unwrap_or("").parse().unwrap_or(0);
        let answer = answer_of(rt.alloc(), words.next().unwrap_or(""), budget);
        println!(rt; "{name} {budget}: {answer}")?;
    }
    Ok(())
}
