//! The program `cdle`, which checks Core files.
//!
//! `cdle_run` (`cdle_call`) does all that the program does, over any folder and any sink, and its contract is the theorem of the product. `main`
//! is the trusted edge: it fetches the words, and hands the real folder and the real output to `cdle_run`.
#![tactic(auto)]

pub use cdle_call::{Badness, Exit, Outcome, Reason, Spot, cdle_run};
use cdle_folder::{DirFolder, StdSink};
use std::process::ExitCode;
use std::{env, io};

/// Memory was wanted and not there.
const OUT_OF_MEMORY: u8 = 7;

/// A word of the command line is no text, and so there is no command.
const NO_COMMAND: u8 = 2;

fn main(rt: HostRuntime) -> ExitCode {
    let words = match words_of(&rt) {
        Ok(words) => words,
        Err(error) => {
            return ExitCode::from(if error.kind() == io::ErrorKind::OutOfMemory {
                OUT_OF_MEMORY
            } else {
                NO_COMMAND
            });
        }
    };
    // With no name of its own the folder is the present one.
    let mut folder = DirFolder::new(&rt, String::new(rt.alloc()));
    let mut out = StdSink::new(&rt);
    let exit = cdle_run(rt.alloc(), &words, &mut folder, &mut out);
    ExitCode::from(exit.status)
}

/// The words of the command line behind the program's name.
fn words_of(rt: &HostRuntime) -> io::Result<Vec<String>> {
    let mut words = Vec::new(rt.alloc());
    for word in env::args(rt)?.skip(1) {
        words.push(word)?;
    }
    Ok(words)
}
