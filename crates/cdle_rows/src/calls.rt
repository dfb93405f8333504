//! One call of the program by the words of a line, and what it comes to as a text.
use cdle_call::{Exit, cdle_run};
use cdle_folder::{Folder, MemorySink};
use std::alloc::Global;
use std::test::Fail;

/// The words of this line, which single spaces part.
fn words_of(alloc: Global, line: &str) -> Result<Vec<String>, Fail> {
    let mut words = Vec::new(alloc);
    for word in line.split(' ') {
        words.push(String::from_str(alloc, word)?)?;
    }
    Ok(words)
}

/// The end of the call with the words of this line.
pub(crate) fn end<F: Folder>(
    alloc: Global,
    line: &str,
    folder: &mut F,
    out: &mut MemorySink,
) -> Result<Exit, Fail> {
    let words = words_of(alloc, line)?;
    Ok(cdle_run(alloc, &words, folder, out))
}

/// Its status.
pub(crate) fn status<F: Folder>(
    alloc: Global,
    line: &str,
    folder: &mut F,
    out: &mut MemorySink,
) -> Result<u8, Fail> {
    let exit = end(alloc, line, folder, out)?;
    let status = exit.status;
    drop(exit);
    Ok(status)
}

/// Its status, and the report that was put, as one text.
pub(crate) fn run<F: Folder>(alloc: Global, line: &str, folder: &mut F) -> Result<String, Fail> {
    let mut out = MemorySink::new(alloc, Vec::new(alloc), 4096)?;
    let status = status(alloc, line, folder, &mut out)?;
    put(alloc, status, &out)
}

/// The status and what went out, as one text.
pub(crate) fn put(alloc: Global, status: u8, out: &MemorySink) -> Result<String, Fail> {
    let report = String::from_utf8_lossy(alloc, out.bytes())?;
    Ok(format!(in alloc; "{status} {report}")?)
}

/// The numbers of the calls that fail: this one.
pub(crate) fn only(alloc: Global, call: u32) -> Result<Vec<u32>, Fail> {
    let mut calls = Vec::new(alloc);
    calls.push(call)?;
    Ok(calls)
}
