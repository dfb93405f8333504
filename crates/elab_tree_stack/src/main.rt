//! Makes each recursion of `elab_tree` bear a deep tree: a line `CALL LEVELS` of the input is one call on a tree of that many levels.
//!
//! What it prints shows that the calls came back, so that the depth which they bear is tried at each gate, on the stack that a program
//! has by default. It promises nothing else, and stands on `elab_tree`.
#![tactic(auto)]

mod deep;

use deep::{deep_guide, deep_guide_kind, deep_kind, deep_pure, deep_term, deep_type, open_type};
use elab_tree::{EGuide, EPure, ETerm, EType, NoMemory, TreeStop};
use std::alloc::Global;
use std::io;

fn on_pure(alloc: Global, call: &str, levels: u32) -> Result<(), TreeStop> {
    let tree = deep_pure(alloc, levels)?;
    match call {
        "shift_pure" => {
            let _tree = tree.shift(alloc, 0, 1)?;
        }
        "put_pure" => {
            let part = EPure::var(alloc, 3)?;
            let _tree = tree.put_pure(alloc, 0, &part)?;
        }
        _ => {}
    }
    Ok(())
}

fn on_guide(alloc: Global, call: &str, levels: u32) -> Result<(), TreeStop> {
    let tree = deep_guide(alloc, levels)?;
    match call {
        "shift_guide" => {
            let _tree = tree.shift(alloc, 0, 1)?;
        }
        "put_guide" => {
            let part = EGuide::var(alloc, 3)?;
            let _tree = tree.put_guide(alloc, 1, &part)?;
        }
        _ => {}
    }
    Ok(())
}

fn on_term(alloc: Global, call: &str, levels: u32) -> Result<(), TreeStop> {
    let tree = deep_term(alloc, levels)?;
    match call {
        "shift_term" => {
            let _tree = tree.shift(alloc, 0, 1)?;
        }
        "put_term" => {
            let part = ETerm::var(alloc, 3)?;
            let _tree = tree.put_term(alloc, 0, &part)?;
        }
        "erase_term" => {
            let _tree = tree.erase(alloc)?;
        }
        _ => {}
    }
    Ok(())
}

fn on_type(alloc: Global, call: &str, levels: u32) -> Result<(), TreeStop> {
    let tree = deep_type(alloc, levels)?;
    match call {
        "shift_type" => {
            let _tree = tree.shift(alloc, 0, 1)?;
        }
        "put_type" => {
            let part = EType::var(alloc, 3)?;
            let _tree = tree.put_type(alloc, 0, &part)?;
        }
        "erase_type" => {
            let _tree = tree.erase(alloc)?;
        }
        _ => {}
    }
    Ok(())
}

/// A type of that many levels as the solution of the unknown 0.
fn solution(alloc: Global, levels: u32) -> Result<Vec<Option<EType>>, NoMemory> {
    let mut found = Vec::new(alloc);
    found.push(Some(deep_type(alloc, levels)?))?;
    Ok(found)
}

/// A type of that many levels is put for the unknown in one of that many levels.
fn solve(alloc: Global, levels: u32) -> Result<(), TreeStop> {
    let tree = open_type(alloc, levels)?;
    let found = solution(alloc, levels)?;
    let _tree = tree.solve(alloc, &found)?;
    Ok(())
}

/// A term of that many levels is put at the innermost place of one of that many levels.
fn deep_in_deep(alloc: Global, levels: u32) -> Result<(), TreeStop> {
    let term = deep_term(alloc, levels)?;
    let _tree = term.put_term(alloc, 0, &term)?;
    Ok(())
}

fn call_on(alloc: Global, call: &str, levels: u32) -> Result<(), TreeStop> {
    match call {
        "drop_pure" | "shift_pure" | "put_pure" => on_pure(alloc, call, levels),
        "drop_guide" | "shift_guide" | "put_guide" => on_guide(alloc, call, levels),
        "drop_term" | "shift_term" | "put_term" | "erase_term" => on_term(alloc, call, levels),
        "drop_type" | "shift_type" | "put_type" | "erase_type" => on_type(alloc, call, levels),
        "drop_guide_kind" => {
            let _tree = deep_guide_kind(alloc, levels)?;
            Ok(())
        }
        "drop_kind" => {
            let _tree = deep_kind(alloc, levels)?;
            Ok(())
        }
        "solve" => solve(alloc, levels),
        _ => deep_in_deep(alloc, levels),
    }
}

/// What came of the call.
fn answer(alloc: Global, call: &str, levels: u32) -> &'static str {
    match call_on(alloc, call, levels) {
        Ok(()) => "done",
        Err(TreeStop::TooDeep) => "too deep",
        Err(TreeStop::NoMemory) => "no memory",
    }
}

fn main(rt: HostRuntime) -> io::Result<()> {
    for line in rt.lines(rt.alloc()) {
        let line = line?;
        let mut words = line.as_str().split_whitespace();
        let call = words.next().unwrap_or("");
        let levels: u32 = words.next().unwrap_or("").parse().unwrap_or(0);
        let told = answer(rt.alloc(), call, levels);
        println!(rt; "{call} {levels} {told}")?;
    }
    Ok(())
}
