//! Readings over folders in memory.
use build_reading::{ReadModules, ReadingFault, Unread, read_modules};
use cdle_folder::MemoryFolder;
use cdle_names::{NameId, NameTable};
use std::alloc::{AllocError, Global};
use std::test::Fail;

/// Adds the file of the module of that name.
fn add_module(
    alloc: Global,
    folder: &mut MemoryFolder,
    name: &str,
    text: &str,
) -> Result<(), Fail> {
    let file = format!(in alloc; "{name}.cdle")?;
    folder.add(file.as_str(), text.as_bytes())?;
    Ok(())
}

/// A folder with the files of these modules, whose calls in `fail` fail.
fn folder_of(
    alloc: Global,
    modules: &[(&str, &str)],
    fail: Vec<u32>,
) -> Result<MemoryFolder, Fail> {
    let mut folder = MemoryFolder::new(alloc, fail, Vec::new(alloc));
    for (name, text) in modules {
        add_module(alloc, &mut folder, name, text)?;
    }
    Ok(folder)
}

/// The text of a name.
fn spelled(names: &NameTable, id: NameId) -> &str {
    if id.0 < names.len() {
        names.text(id)
    } else {
        "?"
    }
}

/// Each module by its name, in order, with the number of bytes of its file.
fn order_text(alloc: Global, names: &NameTable, read: &ReadModules) -> Result<String, AllocError> {
    let mut text = String::new(alloc);
    for (module, source) in read.modules.iter().zip(read.sources.iter()) {
        let name = spelled(names, module.name);
        let count = source.len();
        let word = format!(in alloc; "{name}:{count} ")?;
        text.push_str(word.as_str())?;
    }
    Ok(text)
}

fn stop_word(stop: Unread) -> &'static str {
    match stop {
        Unread::Absent => "absent",
        Unread::TooLong => "too long",
        Unread::Failed => "failed",
    }
}

/// The fault in words, with the name of the module.
fn fault_text(alloc: Global, fault: &ReadingFault) -> Result<String, AllocError> {
    match fault {
        ReadingFault::Unread { name, stop } => {
            let name = name.as_str();
            let word = stop_word(*stop);
            format!(in alloc; "{word} {name}")
        }
        ReadingFault::TooMany { name } => {
            let name = name.as_str();
            format!(in alloc; "too many {name}")
        }
        ReadingFault::Source { name, bytes, fault } => {
            let name = name.as_str();
            let count = bytes.len();
            format!(in alloc; "{name}:{count} {fault}")
        }
        ReadingFault::NoMemory => String::from_str(alloc, "out of memory"),
    }
}

/// What reading from the root comes to, in words.
fn reading(alloc: Global, root: &str, folder: &mut MemoryFolder) -> Result<String, Fail> {
    let mut names = NameTable::new(alloc);
    match read_modules(alloc, root, &mut names, folder) {
        Ok(read) => Ok(order_text(alloc, &names, &read)?),
        Err(fault) => Ok(fault_text(alloc, &fault)?),
    }
}

/// Whether reading these modules from `r` comes to this.
fn comes_to(alloc: Global, modules: &[(&str, &str)], wanted: &str) -> Result<bool, Fail> {
    let mut folder = folder_of(alloc, modules, Vec::new(alloc))?;
    Ok(reading(alloc, "r", &mut folder)?.as_str() == wanted)
}

#[test]
fn orders(rt: HostRuntime) -> Result<(), Fail> {
    let alone = [("r", "module r."), ("c", "module c.")];
    assert!(rt; comes_to(rt.alloc(), &alone, "r:9 ")?);
    let diamond = [
        ("r", "module r. import c. import b."),
        ("b", "module b.  import d."),
        ("c", "module c. import d."),
        ("d", "module d.   "),
    ];
    assert!(rt; comes_to(rt.alloc(), &diamond, "r:29 c:19 b:20 d:12 ")?);
    Ok(())
}

#[test]
fn names_come_once(rt: HostRuntime) -> Result<(), Fail> {
    let twice = [
        ("r", "module r. import c. import c."),
        ("c", "module c. import r. import d."),
        ("d", "module d. import c."),
    ];
    assert!(rt; comes_to(rt.alloc(), &twice, "r:29 c:29 d:19 ")?);
    Ok(())
}

#[test]
fn faults(rt: HostRuntime) -> Result<(), Fail> {
    assert!(rt; comes_to(rt.alloc(), &[], "absent r")?);
    // The import that is missing comes before the one whose file has a fault.
    let missing = [("r", "module r. import c. import b."), ("b", "module b")];
    assert!(rt; comes_to(rt.alloc(), &missing, "absent c")?);
    let faulty = [("r", "module r. import c. import b."), ("c", "module c")];
    assert!(rt; comes_to(rt.alloc(), &faulty, "c:8 unexpected at 8")?);
    let other_name = [("r", "module c. import c.")];
    assert!(rt; comes_to(rt.alloc(), &other_name, "r:19 unexpected at 7")?);
    Ok(())
}

/// The numbers of the calls that fail: this one.
fn only(alloc: Global, call: u32) -> Result<Vec<u32>, Fail> {
    let mut calls = Vec::new(alloc);
    calls.push(call)?;
    Ok(calls)
}

#[test]
fn failing_read(rt: HostRuntime) -> Result<(), Fail> {
    let alloc = rt.alloc();
    let modules = [("r", "module r. import c."), ("c", "module c.")];
    let mut folder = folder_of(alloc, &modules, only(alloc, 1)?)?;
    assert!(rt; reading(alloc, "r", &mut folder)?.as_str() == "failed c");
    // The third call and the fourth do not fail.
    assert!(rt; reading(alloc, "r", &mut folder)?.as_str() == "r:19 c:9 ");
    Ok(())
}

#[test]
fn long_file(rt: HostRuntime) -> Result<(), Fail> {
    let alloc = rt.alloc();
    let modules = [("r", "module r. import c.")];
    let mut folder = folder_of(alloc, &modules, Vec::new(alloc))?;
    let blank = " ".repeat(alloc, 1_048_577)?;
    add_module(alloc, &mut folder, "c", blank.as_str())?;
    assert!(rt; reading(alloc, "r", &mut folder)?.as_str() == "too long c");
    Ok(())
}

/// A folder with the modules from `m1` on to the one of that number, each of which imports the next.
fn chain(alloc: Global, count: u32) -> Result<MemoryFolder, Fail> {
    let mut folder = MemoryFolder::new(alloc, Vec::new(alloc), Vec::new(alloc));
    for number in 1..count {
        let next = number + 1;
        let name = format!(in alloc; "m{number}")?;
        let text = format!(in alloc; "module {name}. import m{next}.")?;
        add_module(alloc, &mut folder, name.as_str(), text.as_str())?;
    }
    let name = format!(in alloc; "m{count}")?;
    let text = format!(in alloc; "module {name}.")?;
    add_module(alloc, &mut folder, name.as_str(), text.as_str())?;
    Ok(folder)
}

/// How many modules are read from `m1` on. None where they are not read.
fn count_read(alloc: Global, folder: &mut MemoryFolder) -> Option<usize> {
    let mut names = NameTable::new(alloc);
    match read_modules(alloc, "m1", &mut names, folder) {
        Ok(read) => Some(read.modules.len()),
        Err(_) => None,
    }
}

#[test]
fn most_modules(rt: HostRuntime) -> Result<(), Fail> {
    let mut folder = chain(rt.alloc(), 500)?;
    assert!(rt; count_read(rt.alloc(), &mut folder) == Some(500));
    Ok(())
}

#[test]
fn one_too_many(rt: HostRuntime) -> Result<(), Fail> {
    let mut folder = chain(rt.alloc(), 501)?;
    assert!(rt; reading(rt.alloc(), "m1", &mut folder)?.as_str() == "too many m501");
    // Behind the 500 reads none follows.
    assert!(rt; folder.given(499).is_some() && folder.given(500).is_none());
    Ok(())
}
