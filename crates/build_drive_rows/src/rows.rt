//! Calls over folders in memory, whose reports were written down by hand.
use build_drive::{Done, build, core_command};
use cdle_folder::{Folder, MemoryFolder, SureFolder};
use std::alloc::Global;
use std::test::Fail;

/// Three files of the folder: an item, one that names it, and one that is no text.
const IDENTITY: &str = "core 1\n(def id (allt X * (pi x X X)) (xlam X * (lam x X x)))\n";

const AGAIN: &str = "core 1 (def again (allt X * (pi x X X)) id)";

const CUT: &str = "core 1\n(def id";

fn names_of(alloc: Global, files: &[&str]) -> Result<Vec<String>, Fail> {
    let mut names = Vec::new(alloc);
    for file in files {
        names.push(String::from_str(alloc, file)?)?;
    }
    Ok(names)
}

/// The bytes of the report of the call on these files.
fn report<F: Folder>(alloc: Global, names: &Vec<String>, folder: &mut F) -> Vec<u8> {
    let Done { outcome, report } = core_command(alloc, names, 200_000, folder);
    drop(outcome);
    report
}

/// Whether the call on these files reports this.
fn reports<F: Folder>(
    alloc: Global,
    files: &[&str],
    folder: &mut F,
    wanted: &str,
) -> Result<bool, Fail> {
    let names = names_of(alloc, files)?;
    let report = report(alloc, &names, folder);
    Ok(report.as_slice() == wanted.as_bytes())
}

/// A folder with the three files.
fn three_files(alloc: Global) -> Result<SureFolder, Fail> {
    let mut folder = SureFolder::new(alloc);
    folder.add("id", IDENTITY.as_bytes())?;
    folder.add("again", AGAIN.as_bytes())?;
    folder.add("cut", CUT.as_bytes())?;
    Ok(folder)
}

#[test]
fn files_in_order(rt: HostRuntime) -> Result<(), Fail> {
    let alloc = rt.alloc();
    let mut folder = three_files(alloc)?;
    assert!(rt; reports(alloc, &[], &mut folder, "accepted 0\n")?);
    let rows = [
        (["id", "again"], "accepted 2\n"),
        (["again", "id"], "again:1:41: malformed: unbound id\n"),
        (["id", "id"], "refused id: duplicate\n"),
        (["id", "none"], "missing none\n"),
        (["none", "cut"], "missing none\n"),
        (["cut", "none"], "cut:2:8: malformed: wanted type\n"),
        (["id", "cut"], "cut:2:8: malformed: wanted type\n"),
    ];
    for (files, wanted) in rows.iter() {
        assert!(rt; reports(alloc, files, &mut folder, wanted)?);
    }
    Ok(())
}

/// The numbers of the calls that fail: this one.
fn only(alloc: Global, call: u32) -> Result<Vec<u32>, Fail> {
    let mut calls = Vec::new(alloc);
    calls.push(call)?;
    Ok(calls)
}

/// As many items as all files may have.
fn most_items(alloc: Global) -> Result<String, Fail> {
    let items = "(def a (allt X * (pi x X X)) (xlam X * (lam x X x)))".repeat(alloc, 10_000)?;
    Ok(format!(in alloc; "core 1 {items}")?)
}

/// A folder with a file that is too long, one of most items, and the identity; its sixth read fails.
fn limit_files(alloc: Global) -> Result<MemoryFolder, Fail> {
    let mut folder = MemoryFolder::new(alloc, only(alloc, 5)?, Vec::new(alloc));
    folder.add("long", " ".repeat(alloc, 1_048_577)?.as_bytes())?;
    folder.add("id", IDENTITY.as_bytes())?;
    folder.add("most", most_items(alloc)?.as_bytes())?;
    Ok(folder)
}

#[test]
fn limits_and_faults(rt: HostRuntime) -> Result<(), Fail> {
    let alloc = rt.alloc();
    let mut folder = limit_files(alloc)?;
    let rows = [
        (["long", "id"], "limit long: bytes\n"),
        (["most", "id"], "limit id: items\n"),
        (["id", "most"], "limit most: items\n"),
        (["id", "most"], "cannot read id\n"),
    ];
    for (files, wanted) in rows.iter() {
        assert!(rt; reports(alloc, files, &mut folder, wanted)?);
    }
    Ok(())
}

/// Whether the identity as the module `m` is built, and its Core file has these bytes.
fn builds_identity(alloc: Global, wanted: &str) -> Result<bool, Fail> {
    let mut folder = MemoryFolder::new(alloc, Vec::new(alloc), Vec::new(alloc));
    folder.add("m.cdle", "module m.id:∀X:★.X➔X=ΛX.λx.x.".as_bytes())?;
    let Done { outcome, report } = build(alloc, "m", 200_000, &mut folder);
    drop(outcome);
    let is_written = match folder.file("m.core") {
        Some(core) => core.as_slice() == wanted.as_bytes(),
        None => false,
    };
    Ok(is_written && report.as_slice() == "built m modules 1 items 1\n".as_bytes())
}

#[test]
fn identity_is_built(rt: HostRuntime) -> Result<(), Fail> {
    let core = "core 1\n(def m.id (allt _0 * (pi _1 _0 _0)) (xlam _0 * (lam _1 _0 _1)))\n";
    assert!(rt; builds_identity(rt.alloc(), core)?);
    Ok(())
}
