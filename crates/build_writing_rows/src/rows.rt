//! Single calls, with what they answer and what they leave.
use build_writing::{OutputFile, Unread, WritingFault, write_and_read_back};
use cdle_folder::{ChangeRead, MemoryFolder};
use std::alloc::Global;
use std::test::Fail;

/// Two files: the first is written by call 0 and read by call 2, the second by calls 1 and 3.
const TWO: [(&str, &str); 2] = [("a.core", "abc"), ("b.core", "xy")];

/// Files with these names and these bytes.
fn files(alloc: Global, rows: &[(&str, &str)]) -> Result<Vec<OutputFile>, Fail> {
    let mut files = Vec::new(alloc);
    for (name, text) in rows {
        let name = String::from_str(alloc, name)?;
        let bytes = text.as_bytes().to_vec(alloc)?;
        files.push(OutputFile { name, bytes })?;
    }
    Ok(files)
}

/// A folder in which these calls fail and these reads are altered.
fn folder(alloc: Global, fail: &[u32], change: &[ChangeRead]) -> Result<MemoryFolder, Fail> {
    Ok(MemoryFolder::new(alloc, fail.to_vec(alloc)?, change.to_vec(alloc)?))
}

/// Why the call on these files ends early. None where it doesn't.
fn fault(
    alloc: Global,
    rows: &[(&str, &str)],
    folder: &mut MemoryFolder,
) -> Result<Option<WritingFault>, Fail> {
    let files = files(alloc, rows)?;
    match write_and_read_back(alloc, &files, folder) {
        Ok(_) => Ok(None),
        Err(fault) => Ok(Some(fault)),
    }
}

/// Whether these are the bytes of these texts.
fn are_texts(read: &[Vec<u8>], texts: &[&str]) -> bool {
    read.len() == texts.len()
        && read
            .iter()
            .zip(texts)
            .all(|(bytes, text)| bytes.as_slice() == text.as_bytes())
}

/// Whether the call on these files answers these texts.
fn reads(
    alloc: Global,
    rows: &[(&str, &str)],
    folder: &mut MemoryFolder,
    texts: &[&str],
) -> Result<bool, Fail> {
    let files = files(alloc, rows)?;
    match write_and_read_back(alloc, &files, folder) {
        Ok(read) => Ok(are_texts(&read, texts)),
        Err(_) => Ok(false),
    }
}

/// Whether the file of this name has this text. None: whether there is no file of this name.
fn holds(folder: &MemoryFolder, name: &str, text: Option<&str>) -> bool {
    match (folder.file(name), text) {
        (Some(found), Some(text)) => found.as_slice() == text.as_bytes(),
        (found, text) => found.is_none() && text.is_none(),
    }
}

/// Whether each of these files has its text, or is not there.
fn is_left(folder: &MemoryFolder, rows: &[(&str, Option<&str>)]) -> bool {
    rows.iter().all(|(name, text)| holds(folder, name, *text))
}

/// Whether the read of that number was of that file, and gave this text.
fn gave(folder: &MemoryFolder, number: usize, name: &str, text: &str) -> bool {
    match folder.given(number) {
        Some((found, bytes)) => found == name && bytes == text.as_bytes(),
        None => false,
    }
}

/// Whether the reads gave just these files, in their order.
fn is_given(folder: &MemoryFolder, rows: &[(&str, &str)]) -> bool {
    for (number, (name, text)) in rows.iter().enumerate() {
        if !gave(folder, number, name, text) {
            return false;
        }
    }
    folder.given(rows.len()).is_none()
}

/// A folder with two files, of which one is to be written.
fn old_files(alloc: Global) -> Result<MemoryFolder, Fail> {
    let mut folder = folder(alloc, &[], &[])?;
    folder.add("b.core", b"old")?;
    folder.add("c.core", b"other")?;
    Ok(folder)
}

#[test]
fn two_files(rt: HostRuntime) -> Result<(), Fail> {
    let mut folder = old_files(rt.alloc())?;
    let is_read = reads(rt.alloc(), &TWO, &mut folder, &["abc", "xy"])?;
    let left = [
        ("a.core", Some("abc")),
        ("b.core", Some("xy")),
        ("c.core", Some("other")),
    ];
    assert!(rt; is_read && is_given(&folder, &TWO) && is_left(&folder, &left));
    Ok(())
}

#[test]
fn no_file(rt: HostRuntime) -> Result<(), Fail> {
    let mut folder = folder(rt.alloc(), &[], &[])?;
    let is_read = reads(rt.alloc(), &[], &mut folder, &[])?;
    assert!(rt; is_read && is_given(&folder, &[]));
    Ok(())
}

#[test]
fn no_bytes(rt: HostRuntime) -> Result<(), Fail> {
    let mut folder = folder(rt.alloc(), &[], &[])?;
    let is_read = reads(rt.alloc(), &[("e.core", "")], &mut folder, &[""])?;
    assert!(rt; is_read && is_left(&folder, &[("e.core", Some(""))]));
    Ok(())
}

/// Why the call on the two files ends early where this call on the folder fails.
fn fault_where_fails(alloc: Global, call: u32) -> Result<Option<WritingFault>, Fail> {
    let mut folder = folder(alloc, &[call], &[])?;
    fault(alloc, &TWO, &mut folder)
}

#[test]
fn failing_calls(rt: HostRuntime) -> Result<(), Fail> {
    let alloc = rt.alloc();
    let why = Unread::Failed;
    let rows = [
        (0, Some(WritingFault::Unwritten { file: 0 })),
        (1, Some(WritingFault::Unwritten { file: 1 })),
        (2, Some(WritingFault::Unread { file: 0, why })),
        (3, Some(WritingFault::Unread { file: 1, why })),
        (4, None),
    ];
    for (call, wanted) in rows.iter() {
        assert!(rt; fault_where_fails(alloc, *call)? == *wanted);
    }
    Ok(())
}

#[test]
fn left_by_a_failed_write(rt: HostRuntime) -> Result<(), Fail> {
    let mut folder = folder(rt.alloc(), &[1], &[])?;
    let rows = [("a.core", "abc"), ("b.core", "xy"), ("c.core", "z")];
    let is_told = fault(rt.alloc(), &rows, &mut folder)?
        == Some(WritingFault::Unwritten { file: 1 });
    let left = [("a.core", Some("abc")), ("b.core", None), ("c.core", None)];
    assert!(rt; is_told && is_given(&folder, &[]) && is_left(&folder, &left));
    Ok(())
}

/// Why the call on the two files ends early where the read that is this call gives a `d` at that byte.
fn fault_where_altered(alloc: Global, call: u32, at: u32) -> Result<Option<WritingFault>, Fail> {
    let mut folder = folder(
        alloc,
        &[],
        &[ChangeRead {
            call,
            at,
            byte: b'd',
        }],
    )?;
    fault(alloc, &TWO, &mut folder)
}

/// That this was written and this was read.
fn differs(file: usize, at: usize, wrote: Option<u8>, read: Option<u8>) -> Option<WritingFault> {
    Some(WritingFault::Differs {
        file,
        at,
        wrote,
        read,
    })
}

#[test]
fn altered_reads(rt: HostRuntime) -> Result<(), Fail> {
    let alloc = rt.alloc();
    let rows = [
        (2, 0, differs(0, 0, Some(b'a'), Some(b'd'))),
        (2, 2, differs(0, 2, Some(b'c'), Some(b'd'))),
        (3, 0, differs(1, 0, Some(b'x'), Some(b'd'))),
        (3, 1, differs(1, 1, Some(b'y'), Some(b'd'))),
        (3, 2, None),
    ];
    for (call, at, wanted) in rows.iter() {
        assert!(rt; fault_where_altered(alloc, *call, *at)? == *wanted);
    }
    Ok(())
}

/// Why the call on two files of one name ends early: what the second wrote is read back as the first.
fn fault_of_one_name(
    alloc: Global,
    first: &str,
    second: &str,
) -> Result<Option<WritingFault>, Fail> {
    let mut folder = folder(alloc, &[], &[])?;
    fault(alloc, &[("a.core", first), ("a.core", second)], &mut folder)
}

#[test]
fn one_name_twice(rt: HostRuntime) -> Result<(), Fail> {
    let rows = [
        ("abc", "ab", differs(0, 2, Some(b'c'), None)),
        ("ab", "abc", differs(0, 2, None, Some(b'c'))),
        ("", "a", differs(0, 0, None, Some(b'a'))),
        ("ab", "ab", None),
    ];
    for (first, second, wanted) in rows.iter() {
        assert!(rt; fault_of_one_name(rt.alloc(), first, second)? == *wanted);
    }
    Ok(())
}
