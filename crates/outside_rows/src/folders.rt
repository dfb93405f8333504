//! Each implementation once, and each fault.
use cdle_folder::{
    ChangeRead, DirFolder, Folder, MemoryFolder, MemorySink, ReadStop, Sink, StdSink, SureFolder,
    WriteStop,
};
use std::alloc::Global;
use std::fs;
use std::process::Abort;

/// Whether the read gives these bytes, or nothing for this reason.
fn reads<F: Folder>(
    alloc: Global,
    folder: &mut F,
    name: &str,
    limit: u64,
    wanted: Result<&[u8], ReadStop>,
) -> bool {
    match folder.read(alloc, name, limit) {
        Ok(bytes) => wanted == Ok(bytes.as_slice()),
        Err(stop) => wanted == Err(stop),
    }
}

/// Each row has a name, a limit, and what a read of them gives.
fn assert_reads<F: Folder>(
    rt: &impl Abort,
    alloc: Global,
    folder: &mut F,
    rows: &[(&str, u64, Result<&[u8], ReadStop>)],
) {
    for (name, limit, wanted) in rows {
        assert!(rt; reads(alloc, folder, name, *limit, *wanted));
    }
}

/// Each row has a name and bytes, and what a write of them answers.
fn assert_writes<F: Folder>(
    rt: &impl Abort,
    alloc: Global,
    folder: &mut F,
    rows: &[(&str, &str, Result<(), WriteStop>)],
) {
    for (name, text, wanted) in rows {
        assert!(rt; folder.write(alloc, name, text.as_bytes()) == *wanted);
    }
}

#[test]
fn memory(rt: HostRuntime) {
    let alloc = rt.alloc();
    let fail = [1u32].to_vec(alloc).expect(&rt, "room");
    let mut folder = MemoryFolder::new(alloc, fail, Vec::new(alloc));
    folder.add("a", b"abc").expect(&rt, "room");
    let rows = [
        ("a", 3, Ok(b"abc".as_slice())),
        ("a", 3, Err(ReadStop::Failed)),
        ("b", 3, Err(ReadStop::Absent)),
        ("a", 2, Err(ReadStop::TooLong)),
    ];
    assert_reads(&rt, rt.alloc(), &mut folder, &rows);
    folder.add("a", b"xy").expect(&rt, "room");
    assert!(rt; reads(alloc, &mut folder, "a", 2, Ok(b"xy")));
}

/// Whether these bytes stand under that name, or nothing.
fn stands(folder: &MemoryFolder, name: &str, wanted: Option<&[u8]>) -> bool {
    match folder.file(name) {
        Some(file) => wanted == Some(file.as_slice()),
        None => wanted.is_none(),
    }
}

/// Whether the read of that number gave these bytes of that file.
fn gave(folder: &MemoryFolder, number: usize, name: &str, bytes: &[u8]) -> bool {
    match folder.given(number) {
        Some((found, given)) => found == name && given == bytes,
        None => false,
    }
}

#[test]
fn memory_written(rt: HostRuntime) {
    let alloc = rt.alloc();
    let fail = [3u32].to_vec(alloc).expect(&rt, "room");
    let mut folder = MemoryFolder::new(alloc, fail, Vec::new(alloc));
    folder.add("b", b"old").expect(&rt, "room");
    let rows = [("a", "abc", Ok(())), ("a", "x", Ok(()))];
    assert_writes(&rt, alloc, &mut folder, &rows);
    let rows = [("a", 3, Ok(b"x".as_slice()))];
    assert_reads(&rt, alloc, &mut folder, &rows);
    let rows = [("a", "yz", Err(WriteStop::Failed)), ("c", "", Ok(()))];
    assert_writes(&rt, alloc, &mut folder, &rows);
    let rows = [
        ("a", 3, Ok(b"x".as_slice())),
        ("b", 3, Ok(b"old".as_slice())),
        ("c", 0, Ok(b"".as_slice())),
        ("d", 3, Err(ReadStop::Absent)),
    ];
    assert_reads(&rt, alloc, &mut folder, &rows);
    assert!(rt; stands(&folder, "a", Some(b"x".as_slice())));
    assert!(rt; stands(&folder, "d", None));
}

/// Four changes of the second call: of its first byte twice, of one behind its last, and of its last.
const CHANGES: [ChangeRead; 4] = [
    ChangeRead {
        call: 1,
        at: 0,
        byte: b'x',
    },
    ChangeRead {
        call: 1,
        at: 3,
        byte: b'y',
    },
    ChangeRead {
        call: 1,
        at: 0,
        byte: b'z',
    },
    ChangeRead {
        call: 1,
        at: 2,
        byte: b'w',
    },
];

#[test]
fn memory_altered(rt: HostRuntime) {
    let alloc = rt.alloc();
    let change = CHANGES.to_vec(alloc).expect(&rt, "room");
    let mut folder = MemoryFolder::new(alloc, Vec::new(alloc), change);
    let rows = [("a", "abc", Ok(()))];
    assert_writes(&rt, alloc, &mut folder, &rows);
    let rows = [
        ("a", 3, Ok(b"zbw".as_slice())),
        ("a", 3, Ok(b"abc".as_slice())),
    ];
    assert_reads(&rt, alloc, &mut folder, &rows);
    assert!(rt; stands(&folder, "a", Some(b"abc".as_slice())));
    assert!(rt; gave(&folder, 0, "a", b"zbw"));
    assert!(rt; gave(&folder, 1, "a", b"abc"));
    assert!(rt; folder.given(2).is_none());
}

#[test]
fn sure(rt: HostRuntime) {
    let alloc = rt.alloc();
    let mut folder = SureFolder::new(alloc);
    folder.add("a", b"abc").expect(&rt, "room");
    let rows = [
        ("a", 3, Ok(b"abc".as_slice())),
        ("a", 2, Err(ReadStop::TooLong)),
        ("b", 3, Err(ReadStop::Absent)),
    ];
    assert_reads(&rt, rt.alloc(), &mut folder, &rows);
    let rows = [("a", "x", Ok(())), ("b", "yz", Ok(()))];
    assert_writes(&rt, rt.alloc(), &mut folder, &rows);
    let rows = [
        ("a", 3, Ok(b"x".as_slice())),
        ("b", 3, Ok(b"yz".as_slice())),
    ];
    assert_reads(&rt, rt.alloc(), &mut folder, &rows);
}

/// Each row has bytes, and whether they are put.
fn assert_puts(rt: &impl Abort, sink: &mut MemorySink, rows: &[(&str, bool)]) {
    for (text, is_put) in rows {
        assert!(rt; sink.put(text.as_bytes()).is_ok() == *is_put);
    }
}

#[test]
fn sink(rt: HostRuntime) {
    let alloc = rt.alloc();
    let fail = [1u32].to_vec(alloc).expect(&rt, "room");
    let mut sink = MemorySink::new(alloc, fail, 5).expect(&rt, "room");
    let rows = [("abc", true), ("d", false), ("efg", false), ("hi", true)];
    assert!(rt; sink.puts() == 0);
    assert_puts(&rt, &mut sink, &rows);
    assert!(rt; sink.puts() == 4);
    assert!(rt; sink.bytes() == b"abchi".as_slice());
}

#[test]
fn real(rt: HostRuntime) {
    let dir = String::from_str(rt.alloc(), ".").expect(&rt, "room");
    let mut folder = DirFolder::new(&rt, dir);
    let rows = [
        ("file_of_test", "abcdef", Ok(())),
        ("file_of_test", "abc", Ok(())),
        ("file_of_test/b", "abc", Err(WriteStop::Failed)),
        ("no_folder/b", "abc", Err(WriteStop::Failed)),
        (".", "abc", Err(WriteStop::Failed)),
    ];
    assert_writes(&rt, rt.alloc(), &mut folder, &rows);
    let rows = [
        ("file_of_test", 3, Ok(b"abc".as_slice())),
        ("file_of_test", 2, Err(ReadStop::TooLong)),
        ("file_of_test/b", 3, Err(ReadStop::Failed)),
        ("/file_of_test", 3, Err(ReadStop::Absent)),
        (".", 3, Err(ReadStop::Failed)),
    ];
    assert_reads(&rt, rt.alloc(), &mut folder, &rows);
    fs::remove_file(&rt, "file_of_test").expect(&rt, "removed");
    assert!(rt;
        reads(
            rt.alloc(),
            &mut folder,
            "file_of_test",
            3,
            Err(ReadStop::Absent)
        )
    );
    assert!(rt; StdSink::new(&rt).put(b"seen\n").is_ok());
}
