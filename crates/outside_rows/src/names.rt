//! Places and numbers that were counted by hand.
use cdle_names::{NameId, NameTable, Place, place_of};
use std::alloc::Global;
use std::process::Abort;

/// Each row has a text, a byte of it, and the line and column of that byte. `é` has two bytes, and `★` three.
const PLACES: [(&str, u32, u32, u32); 9] = [
    ("", 0, 1, 1),
    ("ab", 1, 1, 2),
    ("ab\n", 2, 1, 3),
    ("ab\ncd", 3, 2, 1),
    ("\n\nab", 3, 3, 2),
    ("é★x", 5, 1, 3),
    ("x\né★", 7, 2, 3),
    ("ab\ncd", 5, 2, 3),
    ("ab\ncd", 9, 2, 3),
];

/// Each row has a text, and the number that it gets behind those before it.
const NUMBERS: [(&str, u32); 6] = [("x", 0), ("", 1), ("é★", 2), ("x", 0), ("X", 3), ("é★", 2)];

#[test]
fn places(rt: HostRuntime) {
    for (text, at, line, column) in PLACES {
        assert!(rt; place_of(text, at) == Place { line, column });
    }
}

/// The number that the text gets. None where the table is full.
fn number_of(alloc: Global, names: &mut NameTable, text: &str) -> Option<u32> {
    if names.len() == u32::MAX {
        return None;
    }
    match names.intern(alloc, text) {
        Ok(id) => Some(id.0),
        Err(_) => None,
    }
}

/// Each row has a text, and the number that it gets.
fn assert_numbers(rt: &impl Abort, alloc: Global, names: &mut NameTable, rows: &[(&str, u32)]) {
    for (text, number) in rows {
        assert!(rt; number_of(alloc, names, text) == Some(*number));
    }
}

#[test]
fn numbers_of_names(rt: HostRuntime) {
    let mut names = NameTable::new(rt.alloc());
    assert!(rt; names.len() == 0);
    assert_numbers(&rt, rt.alloc(), &mut names, &NUMBERS);
    assert!(rt; names.len() == 4);
    assert!(rt; names.text(NameId(2)) == "é★");
}
