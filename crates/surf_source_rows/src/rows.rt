//! Files of a module `m`.
use cdle_names::{NameId, NameTable, Span};
use source_model::{TokenKind, Wanted};
use std::alloc::Global;
use std::test::Fail;
use surf_source::{SourceFault, read_source};
use surf_tree::{SrcForm, SrcItem, SrcModule};

/// The identity.
const IDENTITY: &str = "module m.\nid : ∀ X : ★ . X ➔ X = Λ X . λ x . x .\n";

/// Another module, which has the identity's name too.
const OTHER: &str = "module m. import m'. other : T = id .";

/// The first fault of each file: of several it is told that the bytes are no text, else what is wrong with the tokens.
const FAULTS: &[(&[u8], SourceFault)] = &[
    (b"module m.\n\xff", SourceFault::NotUtf8 { at: 10 }),
    (b"\xff", SourceFault::NotUtf8 { at: 0 }),
    (b"a ? \xff", SourceFault::NotUtf8 { at: 4 }),
    // a character of three bytes that is cut
    (b"module m. \xe2\x98", SourceFault::NotUtf8 { at: 10 }),
    (b"a ? b", SourceFault::BadCharacter { at: 2 }),
    (b"module n. ?", SourceFault::BadCharacter { at: 10 }),
    (b"{- x", SourceFault::OpenComment { at: 0 }),
    (b"module m. {- x {- -", SourceFault::OpenComment { at: 10 }),
    (
        b"module m",
        SourceFault::Unexpected {
            at: 8,
            wanted: Wanted::Token(TokenKind::Period),
        },
    ),
    (
        b"",
        SourceFault::Unexpected {
            at: 0,
            wanted: Wanted::Token(TokenKind::Module),
        },
    ),
    (
        b"module n.",
        SourceFault::Unexpected {
            at: 7,
            wanted: Wanted::Name,
        },
    ),
    (
        b"module m. a : A = .",
        SourceFault::Unexpected {
            at: 18,
            wanted: Wanted::Term,
        },
    ),
];

/// What the file is read as.
fn read(alloc: Global, bytes: &[u8], names: &mut NameTable) -> Result<SrcModule, SourceFault> {
    if bytes.len() > 1_048_576 {
        return Err(SourceFault::NoMemory);
    }
    read_source(alloc, bytes, "m", names)
}

/// The text of a name.
fn spelled<'a>(names: &'a NameTable, id: NameId) -> &'a str {
    if id.0 < names.len() {
        names.text(id)
    } else {
        "?"
    }
}

/// The name of a definition and its place, and whether its body abstracts over a type.
fn definition<'a>(names: &'a NameTable, item: &SrcItem) -> (&'a str, Span, bool) {
    match item {
        SrcItem::Def {
            name,
            span,
            body,
            ..
        } => (
            spelled(names, *name),
            *span,
            matches!(body.form(), SrcForm::Elam { .. }),
        ),
        SrcItem::TypeDef { name, span, .. } | SrcItem::Data { name, span, .. } => {
            (spelled(names, *name), *span, false)
        }
    }
}

/// Whether the module `m` was read, and has no imports and no items.
fn is_empty(names: &NameTable, read: &Result<SrcModule, SourceFault>) -> bool {
    match read {
        Ok(module) => {
            spelled(names, module.name) == "m"
                && module.imports.is_empty()
                && module.items.is_empty()
        }
        Err(_) => false,
    }
}

/// Whether the module `m` was read, with one definition of this name and place, whose body abstracts over a type or does not.
fn defines(
    names: &NameTable,
    read: &Result<SrcModule, SourceFault>,
    row: (&str, Span, bool),
) -> bool {
    match read {
        Ok(module) => {
            spelled(names, module.name) == "m"
                && module.items.len() == 1
                && is_defined(names, module, row)
        }
        Err(_) => false,
    }
}

/// Whether the first item is this definition.
fn is_defined(names: &NameTable, module: &SrcModule, row: (&str, Span, bool)) -> bool {
    match module.items.first() {
        Some(item) => definition(names, item) == row,
        None => false,
    }
}

#[test]
fn empty_module(rt: HostRuntime) -> Result<(), Fail> {
    let mut names = NameTable::new(rt.alloc());
    let read = read(rt.alloc(), b"module m.", &mut names);
    assert!(rt; is_empty(&names, &read));
    assert!(rt; names.len() == 1);
    Ok(())
}

#[test]
fn identity(rt: HostRuntime) -> Result<(), Fail> {
    let mut names = NameTable::new(rt.alloc());
    let read = read(rt.alloc(), IDENTITY.as_bytes(), &mut names);
    let row = ("id", Span { from: 10, to: 12 }, true);
    assert!(rt; defines(&names, &read, row));
    // m, id, X and x
    assert!(rt; names.len() == 4);
    Ok(())
}

#[test]
fn one_table(rt: HostRuntime) -> Result<(), Fail> {
    let mut names = NameTable::new(rt.alloc());
    let first = read(rt.alloc(), IDENTITY.as_bytes(), &mut names);
    let second = read(rt.alloc(), OTHER.as_bytes(), &mut names);
    let identity = ("id", Span { from: 10, to: 12 }, true);
    let other = ("other", Span { from: 21, to: 26 }, false);
    assert!(rt; defines(&names, &first, identity));
    assert!(rt; defines(&names, &second, other));
    // m', other and T besides
    assert!(rt; names.len() == 7);
    Ok(())
}

/// The fault of the file, where it is not read.
fn fault_of(alloc: Global, bytes: &[u8]) -> Option<SourceFault> {
    let mut names = NameTable::new(alloc);
    read(alloc, bytes, &mut names).err()
}

#[test]
fn first_faults(rt: HostRuntime) -> Result<(), Fail> {
    for (bytes, fault) in FAULTS {
        assert!(rt; fault_of(rt.alloc(), bytes) == Some(*fault), "of {fault}");
    }
    Ok(())
}
