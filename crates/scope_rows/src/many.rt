//! A module of many items.
use crate::read::scope_of;
use cdle_names::NameTable;
use std::alloc::Global;
use std::test::Fail;
use surf_scope::Exports;

/// A module of so many types behind its first, each of which is the one before it.
fn chain(alloc: Global, items: u32) -> Result<String, Fail> {
    let mut text = String::from_str(alloc, "module m.\nt0 : ★ = ∀ X : ★ . X .\n")?;
    for number in 1..=items {
        let before = number.saturating_sub(1);
        text.push_str(format!(in alloc; "t{number} : ★ = t{before} .\n")?.as_str())?;
    }
    Ok(text)
}

/// How many Core items the module has, where each name of it stands for something.
fn items_of(alloc: Global, text: &str) -> Option<usize> {
    let mut names = NameTable::new(alloc);
    let exports = Exports::new(alloc);
    match scope_of(alloc, "m", text, &exports, &mut names) {
        Some(Ok(module)) => Some(module.names.len()),
        _ => None,
    }
}

/// The time that this takes grows with the number of items, and not with its square.
#[test]
fn ten_thousand_items(rt: HostRuntime) -> Result<(), Fail> {
    let text = chain(rt.alloc(), 9_999)?;
    assert_eq!(rt; items_of(rt.alloc(), text.as_str()), Some(10_000));
    Ok(())
}
