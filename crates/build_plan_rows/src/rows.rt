//! Modules in reading order, each by the numbers of its name and of the names that it imports.
use build_plan::{PlanFault, order};
use cdle_model::NoMemory;
use cdle_names::{NameId, Span};
use std::alloc::Global;
use std::test::Fail;
use surf_tree::SrcModule;

/// A module of that name with these imports and no items.
fn module(alloc: Global, name: u32, imports: &[u32]) -> Result<SrcModule, NoMemory> {
    let mut list = Vec::new(alloc);
    for import in imports {
        list.push((NameId(*import), Span { from: 0, to: 0 }))?;
    }
    Ok(SrcModule {
        name: NameId(name),
        imports: list,
        items: Vec::new(alloc),
    })
}

/// The modules of these names and imports.
fn modules(alloc: Global, rows: &[(u32, &[u32])]) -> Result<Vec<SrcModule>, NoMemory> {
    let mut list = Vec::new(alloc);
    for (name, imports) in rows {
        list.push(module(alloc, *name, imports)?)?;
    }
    Ok(list)
}

/// Whether these modules are taken in that order.
fn is_taken(alloc: Global, rows: &[(u32, &[u32])], numbers: &[usize]) -> bool {
    let Ok(list) = modules(alloc, rows) else {
        return false;
    };
    match order(alloc, list.as_slice()) {
        Ok(found) => found.as_slice() == numbers,
        Err(_) => false,
    }
}

/// Whether these are the names of the cycle that is told of these modules.
fn is_cycle(alloc: Global, rows: &[(u32, &[u32])], cycle: &[NameId]) -> bool {
    let Ok(list) = modules(alloc, rows) else {
        return false;
    };
    match order(alloc, list.as_slice()) {
        Err(PlanFault::Cycle { names }) => names.as_slice() == cycle,
        _ => false,
    }
}

#[test]
fn orders(rt: HostRuntime) -> Result<(), Fail> {
    assert!(rt; is_taken(rt.alloc(), &[], &[]));
    assert!(rt; is_taken(rt.alloc(), &[(7, &[])], &[0]));
    // each imports the next
    assert!(rt; is_taken(rt.alloc(), &[(0, &[1]), (1, &[2]), (2, &[])], &[2, 1, 0]));
    // r imports c, then b; both import d
    assert!(rt;
        is_taken(
            rt.alloc(),
            &[(5, &[2, 1]), (2, &[3]), (1, &[3]), (3, &[])],
            &[3, 1, 2, 0]
        )
    );
    // an import that is written twice
    assert!(rt; is_taken(rt.alloc(), &[(0, &[1, 1]), (1, &[])], &[1, 0]));
    // of the modules that are free the first is taken, also where another was free before it
    assert!(rt;
        is_taken(
            rt.alloc(),
            &[(0, &[1, 2, 3]), (1, &[3]), (2, &[]), (3, &[])],
            &[2, 3, 1, 0]
        )
    );
    Ok(())
}

#[test]
fn cycles(rt: HostRuntime) -> Result<(), Fail> {
    assert!(rt; is_cycle(rt.alloc(), &[(4, &[4])], &[NameId(4), NameId(4)]));
    assert!(rt;
        is_cycle(
            rt.alloc(),
            &[(3, &[1]), (1, &[3])],
            &[NameId(3), NameId(1), NameId(3)]
        )
    );
    // the root imports x, which imports y, which imports x
    assert!(rt;
        is_cycle(
            rt.alloc(),
            &[(0, &[8]), (8, &[9]), (9, &[8])],
            &[NameId(8), NameId(9), NameId(8)]
        )
    );
    // the first import is taken, and of the other two, which are stuck, the first is followed
    assert!(rt;
        is_cycle(
            rt.alloc(),
            &[(0, &[3, 1, 2]), (3, &[]), (1, &[1]), (2, &[2])],
            &[NameId(1), NameId(1)]
        )
    );
    Ok(())
}

#[test]
fn unknown_import(rt: HostRuntime) -> Result<(), Fail> {
    assert!(rt; !is_taken(rt.alloc(), &[(0, &[1])], &[0]));
    assert!(rt; !is_cycle(rt.alloc(), &[(0, &[1])], &[]));
    Ok(())
}
