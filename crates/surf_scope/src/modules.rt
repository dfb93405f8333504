//! The scope of a module.
ghost use Rattle.std.specs.Prelude.{◌≡◌, ◌+◌, ◌<◌, ◌∷◌, ◌++◌, ◌^◌, [], length, OnOk};
ghost use Rattle.scope_model.specs.Scope.{count as count_of};
ghost use Rattle.surf_tree.specs.Items.{item_of, module_of};
ghost use Rattle.scope_part.specs.Entries.{listed_names};
ghost use Rattle.surf_scope.specs.Exports.{known};
ghost use Rattle.scope_part.specs.Index.{names_of};
ghost use Rattle.surf_scope.specs.Modules.{spelled_item, spelled_module};
ghost use Rattle.surf_scope.specs.Passed.{GivesItem};
ghost use Rattle.surf_scope.specs.Resolved.{IsResolved};
ghost use Rattle.surf_scope.specs.Modulewise.{GivesItems, around_behind};

use crate::exports::Exports;
use crate::items::{NewItem, resolved_item};
use cdle_model::Text;
use cdle_names::{NameTable, NoMemory};
use scope_part::{ItemIndex, Resolver, ScopeFault, spelling};
use scoped_tree::{ItemName, ScopedItem, ScopedModule};
use std::alloc::{AllocError, Global};
use surf_tree::{SrcItem, SrcModule};

/// The items of a module whose scope is known, and the names of its Core items.
#[derive(Drop)]
pub(crate) struct Passed {
    items: Vec<ScopedItem>,
    own: ItemIndex,
}

/// An item of the module behind its own items so far.
fn next_item(
    alloc: Global,
    names: &NameTable,
    module: &SrcModule,
    exports: &Exports,
    own: &ItemIndex,
    item: &SrcItem,
) -> Result<NewItem, ScopeFault>
    requires few { count_of (known exports.now) + length (names_of own.now) < 2 ^ 32 }
    ensures { GivesItem (around_behind (known exports.now) (spelled_module names.now (module_of «module».now)) (names_of own.now)) (spelled_item names.now (item_of item.now)) result }
{
    let resolver = Resolver {
        alloc,
        name: module.name,
        imports: module.imports.as_slice(),
        modules: exports.modules(),
        first: exports.count(),
        own,
    };
    resolved_item(&resolver, names, item)
}

/// Puts names behind those of the module.
fn extend(alloc: Global, own: &mut ItemIndex, names: Vec<ItemName>) -> Result<(), NoMemory>
    ensures { OnOk result (names_of own.new ≡ names_of own.old ++ listed_names names.items) }
{
    for name in names {
        own.push(alloc, name)?;
    }
    Ok(())
}

/// Puts the names of an item's Core items behind those of the module, of which the first has this number.
fn append(
    alloc: Global,
    first: u32,
    own: &mut ItemIndex,
    names: Vec<ItemName>,
) -> Result<(), NoMemory>
    ensures names { OnOk result (names_of own.new ≡ names_of own.old ++ listed_names names.items) }
    ensures few { OnOk result (first + length (names_of own.new) < 2 ^ 32) }
{
    extend(alloc, own, names)?;
    let Ok(count) = u32::try_from(own.len()) else {
        return Err(NoMemory);
    };
    if first.checked_add(count).is_none() {
        return Err(NoMemory);
    }
    Ok(())
}

/// Puts an item behind those so far.
fn add_item(
    alloc: Global,
    first: u32,
    own: &mut ItemIndex,
    items: &mut Vec<ScopedItem>,
    new: NewItem,
) -> Result<(), NoMemory>
    ensures items { OnOk result (items.new.items ≡ items.old.items ++ new.item ∷ []) }
    ensures names { OnOk result (names_of own.new ≡ names_of own.old ++ listed_names new.names.items) }
    ensures few { OnOk result (first + length (names_of own.new) < 2 ^ 32) }
{
    append(alloc, first, own, new.names)?;
    items.push(new.item)?;
    Ok(())
}

/// The items of the module in order.
fn items(
    alloc: Global,
    names: &NameTable,
    module: &SrcModule,
    exports: &Exports,
) -> Result<Passed, ScopeFault>
    ensures { GivesItems (known exports.now) (spelled_module names.now (module_of «module».now)) result }
{
    let first = exports.count();
    let mut own = ItemIndex::new(alloc);
    let mut items = Vec::new(alloc);
    let mut rest = module.items.as_slice();
    'items: while let Some((item, others)) = rest.split_first() {
        let new = match next_item(alloc, names, module, exports, &own, item) {
            Ok(new) => new,
            Err(fault) => return Err(fault),
        };
        match add_item(alloc, first, &mut own, &mut items, new) {
            Ok(()) => {}
            Err(NoMemory) => return Err(ScopeFault::NoMemory),
        }
        rest = others;
    }
    Ok(Passed { items, own })
}

/// The module whose names are replaced by what they stand for, behind those in `exports`, or its first fault.
pub fn resolve(
    alloc: Global,
    module: &SrcModule,
    exports: &Exports,
    names: &mut NameTable,
) -> Result<ScopedModule, ScopeFault>
    ensures resolved { IsResolved (known exports.now) (spelled_module names.old (module_of «module».now)) result }
    ensures names { names.new ≡ names.old }
{
    let passed = match items(alloc, &*names, module, exports) {
        Ok(passed) => passed,
        Err(fault) => return Err(fault),
    };
    match Text::new(alloc, spelling(&*names, module.name)) {
        Ok(name) => {
            Ok(ScopedModule {
                name,
                first: exports.count(),
                names: passed.own.into_names(),
                items: passed.items,
            })
        }
        Err(AllocError) => Err(ScopeFault::NoMemory),
    }
}
