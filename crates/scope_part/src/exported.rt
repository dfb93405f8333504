//! A module whose scope is known, by the names of its items.
ghost use Rattle.std.specs.Prelude.{◌≡◌, ◌+◌, ◌<◌, ◌^◌, length, IfOk};
ghost use Rattle.scoped_tree.specs.Items.{item_name};
ghost use Rattle.scope_part.specs.Entries.{listed_names};
ghost use Rattle.scope_part.specs.Index.{names_of};

use crate::index::ItemIndex;
use cdle_model::{NoMemory, Sort, Text};
use scoped_tree::{ItemName, ScopedModule};
use std::alloc::{AllocError, Global};

/// A module whose scope is known, with the names of its Core items, of which the first has this number.
#[derive(Drop)]
pub struct ExportedModule {
    name: Text,
    first: u32,
    items: ItemIndex,
    ghost few: { first + length (names_of items) < 2 ^ 32 },
}

fn copy_of(alloc: Global, name: &ItemName) -> Result<ItemName, AllocError>
    ensures { IfOk result (λ copy. item_name copy ≡ item_name name.now) }
{
    let text = Text::new(alloc, name.text.as_str())?;
    Ok(ItemName {
        text,
        sort: name.sort,
    })
}

/// An index of these names.
fn index_of(alloc: Global, names: &[ItemName]) -> Result<ItemIndex, NoMemory>
    ensures { IfOk result (λ index. names_of index ≡ listed_names names.now) }
{
    let mut index = ItemIndex::new(alloc);
    for name in names {
        index.push(alloc, copy_of(alloc, name)?)?;
    }
    Ok(index)
}

impl ExportedModule {
    ghost use Rattle.scope_model.specs.ScopeNames.{listed};
    ghost use Rattle.scoped_tree.specs.Items.{exported_of};
    ghost use Rattle.scope_part.specs.Entries.{item_standing};
    ghost use Rattle.scope_part.specs.Known.{exported_as};

    /// The module as those behind it know it.
    pub fn new(alloc: Global, module: &ScopedModule) -> Result<ExportedModule, NoMemory>
        ensures { IfOk result (λ m. exported_as m ≡ exported_of «module».now) }
    {
        let names = module.names.as_slice();
        let Ok(count) = u32::try_from(names.len()) else {
            return Err(NoMemory);
        };
        if module.first.checked_add(count).is_none() {
            return Err(NoMemory);
        }
        let name = Text::new(alloc, module.name.as_str())?;
        let items = index_of(alloc, names)?;
        Ok(ExportedModule {
            name,
            first: module.first,
            items,
        })
    }

    /// The module's name.
    pub(crate) fn name(&self) -> &str
        ensures { result.now ≡ (exported_as self.now).name }
    {
        self.name.as_str()
    }

    /// The latest item of that name.
    pub(crate) fn find(&self, word: &str) -> Option<(Sort, u32)>
        ensures { item_standing result ≡ listed word.now (exported_as self.now).first (exported_as self.now).items }
    {
        self.items.find(word, self.first)
    }
}
