//! The names of items.
ghost use Rattle.std.specs.Prelude.{◌≡◌, ℕ, List, map, IfOk};
ghost use Rattle.cdle_model.specs.Classes.{item_sort};
ghost use Rattle.core_tree.specs.Items.{written};
ghost use Rattle.core_text.specs.Names.{entry_names, item_name, latest_at, latest_of, new_name};

use crate::entry::{Entry, NewName};
use cdle_model::{NoMemory, Sort};
use core_tree::{CoreFile, CoreItem};
use indexmap::IndexMap;
use std::alloc::{AllocError, Global};

/// The items so far: their names in order, and for each name the number of its latest item and what that stands for.
#[derive(Drop)]
pub struct CoreScope {
    entries: Vec<Entry>,
    latest: IndexMap<Vec<u8>, (Sort, u32)>,
    ghost indexed: { (w : List ℕ) → latest_at latest w ≡ latest_of w (entry_names entries.items) },
}

/// What an item's name stands for.
pub(crate) fn sort_of(item: &CoreItem) -> Sort
    ensures { result ≡ item_sort (written item.now) }
{
    match item {
        CoreItem::Def { .. } => Sort::OfTerm,
        CoreItem::TypeDef { .. } => Sort::OfType,
    }
}

impl NewName {
    fn new(alloc: Global, name: &[u8], sort: Sort) -> Result<NewName, AllocError>
        ensures { IfOk result (λ new. new_name new ≡ record { text = name.now; sort = sort }) }
    {
        let key = Vec::from_slice(alloc, name)?;
        let name = Vec::from_slice(alloc, name)?;
        Ok(NewName {
            entry: Entry { name, sort },
            key,
        })
    }
}

/// The names of items, to be put.
fn new_names(alloc: Global, items: &[CoreItem]) -> Result<Vec<NewName>, AllocError>
    ensures { IfOk result (λ names. map new_name names.items ≡ map item_name items.now) }
{
    let mut names = Vec::new(alloc);
    for item in items {
        names.push(NewName::new(alloc, item.name().as_str().as_bytes(), sort_of(item))?)?;
    }
    Ok(names)
}

impl CoreScope {
    ghost use Rattle.std.specs.Prelude.{◌+◌, ◌<◌, ◌^◌, ◌∷◌, [], length, IfSome, OnOk, OnErr};
    ghost use Rattle.cdle_model.specs.CoreNames.{item_of, with_items};
    ghost use Rattle.core_text.specs.Names.{numbered};
    ghost use Rattle.core_text.specs.Scope.{known_names, HasRoom};

    /// No items.
    pub fn new(alloc: Global) -> CoreScope
        ensures { known_names result ≡ [] }
    {
        CoreScope {
            entries: Vec::new(alloc),
            latest: IndexMap::new(alloc),
        }
    }

    /// The number of items.
    pub(crate) fn len(&self) -> u32
        requires { length (known_names self.now) < 2 ^ 32 }
        ensures { result ≡ length (known_names self.now) }
    {
        self.entries.len() as u32
    }

    /// The latest item of that name, and what it stands for.
    pub(crate) fn find(&self, word: &[u8]) -> Option<(Sort, u32)>
        requires { length (known_names self.now) < 2 ^ 32 }
        ensures found { numbered result ≡ item_of word.now (known_names self.now) }
        ensures below { IfSome result (λ x. x.1 < length (known_names self.now)) }
    {
        self.latest.get(word).copied()
    }

    /// Memory for so many names more.
    fn make_room(&mut self, count: usize) -> Result<(), AllocError>
        ensures kept { known_names self.new ≡ known_names self.old }
        ensures room { OnOk result (HasRoom count self.new) }
    {
        self.entries.reserve(count)?;
        self.latest.reserve(count)
    }

    /// Puts a name last, for which there is room.
    fn put(&mut self, name: NewName)
        requires room { HasRoom 1 self.old }
        requires counted { length (known_names self.old) + 1 < 2 ^ 32 }
        ensures put { known_names self.new ≡ new_name name ∷ known_names self.old }
        ensures room { (count : ℕ) → HasRoom (count + 1) self.old → HasRoom count self.new }
    {
        let number = self.entries.len() as u32;
        let sort = name.entry.sort;
        let Ok(()) = self.entries.push(name.entry) else {
            unreachable!()
        };
        match self.latest.insert(name.key, (sort, number)) {
            Ok(_) => {}
            Err(_) => unreachable!(),
        }
    }

    /// Appends a name. Without memory nothing changes.
    pub(crate) fn push(&mut self, alloc: Global, name: &[u8], sort: Sort) -> Result<(), AllocError>
        requires { length (known_names self.old) + 1 < 2 ^ 32 }
        ensures pushed { OnOk result (known_names self.new ≡ record { text = name.now; sort = sort } ∷ known_names self.old) }
        ensures kept { OnErr result (known_names self.new ≡ known_names self.old) }
    {
        let name = NewName::new(alloc, name, sort)?;
        self.make_room(1)?;
        self.put(name);
        Ok(())
    }

    /// Appends the names of a file's items. Without memory nothing changes.
    pub fn add(&mut self, alloc: Global, file: &CoreFile) -> Result<(), NoMemory>
        requires { length (known_names self.old) + length file.now.items < 2 ^ 32 }
        ensures added { OnOk result (known_names self.new ≡ with_items file.now.items (known_names self.old)) }
        ensures counted { OnOk result (length (known_names self.new) ≡ length (known_names self.old) + length file.now.items) }
        ensures kept { OnErr result (known_names self.new ≡ known_names self.old) }
    {
        let names = new_names(alloc, file.items.as_slice())?;
        self.make_room(names.len())?;
        for name in names {
            self.put(name);
        }
        Ok(())
    }
}
