//! Items by their names.
ghost use Rattle.std.specs.Prelude.{◌≡◌, ◌+◌, ◌<◌, ◌^◌, ℕ, List, IfSome};
ghost use Rattle.scope_model.specs.ScopeNames.{listed};
ghost use Rattle.scope_part.specs.Entries.{item_standing, latest_at, listed_names, standing_from};

use cdle_model::{NoMemory, Sort};
use indexmap::IndexMap;
use scoped_tree::ItemName;
use std::alloc::{AllocError, Global};

/// The names of items in order, and for each name the place of its latest item and what that stands for.
#[derive(Drop)]
pub struct ItemIndex {
    names: Vec<ItemName>,
    latest: IndexMap<Vec<u8>, (Sort, u32)>,
    ghost indexed: { (w : List ℕ) (n : ℕ) → standing_from n (latest_at latest w) ≡ listed w n (listed_names names.items) },
}

/// The number of what was found, where the first has this one.
fn behind(found: Option<(Sort, u32)>, first: u32) -> Option<(Sort, u32)>
    requires { IfSome found (λ x. first + x.1 < 2 ^ 32) }
    ensures { item_standing result ≡ standing_from first found }
{
    match found {
        Some((sort, place)) => Some((sort, first + place)),
        None => None,
    }
}

impl ItemIndex {
    ghost use Rattle.std.specs.Prelude.{◌∷◌, ◌++◌, [], is_some, length, OnOk, OnErr};
    ghost use Rattle.scope_model.specs.Scope.{texts};
    ghost use Rattle.scope_model.specs.ScopeNames.{is_one_of};
    ghost use Rattle.scoped_tree.specs.Items.{item_name};
    ghost use Rattle.scope_part.specs.Index.{HasRoom, names_of};

    /// No items.
    #[tactic(auto, unfolding(scope_model::specs::ScopeNames::listed))]
    pub fn new(alloc: Global) -> ItemIndex
        ensures { names_of result ≡ [] }
    {
        ItemIndex {
            names: Vec::new(alloc),
            latest: IndexMap::new(alloc),
        }
    }

    /// How many items there are.
    pub fn len(&self) -> usize
        ensures { result ≡ length (names_of self.now) }
    {
        self.names.len()
    }

    /// The place of the latest item of that name, and what that stands for.
    fn latest(&self, word: &[u8]) -> Option<(Sort, u32)>
        ensures from { (n : ℕ) → standing_from n result ≡ listed word.now n (names_of self.now) }
        ensures below { IfSome result (λ x. x.1 < length (names_of self.now)) }
        ensures some { is_some result ≡ is_one_of word.now (texts (names_of self.now)) }
    {
        self.latest.get(word).copied()
    }

    /// The latest item of that name, where the first has this number.
    #[tactic(auto, using(crate::proofs::Indexed::fits_behind))]
    pub(crate) fn find(&self, word: &str, first: u32) -> Option<(Sort, u32)>
        requires { first + length (names_of self.now) < 2 ^ 32 }
        ensures { item_standing result ≡ listed word.now first (names_of self.now) }
    {
        behind(self.latest(word.as_bytes()), first)
    }

    /// Whether an item has that name.
    pub fn has(&self, word: &str) -> bool
        ensures { result ≡ is_one_of word.now (texts (names_of self.now)) }
    {
        self.latest(word.as_bytes()).is_some()
    }

    /// Memory for so many names more.
    fn make_room(&mut self, count: usize) -> Result<(), AllocError>
        ensures kept { names_of self.new ≡ names_of self.old }
        ensures room { OnOk result (HasRoom count self.new) }
    {
        self.names.reserve(count)?;
        self.latest.reserve(count)
    }

    /// Puts a name last, at this place, for which there is room, with its text once more as the key.
    fn put(&mut self, key: Vec<u8>, place: u32, name: ItemName)
        requires room { HasRoom 1 self.old }
        requires same { key.items ≡ name.text }
        requires place { place ≡ length (names_of self.old) }
        ensures { names_of self.new ≡ names_of self.old ++ item_name name ∷ [] }
    {
        let sort = name.sort;
        let Ok(()) = self.names.push(name) else {
            unreachable!()
        };
        match self.latest.insert(key, (sort, place)) {
            Ok(_) => {}
            Err(_) => unreachable!(),
        }
    }

    /// Appends a name. Without memory nothing changes.
    pub fn push(&mut self, alloc: Global, name: ItemName) -> Result<(), NoMemory>
        ensures pushed { OnOk result (names_of self.new ≡ names_of self.old ++ item_name name ∷ []) }
        ensures kept { OnErr result (names_of self.new ≡ names_of self.old) }
    {
        let Ok(place) = u32::try_from(self.names.len()) else {
            return Err(NoMemory);
        };
        let key = Vec::from_slice(alloc, name.text.as_str().as_bytes())?;
        self.make_room(1)?;
        self.put(key, place, name);
        Ok(())
    }

    /// The names in order.
    pub fn names(&self) -> &[ItemName]
        ensures { listed_names result.now ≡ names_of self.now }
    {
        self.names.as_slice()
    }

    /// The names in order.
    pub fn into_names(self) -> Vec<ItemName>
        ensures { listed_names result.items ≡ names_of self }
    {
        self.names
    }
}
