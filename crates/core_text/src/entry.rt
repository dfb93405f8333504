//! What a scope keeps of an item.
ghost use Rattle.std.specs.Prelude.{◌≡◌};

use cdle_model::Sort;

/// An item's name.
#[derive(Drop)]
pub(crate) struct Entry {
    pub(crate) name: Vec<u8>,
    pub(crate) sort: Sort,
}

/// A name that is to be put, once for the list and once as the key of its look-up.
#[derive(Drop)]
pub(crate) struct NewName {
    pub(crate) entry: Entry,
    pub(crate) key: Vec<u8>,
    ghost same: { key.items ≡ entry.name.items },
}
