//! The numbers of names.
ghost use Rattle.std.specs.Prelude.{◌≡◌, ◌<◌, length, slice_get, [], Some, IfOk, IsOk, OnErr, OnOk};
ghost use Rattle.cdle_names.specs.Texts.{number_of, with_text};

use cdle_model::NoMemory;
use indexmap::IndexSet;
use std::alloc::Global;
use std::marker::Model;

/// The number of a name, in the order of first use.
#[derive(Clone, Copy, Debug, PartialEq, Eq)]
pub struct NameId(pub u32);

/// The texts of names, each of them once, in the order of first use. Contracts see them as lists of bytes.
#[derive(Drop)]
pub struct NameTable {
    texts: IndexSet<String>,
}

impl Model for NameTable {
    ghost use Rattle.std.specs.Prelude.{◌≤◌, ℕ, List, length, map};
    ghost use Rattle.std.specs.String.{string_bytes};

    ghost Value = { List (List ℕ) };

    ghost view = { λ a. map string_bytes a.texts.keys };

    ghost invariant = { λ a. length a.texts.keys ≤ 4294967295 };
}

impl NameTable {
    /// No names.
    pub fn new(alloc: Global) -> NameTable
        ensures { result ≡ [] }
    {
        NameTable {
            texts: IndexSet::new(alloc),
        }
    }

    /// The number of a text. One that is not there goes last, and without memory nothing changes.
    pub fn intern(&mut self, alloc: Global, text: &str) -> Result<NameId, NoMemory>
        requires { length self.old < 4294967295 }
        ensures number { IfOk result (λ id. id.0 ≡ number_of text.now self.old) }
        ensures texts { OnOk result (self.new ≡ with_text text.now self.old) }
        ensures there { IfOk result (λ id. slice_get self.new id.0 ≡ Some text.now) }
        ensures known { number_of text.now self.old < length self.old → IsOk result }
        ensures unchanged { OnErr result (self.new ≡ self.old) }
    {
        if let Some(index) = self.texts.get_index_of(text) {
            return Ok(NameId(index as u32));
        }
        let text = String::from_str(alloc, text)?;
        let (index, _) = self.texts.insert_full(text)?;
        Ok(NameId(index as u32))
    }

    /// The text of a number.
    pub fn text(&self, id: NameId) -> &str
        requires { id.0 < length self.now }
        ensures { slice_get self.now id.0 ≡ Some result.now }
    {
        match self.texts.get_index(id.0 as usize) {
            Some(text) => text.as_str(),
            None => unreachable!(),
        }
    }

    /// How many there are.
    pub fn len(&self) -> u32
        ensures { result ≡ length self.now }
    {
        self.texts.len() as u32
    }
}
