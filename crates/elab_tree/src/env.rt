//! The items so far, as the elaborator knows them.
ghost use Rattle.std.specs.Prelude.{◌≡◌, ◌<◌, length, true, Some, IfOk, MatchOption, MatchResult, None};
ghost use Rattle.elab_tree.specs.Items.{written, IsErasedBody};
ghost use Rattle.elab_tree.specs.Known.{data_of_item, empty, item_at, HasErasedBody, with_entry};
ghost use Rattle.elab_tree.specs.Entries.{data_at, data_of, entry_of};

use crate::items::{ErasedBody, OutItem};
use cdle_model::{Mode, NoMemory};
use std::alloc::Global;
use std::marker::Model;

/// A constructor of a datatype: the number of its item, and the modes of its arguments.
#[derive(Drop)]
pub struct Constructor {
    pub item: u32,
    pub modes: Vec<Mode>,
}

/// What is known of a datatype beside its items: the number of its parameters, its constructors in declared order, the numbers of the
/// items that case analysis applies, and whether there is an index.
#[derive(Drop)]
pub struct Datatype {
    pub params: u32,
    pub constructors: Vec<Constructor>,
    pub mu: u32,
    pub sigma: u32,
    pub has_index: bool,
    pub case: Option<u32>,
}

/// An item, with what is left of its body by erasure, and what is known of it where it is a datatype's name.
#[derive(Drop)]
struct EnvItem {
    item: OutItem,
    erased: ErasedBody,
    datatype: Option<Datatype>,
}

impl Model for EnvItem {
    ghost use Rattle.elab_tree.specs.Known.{Entry};
    ghost use Rattle.elab_tree.specs.KnownCode.{coded_entry};
    ghost use Rattle.elab_tree.specs.Items.{written, IsErasedBody};
    ghost use Rattle.elab_tree.specs.Entries.{entry_of};

    ghost Value = { Entry };

    ghost coded = { coded_entry };

    ghost view = { λ a. entry_of a.item a.datatype };

    ghost invariant = { λ a. IsErasedBody (written a.item) a.erased };
}

impl EnvItem {
    fn new(alloc: Global, item: OutItem, datatype: Option<Datatype>) -> Result<EnvItem, NoMemory>
        ensures { IfOk result (λ e. e ≡ entry_of item datatype) }
    {
        let erased = item.erased_body(alloc)?;
        Ok(EnvItem {
            item,
            erased,
            datatype,
        })
    }

    fn item(&self) -> &OutItem
        ensures { written result.now ≡ self.now.item }
    {
        &self.item
    }

    fn erased_body(&self) -> &ErasedBody
        ensures { IsErasedBody self.now.item result.now }
    {
        &self.erased
    }

    fn datatype(&self) -> Option<&Datatype>
        ensures { MatchOption result (self.now.known ≡ None) (λ d. self.now.known ≡ Some (data_of d.now)) }
    {
        match &self.datatype {
            Some(datatype) => Some(datatype),
            None => None,
        }
    }
}

/// The items so far, and whether a call was refused.
#[derive(Drop)]
pub struct Env {
    items: Vec<EnvItem>,
    failed: bool,
}

impl Model for Env {
    ghost use Rattle.std.specs.Prelude.{◌≤◌, length};
    ghost use Rattle.elab_tree.specs.Known.{Known};
    ghost use Rattle.elab_tree.specs.KnownCode.{coded_known};

    ghost Value = { Known };

    ghost coded = { coded_known };

    ghost view = { λ a. record { entries = a.items.items; failed = a.failed } };

    ghost invariant = { λ a. length a.items.items ≤ 4294967295 };
}

impl Env {
    /// No items, and no call that was refused. It takes no memory.
    pub fn new(alloc: Global) -> Env
        ensures { result ≡ empty }
    {
        Env {
            items: Vec::new(alloc),
            failed: false,
        }
    }

    /// Puts the item last, with what is known of it where it is a datatype's name. Its body is erased at once; an item has an erasure.
    /// After want of memory all is as before.
    pub fn push(
        &mut self,
        alloc: Global,
        item: OutItem,
        datatype: Option<Datatype>,
    ) -> Result<(), NoMemory>
        ensures { MatchResult result (λ _. self.new ≡ with_entry self.old (written item) (data_at datatype)) (λ _. self.new ≡ self.old) }
    {
        // Not reached: a list of items has fewer than 4,294,967,295.
        if self.items.len() >= 4_294_967_295 {
            return Err(NoMemory);
        }
        let item = EnvItem::new(alloc, item, datatype)?;
        self.items.push(item)?;
        Ok(())
    }

    /// The item of that number.
    pub fn get(&self, number: u32) -> &OutItem
        requires { number < length self.now.entries }
        ensures { item_at self.now number ≡ Some (written result.now) }
    {
        self.items[number as usize].item()
    }

    /// What is left by erasure of the body of the item of that number. It was erased when the item was put.
    pub fn erased_body(&self, number: u32) -> &ErasedBody
        requires { number < length self.now.entries }
        ensures { HasErasedBody (item_at self.now number) result.now }
    {
        self.items[number as usize].erased_body()
    }

    /// What is known of the item of that number where it is a datatype's name.
    pub fn datatype(&self, number: u32) -> Option<&Datatype>
        requires { number < length self.now.entries }
        ensures { MatchOption result (data_of_item self.now number ≡ None) (λ d. data_of_item self.now number ≡ Some (data_of d.now)) }
    {
        self.items[number as usize].datatype()
    }

    /// The number of items.
    pub fn len(&self) -> u32
        ensures { result ≡ length self.now.entries }
    {
        self.items.len() as u32
    }

    /// Whether a call was refused.
    pub fn has_failed(&self) -> bool
        ensures { result ≡ self.now.failed }
    {
        self.failed
    }

    /// From now on a call was refused.
    pub fn fail(&mut self)
        ensures items { self.new.entries ≡ self.old.entries }
        ensures failed { self.new.failed ≡ true }
    {
        self.failed = true;
    }
}
