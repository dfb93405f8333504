//! The items of a Core file.
ghost use Rattle.std.specs.Prelude.{◌≡◌, length, slice_get, MatchOption, None, Some, IfOk};
ghost use Rattle.cdle_model.specs.Forms.{name_of};
ghost use Rattle.core_tree.specs.Items.{all_written, written};

use crate::sharing::share_both;
use crate::term::{Kind, Term, Ty};
use cdle_model::{NoMemory, Text};
use std::alloc::Global;
use std::marker::Model;

/// An item of a Core file: a term under its type, or a type under its kind.
#[derive(Drop)]
pub enum CoreItem {
    Def { name: Text, ty: Ty, body: Term },
    TypeDef { name: Text, kind: Kind, body: Ty },
}

impl CoreItem {
    /// The name that the item gives.
    pub fn name(&self) -> &Text
        ensures { result.now ≡ name_of (written self.now) }
    {
        match self {
            CoreItem::Def { name, .. } => name,
            CoreItem::TypeDef { name, .. } => name,
        }
    }

    /// The same item once more. Its trees are shared, and its name is copied.
    pub fn copy(&self, alloc: Global) -> Result<CoreItem, NoMemory>
        ensures { IfOk result (λ copy. written copy ≡ written self.now) }
    {
        let Ok(name) = Text::new(alloc, self.name().as_str()) else {
            return Err(NoMemory);
        };
        match self {
            CoreItem::Def { ty, body, .. } => {
                let (ty, body) = share_both(ty, body)?;
                Ok(CoreItem::Def { name, ty, body })
            }
            CoreItem::TypeDef { kind, body, .. } => {
                let (kind, body) = share_both(kind, body)?;
                Ok(CoreItem::TypeDef { name, kind, body })
            }
        }
    }
}

/// The items of a Core file in their order, which contracts see as a list.
#[derive(Drop)]
pub struct CoreItems {
    items: Vec<CoreItem>,
}

impl Model for CoreItems {
    ghost use Rattle.std.specs.Prelude.{List};
    ghost use Rattle.std.specs.Coded.{coded_list};
    ghost use Rattle.cdle_model.specs.Forms.{Written};
    ghost use Rattle.cdle_model.specs.ItemCode.{coded_written};

    ghost Value = { List Written };

    ghost coded = { coded_list coded_written };

    ghost use Rattle.core_tree.specs.Items.{all_written};

    ghost view = { λ a. all_written a.items.items };
}

impl CoreItems {
    /// These items, in this order.
    #[tactic(auto, using(crate::proofs::Written::length_written))]
    pub fn new(items: Vec<CoreItem>) -> CoreItems
        ensures is { result ≡ all_written items.items }
        ensures len { length result ≡ length items.items }
    {
        CoreItems { items }
    }

    /// How many items there are.
    #[tactic(auto, using(crate::proofs::Written::length_written))]
    pub fn len(&self) -> usize
        ensures { result ≡ length self.now }
    {
        self.items.len()
    }

    /// The items one after the other, to go over them.
    pub fn as_slice(&self) -> &[CoreItem]
        ensures { all_written result.now ≡ self.now }
    {
        &self.items
    }

    /// The item of that number, from 0.
    pub fn get(&self, index: usize) -> Option<&CoreItem>
        ensures { MatchOption result (slice_get self.now index ≡ None) (λ item. slice_get self.now index ≡ Some (written item.now)) }
    {
        match self.items.get(index) {
            Some(item) => Some(item),
            None => None,
        }
    }
}

/// A Core file.
#[derive(Drop)]
pub struct CoreFile {
    pub items: CoreItems,
}
