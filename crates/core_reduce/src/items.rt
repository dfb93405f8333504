//! The items that were checked, with their erased bodies.
ghost use Rattle.std.specs.Prelude.{◌≡◌, ◌++◌, ◌<◌, ◌∷◌, [], IfOk, MatchResult, Some, length, slice_get};
ghost use Rattle.cdle_model.specs.Classes.{AreScoped, IsScopedOver, item_sorts};
ghost use Rattle.cdle_model.specs.Derivation.{bodies, signature};
ghost use Rattle.cdle_model.specs.Fitting.{HaveErasures, ItemHasErasures, class_of};
ghost use Rattle.cdle_model.specs.declared.grammar.Sort.{Sort};
ghost use Rattle.core_tree.specs.Items.{written};
ghost use Rattle.core_reduce.specs.Checked.{IsBody};
ghost use Rattle.core_reduce.specs.Sides.{class_trees, root_class, root_tree};

use crate::root::Root;
use cdle_model::NoMemory;
use core_tree::CoreItem;
use core_view::{GuideView, PureView};
use std::alloc::Global;
use std::marker::Model;

#[derive(Drop)]
struct CheckedItem {
    item: CoreItem,
    body: Root,
}

/// The items that were checked, over which trees step. Contracts see the items, of which each is over those before it.
#[derive(Drop)]
pub struct CheckedItems {
    items: Vec<CheckedItem>,
}

impl Model for CheckedItems {
    ghost use Rattle.std.specs.Prelude.{List};
    ghost use Rattle.std.specs.Coded.{coded_list};
    ghost use Rattle.cdle_model.specs.Forms.{Written};
    ghost use Rattle.cdle_model.specs.ItemCode.{coded_written};
    ghost use Rattle.core_reduce.specs.Checked.{AreChecked, items_of};

    ghost Value = { List Written };

    ghost coded = { coded_list coded_written };

    ghost view = { λ a. items_of a.items.items };

    ghost invariant = { λ a. AreChecked a.items.items };
}

impl CheckedItems {
    /// No items yet. It takes no memory.
    pub fn new(alloc: Global) -> CheckedItems
        ensures { result ≡ [] }
    {
        CheckedItems {
            items: Vec::new(alloc),
        }
    }

    /// Puts the item last. After want of memory the items are as before.
    pub fn add(&mut self, alloc: Global, item: &CoreItem) -> Result<(), NoMemory>
        requires over { IsScopedOver self.old (written item.now) }
        requires erasures { ItemHasErasures (written item.now) }
        ensures { MatchResult result (λ _. self.new ≡ self.old ++ written item.now ∷ []) (λ _. self.new ≡ self.old) }
    {
        if self.items.len() >= 4_294_967_295 {
            return Err(NoMemory);
        }
        let body = erased_body(item)?;
        let item = item.copy(alloc)?;
        self.items.push(CheckedItem { item, body })?;
        Ok(())
    }

    /// The item of that number.
    pub fn get(&self, name: u32) -> &CoreItem
        requires { name < length self.now }
        ensures { slice_get self.now name ≡ Some (written result.now) }
    {
        &self.items[name as usize].item
    }

    /// The number of items.
    #[tactic(auto, using(crate::proofs::Bodies::length_items))]
    pub fn len(&self) -> u32
        ensures { result ≡ length self.now }
    {
        self.items.len() as u32
    }

    /// Tells a proof what is known of the items. It does nothing when it runs.
    pub fn known(&self)
        ensures items { AreScoped self.now }
        ensures erasures { HaveErasures self.now }
    {
        let _ = &self.items;
    }

    /// The erased body of the item of that number.
    pub(crate) fn body(&self, name: u32) -> &Root
        requires { name < length self.now }
        ensures is { slice_get (bodies (signature self.now)) name ≡ Some (root_tree result.now) }
        ensures class { (x : Sort) → slice_get (item_sorts self.now) name ≡ Some x → class_trees (root_class result.now) ≡ class_of x }
    {
        &self.items[name as usize].body
    }
}

fn erased_body(item: &CoreItem) -> Result<Root, NoMemory>
    requires { ItemHasErasures (written item.now) }
    ensures { IfOk result (λ body. IsBody item.now body) }
{
    match item {
        CoreItem::Def { body, .. } => Ok(Root::Pure(PureView::of_term(body)?)),
        CoreItem::TypeDef { body, .. } => Ok(Root::Guide(GuideView::of_type(body)?)),
    }
}
