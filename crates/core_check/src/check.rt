//! The check of files, item by item.
ghost use Rattle.std.specs.Prelude.{◌≡◌, ◌++◌, IfOk, map};
ghost use Rattle.cdle_model.specs.Check.{check_items};
ghost use Rattle.cdle_model.specs.Classes.{AreScoped, IsScopedOver};
ghost use Rattle.cdle_model.specs.Derivation.{AreDerived};
ghost use Rattle.cdle_model.specs.Fitting.{ItemHasErasures};
ghost use Rattle.core_tree.specs.Items.{written};
ghost use Rattle.core_check.specs.Answer.{AgreesWith, HaveNoDerivation, IsAnswerAtSome, IsItemAnswerAtSome};
ghost use Rattle.core_check.specs.Items.{items_of};

use crate::item::Checker;
use core_reduce::CheckedItems;
use core_rules::Rules;
use core_tree::{Checked, CoreFault, CoreFile, CoreItem};
use std::alloc::{AllocError, Global};
use std::collections::HashMap;

/// Appends the items of a file.
fn append_items<'a>(file: &'a CoreFile, items: &mut Vec<&'a CoreItem>) -> Result<(), AllocError>
    ensures { IfOk result (λ _. map (λ item. written item.now) items.new.items ≡ map (λ item. written item.now) items.old.items ++ file.now.items) }
{
    for item in file.items.as_slice() {
        items.push(item)?;
    }
    Ok(())
}

/// The items of the files in their order.
fn all_items<'a>(alloc: Global, files: &'a Vec<CoreFile>) -> Result<Vec<&'a CoreItem>, AllocError>
    ensures { IfOk result (λ items. map (λ item. written item.now) items.items ≡ items_of files.now.items) }
{
    let mut items = Vec::new(alloc);
    for file in files {
        append_items(file, &mut items)?;
    }
    Ok(items)
}

/// Checks the item that comes after the checked ones.
fn check_item(
    alloc: Global,
    checked: &CheckedItems,
    item: &CoreItem,
    budget: u64,
) -> Result<(), CoreFault>
    requires { IsScopedOver checked.now (written item.now) }
    ensures answer { IsItemAnswerAtSome budget checked.now (written item.now) result }
    ensures erasures { IfOk result (λ _. ItemHasErasures (written item.now)) }
{
    let rules = Rules {
        alloc,
        items: checked,
        budget,
    };
    match (Checker { rules }).item(item) {
        Ok(()) => Ok(()),
        Err(fault) => Err(fault.of_item(checked.len())),
    }
}

/// Checks the items in their order. A name that an earlier item has is found before its item is checked.
fn check_all(alloc: Global, items: &[&CoreItem], budget: u64) -> Result<Checked, CoreFault>
    requires { AreScoped (map (λ item. written item.now) items.now) }
    ensures { IsAnswerAtSome budget (map (λ item. written item.now) items.now) result }
{
    let mut checked = CheckedItems::new(alloc);
    let mut names: HashMap<String, u32> = HashMap::new(alloc);
    for item in items {
        let number = checked.len();
        let name = item.name().as_str();
        if let Some(earlier) = names.get(name) {
            return Err(CoreFault::Duplicate {
                item: number,
                earlier: *earlier,
            });
        }
        check_item(alloc, &checked, item, budget)?;
        checked.add(alloc, item)?;
        names.insert(String::from_str(alloc, name)?, number)?;
    }
    Ok(Checked {
        items: checked.len(),
    })
}

/// Whether the items of the files, numbered from 0 over all of them, are accepted, with the budget for each comparison and each head form.
/// At the first that is not: an earlier item has its name, or it breaks a rule, or the budget was spent, or a tree was too deep.
pub fn check_files(alloc: Global, files: &Vec<CoreFile>, budget: u64) -> Result<Checked, CoreFault>
    requires items { AreScoped (items_of files.now.items) }
    ensures answer { IsAnswerAtSome budget (items_of files.now.items) result }
    ensures derived { IfOk result (λ _. AreDerived (items_of files.now.items)) }
    ensures none { HaveNoDerivation (items_of files.now.items) result }
    ensures so { AgreesWith (check_items budget (items_of files.now.items)) result }
{
    let items = all_items(alloc, files)?;
    check_all(alloc, &items, budget)
}
