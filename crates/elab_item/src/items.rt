//! The items of a module in their order.
ghost use Rattle.std.specs.Prelude.{◌≡◌, ◌∷◌, ◌++◌, [], IfErr, IfOk, map, MatchResult, None};
ghost use Rattle.elab_item.specs.Answers.{Answers, IsRefusal};
ghost use Rattle.elab_item.specs.Given.{given_over, with_given};
ghost use Rattle.elab_model.specs.Questions.{found};
ghost use Rattle.elab_tree.specs.Items.{written};
ghost use Rattle.elab_tree.specs.Known.{with_entry};
ghost use Rattle.scoped_tree.specs.Items.{item_of, module_of};

use crate::fault::ItemFault;
use crate::item::next_item;
use cdle_model::NoMemory;
use elab_tree::{Env, OutItem};
use scoped_tree::{ScopedItem, ScopedModule};
use std::alloc::Global;

/// Puts a copy of the item last in the list.
fn list(alloc: Global, given: &mut Vec<OutItem>, item: &OutItem) -> Result<(), NoMemory>
    ensures { IfOk result (λ _. map written given.new.items ≡ map written given.old.items ++ written item.now ∷ []) }
{
    given.push(item.copy(alloc)?)?;
    Ok(())
}

/// Puts the item behind those so far, and last in the list.
fn put(
    alloc: Global,
    env: &mut Env,
    given: &mut Vec<OutItem>,
    item: OutItem,
) -> Result<(), NoMemory>
    ensures env { MatchResult result (λ _. env.new ≡ with_entry env.old (written item) None) (λ _. env.new ≡ env.old) }
    ensures given { IfOk result (λ _. map written given.new.items ≡ map written given.old.items ++ written item ∷ []) }
{
    list(alloc, given, &item)?;
    env.push(alloc, item, None)
}

/// The items in their order, each put behind those before it.
fn all_items(
    alloc: Global,
    items: &[ScopedItem],
    env: &mut Env,
    units: u64,
) -> Result<Vec<OutItem>, ItemFault>
    ensures given { IfOk result (λ given. given_over units env.old (map item_of items.now) ≡ found (map written given.items)) }
    ensures put { IfOk result (λ given. env.new ≡ with_given env.old (map written given.items)) }
    ensures refused { IfErr result (λ fault. IsRefusal units env.old env.new.entries (map item_of items.now) fault) }
{
    let mut given = Vec::new(alloc);
    for item in items {
        let Ok(number) = u32::try_from(given.len()) else {
            return Err(ItemFault::NoMemory);
        };
        let next = next_item(alloc, env, number, item, units)?;
        put(alloc, env, &mut given, next)?;
    }
    Ok(given)
}

/// The items that are given for those of the module, each over those before it. They stand behind the items so far, and are answered in their order.
/// After a refusal each later call on these items answers `Failed`; want of memory is a refusal too.
pub fn elaborate(
    alloc: Global,
    module: &ScopedModule,
    env: &mut Env,
    units: u64,
) -> Result<Vec<OutItem>, ItemFault>
    ensures { Answers units env.old env.new (module_of «module».now).items result }
{
    if env.has_failed() {
        return Err(ItemFault::Failed);
    }
    match all_items(alloc, module.items.as_slice(), env, units) {
        Ok(given) => Ok(given),
        Err(fault) => {
            env.fail();
            Err(fault)
        }
    }
}
