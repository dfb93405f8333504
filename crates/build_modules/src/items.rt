//! From the items of modules to those of their Core files.
ghost use Rattle.std.specs.Prelude.{◌≡◌, ℕ, false, List, map};
ghost use Rattle.build_modules.specs.Answers.{GivesItems, GivesNext, IsRefused};
ghost use Rattle.elab_item.specs.Answers.{IsRefusal};
ghost use Rattle.elab_model.specs.Items.{source_name};
ghost use Rattle.elab_reduce.specs.Items.{env_of};
ghost use Rattle.elab_tree.specs.Known.{Entry, Known};
ghost use Rattle.scoped_tree.specs.Items.{item_of, module_of};

use crate::fault::{BuildFault, named};
use cdle_model::Text;
use elab_item::{Env, ItemFault, elaborate};
use elab_tree::OutItem;
use scoped_tree::{ScopedItem, ScopedModule};
use std::alloc::Global;

/// The items that the rules give for each module, over those of the modules before it. All forms of the modules are built.
pub(crate) fn given_modules(
    alloc: Global,
    scoped: &[ScopedModule],
    budget: u64,
) -> Result<Vec<Vec<OutItem>>, BuildFault>
    ensures { GivesItems budget (map module_of scoped.now) result }
{
    let mut env = Env::new(alloc);
    let mut given = Vec::new(alloc);
    let mut rest = scoped;
    'modules: while let Some((module, others)) = rest.split_first() {
        match next_items(alloc, module, given.len(), &mut env, budget) {
            Ok(items) => given.push(items)?,
            Err(fault) => return Err(fault),
        }
        rest = others;
    }
    Ok(given)
}

/// The items that the rules give for the module at that place, which stand behind the items so far from then on.
fn next_items(
    alloc: Global,
    scoped: &ScopedModule,
    place: usize,
    env: &mut Env,
    budget: u64,
) -> Result<Vec<OutItem>, BuildFault>
    requires { env.old.failed ≡ false }
    ensures { GivesNext budget env.old env.new (module_of scoped.now).items place result }
{
    match elaborate(alloc, scoped, env, budget) {
        Ok(items) => Ok(items),
        Err(fault) => Err(refusal(alloc, scoped, place, fault)),
    }
}

/// Why the rules give nothing for the items of the module at that place. An item is told by its name.
fn refusal(alloc: Global, scoped: &ScopedModule, place: usize, fault: ItemFault) -> BuildFault
    ensures { (n : ℕ) (old : Known) (es : List Entry) → IsRefusal n old es (module_of scoped.now).items fault → IsRefused n (env_of old) (module_of scoped.now).items place result }
{
    match fault {
        ItemFault::Reject { span, code, .. } => BuildFault::Refused {
            module: place,
            span,
            code,
        },
        ItemFault::Spent { span, .. } => BuildFault::Spent {
            module: place,
            span,
        },
        ItemFault::TooDeep { item } => too_deep(alloc, scoped, place, item),
        ItemFault::Failed | ItemFault::NoMemory => BuildFault::NoMemory,
    }
}

/// That the item of that number is too deep.
fn too_deep(alloc: Global, scoped: &ScopedModule, place: usize, number: u32) -> BuildFault
    ensures { (n : ℕ) (old : Known) (es : List Entry) → IsRefusal n old es (module_of scoped.now).items (ItemFault.TooDeep number) → IsRefused n (env_of old) (module_of scoped.now).items place result }
{
    match scoped.items.get(number as usize) {
        Some(item) => named(alloc, written_name(item)),
        // Never: the number is that of an item.
        None => BuildFault::NoMemory,
    }
}

/// The written name of an item.
fn written_name(item: &ScopedItem) -> &Text
    ensures { result.now ≡ source_name (item_of item.now) }
{
    match item {
        ScopedItem::Def { name, .. } | ScopedItem::TypeDef { name, .. } => name,
        ScopedItem::Data(data) => &data.name,
    }
}
