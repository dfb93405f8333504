//! From the items of a module to the text of its Core file.
ghost use Rattle.std.specs.Prelude.{◌≡◌, ℕ, [], Err, IfOk, List, get_or, map};
ghost use Rattle.build_module.specs.Answers.{IsDeepAt, OfItems, OfPrinted};
ghost use Rattle.cdle_model.specs.Forms.{name_of};
ghost use Rattle.elab_item.specs.Answers.{IsRefusal};
ghost use Rattle.elab_model.specs.Items.{names_of, source_name};
ghost use Rattle.elab_tree.specs.Items.{written};
ghost use Rattle.elab_tree.specs.Known.{Entry, empty};
ghost use Rattle.scoped_tree.specs.Items.{item_of, module_of};

use crate::fault::ModuleFault;
use cdle_model::{NoMemory, Text};
use elab_item::{Env, ItemFault, elaborate};
use elab_print::{PrintFault, print_core};
use elab_tree::OutItem;
use scoped_tree::{ScopedItem, ScopedModule};
use std::alloc::Global;

/// The text of the items that the rules give for those of the module, which has all its forms built.
pub(crate) fn items_text(
    alloc: Global,
    scoped: &ScopedModule,
    budget: u64,
) -> Result<Vec<u8>, ModuleFault>
    ensures { OfItems budget (module_of scoped.now) result }
{
    let mut env = Env::new(alloc);
    match elaborate(alloc, scoped, &mut env, budget) {
        Ok(items) => printed(alloc, &items),
        Err(fault) => Err(refusal(alloc, scoped, fault)),
    }
}

/// Why the rules give nothing for the items of the module. An item is told by its name.
fn refusal(alloc: Global, scoped: &ScopedModule, fault: ItemFault) -> ModuleFault
    ensures { (n : ℕ) (es : List Entry) → IsRefusal n empty es (module_of scoped.now).items fault → OfItems n (module_of scoped.now) (Err result) }
{
    match fault {
        ItemFault::Reject { span, code, .. } => ModuleFault::Refused { span, code },
        ItemFault::Spent { span, .. } => ModuleFault::Spent { span },
        ItemFault::TooDeep { item } => too_deep(alloc, scoped, item),
        ItemFault::Failed | ItemFault::NoMemory => ModuleFault::NoMemory,
    }
}

/// That the item of that number is too deep.
fn too_deep(alloc: Global, scoped: &ScopedModule, number: u32) -> ModuleFault
    ensures { (n : ℕ) (es : List Entry) → IsRefusal n empty es (module_of scoped.now).items (ItemFault.TooDeep number) → OfItems n (module_of scoped.now) (Err result) }
{
    match scoped.items.get(number as usize) {
        Some(item) => named(alloc, written_name(item)),
        // Never: the number is that of an item.
        None => ModuleFault::NoMemory,
    }
}

/// The written name of an item.
fn written_name(item: &ScopedItem) -> &Text
    ensures { result.now ≡ source_name (item_of item.now) }
{
    match item {
        ScopedItem::Def { name, .. } | ScopedItem::TypeDef { name, .. } => name,
        ScopedItem::Data(data) => &data.name,
    }
}

/// That the item of that name is too deep.
fn named(alloc: Global, name: &Text) -> ModuleFault
    ensures { IsDeepAt name.now result }
{
    match Text::new(alloc, name.as_str()) {
        Ok(item) => ModuleFault::TooDeep { item },
        Err(_) => ModuleFault::NoMemory,
    }
}

/// The text of these items.
fn printed(alloc: Global, items: &[OutItem]) -> Result<Vec<u8>, ModuleFault>
    ensures { OfPrinted (map written items.now) result }
{
    let names = names_of(alloc, items)?;
    if items.len() > u32::MAX as usize {
        return Err(ModuleFault::NoMemory);
    }
    match print_core(alloc, items, &names) {
        Ok(text) => Ok(text),
        Err(PrintFault::TooDeep { item }) => Err(deep_item(alloc, items, item)),
        Err(PrintFault::NoMemory) => Err(ModuleFault::NoMemory),
    }
}

/// That the item of that number nests too deep.
fn deep_item(alloc: Global, items: &[OutItem], number: u32) -> ModuleFault
    ensures { IsDeepAt (get_or (names_of (map written items.now)) number []) result }
{
    match items.get(number as usize) {
        Some(item) => named(alloc, item.name()),
        // Never: the number is that of an item.
        None => ModuleFault::NoMemory,
    }
}

/// The names of the items.
fn names_of(alloc: Global, items: &[OutItem]) -> Result<Vec<Text>, NoMemory>
    ensures { IfOk result (λ names. names.items ≡ map (λ item. name_of (written item)) items.now) }
{
    let mut names = Vec::new(alloc);
    for item in items {
        names.push(Text::new(alloc, item.name().as_str())?)?;
    }
    Ok(names)
}
