//! From items to the texts of their Core files.
ghost use Rattle.std.specs.Prelude.{◌≡◌, ◌++◌, [], get_or, map, OnOk};
ghost use Rattle.build_modules.specs.Answers.{GivesText, GivesTexts, IsBuildFault, items_of_each};
ghost use Rattle.cdle_model.specs.Forms.{name_of};
ghost use Rattle.elab_model.specs.Items.{names_of};
ghost use Rattle.elab_tree.specs.Items.{written};
ghost use Rattle.modules_model.specs.ModuleTexts.{deepens};

use crate::fault::{BuildFault, named};
use cdle_model::{NoMemory, Text};
use elab_print::{PrintFault, print_core};
use elab_tree::OutItem;
use std::alloc::Global;

/// The texts of the files of these items, each over the names of the items of those before it.
pub(crate) fn printed_files(
    alloc: Global,
    files: &[Vec<OutItem>],
) -> Result<Vec<Vec<u8>>, BuildFault>
    ensures { GivesTexts (items_of_each files.now) result }
{
    let mut names = Vec::new(alloc);
    let mut texts = Vec::new(alloc);
    let mut rest = files;
    'files: while let Some((items, others)) = rest.split_first() {
        add_names(alloc, items, &mut names)?;
        match printed(alloc, items, &names) {
            Ok(text) => texts.push(text)?,
            Err(fault) => return Err(fault),
        }
        rest = others;
    }
    Ok(texts)
}

/// Puts the names of the items behind those so far.
fn add_names(alloc: Global, items: &[OutItem], names: &mut Vec<Text>) -> Result<(), NoMemory>
    ensures { OnOk result (names.new.items ≡ names.old.items ++ map (λ item. name_of (written item)) items.now) }
{
    for item in items {
        names.push(Text::new(alloc, item.name().as_str())?)?;
    }
    Ok(())
}

/// The text of the file of these items, whose names stand last.
fn printed(alloc: Global, items: &[OutItem], names: &[Text]) -> Result<Vec<u8>, BuildFault>
    ensures { GivesText names.now (map written items.now) result }
{
    if items.len() > u32::MAX as usize {
        return Err(BuildFault::NoMemory);
    }
    match print_core(alloc, items, names) {
        Ok(text) => Ok(text),
        Err(PrintFault::TooDeep { item }) => Err(deep_item(alloc, items, item)),
        Err(PrintFault::NoMemory) => Err(BuildFault::NoMemory),
    }
}

/// That the item of that number nests too deep.
fn deep_item(alloc: Global, items: &[OutItem], number: u32) -> BuildFault
    ensures { IsBuildFault (λ a. a ≡ deepens (get_or (names_of (map written items.now)) number [])) result }
{
    match items.get(number as usize) {
        Some(item) => named(alloc, item.name()),
        // Never: the number is that of an item.
        None => BuildFault::NoMemory,
    }
}
