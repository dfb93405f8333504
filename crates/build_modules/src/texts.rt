//! From modules in their order to the texts of their Core files.
ghost use Rattle.std.specs.Prelude.{◌≡◌, [], map};
ghost use Rattle.build_modules.specs.Answers.{Answers, IsAnswer};
ghost use Rattle.build_modules.specs.Ordered.{in_order, spelled_modules};
ghost use Rattle.modules_model.specs.ModuleTexts.{by_forms, by_rules, by_scope, nothing, unbuilt_modules};
ghost use Rattle.modules_model.specs.ModuleTexts.{given_modules as given_by, scoped_modules as scoped_by};
ghost use Rattle.scoped_tree.specs.Items.{module_of as scoped_of};

use crate::count::first_past_limit;
use crate::fault::BuildFault;
use crate::items::given_modules;
use crate::print::printed_files;
use crate::scope::scoped_modules;
use crate::unbuilt::first_in_modules;
use cdle_names::NameTable;
use scoped_tree::ScopedModule;
use std::alloc::Global;
use surf_tree::SrcModule;

/// The texts of the Core files of the modules, in the order that these numbers tell, with so many units for each comparison and each head form. Each module is over
/// those before it in the order. The table has the modules' names, and stays as it was.
///
/// Memory is wanted too where a number of the order is of no module.
pub fn core_texts(
    alloc: Global,
    modules: &[SrcModule],
    order: &[usize],
    names: &mut NameTable,
    budget: u64,
) -> Result<Vec<Vec<u8>>, BuildFault>
    ensures answers { Answers budget (in_order (spelled_modules names.old modules.now) order.now) result }
    ensures names { names.new ≡ names.old }
{
    match first_past_limit(modules, order)? {
        Some(module) => Err(BuildFault::ManyItems { module }),
        None => resolved_texts(alloc, modules, order, names, budget),
    }
}

/// Likewise of modules with no more Core items than may be.
fn resolved_texts(
    alloc: Global,
    modules: &[SrcModule],
    order: &[usize],
    names: &mut NameTable,
    budget: u64,
) -> Result<Vec<Vec<u8>>, BuildFault>
    ensures answers { IsAnswer (by_scope budget (scoped_by [] (in_order (spelled_modules names.old modules.now) order.now))) result }
    ensures names { names.new ≡ names.old }
{
    match scoped_modules(alloc, modules, order, names) {
        Ok(scoped) => built_texts(alloc, &scoped, budget),
        Err(fault) => Err(fault),
    }
}

/// Likewise of modules whose names stand for this.
fn built_texts(
    alloc: Global,
    scoped: &[ScopedModule],
    budget: u64,
) -> Result<Vec<Vec<u8>>, BuildFault>
    ensures { IsAnswer (by_forms budget (map scoped_of scoped.now) (unbuilt_modules (map scoped_of scoped.now))) result }
{
    match first_in_modules(scoped)? {
        Some((module, span)) => Err(BuildFault::NotBuilt { module, span }),
        None => given_texts(alloc, scoped, budget),
    }
}

/// Likewise of modules that have all their forms built.
fn given_texts(
    alloc: Global,
    scoped: &[ScopedModule],
    budget: u64,
) -> Result<Vec<Vec<u8>>, BuildFault>
    ensures { IsAnswer (by_rules (given_by budget nothing (map scoped_of scoped.now))) result }
{
    match given_modules(alloc, scoped, budget) {
        Ok(items) => printed_files(alloc, &items),
        Err(fault) => Err(fault),
    }
}
