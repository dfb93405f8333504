//! From the bytes of a module's file to the text of its Core file.
ghost use Rattle.std.specs.Prelude.{◌≡◌, ◌≤◌, [], IfOk, List, ℕ, Ok, length};
ghost use Rattle.std.specs.Option.{option_map};
ghost use Rattle.build_module.specs.Answers.{Answers};
ghost use Rattle.build_module.specs.ModuleAnswers.{IsModule, unbuilt_in};
ghost use Rattle.build_model.specs.SourceFiles.{IsSource};
ghost use Rattle.scope_model.specs.Scope.{scoped_module};
ghost use Rattle.scope_model.specs.ScopeNames.{Text};
ghost use Rattle.scoped_tree.specs.Items.{module_of as scoped_of};
ghost use Rattle.scoped_tree.specs.Trees.{place};
ghost use Rattle.surf_scope.specs.Modules.{spelled_module};
ghost use Rattle.surf_tree.specs.Items.{module_of};

use crate::count::has_few;
use crate::fault::ModuleFault;
use crate::items::items_text;
use crate::unbuilt::first_in_items;
use cdle_model::NoMemory;
use cdle_names::{NameTable, Span};
use scoped_tree::ScopedModule;
use std::alloc::Global;
use surf_scope::{Exports, resolve};
use surf_source::read_source;
use surf_tree::SrcModule;

/// The text of the Core file of the module of that name, whose file has these bytes, with so many units for each comparison and each head form.
pub fn module_text(
    alloc: Global,
    bytes: &[u8],
    name: &str,
    budget: u64,
) -> Result<Vec<u8>, ModuleFault>
    requires { length bytes.now ≤ 1048576 }
    ensures { Answers budget bytes.now name.now result }
{
    let mut names = NameTable::new(alloc);
    match read_source(alloc, bytes, name, &mut names) {
        Ok(module) => counted_text(alloc, &module, &mut names, budget),
        Err(fault) => Err(ModuleFault::Source(fault)),
    }
}

/// The text of a module that was read, with its names in the table.
fn counted_text(
    alloc: Global,
    source: &SrcModule,
    names: &mut NameTable,
    budget: u64,
) -> Result<Vec<u8>, ModuleFault>
    ensures { (bytes : List ℕ) (name : Text) → IsSource bytes name (spelled_module names.old (module_of source.now)) → Answers budget bytes name result }
{
    if has_few(&source.items) {
        resolved_text(alloc, source, names, budget)
    } else {
        Err(ModuleFault::ManyItems)
    }
}

/// Likewise of one with no more Core items than may be.
fn resolved_text(
    alloc: Global,
    source: &SrcModule,
    names: &mut NameTable,
    budget: u64,
) -> Result<Vec<u8>, ModuleFault>
    ensures { (bytes : List ℕ) (name : Text) → IsModule bytes name (spelled_module names.old (module_of source.now)) → Answers budget bytes name result }
{
    // No module is known: the module stands alone.
    match resolve(alloc, source, &Exports::new(alloc), names) {
        Ok(scoped) => built_text(alloc, source, &scoped, budget),
        Err(fault) => Err(ModuleFault::Scope(fault)),
    }
}

/// Likewise of one whose names stand for this.
fn built_text(
    alloc: Global,
    source: &SrcModule,
    scoped: &ScopedModule,
    budget: u64,
) -> Result<Vec<u8>, ModuleFault>
    ensures { (names : List Text) (bytes : List ℕ) (name : Text) → IsModule bytes name (spelled_module names (module_of source.now))
        → scoped_module [] (spelled_module names (module_of source.now)) ≡ Ok (scoped_of scoped.now) → Answers budget bytes name result }
{
    match first_unbuilt(source, scoped)? {
        Some(span) => Err(ModuleFault::NotBuilt { span }),
        None => items_text(alloc, scoped, budget),
    }
}

/// Where the first form stands that is not built: an import at its name, and imports are before all items.
fn first_unbuilt(source: &SrcModule, scoped: &ScopedModule) -> Result<Option<Span>, NoMemory>
    ensures { IfOk result (λ found. (names : List Text) → option_map place found ≡ unbuilt_in (spelled_module names (module_of source.now)) (scoped_of scoped.now)) }
{
    match source.imports.first() {
        Some(import) => Ok(Some(import.1)),
        None => first_in_items(&scoped.items),
    }
}
