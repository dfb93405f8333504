//! What the names of modules stand for.
ghost use Rattle.std.specs.Prelude.{◌≡◌, OnOk};
ghost use Rattle.build_modules.specs.Answers.{GivesScoped};
ghost use Rattle.build_modules.specs.Ordered.{in_order, spelled_modules};
ghost use Rattle.scope_model.specs.Scope.{with_module};
ghost use Rattle.surf_scope.specs.Exports.{known};
ghost use Rattle.surf_scope.specs.Modules.{spelled_module};
ghost use Rattle.surf_scope.specs.Resolved.{IsResolved};
ghost use Rattle.surf_tree.specs.Items.{module_of};

use crate::fault::BuildFault;
use crate::order::module_at;
use cdle_model::NoMemory;
use cdle_names::NameTable;
use scoped_tree::ScopedModule;
use std::alloc::Global;
use surf_scope::{Exports, ScopeFault, resolve};
use surf_tree::SrcModule;

/// The scope of the module behind those that are known, of which it is the last from then on.
fn next_module(
    alloc: Global,
    module: &SrcModule,
    exports: &mut Exports,
    names: &mut NameTable,
) -> Result<ScopedModule, ScopeFault>
    ensures resolved { IsResolved (known exports.old) (spelled_module names.old (module_of «module».now)) result }
    ensures known { OnOk result (known exports.new ≡ with_module (known exports.old) (spelled_module names.old (module_of «module».now))) }
    ensures names { names.new ≡ names.old }
{
    let scoped = match resolve(alloc, module, &*exports, names) {
        Ok(scoped) => scoped,
        Err(fault) => return Err(fault),
    };
    match exports.add(alloc, &scoped) {
        Ok(()) => Ok(scoped),
        Err(NoMemory) => Err(ScopeFault::NoMemory),
    }
}

/// The scope of each module behind those before it in the order.
pub(crate) fn scoped_modules(
    alloc: Global,
    modules: &[SrcModule],
    order: &[usize],
    names: &mut NameTable,
) -> Result<Vec<ScopedModule>, BuildFault>
    ensures scoped { GivesScoped (in_order (spelled_modules names.old modules.now) order.now) result }
    ensures names { names.new ≡ names.old }
{
    let mut exports = Exports::new(alloc);
    let mut scoped = Vec::new(alloc);
    let mut rest = order;
    'modules: while let Some((number, others)) = rest.split_first() {
        let module = module_at(modules, *number)?;
        match next_module(alloc, module, &mut exports, names) {
            Ok(next) => scoped.push(next)?,
            Err(fault) => {
                let module = scoped.len();
                return Err(BuildFault::Scope { module, fault });
            }
        }
        rest = others;
    }
    Ok(scoped)
}
