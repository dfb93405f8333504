//! The modules whose scope is known.
ghost use Rattle.std.specs.Prelude.{◌≡◌};
ghost use Rattle.scope_model.specs.Scope.{count as count_of};
ghost use Rattle.scope_part.specs.Known.{exported_all};

use cdle_model::NoMemory;
use scope_part::ExportedModule;
use scoped_tree::ScopedModule;
use std::alloc::Global;

/// The modules whose scope is known, in the order in which they were added, each with the names of its items.
#[derive(Drop)]
pub struct Exports {
    modules: Vec<ExportedModule>,
    count: u32,
    ghost counted: { count ≡ count_of (exported_all modules.items) },
}

impl Exports {
    ghost use Rattle.std.specs.Prelude.{◌+◌, ◌<◌, ◌^◌, ◌∷◌, ◌++◌, [], length, IfOk, OnErr, OnOk};
    ghost use Rattle.scoped_tree.specs.Items.{exported_of};
    ghost use Rattle.surf_scope.specs.Exports.{known};

    /// No modules.
    pub fn new(alloc: Global) -> Exports
        ensures { known result ≡ [] }
    {
        Exports {
            modules: Vec::new(alloc),
            count: 0,
        }
    }

    /// How many Core items there are.
    pub(crate) fn count(&self) -> u32
        ensures is { result ≡ count_of (known self.now) }
        ensures fits { count_of (known self.now) < 2 ^ 32 }
    {
        self.count
    }

    /// The modules in order.
    pub(crate) fn modules(&self) -> &[ExportedModule]
        ensures { exported_all result.now ≡ known self.now }
    {
        self.modules.as_slice()
    }

    /// How many Core items there are with those of one module more.
    fn count_with(&self, module: &ScopedModule) -> Result<u32, NoMemory>
        ensures { IfOk result (λ n. n ≡ count_of (known self.now) + length «module».now.names.items) }
    {
        let Ok(more) = u32::try_from(module.names.len()) else {
            return Err(NoMemory);
        };
        match self.count.checked_add(more) {
            Some(count) => Ok(count),
            None => Err(NoMemory),
        }
    }

    /// Appends a module. Without memory nothing changes.
    pub fn add(&mut self, alloc: Global, module: &ScopedModule) -> Result<(), NoMemory>
        ensures added { OnOk result (known self.new ≡ known self.old ++ exported_of «module».now ∷ []) }
        ensures kept { OnErr result (known self.new ≡ known self.old) }
    {
        let count = self.count_with(module)?;
        self.modules.push(ExportedModule::new(alloc, module)?)?;
        self.count = count;
        Ok(())
    }
}
