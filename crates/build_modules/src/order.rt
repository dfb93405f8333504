//! Modules by their numbers.
ghost use Rattle.std.specs.Prelude.{◌≡◌, IfOk, Some, slice_get};

use cdle_model::NoMemory;
use surf_tree::SrcModule;

/// The module of that number. Memory is wanted where there is none.
pub(crate) fn module_at(modules: &[SrcModule], number: usize) -> Result<&SrcModule, NoMemory>
    ensures { IfOk result (λ found. slice_get modules.now number ≡ Some found.now) }
{
    match modules.get(number) {
        Some(module) => Ok(module),
        None => Err(NoMemory),
    }
}
