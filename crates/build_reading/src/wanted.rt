//! The names of the modules that are wanted, in the order in which they come.
ghost use Rattle.std.specs.Prelude.{◌≡◌, OnOk};
ghost use Rattle.cdle_names.specs.Texts.{with_text};
ghost use Rattle.scope_part.specs.Around.{import_texts};
ghost use Rattle.build_reading.specs.Order.{with_new};

use cdle_model::NoMemory;
use cdle_names::{NameId, NameTable, Span};
use scope_part::spelling;
use std::alloc::Global;

/// Adds the name, where it is new.
pub(crate) fn add_name(alloc: Global, name: &str, order: &mut NameTable) -> Result<(), NoMemory>
    ensures { OnOk result (order.new ≡ with_text name.now order.old) }
{
    // Never in fact: so many names are in no 500 files.
    if order.len() == u32::MAX {
        return Err(NoMemory);
    }
    order.intern(alloc, name)?;
    Ok(())
}

/// Adds the names of a module's imports, where they are new.
pub(crate) fn add_imports(
    alloc: Global,
    imports: &[(NameId, Span)],
    names: &NameTable,
    order: &mut NameTable,
) -> Result<(), NoMemory>
    ensures { OnOk result (order.new ≡ with_new order.old (import_texts names.now imports.now)) }
{
    for (name, _) in imports {
        add_name(alloc, spelling(names, *name), order)?;
    }
    Ok(())
}
