//! Texts behind other texts, read and counted.
ghost use Rattle.std.specs.Prelude.{◌<◌, ◌≤◌, ◌^◌, length, IfOk};
ghost use Rattle.core_text.specs.Scope.{known_names};

use core_text::{CoreScope, CoreTextFault, read_core};
use core_tree::CoreFile;
use std::alloc::Global;

/// The items of a text that is no longer than a text may be.
fn read(alloc: Global, text: &[u8], known: &CoreScope) -> Result<CoreFile, CoreTextFault>
    requires { length (known_names known.now) < 2 ^ 31 }
    ensures { IfOk result (λ file. length file.items ≤ 67108864) }
{
    if text.len() > 67_108_864 {
        return Err(CoreTextFault::NoMemory);
    }
    read_core(alloc, text, known)
}

/// The items of the second text behind those of the first.
pub(crate) fn read_behind(
    alloc: Global,
    first: &[u8],
    second: &[u8],
) -> Result<CoreFile, CoreTextFault> {
    let mut known = CoreScope::new(alloc);
    let file = read(alloc, first, &known)?;
    known.add(alloc, &file)?;
    read(alloc, second, &known)
}

/// The items of the third text behind those of the others.
pub(crate) fn read_third(
    alloc: Global,
    first: &[u8],
    second: &[u8],
    third: &[u8],
) -> Result<CoreFile, CoreTextFault> {
    let mut known = CoreScope::new(alloc);
    let file = read(alloc, first, &known)?;
    known.add(alloc, &file)?;
    let file = read(alloc, second, &known)?;
    known.add(alloc, &file)?;
    read(alloc, third, &known)
}

/// How many items there are, or the fault.
pub(crate) fn counted(file: Result<CoreFile, CoreTextFault>) -> Result<usize, CoreTextFault> {
    match file {
        Ok(file) => Ok(file.items.len()),
        Err(fault) => Err(fault),
    }
}
