//! Core files out of one line.
ghost use Rattle.std.specs.Prelude.{IfOk};
ghost use Rattle.cdle_model.specs.Classes.{AreScoped};
ghost use Rattle.core_check.specs.Items.{items_of};

use core_text::{CoreScope, CoreTextFault, read_core};
use core_tree::CoreFile;
use std::alloc::Global;

/// The most bytes of a line.
const MOST_BYTES: usize = 10_000;

/// The files between the bars, each behind the earlier ones.
pub(crate) fn read_files(alloc: Global, texts: &str) -> Result<Vec<CoreFile>, CoreTextFault>
    ensures { IfOk result (λ files. AreScoped (items_of files.items)) }
{
    let mut known = CoreScope::new(alloc);
    let mut files = Vec::new(alloc);
    let mut items = 0;
    for text in texts.split('|') {
        if text.len() > MOST_BYTES || items > MOST_BYTES {
            return Err(CoreTextFault::NoMemory);
        }
        let file = read_core(alloc, text.as_bytes(), &known)?;
        known.add(alloc, &file)?;
        items += file.items.len();
        files.push(file)?;
    }
    Ok(files)
}
