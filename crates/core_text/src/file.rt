//! Reading whole files.
ghost use Rattle.std.specs.Prelude.{◌≡◌, ◌+◌, ◌<◌, ◌≤◌, ◌^◌, ◌++◌, ◌∷◌, [], length, IfOk, IfErr, OnOk};
ghost use Rattle.cdle_model.specs.CoreText.{Says};
ghost use Rattle.core_text.specs.File.{IsFaultOf};
ghost use Rattle.core_text.specs.Names.{item_name};
ghost use Rattle.core_text.specs.View.{IsPlaced};
ghost use Rattle.core_text.specs.Scope.{known_names};

use crate::error::CoreTextFault;
use crate::reader::Reader;
use crate::scope::{CoreScope, sort_of};
use crate::token::next;
use crate::words::head_of;
use cdle_model::NoMemory;
use core_tree::{CoreFile, CoreItem, CoreItems};
use std::alloc::Global;

/// Puts an item behind the earlier ones of its file, and its name behind theirs.
fn keep(
    alloc: Global,
    own: &mut CoreScope,
    items: &mut Vec<CoreItem>,
    item: CoreItem,
) -> Result<(), NoMemory>
    requires { length (known_names own.old) + 1 < 2 ^ 32 }
    ensures named { OnOk result (known_names own.new ≡ item_name item ∷ known_names own.old) }
    ensures kept { OnOk result (items.new.items ≡ items.old.items ++ item ∷ []) }
{
    own.push(alloc, item.name().as_str().as_bytes(), sort_of(&item))?;
    items.push(item)?;
    Ok(())
}

/// The items of a file behind those of earlier files, or its first fault. A file says at most one list of items, and none where it has a
/// fault.
pub fn read_core(alloc: Global, bytes: &[u8], known: &CoreScope) -> Result<CoreFile, CoreTextFault>
    requires short { length bytes.now ≤ 67108864 }
    requires counted { length (known_names known.now) < 2 ^ 31 }
    ensures ok { IfOk result (λ file. Says bytes.now (known_names known.now) file.items) }
    ensures few { IfOk result (λ file. length file.items ≤ length bytes.now) }
    ensures err { IfErr result (IsFaultOf bytes.now (known_names known.now)) }
    ensures placed { IfErr result (IsPlaced bytes.now) }
{
    if let Err(e) = std::str::from_utf8(bytes) {
        return Err(CoreTextFault::NotUtf8 {
            at: e.valid_up_to() as u32,
        });
    }
    let mut at = head_of(bytes)?;
    let mut own = CoreScope::new(alloc);
    let mut items = Vec::new(alloc);
    'items: while next(bytes, at).is_some() {
        let reader = Reader {
            alloc,
            bytes: &*bytes,
            own: &own,
            known: &*known,
        };
        let (item, after) = reader.item(at)?;
        keep(alloc, &mut own, &mut items, item)?;
        at = after;
    }
    Ok(CoreFile {
        items: CoreItems::new(items),
    })
}
