//! The texts of names.
ghost use Rattle.std.specs.Prelude.{◌≡◌};
ghost use Rattle.scope_part.specs.Names.{text_of};

use cdle_names::{NameId, NameTable};

/// The text of a name. (Where the table has no such number it is empty.)
pub fn spelling(names: &NameTable, name: NameId) -> &str
    ensures { text_of names.now name.0 ≡ result.now }
{
    if name.0 < names.len() {
        names.text(name)
    } else {
        ""
    }
}
