//! From the bytes of a file to its module.
ghost use Rattle.std.specs.Prelude.{◌≡◌, ◌+◌, ◌<◌, ◌≤◌, true, length, IfOk};
ghost use Rattle.surf_parse.specs.Answers.{Grows};
ghost use Rattle.surf_tree.specs.Items.{module_of};
ghost use Rattle.build_model.specs.ByText.{IsOfTable};
ghost use Rattle.surf_source.specs.Answers.{IsRead};

use crate::fault::SourceFault;
use cdle_names::NameTable;
use std::alloc::Global;
use surf_lex::{Token, lex};
use surf_parse::parse;
use surf_tree::SrcModule;

/// Whether the table has room for as many names as there are tokens.
fn has_room(names: &NameTable, tokens: &Vec<Token>) -> bool
    ensures { result ≡ true → length names.now + length tokens.now.items < 4294967295 }
{
    let Ok(count) = u32::try_from(tokens.len()) else {
        return false;
    };
    match names.len().checked_add(count) {
        Some(most) => most < u32::MAX,
        None => false,
    }
}

/// The module that a text is.
fn read_text(
    alloc: Global,
    text: &str,
    module: &str,
    names: &mut NameTable,
) -> Result<SrcModule, SourceFault>
    requires { length text.now ≤ 1048576 }
    ensures read { IsRead text.now «module».now names.new result }
    ensures numbers { IfOk result (λ m. IsOfTable names.new (module_of m)) }
    ensures grows { Grows names.old names.new }
{
    let tokens = lex(alloc, text)?;
    if !has_room(names, &tokens) {
        return Err(SourceFault::NoMemory);
    }
    let read = parse(alloc, &tokens, text, module, names)?;
    Ok(read)
}

/// The module that the bytes of a file are, or their first fault. Its name is to be `module`.
///
/// Memory is wanted too where the table may come to have more names than there are numbers.
pub fn read_source(
    alloc: Global,
    bytes: &[u8],
    module: &str,
    names: &mut NameTable,
) -> Result<SrcModule, SourceFault>
    requires { length bytes.now ≤ 1048576 }
    ensures read { IsRead bytes.now «module».now names.new result }
    ensures numbers { IfOk result (λ m. IsOfTable names.new (module_of m)) }
    ensures grows { Grows names.old names.new }
{
    match std::str::from_utf8(bytes) {
        Ok(text) => read_text(alloc, text, module, names),
        Err(e) => Err(SourceFault::NotUtf8 {
            at: e.valid_up_to() as u32,
        }),
    }
}
