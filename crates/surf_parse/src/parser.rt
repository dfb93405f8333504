//! The parser: from the tokens of a text to its module.
ghost use Rattle.std.specs.Prelude.{◌≡◌, ◌+◌, ◌<◌, length, map, Err, Ok};
ghost use Rattle.source_model.specs.SurfaceTokens.{lexed};
ghost use Rattle.surf_lex.specs.Fronts.{token_of as text_token};
ghost use Rattle.surf_parse.specs.Answers.{AreNumbered, Grows, IsParsed, given_by, numbered};
ghost use Rattle.surf_reader.specs.declared.error.ParseFault.TheVariants as faults;

use crate::module::read_module;
use crate::numbers::number;
use cdle_names::NameTable;
use std::alloc::Global;
use surf_lex::Token;
use surf_reader::{ParseFault, Reader};
use surf_tree::SrcModule;

/// The module that the tokens of a text are, or their first fault. Its name is to be `module`.
///
/// A text of 4 GiB is more than places can tell: there memory is wanted.
pub fn parse(
    alloc: Global,
    tokens: &Vec<Token>,
    text: &str,
    module: &str,
    names: &mut NameTable,
) -> Result<SrcModule, ParseFault>
    requires lexed { lexed text.now ≡ Ok (map text_token tokens.now.items) }
    requires room { length names.old + length tokens.now.items < 4294967295 }
    ensures parsed { IsParsed (given_by names.new «module».now text.now) (map (numbered text.now names.new) tokens.now.items) result }
    ensures numbers { (result ≡ Err faults.NoMemory → ⊥) → AreNumbered text.now names.new tokens.now.items }
    ensures grows { Grows names.old names.new }
{
    let Ok(end) = u32::try_from(text.len()) else {
        return Err(ParseFault::NoMemory);
    };
    let numbered = number(alloc, tokens, text, names)?;
    let reader = Reader {
        alloc,
        tokens: numbered.as_slice(),
        names,
        module: module.as_bytes(),
        end,
    };
    read_module(&reader)
}
