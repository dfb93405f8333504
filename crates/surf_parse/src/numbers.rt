//! The numbers of the names of a text.
ghost use Rattle.std.specs.Prelude.{◌≡◌, ◌≤◌, ◌+◌, ◌<◌, length, map, IfOk, Ok};
ghost use Rattle.source_model.specs.SurfaceTokens.{lexed};
ghost use Rattle.surf_reader.specs.View.{token_of};
ghost use Rattle.surf_lex.specs.Fronts.{token_of as text_token};
ghost use Rattle.surf_parse.specs.Answers.{AreNumbered, Grows, numbered};
ghost use Rattle.surf_parse.specs.Numbers.{IsNumber, IsPlaced};

use cdle_names::{NameId, NameTable, NoMemory};
use source_model::TokenKind;
use std::alloc::Global;
use surf_lex::Token;
use surf_reader::{Named, is_same};

/// The number of a token's text where it is a name.
fn number_of(
    alloc: Global,
    token: Token,
    text: &str,
    names: &mut NameTable,
) -> Result<NameId, NoMemory>
    requires placed { IsPlaced text.now token }
    requires room { length names.old < 4294967295 }
    ensures grows { Grows names.old names.new }
    ensures longer { length names.new ≤ length names.old + 1 }
    ensures number { IfOk result (λ id. IsNumber text.now names.new token id.0) }
{
    if is_same(TokenKind::Name, token.kind) {
        let from = token.span.from as usize;
        let to = token.span.to as usize;
        names.intern(alloc, &text[from..to])
    } else {
        Ok(NameId(0))
    }
}

/// The tokens with the numbers of their names, for which the table grows.
pub(crate) fn number(
    alloc: Global,
    tokens: &Vec<Token>,
    text: &str,
    names: &mut NameTable,
) -> Result<Vec<Named>, NoMemory>
    requires lexed { lexed text.now ≡ Ok (map text_token tokens.now.items) }
    requires room { length names.old + length tokens.now.items < 4294967295 }
    ensures grows { Grows names.old names.new }
    ensures tokens { IfOk result (λ list. map token_of list.items ≡ map (numbered text.now names.new) tokens.now.items) }
    ensures numbers { IfOk result (λ list. AreNumbered text.now names.new tokens.now.items) }
{
    let mut list = Vec::new(alloc);
    let mut at = 0;
    'tokens: while at < tokens.len() {
        let token = tokens[at];
        let name = number_of(alloc, token, text, names)?;
        list.push(Named {
            kind: token.kind,
            span: token.span,
            name,
        })?;
        at += 1;
    }
    Ok(list)
}
