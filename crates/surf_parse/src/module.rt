//! Reading a module: its name, its imports and its items, to the end of the tokens.
ghost use Rattle.std.specs.Prelude.{◌≡◌, ◌∷◌, [], ◌||◌, ℕ, List, codes, cond, false, get_or, map, Ok, Some, OnOk};
ghost use Rattle.std.specs.List.{list_any};
ghost use Rattle.std.specs.Str.{bytes_eq};
ghost use Rattle.source_model.specs.Source.{Module};
ghost use Rattle.source_model.specs.Source as source;
ghost use Rattle.source_model.specs.Grammar.{Imports, IsImportable, IsModule, Items, Read, Token, Value};
ghost use Rattle.source_model.specs.Grammar as m;
ghost use Rattle.source_model.specs.Rows.{a_module};
ghost use Rattle.source_model.specs.Parsing.{has_slash, one};
ghost use Rattle.surf_tree.specs.Items.{import_of};
ghost use Rattle.surf_reader.specs.View.{Goes, Tested, Told, given_of, here, on_token, token_of};
ghost use Rattle.surf_parse.specs.Answers.{IsParsed};
ghost use Rattle.surf_parse.specs.Outer.{Advances, IsEnd, Repeats, row_of_import, import_on, imported, imports_of, items_of, module_value};

use crate::item::item;
use cdle_names::{NameId, NoMemory, Span};
use source_model::{TokenKind, Wanted};
use surf_reader::{Named, ParseFault, Reader};
use surf_tree::{SrcItem, SrcModule};

/// Whether a slash stands in a text.
fn has_slash(text: &str) -> bool
    ensures { result ≡ has_slash text.now }
{
    text.as_bytes().iter().any(|b| *b == b'/')
}

/// The text of a name. (Where the table has no such number there is none.)
fn text_of<'a>(reader: &Reader<'a>, name: NameId) -> &'a str
    ensures { result.now ≡ get_or reader.now.names.now name.0 [] }
{
    if name.0 < reader.names.len() {
        reader.names.text(name)
    } else {
        ""
    }
}

/// Whether a name has the text of the module's.
fn names_module(reader: &Reader<'_>, name: Named) -> bool
    ensures { result ≡ cond (has_slash ((given_of reader.now).text name.name.0)) false (bytes_eq ((given_of reader.now).text name.name.0) reader.now.«module».now) }
{
    let text = text_of(reader, name.name);
    !has_slash(text) && text.as_bytes() == reader.module
}

/// Whether no module of that name may be imported.
fn is_reserved(reader: &Reader<'_>, name: Named) -> bool
    ensures { result ≡ (has_slash ((given_of reader.now).text name.name.0) || bytes_eq ((given_of reader.now).text name.name.0) (codes "prelude")) }
{
    let text = text_of(reader, name.name);
    has_slash(text) || text == "prelude"
}

/// That a name is the module's.
fn is_module(reader: &Reader<'_>, name: Named, at: usize) -> Result<(), ParseFault>
    ensures { Tested reader.now (λ u vs. on_token name vs) result IsModule (on_token name) at }
{
    if !names_module(reader, name) {
        return Err(ParseFault::Unexpected {
            at: reader.latest(at),
            wanted: Wanted::Name,
        });
    }
    Ok(())
}

/// That a module of that name may be imported.
fn is_importable(reader: &Reader<'_>, name: Named, at: usize) -> Result<(), ParseFault>
    ensures { Tested reader.now (λ u vs. on_token name vs) result IsImportable (on_token name) at }
{
    if is_reserved(reader, name) {
        return Err(ParseFault::Unexpected {
            at: reader.latest(at),
            wanted: Wanted::Name,
        });
    }
    Ok(())
}

/// An import, behind its word.
fn import_behind(reader: &Reader<'_>, at: usize) -> Result<(Named, usize), ParseFault>
    ensures { (d : Token ℕ) (b : Module ℕ) → Goes reader.now (λ x vs. import_on (given_of reader.now).text b vs x) result row_of_import (λ vs. m.token d ∷ m.module_so_far b ∷ vs) at }
{
    let (name, at) = reader.binding(at)?;
    is_importable(reader, name, at)?;
    let (_, at) = reader.sign(TokenKind::Period, at)?;
    Ok((name, at))
}

/// The import that is next, if one is.
fn import(reader: &Reader<'_>, at: usize) -> Result<Option<(Named, usize)>, ParseFault>
    ensures repeats { (b : Module ℕ) (vs : List (Value ℕ)) → Repeats reader.now Imports Imports (m.module_so_far b ∷ vs) (import_on (given_of reader.now).text b vs) at result }
    ensures ahead { (x : _) → result ≡ Ok (Some x) → Advances reader.now at x.1 }
{
    match reader.taken(TokenKind::Import, at) {
        None => Ok(None),
        Some(_) => Ok(Some(import_behind(reader, at + 1)?)),
    }
}

/// Whether a name has that text.
fn has_text(reader: &Reader<'_>, name: NameId, text: &str) -> bool
    ensures { result ≡ bytes_eq text.now ((given_of reader.now).text name.0) }
{
    text == text_of(reader, name)
}

/// Whether an import has that text.
fn is_imported(reader: &Reader<'_>, list: &Vec<(NameId, Span)>, text: &str) -> bool
    ensures { result ≡ list_any (λ i. bytes_eq text.now ((given_of reader.now).text i.0)) (map import_of list.now.items) }
{
    let mut rest = list.as_slice();
    'imports: while let Some((first, others)) = rest.split_first() {
        if has_text(reader, first.0, text) {
            return true;
        }
        rest = others;
    }
    false
}

/// One more import, where none has its text.
fn add_import(
    reader: &Reader<'_>,
    list: &mut Vec<(NameId, Span)>,
    name: Named,
) -> Result<(), NoMemory>
    ensures { OnOk result (map import_of list.new.items ≡ imported (given_of reader.now).text name (map import_of list.old.items)) }
{
    if is_imported(reader, list, text_of(reader, name.name)) {
        return Ok(());
    }
    list.push((name.name, name.span))?;
    Ok(())
}

/// All the imports of a module.
fn imports(reader: &Reader<'_>, at: usize) -> Result<(Vec<(NameId, Span)>, usize), ParseFault>
    ensures { (x : ℕ) → Told reader.now (imports_of x) result (λ vs. one (given_of reader.now) (Read Imports) (here reader.now at (m.module_so_far (record { name = x; imports = []; items = [] }) ∷ vs))) }
{
    let mut list = Vec::new(reader.alloc);
    let mut to = at;
    'imports: while let Some((name, next)) = import(reader, to)? {
        add_import(reader, &mut list, name)?;
        to = next;
    }
    Ok((list, to))
}

/// All the items of a module.
fn items(reader: &Reader<'_>, at: usize) -> Result<(Vec<SrcItem>, usize), ParseFault>
    ensures { (x : ℕ) (is : List (ℕ × source.Span)) → Told reader.now (items_of x is) result (λ vs. one (given_of reader.now) (Read Items) (here reader.now at (m.module_so_far (record { name = x; imports = is; items = [] }) ∷ vs))) }
{
    let mut list = Vec::new(reader.alloc);
    let mut to = at;
    'items: while let Some((item, next)) = item(reader, to)? {
        list.push(item)?;
        to = next;
    }
    Ok((list, to))
}

/// A module, whatever follows it.
fn whole(reader: &Reader<'_>) -> Result<(SrcModule, usize), ParseFault>
    ensures { Goes reader.now module_value result a_module (λ vs. vs) 0 }
{
    let (_, at) = reader.sign(TokenKind::Module, 0)?;
    let (name, at) = reader.binding(at)?;
    is_module(reader, name, at)?;
    let (_, at) = reader.sign(TokenKind::Period, at)?;
    let (imports, at) = imports(reader, at)?;
    let (items, at) = items(reader, at)?;
    let module = SrcModule {
        name: name.name,
        imports,
        items,
    };
    Ok((module, at))
}

/// That no token is left.
fn ended(reader: &Reader<'_>, at: usize) -> Result<(), ParseFault>
    ensures { IsEnd reader.now at result }
{
    match reader.peek(at) {
        None => Ok(()),
        Some(token) => Err(ParseFault::Unexpected {
            at: token.span.from,
            wanted: Wanted::Item,
        }),
    }
}

/// The module that all the tokens are.
pub(crate) fn read_module(reader: &Reader<'_>) -> Result<SrcModule, ParseFault>
    ensures { IsParsed (given_of reader.now) (map token_of reader.now.tokens.now) result }
{
    let (module, at) = whole(reader)?;
    ended(reader, at)?;
    Ok(module)
}
