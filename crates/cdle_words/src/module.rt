//! The names of modules.
ghost use Rattle.std.specs.Prelude.{◌≡◌, map, option_map, string_bytes};
ghost use Rattle.std.specs.Str.{chars};
ghost use Rattle.source_model.specs.Parsing.{has_slash};
ghost use Rattle.source_model.specs.SurfaceTokens.{continues_name, is_reserved, starts_name};
ghost use Rattle.cdle_words.specs.ModuleNames.{is_kept_word, is_module_name, spell_name};
ghost use Rattle.cdle_words.specs.Words.{only_module};

use unicode_ident::{is_xid_continue, is_xid_start};

/// The one value, where it is a module's name.
pub(crate) fn module_of(mut values: Vec<String>) -> Option<String>
    ensures { option_map string_bytes result ≡ only_module (map string_bytes values.items) }
{
    let module = values.pop()?;
    if !values.is_empty() || !is_module_name(module.as_str()) {
        return None;
    }
    Some(module)
}

/// Whether the word is a module's name.
fn is_module_name(word: &str) -> bool
    ensures { result ≡ is_module_name word.now }
{
    is_name(word) && !has_slash(word) && !is_kept_word(word)
}

/// Whether the word is one name of a surface text, or one of its words that are no names.
fn is_name(word: &str) -> bool
    ensures { result ≡ spell_name (chars word.now) }
{
    let mut chars = word.chars();
    match chars.next() {
        Some(c) => begins_name(c) && chars.all(|c| is_in_name(c)),
        None => false,
    }
}

fn has_slash(word: &str) -> bool
    ensures { result ≡ has_slash word.now }
{
    word.as_bytes().iter().any(|b| *b == b'/')
}

/// Whether no module of that name can be built.
fn is_kept_word(word: &str) -> bool
    ensures { result ≡ is_kept_word word.now }
{
    word == "prelude" || word == "module" || word == "import" || word == "data"
}

/// Whether a name may begin with the character.
fn begins_name(c: char) -> bool
    ensures { result ≡ starts_name c }
{
    (is_xid_start(c) || c == '_') && !is_reserved(c)
}

/// Whether a name may go on with the character.
fn is_in_name(c: char) -> bool
    ensures { result ≡ continues_name c }
{
    (is_xid_continue(c) || c == '/' || c == '\'') && !is_reserved(c)
}

// Unicode lets names have these too.
fn is_reserved(c: char) -> bool
    ensures { result ≡ is_reserved c }
{
    matches!(
        c,
        'λ' | 'Λ' | 'Π' | 'ι' | 'β' | 'ρ' | 'φ' | 'δ' | 'χ' | 'ς' | 'μ' | 'σ' | '·'
    )
}
