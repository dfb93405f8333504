//! Modules from their texts.
use cdle_names::NameTable;
use scoped_tree::ScopedModule;
use std::alloc::Global;
use surf_lex::lex;
use surf_parse::parse;
use surf_scope::{Exports, ScopeFault, resolve};
use surf_tree::SrcModule;

/// A module's name, and its text.
pub(crate) type Row = (&'static str, &'static str);

/// The module of that name that the text is.
pub(crate) fn read_module(
    alloc: Global,
    name: &str,
    text: &str,
    names: &mut NameTable,
) -> Option<SrcModule> {
    if text.len() > 1_048_576 || names.len() > 1_000_000 {
        return None;
    }
    let Ok(tokens) = lex(alloc, text) else {
        return None;
    };
    if tokens.len() > 1_048_576 {
        return None;
    }
    parse(alloc, &tokens, text, name, names).ok()
}

/// What the module of that text comes to behind those that are known.
pub(crate) fn scope_of(
    alloc: Global,
    name: &str,
    text: &str,
    exports: &Exports,
    names: &mut NameTable,
) -> Option<Result<ScopedModule, ScopeFault>> {
    let module = read_module(alloc, name, text, names)?;
    Some(resolve(alloc, &module, exports, names))
}

/// The modules that these texts are, each behind those before it.
pub(crate) fn exports_of(alloc: Global, rows: &[Row], names: &mut NameTable) -> Option<Exports> {
    let mut exports = Exports::new(alloc);
    for (name, text) in rows {
        let Some(Ok(module)) = scope_of(alloc, name, text, &exports, names) else {
            return None;
        };
        exports.add(alloc, &module).ok()?;
    }
    Some(exports)
}
