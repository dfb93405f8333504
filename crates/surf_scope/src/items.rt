//! The scope of an item behind others.
ghost use Rattle.std.specs.Prelude.{◌≡◌, ◌+◌, ◌<◌, ◌^◌, ◌∷◌, ◌++◌, ℕ, codes, [], length, map, IfOk};
ghost use Rattle.cdle_model.specs.declared.grammar.Sort.TheVariants.{OfTerm, OfType};
ghost use Rattle.source_model.specs.Source.{data_item, def_item, type_item};
ghost use Rattle.scope_model.specs.Scope.{of_sort};
ghost use Rattle.scoped_tree.specs.Items.{BeginsAt, constructor_of as scoped_constructor_of, item_of as scoped_item_of, parameter_of as scoped_parameter_of};
ghost use Rattle.surf_tree.specs.Forms.{place};
ghost use Rattle.surf_tree.specs.Items.{constructor_of, item_of, parameter_of};
ghost use Rattle.scope_part.specs.Around.{IsReady, around_of};
ghost use Rattle.scope_part.specs.Entries.{listed_names};
ghost use Rattle.scope_part.specs.Index.{names_of};
ghost use Rattle.surf_scope.specs.Modules.{spelled_item};
ghost use Rattle.surf_scope.specs.Passed.{GivesItem};

use crate::data::{DataParts, parts};
use crate::data_names::DataNames;
use crate::texts::written;
use cdle_model::{Sort, Text};
use cdle_names::{NameId, NameTable, NoMemory, Span};
use scope_part::{Binders, Resolver, ScopeFault, spelling};
use scoped_tree::{ItemName, Scoped, ScopedData, ScopedItem};
use std::alloc::{AllocError, Global};
use surf_tree::{Src, SrcCtor, SrcItem, SrcKind, SrcParam, SrcType};

/// The most parameters that a datatype may have: going under them takes one call for each.
const MOST_PARAMETERS: usize = 4_096;

/// An item whose scope is known, with the names of its Core items.
#[derive(Drop)]
pub(crate) struct NewItem {
    pub(crate) item: ScopedItem,
    pub(crate) names: Vec<ItemName>,
}

/// The name of an item that gives one Core item.
fn name_of(alloc: Global, text: &str, sort: Sort) -> Result<Vec<ItemName>, NoMemory>
    ensures { IfOk result (λ names. listed_names names.items ≡ of_sort sort text.now ∷ []) }
{
    let text = Text::new(alloc, text)?;
    let mut names = Vec::new(alloc);
    names.push(ItemName { text, sort })?;
    Ok(names)
}

fn new_def(
    alloc: Global,
    module: &str,
    text: &str,
    span: Span,
    ty: Scoped,
    body: Scoped,
) -> Result<NewItem, NoMemory>
    ensures item { IfOk result (λ new. scoped_item_of new.item ≡ def_item (place span) («module».now ++ (codes "." ++ text.now)) ty body) }
    ensures names { IfOk result (λ new. listed_names new.names.items ≡ of_sort OfTerm text.now ∷ []) }
    ensures begins { IfOk result (λ new. (n : ℕ) → BeginsAt n new.item) }
{
    let names = name_of(alloc, text, Sort::OfTerm)?;
    let name = written(alloc, module, text)?;
    let item = ScopedItem::Def {
        name,
        span,
        ty,
        body,
    };
    Ok(NewItem { item, names })
}

fn new_type(
    alloc: Global,
    module: &str,
    text: &str,
    span: Span,
    kind: Scoped,
    body: Scoped,
) -> Result<NewItem, NoMemory>
    ensures item { IfOk result (λ new. scoped_item_of new.item ≡ type_item (place span) («module».now ++ (codes "." ++ text.now)) kind body) }
    ensures names { IfOk result (λ new. listed_names new.names.items ≡ of_sort OfType text.now ∷ []) }
    ensures begins { IfOk result (λ new. (n : ℕ) → BeginsAt n new.item) }
{
    let names = name_of(alloc, text, Sort::OfType)?;
    let name = written(alloc, module, text)?;
    let item = ScopedItem::TypeDef {
        name,
        span,
        kind,
        body,
    };
    Ok(NewItem { item, names })
}

fn new_data(
    alloc: Global,
    module: &str,
    text: &str,
    span: Span,
    first: u32,
    parts: DataParts,
) -> Result<NewItem, NoMemory>
    ensures item { IfOk result (λ new. scoped_item_of new.item ≡ data_item (place span) («module».now ++ (codes "." ++ text.now)) (map scoped_parameter_of parts.params.items) (map scoped_constructor_of parts.ctors.items)) }
    ensures names { IfOk result (λ new. new.names.items ≡ parts.names.items) }
    ensures begins { IfOk result (λ new. BeginsAt first new.item) }
{
    let name = written(alloc, module, text)?;
    let item = ScopedItem::Data(ScopedData {
        name,
        first,
        span,
        params: parts.params,
        ctors: parts.ctors,
    });
    Ok(NewItem {
        item,
        names: parts.names,
    })
}

/// A term with its type.
fn def(
    resolver: &Resolver<'_>,
    names: &NameTable,
    name: NameId,
    span: Span,
    ty: &SrcType,
    body: &Src,
) -> Result<NewItem, ScopeFault>
    requires { IsReady resolver.now }
    ensures { GivesItem (around_of names.now resolver.now) (spelled_item names.now (def_item (place span) name.0 ty.now body.now)) result }
{
    let text = spelling(names, name);
    if resolver.own.has(text) {
        return Err(ScopeFault::Twice { span });
    }
    let ty = match resolver.ty(names, &Binders::Outermost, ty) {
        Ok(ty) => ty,
        Err(fault) => return Err(fault),
    };
    let body = match resolver.term(names, &Binders::Outermost, body) {
        Ok(body) => body,
        Err(fault) => return Err(fault),
    };
    match new_def(
        resolver.alloc,
        spelling(names, resolver.name),
        text,
        span,
        ty,
        body,
    ) {
        Ok(new) => Ok(new),
        Err(NoMemory) => Err(ScopeFault::NoMemory),
    }
}

/// A type with its kind.
fn type_def(
    resolver: &Resolver<'_>,
    names: &NameTable,
    name: NameId,
    span: Span,
    kind: &SrcKind,
    body: &SrcType,
) -> Result<NewItem, ScopeFault>
    requires { IsReady resolver.now }
    ensures { GivesItem (around_of names.now resolver.now) (spelled_item names.now (type_item (place span) name.0 kind.now body.now)) result }
{
    let text = spelling(names, name);
    if resolver.own.has(text) {
        return Err(ScopeFault::Twice { span });
    }
    let kind = match resolver.kind(names, &Binders::Outermost, kind) {
        Ok(kind) => kind,
        Err(fault) => return Err(fault),
    };
    let body = match resolver.ty(names, &Binders::Outermost, body) {
        Ok(body) => body,
        Err(fault) => return Err(fault),
    };
    match new_type(
        resolver.alloc,
        spelling(names, resolver.name),
        text,
        span,
        kind,
        body,
    ) {
        Ok(new) => Ok(new),
        Err(NoMemory) => Err(ScopeFault::NoMemory),
    }
}

/// The number of the item's first Core item.
fn next_number(resolver: &Resolver<'_>) -> u32
    requires { resolver.now.first + length (names_of resolver.now.own.now) < 2 ^ 32 }
    ensures { result ≡ resolver.now.first + length (names_of resolver.now.own.now) }
{
    resolver.first + resolver.own.len() as u32
}

/// A datatype.
fn data(
    resolver: &Resolver<'_>,
    names: &NameTable,
    name: NameId,
    span: Span,
    params: &[SrcParam],
    ctors: &[SrcCtor],
) -> Result<NewItem, ScopeFault>
    requires { IsReady resolver.now }
    ensures { GivesItem (around_of names.now resolver.now) (spelled_item names.now (data_item (place span) name.0 (map parameter_of params.now) (map constructor_of ctors.now))) result }
{
    let text = spelling(names, name);
    let given = match DataNames::new(resolver.alloc, text) {
        Ok(given) => given,
        Err(NoMemory) => return Err(ScopeFault::NoMemory),
    };
    if given.any_in(resolver.own) {
        return Err(ScopeFault::Twice { span });
    }
    if params.len() > MOST_PARAMETERS {
        return Err(ScopeFault::NoMemory);
    }
    let done = Vec::new(resolver.alloc);
    let parts = match parts(
        resolver,
        names,
        &Binders::Outermost,
        name,
        given,
        done,
        params,
        ctors,
    ) {
        Ok(parts) => parts,
        Err(fault) => return Err(fault),
    };
    let first = next_number(resolver);
    match new_data(
        resolver.alloc,
        spelling(names, resolver.name),
        text,
        span,
        first,
        parts,
    ) {
        Ok(new) => Ok(new),
        Err(NoMemory) => Err(ScopeFault::NoMemory),
    }
}

/// An item whose names are replaced by what they stand for.
pub(crate) fn resolved_item(
    resolver: &Resolver<'_>,
    names: &NameTable,
    item: &SrcItem,
) -> Result<NewItem, ScopeFault>
    requires { IsReady resolver.now }
    ensures { GivesItem (around_of names.now resolver.now) (spelled_item names.now (item_of item.now)) result }
{
    match item {
        SrcItem::Def {
            name,
            span,
            ty,
            body,
        } => def(resolver, names, *name, *span, ty, body),
        SrcItem::TypeDef {
            name,
            span,
            kind,
            body,
        } => type_def(resolver, names, *name, *span, kind, body),
        SrcItem::Data {
            name,
            span,
            params,
            ctors,
        } => data(
            resolver,
            names,
            *name,
            *span,
            params.as_slice(),
            ctors.as_slice(),
        ),
    }
}
