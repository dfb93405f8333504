//! What the names of a module stand for at a place of it.
ghost use Rattle.std.specs.Prelude.{◌≡◌, IfOk};
ghost use Rattle.scope_model.specs.Scope.{wanted_as};
ghost use Rattle.scope_model.specs.ScopeNames.{exported, imported, is_one_of, listed, or_else, prelude, stands, stands_alone, stands_in};
ghost use Rattle.scoped_tree.specs.Trees.{reference};
ghost use Rattle.surf_tree.specs.Forms.{name_use, place};
ghost use Rattle.scope_part.specs.Around.{IsReady, around_of, import_texts};
ghost use Rattle.scope_part.specs.Entries.{item_standing};
ghost use Rattle.scope_part.specs.Known.{exported_all};
ghost use Rattle.scope_part.specs.Layers.{bounds};
ghost use Rattle.scope_part.specs.Names.{spelled_use, standing_of};
ghost use Rattle.scope_part.specs.Results.{Gives};

use crate::binders::{Binders, find_binder};
use crate::exported::ExportedModule;
use crate::fault::ScopeFault;
use crate::index::ItemIndex;
use crate::names::spelling;
use cdle_model::Sort;
use cdle_names::{NameId, NameTable, NoMemory, Span};
use scoped_tree::Reference;
use std::alloc::Global;
use surf_tree::NameUse;

/// What is known at an item.
#[derive(Drop)]
pub struct Resolver<'a> {
    /// The memory in which trees are made.
    pub alloc: Global,
    /// The module's own name.
    pub name: NameId,
    /// The names of the modules that it imports, with their places.
    pub imports: &'a [(NameId, Span)],
    /// The modules that are known.
    pub modules: &'a [ExportedModule],
    /// The number of the module's first Core item.
    pub first: u32,
    /// The names of the module's Core items before this item.
    pub own: &'a ItemIndex,
}

/// The item of a module.
#[tactic(auto, unfolding(scope_model::specs::ScopeNames::exported))]
fn find_exported(owner: &str, word: &str, modules: &[ExportedModule]) -> Option<(Sort, u32)>
    ensures { item_standing result ≡ exported owner.now word.now (exported_all modules.now) }
{
    let mut rest = modules;
    'modules: while let Some((known, others)) = rest.split_first() {
        if owner == known.name() {
            return known.find(word);
        }
        rest = others;
    }
    None
}

/// The item of the first import that has one.
#[tactic(auto, unfolding(scope_model::specs::ScopeNames::imported))]
fn find_imported(
    names: &NameTable,
    imports: &[(NameId, Span)],
    word: &str,
    modules: &[ExportedModule],
) -> Option<(Sort, u32)>
    ensures { item_standing result ≡ imported (import_texts names.now imports.now) word.now (exported_all modules.now) }
{
    let mut rest = imports;
    'imports: while let Some((import, others)) = rest.split_first() {
        if let Some(found) = find_exported(spelling(names, import.0), word, modules) {
            return Some(found);
        }
        rest = others;
    }
    None
}

/// Whether the module is one of the imports.
fn is_import(names: &NameTable, imports: &[(NameId, Span)], owner: &str) -> bool
    ensures { result ≡ is_one_of owner.now (import_texts names.now imports.now) }
{
    let mut rest = imports;
    'owners: while let Some((import, others)) = rest.split_first() {
        if owner == spelling(names, import.0) {
            return true;
        }
        rest = others;
    }
    false
}

fn of_item(found: Option<(Sort, u32)>) -> Option<(Sort, Reference)>
    ensures { standing_of result ≡ item_standing found }
{
    match found {
        Some((sort, number)) => Some((sort, Reference::Item(number))),
        None => None,
    }
}

fn of_sort(
    span: Span,
    sort: Sort,
    found: Option<(Sort, Reference)>,
) -> Result<Reference, ScopeFault>
    ensures { Gives reference result (wanted_as (place span) sort (standing_of found)) }
{
    match found {
        None => Err(ScopeFault::Unbound { span }),
        Some((Sort::OfTerm, reference)) => match sort {
            Sort::OfTerm => Ok(reference),
            Sort::OfType => Err(ScopeFault::WrongClass { span }),
        },
        Some((Sort::OfType, reference)) => match sort {
            Sort::OfTerm => Err(ScopeFault::WrongClass { span }),
            Sort::OfType => Ok(reference),
        },
    }
}

impl Resolver<'_> {
    /// The innermost binder, else the module's item, else the first import's, else the prelude's.
    fn find_alone(
        &self,
        names: &NameTable,
        binders: &Binders<'_>,
        word: &str,
    ) -> Result<Option<(Sort, Reference)>, NoMemory>
        requires { IsReady self.now }
        ensures { IfOk result (λ found. standing_of found ≡ stands_alone (around_of names.now self.now) (bounds names.now binders.now) word.now) }
    {
        if let Some(found) = find_binder(names, binders, word)? {
            return Ok(Some(found));
        }
        Ok(self.find_item(names, word))
    }

    /// The module's item, else the first import's, else the prelude's.
    fn find_item(&self, names: &NameTable, word: &str) -> Option<(Sort, Reference)>
        requires { IsReady self.now }
        ensures { standing_of result ≡ or_else (listed word.now (around_of names.now self.now).first (around_of names.now self.now).own) (or_else (imported (around_of names.now self.now).imports word.now (around_of names.now self.now).modules) (exported prelude word.now (around_of names.now self.now).modules)) }
    {
        if let Some(found) = self.own.find(word, self.first) {
            return of_item(Some(found));
        }
        if let Some(found) = find_imported(names, self.imports, word, self.modules) {
            return of_item(Some(found));
        }
        of_item(find_exported("prelude", word, self.modules))
    }

    /// The item of this module, of a direct import or of the prelude.
    fn find_in(&self, names: &NameTable, owner: &str, word: &str) -> Option<(Sort, Reference)>
        requires { IsReady self.now }
        ensures { standing_of result ≡ stands_in (around_of names.now self.now) owner.now word.now }
    {
        if owner == spelling(names, self.name) {
            return of_item(self.own.find(word, self.first));
        }
        if owner == "prelude" || is_import(names, self.imports, owner) {
            return of_item(find_exported(owner, word, self.modules));
        }
        None
    }

    /// What a name stands for.
    #[tactic(auto, unfolding(scope_model::specs::ScopeNames::stands))]
    fn find(
        &self,
        names: &NameTable,
        binders: &Binders<'_>,
        name: NameUse,
    ) -> Result<Option<(Sort, Reference)>, NoMemory>
        requires { IsReady self.now }
        ensures { IfOk result (λ found. standing_of found ≡ stands (around_of names.now self.now) (bounds names.now binders.now) (spelled_use names.now (name_use name))) }
    {
        let word = spelling(names, name.name);
        match name.module {
            None => self.find_alone(names, binders, word),
            Some(owner) => Ok(self.find_in(names, spelling(names, owner), word)),
        }
    }

    /// What a name stands for where a term, or a type, is wanted.
    pub(crate) fn reference(
        &self,
        names: &NameTable,
        binders: &Binders<'_>,
        sort: Sort,
        span: Span,
        name: NameUse,
    ) -> Result<Reference, ScopeFault>
        requires { IsReady self.now }
        ensures { Gives reference result (wanted_as (place span) sort (stands (around_of names.now self.now) (bounds names.now binders.now) (spelled_use names.now (name_use name)))) }
    {
        match self.find(names, binders, name) {
            Ok(found) => of_sort(span, sort, found),
            Err(NoMemory) => Err(ScopeFault::NoMemory),
        }
    }
}
