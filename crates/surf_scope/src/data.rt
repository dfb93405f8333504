//! The scope of datatypes.
ghost use Rattle.std.specs.Prelude.{◌≡◌, ◌++◌, ◌∷◌, ◌<◌, [], map, IfOk, OnOk};
ghost use Rattle.cdle_model.specs.declared.grammar.Sort.TheVariants.{OfTerm};
ghost use Rattle.scope_model.specs.Scope.{meets, of_sort};
ghost use Rattle.scoped_tree.specs.Items.{constructor_of as scoped_constructor_of, parameter_of as scoped_parameter_of};
ghost use Rattle.surf_tree.specs.Items.{constructor_of, parameter_of};
ghost use Rattle.scope_part.specs.Around.{IsReady, around_of};
ghost use Rattle.surf_scope.specs.Data.{given_names, names_behind, scoped_constructor, scoped_parameter, taken};
ghost use Rattle.scope_part.specs.Entries.{listed_names};
ghost use Rattle.scope_part.specs.Index.{names_of};
ghost use Rattle.scope_part.specs.Layers.{bounds};
ghost use Rattle.surf_scope.specs.Modules.{spelled_constructor, spelled_parameter};
ghost use Rattle.scope_part.specs.Names.{text_of};
ghost use Rattle.surf_scope.specs.Passed.{GivesConstructors, GivesParts};
ghost use Rattle.scope_part.specs.Results.{Gives};

use crate::data_names::DataNames;
use crate::texts::written;
use cdle_model::Sort;
use cdle_names::{NameId, NameTable, NoMemory};
use scope_part::{Binders, Layer, Resolver, ScopeFault, spelling};
use scoped_tree::{ItemName, Scoped, ScopedCtor, ScopedParam};
use std::alloc::{AllocError, Global};
use surf_tree::{SrcClass, SrcCtor, SrcParam};

/// The constructors of a datatype, and the names of its items so far.
#[derive(Drop)]
pub(crate) struct Constructors {
    pub(crate) ctors: Vec<ScopedCtor>,
    pub(crate) names: DataNames,
}

/// The parts of a datatype, and the names of its items.
#[derive(Drop)]
pub(crate) struct DataParts {
    pub(crate) params: Vec<ScopedParam>,
    pub(crate) ctors: Vec<ScopedCtor>,
    pub(crate) names: Vec<ItemName>,
}

/// What a parameter of a class is.
fn sort_of(class: &SrcClass) -> Sort
    ensures { result ≡ Rattle.surf_tree.specs.Items.sort_of class.now }
{
    match class {
        SrcClass::OfKind(_) => Sort::OfType,
        SrcClass::OfType(_) => Sort::OfTerm,
    }
}

/// The parameters with one more.
fn with_param(params: Vec<ScopedParam>, param: ScopedParam) -> Result<Vec<ScopedParam>, NoMemory>
    ensures { IfOk result (λ more. more.items ≡ params.items ++ param ∷ []) }
{
    let mut params = params;
    params.push(param)?;
    Ok(params)
}

/// Puts a constructor and its name behind those so far.
fn add_ctor(
    alloc: Global,
    done: &mut Vec<ScopedCtor>,
    given: &mut DataNames,
    ctor: ScopedCtor,
    text: &str,
) -> Result<(), NoMemory>
    ensures done { OnOk result (done.new.items ≡ done.old.items ++ ctor ∷ []) }
    ensures given { OnOk result (given_names given.new ≡ given_names given.old ++ of_sort OfTerm text.now ∷ []) }
    ensures behind { names_behind given.new ≡ names_behind given.old }
{
    done.push(ctor)?;
    given.add(alloc, text)
}

/// A parameter under those before it.
fn parameter(
    resolver: &Resolver<'_>,
    names: &NameTable,
    binders: &Binders<'_>,
    param: &SrcParam,
) -> Result<ScopedParam, ScopeFault>
    requires { IsReady resolver.now }
    ensures { Gives scoped_parameter_of result (scoped_parameter (around_of names.now resolver.now) (bounds names.now binders.now) (spelled_parameter names.now (parameter_of param.now))) }
{
    match resolver.class(names, binders, &param.class) {
        Ok(class) => {
            Ok(ScopedParam {
                span: param.span,
                sort: sort_of(&param.class),
                class,
            })
        }
        Err(fault) => Err(fault),
    }
}

/// Whether an item has that name, one of the datatype included.
#[tactic(auto, using(crate::proofs::ItemScope::is_taken))]
fn is_taken(resolver: &Resolver<'_>, given: &DataNames, word: &str) -> bool
    ensures { result ≡ meets (word.now ∷ []) (taken (given_names given.now) (names_behind given.now) (names_of resolver.now.own.now)) }
{
    given.has(word) || resolver.own.has(word)
}

/// A constructor's type under the parameters and the datatype, if no item has its name.
#[tactic(auto, using(crate::proofs::Passing::constructor_twice))]
fn constructor(
    resolver: &Resolver<'_>,
    names: &NameTable,
    binders: &Binders<'_>,
    given: &DataNames,
    ctor: &SrcCtor,
) -> Result<ScopedCtor, ScopeFault>
    requires { IsReady resolver.now }
    ensures { Gives scoped_constructor_of result (scoped_constructor (around_of names.now resolver.now) (bounds names.now binders.now) (taken (given_names given.now) (names_behind given.now) (names_of resolver.now.own.now)) (spelled_constructor names.now (constructor_of ctor.now))) }
{
    let text = spelling(names, ctor.name);
    if is_taken(resolver, given, text) {
        return Err(ScopeFault::Twice { span: ctor.span });
    }
    let ty = match resolver.ty(names, binders, &ctor.ty) {
        Ok(ty) => ty,
        Err(fault) => return Err(fault),
    };
    let owner = spelling(names, resolver.name);
    match written(resolver.alloc, owner, text) {
        Ok(name) => {
            Ok(ScopedCtor {
                name,
                span: ctor.span,
                ty,
            })
        }
        Err(AllocError) => Err(ScopeFault::NoMemory),
    }
}

/// The constructors under the parameters and the datatype.
fn all_constructors(
    resolver: &Resolver<'_>,
    names: &NameTable,
    binders: &Binders<'_>,
    start: DataNames,
    ctors: &[SrcCtor],
) -> Result<Constructors, ScopeFault>
    requires { IsReady resolver.now }
    ensures { GivesConstructors (around_of names.now resolver.now) (bounds names.now binders.now) start (map (spelled_constructor names.now) (map constructor_of ctors.now)) result }
{
    let mut given = start;
    let mut done = Vec::new(resolver.alloc);
    let mut rest = ctors;
    'ctors: while let Some((ctor, others)) = rest.split_first() {
        let scoped = match constructor(resolver, names, binders, &given, ctor) {
            Ok(scoped) => scoped,
            Err(fault) => return Err(fault),
        };
        let text = spelling(names, ctor.name);
        match add_ctor(resolver.alloc, &mut done, &mut given, scoped, text) {
            Ok(()) => {}
            Err(NoMemory) => return Err(ScopeFault::NoMemory),
        }
        rest = others;
    }
    Ok(Constructors {
        ctors: done,
        names: given,
    })
}

/// The constructors under all parameters.
fn last_parts(
    resolver: &Resolver<'_>,
    names: &NameTable,
    binders: &Binders<'_>,
    datatype: NameId,
    given: DataNames,
    done: Vec<ScopedParam>,
    ctors: &[SrcCtor],
) -> Result<DataParts, ScopeFault>
    requires { IsReady resolver.now }
    ensures { GivesParts (around_of names.now resolver.now) (text_of names.now datatype.0) (bounds names.now binders.now) given (map scoped_parameter_of done.items) [] (map (spelled_constructor names.now) (map constructor_of ctors.now)) result }
{
    let layer = Layer::Variable(Some(datatype), Sort::OfType);
    let inner = Binders::Within(layer, &*binders);
    match all_constructors(resolver, names, &inner, given, ctors) {
        Ok(found) => match data_parts(done, found) {
            Ok(parts) => Ok(parts),
            Err(NoMemory) => Err(ScopeFault::NoMemory),
        },
        Err(fault) => Err(fault),
    }
}

/// The parameters behind those that are done, and then the constructors.
#[cycle(parts)]
pub(crate) fn parts(
    resolver: &Resolver<'_>,
    names: &NameTable,
    binders: &Binders<'_>,
    datatype: NameId,
    given: DataNames,
    done: Vec<ScopedParam>,
    params: &[SrcParam],
    ctors: &[SrcCtor],
) -> Result<DataParts, ScopeFault>
    requires { IsReady resolver.now }
    ensures { GivesParts (around_of names.now resolver.now) (text_of names.now datatype.0) (bounds names.now binders.now) given (map scoped_parameter_of done.items) (map (spelled_parameter names.now) (map parameter_of params.now)) (map (spelled_constructor names.now) (map constructor_of ctors.now)) result }
{
    let Some((param, others)) = params.split_first() else {
        return last_parts(resolver, names, binders, datatype, given, done, ctors);
    };
    let scoped = match parameter(resolver, names, binders, param) {
        Ok(scoped) => scoped,
        Err(fault) => return Err(fault),
    };
    let layer = Layer::Variable(Some(param.name), sort_of(&param.class));
    let inner = Binders::Within(layer, &*binders);
    let done = match with_param(done, scoped) {
        Ok(done) => done,
        Err(NoMemory) => return Err(ScopeFault::NoMemory),
    };
    parts(
        resolver, names, &inner, datatype, given, done, others, ctors,
    )
}

fn data_parts(params: Vec<ScopedParam>, found: Constructors) -> Result<DataParts, NoMemory>
    ensures params { IfOk result (λ parts. parts.params.items ≡ params.items) }
    ensures ctors { IfOk result (λ parts. parts.ctors.items ≡ found.ctors.items) }
    ensures names { IfOk result (λ parts. listed_names parts.names.items ≡ given_names found.names ++ names_behind found.names) }
{
    let names = found.names.all()?;
    Ok(DataParts {
        params,
        ctors: found.ctors,
        names,
    })
}
