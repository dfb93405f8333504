//! The binders around a place.
ghost use Rattle.std.specs.Prelude.{◌≡◌, ◌<◌, ◌+◌, ◌++◌, ◌^◌, if◌then◌else◌, length, map, Some, IfOk, IfSome};
ghost use Rattle.std.specs.Str.{bytes_eq};
ghost use Rattle.scope_model.specs.Scope.{hides, mode_sort as sort_of_mode, of_case, prefixed, with_patterns};
ghost use Rattle.scope_model.specs.ScopeNames.{bound, is_called};
ghost use Rattle.scoped_tree.specs.Trees.{case_form};
ghost use Rattle.scoped_tree.specs.declared.forms.Reference.TheVariants.{Variable as OfNumber};
ghost use Rattle.surf_tree.specs.Forms.{pattern_of};
ghost use Rattle.scope_part.specs.Layers.{bounds, layer_bounds, layer_length, pattern_bounds};
ghost use Rattle.scope_part.specs.Names.{standing_of, text_or_none};
ghost use Rattle.scope_part.specs.Spelled.{spelled_patterns};

use crate::names::spelling;
use cdle_model::{Mode, Sort};
use cdle_names::{NameId, NameTable, NoMemory};
use scoped_tree::{CaseForm, Reference};
use surf_tree::SrcPattern;

/// Binders that come together.
#[derive(Clone, Copy)]
pub enum Layer<'a> {
    /// A variable, with its name if it has one.
    Variable(Option<NameId>, Sort),
    /// What each branch of a case binds before its pattern: of `μ r` from outside `Type/r`, the proof along which `to/r` casts, and r.
    Case(CaseForm, Option<NameId>),
    /// The names of a branch's pattern, the first of them outermost.
    Pattern(&'a [SrcPattern]),
}

/// The binders around a place, the innermost first.
#[derive(Drop)]
pub enum Binders<'a> {
    /// None.
    Outermost,
    /// These, within those outside of them.
    Within(Layer<'a>, &'a Binders<'a>),
}

/// Whether the binder is called so.
pub(crate) fn is_named(names: &NameTable, name: Option<NameId>, word: &str) -> bool
    ensures { result ≡ is_called word.now (text_or_none names.now name) }
{
    match name {
        Some(id) => word == spelling(names, id),
        None => false,
    }
}

/// Whether the word is the name behind the prefix.
fn is_joined(word: &[u8], prefix: &[u8], name: &[u8]) -> bool
    ensures { result ≡ bytes_eq word.now (prefix.now ++ name.now) }
{
    match prefix.split_first() {
        None => word == name,
        Some((first, others)) => match word.split_first() {
            None => false,
            Some((byte, rest)) => *byte == *first && is_joined(rest, others, name),
        },
    }
}

/// Whether a binder that is called so behind the prefix is called by the word.
fn is_prefixed(names: &NameTable, prefix: &str, name: Option<NameId>, word: &str) -> bool
    ensures { result ≡ is_called word.now (prefixed prefix.now (text_or_none names.now name)) }
{
    match name {
        Some(id) => is_joined(
            word.as_bytes(),
            prefix.as_bytes(),
            spelling(names, id).as_bytes(),
        ),
        None => false,
    }
}

/// What a pattern's name of that mode is.
fn mode_class(mode: Mode) -> Sort
    ensures { result ≡ sort_of_mode mode }
{
    match mode {
        Mode::Kept | Mode::Erased => Sort::OfTerm,
        Mode::OfType => Sort::OfType,
    }
}

/// The pattern's name with its number if it is called so, and else what was found before it.
fn newer(
    names: &NameTable,
    pattern: &SrcPattern,
    word: &str,
    number: u32,
    found: Option<(Sort, Reference)>,
) -> Option<(Sort, Reference)>
    ensures { result ≡ (if is_called word.now (text_or_none names.now (Some pattern.now.name)) then Some (sort_of_mode pattern.now.mode, OfNumber number) else found) }
{
    if is_named(names, Some(pattern.name), word) {
        return Some((mode_class(pattern.mode), Reference::Variable(number)));
    }
    found
}

/// The last name of a pattern that is called so, where the last of all has this number.
#[tactic(auto, using(crate::proofs::Bounds::pattern_step, crate::proofs::Bounds::pattern_found))]
fn find_in_pattern(
    names: &NameTable,
    patterns: &[SrcPattern],
    word: &str,
    index: u32,
) -> Option<(Sort, Reference)>
    requires few { index + length patterns.now < 2 ^ 32 }
    ensures { standing_of result ≡ bound word.now index (pattern_bounds names.now patterns.now) }
{
    let mut found = None;
    let mut rest = patterns;
    'patterns: while let Some((first, others)) = rest.split_first() {
        let number = index + others.len() as u32;
        found = newer(names, first, word, number, found);
        rest = others;
    }
    found
}

/// What a branch of a case binds before its pattern and is called so, where the innermost has this number.
#[tactic(auto, unfolding(scope_model::specs::ScopeNames::bound))]
fn find_in_case(
    names: &NameTable,
    form: CaseForm,
    name: Option<NameId>,
    word: &str,
    index: u32,
) -> Option<(Sort, Reference)>
    requires few { index + length (of_case (case_form form) (text_or_none names.now name)) < 2 ^ 32 }
    ensures { standing_of result ≡ bound word.now index (of_case (case_form form) (text_or_none names.now name)) }
{
    match form {
        CaseForm::Sigma => None,
        CaseForm::Mu => {
            if is_named(names, name, word) {
                return Some((Sort::OfTerm, Reference::Variable(index)));
            }
            if is_prefixed(names, "to/", name, word) {
                return Some((Sort::OfTerm, Reference::Cast(index + 1)));
            }
            if is_prefixed(names, "Type/", name, word) {
                return Some((Sort::OfType, Reference::Variable(index + 2)));
            }
            None
        }
    }
}

/// How many binders there are.
fn count(layer: Layer<'_>) -> usize
    ensures { result ≡ layer_length layer.entry }
{
    match layer {
        Layer::Variable(_, _) => 1,
        Layer::Case(CaseForm::Mu, _) => 3,
        Layer::Case(CaseForm::Sigma, _) => 0,
        Layer::Pattern(patterns) => patterns.len(),
    }
}

/// The innermost of the binders that is called so, where the innermost of all has this number.
#[tactic(auto, unfolding(scope_model::specs::ScopeNames::bound))]
fn find_in_layer(
    names: &NameTable,
    layer: Layer<'_>,
    word: &str,
    index: u32,
) -> Option<(Sort, Reference)>
    requires few { index + layer_length layer < 2 ^ 32 }
    ensures { standing_of result ≡ bound word.now index (layer_bounds names.now layer.entry) }
{
    match layer {
        Layer::Variable(name, sort) => {
            if is_named(names, name, word) {
                return Some((sort, Reference::Variable(index)));
            }
            None
        }
        Layer::Case(form, name) => find_in_case(names, form, name, word, index),
        Layer::Pattern(patterns) => find_in_pattern(names, patterns, word, index),
    }
}

fn later(index: u32, by: usize) -> Option<u32>
    ensures { IfSome result (λ n. n ≡ index + by) }
{
    if by > (u32::MAX - index) as usize {
        return None;
    }
    Some(index + by as u32)
}

/// The innermost binder that is called so. A text has too few names for 4,294,967,296 binders; past that the answer is want of memory.
#[tactic(auto, using(crate::proofs::Bounds::bound_none, crate::proofs::Bounds::layer_here, crate::proofs::Bounds::layer_on))]
pub(crate) fn find_binder(
    names: &NameTable,
    binders: &Binders<'_>,
    word: &str,
) -> Result<Option<(Sort, Reference)>, NoMemory>
    ensures { IfOk result (λ found. standing_of found ≡ bound word.now 0 (bounds names.now binders.now)) }
{
    let mut index = 0u32;
    let mut rest = binders;
    while let Binders::Within(layer, outer) = rest {
        let after = match later(index, count(*layer)) {
            Some(after) => after,
            None => return Err(NoMemory),
        };
        if let Some(found) = find_in_layer(names, *layer, word, index) {
            return Ok(Some(found));
        }
        index = after;
        rest = outer;
    }
    Ok(None)
}

/// Whether one of what a branch of a case binds before its pattern is called so.
fn is_in_case(names: &NameTable, form: CaseForm, name: Option<NameId>, word: &str) -> bool
    ensures { result ≡ hides word.now (of_case (case_form form) (text_or_none names.now name)) }
{
    match form {
        CaseForm::Sigma => false,
        CaseForm::Mu => {
            is_named(names, name, word)
                || is_prefixed(names, "to/", name, word)
                || is_prefixed(names, "Type/", name, word)
        }
    }
}

/// Whether one of what a branch of a case binds is called so.
#[tactic(auto, using(crate::proofs::Bounds::hidden_here, crate::proofs::Bounds::hidden_on))]
pub(crate) fn is_hidden(
    names: &NameTable,
    form: CaseForm,
    name: Option<NameId>,
    patterns: &[SrcPattern],
    word: &str,
) -> bool
    ensures { result ≡ hides word.now (with_patterns (spelled_patterns names.now (map pattern_of patterns.now)) (of_case (case_form form) (text_or_none names.now name))) }
{
    let mut rest = patterns;
    'patterns: while let Some((first, others)) = rest.split_first() {
        if is_named(names, Some(first.name), word) {
            return true;
        }
        rest = others;
    }
    is_in_case(names, form, name, word)
}
