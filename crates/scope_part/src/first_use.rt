//! The class of a `Λ` without annotation: what the first name is, a term or a type, that stands for its binder.
//!
//! A part is gone through once for each `Λ` without annotation that stands around it.
ghost use Rattle.std.specs.Prelude.{◌≡◌, ◌∷◌, [], if◌then◌else◌, Some, None};
ghost use Rattle.scope_model.specs.Scope.{body_sort, classed as form_of_class, domain_sort, first_of_two, first_use, is_use, left_sort, of_case, right_sort, unless_hidden, with_class};
ghost use Rattle.scope_model.specs.ScopeNames.{is_called};
ghost use Rattle.cdle_model.specs.declared.grammar.Sort.TheVariants.{OfTerm, OfType};
ghost use Rattle.scoped_tree.specs.Trees.{bind_form, case_form, two_form};
ghost use Rattle.surf_tree.specs.Forms.{chain, name_use};
ghost use Rattle.scope_part.specs.Names.{spelled_use, text_or_none};
ghost use Rattle.scope_part.specs.Shapes.{part_tree};
ghost use Rattle.scope_part.specs.Spelled.{spelled};

use crate::binders::{is_hidden, is_named};
use crate::names::spelling;
use crate::shape::{Part, Shape, body_class, domain_class, left_class, right_class, shape_of};
use cdle_model::Sort;
use cdle_names::{NameId, NameTable};
use scoped_tree::{BindForm, CaseForm, TwoForm};
use surf_tree::{NameUse, SrcBranch};

/// Whether the name, alone, is the one that is bound.
fn is_used_by(names: &NameTable, word: &str, name: NameUse) -> bool
    ensures { result ≡ is_use word.now (spelled_use names.now (name_use name)) }
{
    match name.module {
        Some(_) => false,
        None => word == spelling(names, name.name),
    }
}

/// What the name is where it stands for the binder.
fn used_as(names: &NameTable, word: &str, sort: Sort, name: NameUse) -> Option<Sort>
    ensures { result ≡ (if is_use word.now (spelled_use names.now (name_use name)) then Some sort else None) }
{
    if is_used_by(names, word, name) {
        return Some(sort);
    }
    None
}

/// What the first name of a part is that stands for the binder.
#[cycle(first)]
#[tactic(auto, using(crate::proofs::FirstUses::in_name, crate::proofs::FirstUses::in_leaf, crate::proofs::FirstUses::in_one, crate::proofs::FirstUses::in_two, crate::proofs::FirstUses::in_bind, crate::proofs::FirstUses::in_cases))]
fn first_in(names: &NameTable, word: &str, sort: Sort, part: Part<'_>) -> Option<Sort>
    ensures { result ≡ first_use word.now [] sort (spelled names.now (part_tree part.entry)) }
{
    match shape_of(part) {
        Shape::Name(name) => used_as(names, word, sort, name),
        Shape::Leaf(_) => None,
        Shape::One(_, inner) => first_in(names, word, Sort::OfTerm, inner),
        Shape::Two(form, left, right) => first_in_two(names, word, form, left, right),
        Shape::Bind(form, var, domain, body) => {
            first_in_bind(names, word, form, var, domain, body)
        }
        Shape::Cases(form, var, of, motive, branches) => {
            first_in_cases(names, word, form, var, of, motive, branches)
        }
    }
}

/// The same of the two parts of a form.
#[cycle(first)]
fn first_in_two(
    names: &NameTable,
    word: &str,
    form: TwoForm,
    left: Part<'_>,
    right: Part<'_>,
) -> Option<Sort>
    ensures { result ≡ first_of_two (first_use word.now [] (left_sort (two_form form)) (spelled names.now (part_tree left.entry))) (first_use word.now [] (right_sort (two_form form)) (spelled names.now (part_tree right.entry))) }
{
    match first_in(names, word, left_class(form), left) {
        Some(sort) => Some(sort),
        None => first_in(names, word, right_class(form), right),
    }
}

/// The same of a form of which the second part stands under the binder.
#[cycle(first)]
fn first_in_bind(
    names: &NameTable,
    word: &str,
    form: BindForm,
    var: Option<NameId>,
    domain: Part<'_>,
    body: Part<'_>,
) -> Option<Sort>
    ensures { result ≡ first_of_two (first_use word.now [] (domain_sort (bind_form form)) (spelled names.now (part_tree domain.entry))) (unless_hidden (is_called word.now (text_or_none names.now var)) (first_use word.now [] (body_sort (bind_form form)) (spelled names.now (part_tree body.entry)))) }
{
    match first_in(names, word, domain_class(form), domain) {
        Some(sort) => Some(sort),
        None => {
            if is_named(names, var, word) {
                None
            } else {
                first_in(names, word, body_class(form), body)
            }
        }
    }
}

/// The same of a case.
#[cycle(first)]
fn first_in_cases(
    names: &NameTable,
    word: &str,
    form: CaseForm,
    var: Option<NameId>,
    of: Part<'_>,
    motive: Part<'_>,
    branches: &[SrcBranch],
) -> Option<Sort>
    ensures { result ≡ first_of_two (first_use word.now [] OfTerm (spelled names.now (part_tree of.entry))) (first_of_two (first_use word.now [] OfType (spelled names.now (part_tree motive.entry))) (first_use word.now (of_case (case_form form) (text_or_none names.now var)) OfTerm (spelled names.now (chain branches.now)))) }
{
    match first_in(names, word, Sort::OfTerm, of) {
        Some(sort) => Some(sort),
        None => match first_in(names, word, Sort::OfType, motive) {
            Some(sort) => Some(sort),
            None => first_in_branches(names, word, form, var, branches),
        },
    }
}

/// The same of the branches of a case.
#[cycle(first)]
#[tactic(auto, using(crate::proofs::FirstUses::branch_here, crate::proofs::FirstUses::branch_on))]
fn first_in_branches(
    names: &NameTable,
    word: &str,
    form: CaseForm,
    var: Option<NameId>,
    branches: &[SrcBranch],
) -> Option<Sort>
    ensures { result ≡ first_use word.now (of_case (case_form form) (text_or_none names.now var)) OfTerm (spelled names.now (chain branches.now)) }
{
    let mut rest = branches;
    'branches: while let Some((first, others)) = rest.split_first() {
        if let Some(sort) = first_in_branch(names, word, form, var, first) {
            return Some(sort);
        }
        rest = others;
    }
    None
}

/// The same of one branch.
#[cycle(first)]
#[tactic(auto, using(crate::proofs::FirstUses::branch_is))]
fn first_in_branch(
    names: &NameTable,
    word: &str,
    form: CaseForm,
    var: Option<NameId>,
    branch: &SrcBranch,
) -> Option<Sort>
    ensures { result ≡ first_use word.now (of_case (case_form form) (text_or_none names.now var)) OfTerm (spelled names.now (chain (branch.now ∷ []))) }
{
    if is_used_by(names, word, branch.ctor) {
        return Some(Sort::OfTerm);
    }
    if is_hidden(names, form, var, branch.args.as_slice(), word) {
        return None;
    }
    first_in(names, word, Sort::OfTerm, Part::Term(&branch.part))
}

fn form_of(found: Option<Sort>) -> BindForm
    ensures { bind_form result ≡ form_of_class found }
{
    match found {
        None => BindForm::Unclassed,
        Some(Sort::OfTerm) => BindForm::Elam,
        Some(Sort::OfType) => BindForm::Xlam,
    }
}

/// The form with the class of its first use.
pub(crate) fn classed(
    names: &NameTable,
    form: BindForm,
    var: Option<NameId>,
    body: Part<'_>,
) -> BindForm
    ensures { bind_form result ≡ with_class (bind_form form) (text_or_none names.now var) (spelled names.now (part_tree body.entry)) }
{
    match form {
        BindForm::Unclassed => match var {
            Some(id) => form_of(first_in(names, spelling(names, id), Sort::OfTerm, body)),
            None => form,
        },
        _ => form,
    }
}
