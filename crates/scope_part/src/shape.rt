//! The parts of source trees by their shapes, as the definitions have them.
ghost use Rattle.std.specs.Prelude.{◌≡◌};
ghost use Rattle.source_model.specs.Heights.{span_of};
ghost use Rattle.source_model.specs.Source.{Span as Place, cases, two};
ghost use Rattle.scope_model.specs.Scope.{binder_sort as sort_of_binder, body_sort as sort_of_body, domain_sort as sort_of_domain, left_sort as sort_of_left, right_sort as sort_of_right};
ghost use Rattle.scoped_tree.specs.Trees.{bind_form, case_form, two_form};
ghost use Rattle.surf_tree.specs.Forms.{chain, class_tree, erased_lambda, given, number_or_none, place};
ghost use Rattle.scope_part.specs.Shapes.{part_tree, shape_tree};

use cdle_model::Sort;
use cdle_names::{NameId, Span};
use scoped_tree::{BindForm, CaseForm, LeafForm, OneForm, TwoForm};
use surf_tree::{
    NameUse, Src, SrcBranch, SrcClass, SrcForm, SrcKind, SrcKindForm, SrcType, SrcTypeForm,
};

/// A part of a source tree.
#[derive(Clone, Copy)]
pub(crate) enum Part<'a> {
    Term(&'a Src),
    Type(&'a SrcType),
    Kind(&'a SrcKind),
    /// The proof and the term of a `φ`, which stands at that place.
    Group(Span, &'a Src, &'a Src),
    /// The proof of a `ρ`, which stands at that place, and its guide under the variable.
    Guide(Span, &'a Src, NameId, &'a SrcType),
    /// Nothing stands there.
    LeftOut,
}

/// The shape of a part, with the parts of it.
#[derive(Clone, Copy)]
pub(crate) enum Shape<'a> {
    Name(NameUse),
    Leaf(LeafForm),
    One(OneForm, Part<'a>),
    Two(TwoForm, Part<'a>, Part<'a>),
    /// The second part stands under the binder.
    Bind(BindForm, Option<NameId>, Part<'a>, Part<'a>),
    /// What is taken apart, the motive, the branches.
    Cases(CaseForm, Option<NameId>, Part<'a>, Part<'a>, &'a [SrcBranch]),
}

/// The place of a part.
pub(crate) fn place_of_part(part: Part<'_>) -> Span
    ensures { place result ≡ span_of (part_tree part.entry) }
{
    match part {
        Part::Term(term) => term.span(),
        Part::Type(ty) => ty.span(),
        Part::Kind(kind) => kind.span(),
        Part::Group(span, _, _) => span,
        Part::Guide(span, _, _, _) => span,
        Part::LeftOut => Span { from: 0, to: 0 },
    }
}

/// The class of a parameter or of a variable.
pub(crate) fn of_class(class: &SrcClass) -> Part<'_>
    ensures { part_tree result ≡ class_tree class.now }
{
    match class {
        SrcClass::OfKind(kind) => Part::Kind(kind),
        SrcClass::OfType(ty) => Part::Type(ty),
    }
}

fn given_term(term: &Option<Src>) -> Part<'_>
    ensures { part_tree result ≡ given term.now }
{
    match term {
        Some(term) => Part::Term(term),
        None => Part::LeftOut,
    }
}

fn given_type(ty: &Option<SrcType>) -> Part<'_>
    ensures { part_tree result ≡ given ty.now }
{
    match ty {
        Some(ty) => Part::Type(ty),
        None => Part::LeftOut,
    }
}

fn erased<'a>(span: Span, var: NameId, class: &'a Option<SrcClass>, part: &'a Src) -> Shape<'a>
    ensures { shape_tree (place span) result ≡ erased_lambda (place span) var.0 class.now part.now }
{
    match class {
        None => Shape::Bind(
            BindForm::Unclassed,
            Some(var),
            Part::LeftOut,
            Part::Term(part),
        ),
        Some(SrcClass::OfKind(kind)) => {
            Shape::Bind(
                BindForm::Xlam,
                Some(var),
                Part::Kind(kind),
                Part::Term(part),
            )
        }
        Some(SrcClass::OfType(ty)) => {
            Shape::Bind(BindForm::Elam, Some(var), Part::Type(ty), Part::Term(part))
        }
    }
}

fn two_terms<'a>(form: TwoForm, left: &'a Src, right: &'a Src) -> Shape<'a>
    ensures { (s : Place) → shape_tree s result ≡ two s (two_form form) left.now right.now }
{
    Shape::Two(form, Part::Term(left), Part::Term(right))
}

fn taken_apart<'a>(
    form: CaseForm,
    var: Option<NameId>,
    part: &'a Src,
    motive: &'a Option<SrcType>,
    branches: &'a Vec<SrcBranch>,
) -> Shape<'a>
    ensures { (s : Place) → shape_tree s result ≡ cases s (case_form form) (number_or_none var) part.now (given motive.now) (chain branches.now.items) }
{
    Shape::Cases(
        form,
        var,
        Part::Term(part),
        given_type(motive),
        branches.as_slice(),
    )
}

fn of_term(term: &Src) -> Shape<'_>
    ensures { shape_tree (span_of term.now) result ≡ term.now }
{
    let span = term.span();
    match term.form() {
        SrcForm::Name { name } => Shape::Name(*name),
        SrcForm::Lam { var, ty, part } => {
            Shape::Bind(BindForm::Lam, Some(*var), given_type(ty), Part::Term(part))
        }
        SrcForm::Elam { var, class, part } => erased(span, *var, class, part),
        SrcForm::App { head, arg } => two_terms(TwoForm::App, head, arg),
        SrcForm::Eapp { head, arg } => two_terms(TwoForm::Eapp, head, arg),
        SrcForm::Tapp { head, arg } => Shape::Two(TwoForm::Tapp, Part::Term(head), Part::Type(arg)),
        SrcForm::Pair { left, right } => two_terms(TwoForm::Pair, left, right),
        SrcForm::Fst { part } => Shape::One(OneForm::Fst, Part::Term(part)),
        SrcForm::Snd { part } => Shape::One(OneForm::Snd, Part::Term(part)),
        SrcForm::Beta { side, kept } => {
            Shape::Two(TwoForm::Beta, given_term(side), given_term(kept))
        }
        SrcForm::Rho {
            proof,
            var,
            guide,
            part,
        } => Shape::Two(
            TwoForm::Rho,
            Part::Guide(span, proof, *var, guide),
            Part::Term(part),
        ),
        SrcForm::Phi { proof, part, kept } => Shape::Two(
            TwoForm::Phi,
            Part::Group(span, proof, part),
            Part::Term(kept),
        ),
        SrcForm::Delta { ty, proof } => {
            Shape::Two(TwoForm::Delta, given_type(ty), Part::Term(proof))
        }
        SrcForm::Chi { ty, part } => Shape::Two(TwoForm::Chi, Part::Type(ty), Part::Term(part)),
        SrcForm::Flip { proof } => Shape::One(OneForm::Flip, Part::Term(proof)),
        SrcForm::Mu {
            var,
            part,
            motive,
            branches,
        } => taken_apart(CaseForm::Mu, Some(*var), part, motive, branches),
        SrcForm::Sigma {
            part,
            motive,
            branches,
        } => taken_apart(CaseForm::Sigma, None, part, motive, branches),
    }
}

fn of_type(ty: &SrcType) -> Shape<'_>
    ensures { shape_tree (span_of ty.now) result ≡ ty.now }
{
    match ty.form() {
        SrcTypeForm::Name { name } => Shape::Name(*name),
        SrcTypeForm::Pi { var, domain, part } => {
            Shape::Bind(BindForm::Pi, *var, Part::Type(domain), Part::Type(part))
        }
        SrcTypeForm::All { var, domain, part } => {
            Shape::Bind(BindForm::All, *var, Part::Type(domain), Part::Type(part))
        }
        SrcTypeForm::Allt { var, domain, part } => {
            Shape::Bind(BindForm::Allt, *var, Part::Kind(domain), Part::Type(part))
        }
        SrcTypeForm::Tlam { var, domain, part } => Shape::Bind(
            BindForm::Tlam,
            Some(*var),
            Part::Type(domain),
            Part::Type(part),
        ),
        SrcTypeForm::Xtlam { var, domain, part } => Shape::Bind(
            BindForm::Xtlam,
            Some(*var),
            Part::Kind(domain),
            Part::Type(part),
        ),
        SrcTypeForm::At { head, arg } => {
            Shape::Two(TwoForm::At, Part::Type(head), Part::Term(arg))
        }
        SrcTypeForm::On { head, arg } => {
            Shape::Two(TwoForm::On, Part::Type(head), Part::Type(arg))
        }
        SrcTypeForm::Iota { var, left, right } => Shape::Bind(
            BindForm::Iota,
            Some(*var),
            Part::Type(left),
            Part::Type(right),
        ),
        SrcTypeForm::Eq { left, right } => {
            Shape::Two(TwoForm::Eq, Part::Term(left), Part::Term(right))
        }
    }
}

fn of_kind(kind: &SrcKind) -> Shape<'_>
    ensures { shape_tree (span_of kind.now) result ≡ kind.now }
{
    match kind.form() {
        SrcKindForm::Star => Shape::Leaf(LeafForm::Star),
        SrcKindForm::Kpi { var, domain, part } => {
            Shape::Bind(BindForm::Kpi, *var, Part::Type(domain), Part::Kind(part))
        }
        SrcKindForm::Kpit { var, domain, part } => {
            Shape::Bind(BindForm::Kpit, *var, Part::Kind(domain), Part::Kind(part))
        }
    }
}

/// The shape of a part.
pub(crate) fn shape_of(part: Part<'_>) -> Shape<'_>
    ensures { shape_tree (span_of (part_tree part.entry)) result ≡ part_tree part.entry }
{
    match part {
        Part::Term(term) => of_term(term),
        Part::Type(ty) => of_type(ty),
        Part::Kind(kind) => of_kind(kind),
        Part::Group(_, proof, part) => {
            Shape::Two(TwoForm::Group, Part::Term(proof), Part::Term(part))
        }
        Part::Guide(_, proof, var, guide) => Shape::Bind(
            BindForm::Guide,
            Some(var),
            Part::Term(proof),
            Part::Type(guide),
        ),
        Part::LeftOut => Shape::Leaf(LeafForm::LeftOut),
    }
}

/// What the first part of a form is.
pub(crate) fn left_class(form: TwoForm) -> Sort
    ensures { result ≡ sort_of_left (two_form form) }
{
    match form {
        TwoForm::At | TwoForm::On | TwoForm::Delta | TwoForm::Chi => Sort::OfType,
        _ => Sort::OfTerm,
    }
}

/// What the second part of a form is.
pub(crate) fn right_class(form: TwoForm) -> Sort
    ensures { result ≡ sort_of_right (two_form form) }
{
    match form {
        TwoForm::Tapp | TwoForm::On => Sort::OfType,
        _ => Sort::OfTerm,
    }
}

/// What the part before the one under the binder is.
pub(crate) fn domain_class(form: BindForm) -> Sort
    ensures { result ≡ sort_of_domain (bind_form form) }
{
    match form {
        BindForm::Guide => Sort::OfTerm,
        _ => Sort::OfType,
    }
}

/// What the part under the binder is.
pub(crate) fn body_class(form: BindForm) -> Sort
    ensures { result ≡ sort_of_body (bind_form form) }
{
    match form {
        BindForm::Lam | BindForm::Elam | BindForm::Xlam | BindForm::Unclassed => Sort::OfTerm,
        _ => Sort::OfType,
    }
}

/// What the binder binds.
pub(crate) fn binder_class(form: BindForm) -> Sort
    ensures { result ≡ sort_of_binder (bind_form form) }
{
    match form {
        BindForm::Allt | BindForm::Xtlam | BindForm::Kpit | BindForm::Xlam => Sort::OfType,
        _ => Sort::OfTerm,
    }
}
