//! The tree of a form with its parts.
ghost use Rattle.std.specs.Prelude.{◌≡◌, ◌∷◌, [], length, IfOk};
ghost use Rattle.cdle_model.specs.CoreGrammar.{pieces, class_of_form, part_classes, made};
ghost use Rattle.cdle_model.specs.declared.grammar.Class.TheVariants as class;
ghost use Rattle.core_text.specs.Parts.{AreShallow, part_tree, class_of, classes, trees};

use crate::forms::class_of;
use crate::part::Part;
use cdle_model::{Class, Form, NoMemory};
use core_tree::{Guide, GuideKind, Kind, Pure, Term, Ty};
use std::alloc::Global;

#[tactic(auto, using(crate::proofs::Pieces::length_classes))]
fn two(parts: &[Part]) -> (&Part, &Part)
    requires { length (classes parts.now) ≡ 2 }
    ensures { parts.now ≡ result.0.now ∷ result.1.now ∷ [] }
{
    match parts {
        [a, b] => (a, b),
        _ => unreachable!(),
    }
}

#[tactic(auto, using(crate::proofs::Pieces::length_classes))]
fn one(parts: &[Part]) -> &Part
    requires { length (classes parts.now) ≡ 1 }
    ensures { parts.now ≡ result.now ∷ [] }
{
    match parts {
        [a] => a,
        _ => unreachable!(),
    }
}

#[tactic(auto, using(crate::proofs::Pieces::length_classes))]
fn three(parts: &[Part]) -> (&Part, &Part, &Part)
    requires { length (classes parts.now) ≡ 3 }
    ensures { parts.now ≡ result.0.now ∷ result.1.now ∷ result.2.now ∷ [] }
{
    match parts {
        [a, b, c] => (a, b, c),
        _ => unreachable!(),
    }
}

#[tactic(auto, using(crate::proofs::Pieces::length_classes))]
fn four(parts: &[Part]) -> (&Part, &Part, &Part, &Part)
    requires { length (classes parts.now) ≡ 4 }
    ensures { parts.now ≡ result.0.now ∷ result.1.now ∷ result.2.now ∷ result.3.now ∷ [] }
{
    match parts {
        [a, b, c, d] => (a, b, c, d),
        _ => unreachable!(),
    }
}

fn build_kind(alloc: Global, form: Form, parts: &[Part]) -> Result<Kind, NoMemory>
    requires class { class_of_form form ≡ class.Kind }
    requires parts { classes parts.now ≡ part_classes (pieces form) }
    requires shallow { AreShallow 4095 parts.now }
    ensures { IfOk result (λ t. t ≡ made form (trees parts.now)) }
{
    match form {
        Form::Kpi => {
            let (a, b) = two(parts);
            Kind::kpi(alloc, a.as_ty(), b.as_kind())
        }
        Form::Kpit => {
            let (a, b) = two(parts);
            Kind::kpit(alloc, a.as_kind(), b.as_kind())
        }
        _ => unreachable!(),
    }
}

fn build_ty(alloc: Global, form: Form, parts: &[Part]) -> Result<Ty, NoMemory>
    requires class { class_of_form form ≡ class.Ty }
    requires parts { classes parts.now ≡ part_classes (pieces form) }
    requires shallow { AreShallow 4095 parts.now }
    ensures { IfOk result (λ t. t ≡ made form (trees parts.now)) }
{
    match form {
        Form::Pi => {
            let (a, b) = two(parts);
            Ty::pi(alloc, a.as_ty(), b.as_ty())
        }
        Form::All => {
            let (a, b) = two(parts);
            Ty::all(alloc, a.as_ty(), b.as_ty())
        }
        Form::Allt => {
            let (a, b) = two(parts);
            Ty::allt(alloc, a.as_kind(), b.as_ty())
        }
        Form::Tlam => {
            let (a, b) = two(parts);
            Ty::tlam(alloc, a.as_ty(), b.as_ty())
        }
        Form::Xtlam => {
            let (a, b) = two(parts);
            Ty::xtlam(alloc, a.as_kind(), b.as_ty())
        }
        Form::At => {
            let (a, b) = two(parts);
            Ty::at(alloc, a.as_ty(), b.as_term())
        }
        Form::On => {
            let (a, b) = two(parts);
            Ty::on(alloc, a.as_ty(), b.as_ty())
        }
        Form::Iota => {
            let (a, b) = two(parts);
            Ty::iota(alloc, a.as_ty(), b.as_ty())
        }
        Form::Eq => {
            let (a, b) = two(parts);
            Ty::eq(alloc, a.as_pure(), b.as_pure())
        }
        _ => unreachable!(),
    }
}

fn build_term(alloc: Global, form: Form, parts: &[Part]) -> Result<Term, NoMemory>
    requires class { class_of_form form ≡ class.Term }
    requires parts { classes parts.now ≡ part_classes (pieces form) }
    requires shallow { AreShallow 4095 parts.now }
    ensures { IfOk result (λ t. t ≡ made form (trees parts.now)) }
{
    match form {
        Form::Lam => {
            let (a, b) = two(parts);
            Term::lam(alloc, a.as_ty(), b.as_term())
        }
        Form::Elam => {
            let (a, b) = two(parts);
            Term::elam(alloc, a.as_ty(), b.as_term())
        }
        Form::Xlam => {
            let (a, b) = two(parts);
            Term::xlam(alloc, a.as_kind(), b.as_term())
        }
        Form::App => {
            let (a, b) = two(parts);
            Term::app(alloc, a.as_term(), b.as_term())
        }
        Form::Eapp => {
            let (a, b) = two(parts);
            Term::eapp(alloc, a.as_term(), b.as_term())
        }
        Form::Tapp => {
            let (a, b) = two(parts);
            Term::tapp(alloc, a.as_term(), b.as_ty())
        }
        Form::Pair => {
            let (a, b, c) = three(parts);
            Term::pair(alloc, a.as_term(), b.as_term(), c.as_ty())
        }
        Form::Fst => {
            let a = one(parts);
            Term::fst(alloc, a.as_term())
        }
        Form::Snd => {
            let a = one(parts);
            Term::snd(alloc, a.as_term())
        }
        Form::Beta => {
            let (a, b) = two(parts);
            Term::beta(alloc, a.as_pure(), b.as_pure())
        }
        Form::Rho => {
            let (a, b, c, d) = four(parts);
            Term::rho(alloc, a.as_term(), b.as_guide(), c.as_ty(), d.as_term())
        }
        Form::Phi => {
            let (a, b, c) = three(parts);
            Term::phi(alloc, a.as_term(), b.as_term(), c.as_pure())
        }
        Form::Delta => {
            let (a, b) = two(parts);
            Term::delta(alloc, a.as_ty(), b.as_term())
        }
        _ => unreachable!(),
    }
}

fn build_pure(alloc: Global, form: Form, parts: &[Part]) -> Result<Pure, NoMemory>
    requires class { class_of_form form ≡ class.Pure }
    requires parts { classes parts.now ≡ part_classes (pieces form) }
    requires shallow { AreShallow 4095 parts.now }
    ensures { IfOk result (λ t. t ≡ made form (trees parts.now)) }
{
    match form {
        Form::Function => {
            let a = one(parts);
            Pure::function(alloc, a.as_pure())
        }
        Form::Ap => {
            let (a, b) = two(parts);
            Pure::ap(alloc, a.as_pure(), b.as_pure())
        }
        _ => unreachable!(),
    }
}

fn build_guide(alloc: Global, form: Form, parts: &[Part]) -> Result<Guide, NoMemory>
    requires class { class_of_form form ≡ class.Guide }
    requires parts { classes parts.now ≡ part_classes (pieces form) }
    requires shallow { AreShallow 4095 parts.now }
    ensures { IfOk result (λ t. t ≡ made form (trees parts.now)) }
{
    match form {
        Form::GuidePi => {
            let (a, b) = two(parts);
            Guide::pi(alloc, a.as_guide(), b.as_guide())
        }
        Form::GuideAll => {
            let (a, b) = two(parts);
            Guide::all(alloc, a.as_guide(), b.as_guide())
        }
        Form::GuideAllt => {
            let (a, b) = two(parts);
            Guide::allt(alloc, a.as_guide_kind(), b.as_guide())
        }
        Form::GuideTlam => {
            let a = one(parts);
            Guide::tlam(alloc, a.as_guide())
        }
        Form::GuideXtlam => {
            let a = one(parts);
            Guide::xtlam(alloc, a.as_guide())
        }
        Form::GuideAt => {
            let (a, b) = two(parts);
            Guide::at(alloc, a.as_guide(), b.as_pure())
        }
        Form::GuideOn => {
            let (a, b) = two(parts);
            Guide::on(alloc, a.as_guide(), b.as_guide())
        }
        Form::GuideIota => {
            let (a, b) = two(parts);
            Guide::iota(alloc, a.as_guide(), b.as_guide())
        }
        Form::GuideEq => {
            let (a, b) = two(parts);
            Guide::eq(alloc, a.as_pure(), b.as_pure())
        }
        _ => unreachable!(),
    }
}

fn build_guide_kind(alloc: Global, form: Form, parts: &[Part]) -> Result<GuideKind, NoMemory>
    requires class { class_of_form form ≡ class.GuideKind }
    requires parts { classes parts.now ≡ part_classes (pieces form) }
    requires shallow { AreShallow 4095 parts.now }
    ensures { IfOk result (λ t. t ≡ made form (trees parts.now)) }
{
    match form {
        Form::GuideKpi => {
            let (a, b) = two(parts);
            GuideKind::kpi(alloc, a.as_guide(), b.as_guide_kind())
        }
        Form::GuideKpit => {
            let (a, b) = two(parts);
            GuideKind::kpit(alloc, a.as_guide_kind(), b.as_guide_kind())
        }
        _ => unreachable!(),
    }
}

/// The tree of a form with its parts.
pub(crate) fn build(alloc: Global, form: Form, parts: &[Part]) -> Result<Part, NoMemory>
    requires parts { classes parts.now ≡ part_classes (pieces form) }
    requires shallow { AreShallow 4095 parts.now }
    ensures tree { IfOk result (λ p. part_tree p ≡ made form (trees parts.now)) }
    ensures class { IfOk result (λ p. class_of p ≡ class_of_form form) }
{
    match class_of(form) {
        Class::Kind => Ok(Part::Kind(build_kind(alloc, form, parts)?)),
        Class::Ty => Ok(Part::Ty(build_ty(alloc, form, parts)?)),
        Class::Term => Ok(Part::Term(build_term(alloc, form, parts)?)),
        Class::Pure => Ok(Part::Pure(build_pure(alloc, form, parts)?)),
        Class::Guide => Ok(Part::Guide(build_guide(alloc, form, parts)?)),
        Class::GuideKind => Ok(Part::GuideKind(build_guide_kind(alloc, form, parts)?)),
    }
}
