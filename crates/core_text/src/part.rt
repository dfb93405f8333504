//! Parts of any class.
ghost use Rattle.std.specs.Prelude.{◌≡◌, None, IfOk, IsTrue, is_some};
ghost use Rattle.cdle_model.specs.CoreGrammar.{name_sort};
ghost use Rattle.cdle_model.specs.Forms.{star};
ghost use Rattle.cdle_model.specs.Trees.{var, name};
ghost use Rattle.cdle_model.specs.declared.grammar.Class.TheVariants as class;
ghost use Rattle.core_text.specs.Parts.{part_tree, class_of};
ghost use Rattle.core_text.specs.Scope.{meant};

use crate::binders::Meaning;
use cdle_model::{Class, NoMemory};
use core_tree::{Guide, GuideKind, Kind, Pure, Term, Ty};
use std::alloc::Global;

/// A part, with its class.
#[derive(Drop)]
pub(crate) enum Part {
    Kind(Kind),
    Ty(Ty),
    Term(Term),
    Pure(Pure),
    Guide(Guide),
    GuideKind(GuideKind),
}

impl Part {
    /// `*`, where a class has it in the names' place.
    pub(crate) fn star(alloc: Global, class: Class) -> Result<Part, NoMemory>
        requires { name_sort class ≡ None }
        ensures tree { IfOk result (λ p. part_tree p ≡ star) }
        ensures class { IfOk result (λ p. class_of p ≡ class) }
    {
        match class {
            Class::Kind => Ok(Part::Kind(Kind::star(alloc)?)),
            Class::GuideKind => Ok(Part::GuideKind(GuideKind::star(alloc)?)),
            _ => unreachable!(),
        }
    }

    /// What a name stands for.
    pub(crate) fn named(alloc: Global, class: Class, meaning: Meaning) -> Result<Part, NoMemory>
        requires { IsTrue (is_some (name_sort class)) }
        ensures tree { IfOk result (λ p. part_tree p ≡ meant meaning) }
        ensures class { IfOk result (λ p. class_of p ≡ class) }
    {
        match meaning {
            Meaning::Var(index) => Part::var(alloc, class, index),
            Meaning::Name(number) => Part::name(alloc, class, number),
        }
    }

    fn var(alloc: Global, class: Class, index: u32) -> Result<Part, NoMemory>
        requires { IsTrue (is_some (name_sort class)) }
        ensures tree { IfOk result (λ p. part_tree p ≡ var index) }
        ensures class { IfOk result (λ p. class_of p ≡ class) }
    {
        match class {
            Class::Ty => Ok(Part::Ty(Ty::var(alloc, index)?)),
            Class::Term => Ok(Part::Term(Term::var(alloc, index)?)),
            Class::Pure => Ok(Part::Pure(Pure::var(alloc, index)?)),
            Class::Guide => Ok(Part::Guide(Guide::var(alloc, index)?)),
            _ => unreachable!(),
        }
    }

    fn name(alloc: Global, class: Class, number: u32) -> Result<Part, NoMemory>
        requires { IsTrue (is_some (name_sort class)) }
        ensures tree { IfOk result (λ p. part_tree p ≡ name number) }
        ensures class { IfOk result (λ p. class_of p ≡ class) }
    {
        match class {
            Class::Ty => Ok(Part::Ty(Ty::name(alloc, number)?)),
            Class::Term => Ok(Part::Term(Term::name(alloc, number)?)),
            Class::Pure => Ok(Part::Pure(Pure::name(alloc, number)?)),
            Class::Guide => Ok(Part::Guide(Guide::name(alloc, number)?)),
            _ => unreachable!(),
        }
    }

    pub(crate) fn into_kind(self) -> Kind
        requires { class_of self ≡ class.Kind }
        ensures { part_tree self ≡ result }
    {
        match self {
            Part::Kind(kind) => kind,
            _ => unreachable!(),
        }
    }

    pub(crate) fn into_ty(self) -> Ty
        requires { class_of self ≡ class.Ty }
        ensures { part_tree self ≡ result }
    {
        match self {
            Part::Ty(ty) => ty,
            _ => unreachable!(),
        }
    }

    pub(crate) fn into_term(self) -> Term
        requires { class_of self ≡ class.Term }
        ensures { part_tree self ≡ result }
    {
        match self {
            Part::Term(term) => term,
            _ => unreachable!(),
        }
    }

    pub(crate) fn as_kind(&self) -> &Kind
        requires { class_of self.now ≡ class.Kind }
        ensures { part_tree self.now ≡ result.now }
    {
        match self {
            Part::Kind(kind) => kind,
            _ => unreachable!(),
        }
    }

    pub(crate) fn as_ty(&self) -> &Ty
        requires { class_of self.now ≡ class.Ty }
        ensures { part_tree self.now ≡ result.now }
    {
        match self {
            Part::Ty(ty) => ty,
            _ => unreachable!(),
        }
    }

    pub(crate) fn as_term(&self) -> &Term
        requires { class_of self.now ≡ class.Term }
        ensures { part_tree self.now ≡ result.now }
    {
        match self {
            Part::Term(term) => term,
            _ => unreachable!(),
        }
    }

    pub(crate) fn as_pure(&self) -> &Pure
        requires { class_of self.now ≡ class.Pure }
        ensures { part_tree self.now ≡ result.now }
    {
        match self {
            Part::Pure(pure) => pure,
            _ => unreachable!(),
        }
    }

    pub(crate) fn as_guide(&self) -> &Guide
        requires { class_of self.now ≡ class.Guide }
        ensures { part_tree self.now ≡ result.now }
    {
        match self {
            Part::Guide(guide) => guide,
            _ => unreachable!(),
        }
    }

    pub(crate) fn as_guide_kind(&self) -> &GuideKind
        requires { class_of self.now ≡ class.GuideKind }
        ensures { part_tree self.now ≡ result.now }
    {
        match self {
            Part::GuideKind(kind) => kind,
            _ => unreachable!(),
        }
    }
}
