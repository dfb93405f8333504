//! The forms of types and kinds, with a constructor for each.
ghost use Rattle.std.specs.Prelude.{◌≡◌, IfOk};
ghost use Rattle.cdle_model.specs.Trees.{var, name, leaf, unknown};
ghost use Rattle.cdle_model.specs.Forms.{all, allt, at_, eq, iota, kpi, kpit, on, pi, star, tlam, xtlam};

use crate::pure::EPure;
use crate::sharing::share_both;
use crate::term::{EKind, EKindForm, ETerm, EType, ETypeForm};
use cdle_model::NoMemory;
use std::alloc::Global;

impl EType {
    /// The variable with `index` binders between it and its own.
    pub fn var(alloc: Global, index: u32) -> Result<EType, NoMemory>
        ensures { IfOk result (λ t. t ≡ var index) }
    {
        EType::of(alloc, ETypeForm::Var(index))
    }

    /// The item of that number.
    pub fn name(alloc: Global, item: u32) -> Result<EType, NoMemory>
        ensures { IfOk result (λ t. t ≡ name item) }
    {
        EType::of(alloc, ETypeForm::Name(item))
    }

    /// The unknown of that number.
    pub fn unknown(alloc: Global, number: u32) -> Result<EType, NoMemory>
        ensures { IfOk result (λ t. t ≡ leaf (unknown number)) }
    {
        EType::of(alloc, ETypeForm::Unknown(number))
    }

    /// `(pi x domain part)`.
    pub fn pi(alloc: Global, domain: &EType, part: &EType) -> Result<EType, NoMemory>
        ensures { IfOk result (λ t. t ≡ pi domain.now part.now) }
    {
        let (domain, part) = share_both(domain, part)?;
        EType::of(alloc, ETypeForm::Pi(domain, part))
    }

    /// `(all x domain part)`.
    pub fn all(alloc: Global, domain: &EType, part: &EType) -> Result<EType, NoMemory>
        ensures { IfOk result (λ t. t ≡ all domain.now part.now) }
    {
        let (domain, part) = share_both(domain, part)?;
        EType::of(alloc, ETypeForm::All(domain, part))
    }

    /// `(allt X domain part)`.
    pub fn allt(alloc: Global, domain: &EKind, part: &EType) -> Result<EType, NoMemory>
        ensures { IfOk result (λ t. t ≡ allt domain.now part.now) }
    {
        let (domain, part) = share_both(domain, part)?;
        EType::of(alloc, ETypeForm::Allt(domain, part))
    }

    /// `(tlam x domain part)`.
    pub fn tlam(alloc: Global, domain: &EType, part: &EType) -> Result<EType, NoMemory>
        ensures { IfOk result (λ t. t ≡ tlam domain.now part.now) }
    {
        let (domain, part) = share_both(domain, part)?;
        EType::of(alloc, ETypeForm::Tlam(domain, part))
    }

    /// `(xtlam X domain part)`.
    pub fn xtlam(alloc: Global, domain: &EKind, part: &EType) -> Result<EType, NoMemory>
        ensures { IfOk result (λ t. t ≡ xtlam domain.now part.now) }
    {
        let (domain, part) = share_both(domain, part)?;
        EType::of(alloc, ETypeForm::Xtlam(domain, part))
    }

    /// `(at head arg)`.
    pub fn at(alloc: Global, head: &EType, arg: &ETerm) -> Result<EType, NoMemory>
        ensures { IfOk result (λ t. t ≡ at_ head.now arg.now) }
    {
        let (head, arg) = share_both(head, arg)?;
        EType::of(alloc, ETypeForm::At(head, arg))
    }

    /// `(on head arg)`.
    pub fn on(alloc: Global, head: &EType, arg: &EType) -> Result<EType, NoMemory>
        ensures { IfOk result (λ t. t ≡ on head.now arg.now) }
    {
        let (head, arg) = share_both(head, arg)?;
        EType::of(alloc, ETypeForm::On(head, arg))
    }

    /// `(iota x left right)`.
    pub fn iota(alloc: Global, left: &EType, right: &EType) -> Result<EType, NoMemory>
        ensures { IfOk result (λ t. t ≡ iota left.now right.now) }
    {
        let (left, right) = share_both(left, right)?;
        EType::of(alloc, ETypeForm::Iota(left, right))
    }

    /// `(eq left right)`.
    pub fn eq(alloc: Global, left: &EPure, right: &EPure) -> Result<EType, NoMemory>
        ensures { IfOk result (λ t. t ≡ eq left.now right.now) }
    {
        let (left, right) = share_both(left, right)?;
        EType::of(alloc, ETypeForm::Eq(left, right))
    }
}

impl EKind {
    /// `*`.
    pub fn star(alloc: Global) -> Result<EKind, NoMemory>
        ensures { IfOk result (λ t. t ≡ star) }
    {
        EKind::of(alloc, EKindForm::Star)
    }

    /// `(kpi x domain part)`.
    pub fn kpi(alloc: Global, domain: &EType, part: &EKind) -> Result<EKind, NoMemory>
        ensures { IfOk result (λ t. t ≡ kpi domain.now part.now) }
    {
        let (domain, part) = share_both(domain, part)?;
        EKind::of(alloc, EKindForm::Kpi(domain, part))
    }

    /// `(kpit X domain part)`.
    pub fn kpit(alloc: Global, domain: &EKind, part: &EKind) -> Result<EKind, NoMemory>
        ensures { IfOk result (λ t. t ≡ kpit domain.now part.now) }
    {
        let (domain, part) = share_both(domain, part)?;
        EKind::of(alloc, EKindForm::Kpit(domain, part))
    }
}
