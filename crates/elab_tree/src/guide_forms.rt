//! The forms of guides and guide kinds, with a constructor for each.
ghost use Rattle.std.specs.Prelude.{◌≡◌, IfOk};
ghost use Rattle.cdle_model.specs.Trees.{var, name, leaf, unknown};
ghost use Rattle.cdle_model.specs.Forms.{all, allt, at_, eq, guide_tlam, guide_xtlam, iota, kpi, kpit, on, pi, star};

use crate::guide::{EGuide, EGuideForm, EGuideKind, EGuideKindForm};
use crate::pure::EPure;
use crate::sharing::share_both;
use cdle_model::NoMemory;
use std::alloc::Global;

impl EGuide {
    /// The variable with `index` binders between it and its own.
    pub fn var(alloc: Global, index: u32) -> Result<EGuide, NoMemory>
        ensures { IfOk result (λ t. t ≡ var index) }
    {
        EGuide::of(alloc, EGuideForm::Var(index))
    }

    /// The item of that number.
    pub fn name(alloc: Global, item: u32) -> Result<EGuide, NoMemory>
        ensures { IfOk result (λ t. t ≡ name item) }
    {
        EGuide::of(alloc, EGuideForm::Name(item))
    }

    /// The unknown of that number.
    pub fn unknown(alloc: Global, number: u32) -> Result<EGuide, NoMemory>
        ensures { IfOk result (λ t. t ≡ leaf (unknown number)) }
    {
        EGuide::of(alloc, EGuideForm::Unknown(number))
    }

    /// `(pi x domain part)`.
    pub fn pi(alloc: Global, domain: &EGuide, part: &EGuide) -> Result<EGuide, NoMemory>
        ensures { IfOk result (λ t. t ≡ pi domain.now part.now) }
    {
        let (domain, part) = share_both(domain, part)?;
        EGuide::of(alloc, EGuideForm::Pi(domain, part))
    }

    /// `(all x domain part)`.
    pub fn all(alloc: Global, domain: &EGuide, part: &EGuide) -> Result<EGuide, NoMemory>
        ensures { IfOk result (λ t. t ≡ all domain.now part.now) }
    {
        let (domain, part) = share_both(domain, part)?;
        EGuide::of(alloc, EGuideForm::All(domain, part))
    }

    /// `(allt X domain part)`.
    pub fn allt(alloc: Global, domain: &EGuideKind, part: &EGuide) -> Result<EGuide, NoMemory>
        ensures { IfOk result (λ t. t ≡ allt domain.now part.now) }
    {
        let (domain, part) = share_both(domain, part)?;
        EGuide::of(alloc, EGuideForm::Allt(domain, part))
    }

    /// `(tlam x part)`.
    pub fn tlam(alloc: Global, part: &EGuide) -> Result<EGuide, NoMemory>
        ensures { IfOk result (λ t. t ≡ guide_tlam part.now) }
    {
        EGuide::of(alloc, EGuideForm::Tlam(part.share()?))
    }

    /// `(xtlam X part)`.
    pub fn xtlam(alloc: Global, part: &EGuide) -> Result<EGuide, NoMemory>
        ensures { IfOk result (λ t. t ≡ guide_xtlam part.now) }
    {
        EGuide::of(alloc, EGuideForm::Xtlam(part.share()?))
    }

    /// `(at head arg)`.
    pub fn at(alloc: Global, head: &EGuide, arg: &EPure) -> Result<EGuide, NoMemory>
        ensures { IfOk result (λ t. t ≡ at_ head.now arg.now) }
    {
        let (head, arg) = share_both(head, arg)?;
        EGuide::of(alloc, EGuideForm::At(head, arg))
    }

    /// `(on head arg)`.
    pub fn on(alloc: Global, head: &EGuide, arg: &EGuide) -> Result<EGuide, NoMemory>
        ensures { IfOk result (λ t. t ≡ on head.now arg.now) }
    {
        let (head, arg) = share_both(head, arg)?;
        EGuide::of(alloc, EGuideForm::On(head, arg))
    }

    /// `(iota x left right)`.
    pub fn iota(alloc: Global, left: &EGuide, right: &EGuide) -> Result<EGuide, NoMemory>
        ensures { IfOk result (λ t. t ≡ iota left.now right.now) }
    {
        let (left, right) = share_both(left, right)?;
        EGuide::of(alloc, EGuideForm::Iota(left, right))
    }

    /// `(eq left right)`.
    pub fn eq(alloc: Global, left: &EPure, right: &EPure) -> Result<EGuide, NoMemory>
        ensures { IfOk result (λ t. t ≡ eq left.now right.now) }
    {
        let (left, right) = share_both(left, right)?;
        EGuide::of(alloc, EGuideForm::Eq(left, right))
    }
}

impl EGuideKind {
    /// `*`.
    pub fn star(alloc: Global) -> Result<EGuideKind, NoMemory>
        ensures { IfOk result (λ t. t ≡ star) }
    {
        EGuideKind::of(alloc, EGuideKindForm::Star)
    }

    /// `(kpi x domain part)`.
    pub fn kpi(alloc: Global, domain: &EGuide, part: &EGuideKind) -> Result<EGuideKind, NoMemory>
        ensures { IfOk result (λ t. t ≡ kpi domain.now part.now) }
    {
        let (domain, part) = share_both(domain, part)?;
        EGuideKind::of(alloc, EGuideKindForm::Kpi(domain, part))
    }

    /// `(kpit X domain part)`.
    pub fn kpit(
        alloc: Global,
        domain: &EGuideKind,
        part: &EGuideKind,
    ) -> Result<EGuideKind, NoMemory>
        ensures { IfOk result (λ t. t ≡ kpit domain.now part.now) }
    {
        let (domain, part) = share_both(domain, part)?;
        EGuideKind::of(alloc, EGuideKindForm::Kpit(domain, part))
    }
}
