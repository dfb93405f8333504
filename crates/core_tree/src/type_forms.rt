//! The forms of types and kinds, with a constructor for each.
ghost use Rattle.std.specs.Prelude.{◌≡◌, ◌<◌, IfOk};
ghost use Rattle.cdle_model.specs.Trees.{var, name};
ghost use Rattle.cdle_model.specs.Forms.{all, allt, at_, eq, iota, kpi, kpit, on, pi, star, tlam, xtlam};
ghost use Rattle.cdle_model.specs.Depth.{depth};

use crate::pure::Pure;
use crate::sharing::share_both;
use crate::term::{Kind, KindForm, Term, Ty, TyForm};
use cdle_model::NoMemory;
use std::alloc::Global;

impl Ty {
    /// The variable with `index` binders between it and its own.
    pub fn var(alloc: Global, index: u32) -> Result<Ty, NoMemory>
        ensures { IfOk result (λ t. t ≡ var index) }
    {
        Ty::of(alloc, TyForm::Var(index))
    }

    /// The item of that number.
    pub fn name(alloc: Global, item: u32) -> Result<Ty, NoMemory>
        ensures { IfOk result (λ t. t ≡ name item) }
    {
        Ty::of(alloc, TyForm::Name(item))
    }

    /// `(pi x domain part)`.
    pub fn pi(alloc: Global, domain: &Ty, part: &Ty) -> Result<Ty, NoMemory>
        requires domain_depth { depth domain.now < 4096 }
        requires part_depth { depth part.now < 4096 }
        ensures { IfOk result (λ t. t ≡ pi domain.now part.now) }
    {
        let (domain, part) = share_both(domain, part)?;
        Ty::of(alloc, TyForm::Pi(domain, part))
    }

    /// `(all x domain part)`.
    pub fn all(alloc: Global, domain: &Ty, part: &Ty) -> Result<Ty, NoMemory>
        requires domain_depth { depth domain.now < 4096 }
        requires part_depth { depth part.now < 4096 }
        ensures { IfOk result (λ t. t ≡ all domain.now part.now) }
    {
        let (domain, part) = share_both(domain, part)?;
        Ty::of(alloc, TyForm::All(domain, part))
    }

    /// `(allt X domain part)`.
    pub fn allt(alloc: Global, domain: &Kind, part: &Ty) -> Result<Ty, NoMemory>
        requires domain_depth { depth domain.now < 4096 }
        requires part_depth { depth part.now < 4096 }
        ensures { IfOk result (λ t. t ≡ allt domain.now part.now) }
    {
        let (domain, part) = share_both(domain, part)?;
        Ty::of(alloc, TyForm::Allt(domain, part))
    }

    /// `(tlam x domain part)`.
    pub fn tlam(alloc: Global, domain: &Ty, part: &Ty) -> Result<Ty, NoMemory>
        requires domain_depth { depth domain.now < 4096 }
        requires part_depth { depth part.now < 4096 }
        ensures { IfOk result (λ t. t ≡ tlam domain.now part.now) }
    {
        let (domain, part) = share_both(domain, part)?;
        Ty::of(alloc, TyForm::Tlam(domain, part))
    }

    /// `(xtlam X domain part)`.
    pub fn xtlam(alloc: Global, domain: &Kind, part: &Ty) -> Result<Ty, NoMemory>
        requires domain_depth { depth domain.now < 4096 }
        requires part_depth { depth part.now < 4096 }
        ensures { IfOk result (λ t. t ≡ xtlam domain.now part.now) }
    {
        let (domain, part) = share_both(domain, part)?;
        Ty::of(alloc, TyForm::Xtlam(domain, part))
    }

    /// `(at head arg)`.
    pub fn at(alloc: Global, head: &Ty, arg: &Term) -> Result<Ty, NoMemory>
        requires head_depth { depth head.now < 4096 }
        requires arg_depth { depth arg.now < 4096 }
        ensures { IfOk result (λ t. t ≡ at_ head.now arg.now) }
    {
        let (head, arg) = share_both(head, arg)?;
        Ty::of(alloc, TyForm::At(head, arg))
    }

    /// `(on head arg)`.
    pub fn on(alloc: Global, head: &Ty, arg: &Ty) -> Result<Ty, NoMemory>
        requires head_depth { depth head.now < 4096 }
        requires arg_depth { depth arg.now < 4096 }
        ensures { IfOk result (λ t. t ≡ on head.now arg.now) }
    {
        let (head, arg) = share_both(head, arg)?;
        Ty::of(alloc, TyForm::On(head, arg))
    }

    /// `(iota x left right)`.
    pub fn iota(alloc: Global, left: &Ty, right: &Ty) -> Result<Ty, NoMemory>
        requires left_depth { depth left.now < 4096 }
        requires right_depth { depth right.now < 4096 }
        ensures { IfOk result (λ t. t ≡ iota left.now right.now) }
    {
        let (left, right) = share_both(left, right)?;
        Ty::of(alloc, TyForm::Iota(left, right))
    }

    /// `(eq left right)`.
    pub fn eq(alloc: Global, left: &Pure, right: &Pure) -> Result<Ty, NoMemory>
        requires left_depth { depth left.now < 4096 }
        requires right_depth { depth right.now < 4096 }
        ensures { IfOk result (λ t. t ≡ eq left.now right.now) }
    {
        let (left, right) = share_both(left, right)?;
        Ty::of(alloc, TyForm::Eq(left, right))
    }
}

impl Kind {
    /// `*`.
    pub fn star(alloc: Global) -> Result<Kind, NoMemory>
        ensures { IfOk result (λ t. t ≡ star) }
    {
        Kind::of(alloc, KindForm::Star)
    }

    /// `(kpi x domain part)`.
    pub fn kpi(alloc: Global, domain: &Ty, part: &Kind) -> Result<Kind, NoMemory>
        requires domain_depth { depth domain.now < 4096 }
        requires part_depth { depth part.now < 4096 }
        ensures { IfOk result (λ t. t ≡ kpi domain.now part.now) }
    {
        let (domain, part) = share_both(domain, part)?;
        Kind::of(alloc, KindForm::Kpi(domain, part))
    }

    /// `(kpit X domain part)`.
    pub fn kpit(alloc: Global, domain: &Kind, part: &Kind) -> Result<Kind, NoMemory>
        requires domain_depth { depth domain.now < 4096 }
        requires part_depth { depth part.now < 4096 }
        ensures { IfOk result (λ t. t ≡ kpit domain.now part.now) }
    {
        let (domain, part) = share_both(domain, part)?;
        Kind::of(alloc, KindForm::Kpit(domain, part))
    }
}
