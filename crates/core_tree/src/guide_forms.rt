//! The forms of guides and guide kinds, with a constructor for each.
ghost use Rattle.std.specs.Prelude.{◌≡◌, ◌<◌, IfOk};
ghost use Rattle.cdle_model.specs.Trees.{var, name};
ghost use Rattle.cdle_model.specs.Forms.{all, allt, at_, eq, guide_tlam, guide_xtlam, iota, kpi, kpit, on, pi, star};
ghost use Rattle.cdle_model.specs.Depth.{depth};

use crate::guide::{Guide, GuideForm, GuideKind, GuideKindForm};
use crate::pure::Pure;
use crate::sharing::share_both;
use cdle_model::NoMemory;
use std::alloc::Global;

impl Guide {
    /// The variable with `index` binders between it and its own.
    pub fn var(alloc: Global, index: u32) -> Result<Guide, NoMemory>
        ensures { IfOk result (λ t. t ≡ var index) }
    {
        Guide::of(alloc, GuideForm::Var(index))
    }

    /// The item of that number.
    pub fn name(alloc: Global, item: u32) -> Result<Guide, NoMemory>
        ensures { IfOk result (λ t. t ≡ name item) }
    {
        Guide::of(alloc, GuideForm::Name(item))
    }

    /// `(pi x domain part)`.
    pub fn pi(alloc: Global, domain: &Guide, part: &Guide) -> Result<Guide, NoMemory>
        requires domain_depth { depth domain.now < 65535 }
        requires part_depth { depth part.now < 65535 }
        ensures { IfOk result (λ t. t ≡ pi domain.now part.now) }
    {
        let (domain, part) = share_both(domain, part)?;
        Guide::of(alloc, GuideForm::Pi(domain, part))
    }

    /// `(all x domain part)`.
    pub fn all(alloc: Global, domain: &Guide, part: &Guide) -> Result<Guide, NoMemory>
        requires domain_depth { depth domain.now < 65535 }
        requires part_depth { depth part.now < 65535 }
        ensures { IfOk result (λ t. t ≡ all domain.now part.now) }
    {
        let (domain, part) = share_both(domain, part)?;
        Guide::of(alloc, GuideForm::All(domain, part))
    }

    /// `(allt X domain part)`.
    pub fn allt(alloc: Global, domain: &GuideKind, part: &Guide) -> Result<Guide, NoMemory>
        requires domain_depth { depth domain.now < 65535 }
        requires part_depth { depth part.now < 65535 }
        ensures { IfOk result (λ t. t ≡ allt domain.now part.now) }
    {
        let (domain, part) = share_both(domain, part)?;
        Guide::of(alloc, GuideForm::Allt(domain, part))
    }

    /// `(tlam x part)`.
    pub fn tlam(alloc: Global, part: &Guide) -> Result<Guide, NoMemory>
        requires { depth part.now < 65535 }
        ensures { IfOk result (λ t. t ≡ guide_tlam part.now) }
    {
        Guide::of(alloc, GuideForm::Tlam(part.share()?))
    }

    /// `(xtlam X part)`.
    pub fn xtlam(alloc: Global, part: &Guide) -> Result<Guide, NoMemory>
        requires { depth part.now < 65535 }
        ensures { IfOk result (λ t. t ≡ guide_xtlam part.now) }
    {
        Guide::of(alloc, GuideForm::Xtlam(part.share()?))
    }

    /// `(at head arg)`.
    pub fn at(alloc: Global, head: &Guide, arg: &Pure) -> Result<Guide, NoMemory>
        requires head_depth { depth head.now < 65535 }
        requires arg_depth { depth arg.now < 65535 }
        ensures { IfOk result (λ t. t ≡ at_ head.now arg.now) }
    {
        let (head, arg) = share_both(head, arg)?;
        Guide::of(alloc, GuideForm::At(head, arg))
    }

    /// `(on head arg)`.
    pub fn on(alloc: Global, head: &Guide, arg: &Guide) -> Result<Guide, NoMemory>
        requires head_depth { depth head.now < 65535 }
        requires arg_depth { depth arg.now < 65535 }
        ensures { IfOk result (λ t. t ≡ on head.now arg.now) }
    {
        let (head, arg) = share_both(head, arg)?;
        Guide::of(alloc, GuideForm::On(head, arg))
    }

    /// `(iota x left right)`.
    pub fn iota(alloc: Global, left: &Guide, right: &Guide) -> Result<Guide, NoMemory>
        requires left_depth { depth left.now < 65535 }
        requires right_depth { depth right.now < 65535 }
        ensures { IfOk result (λ t. t ≡ iota left.now right.now) }
    {
        let (left, right) = share_both(left, right)?;
        Guide::of(alloc, GuideForm::Iota(left, right))
    }

    /// `(eq left right)`.
    pub fn eq(alloc: Global, left: &Pure, right: &Pure) -> Result<Guide, NoMemory>
        requires left_depth { depth left.now < 65535 }
        requires right_depth { depth right.now < 65535 }
        ensures { IfOk result (λ t. t ≡ eq left.now right.now) }
    {
        let (left, right) = share_both(left, right)?;
        Guide::of(alloc, GuideForm::Eq(left, right))
    }
}

impl GuideKind {
    /// `*`.
    pub fn star(alloc: Global) -> Result<GuideKind, NoMemory>
        ensures { IfOk result (λ t. t ≡ star) }
    {
        GuideKind::of(alloc, GuideKindForm::Star)
    }

    /// `(kpi x domain part)`.
    pub fn kpi(alloc: Global, domain: &Guide, part: &GuideKind) -> Result<GuideKind, NoMemory>
        requires domain_depth { depth domain.now < 65535 }
        requires part_depth { depth part.now < 65535 }
        ensures { IfOk result (λ t. t ≡ kpi domain.now part.now) }
    {
        let (domain, part) = share_both(domain, part)?;
        GuideKind::of(alloc, GuideKindForm::Kpi(domain, part))
    }

    /// `(kpit X domain part)`.
    pub fn kpit(alloc: Global, domain: &GuideKind, part: &GuideKind) -> Result<GuideKind, NoMemory>
        requires domain_depth { depth domain.now < 65535 }
        requires part_depth { depth part.now < 65535 }
        ensures { IfOk result (λ t. t ≡ kpit domain.now part.now) }
    {
        let (domain, part) = share_both(domain, part)?;
        GuideKind::of(alloc, GuideKindForm::Kpit(domain, part))
    }
}
