//! The forms of types and kinds, with a constructor for each.
ghost use Rattle.std.specs.Prelude.{◌≡◌, Some, IfOk};
ghost use Rattle.source_model.specs.Source.{use_of, leaf, two, bind, star_of, pi_of, all_of, allt_of, tlam_of, xtlam_of, at_of, on_of, iota_of, eq_of, kpi_of, kpit_of};
ghost use Rattle.surf_tree.specs.Forms.{name_use, number_or_none, place};

use crate::names::NameUse;
use crate::node::{Src, SrcKind, SrcKindForm, SrcType, SrcTypeForm};
use cdle_model::NoMemory;
use cdle_names::{NameId, Span};
use std::alloc::Global;

impl SrcType {
    /// A name.
    pub fn name(alloc: Global, span: Span, name: NameUse) -> Result<SrcType, NoMemory>
        ensures { IfOk result (λ t. t ≡ use_of (place span) (name_use name)) }
    {
        SrcType::make(alloc, span, 1, SrcTypeForm::Name { name })
    }

    /// `Π var : domain . part`, and `domain ➔ part` without a name.
    pub fn pi(
        alloc: Global,
        span: Span,
        var: Option<NameId>,
        domain: &SrcType,
        part: &SrcType,
    ) -> Result<SrcType, NoMemory>
        ensures { IfOk result (λ t. t ≡ bind (place span) pi_of (number_or_none var) domain.now part.now) }
    {
        let levels = domain.levels().max(part.levels()) + 1;
        SrcType::make(
            alloc,
            span,
            levels,
            SrcTypeForm::Pi {
                var,
                domain: domain.clone()?,
                part: part.clone()?,
            },
        )
    }

    /// `∀ var : domain . part`, and `domain ➾ part` without a name.
    pub fn all(
        alloc: Global,
        span: Span,
        var: Option<NameId>,
        domain: &SrcType,
        part: &SrcType,
    ) -> Result<SrcType, NoMemory>
        ensures { IfOk result (λ t. t ≡ bind (place span) all_of (number_or_none var) domain.now part.now) }
    {
        let levels = domain.levels().max(part.levels()) + 1;
        SrcType::make(
            alloc,
            span,
            levels,
            SrcTypeForm::All {
                var,
                domain: domain.clone()?,
                part: part.clone()?,
            },
        )
    }

    /// `∀ var : domain . part` over types.
    pub fn allt(
        alloc: Global,
        span: Span,
        var: Option<NameId>,
        domain: &SrcKind,
        part: &SrcType,
    ) -> Result<SrcType, NoMemory>
        ensures { IfOk result (λ t. t ≡ bind (place span) allt_of (number_or_none var) domain.now part.now) }
    {
        let levels = domain.levels().max(part.levels()) + 1;
        SrcType::make(
            alloc,
            span,
            levels,
            SrcTypeForm::Allt {
                var,
                domain: domain.clone()?,
                part: part.clone()?,
            },
        )
    }

    /// `λ var : domain . part`.
    pub fn tlam(
        alloc: Global,
        span: Span,
        var: NameId,
        domain: &SrcType,
        part: &SrcType,
    ) -> Result<SrcType, NoMemory>
        ensures { IfOk result (λ t. t ≡ bind (place span) tlam_of (Some var.0) domain.now part.now) }
    {
        let levels = domain.levels().max(part.levels()) + 1;
        SrcType::make(
            alloc,
            span,
            levels,
            SrcTypeForm::Tlam {
                var,
                domain: domain.clone()?,
                part: part.clone()?,
            },
        )
    }

    /// `λ var : domain . part` over types.
    pub fn xtlam(
        alloc: Global,
        span: Span,
        var: NameId,
        domain: &SrcKind,
        part: &SrcType,
    ) -> Result<SrcType, NoMemory>
        ensures { IfOk result (λ t. t ≡ bind (place span) xtlam_of (Some var.0) domain.now part.now) }
    {
        let levels = domain.levels().max(part.levels()) + 1;
        SrcType::make(
            alloc,
            span,
            levels,
            SrcTypeForm::Xtlam {
                var,
                domain: domain.clone()?,
                part: part.clone()?,
            },
        )
    }

    /// `head arg`.
    pub fn at(alloc: Global, span: Span, head: &SrcType, arg: &Src) -> Result<SrcType, NoMemory>
        ensures { IfOk result (λ t. t ≡ two (place span) at_of head.now arg.now) }
    {
        let levels = head.levels().max(arg.levels()) + 1;
        SrcType::make(
            alloc,
            span,
            levels,
            SrcTypeForm::At {
                head: head.clone()?,
                arg: arg.clone()?,
            },
        )
    }

    /// `head ·arg`.
    pub fn on(alloc: Global, span: Span, head: &SrcType, arg: &SrcType) -> Result<SrcType, NoMemory>
        ensures { IfOk result (λ t. t ≡ two (place span) on_of head.now arg.now) }
    {
        let levels = head.levels().max(arg.levels()) + 1;
        SrcType::make(
            alloc,
            span,
            levels,
            SrcTypeForm::On {
                head: head.clone()?,
                arg: arg.clone()?,
            },
        )
    }

    /// `ι var : left . right`.
    pub fn iota(
        alloc: Global,
        span: Span,
        var: NameId,
        left: &SrcType,
        right: &SrcType,
    ) -> Result<SrcType, NoMemory>
        ensures { IfOk result (λ t. t ≡ bind (place span) iota_of (Some var.0) left.now right.now) }
    {
        let levels = left.levels().max(right.levels()) + 1;
        SrcType::make(
            alloc,
            span,
            levels,
            SrcTypeForm::Iota {
                var,
                left: left.clone()?,
                right: right.clone()?,
            },
        )
    }

    /// `{left ≃ right}`.
    pub fn eq(alloc: Global, span: Span, left: &Src, right: &Src) -> Result<SrcType, NoMemory>
        ensures { IfOk result (λ t. t ≡ two (place span) eq_of left.now right.now) }
    {
        let levels = left.levels().max(right.levels()) + 1;
        SrcType::make(
            alloc,
            span,
            levels,
            SrcTypeForm::Eq {
                left: left.clone()?,
                right: right.clone()?,
            },
        )
    }
}

impl SrcKind {
    /// `★`.
    pub fn star(alloc: Global, span: Span) -> Result<SrcKind, NoMemory>
        ensures { IfOk result (λ t. t ≡ leaf (place span) star_of) }
    {
        SrcKind::make(alloc, span, 1, SrcKindForm::Star)
    }

    /// `Π var : domain . part`, and `domain ➔ part` without a name.
    pub fn kpi(
        alloc: Global,
        span: Span,
        var: Option<NameId>,
        domain: &SrcType,
        part: &SrcKind,
    ) -> Result<SrcKind, NoMemory>
        ensures { IfOk result (λ t. t ≡ bind (place span) kpi_of (number_or_none var) domain.now part.now) }
    {
        let levels = domain.levels().max(part.levels()) + 1;
        SrcKind::make(
            alloc,
            span,
            levels,
            SrcKindForm::Kpi {
                var,
                domain: domain.clone()?,
                part: part.clone()?,
            },
        )
    }

    /// `Π var : domain . part` over types, and `domain ➔ part` without a name.
    pub fn kpit(
        alloc: Global,
        span: Span,
        var: Option<NameId>,
        domain: &SrcKind,
        part: &SrcKind,
    ) -> Result<SrcKind, NoMemory>
        ensures { IfOk result (λ t. t ≡ bind (place span) kpit_of (number_or_none var) domain.now part.now) }
    {
        let levels = domain.levels().max(part.levels()) + 1;
        SrcKind::make(
            alloc,
            span,
            levels,
            SrcKindForm::Kpit {
                var,
                domain: domain.clone()?,
                part: part.clone()?,
            },
        )
    }
}
