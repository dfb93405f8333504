//! The forms of terms, with a constructor for each.
ghost use Rattle.std.specs.Prelude.{◌≡◌, ◌≤◌, Some, None, IfOk};
ghost use Rattle.source_model.specs.Source.{use_of, one, two, bind, cases, lam_of, app_of, eapp_of, tapp_of, pair_of, fst_of, snd_of, beta_of, rho_of, guide_of, phi_of, group_of, delta_of, chi_of, flip_of, mu_of, sigma_of};
ghost use Rattle.source_model.specs.Heights.{levels};
ghost use Rattle.surf_tree.specs.Forms.{chain, class_given, erased_lambda, given, name_use, place};

use crate::names::NameUse;
use crate::node::{Src, SrcBranch, SrcClass, SrcForm, SrcType};
use cdle_model::NoMemory;
use cdle_names::{NameId, Span};
use std::alloc::Global;

fn levels_of_type(ty: &Option<SrcType>) -> u32
    ensures is { result ≡ levels (given ty.now) }
    ensures bounded { result ≤ 16384 }
{
    match ty {
        Some(ty) => ty.levels(),
        None => 0,
    }
}

fn levels_of_term(term: &Option<Src>) -> u32
    ensures is { result ≡ levels (given term.now) }
    ensures bounded { result ≤ 16384 }
{
    match term {
        Some(term) => term.levels(),
        None => 0,
    }
}

fn levels_of_class(class: &Option<SrcClass>) -> u32
    ensures is { result ≡ levels (class_given class.now) }
    ensures bounded { result ≤ 16384 }
{
    match class {
        Some(SrcClass::OfKind(kind)) => kind.levels(),
        Some(SrcClass::OfType(ty)) => ty.levels(),
        None => 0,
    }
}

fn levels_of_branches(branches: &Vec<SrcBranch>) -> u32
    ensures is { result ≡ levels (chain branches.now.items) }
    ensures bounded { result ≤ 16384 }
{
    let mut most = 0;
    let mut rest = branches.as_slice();
    'branches: while let Some((first, others)) = rest.split_first() {
        most = first.part.levels().max(most);
        rest = others;
    }
    most
}

impl Src {
    /// A name.
    pub fn name(alloc: Global, span: Span, name: NameUse) -> Result<Src, NoMemory>
        ensures { IfOk result (λ t. t ≡ use_of (place span) (name_use name)) }
    {
        Src::make(alloc, span, 1, SrcForm::Name { name })
    }

    /// `λ var : ty . part`.
    pub fn lam(
        alloc: Global,
        span: Span,
        var: NameId,
        ty: Option<SrcType>,
        part: &Src,
    ) -> Result<Src, NoMemory>
        ensures { IfOk result (λ t. t ≡ bind (place span) lam_of (Some var.0) (given ty) part.now) }
    {
        let levels = levels_of_type(&ty).max(part.levels()) + 1;
        Src::make(
            alloc,
            span,
            levels,
            SrcForm::Lam {
                var,
                ty,
                part: part.clone()?,
            },
        )
    }

    /// `Λ var : class . part`.
    pub fn elam(
        alloc: Global,
        span: Span,
        var: NameId,
        class: Option<SrcClass>,
        part: &Src,
    ) -> Result<Src, NoMemory>
        ensures { IfOk result (λ t. t ≡ erased_lambda (place span) var.0 class part.now) }
    {
        let levels = levels_of_class(&class).max(part.levels()) + 1;
        Src::make(
            alloc,
            span,
            levels,
            SrcForm::Elam {
                var,
                class,
                part: part.clone()?,
            },
        )
    }

    /// `head arg`.
    pub fn app(alloc: Global, span: Span, head: &Src, arg: &Src) -> Result<Src, NoMemory>
        ensures { IfOk result (λ t. t ≡ two (place span) app_of head.now arg.now) }
    {
        let levels = head.levels().max(arg.levels()) + 1;
        Src::make(
            alloc,
            span,
            levels,
            SrcForm::App {
                head: head.clone()?,
                arg: arg.clone()?,
            },
        )
    }

    /// `head -arg`.
    pub fn eapp(alloc: Global, span: Span, head: &Src, arg: &Src) -> Result<Src, NoMemory>
        ensures { IfOk result (λ t. t ≡ two (place span) eapp_of head.now arg.now) }
    {
        let levels = head.levels().max(arg.levels()) + 1;
        Src::make(
            alloc,
            span,
            levels,
            SrcForm::Eapp {
                head: head.clone()?,
                arg: arg.clone()?,
            },
        )
    }

    /// `head ·arg`.
    pub fn tapp(alloc: Global, span: Span, head: &Src, arg: &SrcType) -> Result<Src, NoMemory>
        ensures { IfOk result (λ t. t ≡ two (place span) tapp_of head.now arg.now) }
    {
        let levels = head.levels().max(arg.levels()) + 1;
        Src::make(
            alloc,
            span,
            levels,
            SrcForm::Tapp {
                head: head.clone()?,
                arg: arg.clone()?,
            },
        )
    }

    /// `[left, right]`.
    pub fn pair(alloc: Global, span: Span, left: &Src, right: &Src) -> Result<Src, NoMemory>
        ensures { IfOk result (λ t. t ≡ two (place span) pair_of left.now right.now) }
    {
        let levels = left.levels().max(right.levels()) + 1;
        Src::make(
            alloc,
            span,
            levels,
            SrcForm::Pair {
                left: left.clone()?,
                right: right.clone()?,
            },
        )
    }

    /// `part.1`.
    pub fn fst(alloc: Global, span: Span, part: &Src) -> Result<Src, NoMemory>
        ensures { IfOk result (λ t. t ≡ one (place span) fst_of part.now) }
    {
        let levels = part.levels() + 1;
        Src::make(
            alloc,
            span,
            levels,
            SrcForm::Fst {
                part: part.clone()?,
            },
        )
    }

    /// `part.2`.
    pub fn snd(alloc: Global, span: Span, part: &Src) -> Result<Src, NoMemory>
        ensures { IfOk result (λ t. t ≡ one (place span) snd_of part.now) }
    {
        let levels = part.levels() + 1;
        Src::make(
            alloc,
            span,
            levels,
            SrcForm::Snd {
                part: part.clone()?,
            },
        )
    }

    /// `β<side>{kept}`.
    pub fn beta(
        alloc: Global,
        span: Span,
        side: Option<Src>,
        kept: Option<Src>,
    ) -> Result<Src, NoMemory>
        ensures { IfOk result (λ t. t ≡ two (place span) beta_of (given side) (given kept)) }
    {
        let levels = levels_of_term(&side).max(levels_of_term(&kept)) + 1;
        Src::make(alloc, span, levels, SrcForm::Beta { side, kept })
    }

    /// `ρ proof @ var . guide - part`.
    pub fn rho(
        alloc: Global,
        span: Span,
        proof: &Src,
        var: NameId,
        guide: &SrcType,
        part: &Src,
    ) -> Result<Src, NoMemory>
        ensures { IfOk result (λ t. t ≡ two (place span) rho_of (bind (place span) guide_of (Some var.0) proof.now guide.now) part.now) }
    {
        let levels = proof.levels().max(guide.levels()).max(part.levels()) + 1;
        Src::make(
            alloc,
            span,
            levels,
            SrcForm::Rho {
                proof: proof.clone()?,
                var,
                guide: guide.clone()?,
                part: part.clone()?,
            },
        )
    }

    /// `φ proof - part {kept}`.
    pub fn phi(
        alloc: Global,
        span: Span,
        proof: &Src,
        part: &Src,
        kept: &Src,
    ) -> Result<Src, NoMemory>
        ensures { IfOk result (λ t. t ≡ two (place span) phi_of (two (place span) group_of proof.now part.now) kept.now) }
    {
        let levels = proof.levels().max(part.levels()).max(kept.levels()) + 1;
        Src::make(
            alloc,
            span,
            levels,
            SrcForm::Phi {
                proof: proof.clone()?,
                part: part.clone()?,
                kept: kept.clone()?,
            },
        )
    }

    /// `δ ty - proof`.
    pub fn delta(
        alloc: Global,
        span: Span,
        ty: Option<SrcType>,
        proof: &Src,
    ) -> Result<Src, NoMemory>
        ensures { IfOk result (λ t. t ≡ two (place span) delta_of (given ty) proof.now) }
    {
        let levels = levels_of_type(&ty).max(proof.levels()) + 1;
        Src::make(
            alloc,
            span,
            levels,
            SrcForm::Delta {
                ty,
                proof: proof.clone()?,
            },
        )
    }

    /// `χ ty - part`.
    pub fn chi(alloc: Global, span: Span, ty: &SrcType, part: &Src) -> Result<Src, NoMemory>
        ensures { IfOk result (λ t. t ≡ two (place span) chi_of ty.now part.now) }
    {
        let levels = ty.levels().max(part.levels()) + 1;
        Src::make(
            alloc,
            span,
            levels,
            SrcForm::Chi {
                ty: ty.clone()?,
                part: part.clone()?,
            },
        )
    }

    /// `ς proof`.
    pub fn flip(alloc: Global, span: Span, proof: &Src) -> Result<Src, NoMemory>
        ensures { IfOk result (λ t. t ≡ one (place span) flip_of proof.now) }
    {
        let levels = proof.levels() + 1;
        Src::make(
            alloc,
            span,
            levels,
            SrcForm::Flip {
                proof: proof.clone()?,
            },
        )
    }

    /// `μ var . part @ motive {branches}`.
    pub fn mu(
        alloc: Global,
        span: Span,
        var: NameId,
        part: &Src,
        motive: Option<SrcType>,
        branches: Vec<SrcBranch>,
    ) -> Result<Src, NoMemory>
        ensures { IfOk result (λ t. t ≡ cases (place span) mu_of (Some var.0) part.now (given motive) (chain branches.items)) }
    {
        let levels = part
            .levels()
            .max(levels_of_type(&motive))
            .max(levels_of_branches(&branches))
            + 1;
        Src::make(
            alloc,
            span,
            levels,
            SrcForm::Mu {
                var,
                part: part.clone()?,
                motive,
                branches,
            },
        )
    }

    /// `σ part @ motive {branches}`.
    pub fn sigma(
        alloc: Global,
        span: Span,
        part: &Src,
        motive: Option<SrcType>,
        branches: Vec<SrcBranch>,
    ) -> Result<Src, NoMemory>
        ensures { IfOk result (λ t. t ≡ cases (place span) sigma_of None part.now (given motive) (chain branches.items)) }
    {
        let levels = part
            .levels()
            .max(levels_of_type(&motive))
            .max(levels_of_branches(&branches))
            + 1;
        Src::make(
            alloc,
            span,
            levels,
            SrcForm::Sigma {
                part: part.clone()?,
                motive,
                branches,
            },
        )
    }
}
