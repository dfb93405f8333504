//! The forms of terms, with a constructor for each.
ghost use Rattle.std.specs.Prelude.{◌≡◌, ◌<◌, IfOk};
ghost use Rattle.cdle_model.specs.Trees.{var, name};
ghost use Rattle.cdle_model.specs.Forms.{app, beta, delta, eapp, elam, fst, lam, pair, phi, rho, snd, tapp, xlam};
ghost use Rattle.cdle_model.specs.Depth.{depth};

use crate::guide::Guide;
use crate::pure::Pure;
use crate::sharing::share_both;
use crate::term::{Kind, Term, TermForm, Ty};
use cdle_model::NoMemory;
use std::alloc::Global;

impl Term {
    /// The variable with `index` binders between it and its own.
    pub fn var(alloc: Global, index: u32) -> Result<Term, NoMemory>
        ensures { IfOk result (λ t. t ≡ var index) }
    {
        Term::of(alloc, TermForm::Var(index))
    }

    /// The item of that number.
    pub fn name(alloc: Global, item: u32) -> Result<Term, NoMemory>
        ensures { IfOk result (λ t. t ≡ name item) }
    {
        Term::of(alloc, TermForm::Name(item))
    }

    /// `(lam x ty part)`.
    pub fn lam(alloc: Global, ty: &Ty, part: &Term) -> Result<Term, NoMemory>
        requires ty_depth { depth ty.now < 4096 }
        requires part_depth { depth part.now < 4096 }
        ensures { IfOk result (λ t. t ≡ lam ty.now part.now) }
    {
        let (ty, part) = share_both(ty, part)?;
        Term::of(alloc, TermForm::Lam(ty, part))
    }

    /// `(elam x ty part)`.
    pub fn elam(alloc: Global, ty: &Ty, part: &Term) -> Result<Term, NoMemory>
        requires ty_depth { depth ty.now < 4096 }
        requires part_depth { depth part.now < 4096 }
        ensures { IfOk result (λ t. t ≡ elam ty.now part.now) }
    {
        let (ty, part) = share_both(ty, part)?;
        Term::of(alloc, TermForm::Elam(ty, part))
    }

    /// `(xlam X kind part)`.
    pub fn xlam(alloc: Global, kind: &Kind, part: &Term) -> Result<Term, NoMemory>
        requires kind_depth { depth kind.now < 4096 }
        requires part_depth { depth part.now < 4096 }
        ensures { IfOk result (λ t. t ≡ xlam kind.now part.now) }
    {
        let (kind, part) = share_both(kind, part)?;
        Term::of(alloc, TermForm::Xlam(kind, part))
    }

    /// `(app head arg)`.
    pub fn app(alloc: Global, head: &Term, arg: &Term) -> Result<Term, NoMemory>
        requires head_depth { depth head.now < 4096 }
        requires arg_depth { depth arg.now < 4096 }
        ensures { IfOk result (λ t. t ≡ app head.now arg.now) }
    {
        let (head, arg) = share_both(head, arg)?;
        Term::of(alloc, TermForm::App(head, arg))
    }

    /// `(eapp head arg)`.
    pub fn eapp(alloc: Global, head: &Term, arg: &Term) -> Result<Term, NoMemory>
        requires head_depth { depth head.now < 4096 }
        requires arg_depth { depth arg.now < 4096 }
        ensures { IfOk result (λ t. t ≡ eapp head.now arg.now) }
    {
        let (head, arg) = share_both(head, arg)?;
        Term::of(alloc, TermForm::Eapp(head, arg))
    }

    /// `(tapp head arg)`.
    pub fn tapp(alloc: Global, head: &Term, arg: &Ty) -> Result<Term, NoMemory>
        requires head_depth { depth head.now < 4096 }
        requires arg_depth { depth arg.now < 4096 }
        ensures { IfOk result (λ t. t ≡ tapp head.now arg.now) }
    {
        let (head, arg) = share_both(head, arg)?;
        Term::of(alloc, TermForm::Tapp(head, arg))
    }

    /// `(pair left right x ty)`.
    pub fn pair(alloc: Global, left: &Term, right: &Term, ty: &Ty) -> Result<Term, NoMemory>
        requires left_depth { depth left.now < 4096 }
        requires right_depth { depth right.now < 4096 }
        requires ty_depth { depth ty.now < 4096 }
        ensures { IfOk result (λ t. t ≡ pair left.now right.now ty.now) }
    {
        let (left, right) = share_both(left, right)?;
        Term::of(alloc, TermForm::Pair(left, right, ty.share()?))
    }

    /// `(fst part)`.
    pub fn fst(alloc: Global, part: &Term) -> Result<Term, NoMemory>
        requires { depth part.now < 4096 }
        ensures { IfOk result (λ t. t ≡ fst part.now) }
    {
        Term::of(alloc, TermForm::Fst(part.share()?))
    }

    /// `(snd part)`.
    pub fn snd(alloc: Global, part: &Term) -> Result<Term, NoMemory>
        requires { depth part.now < 4096 }
        ensures { IfOk result (λ t. t ≡ snd part.now) }
    {
        Term::of(alloc, TermForm::Snd(part.share()?))
    }

    /// `(beta side kept)`.
    pub fn beta(alloc: Global, side: &Pure, kept: &Pure) -> Result<Term, NoMemory>
        requires side_depth { depth side.now < 4096 }
        requires kept_depth { depth kept.now < 4096 }
        ensures { IfOk result (λ t. t ≡ beta side.now kept.now) }
    {
        let (side, kept) = share_both(side, kept)?;
        Term::of(alloc, TermForm::Beta(side, kept))
    }

    /// `(rho proof x guide ty part)`.
    pub fn rho(
        alloc: Global,
        proof: &Term,
        guide: &Guide,
        ty: &Ty,
        part: &Term,
    ) -> Result<Term, NoMemory>
        requires proof_depth { depth proof.now < 4096 }
        requires guide_depth { depth guide.now < 4096 }
        requires ty_depth { depth ty.now < 4096 }
        requires part_depth { depth part.now < 4096 }
        ensures { IfOk result (λ t. t ≡ rho proof.now guide.now ty.now part.now) }
    {
        let (proof, guide) = share_both(proof, guide)?;
        let (ty, part) = share_both(ty, part)?;
        Term::of(alloc, TermForm::Rho(proof, guide, ty, part))
    }

    /// `(phi proof part kept)`.
    pub fn phi(alloc: Global, proof: &Term, part: &Term, kept: &Pure) -> Result<Term, NoMemory>
        requires proof_depth { depth proof.now < 4096 }
        requires part_depth { depth part.now < 4096 }
        requires kept_depth { depth kept.now < 4096 }
        ensures { IfOk result (λ t. t ≡ phi proof.now part.now kept.now) }
    {
        let (proof, part) = share_both(proof, part)?;
        Term::of(alloc, TermForm::Phi(proof, part, kept.share()?))
    }

    /// `(delta ty proof)`.
    pub fn delta(alloc: Global, ty: &Ty, proof: &Term) -> Result<Term, NoMemory>
        requires ty_depth { depth ty.now < 4096 }
        requires proof_depth { depth proof.now < 4096 }
        ensures { IfOk result (λ t. t ≡ delta ty.now proof.now) }
    {
        let (ty, proof) = share_both(ty, proof)?;
        Term::of(alloc, TermForm::Delta(ty, proof))
    }
}
