//! The forms of terms, with a constructor for each.
ghost use Rattle.std.specs.Prelude.{◌≡◌, IfOk};
ghost use Rattle.cdle_model.specs.Trees.{var, name, leaf, unknown};
ghost use Rattle.cdle_model.specs.Forms.{app, beta, delta, eapp, elam, fst, lam, pair, phi, rho, snd, tapp, xlam};

use crate::guide::EGuide;
use crate::pure::EPure;
use crate::sharing::share_both;
use crate::term::{EKind, ETerm, ETermForm, EType};
use cdle_model::NoMemory;
use std::alloc::Global;

impl ETerm {
    /// The variable with `index` binders between it and its own.
    pub fn var(alloc: Global, index: u32) -> Result<ETerm, NoMemory>
        ensures { IfOk result (λ t. t ≡ var index) }
    {
        ETerm::of(alloc, ETermForm::Var(index))
    }

    /// The item of that number.
    pub fn name(alloc: Global, item: u32) -> Result<ETerm, NoMemory>
        ensures { IfOk result (λ t. t ≡ name item) }
    {
        ETerm::of(alloc, ETermForm::Name(item))
    }

    /// `(lam x ty part)`.
    pub fn lam(alloc: Global, ty: &EType, part: &ETerm) -> Result<ETerm, NoMemory>
        ensures { IfOk result (λ t. t ≡ lam ty.now part.now) }
    {
        let (ty, part) = share_both(ty, part)?;
        ETerm::of(alloc, ETermForm::Lam(ty, part))
    }

    /// `(elam x ty part)`.
    pub fn elam(alloc: Global, ty: &EType, part: &ETerm) -> Result<ETerm, NoMemory>
        ensures { IfOk result (λ t. t ≡ elam ty.now part.now) }
    {
        let (ty, part) = share_both(ty, part)?;
        ETerm::of(alloc, ETermForm::Elam(ty, part))
    }

    /// `(xlam X kind part)`.
    pub fn xlam(alloc: Global, kind: &EKind, part: &ETerm) -> Result<ETerm, NoMemory>
        ensures { IfOk result (λ t. t ≡ xlam kind.now part.now) }
    {
        let (kind, part) = share_both(kind, part)?;
        ETerm::of(alloc, ETermForm::Xlam(kind, part))
    }

    /// `(app head arg)`.
    pub fn app(alloc: Global, head: &ETerm, arg: &ETerm) -> Result<ETerm, NoMemory>
        ensures { IfOk result (λ t. t ≡ app head.now arg.now) }
    {
        let (head, arg) = share_both(head, arg)?;
        ETerm::of(alloc, ETermForm::App(head, arg))
    }

    /// `(eapp head arg)`.
    pub fn eapp(alloc: Global, head: &ETerm, arg: &ETerm) -> Result<ETerm, NoMemory>
        ensures { IfOk result (λ t. t ≡ eapp head.now arg.now) }
    {
        let (head, arg) = share_both(head, arg)?;
        ETerm::of(alloc, ETermForm::Eapp(head, arg))
    }

    /// `(tapp head arg)`.
    pub fn tapp(alloc: Global, head: &ETerm, arg: &EType) -> Result<ETerm, NoMemory>
        ensures { IfOk result (λ t. t ≡ tapp head.now arg.now) }
    {
        let (head, arg) = share_both(head, arg)?;
        ETerm::of(alloc, ETermForm::Tapp(head, arg))
    }

    /// `(pair left right x ty)`.
    pub fn pair(alloc: Global, left: &ETerm, right: &ETerm, ty: &EType) -> Result<ETerm, NoMemory>
        ensures { IfOk result (λ t. t ≡ pair left.now right.now ty.now) }
    {
        let (left, right) = share_both(left, right)?;
        ETerm::of(alloc, ETermForm::Pair(left, right, ty.share()?))
    }

    /// `(fst part)`.
    pub fn fst(alloc: Global, part: &ETerm) -> Result<ETerm, NoMemory>
        ensures { IfOk result (λ t. t ≡ fst part.now) }
    {
        ETerm::of(alloc, ETermForm::Fst(part.share()?))
    }

    /// `(snd part)`.
    pub fn snd(alloc: Global, part: &ETerm) -> Result<ETerm, NoMemory>
        ensures { IfOk result (λ t. t ≡ snd part.now) }
    {
        ETerm::of(alloc, ETermForm::Snd(part.share()?))
    }

    /// `(beta side kept)`.
    pub fn beta(alloc: Global, side: &EPure, kept: &EPure) -> Result<ETerm, NoMemory>
        ensures { IfOk result (λ t. t ≡ beta side.now kept.now) }
    {
        let (side, kept) = share_both(side, kept)?;
        ETerm::of(alloc, ETermForm::Beta(side, kept))
    }

    /// `(rho proof x guide ty part)`.
    pub fn rho(
        alloc: Global,
        proof: &ETerm,
        guide: &EGuide,
        ty: &EType,
        part: &ETerm,
    ) -> Result<ETerm, NoMemory>
        ensures { IfOk result (λ t. t ≡ rho proof.now guide.now ty.now part.now) }
    {
        let (proof, guide) = share_both(proof, guide)?;
        let (ty, part) = share_both(ty, part)?;
        ETerm::of(alloc, ETermForm::Rho(proof, guide, ty, part))
    }

    /// `(phi proof part kept)`.
    pub fn phi(alloc: Global, proof: &ETerm, part: &ETerm, kept: &EPure) -> Result<ETerm, NoMemory>
        ensures { IfOk result (λ t. t ≡ phi proof.now part.now kept.now) }
    {
        let (proof, part) = share_both(proof, part)?;
        ETerm::of(alloc, ETermForm::Phi(proof, part, kept.share()?))
    }

    /// `(delta ty proof)`.
    pub fn delta(alloc: Global, ty: &EType, proof: &ETerm) -> Result<ETerm, NoMemory>
        ensures { IfOk result (λ t. t ≡ delta ty.now proof.now) }
    {
        let (ty, proof) = share_both(ty, proof)?;
        ETerm::of(alloc, ETermForm::Delta(ty, proof))
    }
}
