//! What a change makes of terms. The recursion over terms, types and kinds is one cycle.
ghost use Rattle.std.specs.Prelude.{◌≡◌, ◌+◌, ◌<◌, ◌^◌};
ghost use Rattle.cdle_model.specs.Trees.{shift};
ghost use Rattle.cdle_model.specs.Forms.{beta, pair, phi, rho};
ghost use Rattle.cdle_model.specs.Depth.{depth};
ghost use Rattle.elab_tree.specs.Forms.{term_tree};
ghost use Rattle.elab_tree.specs.Shapes.{terms_over};
ghost use Rattle.elab_tree.specs.Answers.{Makes};
ghost use Rattle.elab_tree.specs.Changes.{annotated, changed, stands};

use crate::change::Change;
use crate::guide::EGuide;
use crate::pure::EPure;
use crate::shapes::{OverTerms, Typed};
use crate::stop::{TreeStop, refuse_too_deep};
use crate::term::{ETerm, ETermForm, EType};
use std::alloc::Global;

impl ETerm {
    /// What the change makes of the tree below that many binders.
    #[cycle(change_term)]
    #[tactic(auto, using(crate::proofs::Changes::changing))]
    pub(crate) fn change(
        &self,
        alloc: Global,
        change: &Change<'_>,
        under: u32,
    ) -> Result<ETerm, TreeStop>
        requires { under + depth self.now < 2 ^ 32 }
        ensures { Makes (changed change.now annotated under self.now) result }
    {
        if change.leaves(self.size(), under) {
            return self.again();
        }
        match self.form() {
            ETermForm::Var(index) => ETerm::variable(alloc, change, under, *index),
            ETermForm::Name(_) => self.again(),
            ETermForm::Lam(ty, part) => ty.change_typed(
                alloc,
                change,
                under,
                under + 1,
                Typed::Lam,
                part,
            ),
            ETermForm::Elam(ty, part) => ty.change_typed(
                alloc,
                change,
                under,
                under + 1,
                Typed::Elam,
                part,
            ),
            ETermForm::Xlam(kind, part) => kind.change_xlam(alloc, change, under, part),
            ETermForm::App(head, arg) => head.change_two(alloc, change, under, OverTerms::App, arg),
            ETermForm::Eapp(head, arg) => head.change_two(
                alloc,
                change,
                under,
                OverTerms::Eapp,
                arg,
            ),
            ETermForm::Tapp(head, arg) => arg.change_typed(
                alloc,
                change,
                under,
                under,
                Typed::Tapp,
                head,
            ),
            ETermForm::Pair(left, right, ty) => ETerm::change_pair(
                alloc, change, under, left, right, ty,
            ),
            ETermForm::Fst(part) => {
                let part = part.change(alloc, change, under)?;
                ETerm::made(alloc, ETermForm::Fst(part))
            }
            ETermForm::Snd(part) => {
                let part = part.change(alloc, change, under)?;
                ETerm::made(alloc, ETermForm::Snd(part))
            }
            ETermForm::Beta(side, kept) => ETerm::change_beta(alloc, change, under, side, kept),
            ETermForm::Rho(proof, guide, ty, part) => ETerm::change_rho(
                alloc, change, under, proof, guide, ty, part,
            ),
            ETermForm::Phi(proof, part, kept) => ETerm::change_phi(
                alloc, change, under, proof, part, kept,
            ),
            ETermForm::Delta(ty, proof) => ty.change_typed(
                alloc,
                change,
                under,
                under,
                Typed::Delta,
                proof,
            ),
        }
    }

    /// The same of a rewriting, whose guide stands under a variable of its own.
    #[cycle(change_term)]
    #[tactic(auto, using(crate::proofs::Changes::changing))]
    fn change_rho(
        alloc: Global,
        change: &Change<'_>,
        under: u32,
        proof: &ETerm,
        guide: &EGuide,
        ty: &EType,
        part: &ETerm,
    ) -> Result<ETerm, TreeStop>
        requires { under + depth (rho proof.now guide.now ty.now part.now) < 2 ^ 32 }
        ensures { Makes (changed change.now annotated under (rho proof.now guide.now ty.now part.now)) result }
    {
        let proof = proof.change(alloc, change, under)?;
        let guide = guide.change(alloc, change, under + 1)?;
        let ty = ty.change(alloc, change, under)?;
        let part = part.change(alloc, change, under)?;
        ETerm::made(alloc, ETermForm::Rho(proof, guide, ty, part))
    }

    /// The same of a pair, whose type stands under a variable of its own.
    #[cycle(change_term)]
    #[tactic(auto, using(crate::proofs::Changes::changing))]
    fn change_pair(
        alloc: Global,
        change: &Change<'_>,
        under: u32,
        left: &ETerm,
        right: &ETerm,
        ty: &EType,
    ) -> Result<ETerm, TreeStop>
        requires { under + depth (pair left.now right.now ty.now) < 2 ^ 32 }
        ensures { Makes (changed change.now annotated under (pair left.now right.now ty.now)) result }
    {
        let left = left.change(alloc, change, under)?;
        let right = right.change(alloc, change, under)?;
        let ty = ty.change(alloc, change, under + 1)?;
        ETerm::made(alloc, ETermForm::Pair(left, right, ty))
    }

    /// The same of a cast, whose kept term is erased.
    #[cycle(change_term)]
    #[tactic(auto, using(crate::proofs::Changes::changing))]
    fn change_phi(
        alloc: Global,
        change: &Change<'_>,
        under: u32,
        proof: &ETerm,
        part: &ETerm,
        kept: &EPure,
    ) -> Result<ETerm, TreeStop>
        requires { under + depth (phi proof.now part.now kept.now) < 2 ^ 32 }
        ensures { Makes (changed change.now annotated under (phi proof.now part.now kept.now)) result }
    {
        let proof = proof.change(alloc, change, under)?;
        let part = part.change(alloc, change, under)?;
        let kept = kept.change(alloc, change, under)?;
        ETerm::made(alloc, ETermForm::Phi(proof, part, kept))
    }

    /// The same of a proof that the sides are equal, which are erased.
    #[tactic(auto, using(crate::proofs::Changes::changing))]
    fn change_beta(
        alloc: Global,
        change: &Change<'_>,
        under: u32,
        side: &EPure,
        kept: &EPure,
    ) -> Result<ETerm, TreeStop>
        requires { under + depth (beta side.now kept.now) < 2 ^ 32 }
        ensures { Makes (changed change.now annotated under (beta side.now kept.now)) result }
    {
        let (side, kept) = side.change_both(alloc, change, under, kept)?;
        ETerm::made(alloc, ETermForm::Beta(side, kept))
    }

    /// The same of a variable.
    #[cycle(change_term)]
    #[tactic(auto, using(crate::proofs::Changes::changing))]
    fn variable(
        alloc: Global,
        change: &Change<'_>,
        under: u32,
        index: u32,
    ) -> Result<ETerm, TreeStop>
        ensures { Makes (stands change.now annotated under index) result }
    {
        match change.moved(index, under)? {
            Some(index) => ETerm::made(alloc, ETermForm::Var(index)),
            None => match change.term() {
                Some(part) => part.raised(alloc, under),
                // Not reached: a type is put only where each use of its variable is a type's, and this one is a term's.
                None => Err(TreeStop::NoMemory),
            },
        }
    }

    /// The tree raised by the binders over it.
    #[cycle(change_term)]
    #[tactic(auto, using(crate::proofs::Changes::changing))]
    fn raised(&self, alloc: Global, under: u32) -> Result<ETerm, TreeStop>
        ensures { Makes (shift 0 under self.now) result }
    {
        refuse_too_deep(self.depth())?;
        let raise = Change::Raise(0, under);
        raise.refuse_large(self.size())?;
        self.change(alloc, &raise, 0)
    }

    /// The node of that form over what the change makes of this term and of another one beside it.
    #[cycle(change_term)]
    #[tactic(auto, using(crate::proofs::Changes::changing, crate::proofs::Deeper::deeper))]
    fn change_two(
        &self,
        alloc: Global,
        change: &Change<'_>,
        under: u32,
        form: OverTerms,
        other: &ETerm,
    ) -> Result<ETerm, TreeStop>
        requires first { under + depth self.now < 2 ^ 32 }
        requires second { under + depth other.now < 2 ^ 32 }
        ensures { Makes (terms_over form (changed change.now annotated under self.now) (changed change.now annotated under other.now)) result }
    {
        let first = self.change(alloc, change, under)?;
        let second = other.change(alloc, change, under)?;
        Ok(ETerm::over(alloc, form, first, second)?)
    }

    /// The same node once more.
    pub(crate) fn again(&self) -> Result<ETerm, TreeStop>
        ensures { Makes self.now result }
    {
        Ok(self.share()?)
    }

    /// The node of that form.
    pub(crate) fn made(alloc: Global, form: ETermForm) -> Result<ETerm, TreeStop>
        ensures { Makes (term_tree form) result }
    {
        Ok(ETerm::of(alloc, form)?)
    }
}
