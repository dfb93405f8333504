//! What a change makes of types and kinds.
ghost use Rattle.std.specs.Prelude.{◌≡◌, ◌+◌, ◌<◌, ◌^◌};
ghost use Rattle.cdle_model.specs.Trees.{leaf, shift, unknown};
ghost use Rattle.cdle_model.specs.Forms.{at_, eq, xlam};
ghost use Rattle.cdle_model.specs.Depth.{depth};
ghost use Rattle.elab_tree.specs.Forms.{kind_tree, type_tree};
ghost use Rattle.elab_tree.specs.Shapes.{kind_over, typed, types_over};
ghost use Rattle.elab_tree.specs.Answers.{Makes};
ghost use Rattle.elab_tree.specs.Changes.{annotated, changed, fills, stands};

use crate::change::Change;
use crate::pure::EPure;
use crate::shapes::{OverKind, OverTypes, Typed};
use crate::stop::{TreeStop, refuse_too_deep};
use crate::term::{EKind, EKindForm, ETerm, ETermForm, EType, ETypeForm};
use std::alloc::Global;

impl EType {
    /// What the change makes of the tree below that many binders.
    #[cycle(change_term)]
    #[tactic(auto, using(crate::proofs::Changes::changing))]
    pub(crate) fn change(
        &self,
        alloc: Global,
        change: &Change<'_>,
        under: u32,
    ) -> Result<EType, TreeStop>
        requires { under + depth self.now < 2 ^ 32 }
        ensures { Makes (changed change.now annotated under self.now) result }
    {
        if change.leaves(self.size(), under) {
            return self.again();
        }
        match self.form() {
            ETypeForm::Var(index) => EType::variable(alloc, change, under, *index),
            ETypeForm::Name(_) => self.again(),
            ETypeForm::Unknown(number) => self.hole(alloc, change, under, *number),
            ETypeForm::Pi(domain, part) => domain.change_two(
                alloc,
                change,
                under,
                under + 1,
                OverTypes::Pi,
                part,
            ),
            ETypeForm::All(domain, part) => domain.change_two(
                alloc,
                change,
                under,
                under + 1,
                OverTypes::All,
                part,
            ),
            ETypeForm::Allt(domain, part) => domain.change_over(
                alloc,
                change,
                under,
                OverKind::Allt,
                part,
            ),
            ETypeForm::Tlam(domain, part) => domain.change_two(
                alloc,
                change,
                under,
                under + 1,
                OverTypes::Tlam,
                part,
            ),
            ETypeForm::Xtlam(domain, part) => domain.change_over(
                alloc,
                change,
                under,
                OverKind::Xtlam,
                part,
            ),
            ETypeForm::At(head, arg) => head.change_at(alloc, change, under, arg),
            ETypeForm::On(head, arg) => head.change_two(
                alloc,
                change,
                under,
                under,
                OverTypes::On,
                arg,
            ),
            ETypeForm::Iota(left, right) => left.change_two(
                alloc,
                change,
                under,
                under + 1,
                OverTypes::Iota,
                right,
            ),
            ETypeForm::Eq(left, right) => EType::change_eq(alloc, change, under, left, right),
        }
    }

    /// The same of a variable.
    #[cycle(change_term)]
    #[tactic(auto, using(crate::proofs::Changes::changing))]
    fn variable(
        alloc: Global,
        change: &Change<'_>,
        under: u32,
        index: u32,
    ) -> Result<EType, TreeStop>
        ensures { Makes (stands change.now annotated under index) result }
    {
        match change.moved(index, under)? {
            Some(index) => EType::made(alloc, ETypeForm::Var(index)),
            None => match change.ty() {
                Some(part) => part.raised(alloc, under),
                // Not reached: a term is put only where each use of its variable is a term's, and this one is a type's.
                None => Err(TreeStop::NoMemory),
            },
        }
    }

    /// The same of an unknown.
    #[cycle(change_term)]
    #[tactic(auto, using(crate::proofs::Changes::changing))]
    fn hole(
        &self,
        alloc: Global,
        change: &Change<'_>,
        under: u32,
        number: u32,
    ) -> Result<EType, TreeStop>
        requires { self.now ≡ leaf (unknown number) }
        ensures { Makes (fills change.now annotated under number) result }
    {
        match change.solution(number) {
            Some(solution) => solution.raised(alloc, under),
            None => self.again(),
        }
    }

    /// The tree raised by the binders over it.
    #[cycle(change_term)]
    #[tactic(auto, using(crate::proofs::Changes::changing))]
    fn raised(&self, alloc: Global, under: u32) -> Result<EType, TreeStop>
        ensures { Makes (shift 0 under self.now) result }
    {
        refuse_too_deep(self.depth())?;
        let raise = Change::Raise(0, under);
        raise.refuse_large(self.size())?;
        self.change(alloc, &raise, 0)
    }

    /// The node of that form over what the change makes of this type and of another one, each below its own number of binders.
    #[cycle(change_term)]
    #[tactic(auto, using(crate::proofs::Changes::changing, crate::proofs::Deeper::deeper))]
    fn change_two(
        &self,
        alloc: Global,
        change: &Change<'_>,
        under: u32,
        inside: u32,
        form: OverTypes,
        other: &EType,
    ) -> Result<EType, TreeStop>
        requires first { under + depth self.now < 2 ^ 32 }
        requires second { inside + depth other.now < 2 ^ 32 }
        ensures { Makes (types_over form (changed change.now annotated under self.now) (changed change.now annotated inside other.now)) result }
    {
        let first = self.change(alloc, change, under)?;
        let second = other.change(alloc, change, inside)?;
        Ok(EType::over(alloc, form, first, second)?)
    }

    /// The node of that form over what the change makes of this type and of a term, each below its own number of binders.
    #[cycle(change_term)]
    #[tactic(auto, using(crate::proofs::Changes::changing, crate::proofs::Deeper::deeper))]
    pub(crate) fn change_typed(
        &self,
        alloc: Global,
        change: &Change<'_>,
        under: u32,
        inside: u32,
        form: Typed,
        other: &ETerm,
    ) -> Result<ETerm, TreeStop>
        requires first { under + depth self.now < 2 ^ 32 }
        requires second { inside + depth other.now < 2 ^ 32 }
        ensures { Makes (typed form (changed change.now annotated under self.now) (changed change.now annotated inside other.now)) result }
    {
        let first = self.change(alloc, change, under)?;
        let second = other.change(alloc, change, inside)?;
        Ok(ETerm::typed(alloc, form, first, second)?)
    }

    /// What the change makes of this type applied by the term.
    #[cycle(change_term)]
    #[tactic(auto, using(crate::proofs::Changes::changing))]
    fn change_at(
        &self,
        alloc: Global,
        change: &Change<'_>,
        under: u32,
        arg: &ETerm,
    ) -> Result<EType, TreeStop>
        requires { under + depth (at_ self.now arg.now) < 2 ^ 32 }
        ensures { Makes (changed change.now annotated under (at_ self.now arg.now)) result }
    {
        let head = self.change(alloc, change, under)?;
        let arg = arg.change(alloc, change, under)?;
        EType::made(alloc, ETypeForm::At(head, arg))
    }

    /// What the change makes of an equation of both sides, which are erased.
    #[tactic(auto, using(crate::proofs::Changes::changing))]
    fn change_eq(
        alloc: Global,
        change: &Change<'_>,
        under: u32,
        left: &EPure,
        right: &EPure,
    ) -> Result<EType, TreeStop>
        requires { under + depth (eq left.now right.now) < 2 ^ 32 }
        ensures { Makes (changed change.now annotated under (eq left.now right.now)) result }
    {
        let (left, right) = left.change_both(alloc, change, under, right)?;
        EType::made(alloc, ETypeForm::Eq(left, right))
    }

    /// The same node once more.
    pub(crate) fn again(&self) -> Result<EType, TreeStop>
        ensures { Makes self.now result }
    {
        Ok(self.share()?)
    }

    /// The node of that form.
    pub(crate) fn made(alloc: Global, form: ETypeForm) -> Result<EType, TreeStop>
        ensures { Makes (type_tree form) result }
    {
        Ok(EType::of(alloc, form)?)
    }
}

impl EKind {
    /// What the change makes of the tree below that many binders.
    #[cycle(change_term)]
    #[tactic(auto, using(crate::proofs::Changes::changing))]
    pub(crate) fn change(
        &self,
        alloc: Global,
        change: &Change<'_>,
        under: u32,
    ) -> Result<EKind, TreeStop>
        requires { under + depth self.now < 2 ^ 32 }
        ensures { Makes (changed change.now annotated under self.now) result }
    {
        if change.leaves(self.size(), under) {
            return self.again();
        }
        match self.form() {
            EKindForm::Star => self.again(),
            EKindForm::Kpi(domain, part) => {
                let domain = domain.change(alloc, change, under)?;
                let part = part.change(alloc, change, under + 1)?;
                EKind::made(alloc, EKindForm::Kpi(domain, part))
            }
            EKindForm::Kpit(domain, part) => {
                let domain = domain.change(alloc, change, under)?;
                let part = part.change(alloc, change, under + 1)?;
                EKind::made(alloc, EKindForm::Kpit(domain, part))
            }
        }
    }

    /// The type of that form over what the change makes of this domain, and of the part under its variable.
    #[cycle(change_term)]
    #[tactic(auto, using(crate::proofs::Changes::changing, crate::proofs::Deeper::deeper))]
    fn change_over(
        &self,
        alloc: Global,
        change: &Change<'_>,
        under: u32,
        form: OverKind,
        part: &EType,
    ) -> Result<EType, TreeStop>
        requires domain { under + depth self.now < 2 ^ 32 }
        requires part { under + 1 + depth part.now < 2 ^ 32 }
        ensures { Makes (kind_over form (changed change.now annotated under self.now) (changed change.now annotated (under + 1) part.now)) result }
    {
        let domain = self.change(alloc, change, under)?;
        let part = part.change(alloc, change, under + 1)?;
        Ok(EType::over_kind(alloc, form, domain, part)?)
    }

    /// What the change makes of the function over this domain.
    #[cycle(change_term)]
    #[tactic(auto, using(crate::proofs::Changes::changing))]
    pub(crate) fn change_xlam(
        &self,
        alloc: Global,
        change: &Change<'_>,
        under: u32,
        part: &ETerm,
    ) -> Result<ETerm, TreeStop>
        requires { under + depth (xlam self.now part.now) < 2 ^ 32 }
        ensures { Makes (changed change.now annotated under (xlam self.now part.now)) result }
    {
        let domain = self.change(alloc, change, under)?;
        let part = part.change(alloc, change, under + 1)?;
        ETerm::made(alloc, ETermForm::Xlam(domain, part))
    }

    /// The same node once more.
    pub(crate) fn again(&self) -> Result<EKind, TreeStop>
        ensures { Makes self.now result }
    {
        Ok(self.share()?)
    }

    /// The node of that form.
    pub(crate) fn made(alloc: Global, form: EKindForm) -> Result<EKind, TreeStop>
        ensures { Makes (kind_tree form) result }
    {
        Ok(EKind::of(alloc, form)?)
    }
}
