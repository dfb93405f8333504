//! What a change makes of guides and guide kinds.
ghost use Rattle.std.specs.Prelude.{◌≡◌, ◌+◌, ◌<◌, ◌^◌};
ghost use Rattle.cdle_model.specs.Trees.{leaf, shift, unknown};
ghost use Rattle.cdle_model.specs.Forms.{allt, at_, eq};
ghost use Rattle.cdle_model.specs.Depth.{depth};
ghost use Rattle.elab_tree.specs.Forms.{guide_kind_tree, guide_tree};
ghost use Rattle.elab_tree.specs.Shapes.{guides_over};
ghost use Rattle.elab_tree.specs.Answers.{Makes};
ghost use Rattle.elab_tree.specs.Changes.{changed, fills, stands, unannotated};

use crate::change::Change;
use crate::guide::{EGuide, EGuideForm, EGuideKind, EGuideKindForm};
use crate::pure::EPure;
use crate::shapes::OverGuides;
use crate::stop::{TreeStop, refuse_too_deep};
use std::alloc::Global;

impl EGuide {
    /// What the change makes of the tree below that many binders.
    #[cycle(change_guide)]
    #[tactic(auto, using(crate::proofs::Changes::changing))]
    pub(crate) fn change(
        &self,
        alloc: Global,
        change: &Change<'_>,
        under: u32,
    ) -> Result<EGuide, TreeStop>
        requires { under + depth self.now < 2 ^ 32 }
        ensures { Makes (changed change.now unannotated under self.now) result }
    {
        if change.leaves(self.size(), under) {
            return self.again();
        }
        match self.form() {
            EGuideForm::Var(index) => EGuide::variable(alloc, change, under, *index),
            EGuideForm::Name(_) => self.again(),
            EGuideForm::Unknown(number) => self.hole(alloc, change, under, *number),
            EGuideForm::Pi(domain, part) => domain.change_two(
                alloc,
                change,
                under,
                under + 1,
                OverGuides::Pi,
                part,
            ),
            EGuideForm::All(domain, part) => domain.change_two(
                alloc,
                change,
                under,
                under + 1,
                OverGuides::All,
                part,
            ),
            EGuideForm::Allt(domain, part) => domain.change_allt(alloc, change, under, part),
            EGuideForm::Tlam(part) => {
                let part = part.change(alloc, change, under + 1)?;
                EGuide::made(alloc, EGuideForm::Tlam(part))
            }
            EGuideForm::Xtlam(part) => {
                let part = part.change(alloc, change, under + 1)?;
                EGuide::made(alloc, EGuideForm::Xtlam(part))
            }
            EGuideForm::At(head, arg) => {
                let head = head.change(alloc, change, under)?;
                head.applied(alloc, change, under, arg)
            }
            EGuideForm::On(head, arg) => head.change_two(
                alloc,
                change,
                under,
                under,
                OverGuides::On,
                arg,
            ),
            EGuideForm::Iota(left, right) => left.change_two(
                alloc,
                change,
                under,
                under + 1,
                OverGuides::Iota,
                right,
            ),
            EGuideForm::Eq(left, right) => EGuide::change_eq(alloc, change, under, left, right),
        }
    }

    /// The same of a variable.
    #[cycle(change_guide)]
    #[tactic(auto, using(crate::proofs::Changes::changing))]
    fn variable(
        alloc: Global,
        change: &Change<'_>,
        under: u32,
        index: u32,
    ) -> Result<EGuide, TreeStop>
        ensures { Makes (stands change.now unannotated under index) result }
    {
        match change.moved(index, under)? {
            Some(index) => EGuide::made(alloc, EGuideForm::Var(index)),
            None => match change.guide() {
                Some(part) => part.raised(alloc, under),
                // Not reached: a term is put only where each use of its variable is a term's, and this one is a type's.
                None => Err(TreeStop::NoMemory),
            },
        }
    }

    /// The same of an unknown.
    #[cycle(change_guide)]
    #[tactic(auto, using(crate::proofs::Changes::changing))]
    fn hole(
        &self,
        alloc: Global,
        change: &Change<'_>,
        under: u32,
        number: u32,
    ) -> Result<EGuide, TreeStop>
        requires { self.now ≡ leaf (unknown number) }
        ensures { Makes (fills change.now unannotated under number) result }
    {
        match change.solution(number) {
            Some(solution) => solution.erase(alloc)?.raised(alloc, under),
            None => self.again(),
        }
    }

    /// The tree raised by the binders over it.
    #[cycle(change_guide)]
    #[tactic(auto, using(crate::proofs::Changes::changing))]
    fn raised(&self, alloc: Global, under: u32) -> Result<EGuide, TreeStop>
        ensures { Makes (shift 0 under self.now) result }
    {
        refuse_too_deep(self.depth())?;
        let raise = Change::Raise(0, under);
        raise.refuse_large(self.size())?;
        self.change(alloc, &raise, 0)
    }

    /// The node of that form over what the change makes of this guide and of another one, each below its own number of binders.
    #[cycle(change_guide)]
    #[tactic(auto, using(crate::proofs::Changes::changing, crate::proofs::Deeper::deeper))]
    fn change_two(
        &self,
        alloc: Global,
        change: &Change<'_>,
        under: u32,
        inside: u32,
        form: OverGuides,
        other: &EGuide,
    ) -> Result<EGuide, TreeStop>
        requires first { under + depth self.now < 2 ^ 32 }
        requires second { inside + depth other.now < 2 ^ 32 }
        ensures { Makes (guides_over form (changed change.now unannotated under self.now) (changed change.now unannotated inside other.now)) result }
    {
        let first = self.change(alloc, change, under)?;
        let second = other.change(alloc, change, inside)?;
        Ok(EGuide::over(alloc, form, first, second)?)
    }

    /// This guide applied by what the change makes of the pure term.
    #[tactic(auto, using(crate::proofs::Changes::changing))]
    fn applied(
        self,
        alloc: Global,
        change: &Change<'_>,
        under: u32,
        arg: &EPure,
    ) -> Result<EGuide, TreeStop>
        requires { under + depth arg.now < 2 ^ 32 }
        ensures { Makes (at_ self (changed change.now unannotated under arg.now)) result }
    {
        let arg = arg.change(alloc, change, under)?;
        EGuide::made(alloc, EGuideForm::At(self, arg))
    }

    /// What the change makes of an equation of both sides.
    #[tactic(auto, using(crate::proofs::Changes::changing))]
    fn change_eq(
        alloc: Global,
        change: &Change<'_>,
        under: u32,
        left: &EPure,
        right: &EPure,
    ) -> Result<EGuide, TreeStop>
        requires { under + depth (eq left.now right.now) < 2 ^ 32 }
        ensures { Makes (changed change.now unannotated under (eq left.now right.now)) result }
    {
        let (left, right) = left.change_both(alloc, change, under, right)?;
        EGuide::made(alloc, EGuideForm::Eq(left, right))
    }

    /// The same node once more.
    pub(crate) fn again(&self) -> Result<EGuide, TreeStop>
        ensures { Makes self.now result }
    {
        Ok(self.share()?)
    }

    /// The node of that form.
    pub(crate) fn made(alloc: Global, form: EGuideForm) -> Result<EGuide, TreeStop>
        ensures { Makes (guide_tree form) result }
    {
        Ok(EGuide::of(alloc, form)?)
    }
}

impl EGuideKind {
    /// What the change makes of the tree below that many binders.
    #[cycle(change_guide)]
    #[tactic(auto, using(crate::proofs::Changes::changing))]
    pub(crate) fn change(
        &self,
        alloc: Global,
        change: &Change<'_>,
        under: u32,
    ) -> Result<EGuideKind, TreeStop>
        requires { under + depth self.now < 2 ^ 32 }
        ensures { Makes (changed change.now unannotated under self.now) result }
    {
        if change.leaves(self.size(), under) {
            return self.again();
        }
        match self.form() {
            EGuideKindForm::Star => self.again(),
            EGuideKindForm::Kpi(domain, part) => {
                let domain = domain.change(alloc, change, under)?;
                let part = part.change(alloc, change, under + 1)?;
                EGuideKind::made(alloc, EGuideKindForm::Kpi(domain, part))
            }
            EGuideKindForm::Kpit(domain, part) => {
                let domain = domain.change(alloc, change, under)?;
                let part = part.change(alloc, change, under + 1)?;
                EGuideKind::made(alloc, EGuideKindForm::Kpit(domain, part))
            }
        }
    }

    /// What the change makes of the guide over this domain.
    #[cycle(change_guide)]
    #[tactic(auto, using(crate::proofs::Changes::changing))]
    fn change_allt(
        &self,
        alloc: Global,
        change: &Change<'_>,
        under: u32,
        part: &EGuide,
    ) -> Result<EGuide, TreeStop>
        requires { under + depth (allt self.now part.now) < 2 ^ 32 }
        ensures { Makes (changed change.now unannotated under (allt self.now part.now)) result }
    {
        let domain = self.change(alloc, change, under)?;
        let part = part.change(alloc, change, under + 1)?;
        EGuide::made(alloc, EGuideForm::Allt(domain, part))
    }

    /// The same node once more.
    pub(crate) fn again(&self) -> Result<EGuideKind, TreeStop>
        ensures { Makes self.now result }
    {
        Ok(self.share()?)
    }

    /// The node of that form.
    pub(crate) fn made(alloc: Global, form: EGuideKindForm) -> Result<EGuideKind, TreeStop>
        ensures { Makes (guide_kind_tree form) result }
    {
        Ok(EGuideKind::of(alloc, form)?)
    }
}
