//! What a change makes of pure terms.
ghost use Rattle.std.specs.Prelude.{◌≡◌, ◌+◌, ◌<◌, ◌^◌};
ghost use Rattle.cdle_model.specs.Trees.{shift};
ghost use Rattle.cdle_model.specs.Depth.{depth};
ghost use Rattle.elab_tree.specs.Forms.{pure_tree};
ghost use Rattle.elab_tree.specs.Answers.{Makes, MakesBoth};
ghost use Rattle.elab_tree.specs.Changes.{changed, stands, unannotated};

use crate::change::Change;
use crate::pure::{EPure, EPureForm};
use crate::stop::{TreeStop, refuse_too_deep};
use std::alloc::Global;

impl EPure {
    /// What the change makes of the tree below that many binders.
    #[cycle(change_pure)]
    #[tactic(auto, using(crate::proofs::Changes::changing))]
    pub(crate) fn change(
        &self,
        alloc: Global,
        change: &Change<'_>,
        under: u32,
    ) -> Result<EPure, TreeStop>
        requires { under + depth self.now < 2 ^ 32 }
        ensures { Makes (changed change.now unannotated under self.now) result }
    {
        if change.leaves(self.size(), under) {
            return self.again();
        }
        match self.form() {
            EPureForm::Var(index) => EPure::variable(alloc, change, under, *index),
            EPureForm::Name(_) => self.again(),
            EPureForm::Function(part) => {
                let part = part.change(alloc, change, under + 1)?;
                EPure::made(alloc, EPureForm::Function(part))
            }
            EPureForm::Ap(head, arg) => {
                let (head, arg) = head.change_both(alloc, change, under, arg)?;
                EPure::made(alloc, EPureForm::Ap(head, arg))
            }
        }
    }

    /// The same of a variable.
    #[cycle(change_pure)]
    #[tactic(auto, using(crate::proofs::Changes::changing))]
    fn variable(
        alloc: Global,
        change: &Change<'_>,
        under: u32,
        index: u32,
    ) -> Result<EPure, TreeStop>
        ensures { Makes (stands change.now unannotated under index) result }
    {
        match change.moved(index, under)? {
            Some(index) => EPure::made(alloc, EPureForm::Var(index)),
            None => match change.pure() {
                Some(part) => part.raised(alloc, under),
                // Not reached: a type is put only where each use of its variable is a type's, and this one is a term's; and an erased binder whose
                // variable stands in what is erased has no erasure.
                None => Err(TreeStop::NoMemory),
            },
        }
    }

    /// The tree raised by the binders over it.
    #[cycle(change_pure)]
    #[tactic(auto, using(crate::proofs::Changes::changing))]
    fn raised(&self, alloc: Global, under: u32) -> Result<EPure, TreeStop>
        ensures { Makes (shift 0 under self.now) result }
    {
        refuse_too_deep(self.depth())?;
        let raise = Change::Raise(0, under);
        raise.refuse_large(self.size())?;
        self.change(alloc, &raise, 0)
    }

    /// What the change makes of this tree and of another one beside it.
    #[cycle(change_pure)]
    #[tactic(auto, using(crate::proofs::Changes::changing))]
    pub(crate) fn change_both(
        &self,
        alloc: Global,
        change: &Change<'_>,
        under: u32,
        other: &EPure,
    ) -> Result<(EPure, EPure), TreeStop>
        requires first { under + depth self.now < 2 ^ 32 }
        requires second { under + depth other.now < 2 ^ 32 }
        ensures { MakesBoth (changed change.now unannotated under self.now) (changed change.now unannotated under other.now) result }
    {
        let first = self.change(alloc, change, under)?;
        let second = other.change(alloc, change, under)?;
        Ok((first, second))
    }

    /// The same node once more.
    pub(crate) fn again(&self) -> Result<EPure, TreeStop>
        ensures { Makes self.now result }
    {
        Ok(self.share()?)
    }

    /// The node of that form.
    pub(crate) fn made(alloc: Global, form: EPureForm) -> Result<EPure, TreeStop>
        ensures { Makes (pure_tree form) result }
    {
        Ok(EPure::of(alloc, form)?)
    }
}
