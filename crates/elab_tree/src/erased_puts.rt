//! Raising the free variables of pure terms, guides and guide kinds, and putting a part for one of them.
ghost use Rattle.cdle_model.specs.Trees.{shift, put};
ghost use Rattle.elab_tree.specs.Answers.{Gives};
ghost use Rattle.elab_tree.specs.Changes.{changed, unannotated};

use crate::change::Change;
use crate::guide::{EGuide, EGuideKind};
use crate::pure::EPure;
use crate::stop::{TreeStop, refuse_too_deep};
use std::alloc::Global;

impl EPure {
    /// Raises by `by` each free variable that is not below `from`.
    #[tactic(auto, using(crate::proofs::Changes::raised))]
    pub fn shift(&self, alloc: Global, from: u32, by: u32) -> Result<EPure, TreeStop>
        ensures { Gives (shift from by self.now) result }
    {
        self.changed(alloc, &Change::Raise(from, by))
    }

    /// Puts the part for the variable `at`, and lowers the free variables above it by one.
    #[tactic(auto, using(crate::proofs::Changes::put_pure_is))]
    pub fn put_pure(&self, alloc: Global, at: u32, part: &EPure) -> Result<EPure, TreeStop>
        ensures { Gives (put at part.now self.now) result }
    {
        self.changed(alloc, &Change::PutPure(at, part))
    }

    /// What the change makes of the tree, unless it is too deep.
    #[tactic(auto, using(crate::proofs::Changes::changing_whole))]
    fn changed(&self, alloc: Global, change: &Change<'_>) -> Result<EPure, TreeStop>
        ensures { Gives (changed change.now unannotated 0 self.now) result }
    {
        refuse_too_deep(self.depth())?;
        change.refuse_large(self.size())?;
        let tree = self.change(alloc, change, 0)?;
        refuse_too_deep(tree.depth())?;
        Ok(tree)
    }
}

impl EGuide {
    /// Raises by `by` each free variable that is not below `from`.
    #[tactic(auto, using(crate::proofs::Changes::raised))]
    pub fn shift(&self, alloc: Global, from: u32, by: u32) -> Result<EGuide, TreeStop>
        ensures { Gives (shift from by self.now) result }
    {
        self.changed(alloc, &Change::Raise(from, by))
    }

    /// Puts the part for the variable `at`, and lowers the free variables above it by one.
    #[tactic(auto, using(crate::proofs::Changes::put_pure_is))]
    pub fn put_pure(&self, alloc: Global, at: u32, part: &EPure) -> Result<EGuide, TreeStop>
        ensures { Gives (put at part.now self.now) result }
    {
        self.changed(alloc, &Change::PutPure(at, part))
    }

    /// Puts the part for the variable `at`, and lowers the free variables above it by one.
    #[tactic(auto, using(crate::proofs::Changes::put_guide_is))]
    pub fn put_guide(&self, alloc: Global, at: u32, part: &EGuide) -> Result<EGuide, TreeStop>
        ensures { Gives (put at part.now self.now) result }
    {
        self.changed(alloc, &Change::PutGuide(at, part))
    }

    /// What the change makes of the tree, unless it is too deep.
    #[tactic(auto, using(crate::proofs::Changes::changing_whole))]
    fn changed(&self, alloc: Global, change: &Change<'_>) -> Result<EGuide, TreeStop>
        ensures { Gives (changed change.now unannotated 0 self.now) result }
    {
        refuse_too_deep(self.depth())?;
        change.refuse_large(self.size())?;
        let tree = self.change(alloc, change, 0)?;
        refuse_too_deep(tree.depth())?;
        Ok(tree)
    }
}

impl EGuideKind {
    /// Raises by `by` each free variable that is not below `from`.
    #[tactic(auto, using(crate::proofs::Changes::raised))]
    pub fn shift(&self, alloc: Global, from: u32, by: u32) -> Result<EGuideKind, TreeStop>
        ensures { Gives (shift from by self.now) result }
    {
        self.changed(alloc, &Change::Raise(from, by))
    }

    /// Puts the part for the variable `at`, and lowers the free variables above it by one.
    #[tactic(auto, using(crate::proofs::Changes::put_pure_is))]
    pub fn put_pure(&self, alloc: Global, at: u32, part: &EPure) -> Result<EGuideKind, TreeStop>
        ensures { Gives (put at part.now self.now) result }
    {
        self.changed(alloc, &Change::PutPure(at, part))
    }

    /// Puts the part for the variable `at`, and lowers the free variables above it by one.
    #[tactic(auto, using(crate::proofs::Changes::put_guide_is))]
    pub fn put_guide(&self, alloc: Global, at: u32, part: &EGuide) -> Result<EGuideKind, TreeStop>
        ensures { Gives (put at part.now self.now) result }
    {
        self.changed(alloc, &Change::PutGuide(at, part))
    }

    /// What the change makes of the tree, unless it is too deep.
    #[tactic(auto, using(crate::proofs::Changes::changing_whole))]
    fn changed(&self, alloc: Global, change: &Change<'_>) -> Result<EGuideKind, TreeStop>
        ensures { Gives (changed change.now unannotated 0 self.now) result }
    {
        refuse_too_deep(self.depth())?;
        change.refuse_large(self.size())?;
        let tree = self.change(alloc, change, 0)?;
        refuse_too_deep(tree.depth())?;
        Ok(tree)
    }
}
