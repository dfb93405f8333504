//! Raising the free variables of terms, types and kinds, putting a part for one of them, and putting solutions for unknowns.
ghost use Rattle.cdle_model.specs.Trees.{shift};
ghost use Rattle.cdle_model.specs.Substitution.{put_written};
ghost use Rattle.elab_tree.specs.Answers.{Gives};
ghost use Rattle.elab_tree.specs.Changes.{annotated, changed};
ghost use Rattle.elab_tree.specs.Solved.{solved, solutions};

use crate::change::Change;
use crate::stop::{TreeStop, refuse_too_deep};
use crate::term::{EKind, ETerm, EType};
use std::alloc::Global;

impl ETerm {
    /// Raises by `by` each free variable that is not below `from`.
    #[tactic(auto, using(crate::proofs::Changes::raised))]
    pub fn shift(&self, alloc: Global, from: u32, by: u32) -> Result<ETerm, TreeStop>
        ensures { Gives (shift from by self.now) result }
    {
        self.changed(alloc, &Change::Raise(from, by))
    }

    /// Puts the part for the variable `at`, and lowers the free variables above it by one. In sides and guides its erasure is put.
    #[tactic(auto, using(crate::proofs::Changes::put_term_is, crate::proofs::Changes::unused_written))]
    pub fn put_term(&self, alloc: Global, at: u32, part: &ETerm) -> Result<ETerm, TreeStop>
        ensures { Gives (put_written at part.now self.now) result }
    {
        if self.size().free <= at as u64 {
            return self.kept();
        }
        let erased = part.erase(alloc)?;
        self.changed(alloc, &Change::PutTerm(at, part, &erased))
    }

    /// Puts the part for the variable `at`, and lowers the free variables above it by one. In sides and guides its erasure is put.
    #[tactic(auto, using(crate::proofs::Changes::put_type_is, crate::proofs::Changes::unused_written))]
    pub fn put_type(&self, alloc: Global, at: u32, part: &EType) -> Result<ETerm, TreeStop>
        ensures { Gives (put_written at part.now self.now) result }
    {
        if self.size().free <= at as u64 {
            return self.kept();
        }
        let erased = part.erase(alloc)?;
        self.changed(alloc, &Change::PutType(at, part, &erased))
    }

    /// Puts for each unknown its solution, raised by the binders over it; in sides and guides the erasure of that. The solution of an
    /// unknown stands at its number. An unknown that has none stays.
    #[tactic(auto, using(crate::proofs::Changes::solve_is))]
    pub fn solve(&self, alloc: Global, found: &[Option<EType>]) -> Result<ETerm, TreeStop>
        ensures { Gives (solved (solutions found.now) self.now) result }
    {
        self.changed(alloc, &Change::Solve(found))
    }

    /// What the change makes of the tree, unless it is too deep.
    #[tactic(auto, using(crate::proofs::Changes::changing_whole))]
    fn changed(&self, alloc: Global, change: &Change<'_>) -> Result<ETerm, TreeStop>
        ensures { Gives (changed change.now annotated 0 self.now) result }
    {
        refuse_too_deep(self.depth())?;
        change.refuse_large(self.size())?;
        let tree = self.change(alloc, change, 0)?;
        refuse_too_deep(tree.depth())?;
        Ok(tree)
    }

    /// The tree as it is, unless it is too deep.
    fn kept(&self) -> Result<ETerm, TreeStop>
        ensures { Gives self.now result }
    {
        refuse_too_deep(self.depth())?;
        Ok(self.share()?)
    }
}

impl EType {
    /// Raises by `by` each free variable that is not below `from`.
    #[tactic(auto, using(crate::proofs::Changes::raised))]
    pub fn shift(&self, alloc: Global, from: u32, by: u32) -> Result<EType, TreeStop>
        ensures { Gives (shift from by self.now) result }
    {
        self.changed(alloc, &Change::Raise(from, by))
    }

    /// Puts the part for the variable `at`, and lowers the free variables above it by one. In sides and guides its erasure is put.
    #[tactic(auto, using(crate::proofs::Changes::put_term_is, crate::proofs::Changes::unused_written))]
    pub fn put_term(&self, alloc: Global, at: u32, part: &ETerm) -> Result<EType, TreeStop>
        ensures { Gives (put_written at part.now self.now) result }
    {
        if self.size().free <= at as u64 {
            return self.kept();
        }
        let erased = part.erase(alloc)?;
        self.changed(alloc, &Change::PutTerm(at, part, &erased))
    }

    /// Puts the part for the variable `at`, and lowers the free variables above it by one. In sides and guides its erasure is put.
    #[tactic(auto, using(crate::proofs::Changes::put_type_is, crate::proofs::Changes::unused_written))]
    pub fn put_type(&self, alloc: Global, at: u32, part: &EType) -> Result<EType, TreeStop>
        ensures { Gives (put_written at part.now self.now) result }
    {
        if self.size().free <= at as u64 {
            return self.kept();
        }
        let erased = part.erase(alloc)?;
        self.changed(alloc, &Change::PutType(at, part, &erased))
    }

    /// Puts for each unknown its solution, raised by the binders over it; in sides and guides the erasure of that. The solution of an
    /// unknown stands at its number. An unknown that has none stays.
    #[tactic(auto, using(crate::proofs::Changes::solve_is))]
    pub fn solve(&self, alloc: Global, found: &[Option<EType>]) -> Result<EType, TreeStop>
        ensures { Gives (solved (solutions found.now) self.now) result }
    {
        self.changed(alloc, &Change::Solve(found))
    }

    /// What the change makes of the tree, unless it is too deep.
    #[tactic(auto, using(crate::proofs::Changes::changing_whole))]
    fn changed(&self, alloc: Global, change: &Change<'_>) -> Result<EType, TreeStop>
        ensures { Gives (changed change.now annotated 0 self.now) result }
    {
        refuse_too_deep(self.depth())?;
        change.refuse_large(self.size())?;
        let tree = self.change(alloc, change, 0)?;
        refuse_too_deep(tree.depth())?;
        Ok(tree)
    }

    /// The tree as it is, unless it is too deep.
    fn kept(&self) -> Result<EType, TreeStop>
        ensures { Gives self.now result }
    {
        refuse_too_deep(self.depth())?;
        Ok(self.share()?)
    }
}

impl EKind {
    /// Raises by `by` each free variable that is not below `from`.
    #[tactic(auto, using(crate::proofs::Changes::raised))]
    pub fn shift(&self, alloc: Global, from: u32, by: u32) -> Result<EKind, TreeStop>
        ensures { Gives (shift from by self.now) result }
    {
        self.changed(alloc, &Change::Raise(from, by))
    }

    /// Puts the part for the variable `at`, and lowers the free variables above it by one. In sides and guides its erasure is put.
    #[tactic(auto, using(crate::proofs::Changes::put_term_is, crate::proofs::Changes::unused_written))]
    pub fn put_term(&self, alloc: Global, at: u32, part: &ETerm) -> Result<EKind, TreeStop>
        ensures { Gives (put_written at part.now self.now) result }
    {
        if self.size().free <= at as u64 {
            return self.kept();
        }
        let erased = part.erase(alloc)?;
        self.changed(alloc, &Change::PutTerm(at, part, &erased))
    }

    /// Puts the part for the variable `at`, and lowers the free variables above it by one. In sides and guides its erasure is put.
    #[tactic(auto, using(crate::proofs::Changes::put_type_is, crate::proofs::Changes::unused_written))]
    pub fn put_type(&self, alloc: Global, at: u32, part: &EType) -> Result<EKind, TreeStop>
        ensures { Gives (put_written at part.now self.now) result }
    {
        if self.size().free <= at as u64 {
            return self.kept();
        }
        let erased = part.erase(alloc)?;
        self.changed(alloc, &Change::PutType(at, part, &erased))
    }

    /// Puts for each unknown its solution, raised by the binders over it; in sides and guides the erasure of that. The solution of an
    /// unknown stands at its number. An unknown that has none stays.
    #[tactic(auto, using(crate::proofs::Changes::solve_is))]
    pub fn solve(&self, alloc: Global, found: &[Option<EType>]) -> Result<EKind, TreeStop>
        ensures { Gives (solved (solutions found.now) self.now) result }
    {
        self.changed(alloc, &Change::Solve(found))
    }

    /// What the change makes of the tree, unless it is too deep.
    #[tactic(auto, using(crate::proofs::Changes::changing_whole))]
    fn changed(&self, alloc: Global, change: &Change<'_>) -> Result<EKind, TreeStop>
        ensures { Gives (changed change.now annotated 0 self.now) result }
    {
        refuse_too_deep(self.depth())?;
        change.refuse_large(self.size())?;
        let tree = self.change(alloc, change, 0)?;
        refuse_too_deep(tree.depth())?;
        Ok(tree)
    }

    /// The tree as it is, unless it is too deep.
    fn kept(&self) -> Result<EKind, TreeStop>
        ensures { Gives self.now result }
    {
        refuse_too_deep(self.depth())?;
        Ok(self.share()?)
    }
}
