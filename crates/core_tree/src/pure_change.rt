//! What a change makes of pure terms: raising and lowering their free variables, and putting a pure term for one of them.
ghost use Rattle.std.specs.Prelude.{◌≡◌, ◌+◌, ◌<◌, ◌≤◌, ◌^◌, true, IfOk};
ghost use Rattle.cdle_model.specs.Trees.{Tree, shift, put, lacks, IsBelow};
ghost use Rattle.cdle_model.specs.Depth.{depth, ShiftFits};
ghost use Rattle.cdle_model.specs.Classes.{pure_terms, UsedAs};
ghost use Rattle.cdle_model.specs.declared.grammar.Sort.TheVariants.{OfTerm};
ghost use Rattle.cdle_model.specs.Erasure.{lowered};
ghost use Rattle.core_tree.specs.Forms.{pure_tree};
ghost use Rattle.core_tree.specs.Nodes.{PutGives};
ghost use Rattle.core_tree.specs.Changes.{part_of, replaced, stands, ChangeGives};

use crate::change::Change;
use crate::part::Part;
use crate::pure::{Pure, PureForm};
use crate::stack::refuse_deep_shift;
use crate::stop::{PutStop, refuse_too_deep};
use cdle_model::NoMemory;
use std::alloc::Global;

impl Pure {
    /// Raises each free variable that is not below `from`.
    #[tactic(auto, using(crate::proofs::Changes::raised))]
    pub fn shift(&self, alloc: Global, from: u32, by: u32) -> Result<Pure, NoMemory>
        requires { ShiftFits from by self.now }
        ensures { IfOk result (λ t. t ≡ shift from by self.now) }
    {
        let change = Change::Raise(from, by);
        refuse_deep_shift(&change, self.depth(), self.free())?;
        change.refuse_large(self.nodes(), self.free())?;
        self.moved(alloc, &change)
    }

    /// Puts the part for the variable `at`, and lowers the free variables above it by one.
    #[tactic(auto, using(crate::proofs::Changes::put_is))]
    pub fn put_pure(&self, alloc: Global, at: u32, part: &Pure) -> Result<Pure, PutStop>
        requires used { UsedAs OfTerm at pure_terms self.now }
        requires below { IsBelow 4290000000 part.now }
        ensures { PutGives (put at part.now self.now) result }
    {
        self.put(alloc, &Change::Put(at, Part::Pure(part)))
    }

    /// What the change makes of the tree, unless it is too deep.
    #[tactic(auto, using(crate::proofs::Changes::no_less_deep))]
    fn put(&self, alloc: Global, change: &Change<'_>) -> Result<Pure, PutStop>
        ensures { PutGives (replaced (stands change.now) 0 self.now) result }
    {
        refuse_too_deep(self.depth())?;
        change.refuse_large(self.nodes(), self.free())?;
        Pure::shallow(self.change(alloc, change, 0))
    }

    /// The pure term that was made, unless it is too deep.
    fn shallow(made: Result<Pure, PutStop>) -> Result<Pure, PutStop>
        ensures { (t : Tree) → ChangeGives t made → PutGives t result }
    {
        let tree = made?;
        if tree.depth() > 4096 {
            drop(tree);
            return Err(PutStop::TooDeep);
        }
        Ok(tree)
    }

    /// Takes the variable 0, which is not in the tree, out of the numbering.
    #[tactic(auto, using(crate::proofs::Changes::lower_is))]
    pub(crate) fn lower(&self, alloc: Global) -> Result<Pure, NoMemory>
        requires { lacks 0 self.now ≡ true }
        ensures { IfOk result (λ t. t ≡ lowered self.now) }
    {
        self.moved(alloc, &Change::Lower)
    }

    /// What the change makes of the tree, where nothing is put.
    fn moved(&self, alloc: Global, change: &Change<'_>) -> Result<Pure, NoMemory>
        ensures { IfOk result (λ t. t ≡ replaced (stands change.now) 0 self.now) }
    {
        // Asked for its bound alone.
        let _depth = self.depth();
        match self.change(alloc, change, 0) {
            Ok(tree) => Ok(tree),
            Err(_) => Err(NoMemory),
        }
    }

    /// What the change makes of the tree below that many binders.
    #[cycle(change_pure)]
    #[tactic(auto, using(crate::proofs::Changes::changing))]
    pub(crate) fn change(
        &self,
        alloc: Global,
        change: &Change<'_>,
        under: u32,
    ) -> Result<Pure, PutStop>
        requires { under + depth self.now < 2 ^ 32 }
        ensures { ChangeGives (replaced (stands change.now) under self.now) result }
    {
        if change.leaves(self.free(), under) {
            return self.again();
        }
        match self.form() {
            PureForm::Var(index) => Pure::variable(alloc, change, under, *index),
            PureForm::Name(_) => self.again(),
            PureForm::Function(part) => {
                let part = part.change(alloc, change, under + 1)?;
                Pure::made(alloc, PureForm::Function(part))
            }
            PureForm::Ap(head, arg) => {
                let head = head.change(alloc, change, under)?;
                let arg = arg.change(alloc, change, under)?;
                Pure::made(alloc, PureForm::Ap(head, arg))
            }
        }
    }

    /// The same of a variable.
    #[cycle(change_pure)]
    #[tactic(auto, using(crate::proofs::Changes::changing))]
    fn variable(alloc: Global, change: &Change<'_>, under: u32, index: u32) -> Result<Pure, PutStop>
        ensures { ChangeGives (stands change.now under index) result }
    {
        match change.moved(index, under)? {
            Some(index) => Pure::made(alloc, PureForm::Var(index)),
            None => Pure::raised_part(alloc, change, under),
        }
    }

    /// The part that is put, raised by the binders over it.
    #[cycle(change_pure)]
    #[tactic(auto, using(crate::proofs::Changes::changing))]
    fn raised_part(alloc: Global, change: &Change<'_>, under: u32) -> Result<Pure, PutStop>
        ensures { ChangeGives (shift 0 under (part_of change.now)) result }
    {
        match change.pure() {
            Some(part) => {
                refuse_too_deep(part.depth())?;
                let raise = Change::Raise(0, under);
                raise.refuse_large(part.nodes(), part.free())?;
                part.change(alloc, &raise, 0)
            }
            // Not reached: the puts ask that a guide is put for a variable that is used as a type's, and none that stands here is.
            None => Err(PutStop::NoMemory),
        }
    }

    /// The same node once more.
    fn again(&self) -> Result<Pure, PutStop>
        ensures { ChangeGives self.now result }
    {
        Ok(self.share()?)
    }

    /// The node of that form.
    fn made(alloc: Global, form: PureForm) -> Result<Pure, PutStop>
        ensures { ChangeGives (pure_tree form) result }
    {
        Ok(Pure::of(alloc, form)?)
    }
}
