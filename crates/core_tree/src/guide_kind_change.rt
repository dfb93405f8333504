//! What a change makes of guide kinds: raising their free variables, and putting a pure term or a guide for one of them.
ghost use Rattle.std.specs.Prelude.{◌≡◌, ◌+◌, ◌<◌, ◌≤◌, ◌^◌, IfOk};
ghost use Rattle.cdle_model.specs.Trees.{Tree, shift, put, IsBelow};
ghost use Rattle.cdle_model.specs.Forms.{kpi, kpit};
ghost use Rattle.cdle_model.specs.Depth.{depth, ShiftFits};
ghost use Rattle.cdle_model.specs.Classes.{guide_kinds, UsedAs};
ghost use Rattle.cdle_model.specs.declared.grammar.Sort.TheVariants.{OfTerm, OfType};
ghost use Rattle.core_tree.specs.Forms.{guide_kind_tree};
ghost use Rattle.core_tree.specs.Nodes.{PutGives};
ghost use Rattle.core_tree.specs.Changes.{replaced, stands, ChangeGives};

use crate::change::Change;
use crate::guide::{Guide, GuideKind, GuideKindForm};
use crate::part::Part;
use crate::pure::Pure;
use crate::stack::refuse_deep_shift;
use crate::stop::{PutStop, refuse_too_deep};
use cdle_model::NoMemory;
use std::alloc::Global;

impl GuideKind {
    /// Raises each free variable that is not below `from`.
    #[tactic(auto, using(crate::proofs::Changes::raised))]
    pub fn shift(&self, alloc: Global, from: u32, by: u32) -> Result<GuideKind, NoMemory>
        requires { ShiftFits from by self.now }
        ensures { IfOk result (λ t. t ≡ shift from by self.now) }
    {
        let change = Change::Raise(from, by);
        refuse_deep_shift(&change, self.depth(), self.free())?;
        change.refuse_large(self.nodes(), self.free())?;
        match self.change(alloc, &change, 0) {
            Ok(tree) => Ok(tree),
            Err(_) => Err(NoMemory),
        }
    }

    /// Puts the part for the variable `at`, and lowers the free variables above it by one.
    #[tactic(auto, using(crate::proofs::Changes::put_is))]
    pub fn put_pure(&self, alloc: Global, at: u32, part: &Pure) -> Result<GuideKind, PutStop>
        requires used { UsedAs OfTerm at guide_kinds self.now }
        requires below { IsBelow 4290000000 part.now }
        ensures { PutGives (put at part.now self.now) result }
    {
        self.put(alloc, &Change::Put(at, Part::Pure(part)))
    }

    /// Puts the part for the variable `at`, and lowers the free variables above it by one.
    #[tactic(auto, using(crate::proofs::Changes::put_is))]
    pub fn put_guide(&self, alloc: Global, at: u32, part: &Guide) -> Result<GuideKind, PutStop>
        requires used { UsedAs OfType at guide_kinds self.now }
        requires below { IsBelow 4290000000 part.now }
        ensures { PutGives (put at part.now self.now) result }
    {
        self.put(alloc, &Change::Put(at, Part::Guide(part)))
    }

    /// What the change makes of the tree, unless it is too deep.
    #[tactic(auto, using(crate::proofs::Changes::no_less_deep))]
    fn put(&self, alloc: Global, change: &Change<'_>) -> Result<GuideKind, PutStop>
        ensures { PutGives (replaced (stands change.now) 0 self.now) result }
    {
        refuse_too_deep(self.depth())?;
        change.refuse_large(self.nodes(), self.free())?;
        GuideKind::shallow(self.change(alloc, change, 0))
    }

    /// The tree that was made, unless it is too deep.
    fn shallow(made: Result<GuideKind, PutStop>) -> Result<GuideKind, PutStop>
        ensures { (t : Tree) → ChangeGives t made → PutGives t result }
    {
        let tree = made?;
        if tree.depth() > 4096 {
            drop(tree);
            return Err(PutStop::TooDeep);
        }
        Ok(tree)
    }

    /// What the change makes of the tree below that many binders.
    #[cycle(change_guide)]
    #[tactic(auto, using(crate::proofs::Changes::changing))]
    pub(crate) fn change(
        &self,
        alloc: Global,
        change: &Change<'_>,
        under: u32,
    ) -> Result<GuideKind, PutStop>
        requires { under + depth self.now < 2 ^ 32 }
        ensures { ChangeGives (replaced (stands change.now) under self.now) result }
    {
        if change.leaves(self.free(), under) {
            return self.again();
        }
        match self.form() {
            GuideKindForm::Star => self.again(),
            GuideKindForm::Kpi(domain, part) => {
                GuideKind::change_kpi(alloc, change, under, domain, part)
            }
            GuideKindForm::Kpit(domain, part) => {
                GuideKind::change_kpit(alloc, change, under, domain, part)
            }
        }
    }

    #[cycle(change_guide)]
    #[tactic(auto, using(crate::proofs::Changes::changing))]
    fn change_kpi(
        alloc: Global,
        change: &Change<'_>,
        under: u32,
        domain: &Guide,
        part: &GuideKind,
    ) -> Result<GuideKind, PutStop>
        requires { under + depth (kpi domain.now part.now) < 2 ^ 32 }
        ensures { ChangeGives (replaced (stands change.now) under (kpi domain.now part.now)) result }
    {
        let domain = domain.change(alloc, change, under)?;
        let part = part.change(alloc, change, under + 1)?;
        GuideKind::made(alloc, GuideKindForm::Kpi(domain, part))
    }

    #[cycle(change_guide)]
    #[tactic(auto, using(crate::proofs::Changes::changing))]
    fn change_kpit(
        alloc: Global,
        change: &Change<'_>,
        under: u32,
        domain: &GuideKind,
        part: &GuideKind,
    ) -> Result<GuideKind, PutStop>
        requires { under + depth (kpit domain.now part.now) < 2 ^ 32 }
        ensures { ChangeGives (replaced (stands change.now) under (kpit domain.now part.now)) result }
    {
        let domain = domain.change(alloc, change, under)?;
        let part = part.change(alloc, change, under + 1)?;
        GuideKind::made(alloc, GuideKindForm::Kpit(domain, part))
    }

    /// The same node once more.
    fn again(&self) -> Result<GuideKind, PutStop>
        ensures { ChangeGives self.now result }
    {
        Ok(self.share()?)
    }

    /// The node of that form.
    fn made(alloc: Global, form: GuideKindForm) -> Result<GuideKind, PutStop>
        ensures { ChangeGives (guide_kind_tree form) result }
    {
        Ok(GuideKind::of(alloc, form)?)
    }
}
