//! What a change makes of guides: raising their free variables, and putting a pure term or a guide for one of them.
//! The recursion over guides and guide kinds is one cycle, with that of guide kinds.
ghost use Rattle.std.specs.Prelude.{◌≡◌, ◌+◌, ◌<◌, ◌≤◌, ◌^◌, IfOk};
ghost use Rattle.cdle_model.specs.Trees.{Tree, shift, put, IsBelow};
ghost use Rattle.cdle_model.specs.Forms.{allt, at_, eq, on};
ghost use Rattle.cdle_model.specs.Depth.{depth, ShiftFits};
ghost use Rattle.cdle_model.specs.Classes.{guides, UsedAs};
ghost use Rattle.cdle_model.specs.declared.grammar.Sort.TheVariants.{OfTerm, OfType};
ghost use Rattle.core_tree.specs.Forms.{guide_tree};
ghost use Rattle.core_tree.specs.Nodes.{PutGives};
ghost use Rattle.core_tree.specs.Products.{product_tree};
ghost use Rattle.core_tree.specs.Changes.{part_of, replaced, stands, ChangeGives};

use crate::change::Change;
use crate::guide::{Guide, GuideForm, GuideKind};
use crate::part::Part;
use crate::product::Product;
use crate::pure::Pure;
use crate::stack::refuse_deep_shift;
use crate::stop::{PutStop, refuse_too_deep};
use cdle_model::NoMemory;
use std::alloc::Global;

impl Guide {
    /// Raises each free variable that is not below `from`.
    #[tactic(auto, using(crate::proofs::Changes::raised))]
    pub fn shift(&self, alloc: Global, from: u32, by: u32) -> Result<Guide, NoMemory>
        requires { ShiftFits from by self.now }
        ensures { IfOk result (λ t. t ≡ shift from by self.now) }
    {
        let change = Change::Raise(from, by);
        refuse_deep_shift(&change, self.depth(), self.free())?;
        change.refuse_large(self.nodes(), self.free())?;
        match self.change(alloc, &change, 0) {
            Ok(tree) => Ok(tree),
            Err(_) => Err(NoMemory),
        }
    }

    /// Puts the part for the variable `at`, and lowers the free variables above it by one.
    #[tactic(auto, using(crate::proofs::Changes::put_is))]
    pub fn put_pure(&self, alloc: Global, at: u32, part: &Pure) -> Result<Guide, PutStop>
        requires used { UsedAs OfTerm at guides self.now }
        requires below { IsBelow 4290000000 part.now }
        ensures { PutGives (put at part.now self.now) result }
    {
        self.put(alloc, &Change::Put(at, Part::Pure(part)))
    }

    /// Puts the part for the variable `at`, and lowers the free variables above it by one.
    #[tactic(auto, using(crate::proofs::Changes::put_is))]
    pub fn put_guide(&self, alloc: Global, at: u32, part: &Guide) -> Result<Guide, PutStop>
        requires used { UsedAs OfType at guides self.now }
        requires below { IsBelow 4290000000 part.now }
        ensures { PutGives (put at part.now self.now) result }
    {
        self.put(alloc, &Change::Put(at, Part::Guide(part)))
    }

    /// What the change makes of the tree, unless it is too deep.
    #[tactic(auto, using(crate::proofs::Changes::no_less_deep))]
    fn put(&self, alloc: Global, change: &Change<'_>) -> Result<Guide, PutStop>
        ensures { PutGives (replaced (stands change.now) 0 self.now) result }
    {
        refuse_too_deep(self.depth())?;
        change.refuse_large(self.nodes(), self.free())?;
        Guide::shallow(self.change(alloc, change, 0))
    }

    /// The tree that was made, unless it is too deep.
    fn shallow(made: Result<Guide, PutStop>) -> Result<Guide, PutStop>
        ensures { (t : Tree) → ChangeGives t made → PutGives t result }
    {
        let tree = made?;
        if tree.depth() > 4096 {
            drop(tree);
            return Err(PutStop::TooDeep);
        }
        Ok(tree)
    }

    /// What the change makes of the tree below that many binders.
    #[cycle(change_guide)]
    #[tactic(auto, using(crate::proofs::Changes::changing))]
    pub(crate) fn change(
        &self,
        alloc: Global,
        change: &Change<'_>,
        under: u32,
    ) -> Result<Guide, PutStop>
        requires { under + depth self.now < 2 ^ 32 }
        ensures { ChangeGives (replaced (stands change.now) under self.now) result }
    {
        if change.leaves(self.free(), under) {
            return self.again();
        }
        match self.form() {
            GuideForm::Var(index) => Guide::variable(alloc, change, under, *index),
            GuideForm::Name(_) => self.again(),
            GuideForm::Pi(domain, part) => {
                Guide::change_product(alloc, change, under, Product::Pi, domain, part)
            }
            GuideForm::All(domain, part) => {
                Guide::change_product(alloc, change, under, Product::All, domain, part)
            }
            GuideForm::Iota(left, right) => {
                Guide::change_product(alloc, change, under, Product::Iota, left, right)
            }
            GuideForm::Allt(domain, part) => Guide::change_allt(alloc, change, under, domain, part),
            GuideForm::Tlam(part) => {
                let part = part.change(alloc, change, under + 1)?;
                Guide::made(alloc, GuideForm::Tlam(part))
            }
            GuideForm::Xtlam(part) => {
                let part = part.change(alloc, change, under + 1)?;
                Guide::made(alloc, GuideForm::Xtlam(part))
            }
            GuideForm::At(head, arg) => Guide::change_at(alloc, change, under, head, arg),
            GuideForm::On(head, arg) => Guide::change_on(alloc, change, under, head, arg),
            GuideForm::Eq(left, right) => Guide::change_eq(alloc, change, under, left, right),
        }
    }

    /// The same of a product of a guide and a guide over its variable.
    #[cycle(change_guide)]
    #[tactic(auto, using(crate::proofs::Changes::changing))]
    fn change_product(
        alloc: Global,
        change: &Change<'_>,
        under: u32,
        product: Product,
        domain: &Guide,
        part: &Guide,
    ) -> Result<Guide, PutStop>
        requires { under + depth (product_tree product domain.now part.now) < 2 ^ 32 }
        ensures { ChangeGives (replaced (stands change.now) under (product_tree product domain.now part.now)) result }
    {
        let domain = domain.change(alloc, change, under)?;
        let part = part.change(alloc, change, under + 1)?;
        Ok(Guide::product(alloc, product, domain, part)?)
    }

    #[cycle(change_guide)]
    #[tactic(auto, using(crate::proofs::Changes::changing))]
    fn change_allt(
        alloc: Global,
        change: &Change<'_>,
        under: u32,
        domain: &GuideKind,
        part: &Guide,
    ) -> Result<Guide, PutStop>
        requires { under + depth (allt domain.now part.now) < 2 ^ 32 }
        ensures { ChangeGives (replaced (stands change.now) under (allt domain.now part.now)) result }
    {
        let domain = domain.change(alloc, change, under)?;
        let part = part.change(alloc, change, under + 1)?;
        Guide::made(alloc, GuideForm::Allt(domain, part))
    }

    #[cycle(change_guide)]
    #[tactic(auto, using(crate::proofs::Changes::changing))]
    fn change_at(
        alloc: Global,
        change: &Change<'_>,
        under: u32,
        head: &Guide,
        arg: &Pure,
    ) -> Result<Guide, PutStop>
        requires { under + depth (at_ head.now arg.now) < 2 ^ 32 }
        ensures { ChangeGives (replaced (stands change.now) under (at_ head.now arg.now)) result }
    {
        let head = head.change(alloc, change, under)?;
        let arg = arg.change(alloc, change, under)?;
        Guide::made(alloc, GuideForm::At(head, arg))
    }

    #[cycle(change_guide)]
    #[tactic(auto, using(crate::proofs::Changes::changing))]
    fn change_on(
        alloc: Global,
        change: &Change<'_>,
        under: u32,
        head: &Guide,
        arg: &Guide,
    ) -> Result<Guide, PutStop>
        requires { under + depth (on head.now arg.now) < 2 ^ 32 }
        ensures { ChangeGives (replaced (stands change.now) under (on head.now arg.now)) result }
    {
        let head = head.change(alloc, change, under)?;
        let arg = arg.change(alloc, change, under)?;
        Guide::made(alloc, GuideForm::On(head, arg))
    }

    /// The same of a variable.
    #[cycle(change_guide)]
    #[tactic(auto, using(crate::proofs::Changes::changing))]
    fn variable(
        alloc: Global,
        change: &Change<'_>,
        under: u32,
        index: u32,
    ) -> Result<Guide, PutStop>
        ensures { ChangeGives (stands change.now under index) result }
    {
        match change.moved(index, under)? {
            Some(index) => Guide::made(alloc, GuideForm::Var(index)),
            None => Guide::raised_part(alloc, change, under),
        }
    }

    /// The part that is put, raised by the binders over it.
    #[cycle(change_guide)]
    #[tactic(auto, using(crate::proofs::Changes::changing))]
    fn raised_part(alloc: Global, change: &Change<'_>, under: u32) -> Result<Guide, PutStop>
        ensures { ChangeGives (shift 0 under (part_of change.now)) result }
    {
        match change.guide() {
            Some(part) => {
                refuse_too_deep(part.depth())?;
                let raise = Change::Raise(0, under);
                raise.refuse_large(part.nodes(), part.free())?;
                part.change(alloc, &raise, 0)
            }
            // Not reached: the puts ask that a pure term is put for a variable that is used as a term's, and none that stands here is.
            None => Err(PutStop::NoMemory),
        }
    }

    /// The same of an equation, whose sides are pure terms.
    #[tactic(auto, using(crate::proofs::Changes::changing))]
    fn change_eq(
        alloc: Global,
        change: &Change<'_>,
        under: u32,
        left: &Pure,
        right: &Pure,
    ) -> Result<Guide, PutStop>
        requires { under + depth (eq left.now right.now) < 2 ^ 32 }
        ensures { ChangeGives (replaced (stands change.now) under (eq left.now right.now)) result }
    {
        let left = left.change(alloc, change, under)?;
        let right = right.change(alloc, change, under)?;
        Guide::made(alloc, GuideForm::Eq(left, right))
    }

    /// The same node once more.
    fn again(&self) -> Result<Guide, PutStop>
        ensures { ChangeGives self.now result }
    {
        Ok(self.share()?)
    }

    /// The node of that form.
    fn made(alloc: Global, form: GuideForm) -> Result<Guide, PutStop>
        ensures { ChangeGives (guide_tree form) result }
    {
        Ok(Guide::of(alloc, form)?)
    }
}
