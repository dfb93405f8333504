//! The questions that rules ask at their form itself, and those of equations.
ghost use Rattle.std.specs.Prelude.{◌≡◌, ◌∷◌, [], IfOk, List};
ghost use Rattle.cdle_model.specs.declared.grammar.Sort.{Sort};
ghost use Rattle.cdle_model.specs.Check.{ask_head, ask_same, equation_parts, mismatch, not_an_equation, not_booleans, parts_differ, refuse, sides_differ};
ghost use Rattle.cdle_model.specs.Classes.{Fits, guides, item_sorts, pure_terms, within};
ghost use Rattle.cdle_model.specs.Derivation.{false_pure, true_pure};
ghost use Rattle.cdle_model.specs.Erasure.{HasErasure, erased};
ghost use Rattle.cdle_model.specs.Forms.{eq, fn};
ghost use Rattle.cdle_model.specs.Trees.{var};
ghost use Rattle.core_compare.specs.Answers.{ArePlaced};
ghost use Rattle.core_reduce.specs.Sides.{IsPlaced};
ghost use Rattle.core_tree.specs.Faults.{IsKept};
ghost use Rattle.core_reduce.specs.declared.side.SideClass.TheVariants.{OfPure, OfType};
ghost use Rattle.core_reduce.specs.Values.{IsValueOf, value_tree};
ghost use Rattle.core_rules.specs.Faults.{IsRefusal};
ghost use Rattle.core_rules.specs.Questions.{FindsParts, Passes};

use crate::ask::{Rules, split};
use crate::fault::{Fault, Place};
use cdle_model::NoMemory;
use core_reduce::{Former, Side, Value};
use core_tree::{Guide, Kept, Pure, Term, Why};
use std::alloc::Global;

impl Rules<'_> {
    /// The type that the part of this number has is the wanted one.
    pub(crate) fn type_is_guide(
        &self,
        number: u32,
        found: &Guide,
        wanted: &Guide,
    ) -> Result<(), Fault>
        requires { ArePlaced 4200000000 (item_sorts self.now.items.now) guides found.now wanted.now }
        ensures { Passes self.now.items.now self.now.budget (ask_same (number ∷ []) (mismatch found.now wanted.now) found.now wanted.now) result }
    {
        let wanted = Side::of_guide(self.alloc, wanted)?;
        self.type_is_side(number, found, &wanted)
    }

    /// The erasures of a pair's parts are the same.
    pub(crate) fn same_in_pair(&self, left: &Pure, right: &Term) -> Result<(), Fault>
        requires erasure { HasErasure right.now }
        requires placed { ArePlaced 4200000000 (item_sorts self.now.items.now) pure_terms left.now (erased right.now) }
        ensures { Passes self.now.items.now self.now.budget (ask_same [] (parts_differ left.now (erased right.now)) left.now (erased right.now)) result }
    {
        let left = Side::of_pure(self.alloc, left)?;
        let right = Side::of_term(self.alloc, right)?;
        self.compare_in_pair(&left, &right)
    }

    fn compare_in_pair(&self, left: &Side, right: &Side) -> Result<(), Fault>
        requires left { left.now.class ≡ OfPure }
        requires right { right.now.class ≡ OfPure }
        requires placed { ArePlaced 4200000000 (item_sorts self.now.items.now) pure_terms left.now.tree right.now.tree }
        ensures { Passes self.now.items.now self.now.budget (ask_same [] (parts_differ left.now.tree right.now.tree) left.now.tree right.now.tree) result }
    {
        if self.same(Place::Form, left, right)? {
            return Ok(());
        }
        let left = left.tree_pure(self.alloc)?;
        let right = right.tree_pure(self.alloc)?;
        Err(Fault::refusal(self.alloc, Place::Form, Why::PartsDiffer { left, right }))
    }

    /// The type of a `rho` is the same as its guide with the equation's side.
    pub(crate) fn same_in_rho(&self, left: &Guide, right: &Guide) -> Result<(), Fault>
        requires { ArePlaced 4200000000 (item_sorts self.now.items.now) guides left.now right.now }
        ensures { Passes self.now.items.now self.now.budget (ask_same [] (sides_differ left.now right.now) left.now right.now) result }
    {
        let left = Side::of_guide(self.alloc, left)?;
        let right = Side::of_guide(self.alloc, right)?;
        self.compare_in_rho(&left, &right)
    }

    fn compare_in_rho(&self, left: &Side, right: &Side) -> Result<(), Fault>
        requires left { left.now.class ≡ OfType }
        requires right { right.now.class ≡ OfType }
        requires placed { ArePlaced 4200000000 (item_sorts self.now.items.now) guides left.now.tree right.now.tree }
        ensures { Passes self.now.items.now self.now.budget (ask_same [] (sides_differ left.now.tree right.now.tree) left.now.tree right.now.tree) result }
    {
        if self.same(Place::Form, left, right)? {
            return Ok(());
        }
        let left = left.tree_guide(self.alloc)?;
        let right = right.tree_guide(self.alloc)?;
        Err(Fault::refusal(self.alloc, Place::Form, Why::SidesDiffer { left, right }))
    }

    /// A side of the equation of a `phi` is the same as this term.
    pub(crate) fn same_in_phi(&self, left: &Side, right: &Side) -> Result<(), Fault>
        requires left { left.now.class ≡ OfPure }
        requires right { right.now.class ≡ OfPure }
        requires placed { ArePlaced 4200000000 (item_sorts self.now.items.now) pure_terms left.now.tree right.now.tree }
        ensures { Passes self.now.items.now self.now.budget
            (ask_same [] (sides_differ (eq left.now.tree left.now.tree) (eq right.now.tree right.now.tree)) left.now.tree right.now.tree) result }
    {
        if self.same(Place::Form, left, right)? {
            return Ok(());
        }
        let left = twice(self.alloc, left)?;
        let right = twice(self.alloc, right)?;
        Err(Fault::refusal(self.alloc, Place::Form, Why::SidesDiffer { left, right }))
    }

    /// The sides of an equation are `λx.λy.x` and `λx.λy.y`.
    pub fn are_booleans(&self, left: &Side, right: &Side) -> Result<(), Fault>
        requires left { left.now.class ≡ OfPure }
        requires right { right.now.class ≡ OfPure }
        requires placed { ArePlaced 4200000000 (item_sorts self.now.items.now) pure_terms left.now.tree right.now.tree }
        ensures { Passes self.now.items.now self.now.budget
            (λ q. ask_same [] (not_booleans left.now.tree right.now.tree) left.now.tree true_pure (ask_same [] (not_booleans left.now.tree right.now.tree) right.now.tree false_pure q)) result }
    {
        let truth = boolean(self.alloc, 1)?;
        self.is_boolean(left, right, left, &truth)?;
        let falsity = boolean(self.alloc, 0)?;
        self.is_boolean(left, right, right, &falsity)
    }

    /// One of the two sides is this boolean.
    fn is_boolean(
        &self,
        left: &Side,
        right: &Side,
        side: &Side,
        boolean: &Side,
    ) -> Result<(), Fault>
        requires left { left.now.class ≡ OfPure }
        requires right { right.now.class ≡ OfPure }
        requires side { side.now.class ≡ OfPure }
        requires boolean { boolean.now.class ≡ OfPure }
        requires placed { ArePlaced 4200000000 (item_sorts self.now.items.now) pure_terms side.now.tree boolean.now.tree }
        ensures { Passes self.now.items.now self.now.budget (ask_same [] (not_booleans left.now.tree right.now.tree) side.now.tree boolean.now.tree) result }
    {
        if self.same(Place::Form, side, boolean)? {
            return Ok(());
        }
        let left = left.tree_pure(self.alloc)?;
        let right = right.tree_pure(self.alloc)?;
        Err(Fault::refusal(self.alloc, Place::Form, Why::NotBooleans { left, right }))
    }

    /// The sides of the equation that the type of the part of this number is.
    pub fn sides(&self, number: u32, found: &Guide) -> Result<(Side, Side), Fault>
        requires { IsPlaced 4250000000 (item_sorts self.now.items.now) guides found.now }
        ensures finds { FindsParts self.now.items.now self.now.budget
            (λ k. ask_head (number ∷ []) found.now (λ b. equation_parts b k (refuse (number ∷ []) (not_an_equation b)))) result }
        ensures left { IfOk result (λ p. p.0.class ≡ OfPure) }
        ensures right { IfOk result (λ p. p.1.class ≡ OfPure) }
        ensures fits { IfOk result (λ p. (vs : List Sort) → Fits (within vs (item_sorts self.now.items.now)) guides found.now
            → Fits (within vs (item_sorts self.now.items.now)) guides (eq p.0.tree p.1.tree)) }
    {
        let value = self.head_of_type(number, found)?;
        match split(Former::Eq, value) {
            Ok(parts) => Ok(parts),
            Err(value) => Err(self.other_than_equation(number, &value)),
        }
    }

    /// The refusal of a head form that is no equation.
    fn other_than_equation(&self, number: u32, value: &Value) -> Fault
        requires { IsValueOf OfType value.now }
        ensures { IsRefusal (number ∷ []) (not_an_equation (value_tree OfType value.now)) result }
    {
        match value.tree_guide(self.alloc) {
            Ok(head) => {
                Fault::refusal(self.alloc, Place::Part(number), Why::NotAnEquation { head })
            }
            Err(_) => Fault::NoMemory,
        }
    }
}

/// `λx.λy.x` at 1, and `λx.λy.y` at 0.
fn boolean(alloc: Global, index: u32) -> Result<Side, NoMemory>
    ensures class { IfOk result (λ s. s.class ≡ OfPure) }
    ensures tree { IfOk result (λ s. s.tree ≡ fn (fn (var index))) }
{
    let body = Pure::var(alloc, index)?;
    let inner = Pure::function(alloc, &body)?;
    let outer = Pure::function(alloc, &inner)?;
    Side::of_pure(alloc, &outer)
}

/// The equation of a pure term with itself.
fn twice(alloc: Global, side: &Side) -> Result<Kept<Guide>, NoMemory>
    requires { side.now.class ≡ OfPure }
    ensures { IfOk result (λ k. IsKept (eq side.now.tree side.now.tree) k) }
{
    let Kept::Whole(term) = side.tree_pure(alloc)? else {
        return Ok(Kept::Deep);
    };
    if term.depth() >= 4096 {
        return Ok(Kept::Deep);
    }
    Ok(Kept::Whole(Guide::eq(alloc, &term, &term)?))
}
