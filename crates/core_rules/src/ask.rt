//! The questions of the rules: comparisons and head forms, each with a budget of its own.
ghost use Rattle.std.specs.Prelude.{◌≡◌, ◌++◌, ◌∷◌, [], IfOk, List, None, Some, length};
ghost use Rattle.cdle_model.specs.declared.grammar.Sort.{Sort};
ghost use Rattle.cdle_model.specs.Check.{ask_head, ask_same, binder_parts, mismatch, refuse, wrong_kind};
ghost use Rattle.cdle_model.specs.Classes.{Fits, guide_kinds, guides, item_sorts, within};
ghost use Rattle.cdle_model.specs.Trees.{Tree};
ghost use Rattle.core_compare.specs.Answers.{ArePlaced};
ghost use Rattle.core_reduce.specs.Sides.{IsPlaced, class_trees};
ghost use Rattle.core_tree.specs.Faults.{IsKept};
ghost use Rattle.core_reduce.specs.Values.{IsValueOf, classes, former_class, former_parts, former_tree, value_tree};
ghost use Rattle.core_reduce.specs.declared.side.SideClass.TheVariants.{OfKind, OfType};
ghost use Rattle.core_rules.specs.Faults.{IsRefusal, IsStopped, path_of};
ghost use Rattle.core_rules.specs.Formers.{Binds, IsSplit, binder_of, other_form};
ghost use Rattle.core_rules.specs.Reasons.{IsWhy};
ghost use Rattle.core_rules.specs.Questions.{FindsParts, MeetsHeadForm, MeetsSame, Passes};

use crate::fault::{Fault, Place};
use core_compare::{Answer, compare};
use core_reduce::{Budget, CheckedItems, Former, Side, Stop, Value, head};
use core_tree::{Guide, GuideKind, Kept, Why};
use std::alloc::Global;

/// The items so far, over which Core's rules are read, and the budget of each question.
#[derive(Drop)]
pub struct Rules<'a> {
    pub alloc: Global,
    pub items: &'a CheckedItems,
    pub budget: u64,
}

impl Rules<'_> {
    /// Whether two sides in one context are the same.
    pub(crate) fn same(&self, place: Place, left: &Side, right: &Side) -> Result<bool, Fault>
        requires class { left.now.class ≡ right.now.class }
        requires placed { ArePlaced 4200000000 (item_sorts self.now.items.now) (class_trees left.now.class) left.now.tree right.now.tree }
        ensures { MeetsSame self.now.items.now self.now.budget (path_of place) left.now.tree right.now.tree result }
    {
        let mut budget = Budget::new(self.budget);
        match compare(self.alloc, self.items, left, right, &mut budget) {
            Ok(Answer::Same) => Ok(true),
            Ok(Answer::Apart { .. }) => Ok(false),
            Err(stop) => Err(stopped(self.alloc, place, stop)),
        }
    }

    /// The head form of a side.
    pub(crate) fn head(&self, place: Place, side: &Side) -> Result<Value, Fault>
        requires { IsPlaced 4250000000 (item_sorts self.now.items.now) (class_trees side.now.class) side.now.tree }
        ensures { MeetsHeadForm self.now.items.now self.now.budget (path_of place) side.now.class side.now.tree result }
    {
        self.items.known();
        let mut budget = Budget::new(self.budget);
        match head(self.alloc, self.items, side, &mut budget) {
            Ok(value) => Ok(value),
            Err(stop) => Err(stopped(self.alloc, place, stop)),
        }
    }

    /// The type that the part of this number has is the one for which the side stands.
    pub fn type_is_side(&self, number: u32, found: &Guide, wanted: &Side) -> Result<(), Fault>
        requires class { wanted.now.class ≡ OfType }
        requires placed { ArePlaced 4200000000 (item_sorts self.now.items.now) guides found.now wanted.now.tree }
        ensures { Passes self.now.items.now self.now.budget (ask_same (number ∷ []) (mismatch found.now wanted.now.tree) found.now wanted.now.tree) result }
    {
        let found = Side::of_guide(self.alloc, found)?;
        self.compare_types(number, &found, wanted)
    }

    fn compare_types(&self, number: u32, found: &Side, wanted: &Side) -> Result<(), Fault>
        requires found { found.now.class ≡ OfType }
        requires wanted { wanted.now.class ≡ OfType }
        requires placed { ArePlaced 4200000000 (item_sorts self.now.items.now) guides found.now.tree wanted.now.tree }
        ensures { Passes self.now.items.now self.now.budget (ask_same (number ∷ []) (mismatch found.now.tree wanted.now.tree) found.now.tree wanted.now.tree) result }
    {
        if self.same(Place::Part(number), found, wanted)? {
            return Ok(());
        }
        let found = found.tree_guide(self.alloc)?;
        let wanted = wanted.tree_guide(self.alloc)?;
        Err(Fault::refusal(
            self.alloc,
            Place::Part(number),
            Why::Mismatch { found, wanted },
        ))
    }

    /// The kind that the part of this number has is the one for which the side stands.
    pub fn kind_is_side(&self, number: u32, found: &GuideKind, wanted: &Side) -> Result<(), Fault>
        requires class { wanted.now.class ≡ OfKind }
        requires placed { ArePlaced 4200000000 (item_sorts self.now.items.now) guide_kinds found.now wanted.now.tree }
        ensures { Passes self.now.items.now self.now.budget (ask_same (number ∷ []) (wrong_kind found.now (Some wanted.now.tree)) found.now wanted.now.tree) result }
    {
        let found = Side::of_guide_kind(self.alloc, found)?;
        self.compare_kinds(number, &found, wanted)
    }

    fn compare_kinds(&self, number: u32, found: &Side, wanted: &Side) -> Result<(), Fault>
        requires found { found.now.class ≡ OfKind }
        requires wanted { wanted.now.class ≡ OfKind }
        requires placed { ArePlaced 4200000000 (item_sorts self.now.items.now) guide_kinds found.now.tree wanted.now.tree }
        ensures { Passes self.now.items.now self.now.budget (ask_same (number ∷ []) (wrong_kind found.now.tree (Some wanted.now.tree)) found.now.tree wanted.now.tree) result }
    {
        if self.same(Place::Part(number), found, wanted)? {
            return Ok(());
        }
        let found = found.tree_kind()?;
        let wanted = wanted.tree_kind()?;
        Err(Fault::refusal(
            self.alloc,
            Place::Part(number),
            Why::WrongKind {
                found,
                wanted: Some(wanted),
            },
        ))
    }

    /// The head form of the type that the part of this number has.
    pub(crate) fn head_of_type(&self, number: u32, found: &Guide) -> Result<Value, Fault>
        requires { IsPlaced 4250000000 (item_sorts self.now.items.now) guides found.now }
        ensures { MeetsHeadForm self.now.items.now self.now.budget (number ∷ []) OfType found.now result }
    {
        let side = Side::of_guide(self.alloc, found)?;
        self.head(Place::Part(number), &side)
    }

    /// The head form of the kind that the part of this number has.
    fn head_of_kind(&self, number: u32, found: &GuideKind) -> Result<Value, Fault>
        requires { IsPlaced 4250000000 (item_sorts self.now.items.now) guide_kinds found.now }
        ensures { MeetsHeadForm self.now.items.now self.now.budget (number ∷ []) OfKind found.now result }
    {
        let side = Side::of_guide_kind(self.alloc, found)?;
        self.head(Place::Part(number), &side)
    }

    /// The two parts of the product or intersection that the type of the part of this number is.
    pub fn type_parts(
        &self,
        number: u32,
        former: Former,
        found: &Guide,
    ) -> Result<(Side, Side), Fault>
        requires former { Binds former }
        requires class { former_class former ≡ OfType }
        requires placed { IsPlaced 4250000000 (item_sorts self.now.items.now) guides found.now }
        ensures finds { FindsParts self.now.items.now self.now.budget
            (λ k. ask_head (number ∷ []) found.now (λ b. binder_parts (binder_of former) b k (refuse (number ∷ []) (other_form former b)))) result }
        ensures classes { IfOk result (λ p. classes (p.0 ∷ p.1 ∷ []) ≡ former_parts former) }
        ensures fits { IfOk result (λ p. (vs : List Sort) → Fits (within vs (item_sorts self.now.items.now)) guides found.now
            → Fits (within vs (item_sorts self.now.items.now)) guides (former_tree former (p.0 ∷ p.1 ∷ []))) }
    {
        let value = self.head_of_type(number, found)?;
        match split(former, value) {
            Ok(parts) => Ok(parts),
            Err(value) => Err(self.other_type(number, former, &value)),
        }
    }

    /// The refusal of a head form that is no product, or no intersection, of types.
    fn other_type(&self, number: u32, former: Former, value: &Value) -> Fault
        requires former { Binds former }
        requires class { former_class former ≡ OfType }
        requires value { IsValueOf OfType value.now }
        ensures { IsRefusal (number ∷ []) (other_form former (value_tree OfType value.now)) result }
    {
        match value.tree_guide(self.alloc) {
            Ok(head) => Fault::refusal(self.alloc, Place::Part(number), other(former, head)),
            Err(_) => Fault::NoMemory,
        }
    }

    /// The two parts of the product that the kind of the part of this number is.
    pub fn kind_parts(
        &self,
        number: u32,
        former: Former,
        found: &GuideKind,
    ) -> Result<(Side, Side), Fault>
        requires former { Binds former }
        requires class { former_class former ≡ OfKind }
        requires placed { IsPlaced 4250000000 (item_sorts self.now.items.now) guide_kinds found.now }
        ensures finds { FindsParts self.now.items.now self.now.budget
            (λ k. ask_head (number ∷ []) found.now (λ b. binder_parts (binder_of former) b k (refuse (number ∷ []) (other_form former b)))) result }
        ensures classes { IfOk result (λ p. classes (p.0 ∷ p.1 ∷ []) ≡ former_parts former) }
        ensures fits { IfOk result (λ p. (vs : List Sort) → Fits (within vs (item_sorts self.now.items.now)) guide_kinds found.now
            → Fits (within vs (item_sorts self.now.items.now)) guide_kinds (former_tree former (p.0 ∷ p.1 ∷ []))) }
    {
        let value = self.head_of_kind(number, found)?;
        match split(former, value) {
            Ok(parts) => Ok(parts),
            Err(value) => Err(self.other_kind(number, &value)),
        }
    }

    /// The refusal of a head form that is no product of kinds.
    fn other_kind(&self, number: u32, value: &Value) -> Fault
        requires { IsValueOf OfKind value.now }
        ensures { IsRefusal (number ∷ []) (wrong_kind (value_tree OfKind value.now) None) result }
    {
        let wanted = None;
        match value.tree_kind(self.alloc) {
            Ok(found) => Fault::refusal(
                self.alloc,
                Place::Part(number),
                Why::WrongKind { found, wanted },
            ),
            Err(_) => Fault::NoMemory,
        }
    }
}

/// The fault of a question at this place that was stopped.
fn stopped(alloc: Global, place: Place, stop: Stop) -> Fault
    ensures { IsStopped (path_of place) stop result }
{
    match stop {
        Stop::Spent => Fault::undecided(alloc, place),
        Stop::TooDeep => Fault::TooDeep,
        Stop::NoMemory => Fault::NoMemory,
    }
}

/// Why a head form is refused that is no product, or no intersection, of types.
fn other(former: Former, head: Kept<Guide>) -> Why
    requires former { Binds former }
    requires class { former_class former ≡ OfType }
    ensures { (a : Tree) → IsKept a head → IsWhy (other_form former a) result }
{
    match former {
        Former::Iota => Why::NotAnIntersection { head },
        _ => Why::NotAFunction { head },
    }
}

/// The two parts of a value of this form, or the value, where it is of another.
pub(crate) fn split(former: Former, value: Value) -> Result<(Side, Side), Value>
    requires two { length (former_parts former) ≡ 2 }
    requires class { IsValueOf (former_class former) value }
    ensures { IsSplit former value result }
{
    match value {
        Value::Former {
            former: found,
            mut parts,
        } => {
            if found == former {
                let right = pop(&mut parts);
                let left = pop(&mut parts);
                return Ok((left, right));
            }
            Err(Value::Former {
                former: found,
                parts,
            })
        }
        value => Err(value),
    }
}

/// Takes the last part off the list.
fn pop(parts: &mut Vec<Side>) -> Side
    requires { parts.old.items ≡ [] → ⊥ }
    ensures { parts.old.items ≡ parts.new.items ++ result ∷ [] }
{
    let Some(part) = parts.pop() else {
        unreachable!()
    };
    part
}
