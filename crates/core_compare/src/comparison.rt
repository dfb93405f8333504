//! The comparison, by the list of the pairs that are left.
ghost use Rattle.std.specs.Prelude.{◌≡◌, ◌≤◌, []};
ghost use Rattle.cdle_model.specs.Classes.{item_sorts};
ghost use Rattle.cdle_model.specs.Comparison.{same_name as names_same};
ghost use Rattle.cdle_model.specs.Derivation.{bodies, signature};
ghost use Rattle.core_reduce.specs.Sides.{class_trees};
ghost use Rattle.core_compare.specs.Answers.{AnswersSo, ArePlaced, Decides, MeetsCompare, MeetsPairs};
ghost use Rattle.core_compare.specs.Pairs.{AreComparable, IsComparable, MeetsTurn, stack};

use crate::pairs::SidePair;
use crate::settle::settle;
use core_reduce::{Budget, CheckedItems, Side, Stop, Value, head};
use std::alloc::Global;

/// What the comparison of two sides says.
#[derive(Drop)]
pub enum Answer {
    /// The two are joined.
    Same,
    /// The two are not joined: these are two head forms that differ, of a pair of their parts.
    Apart { left: Value, right: Value },
}

/// What became of a pair.
#[derive(Drop)]
enum Next {
    On,
    Apart { left: Value, right: Value },
}

/// The comparison of two sides of one class in one context over the items, with the units of the budget.
pub fn compare(
    alloc: Global,
    items: &CheckedItems,
    left: &Side,
    right: &Side,
    budget: &mut Budget,
) -> Result<Answer, Stop>
    requires class { left.now.class ≡ right.now.class }
    requires placed { ArePlaced 4200000000 (item_sorts items.now) (class_trees left.now.class) left.now.tree right.now.tree }
    ensures answer { MeetsCompare (bodies (signature items.now)) left.now.tree right.now.tree budget.old.left result }
    ensures so { AnswersSo (bodies (signature items.now)) left.now.tree right.now.tree budget.old.left result }
    ensures decides { Decides (bodies (signature items.now)) left.now.tree right.now.tree result }
    ensures less { budget.new.left ≤ budget.old.left }
{
    items.known();
    let first = SidePair {
        left: left.copy()?,
        right: right.copy()?,
        binders: 0,
    };
    let mut pairs = Vec::new(alloc);
    pairs.push(first)?;
    compare_pairs(alloc, items, pairs, budget)
}

/// The comparison of all pairs of the list, of which the last is the next.
fn compare_pairs(
    alloc: Global,
    items: &CheckedItems,
    mut pairs: Vec<SidePair>,
    budget: &mut Budget,
) -> Result<Answer, Stop>
    requires { AreComparable (item_sorts items.now) pairs.items }
    ensures answer { MeetsPairs (bodies (signature items.now)) (stack [] pairs.items) budget.old.left result }
    ensures less { budget.new.left ≤ budget.old.left }
{
    'pairs: while let Some(pair) = pairs.pop() {
        if !budget.take() {
            return Err(Stop::Spent);
        }
        match turn(alloc, items, &pair, &mut pairs, budget) {
            Ok(Next::On) => {}
            Ok(Next::Apart { left, right }) => return Ok(Answer::Apart { left, right }),
            Err(stop) => return Err(stop),
        }
    }
    Ok(Answer::Same)
}

/// A pair whose unit was taken: its parts are put on the list, or it is apart.
fn turn(
    alloc: Global,
    items: &CheckedItems,
    pair: &SidePair,
    pairs: &mut Vec<SidePair>,
    budget: &mut Budget,
) -> Result<Next, Stop>
    requires { IsComparable (item_sorts items.now) pair.now }
    ensures turn { MeetsTurn (item_sorts items.now) (bodies (signature items.now)) pair.now.left.tree pair.now.right.tree pairs.old.items pairs.new.items budget.old.left budget.new.left result }
    ensures less { budget.new.left ≤ budget.old.left }
{
    if same_name(&pair.left, &pair.right) {
        return Ok(Next::On);
    }
    items.known();
    let left = match head(alloc, items, &pair.left, budget) {
        Ok(value) => value,
        Err(stop) => return Err(stop),
    };
    let right = match head(alloc, items, &pair.right, budget) {
        Ok(value) => value,
        Err(stop) => return Err(stop),
    };
    if settle(alloc, &left, &right, pair.binders, pairs)? {
        Ok(Next::On)
    } else {
        Ok(Next::Apart { left, right })
    }
}

/// Whether both sides are the same name.
fn same_name(left: &Side, right: &Side) -> bool
    ensures { result ≡ names_same left.now.tree right.now.tree }
{
    match (left.name(), right.name()) {
        (Some(left), Some(right)) => left == right,
        _ => false,
    }
}
