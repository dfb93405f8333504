//! The comparison, by the list of the pairs that are left.
ghost use Rattle.std.specs.Prelude.{◌≡◌, ◌∷◌, []};
ghost use Rattle.cdle_model.specs.Comparison.{compare as definition, same_name as names_same, taken};
ghost use Rattle.cdle_model.specs.HeadForms.{head_step, none};
ghost use Rattle.elab_convert.specs.Answers.{IsAnswer, IsCompared, IsMeeting, IsTurn};
ghost use Rattle.elab_convert.specs.Bodies.{erased_bodies};
ghost use Rattle.elab_convert.specs.Formers.{part_tree};
ghost use Rattle.elab_convert.specs.Sides.{IsForm, form_tree, pair_trees, side_tree, stack};

use crate::head::head;
use crate::settle::{put_parts, settle};
use crate::side::{HeadForm, Part, Side, SidePair};
use crate::stop::{ConvertStop, Units};
use elab_tree::{EGuide, EGuideKind, EPure, Env};
use std::alloc::Global;

/// Whether the two pure terms are the same over the items, with so many units.
pub fn convert_terms(
    alloc: Global,
    env: &Env,
    left: &EPure,
    right: &EPure,
    units: u64,
) -> Result<bool, ConvertStop>
    ensures { IsAnswer (definition (erased_bodies env.now) units left.now right.now) result }
{
    compare(alloc, env, Part::Term(left), Part::Term(right), units)
}

/// Whether the two erased types are the same over the items, with so many units.
pub fn convert_types(
    alloc: Global,
    env: &Env,
    left: &EGuide,
    right: &EGuide,
    units: u64,
) -> Result<bool, ConvertStop>
    ensures { IsAnswer (definition (erased_bodies env.now) units left.now right.now) result }
{
    compare(alloc, env, Part::OfType(left), Part::OfType(right), units)
}

/// Whether the two erased kinds are the same over the items, with so many units.
pub fn convert_kinds(
    alloc: Global,
    env: &Env,
    left: &EGuideKind,
    right: &EGuideKind,
    units: u64,
) -> Result<bool, ConvertStop>
    ensures { IsAnswer (definition (erased_bodies env.now) units left.now right.now) result }
{
    compare(alloc, env, Part::Kind(left), Part::Kind(right), units)
}

/// The comparison of two trees of one class.
fn compare(
    alloc: Global,
    env: &Env,
    left: Part<'_>,
    right: Part<'_>,
    units: u64,
) -> Result<bool, ConvertStop>
    ensures { IsAnswer (definition (erased_bodies env.now) units (part_tree left.entry) (part_tree right.entry)) result }
{
    let mut pairs = Vec::new(alloc);
    put_parts(alloc, left, right, &mut pairs)?;
    compare_pairs(alloc, env, pairs, units)
}

/// The comparison of all pairs of the list, of which the last is the next.
fn compare_pairs(
    alloc: Global,
    env: &Env,
    mut pairs: Vec<SidePair>,
    units: u64,
) -> Result<bool, ConvertStop>
    ensures { IsCompared (erased_bodies env.now) units (stack [] pairs.items) result }
{
    let mut left = Units { left: units };
    'pairs: while let Some(pair) = pairs.pop() {
        match turn(alloc, env, pair, &mut pairs, &mut left) {
            Ok(true) => {}
            Ok(false) => return Ok(false),
            Err(stop) => return Err(stop),
        }
    }
    Ok(true)
}

/// One pair is taken: the pairs of its parts are put on the list, or it is apart.
fn turn(
    alloc: Global,
    env: &Env,
    pair: SidePair,
    pairs: &mut Vec<SidePair>,
    left: &mut Units,
) -> Result<bool, ConvertStop>
    ensures { IsTurn (erased_bodies env.now) left.old.left (pair_trees pair ∷ stack [] pairs.old.items) left.new.left (stack [] pairs.new.items) result }
{
    if !left.take() {
        return Err(ConvertStop::Spent);
    }
    if same_name(&pair.left, &pair.right) {
        return Ok(true);
    }
    meet(alloc, env, pair, pairs, left)
}

/// The two of a pair that was taken are brought to their head forms, first the left.
fn meet(
    alloc: Global,
    env: &Env,
    pair: SidePair,
    pairs: &mut Vec<SidePair>,
    left: &mut Units,
) -> Result<bool, ConvertStop>
    ensures { IsMeeting (erased_bodies env.now) left.old.left (taken (side_tree pair.left) (side_tree pair.right) (stack [] pairs.old.items)) left.new.left (stack [] pairs.new.items) result }
{
    let SidePair { left: a, right: b } = pair;
    let a = match head(alloc, env, a, left) {
        Ok(form) => form,
        Err(stop) => return Err(stop),
    };
    meet_form(alloc, env, &a, b, pairs, left)
}

/// The right one is brought to its head form too, and their parts are put on the list.
fn meet_form(
    alloc: Global,
    env: &Env,
    a: &HeadForm,
    b: Side,
    pairs: &mut Vec<SidePair>,
    left: &mut Units,
) -> Result<bool, ConvertStop>
    requires form { IsForm a.now }
    requires still { head_step (erased_bodies env.now) (form_tree a.now) ≡ none }
    ensures { IsMeeting (erased_bodies env.now) left.old.left (taken (form_tree a.now) (side_tree b) (stack [] pairs.old.items)) left.new.left (stack [] pairs.new.items) result }
{
    let b = match head(alloc, env, b, left) {
        Ok(form) => form,
        Err(stop) => return Err(stop),
    };
    Ok(settle(alloc, a, &b, pairs)?)
}

/// Whether both sides are the same name.
fn same_name(left: &Side, right: &Side) -> bool
    ensures { result ≡ names_same (side_tree left.now) (side_tree right.now) }
{
    match (left.item(), right.item()) {
        (Some(left), Some(right)) => left == right,
        _ => false,
    }
}
