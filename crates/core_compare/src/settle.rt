//! The pairs in place of two head forms.
ghost use Rattle.std.specs.Prelude.{◌≡◌, ◌+◌, ◌++◌, ◌≤◌, ◌∷◌, [], ◌↔◌, IfOk, IsTrue};
ghost use Rattle.core_reduce.specs.Values.{IsValueOf, classes};
ghost use Rattle.core_reduce.specs.declared.side.SideClass.TheVariants.{OfPure};
ghost use Rattle.core_compare.specs.Pairs.{AreForms, MeetsArguments, MeetsSettle, body_side, part_pairs};

use crate::pairs::SidePair;
use cdle_model::NoMemory;
use core_reduce::{Former, Side, Value};
use std::alloc::Global;

/// Puts the pairs in place of two head forms on the list; false where the two differ.
pub(crate) fn settle(
    alloc: Global,
    left: &Value,
    right: &Value,
    binders: u32,
    pairs: &mut Vec<SidePair>,
) -> Result<bool, NoMemory>
    requires { AreForms binders left.now right.now }
    ensures { IfOk result (λ b. MeetsSettle binders left.now right.now pairs.old.items pairs.new.items b) }
{
    match (left, right) {
        (Value::Fun(_), Value::Fun(_)) => {
            put_bodies(alloc, left, right, binders, pairs)?;
            Ok(true)
        }
        (Value::Fun(_), Value::Var { .. }) => {
            put_bodies(alloc, left, right, binders, pairs)?;
            Ok(true)
        }
        (Value::Var { .. }, Value::Fun(_)) => {
            put_bodies(alloc, left, right, binders, pairs)?;
            Ok(true)
        }
        (Value::Var { var: i, args: xs }, Value::Var { var: j, args: ys }) => {
            if *i != *j {
                return Ok(false);
            }
            put_arguments(xs, ys, binders, pairs)
        }
        (
            Value::Former {
                former: f,
                parts: ps,
            },
            Value::Former {
                former: g,
                parts: qs,
            },
        ) => {
            if !same_former(*f, *g) {
                return Ok(false);
            }
            put_parts(ps, qs, one_more(binders)?, pairs)?;
            Ok(true)
        }
        (Value::Var { .. }, Value::Former { .. }) => Ok(false),
        (Value::Former { .. }, Value::Var { .. }) => Ok(false),
        (Value::Fun(_), Value::Former { .. }) => unreachable!(),
        (Value::Former { .. }, Value::Fun(_)) => unreachable!(),
    }
}

/// One binder more, of which a pair may stand under 40,000,000.
fn one_more(binders: u32) -> Result<u32, NoMemory>
    ensures { IfOk result (λ n. (n ≡ binders + 1) × (n ≤ 40000000)) }
{
    if binders >= 40_000_000 {
        return Err(NoMemory);
    }
    Ok(binders + 1)
}

/// Puts what two pure head forms are under a new variable on the list.
fn put_bodies(
    alloc: Global,
    left: &Value,
    right: &Value,
    binders: u32,
    pairs: &mut Vec<SidePair>,
) -> Result<(), NoMemory>
    requires left { IsValueOf OfPure left.now }
    requires right { IsValueOf OfPure right.now }
    ensures { IfOk result (λ _. (binders + 1 ≤ 40000000) × (pairs.new.items ≡ pairs.old.items ++ record { left = body_side left.now; right = body_side right.now; binders = binders + 1 } ∷ [])) }
{
    let binders = one_more(binders)?;
    let left = body(alloc, left)?;
    let right = body(alloc, right)?;
    pairs.push(SidePair {
        left,
        right,
        binders,
    })?;
    Ok(())
}

/// The body of a function, or a variable with its arguments applied to the new variable.
fn body(alloc: Global, value: &Value) -> Result<Side, NoMemory>
    requires { IsValueOf OfPure value.now }
    ensures { IfOk result (λ s. s ≡ body_side value.now) }
{
    match value {
        Value::Fun(body) => body.copy(),
        _ => value.applied(alloc),
    }
}

/// Puts the pairs of the arguments of one variable on the list; false where they are not as many, or not of the same classes.
fn put_arguments(
    xs: &Vec<Side>,
    ys: &Vec<Side>,
    binders: u32,
    pairs: &mut Vec<SidePair>,
) -> Result<bool, NoMemory>
    ensures { IfOk result (λ b. MeetsArguments binders xs.now.items ys.now.items pairs.old.items pairs.new.items b) }
{
    if !same_classes(xs, ys) {
        return Ok(false);
    }
    put_parts(xs, ys, binders, pairs)?;
    Ok(true)
}

/// Whether the sides are as many, and of the same classes.
fn same_classes(xs: &Vec<Side>, ys: &Vec<Side>) -> bool
    ensures { IsTrue result ↔ classes xs.now.items ≡ classes ys.now.items }
{
    if xs.len() != ys.len() {
        return false;
    }
    let mut k = 0;
    'compared: while k < xs.len() {
        if !same_class(&xs[k], &ys[k]) {
            return false;
        }
        k += 1;
    }
    true
}

fn same_class(x: &Side, y: &Side) -> bool
    ensures { IsTrue result ↔ x.now.class ≡ y.now.class }
{
    x.class() == y.class()
}

fn same_former(x: Former, y: Former) -> bool
    ensures { IsTrue result ↔ x ≡ y }
{
    x == y
}

/// Puts the pairs of parts on the list, the last first, so that the first is the next.
fn put_parts(
    xs: &Vec<Side>,
    ys: &Vec<Side>,
    binders: u32,
    pairs: &mut Vec<SidePair>,
) -> Result<(), NoMemory>
    requires { classes xs.now.items ≡ classes ys.now.items }
    ensures { IfOk result (λ _. pairs.new.items ≡ pairs.old.items ++ part_pairs binders xs.now.items ys.now.items) }
{
    let mut k = xs.len();
    'parts: while k > 0 {
        k -= 1;
        let left = xs[k].copy()?;
        let right = ys[k].copy()?;
        pairs.push(SidePair {
            left,
            right,
            binders,
        })?;
    }
    Ok(())
}
