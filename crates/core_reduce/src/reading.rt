//! Head forms as trees.
ghost use Rattle.std.specs.Prelude.{◌≡◌, ◌<◌, ◌≤◌, ◌∷◌, [], IfOk, MatchOption};
ghost use Rattle.cdle_model.specs.Depth.{depth};
ghost use Rattle.cdle_model.specs.Forms.{fn};
ghost use Rattle.cdle_model.specs.Trees.{apply, var};
ghost use Rattle.core_reduce.specs.Sides.{whole_class, whole_tree, whole_sided};
ghost use Rattle.core_tree.specs.Faults.{IsKept};
ghost use Rattle.core_reduce.specs.Values.{AreArguments, IsArgument, IsPart, IsValueOf, applied_by, applied_to, classes, former_class, former_parts, former_tree, value_tree};
ghost use Rattle.core_reduce.specs.declared.side.SideClass.TheVariants.{OfPure, OfType, OfKind};

use crate::side::{Side, SideClass};
use crate::value::{Former, Value};
use crate::whole::Whole;
use cdle_model::NoMemory;
use core_tree::{Guide, GuideKind, Kept, Pure};
use std::alloc::Global;
use std::rc::Rc;

impl Value {
    /// The pure term as one tree.
    pub fn tree_pure(&self, alloc: Global) -> Result<Kept<Pure>, NoMemory>
        requires { IsValueOf OfPure self.now }
        ensures { IfOk result (λ k. IsKept (value_tree OfPure self.now) k) }
    {
        match self {
            Value::Fun(body) => function(alloc, body),
            Value::Var { var, args } => pure_variable(alloc, *var, args),
            Value::Former { .. } => unreachable!(),
        }
    }

    /// The erased type as one tree.
    pub fn tree_guide(&self, alloc: Global) -> Result<Kept<Guide>, NoMemory>
        requires { IsValueOf OfType self.now }
        ensures { IfOk result (λ k. IsKept (value_tree OfType self.now) k) }
    {
        match self {
            Value::Var { var, args } => guide_variable(alloc, *var, args),
            Value::Former { former, parts } => guide_former(alloc, *former, parts),
            Value::Fun(_) => unreachable!(),
        }
    }

    /// The erased kind as one tree.
    pub fn tree_kind(&self, alloc: Global) -> Result<Kept<GuideKind>, NoMemory>
        requires { IsValueOf OfKind self.now }
        ensures { IfOk result (λ k. IsKept (value_tree OfKind self.now) k) }
    {
        match self {
            Value::Former { former, parts } => kind_former(alloc, *former, parts),
            Value::Fun(_) => unreachable!(),
            Value::Var { .. } => unreachable!(),
        }
    }
}

fn function(alloc: Global, body: &Side) -> Result<Kept<Pure>, NoMemory>
    requires { body.now.class ≡ OfPure }
    ensures { IfOk result (λ k. IsKept (fn body.now.tree) k) }
{
    let Some(body) = part(alloc, body)? else {
        return Ok(Kept::Deep)
    };
    Ok(Kept::Whole(Pure::function(alloc, body.pure())?))
}

/// The side as one tree, unless it is too deep for one more form over it.
fn part(alloc: Global, side: &Side) -> Result<Option<Rc<Whole>>, NoMemory>
    ensures { IfOk result (λ o. MatchOption o (4096 ≤ depth side.now.tree) (λ r. IsPart side.now r.value)) }
{
    match side.class() {
        SideClass::OfPure => {
            let Kept::Whole(tree) = side.tree_pure(alloc)? else {
                return Ok(None)
            };
            low(alloc, Whole::Pure(tree))
        }
        SideClass::OfType => {
            let Kept::Whole(tree) = side.tree_guide(alloc)? else {
                return Ok(None)
            };
            low(alloc, Whole::Guide(tree))
        }
        SideClass::OfKind => {
            let Kept::Whole(tree) = side.tree_kind()? else {
                return Ok(None)
            };
            low(alloc, Whole::Kind(tree))
        }
    }
}

/// The tree, unless it is too deep for one more form over it.
fn low(alloc: Global, tree: Whole) -> Result<Option<Rc<Whole>>, NoMemory>
    ensures { IfOk result (λ o. MatchOption o (4096 ≤ depth (whole_tree tree)) (λ r. IsPart (whole_sided tree) r.value)) }
{
    if tree.depth() >= 4096 {
        return Ok(None);
    }
    Ok(Some(Rc::new(alloc, tree)?))
}

fn pure_variable(alloc: Global, index: u32, args: &Vec<Side>) -> Result<Kept<Pure>, NoMemory>
    requires { AreArguments OfPure args.now.items }
    ensures { IfOk result (λ k. IsKept (applied_to OfPure (var index) args.now.items) k) }
{
    let mut tree = Pure::var(alloc, index)?;
    let mut k = 0;
    'build: while k < args.len() {
        let Kept::Whole(next) = pure_applied(alloc, &tree, &args[k])? else {
            return Ok(Kept::Deep);
        };
        tree = next;
        k += 1;
    }
    Ok(Kept::Whole(tree))
}

fn pure_applied(alloc: Global, head: &Pure, arg: &Side) -> Result<Kept<Pure>, NoMemory>
    requires { IsArgument OfPure arg.now.class }
    ensures { IfOk result (λ k. IsKept (apply (applied_by OfPure arg.now.class) head.now arg.now.tree) k) }
{
    if head.depth() >= 4096 {
        return Ok(Kept::Deep);
    }
    let Some(arg) = part(alloc, arg)? else {
        return Ok(Kept::Deep)
    };
    Ok(Kept::Whole(Pure::ap(alloc, head, arg.pure())?))
}

fn guide_variable(alloc: Global, index: u32, args: &Vec<Side>) -> Result<Kept<Guide>, NoMemory>
    requires { AreArguments OfType args.now.items }
    ensures { IfOk result (λ k. IsKept (applied_to OfType (var index) args.now.items) k) }
{
    let mut tree = Guide::var(alloc, index)?;
    let mut k = 0;
    'build: while k < args.len() {
        let Kept::Whole(next) = guide_applied(alloc, &tree, &args[k])? else {
            return Ok(Kept::Deep);
        };
        tree = next;
        k += 1;
    }
    Ok(Kept::Whole(tree))
}

fn guide_applied(alloc: Global, head: &Guide, arg: &Side) -> Result<Kept<Guide>, NoMemory>
    requires { IsArgument OfType arg.now.class }
    ensures { IfOk result (λ k. IsKept (apply (applied_by OfType arg.now.class) head.now arg.now.tree) k) }
{
    if head.depth() >= 4096 {
        return Ok(Kept::Deep);
    }
    let Some(arg) = part(alloc, arg)? else {
        return Ok(Kept::Deep)
    };
    match &*arg {
        Whole::Pure(arg) => Ok(Kept::Whole(Guide::at(alloc, head, arg)?)),
        Whole::Guide(arg) => Ok(Kept::Whole(Guide::on(alloc, head, arg)?)),
        Whole::Kind(_) => unreachable!(),
    }
}

fn guide_former(alloc: Global, former: Former, parts: &Vec<Side>) -> Result<Kept<Guide>, NoMemory>
    requires class { former_class former ≡ OfType }
    requires parts { classes parts.now.items ≡ former_parts former }
    ensures { IfOk result (λ k. IsKept (former_tree former parts.now.items) k) }
{
    match former {
        Former::Tlam | Former::Xtlam => guide_of_one(alloc, former, &parts[0]),
        _ => guide_of_two(alloc, former, &parts[0], &parts[1]),
    }
}

fn guide_of_one(alloc: Global, former: Former, body: &Side) -> Result<Kept<Guide>, NoMemory>
    requires class { former_class former ≡ OfType }
    requires parts { former_parts former ≡ body.now.class ∷ [] }
    ensures { IfOk result (λ k. IsKept (former_tree former (body.now ∷ [])) k) }
{
    let Some(body) = part(alloc, body)? else {
        return Ok(Kept::Deep)
    };
    match former {
        Former::Tlam => Ok(Kept::Whole(Guide::tlam(alloc, body.guide())?)),
        Former::Xtlam => Ok(Kept::Whole(Guide::xtlam(alloc, body.guide())?)),
        _ => unreachable!(),
    }
}

fn guide_of_two(
    alloc: Global,
    former: Former,
    left: &Side,
    right: &Side,
) -> Result<Kept<Guide>, NoMemory>
    requires class { former_class former ≡ OfType }
    requires parts { former_parts former ≡ left.now.class ∷ right.now.class ∷ [] }
    ensures { IfOk result (λ k. IsKept (former_tree former (left.now ∷ right.now ∷ [])) k) }
{
    let Some(left) = part(alloc, left)? else {
        return Ok(Kept::Deep)
    };
    let Some(right) = part(alloc, right)? else {
        return Ok(Kept::Deep)
    };
    Ok(Kept::Whole(guide_over(alloc, former, &left, &right)?))
}

/// The form over two trees.
fn guide_over(alloc: Global, former: Former, left: &Whole, right: &Whole) -> Result<Guide, NoMemory>
    requires class { former_class former ≡ OfType }
    requires parts { former_parts former ≡ whole_class left.now ∷ whole_class right.now ∷ [] }
    requires left { depth (whole_tree left.now) < 4096 }
    requires right { depth (whole_tree right.now) < 4096 }
    ensures { IfOk result (λ t. t ≡ former_tree former (whole_sided left.now ∷ whole_sided right.now ∷ [])) }
{
    match former {
        Former::Pi => Guide::pi(alloc, left.guide(), right.guide()),
        Former::All => Guide::all(alloc, left.guide(), right.guide()),
        Former::Allt => Guide::allt(alloc, left.kind(), right.guide()),
        Former::At => Guide::at(alloc, left.guide(), right.pure()),
        Former::On => Guide::on(alloc, left.guide(), right.guide()),
        Former::Iota => Guide::iota(alloc, left.guide(), right.guide()),
        Former::Eq => Guide::eq(alloc, left.pure(), right.pure()),
        _ => unreachable!(),
    }
}

fn kind_former(
    alloc: Global,
    former: Former,
    parts: &Vec<Side>,
) -> Result<Kept<GuideKind>, NoMemory>
    requires class { former_class former ≡ OfKind }
    requires parts { classes parts.now.items ≡ former_parts former }
    ensures { IfOk result (λ k. IsKept (former_tree former parts.now.items) k) }
{
    match former {
        Former::Star => Ok(Kept::Whole(GuideKind::star(alloc)?)),
        _ => kind_of_two(alloc, former, &parts[0], &parts[1]),
    }
}

fn kind_of_two(
    alloc: Global,
    former: Former,
    left: &Side,
    right: &Side,
) -> Result<Kept<GuideKind>, NoMemory>
    requires class { former_class former ≡ OfKind }
    requires parts { former_parts former ≡ left.now.class ∷ right.now.class ∷ [] }
    ensures { IfOk result (λ k. IsKept (former_tree former (left.now ∷ right.now ∷ [])) k) }
{
    let Some(left) = part(alloc, left)? else {
        return Ok(Kept::Deep)
    };
    let Some(right) = part(alloc, right)? else {
        return Ok(Kept::Deep)
    };
    Ok(Kept::Whole(kind_over(alloc, former, &left, &right)?))
}

/// The form over two trees.
fn kind_over(
    alloc: Global,
    former: Former,
    left: &Whole,
    right: &Whole,
) -> Result<GuideKind, NoMemory>
    requires class { former_class former ≡ OfKind }
    requires parts { former_parts former ≡ whole_class left.now ∷ whole_class right.now ∷ [] }
    requires left { depth (whole_tree left.now) < 4096 }
    requires right { depth (whole_tree right.now) < 4096 }
    ensures { IfOk result (λ t. t ≡ former_tree former (whole_sided left.now ∷ whole_sided right.now ∷ [])) }
{
    match former {
        Former::Kpi => GuideKind::kpi(alloc, left.guide(), right.kind()),
        Former::Kpit => GuideKind::kpit(alloc, left.kind(), right.kind()),
        _ => unreachable!(),
    }
}
