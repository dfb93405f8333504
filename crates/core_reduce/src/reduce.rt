//! Bringing a side to its head form.
ghost use Rattle.std.specs.Prelude.{◌≡◌, ℕ, ◌++◌, ◌<◌, ◌≤◌, ◌∷◌, [], IfOk, IsFalse, IsTrue, List, drop, length};
ghost use Rattle.cdle_model.specs.Classes.{Fits, IsOf, UsedAs, guides, item_sorts, pure_terms, within};
ghost use Rattle.cdle_model.specs.Derivation.{bodies, signature};
ghost use Rattle.cdle_model.specs.Forms.{ap, at_, fn, guide_tlam, guide_xtlam, on};
ghost use Rattle.cdle_model.specs.Trees.{IsBelow, Tree, apply, name, put};
ghost use Rattle.cdle_model.specs.declared.grammar.Sort.{Sort};
ghost use Rattle.cdle_model.specs.declared.grammar.Sort.TheVariants.{OfTerm, OfType as OfTypes};
ghost use Rattle.core_tree.specs.Nodes.{PutGives};
ghost use Rattle.core_reduce.specs.Heads.{HeadSo, IsStill, MeetsHead, MeetsStep, as_guide, as_pure, innermost, put_stop_of, reached, seen};
ghost use Rattle.core_reduce.specs.Sides.{IsPlaced, arg_function, arg_tree, class_trees, root_class, root_tree, spine};
ghost use Rattle.core_reduce.specs.Values.{StandsFor};
ghost use Rattle.core_reduce.specs.declared.root.Root.TheVariants as root;
ghost use Rattle.core_reduce.specs.declared.root.Arg.{Arg};
ghost use Rattle.core_reduce.specs.declared.root.Arg.TheVariants.{Ap, At, On};
ghost use Rattle.core_reduce.specs.declared.side.SideClass.{SideClass};
ghost use Rattle.core_reduce.specs.declared.side.SideClass.TheVariants.{OfPure, OfType};
ghost use Rattle.core_reduce.specs.declared.reduce.Stop.TheVariants.{NoMemory as Wanted};

use crate::budget::Budget;
use crate::items::CheckedItems;
use crate::root::{Applied, Arg, Root};
use crate::side::Side;
use crate::value::{Value, value_of};
use cdle_model::NoMemory;
use core_tree::{Guide, GuideForm, Pure, PureForm, PutStop};
use core_view::{GuideTop, GuideView, GuideViewForm, PureTop, PureView, PureViewForm};
use std::alloc::{AllocError, AllocFailed, Global};
use std::rc::Rc;

/// Why there is no answer.
#[derive(Clone, Copy, Debug, PartialEq, Eq)]
pub enum Stop {
    /// More units are needed than the budget holds.
    Spent,
    /// A contraction gives a tree that is deeper than 4,096.
    TooDeep,
    NoMemory,
}

impl From<NoMemory> for Stop {
    ghost from_gives = { λ _ e. e ≡ Wanted };

    fn from(_: NoMemory) -> Stop {
        Stop::NoMemory
    }
}

impl From<AllocError> for Stop {
    ghost from_gives = { λ _ e. e ≡ Wanted };

    fn from(_: AllocError) -> Stop {
        Stop::NoMemory
    }
}

impl<T: Drop> From<AllocFailed<T>> for Stop {
    ghost from_gives = { λ _ e. e ≡ Wanted };

    fn from(_: AllocFailed<T>) -> Stop {
        Stop::NoMemory
    }
}

/// The head form of the side over the items, with the units of the budget.
pub fn head(
    alloc: Global,
    items: &CheckedItems,
    at: &Side,
    budget: &mut Budget,
) -> Result<Value, Stop>
    requires { IsPlaced 4250000000 (item_sorts items.now) (class_trees at.now.class) at.now.tree }
    ensures form { MeetsHead (bodies (signature items.now)) at.now.class at.now.tree budget.old.left budget.new.left result }
    ensures so { HeadSo (bodies (signature items.now)) at.now.class at.now.tree budget.old.left result }
    ensures less { budget.new.left ≤ budget.old.left }
{
    if is_still(&at.node.head, &at.node.args, at.from) {
        return Ok(value_of(alloc, &at.node, at.from)?);
    }
    let args = copy(alloc, &at.node.args, at.from)?;
    let now = at.node.head.share()?;
    reduce(alloc, items, now, args, budget)
}

/// The arguments from the place `from` on.
fn copy(alloc: Global, args: &Vec<Arg>, from: usize) -> Result<Vec<Arg>, NoMemory>
    requires { from ≤ length args.now.items }
    ensures { IfOk result (λ copy. copy.items ≡ drop from args.now.items) }
{
    let mut all = Vec::new(alloc);
    let mut k = from;
    'copied: while k < args.len() {
        all.push(args[k].share()?)?;
        k += 1;
    }
    Ok(all)
}

/// Whether a head with the arguments from the place `from` on has no step.
fn is_still(now: &Root, args: &Vec<Arg>, from: usize) -> bool
    requires { from ≤ length args.now.items }
    ensures still { IsTrue result → IsStill (root_tree now.now) (innermost (drop from args.now.items)) }
    ensures moves { IsFalse result → IsStill (root_tree now.now) (innermost (drop from args.now.items)) → ⊥ }
{
    let arg = last(args, from);
    match now {
        Root::Pure(term) => is_still_pure(term, arg),
        Root::Guide(guide) => is_still_guide(guide, arg),
        Root::Kind(kind) => {
            kind.known();
            true
        }
    }
}

/// The innermost of the arguments from the place `from` on.
fn last(args: &Vec<Arg>, from: usize) -> Option<&Arg>
    requires { from ≤ length args.now.items }
    ensures { innermost (drop from args.now.items) ≡ seen result }
{
    if from < args.len() {
        Some(&args[args.len() - 1])
    } else {
        None
    }
}

fn is_still_pure(now: &PureView, arg: Option<&Arg>) -> bool
    ensures still { IsTrue result → IsStill now.now (seen arg.entry) }
    ensures moves { IsFalse result → IsStill now.now (seen arg.entry) → ⊥ }
{
    match now.top() {
        PureTop::Var => true,
        PureTop::Function => !matches!(arg, Some(Arg::Ap(_))),
        PureTop::Name(_) => false,
        PureTop::Ap => false,
    }
}

fn is_still_guide(now: &GuideView, arg: Option<&Arg>) -> bool
    ensures still { IsTrue result → IsStill now.now (seen arg.entry) }
    ensures moves { IsFalse result → IsStill now.now (seen arg.entry) → ⊥ }
{
    now.known();
    match now.top() {
        GuideTop::Tlam => !matches!(arg, Some(Arg::At(_))),
        GuideTop::Xtlam => !matches!(arg, Some(Arg::On(_))),
        GuideTop::Name(_) => false,
        GuideTop::At => false,
        GuideTop::On => false,
        _ => true,
    }
}

/// The head form of a head with its arguments.
fn reduce(
    alloc: Global,
    items: &CheckedItems,
    mut now: Root,
    mut args: Vec<Arg>,
    budget: &mut Budget,
) -> Result<Value, Stop>
    requires placed { IsPlaced 4250000000 (item_sorts items.now) (class_trees (root_class now)) (spine (root_tree now) args.items) }
    ensures form { MeetsHead (bodies (signature items.now)) (root_class now) (spine (root_tree now) args.items) budget.old.left budget.new.left result }
    ensures less { budget.new.left ≤ budget.old.left }
{
    items.known();
    'steps: while !is_still(&now, &args, 0) {
        match advance(alloc, items, &mut now, &mut args, budget) {
            Ok(()) => {}
            Err(stop) => return Err(stop),
        }
    }
    let value = value_with(alloc, now, args)?;
    Ok(value)
}

/// The head form that a head with its arguments is.
fn value_with(alloc: Global, head: Root, args: Vec<Arg>) -> Result<Value, NoMemory>
    requires class { IsOf (class_trees (root_class head)) (spine (root_tree head) args.items) }
    requires still { IsStill (root_tree head) (innermost args.items) }
    ensures { IfOk result (λ v. StandsFor (root_class head) v (spine (root_tree head) args.items)) }
{
    let node = Rc::new(alloc, Applied { head, args })?;
    value_of(alloc, &node, 0)
}

/// One move of a head in its place: an argument of it is put on the list, or a contraction or an unfolding is made.
fn advance(
    alloc: Global,
    items: &CheckedItems,
    now: &mut Root,
    args: &mut Vec<Arg>,
    budget: &mut Budget,
) -> Result<(), Stop>
    requires placed { IsPlaced 4250000000 (item_sorts items.now) (class_trees (root_class now.old)) (spine (root_tree now.old) args.old.items) }
    requires moves { IsStill (root_tree now.old) (innermost args.old.items) → ⊥ }
    ensures step { MeetsStep (bodies (signature items.now)) (root_class now.old) (root_tree now.old) args.old.items budget.old.left args.new.items budget.new.left (reached now.new result) }
    ensures less { budget.new.left ≤ budget.old.left }
{
    match now {
        Root::Pure(now) => advance_pure(alloc, items, now, args, budget),
        Root::Guide(now) => advance_guide(alloc, items, now, args, budget),
        Root::Kind(now) => {
            now.known();
            unreachable!()
        }
    }
}

/// The same of a pure term. Most are at their own nodes, of which the parts are shared, and not read.
fn advance_pure(
    alloc: Global,
    items: &CheckedItems,
    now: &mut PureView,
    args: &mut Vec<Arg>,
    budget: &mut Budget,
) -> Result<(), Stop>
    requires placed { IsPlaced 4250000000 (item_sorts items.now) pure_terms (spine now.old args.old.items) }
    requires moves { IsStill now.old (innermost args.old.items) → ⊥ }
    ensures step { MeetsStep (bodies (signature items.now)) OfPure now.old args.old.items budget.old.left args.new.items budget.new.left (reached (root.Pure now.new) result) }
    ensures less { budget.new.left ≤ budget.old.left }
{
    let Some(own) = now.own() else {
        return advance_pure_read(alloc, items, now, args, budget);
    };
    match own.form() {
        PureForm::Name(item) => {
            let next = unfold(items, *item, budget);
            move_pure(now, next)
        }
        PureForm::Function(body) => {
            let next = apply_own(alloc, body, args, budget);
            set_pure(now, next)
        }
        PureForm::Ap(head, arg) => {
            let next = unwind_ap(head, arg, args);
            set_pure(now, next)
        }
        PureForm::Var(_) => unreachable!(),
    }
}

/// The same where it is read, which gives its parts by value.
fn advance_pure_read(
    alloc: Global,
    items: &CheckedItems,
    now: &mut PureView,
    args: &mut Vec<Arg>,
    budget: &mut Budget,
) -> Result<(), Stop>
    requires placed { IsPlaced 4250000000 (item_sorts items.now) pure_terms (spine now.old args.old.items) }
    requires moves { IsStill now.old (innermost args.old.items) → ⊥ }
    ensures step { MeetsStep (bodies (signature items.now)) OfPure now.old args.old.items budget.old.left args.new.items budget.new.left (reached (root.Pure now.new) result) }
    ensures less { budget.new.left ≤ budget.old.left }
{
    let form = now.form(alloc)?;
    match form {
        PureViewForm::Name(item) => move_pure(now, unfold(items, item, budget)),
        PureViewForm::Function(body) => set_pure(now, apply_ap(alloc, &body, args, budget)),
        PureViewForm::Ap(head, arg) => {
            move_pure(now, unwind(Root::Pure(head), Arg::Ap(arg), args))
        }
        PureViewForm::Var(_) => unreachable!(),
    }
}

fn advance_guide(
    alloc: Global,
    items: &CheckedItems,
    now: &mut GuideView,
    args: &mut Vec<Arg>,
    budget: &mut Budget,
) -> Result<(), Stop>
    requires placed { IsPlaced 4250000000 (item_sorts items.now) guides (spine now.old args.old.items) }
    requires moves { IsStill now.old (innermost args.old.items) → ⊥ }
    ensures step { MeetsStep (bodies (signature items.now)) OfType now.old args.old.items budget.old.left args.new.items budget.new.left (reached (root.Guide now.new) result) }
    ensures less { budget.new.left ≤ budget.old.left }
{
    let Some(own) = now.own() else {
        return advance_guide_read(alloc, items, now, args, budget);
    };
    match own.form() {
        GuideForm::Name(item) => {
            let next = unfold(items, *item, budget);
            move_guide(now, next)
        }
        GuideForm::Tlam(body) => {
            let body = GuideView::of_guide(body)?;
            set_guide(now, apply_at(alloc, &body, args, budget))
        }
        GuideForm::Xtlam(body) => {
            let body = GuideView::of_guide(body)?;
            set_guide(now, apply_on(alloc, &body, args, budget))
        }
        GuideForm::At(head, arg) => {
            let next = unwind_at(head, arg, args);
            set_guide(now, next)
        }
        GuideForm::On(head, arg) => {
            let next = unwind_on(head, arg, args);
            set_guide(now, next)
        }
        _ => unreachable!(),
    }
}

fn advance_guide_read(
    alloc: Global,
    items: &CheckedItems,
    now: &mut GuideView,
    args: &mut Vec<Arg>,
    budget: &mut Budget,
) -> Result<(), Stop>
    requires placed { IsPlaced 4250000000 (item_sorts items.now) guides (spine now.old args.old.items) }
    requires moves { IsStill now.old (innermost args.old.items) → ⊥ }
    ensures step { MeetsStep (bodies (signature items.now)) OfType now.old args.old.items budget.old.left args.new.items budget.new.left (reached (root.Guide now.new) result) }
    ensures less { budget.new.left ≤ budget.old.left }
{
    let form = now.form(alloc)?;
    match form {
        GuideViewForm::Name(item) => move_guide(now, unfold(items, item, budget)),
        GuideViewForm::Tlam(body) => set_guide(now, apply_at(alloc, &body, args, budget)),
        GuideViewForm::Xtlam(body) => set_guide(now, apply_on(alloc, &body, args, budget)),
        GuideViewForm::At(head, arg) => {
            move_guide(now, unwind(Root::Guide(head), Arg::At(arg), args))
        }
        GuideViewForm::On(head, arg) => {
            move_guide(now, unwind(Root::Guide(head), Arg::On(arg), args))
        }
        _ => unreachable!(),
    }
}

/// The pure term that was reached, in the place of the head.
fn set_pure(now: &mut PureView, next: Result<Pure, Stop>) -> Result<(), Stop>
    ensures { reached (root.Pure now.new) result ≡ as_pure next }
{
    *now = PureView::built(next?);
    Ok(())
}

fn set_guide(now: &mut GuideView, next: Result<Guide, Stop>) -> Result<(), Stop>
    ensures { reached (root.Guide now.new) result ≡ as_guide next }
{
    *now = GuideView::built(next?);
    Ok(())
}

/// The head that was reached, in the place of a pure one.
fn move_pure(now: &mut PureView, next: Result<Root, Stop>) -> Result<(), Stop>
    requires { IfOk next (λ r. root_class r ≡ OfPure) }
    ensures { reached (root.Pure now.new) result ≡ next }
{
    let Root::Pure(next) = next? else {
        unreachable!()
    };
    *now = next;
    Ok(())
}

fn move_guide(now: &mut GuideView, next: Result<Root, Stop>) -> Result<(), Stop>
    requires { IfOk next (λ r. root_class r ≡ OfType) }
    ensures { reached (root.Guide now.new) result ≡ next }
{
    let Root::Guide(next) = next? else {
        unreachable!()
    };
    *now = next;
    Ok(())
}

/// The head of an application at its own node, of which the argument is put on the list.
fn unwind_ap(head: &Pure, arg: &Pure, args: &mut Vec<Arg>) -> Result<Pure, Stop>
    ensures { (s : List Tree) (units : ℕ) → MeetsStep s OfPure (ap head.now arg.now) args.old.items units args.new.items units (as_pure result) }
{
    args.push(Arg::Ap(PureView::of_pure(arg)?))?;
    Ok(head.clone()?)
}

fn unwind_at(head: &Guide, arg: &Pure, args: &mut Vec<Arg>) -> Result<Guide, Stop>
    ensures { (s : List Tree) (units : ℕ) → MeetsStep s OfType (at_ head.now arg.now) args.old.items units args.new.items units (as_guide result) }
{
    args.push(Arg::At(PureView::of_pure(arg)?))?;
    Ok(head.clone()?)
}

fn unwind_on(head: &Guide, arg: &Guide, args: &mut Vec<Arg>) -> Result<Guide, Stop>
    ensures { (s : List Tree) (units : ℕ) → MeetsStep s OfType (on head.now arg.now) args.old.items units args.new.items units (as_guide result) }
{
    args.push(Arg::On(GuideView::of_guide(arg)?))?;
    Ok(head.clone()?)
}

/// The same of an application that was read.
fn unwind(head: Root, arg: Arg, args: &mut Vec<Arg>) -> Result<Root, Stop>
    ensures { (s : List Tree) (units : ℕ) → MeetsStep s (root_class head) (apply (arg_function arg) (root_tree head) (arg_tree arg)) args.old.items units args.new.items units result }
{
    args.push(arg)?;
    Ok(head)
}

/// A function with the innermost argument, which is taken off the list.
fn apply_ap(
    alloc: Global,
    body: &PureView,
    args: &mut Vec<Arg>,
    budget: &mut Budget,
) -> Result<Pure, Stop>
    requires placed { (zs : List Sort) × IsPlaced 4250000000 zs pure_terms (spine (fn body.now) args.old.items) }
    requires moves { IsStill (fn body.now) (innermost args.old.items) → ⊥ }
    ensures step { (s : List Tree) → MeetsStep s OfPure (fn body.now) args.old.items budget.old.left args.new.items budget.new.left (as_pure result) }
    ensures less { budget.new.left ≤ budget.old.left }
{
    let Arg::Ap(arg) = pop(args) else {
        unreachable!()
    };
    contract_ap(alloc, body, &arg, budget)
}

/// The same of a function at its own node.
fn apply_own(
    alloc: Global,
    body: &Pure,
    args: &mut Vec<Arg>,
    budget: &mut Budget,
) -> Result<Pure, Stop>
    requires placed { (zs : List Sort) × IsPlaced 4250000000 zs pure_terms (spine (fn body.now) args.old.items) }
    requires moves { IsStill (fn body.now) (innermost args.old.items) → ⊥ }
    ensures step { (s : List Tree) → MeetsStep s OfPure (fn body.now) args.old.items budget.old.left args.new.items budget.new.left (as_pure result) }
    ensures less { budget.new.left ≤ budget.old.left }
{
    let Arg::Ap(arg) = pop(args) else {
        unreachable!()
    };
    contract_own(alloc, body, &arg, budget)
}

fn apply_at(
    alloc: Global,
    body: &GuideView,
    args: &mut Vec<Arg>,
    budget: &mut Budget,
) -> Result<Guide, Stop>
    requires placed { (zs : List Sort) × IsPlaced 4250000000 zs guides (spine (guide_tlam body.now) args.old.items) }
    requires moves { IsStill (guide_tlam body.now) (innermost args.old.items) → ⊥ }
    ensures step { (s : List Tree) → MeetsStep s OfType (guide_tlam body.now) args.old.items budget.old.left args.new.items budget.new.left (as_guide result) }
    ensures less { budget.new.left ≤ budget.old.left }
{
    let Arg::At(arg) = pop(args) else {
        unreachable!()
    };
    contract_at(alloc, body, &arg, budget)
}

fn apply_on(
    alloc: Global,
    body: &GuideView,
    args: &mut Vec<Arg>,
    budget: &mut Budget,
) -> Result<Guide, Stop>
    requires placed { (zs : List Sort) × IsPlaced 4250000000 zs guides (spine (guide_xtlam body.now) args.old.items) }
    requires moves { IsStill (guide_xtlam body.now) (innermost args.old.items) → ⊥ }
    ensures step { (s : List Tree) → MeetsStep s OfType (guide_xtlam body.now) args.old.items budget.old.left args.new.items budget.new.left (as_guide result) }
    ensures less { budget.new.left ≤ budget.old.left }
{
    let Arg::On(arg) = pop(args) else {
        unreachable!()
    };
    contract_on(alloc, body, &arg, budget)
}

/// Takes the innermost argument off the list.
fn pop(args: &mut Vec<Arg>) -> Arg
    requires { args.old.items ≡ [] → ⊥ }
    ensures { args.old.items ≡ args.new.items ++ result ∷ [] }
{
    let Some(arg) = args.pop() else {
        unreachable!()
    };
    arg
}

/// The item's erased body for its name, with one unit.
fn unfold(items: &CheckedItems, item: u32, budget: &mut Budget) -> Result<Root, Stop>
    requires { item < length items.now }
    ensures step { (k : SideClass) (vs : List Sort) (xs : List Arg) → Fits (within vs (item_sorts items.now)) (class_trees k) (name item) → MeetsStep (bodies (signature items.now)) k (name item) xs budget.old.left xs budget.new.left result }
    ensures less { budget.new.left ≤ budget.old.left }
{
    let body = items.body(item);
    if !budget.take() {
        return Err(Stop::Spent);
    }
    body.known();
    Ok(body.share()?)
}

/// The body of a function with the argument put for its variable, with one unit.
fn contract_ap(
    alloc: Global,
    body: &PureView,
    arg: &PureView,
    budget: &mut Budget,
) -> Result<Pure, Stop>
    requires used { UsedAs OfTerm 0 pure_terms body.now }
    requires below { IsBelow 4290000000 arg.now }
    ensures step { (s : List Tree) (xs : List Arg) → MeetsStep s OfPure (fn body.now) (xs ++ Ap arg.now ∷ []) budget.old.left xs budget.new.left (as_pure result) }
    ensures less { budget.new.left ≤ budget.old.left }
{
    if !budget.take() {
        return Err(Stop::Spent);
    }
    match body.put_pure(alloc, arg) {
        Ok(tree) => Ok(tree),
        Err(stop) => Err(put_stop(stop)),
    }
}

/// The same of a function at its own node.
fn contract_own(
    alloc: Global,
    body: &Pure,
    arg: &PureView,
    budget: &mut Budget,
) -> Result<Pure, Stop>
    requires used { UsedAs OfTerm 0 pure_terms body.now }
    requires below { IsBelow 4290000000 arg.now }
    ensures step { (s : List Tree) (xs : List Arg) → MeetsStep s OfPure (fn body.now) (xs ++ Ap arg.now ∷ []) budget.old.left xs budget.new.left (as_pure result) }
    ensures less { budget.new.left ≤ budget.old.left }
{
    if !budget.take() {
        return Err(Stop::Spent);
    }
    match put_own(alloc, body, arg) {
        Ok(tree) => Ok(tree),
        Err(stop) => Err(put_stop(stop)),
    }
}

fn put_own(alloc: Global, body: &Pure, arg: &PureView) -> Result<Pure, PutStop>
    requires used { UsedAs OfTerm 0 pure_terms body.now }
    requires below { IsBelow 4290000000 arg.now }
    ensures { PutGives (put 0 arg.now body.now) result }
{
    match arg.own() {
        Some(arg) => body.put_pure(alloc, 0, arg),
        None => body.put_pure(alloc, 0, &arg.whole(alloc)?),
    }
}

fn contract_at(
    alloc: Global,
    body: &GuideView,
    arg: &PureView,
    budget: &mut Budget,
) -> Result<Guide, Stop>
    requires used { UsedAs OfTerm 0 guides body.now }
    requires below { IsBelow 4290000000 arg.now }
    ensures step { (s : List Tree) (xs : List Arg) → MeetsStep s OfType (guide_tlam body.now) (xs ++ At arg.now ∷ []) budget.old.left xs budget.new.left (as_guide result) }
    ensures less { budget.new.left ≤ budget.old.left }
{
    if !budget.take() {
        return Err(Stop::Spent);
    }
    match body.put_pure(alloc, arg) {
        Ok(tree) => Ok(tree),
        Err(stop) => Err(put_stop(stop)),
    }
}

fn contract_on(
    alloc: Global,
    body: &GuideView,
    arg: &GuideView,
    budget: &mut Budget,
) -> Result<Guide, Stop>
    requires used { UsedAs OfTypes 0 guides body.now }
    requires below { IsBelow 4290000000 arg.now }
    ensures step { (s : List Tree) (xs : List Arg) → MeetsStep s OfType (guide_xtlam body.now) (xs ++ On arg.now ∷ []) budget.old.left xs budget.new.left (as_guide result) }
    ensures less { budget.new.left ≤ budget.old.left }
{
    if !budget.take() {
        return Err(Stop::Spent);
    }
    match body.put_guide(alloc, arg) {
        Ok(tree) => Ok(tree),
        Err(stop) => Err(put_stop(stop)),
    }
}

fn put_stop(stop: PutStop) -> Stop
    ensures { result ≡ put_stop_of stop }
{
    match stop {
        PutStop::TooDeep => Stop::TooDeep,
        PutStop::NoMemory => Stop::NoMemory,
    }
}
