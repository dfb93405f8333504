//! The tests, and what builds their trees.

ghost use Rattle.std.specs.Prelude.{◌≡◌, ◌≤◌, [], IfOk, Some, slice_get};
ghost use Rattle.cdle_model.specs.Classes.{Fits, IsScopedOver, guides, item_sort, item_sorts, pure_terms, within};
ghost use Rattle.cdle_model.specs.Depth.{depth};
ghost use Rattle.cdle_model.specs.Fitting.{ItemHasErasures};
ghost use Rattle.cdle_model.specs.declared.grammar.Sort.TheVariants.{OfTerm};
ghost use Rattle.core_tree.specs.Items.{written};

use cdle_model::Text;
use core_reduce::{Budget, CheckedItems, Side, SideClass, Stop, Value, head};
use core_tree::{
    CoreItem, Guide, GuideForm, GuideKind, GuideKindForm, Kept, Kind, NoMemory, Pure, PureForm,
    Term, Ty,
};
use std::alloc::Global;

/// The function that gives its argument.
fn identity(alloc: Global) -> Result<Pure, NoMemory>
    ensures closed { IfOk result (λ t. Fits (within [] []) pure_terms t) }
    ensures shallow { IfOk result (λ t. depth t ≤ 10) }
{
    let x = Pure::var(alloc, 0)?;
    Pure::function(alloc, &x)
}

/// The function that applies its argument to itself, applied to itself. It contracts to itself.
fn omega(alloc: Global) -> Result<Pure, NoMemory>
    ensures closed { IfOk result (λ t. Fits (within [] []) pure_terms t) }
    ensures shallow { IfOk result (λ t. depth t ≤ 10) }
{
    let x = Pure::var(alloc, 0)?;
    let twice = Pure::ap(alloc, &x, &x)?;
    let half = Pure::function(alloc, &twice)?;
    Pure::ap(alloc, &half, &half)
}

/// The first of two, the identity and what has no head form.
fn first(alloc: Global) -> Result<Pure, NoMemory>
    ensures closed { IfOk result (λ t. Fits (within [] []) pure_terms t) }
    ensures shallow { IfOk result (λ t. depth t ≤ 20) }
{
    let x = Pure::var(alloc, 1)?;
    let inner = Pure::function(alloc, &x)?;
    let first = Pure::function(alloc, &inner)?;
    let identity = identity(alloc)?;
    let omega = omega(alloc)?;
    let half = Pure::ap(alloc, &first, &identity)?;
    Pure::ap(alloc, &half, &omega)
}

/// The head form of the closed tree over no items.
fn head_of(alloc: Global, tree: &Pure, budget: &mut Budget) -> Result<Value, Stop>
    requires { Fits (within [] []) pure_terms tree.now }
{
    let items = CheckedItems::new(alloc);
    let side = Side::of_pure(alloc, tree)?;
    head(alloc, &items, &side, budget)
}

/// Whether the value is the identity.
fn gives_identity(alloc: Global, value: &Value) -> Result<bool, NoMemory> {
    match value {
        Value::Fun(body) if body.class() == SideClass::OfPure => Ok(is_new(&body.tree_pure(
            alloc,
        )?)),
        _ => Ok(false),
    }
}

/// Whether the tree is the innermost variable.
fn is_new(tree: &Kept<Pure>) -> bool {
    match tree {
        Kept::Whole(tree) => matches!(tree.form(), PureForm::Var(0)),
        Kept::Deep => false,
    }
}

/// The identity applied to itself takes one unit.
fn identity_with(alloc: Global, budget: &mut Budget) -> Result<bool, Stop> {
    let identity = identity(alloc)?;
    let tree = Pure::ap(alloc, &identity, &identity)?;
    let value = head_of(alloc, &tree, budget)?;
    Ok(gives_identity(alloc, &value)?)
}

/// The first of two takes two units, and the second is never reached.
fn first_with(alloc: Global, budget: &mut Budget) -> Result<bool, Stop> {
    let tree = first(alloc)?;
    let value = head_of(alloc, &tree, budget)?;
    Ok(gives_identity(alloc, &value)?)
}

fn omega_with(alloc: Global, budget: &mut Budget) -> Result<bool, Stop> {
    let tree = omega(alloc)?;
    let value = head_of(alloc, &tree, budget)?;
    Ok(gives_identity(alloc, &value)?)
}

/// The item `x`, which is the identity of the variable types.
fn identity_item(alloc: Global) -> Result<CoreItem, NoMemory>
    ensures over { IfOk result (λ item. IsScopedOver [] (written item)) }
    ensures erasures { IfOk result (λ item. ItemHasErasures (written item)) }
    ensures sort { IfOk result (λ item. item_sort (written item) ≡ OfTerm) }
{
    let Ok(name) = Text::new(alloc, "x") else {
        return Err(NoMemory);
    };
    let star = Kind::star(alloc)?;
    let inner = Ty::var(alloc, 0)?;
    let outer = Ty::var(alloc, 1)?;
    let arrow = Ty::pi(alloc, &inner, &outer)?;
    let ty = Ty::allt(alloc, &star, &arrow)?;
    let variable = Term::var(alloc, 0)?;
    let function = Term::lam(alloc, &inner, &variable)?;
    let body = Term::xlam(alloc, &star, &function)?;
    Ok(CoreItem::Def { name, ty, body })
}

/// A name is unfolded to its item's erased body, with one unit.
fn name_with(alloc: Global, budget: &mut Budget) -> Result<bool, Stop> {
    let mut items = CheckedItems::new(alloc);
    let item = identity_item(alloc)?;
    items.add(alloc, &item)?;
    if items.len() != 1 || items.get(0).name().as_str() != "x" {
        return Ok(false);
    }
    unfolded_with(alloc, &items, budget)
}

/// The name of the first item, unfolded.
fn unfolded_with(alloc: Global, items: &CheckedItems, budget: &mut Budget) -> Result<bool, Stop>
    requires { slice_get (item_sorts items.now) 0 ≡ Some OfTerm }
{
    let name = Pure::name(alloc, 0)?;
    let side = Side::of_pure(alloc, &name)?;
    if side.name() != Some(0) {
        return Ok(false);
    }
    let value = head(alloc, items, &side, budget)?;
    Ok(gives_identity(alloc, &value)?)
}

/// The side of a term, with what is left of it as a tree.
fn written_term(alloc: Global) -> Result<bool, NoMemory> {
    let term = Term::var(alloc, 3)?;
    let side = Side::of_term(alloc, &term)?;
    match side.tree_pure(alloc)? {
        Kept::Whole(tree) => Ok(matches!(tree.form(), PureForm::Var(3))),
        Kept::Deep => Ok(false),
    }
}

fn written_type(alloc: Global) -> Result<bool, NoMemory> {
    let ty = Ty::var(alloc, 2)?;
    let side = Side::of_type(alloc, &ty)?;
    match side.tree_guide(alloc)? {
        Kept::Whole(tree) => Ok(matches!(tree.form(), GuideForm::Var(2))),
        Kept::Deep => Ok(false),
    }
}

fn written_kind(alloc: Global) -> Result<bool, NoMemory> {
    let ty = Ty::var(alloc, 2)?;
    let star = Kind::star(alloc)?;
    let kind = Kind::kpi(alloc, &ty, &star)?;
    let side = Side::of_kind(alloc, &kind)?;
    match side.tree_kind()? {
        Kept::Whole(tree) => Ok(matches!(tree.form(), GuideKindForm::Kpi(_, _))),
        Kept::Deep => Ok(false),
    }
}

/// An erased kind has no step: its head form over no items, as a tree.
fn still_kind(alloc: Global) -> Result<bool, Stop> {
    let star = GuideKind::star(alloc)?;
    let side = Side::of_guide_kind(alloc, &star)?;
    let value = head(alloc, &CheckedItems::new(alloc), &side, &mut Budget::new(0))?;
    match value.tree_kind(alloc)? {
        Kept::Whole(tree) => Ok(matches!(tree.form(), GuideKindForm::Star)),
        Kept::Deep => Ok(false),
    }
}

/// Nor has an erased type that is a product.
fn still_type(alloc: Global) -> Result<bool, Stop> {
    let side = Side::of_guide(alloc, &every_type(alloc)?)?;
    let value = head(alloc, &CheckedItems::new(alloc), &side, &mut Budget::new(0))?;
    match value.tree_guide(alloc)? {
        Kept::Whole(tree) => Ok(matches!(tree.form(), GuideForm::Allt(_, _))),
        Kept::Deep => Ok(false),
    }
}

/// The type of what is of every type.
fn every_type(alloc: Global) -> Result<Guide, NoMemory>
    ensures { IfOk result (λ t. Fits (within [] []) guides t) }
{
    let star = GuideKind::star(alloc)?;
    let variable = Guide::var(alloc, 0)?;
    Guide::allt(alloc, &star, &variable)
}

/// The identity as a head form, and applied to a new variable.
fn applied_identity(alloc: Global) -> Result<bool, NoMemory> {
    let x = Pure::var(alloc, 0)?;
    let value = Value::Fun(Side::of_pure(alloc, &x)?);
    Ok(
        is_function(&value.tree_pure(alloc)?)
            && is_applied(&value.applied(alloc)?.tree_pure(alloc)?),
    )
}

fn is_function(tree: &Kept<Pure>) -> bool {
    match tree {
        Kept::Whole(tree) => matches!(tree.form(), PureForm::Function(_)),
        Kept::Deep => false,
    }
}

/// Whether the tree is a function applied to the innermost variable.
fn is_applied(tree: &Kept<Pure>) -> bool {
    let Kept::Whole(tree) = tree else {
        return false;
    };
    let PureForm::Ap(head, arg) = tree.form() else {
        return false;
    };
    matches!(head.form(), PureForm::Function(_)) && matches!(arg.form(), PureForm::Var(0))
}

#[test]
fn units(rt: HostRuntime) {
    let alloc = rt.alloc();
    let mut budget = Budget::new(3);
    assert!(rt; matches!(identity_with(alloc, &mut budget), Ok(true)));
    assert_eq!(rt; budget.left, 2);
    assert!(rt; matches!(first_with(alloc, &mut budget), Ok(true)));
    assert_eq!(rt; budget.left, 0);
    assert!(rt; matches!(identity_with(alloc, &mut budget), Err(Stop::Spent)));
}

#[test]
fn units_that_are_too_few(rt: HostRuntime) {
    let alloc = rt.alloc();
    let mut budget = Budget::new(1);
    assert!(rt; matches!(first_with(alloc, &mut budget), Err(Stop::Spent)));
    let mut budget = Budget::new(1000);
    assert!(rt; matches!(omega_with(alloc, &mut budget), Err(Stop::Spent)));
    assert_eq!(rt; budget.left, 0);
}

#[test]
fn units_of_a_name(rt: HostRuntime) {
    let alloc = rt.alloc();
    let mut budget = Budget::new(1);
    assert!(rt; matches!(name_with(alloc, &mut budget), Ok(true)));
    assert!(rt; !budget.take());
}

#[test]
fn sides_and_values(rt: HostRuntime) {
    assert!(rt; matches!(written_term(rt.alloc()), Ok(true)));
    assert!(rt; matches!(written_type(rt.alloc()), Ok(true)));
    assert!(rt; matches!(written_kind(rt.alloc()), Ok(true)));
    assert!(rt; matches!(still_kind(rt.alloc()), Ok(true)));
    assert!(rt; matches!(still_type(rt.alloc()), Ok(true)));
    assert!(rt; matches!(applied_identity(rt.alloc()), Ok(true)));
}
