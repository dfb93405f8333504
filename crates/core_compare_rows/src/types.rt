//! Erased types and kinds, closed over the items, as the rows compare them.
ghost use Rattle.std.specs.Prelude.{◌≡◌, ◌≤◌, ◌<◌, IfOk, List, Some, slice_get};
ghost use Rattle.cdle_model.specs.Classes.{guide_kinds, guides, pure_terms};
ghost use Rattle.cdle_model.specs.Depth.{depth};
ghost use Rattle.cdle_model.specs.Forms as forms;
ghost use Rattle.cdle_model.specs.Trees.{var};
ghost use Rattle.cdle_model.specs.declared.grammar.Sort.{Sort};
ghost use Rattle.cdle_model.specs.declared.grammar.Sort.TheVariants.{OfType};
ghost use Rattle.core_compare_rows.specs.Closed.{IsClosed, IsClosedSide, IsUnder};
ghost use Rattle.core_reduce.specs.declared.side.SideClass.TheVariants as classes;

use crate::pure::{growing, identity, tower};
use core_reduce::Side;
use core_tree::{Guide, GuideKind, NoMemory, Pure};
use std::alloc::Global;

/// An erased type of the rows.
#[derive(Clone, Copy)]
pub(crate) enum TypeShape {
    /// `a = fn x. x`, where a is the tower of that size.
    EqualTower,
    /// The same, where a grows.
    EqualGrowing,
    /// The same, where a is the identity.
    EqualIdentity,
    /// The functions from the type that is doubled so often to itself, over every type.
    DoubledFunctions,
    /// The functions from a type to itself, over every type.
    Functions,
    /// The erased functions from a type to itself, over every type.
    ErasedFunctions,
    /// What is no function, and is applied so many thousand times.
    Stuck,
}

/// The side of that type, at that size.
pub(crate) fn type_side(alloc: Global, shape: TypeShape, size: u32) -> Result<Side, NoMemory>
    ensures { IfOk result (λ s. IsClosedSide classes.OfType s) }
{
    let ty = shaped(alloc, shape, size)?;
    Side::of_guide(alloc, &ty)
}

/// The type itself.
fn shaped(alloc: Global, shape: TypeShape, size: u32) -> Result<Guide, NoMemory>
    ensures { IfOk result (λ t. IsClosed guides t) }
{
    match shape {
        TypeShape::EqualTower => equal_to_identity(alloc, tower(alloc, size)?),
        TypeShape::EqualGrowing => equal_to_identity(alloc, growing(alloc)?),
        TypeShape::EqualIdentity => equal_to_identity(alloc, identity(alloc)?),
        TypeShape::DoubledFunctions => doubled_functions(alloc, size),
        TypeShape::Functions => doubled_functions(alloc, 0),
        TypeShape::ErasedFunctions => erased_functions(alloc),
        TypeShape::Stuck => stuck(alloc, size),
    }
}

/// The equation, unless it would be deeper than a tree can be.
fn equation(alloc: Global, left: Pure, right: Pure) -> Result<Guide, NoMemory>
    ensures { IfOk result (λ t. t ≡ forms.eq left right) }
{
    if left.depth().max(right.depth()) >= 65_535 {
        return Err(NoMemory);
    }
    Guide::eq(alloc, &left, &right)
}

/// The application to a type, unless it would be deeper than a tree can be.
fn on(alloc: Global, head: Guide, arg: Guide) -> Result<Guide, NoMemory>
    ensures { IfOk result (λ t. t ≡ forms.on head arg) }
{
    if head.depth().max(arg.depth()) >= 65_535 {
        return Err(NoMemory);
    }
    Guide::on(alloc, &head, &arg)
}

/// The type function with that body, unless it would be deeper than a tree can be.
fn type_function(alloc: Global, body: Guide) -> Result<Guide, NoMemory>
    ensures { IfOk result (λ t. t ≡ forms.guide_xtlam body) }
{
    if body.depth() >= 65_535 {
        return Err(NoMemory);
    }
    Guide::xtlam(alloc, &body)
}

/// The type function of two variables with that body.
fn type_function_of_two(alloc: Global, body: Guide) -> Result<Guide, NoMemory>
    ensures { IfOk result (λ t. t ≡ forms.guide_xtlam (forms.guide_xtlam body)) }
{
    type_function(alloc, type_function(alloc, body)?)
}

/// `a = fn x. x`
fn equal_to_identity(alloc: Global, left: Pure) -> Result<Guide, NoMemory>
    requires { IsClosed pure_terms left }
    ensures { IfOk result (λ t. IsClosed guides t) }
{
    equation(alloc, left, identity(alloc)?)
}

/// The variable with that many applications of the item 2 over it.
fn doubled(alloc: Global, times: u32, variable: u32) -> Result<Guide, NoMemory>
    ensures { IfOk result (λ t. (vs : List Sort) → slice_get vs variable ≡ Some OfType → IsUnder vs guides t) }
{
    let mut tree = Guide::var(alloc, variable)?;
    for _ in 0..times {
        tree = on(alloc, Guide::name(alloc, 2)?, tree)?;
    }
    Ok(tree)
}

/// The type, over every type of the variable 0, unless it would be deeper than a tree can be.
fn over_types(alloc: Global, part: Guide) -> Result<Guide, NoMemory>
    ensures { IfOk result (λ t. t ≡ forms.allt forms.star part) }
{
    if part.depth() >= 65_535 {
        return Err(NoMemory);
    }
    let star = GuideKind::star(alloc)?;
    Guide::allt(alloc, &star, &part)
}

/// The functions of that domain, unless they would be deeper than a tree can be.
fn functions(alloc: Global, domain: Guide, part: Guide) -> Result<Guide, NoMemory>
    ensures { IfOk result (λ t. t ≡ forms.pi domain part) }
{
    if domain.depth().max(part.depth()) >= 65_535 {
        return Err(NoMemory);
    }
    Guide::pi(alloc, &domain, &part)
}

/// The functions from the doubled type to itself, over every type.
fn doubled_functions(alloc: Global, times: u32) -> Result<Guide, NoMemory>
    ensures { IfOk result (λ t. IsClosed guides t) }
{
    let domain = doubled(alloc, times, 0)?;
    let part = doubled(alloc, times, 1)?;
    over_types(alloc, functions(alloc, domain, part)?)
}

/// The erased functions from a type to itself, over every type.
fn erased_functions(alloc: Global) -> Result<Guide, NoMemory>
    ensures { IfOk result (λ t. IsClosed guides t) }
{
    let domain = Guide::var(alloc, 0)?;
    let part = Guide::var(alloc, 1)?;
    over_types(alloc, Guide::all(alloc, &domain, &part)?)
}

/// The type of what is of every type.
fn empty_type(alloc: Global) -> Result<Guide, NoMemory>
    ensures closed { IfOk result (λ t. IsClosed guides t) }
    ensures shallow { IfOk result (λ t. depth t < 65535) }
{
    over_types(alloc, Guide::var(alloc, 0)?)
}

/// The type function of x and y that is `x y .. y` with a thousand arguments.
fn thousand_times(alloc: Global) -> Result<Guide, NoMemory>
    ensures { IfOk result (λ t. IsClosed guides t) }
{
    let mut tree = Guide::var(alloc, 1)?;
    for _ in 0..1000 {
        tree = on(alloc, tree, Guide::var(alloc, 0)?)?;
    }
    type_function_of_two(alloc, tree)
}

/// The type function of e, x and y that is `e (.. (e x y) ..) y`, with that many e.
fn repeated(alloc: Global, times: u32) -> Result<Guide, NoMemory>
    ensures { IfOk result (λ t. IsClosed guides t) }
{
    let mut tree = Guide::var(alloc, 1)?;
    for _ in 0..times {
        tree = between(alloc, tree)?;
    }
    type_function(alloc, type_function_of_two(alloc, tree)?)
}

/// `e tree y`, where y is the variable 0 and e the variable 2.
fn between(alloc: Global, tree: Guide) -> Result<Guide, NoMemory>
    ensures { IfOk result (λ t. t ≡ forms.on (forms.on (var 2) tree) (var 0)) }
{
    let half = on(alloc, Guide::var(alloc, 2)?, tree)?;
    on(alloc, half, Guide::var(alloc, 0)?)
}

/// The type function of x and y that is `x y .. y` with so many thousand arguments.
fn repeated_thousands(alloc: Global, thousands: u32) -> Result<Guide, NoMemory>
    ensures { IfOk result (λ t. IsClosed guides t) }
{
    let times = repeated(alloc, thousands)?;
    on(alloc, times, thousand_times(alloc)?)
}

/// A product that is applied to the item 2, again and again, so many thousand times. No function is there, so it is stuck.
fn stuck(alloc: Global, thousands: u32) -> Result<Guide, NoMemory>
    ensures { IfOk result (λ t. IsClosed guides t) }
{
    let function = repeated_thousands(alloc, thousands)?;
    let half = on(alloc, function, empty_type(alloc)?)?;
    on(alloc, half, Guide::name(alloc, 2)?)
}

/// The side of the kind of type functions.
pub(crate) fn functions_side(alloc: Global) -> Result<Side, NoMemory>
    ensures { IfOk result (λ s. IsClosedSide classes.OfKind s) }
{
    let star = GuideKind::star(alloc)?;
    let kind = GuideKind::kpit(alloc, &star, &star)?;
    Side::of_guide_kind(alloc, &kind)
}

/// The side of the kind of predicates over a type.
pub(crate) fn predicates_side(alloc: Global) -> Result<Side, NoMemory>
    ensures { IfOk result (λ s. IsClosedSide classes.OfKind s) }
{
    let kind = predicates(alloc)?;
    Side::of_guide_kind(alloc, &kind)
}

/// The kind of predicates over a type.
fn predicates(alloc: Global) -> Result<GuideKind, NoMemory>
    ensures { IfOk result (λ k. IsClosed guide_kinds k) }
{
    let domain = empty_type(alloc)?;
    let star = GuideKind::star(alloc)?;
    GuideKind::kpi(alloc, &domain, &star)
}
