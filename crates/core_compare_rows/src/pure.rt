//! Pure terms, closed over the items, as the rows compare them.
ghost use Rattle.std.specs.Prelude.{◌≡◌, ◌<◌, IfOk};
ghost use Rattle.cdle_model.specs.Classes.{pure_terms};
ghost use Rattle.cdle_model.specs.Forms as forms;
ghost use Rattle.cdle_model.specs.Trees.{var};
ghost use Rattle.core_compare_rows.specs.Closed.{IsClosed, IsClosedSide};
ghost use Rattle.core_reduce.specs.declared.side.SideClass.TheVariants.{OfPure};

use core_reduce::Side;
use core_tree::{NoMemory, Pure};
use std::alloc::Global;

/// A pure term of the rows.
#[derive(Clone, Copy)]
pub(crate) enum PureShape {
    /// `fn x. x`
    Identity,
    /// What contracts to itself.
    Omega,
    /// The first of two, the identity and what has no head form.
    FirstOfTwo,
    /// `fn x. fn y. x`
    First,
    /// `fn x. fn y. y`
    Second,
    /// `fn x. fn y. x y`
    FirstOnSecond,
    /// `fn x. fn y. y y`
    SecondOnSecond,
    /// `fn x. fn y. x y x`
    FirstOnSecondAndFirst,
    /// `fn x. fn y. x y y`
    FirstOnSecondTwice,
    /// `fn x. fn y. x y .. y`
    AppliedOften,
    /// `fn x. fn y. fn z. x y .. y z`
    AppliedOnceMore,
    /// The name of the first item.
    Name,
    /// The name of the second item.
    OtherName,
    /// The name of the first item, applied to the identity.
    AppliedName,
}

/// The side of that term, at that size.
pub(crate) fn pure_side(alloc: Global, shape: PureShape, size: u32) -> Result<Side, NoMemory>
    ensures { IfOk result (λ s. IsClosedSide OfPure s) }
{
    let term = shaped(alloc, shape, size)?;
    Side::of_pure(alloc, &term)
}

/// The term itself.
fn shaped(alloc: Global, shape: PureShape, size: u32) -> Result<Pure, NoMemory>
    ensures { IfOk result (λ t. IsClosed pure_terms t) }
{
    match shape {
        PureShape::Identity => identity(alloc),
        PureShape::Omega => omega(alloc),
        PureShape::FirstOfTwo => first_of_two(alloc),
        PureShape::First => one_of_two(alloc, 1),
        PureShape::Second => one_of_two(alloc, 0),
        PureShape::FirstOnSecond => applied_under_two(alloc, 1, 0),
        PureShape::SecondOnSecond => applied_under_two(alloc, 0, 0),
        PureShape::FirstOnSecondAndFirst => two_arguments(alloc, 0, 1),
        PureShape::FirstOnSecondTwice => two_arguments(alloc, 0, 0),
        PureShape::AppliedOften => applied_often(alloc, size),
        PureShape::AppliedOnceMore => applied_once_more(alloc, size),
        PureShape::Name => Pure::name(alloc, 0),
        PureShape::OtherName => Pure::name(alloc, 1),
        PureShape::AppliedName => applied_name(alloc),
    }
}

/// The application, unless it would be deeper than a tree can be.
fn ap(alloc: Global, head: Pure, arg: Pure) -> Result<Pure, NoMemory>
    ensures { IfOk result (λ t. t ≡ forms.ap head arg) }
{
    if head.depth().max(arg.depth()) >= 65_535 {
        return Err(NoMemory);
    }
    Pure::ap(alloc, &head, &arg)
}

/// The function with that body, unless it would be deeper than a tree can be.
fn function(alloc: Global, body: Pure) -> Result<Pure, NoMemory>
    ensures { IfOk result (λ t. t ≡ forms.fn body) }
{
    if body.depth() >= 65_535 {
        return Err(NoMemory);
    }
    Pure::function(alloc, &body)
}

/// The function of two variables with that body.
fn function_of_two(alloc: Global, body: Pure) -> Result<Pure, NoMemory>
    ensures { IfOk result (λ t. t ≡ forms.fn (forms.fn body)) }
{
    function(alloc, function(alloc, body)?)
}

/// The variable `left`, applied to the variable `right`.
fn variables(alloc: Global, left: u32, right: u32) -> Result<Pure, NoMemory>
    ensures { IfOk result (λ t. t ≡ forms.ap (var left) (var right)) }
{
    let head = Pure::var(alloc, left)?;
    let arg = Pure::var(alloc, right)?;
    Pure::ap(alloc, &head, &arg)
}

/// The application to a variable.
fn on_variable(alloc: Global, head: Pure, variable: u32) -> Result<Pure, NoMemory>
    ensures { IfOk result (λ t. t ≡ forms.ap head (var variable)) }
{
    ap(alloc, head, Pure::var(alloc, variable)?)
}

/// `fn x. x`
pub(crate) fn identity(alloc: Global) -> Result<Pure, NoMemory>
    ensures { IfOk result (λ t. IsClosed pure_terms t) }
{
    function(alloc, Pure::var(alloc, 0)?)
}

/// `fn x. x x`
fn twice(alloc: Global) -> Result<Pure, NoMemory>
    ensures { IfOk result (λ t. IsClosed pure_terms t) }
{
    function(alloc, variables(alloc, 0, 0)?)
}

/// What contracts to itself.
fn omega(alloc: Global) -> Result<Pure, NoMemory>
    ensures { IfOk result (λ t. IsClosed pure_terms t) }
{
    ap(alloc, twice(alloc)?, twice(alloc)?)
}

/// `fn x. fn y. left right`, where the two are the variables of these numbers.
fn applied_under_two(alloc: Global, left: u32, right: u32) -> Result<Pure, NoMemory>
    requires left { left < 2 }
    requires right { right < 2 }
    ensures { IfOk result (λ t. IsClosed pure_terms t) }
{
    function_of_two(alloc, variables(alloc, left, right)?)
}

/// `fn x. fn y. x` for 1, and `fn x. fn y. y` for 0.
fn one_of_two(alloc: Global, index: u32) -> Result<Pure, NoMemory>
    requires { index < 2 }
    ensures { IfOk result (λ t. IsClosed pure_terms t) }
{
    function_of_two(alloc, Pure::var(alloc, index)?)
}

/// The first of two, the identity and what has no head form.
fn first_of_two(alloc: Global) -> Result<Pure, NoMemory>
    ensures { IfOk result (λ t. IsClosed pure_terms t) }
{
    let half = ap(alloc, one_of_two(alloc, 1)?, identity(alloc)?)?;
    ap(alloc, half, omega(alloc)?)
}

/// `fn x. fn y. x y z`, where y is the variable of the first number, and z that of the second.
fn two_arguments(alloc: Global, first: u32, second: u32) -> Result<Pure, NoMemory>
    requires first { first < 2 }
    requires second { second < 2 }
    ensures { IfOk result (λ t. IsClosed pure_terms t) }
{
    let half = variables(alloc, 1, first)?;
    function_of_two(alloc, on_variable(alloc, half, second)?)
}

/// `fn e. fn x. fn y. e (e x y) y`: it makes of a function that applies x so often to y one that does it twice as often.
fn doubling(alloc: Global) -> Result<Pure, NoMemory>
    ensures { IfOk result (λ t. IsClosed pure_terms t) }
{
    let inner = on_variable(alloc, variables(alloc, 2, 1)?, 0)?;
    let outer = ap(alloc, Pure::var(alloc, 2)?, inner)?;
    let body = on_variable(alloc, outer, 0)?;
    function(alloc, function_of_two(alloc, body)?)
}

/// `fn x. fn y. x y .. y`, as a tree of that many doublings. It has `2 ^ doublings` arguments.
fn applied_often(alloc: Global, doublings: u32) -> Result<Pure, NoMemory>
    ensures { IfOk result (λ t. IsClosed pure_terms t) }
{
    let mut tree = applied_under_two(alloc, 1, 0)?;
    for _ in 0..doublings {
        tree = ap(alloc, doubling(alloc)?, tree)?;
    }
    Ok(tree)
}

/// The same with a third variable: `fn x. fn y. fn z. x y .. y z`.
fn applied_once_more(alloc: Global, doublings: u32) -> Result<Pure, NoMemory>
    ensures { IfOk result (λ t. IsClosed pure_terms t) }
{
    let more = once_more(alloc)?;
    ap(alloc, more, applied_often(alloc, doublings)?)
}

/// `fn e. fn x. fn y. fn z. e x y z`
fn once_more(alloc: Global) -> Result<Pure, NoMemory>
    ensures { IfOk result (λ t. IsClosed pure_terms t) }
{
    let body = on_variable(alloc, variables(alloc, 3, 2)?, 1)?;
    let body = function_of_two(alloc, on_variable(alloc, body, 0)?)?;
    function_of_two(alloc, body)
}

/// The identity with that many functions `fn x. x x` applied to it, one to the other.
pub(crate) fn tower(alloc: Global, doublings: u32) -> Result<Pure, NoMemory>
    ensures { IfOk result (λ t. IsClosed pure_terms t) }
{
    let mut tree = identity(alloc)?;
    for _ in 0..doublings {
        tree = ap(alloc, twice(alloc)?, tree)?;
    }
    Ok(tree)
}

/// `W W (fn z. z)`, where W is `fn x. fn a. x x ((fn y. y) a)`: each two contractions make the argument deeper by one.
pub(crate) fn growing(alloc: Global) -> Result<Pure, NoMemory>
    ensures { IfOk result (λ t. IsClosed pure_terms t) }
{
    let both = ap(alloc, half_of_growing(alloc)?, half_of_growing(alloc)?)?;
    ap(alloc, both, identity(alloc)?)
}

/// `fn x. fn a. x x ((fn y. y) a)`
fn half_of_growing(alloc: Global) -> Result<Pure, NoMemory>
    ensures { IfOk result (λ t. IsClosed pure_terms t) }
{
    let head = variables(alloc, 1, 1)?;
    function_of_two(alloc, ap(alloc, head, identity_on_variable(alloc)?)?)
}

/// `(fn y. y) a`, where a is the variable 0.
fn identity_on_variable(alloc: Global) -> Result<Pure, NoMemory>
    ensures { IfOk result (λ t. t ≡ forms.ap (forms.fn (var 0)) (var 0)) }
{
    let identity = function(alloc, Pure::var(alloc, 0)?)?;
    on_variable(alloc, identity, 0)
}

/// The name of the first item, applied to the identity.
fn applied_name(alloc: Global) -> Result<Pure, NoMemory>
    ensures { IfOk result (λ t. IsClosed pure_terms t) }
{
    ap(alloc, Pure::name(alloc, 0)?, identity(alloc)?)
}
