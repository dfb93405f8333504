//! Trees that the rules build, none of them deeper than 4,096.
ghost use Rattle.std.specs.Prelude.{◌≡◌};
ghost use Rattle.cdle_model.specs.Classes.{UsedAs, guide_kinds, guides};
ghost use Rattle.cdle_model.specs.Forms.{all as all_tree, allt as allt_tree, eq as eq_tree, iota as iota_tree, kpi as kpi_tree, kpit as kpit_tree, pi as pi_tree};
ghost use Rattle.cdle_model.specs.Trees.{IsBelow, put};
ghost use Rattle.cdle_model.specs.declared.grammar.Sort.TheVariants.{OfTerm, OfType as OfTypes};
ghost use Rattle.core_reduce.specs.declared.side.SideClass.TheVariants.{OfKind, OfPure, OfType};
ghost use Rattle.core_rules.specs.Faults.{IsLimited};

use crate::fault::{Fault, room};
use core_reduce::Side;
use core_tree::{Guide, GuideKind, Kept, Pure};
use std::alloc::Global;

/// The type, unless it is too deep.
pub fn limited(ty: Guide) -> Result<Guide, Fault>
    ensures { IsLimited ty result }
{
    if ty.depth() <= 4096 {
        Ok(ty)
    } else {
        Err(Fault::TooDeep)
    }
}

/// The kind, unless it is too deep.
pub(crate) fn limited_kind(kind: GuideKind) -> Result<GuideKind, Fault>
    ensures { IsLimited kind result }
{
    if kind.depth() <= 4096 {
        Ok(kind)
    } else {
        Err(Fault::TooDeep)
    }
}

/// The type of functions over terms of that type, unless it is too deep.
pub fn pi(alloc: Global, domain: &Guide, part: &Guide) -> Result<Guide, Fault>
    ensures { IsLimited (pi_tree domain.now part.now) result }
{
    room(domain.depth().max(part.depth()))?;
    Ok(Guide::pi(alloc, domain, part)?)
}

/// The type of functions whose argument is erased, unless it is too deep.
pub(crate) fn all(alloc: Global, domain: &Guide, part: &Guide) -> Result<Guide, Fault>
    ensures { IsLimited (all_tree domain.now part.now) result }
{
    room(domain.depth().max(part.depth()))?;
    Ok(Guide::all(alloc, domain, part)?)
}

/// The type of functions over types of that kind, unless it is too deep.
pub fn allt(alloc: Global, domain: &GuideKind, part: &Guide) -> Result<Guide, Fault>
    ensures { IsLimited (allt_tree domain.now part.now) result }
{
    room(domain.depth().max(part.depth()))?;
    Ok(Guide::allt(alloc, domain, part)?)
}

/// The intersection of the two types, unless it is too deep.
pub(crate) fn iota(alloc: Global, left: &Guide, right: &Guide) -> Result<Guide, Fault>
    ensures { IsLimited (iota_tree left.now right.now) result }
{
    room(left.depth().max(right.depth()))?;
    Ok(Guide::iota(alloc, left, right)?)
}

/// The equation of the two terms, unless it is too deep.
pub fn eq(alloc: Global, left: &Pure, right: &Pure) -> Result<Guide, Fault>
    ensures { IsLimited (eq_tree left.now right.now) result }
{
    room(left.depth().max(right.depth()))?;
    Ok(Guide::eq(alloc, left, right)?)
}

/// The kind of types over terms of that type, unless it is too deep.
pub fn kpi(alloc: Global, domain: &Guide, part: &GuideKind) -> Result<GuideKind, Fault>
    ensures { IsLimited (kpi_tree domain.now part.now) result }
{
    room(domain.depth().max(part.depth()))?;
    Ok(GuideKind::kpi(alloc, domain, part)?)
}

/// The kind of types over types of that kind, unless it is too deep.
pub fn kpit(alloc: Global, domain: &GuideKind, part: &GuideKind) -> Result<GuideKind, Fault>
    ensures { IsLimited (kpit_tree domain.now part.now) result }
{
    room(domain.depth().max(part.depth()))?;
    Ok(GuideKind::kpit(alloc, domain, part)?)
}

/// The type for which a side stands, as one tree.
pub fn whole_type(alloc: Global, side: &Side) -> Result<Guide, Fault>
    requires { side.now.class ≡ OfType }
    ensures { IsLimited side.now.tree result }
{
    match side.tree_guide(alloc)? {
        Kept::Whole(ty) => Ok(ty),
        Kept::Deep => Err(Fault::TooDeep),
    }
}

/// The kind for which a side stands, as one tree.
fn whole_kind(side: &Side) -> Result<GuideKind, Fault>
    requires { side.now.class ≡ OfKind }
    ensures { IsLimited side.now.tree result }
{
    match side.tree_kind()? {
        Kept::Whole(kind) => Ok(kind),
        Kept::Deep => Err(Fault::TooDeep),
    }
}

/// The type with the term put for its variable 0.
pub(crate) fn put_term(alloc: Global, ty: &Guide, term: &Pure) -> Result<Guide, Fault>
    requires used { UsedAs OfTerm 0 guides ty.now }
    requires below { IsBelow 4290000000 term.now }
    ensures { IsLimited (put 0 term.now ty.now) result }
{
    Ok(ty.put_pure(alloc, 0, term)?)
}

/// The type with the term for which a side stands put for its variable 0.
pub(crate) fn put_side(alloc: Global, ty: &Guide, side: &Side) -> Result<Guide, Fault>
    requires class { side.now.class ≡ OfPure }
    requires used { UsedAs OfTerm 0 guides ty.now }
    requires below { IsBelow 4290000000 side.now.tree }
    ensures { IsLimited (put 0 side.now.tree ty.now) result }
{
    let term = side.flat_pure(alloc)?;
    Ok(ty.put_pure(alloc, 0, &term)?)
}

/// The type of a side, with the term put for its variable 0. Where that is too deep, so is the result.
#[tactic(auto, using(cdle_model::proofs::Trees::depth_put))]
pub(crate) fn put_term_in_type(alloc: Global, ty: &Side, term: &Pure) -> Result<Guide, Fault>
    requires class { ty.now.class ≡ OfType }
    requires used { UsedAs OfTerm 0 guides ty.now.tree }
    requires below { IsBelow 4290000000 term.now }
    ensures { IsLimited (put 0 term.now ty.now.tree) result }
{
    let ty = whole_type(alloc, ty)?;
    Ok(ty.put_pure(alloc, 0, term)?)
}

#[tactic(auto, using(cdle_model::proofs::Trees::depth_put))]
pub(crate) fn put_type_in_type(alloc: Global, ty: &Side, arg: &Guide) -> Result<Guide, Fault>
    requires class { ty.now.class ≡ OfType }
    requires used { UsedAs OfTypes 0 guides ty.now.tree }
    requires below { IsBelow 4290000000 arg.now }
    ensures { IsLimited (put 0 arg.now ty.now.tree) result }
{
    let ty = whole_type(alloc, ty)?;
    Ok(ty.put_guide(alloc, 0, arg)?)
}

#[tactic(auto, using(cdle_model::proofs::Trees::depth_put))]
pub(crate) fn put_term_in_kind(alloc: Global, kind: &Side, term: &Pure) -> Result<GuideKind, Fault>
    requires class { kind.now.class ≡ OfKind }
    requires used { UsedAs OfTerm 0 guide_kinds kind.now.tree }
    requires below { IsBelow 4290000000 term.now }
    ensures { IsLimited (put 0 term.now kind.now.tree) result }
{
    let kind = whole_kind(kind)?;
    Ok(kind.put_pure(alloc, 0, term)?)
}

#[tactic(auto, using(cdle_model::proofs::Trees::depth_put))]
pub(crate) fn put_type_in_kind(alloc: Global, kind: &Side, arg: &Guide) -> Result<GuideKind, Fault>
    requires class { kind.now.class ≡ OfKind }
    requires used { UsedAs OfTypes 0 guide_kinds kind.now.tree }
    requires below { IsBelow 4290000000 arg.now }
    ensures { IsLimited (put 0 arg.now kind.now.tree) result }
{
    let kind = whole_kind(kind)?;
    Ok(kind.put_guide(alloc, 0, arg)?)
}
