//! One item.
ghost use Rattle.elab_item.specs.Answers.{GivesItem};
ghost use Rattle.elab_model.specs.ScopedForms.{s_def, s_type};
ghost use Rattle.elab_reduce.specs.Items.{env_of};
ghost use Rattle.scoped_tree.specs.Items.{item_of};
ghost use Rattle.source_model.specs.Source.{Span as Place};

use crate::fault::ItemFault;
use cdle_model::Text;
use elab_check::{definition, type_definition};
use elab_tree::{Env, OutItem};
use scoped_tree::{ScopedItem, ScopedKind, ScopedTerm, ScopedType};
use std::alloc::Global;

/// The item of that number over the items so far.
pub(crate) fn next_item(
    alloc: Global,
    env: &Env,
    number: u32,
    source: &ScopedItem,
    units: u64,
) -> Result<OutItem, ItemFault>
    ensures { GivesItem units (env_of env.now) number (item_of source.now) result }
{
    match source {
        ScopedItem::Def { name, ty, body, .. } => term_item(
            alloc, env, number, name, ty, body, units,
        ),
        ScopedItem::TypeDef {
            name,
            kind,
            body,
            ..
        } => type_item(alloc, env, number, name, kind, body, units),
        // The rules of datatypes are not there yet. A module that has one is refused before.
        ScopedItem::Data(_) => Err(ItemFault::NoMemory),
    }
}

/// The definition of a term.
fn term_item(
    alloc: Global,
    env: &Env,
    number: u32,
    name: &Text,
    ty: &ScopedType,
    body: &ScopedTerm,
    units: u64,
) -> Result<OutItem, ItemFault>
    ensures { (s : Place) → GivesItem units (env_of env.now) number (s_def s name.now ty.now body.now) result }
{
    match definition(alloc, env, ty, body, units) {
        Ok((ty, body)) => {
            let name = Text::new(alloc, name.as_str())?;
            Ok(OutItem::Def { name, ty, body })
        }
        Err(fault) => Err(ItemFault::of(number, fault)),
    }
}

/// The definition of a type.
fn type_item(
    alloc: Global,
    env: &Env,
    number: u32,
    name: &Text,
    kind: &ScopedKind,
    body: &ScopedType,
    units: u64,
) -> Result<OutItem, ItemFault>
    ensures { (s : Place) → GivesItem units (env_of env.now) number (s_type s name.now kind.now body.now) result }
{
    match type_definition(alloc, env, kind, body, units) {
        Ok((kind, body)) => {
            let name = Text::new(alloc, name.as_str())?;
            Ok(OutItem::TypeDef { name, kind, body })
        }
        Err(fault) => Err(ItemFault::of(number, fault)),
    }
}
