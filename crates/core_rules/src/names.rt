//! The types and kinds of variables and of names, which a rule gives unless they are too deep.
ghost use Rattle.std.specs.Prelude.{◌≤◌, length};
ghost use Rattle.cdle_model.specs.Check.{infer};
ghost use Rattle.cdle_model.specs.Classes.{Fits, item_sorts, terms, types, within};
ghost use Rattle.cdle_model.specs.Derivation.{a_term, a_type, signature};
ghost use Rattle.cdle_model.specs.Fitting.{ContextFits};
ghost use Rattle.cdle_model.specs.Trees.{name, var};
ghost use Rattle.core_rules.specs.Context.{entries, sorts};
ghost use Rattle.core_rules.specs.Questions.{Meets};

use crate::ask::Rules;
use crate::context::Context;
use crate::fault::Fault;
use crate::limit::{limited, limited_kind};
use core_tree::{CoreItem, Guide, GuideKind};

impl Rules<'_> {
    /// The type of a term's variable.
    pub fn variable_type(&self, context: &Context<'_>, index: u32) -> Result<Guide, Fault>
        requires context { ContextFits (item_sorts self.now.items.now) (entries context.now) }
        requires fits { Fits (within (sorts context.now) (item_sorts self.now.items.now)) terms (var index) }
        requires few { length (entries context.now) ≤ 4096 }
        ensures { Meets self.now.items.now self.now.budget (infer (signature self.now.items.now) a_term (entries context.now) (var index)) result }
    {
        limited(self.type_of(context, index, 0)?)
    }

    /// The type of an item that is a term.
    pub fn item_type(&self, context: &Context<'_>, item: u32) -> Result<Guide, Fault>
        requires fits { Fits (within (sorts context.now) (item_sorts self.now.items.now)) terms (name item) }
        ensures { Meets self.now.items.now self.now.budget (infer (signature self.now.items.now) a_term (entries context.now) (name item)) result }
    {
        self.items.known();
        match self.items.get(item) {
            CoreItem::Def { ty, .. } => limited(ty.erase(self.alloc)?),
            CoreItem::TypeDef { .. } => unreachable!(),
        }
    }

    /// The kind of a type's variable.
    pub fn variable_kind(&self, context: &Context<'_>, index: u32) -> Result<GuideKind, Fault>
        requires context { ContextFits (item_sorts self.now.items.now) (entries context.now) }
        requires fits { Fits (within (sorts context.now) (item_sorts self.now.items.now)) types (var index) }
        requires few { length (entries context.now) ≤ 4096 }
        ensures { Meets self.now.items.now self.now.budget (infer (signature self.now.items.now) a_type (entries context.now) (var index)) result }
    {
        limited_kind(self.kind_of(context, index, 0)?)
    }

    /// The kind of an item that is a type.
    pub fn item_kind(&self, context: &Context<'_>, item: u32) -> Result<GuideKind, Fault>
        requires fits { Fits (within (sorts context.now) (item_sorts self.now.items.now)) types (name item) }
        ensures { Meets self.now.items.now self.now.budget (infer (signature self.now.items.now) a_type (entries context.now) (name item)) result }
    {
        self.items.known();
        match self.items.get(item) {
            CoreItem::TypeDef { kind, .. } => limited_kind(kind.erase(self.alloc)?),
            CoreItem::Def { .. } => unreachable!(),
        }
    }
}
