//! The binders around a part.
ghost use Rattle.std.specs.Prelude.{◌≡◌, ◌+◌, ◌≤◌, IfOk, Some, length, option_map, slice_get};
ghost use Rattle.cdle_model.specs.Classes.{item_sorts};
ghost use Rattle.cdle_model.specs.Derivation.{entry, term_of, type_of};
ghost use Rattle.cdle_model.specs.Fitting.{ContextFits};
ghost use Rattle.cdle_model.specs.declared.grammar.Sort.TheVariants.{OfTerm, OfType};
ghost use Rattle.core_rules.specs.Context.{entries, lifted, sorts};

use crate::ask::Rules;
use cdle_model::NoMemory;
use core_tree::{Guide, GuideKind};

/// The binders around a part, the innermost first: of a term, with its erased type, or of a type, with its erased kind.
#[derive(Drop)]
pub enum Context<'a> {
    /// No binder.
    Empty,
    /// A binder of a term, inside of the others.
    Term(&'a Guide, &'a Context<'a>),
    /// A binder of a type, inside of the others.
    Type(&'a GuideKind, &'a Context<'a>),
}

impl Rules<'_> {
    /// The type of the term's variable of that number, as it stands under so many more binders.
    pub(crate) fn type_of(
        &self,
        context: &Context<'_>,
        index: u32,
        passed: u32,
    ) -> Result<Guide, NoMemory>
        requires fits { ContextFits (item_sorts self.now.items.now) (entries context.now) }
        requires few { length (entries context.now) + passed ≤ 4096 }
        requires term { slice_get (sorts context.now) index ≡ Some OfTerm }
        ensures { IfOk result (λ ty. option_map (lifted passed) (entry (entries context.now) index) ≡ Some (term_of ty)) }
    {
        match context {
            Context::Empty => unreachable!(),
            Context::Term(ty, outer) => {
                if index == 0 {
                    // Asked for its class and its bound alone.
                    ty.known();
                    let _depth = ty.depth();
                    Ok(ty.shift(self.alloc, 0, passed + 1)?)
                } else {
                    self.type_of(outer, index - 1, passed + 1)
                }
            }
            Context::Type(_, outer) => self.type_of(outer, index - 1, passed + 1),
        }
    }

    /// The kind of the type's variable of that number, as it stands under so many more binders.
    pub(crate) fn kind_of(
        &self,
        context: &Context<'_>,
        index: u32,
        passed: u32,
    ) -> Result<GuideKind, NoMemory>
        requires fits { ContextFits (item_sorts self.now.items.now) (entries context.now) }
        requires few { length (entries context.now) + passed ≤ 4096 }
        requires is_type { slice_get (sorts context.now) index ≡ Some OfType }
        ensures { IfOk result (λ kind. option_map (lifted passed) (entry (entries context.now) index) ≡ Some (type_of kind)) }
    {
        match context {
            Context::Empty => unreachable!(),
            Context::Type(kind, outer) => {
                if index == 0 {
                    // Asked for its class and its bound alone.
                    kind.known();
                    let _depth = kind.depth();
                    Ok(kind.shift(self.alloc, 0, passed + 1)?)
                } else {
                    self.kind_of(outer, index - 1, passed + 1)
                }
            }
            Context::Term(_, outer) => self.kind_of(outer, index - 1, passed + 1),
        }
    }
}
