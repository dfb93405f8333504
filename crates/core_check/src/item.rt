//! The check of one item.
ghost use Rattle.std.specs.Prelude.{[], IfOk, List, ℕ};
ghost use Rattle.cdle_model.specs.Check.{infer_item};
ghost use Rattle.cdle_model.specs.Classes.{Fits, IsScopedOver, item_sorts, kinds, terms, types, within};
ghost use Rattle.cdle_model.specs.Derivation.{signature};
ghost use Rattle.cdle_model.specs.Erasure.{HasErasure};
ghost use Rattle.cdle_model.specs.Fitting.{ItemHasErasures};
ghost use Rattle.cdle_model.specs.Forms.{def_item, type_item};
ghost use Rattle.core_tree.specs.Items.{written};
ghost use Rattle.core_check.specs.Answer.{MeetsItem};

use core_reduce::Side;
use core_rules::{Context, Fault, Rules};
use core_tree::{CoreItem, Kind, Term, Ty};

/// Core's rules over the items so far, read upwards from an item down to its parts.
#[derive(Drop)]
pub(crate) struct Checker<'a> {
    pub(crate) rules: Rules<'a>,
}

impl Checker<'_> {
    /// An item: its written type has the kind `*`, or its written kind is one, and its body has it.
    pub(crate) fn item(&self, item: &CoreItem) -> Result<(), Fault>
        requires { IsScopedOver self.now.rules.items.now (written item.now) }
        ensures meets { MeetsItem self.now.rules.items.now self.now.rules.budget (infer_item (signature self.now.rules.items.now) (written item.now)) result }
        ensures erasures { IfOk result (λ _. ItemHasErasures (written item.now)) }
    {
        match item {
            CoreItem::Def { ty, body, .. } => self.definition(ty, body),
            CoreItem::TypeDef { kind, body, .. } => self.type_definition(kind, body),
        }
    }

    fn definition(&self, ty: &Ty, body: &Term) -> Result<(), Fault>
        requires ty_fits { Fits (within [] (item_sorts self.now.rules.items.now)) types ty.now }
        requires body_fits { Fits (within [] (item_sorts self.now.rules.items.now)) terms body.now }
        ensures meets { (x : List ℕ) → MeetsItem self.now.rules.items.now self.now.rules.budget (infer_item (signature self.now.rules.items.now) (def_item x ty.now body.now)) result }
        ensures ty_erasure { IfOk result (λ _. HasErasure ty.now) }
        ensures body_erasure { IfOk result (λ _. HasErasure body.now) }
    {
        // Asked for their bounds alone.
        let _depth = ty.depth();
        let _depth = body.depth();
        self.is_type(1, &Context::Empty, ty)?;
        let found = self.term(2, &Context::Empty, body)?;
        let wanted = Side::of_type(self.rules.alloc, ty)?;
        self.rules.type_is_side(2, &found, &wanted)
    }

    fn type_definition(&self, kind: &Kind, body: &Ty) -> Result<(), Fault>
        requires kind_fits { Fits (within [] (item_sorts self.now.rules.items.now)) kinds kind.now }
        requires body_fits { Fits (within [] (item_sorts self.now.rules.items.now)) types body.now }
        ensures meets { (x : List ℕ) → MeetsItem self.now.rules.items.now self.now.rules.budget (infer_item (signature self.now.rules.items.now) (type_item x kind.now body.now)) result }
        ensures kind_erasure { IfOk result (λ _. HasErasure kind.now) }
        ensures body_erasure { IfOk result (λ _. HasErasure body.now) }
    {
        // Asked for their bounds alone.
        let _depth = kind.depth();
        let _depth = body.depth();
        self.is_kind(1, &Context::Empty, kind)?;
        let found = self.ty(2, &Context::Empty, body)?;
        let wanted = Side::of_kind(self.rules.alloc, kind)?;
        self.rules.kind_is_side(2, &found, &wanted)
    }
}
