//! Kinds, by Core's rules read upwards.
ghost use Rattle.std.specs.Prelude.{◌≡◌, ◌+◌, ◌≤◌, IfOk, length};
ghost use Rattle.cdle_model.specs.Check.{at_part, infer};
ghost use Rattle.cdle_model.specs.Classes.{Fits, guide_kinds, item_sorts, kinds, within};
ghost use Rattle.cdle_model.specs.Depth.{depth};
ghost use Rattle.cdle_model.specs.Derivation.{a_kind, signature};
ghost use Rattle.cdle_model.specs.Erasure.{HasErasure, erased};
ghost use Rattle.cdle_model.specs.Fitting.{ContextFits};
ghost use Rattle.cdle_model.specs.Forms.{kpi, kpit};
ghost use Rattle.core_rules.specs.Context.{entries, sorts};
ghost use Rattle.core_rules.specs.Questions.{MeetsKind, Passes};

use crate::item::Checker;
use core_rules::{Context, Fault};
use core_tree::{GuideKind, Kind, KindForm, Ty};

impl Checker<'_> {
    /// The part of this number is a kind.
    #[cycle(infer)]
    pub(crate) fn is_kind(
        &self,
        number: u32,
        context: &Context<'_>,
        kind: &Kind,
    ) -> Result<(), Fault>
        requires context { ContextFits (item_sorts self.now.rules.items.now) (entries context.now) }
        requires fits { Fits (within (sorts context.now) (item_sorts self.now.rules.items.now)) kinds kind.now }
        requires few { length (entries context.now) + depth kind.now ≤ 4096 }
        ensures passes { Passes self.now.rules.items.now self.now.rules.budget (λ q. at_part number (infer (signature self.now.rules.items.now) a_kind (entries context.now) kind.now) (λ _. q)) result }
        ensures erasure { IfOk result (λ _. HasErasure kind.now) }
    {
        self.rules.items.known();
        match self.kind_form(context, kind) {
            Ok(()) => Ok(()),
            Err(fault) => Err(fault.inside(number)),
        }
    }

    /// The erasure of the part of this number, which is a kind.
    #[cycle(infer)]
    pub(crate) fn erased_kind(
        &self,
        number: u32,
        context: &Context<'_>,
        kind: &Kind,
    ) -> Result<GuideKind, Fault>
        requires context { ContextFits (item_sorts self.now.rules.items.now) (entries context.now) }
        requires fits { Fits (within (sorts context.now) (item_sorts self.now.rules.items.now)) kinds kind.now }
        requires few { length (entries context.now) + depth kind.now ≤ 4096 }
        ensures passes { Passes self.now.rules.items.now self.now.rules.budget (λ q. at_part number (infer (signature self.now.rules.items.now) a_kind (entries context.now) kind.now) (λ _. q)) result }
        ensures is { IfOk result (λ domain. domain ≡ erased kind.now) }
        ensures erasure { IfOk result (λ _. HasErasure kind.now) }
        ensures fits { IfOk result (λ domain. Fits (within (sorts context.now) (item_sorts self.now.rules.items.now)) guide_kinds domain) }
    {
        self.is_kind(number, context, kind)?;
        Ok(kind.erase(self.rules.alloc)?)
    }

    #[cycle(infer)]
    fn kind_form(&self, context: &Context<'_>, kind: &Kind) -> Result<(), Fault>
        requires context { ContextFits (item_sorts self.now.rules.items.now) (entries context.now) }
        requires fits { Fits (within (sorts context.now) (item_sorts self.now.rules.items.now)) kinds kind.now }
        requires few { length (entries context.now) + depth kind.now ≤ 4096 }
        ensures { MeetsKind self.now.rules.items.now self.now.rules.budget (infer (signature self.now.rules.items.now) a_kind (entries context.now) kind.now) result }
    {
        match kind.form() {
            KindForm::Star => Ok(()),
            KindForm::Kpi(domain, part) => self.term_product(context, domain, part),
            KindForm::Kpit(domain, part) => self.type_product(context, domain, part),
        }
    }

    /// A kind of types over terms.
    #[cycle(infer)]
    fn term_product(&self, context: &Context<'_>, domain: &Ty, part: &Kind) -> Result<(), Fault>
        requires context { ContextFits (item_sorts self.now.rules.items.now) (entries context.now) }
        requires fits { Fits (within (sorts context.now) (item_sorts self.now.rules.items.now)) kinds (kpi domain.now part.now) }
        requires few { length (entries context.now) + depth (kpi domain.now part.now) ≤ 4096 }
        ensures { MeetsKind self.now.rules.items.now self.now.rules.budget (infer (signature self.now.rules.items.now) a_kind (entries context.now) (kpi domain.now part.now)) result }
    {
        let domain = self.erased_type(1, context, domain)?;
        self.is_kind(2, &Context::Term(&domain, &*context), part)?;
        Ok(())
    }

    /// A kind of types over types.
    #[cycle(infer)]
    fn type_product(&self, context: &Context<'_>, domain: &Kind, part: &Kind) -> Result<(), Fault>
        requires context { ContextFits (item_sorts self.now.rules.items.now) (entries context.now) }
        requires fits { Fits (within (sorts context.now) (item_sorts self.now.rules.items.now)) kinds (kpit domain.now part.now) }
        requires few { length (entries context.now) + depth (kpit domain.now part.now) ≤ 4096 }
        ensures { MeetsKind self.now.rules.items.now self.now.rules.budget (infer (signature self.now.rules.items.now) a_kind (entries context.now) (kpit domain.now part.now)) result }
    {
        let domain = self.erased_kind(1, context, domain)?;
        self.is_kind(2, &Context::Type(&domain, &*context), part)?;
        Ok(())
    }
}
