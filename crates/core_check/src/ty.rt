//! The kinds of types, by Core's rules read upwards.
ghost use Rattle.std.specs.Prelude.{◌≡◌, ◌+◌, ◌∷◌, ◌≤◌, [], IfOk, length};
ghost use Rattle.cdle_model.specs.Check.{at_part, binder_then, finds, infer, star_then};
ghost use Rattle.cdle_model.specs.Classes.{Fits, guide_kinds, guides, item_sorts, types, within};
ghost use Rattle.cdle_model.specs.Depth.{depth};
ghost use Rattle.cdle_model.specs.Derivation.{a_type, signature, term_of};
ghost use Rattle.cdle_model.specs.Erasure.{HasErasure, erased};
ghost use Rattle.cdle_model.specs.Fitting.{ContextFits};
ghost use Rattle.cdle_model.specs.Forms.{allt, at_, on, pi, star, tlam, xtlam};
ghost use Rattle.core_rules.specs.Context.{entries, sorts};
ghost use Rattle.core_rules.specs.Formers.{Binds, binder_of, other_form};
ghost use Rattle.core_rules.specs.Questions.{Finds, FindsParts, Meets, Passes};
ghost use Rattle.core_reduce.specs.Values.{classes, former_class, former_parts, former_tree};
ghost use Rattle.core_reduce.specs.declared.side.SideClass.TheVariants.{OfKind};

use crate::item::Checker;
use core_reduce::{Former, Side};
use core_rules::{Context, Fault, kpi, kpit};
use core_tree::{Guide, GuideKind, Kind, Term, Ty, TyForm};

impl Checker<'_> {
    /// The kind of the type that is the part of this number.
    #[cycle(infer)]
    pub(crate) fn ty(&self, number: u32, context: &Context<'_>, ty: &Ty) -> Result<GuideKind, Fault>
        requires context { ContextFits (item_sorts self.now.rules.items.now) (entries context.now) }
        requires fits { Fits (within (sorts context.now) (item_sorts self.now.rules.items.now)) types ty.now }
        requires few { length (entries context.now) + depth ty.now ≤ 4096 }
        ensures finds { Finds self.now.rules.items.now self.now.rules.budget (at_part number (infer (signature self.now.rules.items.now) a_type (entries context.now) ty.now)) result }
        ensures erasure { IfOk result (λ _. HasErasure ty.now) }
        ensures fits { IfOk result (λ kind. Fits (within (sorts context.now) (item_sorts self.now.rules.items.now)) guide_kinds kind) }
    {
        self.rules.items.known();
        match self.ty_form(context, ty) {
            Ok(kind) => Ok(kind),
            Err(fault) => Err(fault.inside(number)),
        }
    }

    /// The part of this number is a type of the kind `*`.
    #[cycle(infer)]
    pub(crate) fn is_type(&self, number: u32, context: &Context<'_>, ty: &Ty) -> Result<(), Fault>
        requires context { ContextFits (item_sorts self.now.rules.items.now) (entries context.now) }
        requires fits { Fits (within (sorts context.now) (item_sorts self.now.rules.items.now)) types ty.now }
        requires few { length (entries context.now) + depth ty.now ≤ 4096 }
        ensures passes { Passes self.now.rules.items.now self.now.rules.budget (star_then number (infer (signature self.now.rules.items.now) a_type (entries context.now) ty.now)) result }
        ensures erasure { IfOk result (λ _. HasErasure ty.now) }
    {
        let found = self.ty(number, context, ty)?;
        self.rules.kind_is_star(number, &found)?;
        Ok(())
    }

    /// The erasure of the part of this number, which is a type of the kind `*`.
    #[cycle(infer)]
    pub(crate) fn erased_type(
        &self,
        number: u32,
        context: &Context<'_>,
        ty: &Ty,
    ) -> Result<Guide, Fault>
        requires context { ContextFits (item_sorts self.now.rules.items.now) (entries context.now) }
        requires fits { Fits (within (sorts context.now) (item_sorts self.now.rules.items.now)) types ty.now }
        requires few { length (entries context.now) + depth ty.now ≤ 4096 }
        ensures passes { Passes self.now.rules.items.now self.now.rules.budget (star_then number (infer (signature self.now.rules.items.now) a_type (entries context.now) ty.now)) result }
        ensures is { IfOk result (λ domain. domain ≡ erased ty.now) }
        ensures erasure { IfOk result (λ _. HasErasure ty.now) }
        ensures fits { IfOk result (λ domain. Fits (within (sorts context.now) (item_sorts self.now.rules.items.now)) guides domain) }
    {
        self.is_type(number, context, ty)?;
        Ok(ty.erase(self.rules.alloc)?)
    }

    #[cycle(infer)]
    fn ty_form(&self, context: &Context<'_>, ty: &Ty) -> Result<GuideKind, Fault>
        requires context { ContextFits (item_sorts self.now.rules.items.now) (entries context.now) }
        requires fits { Fits (within (sorts context.now) (item_sorts self.now.rules.items.now)) types ty.now }
        requires few { length (entries context.now) + depth ty.now ≤ 4096 }
        ensures { Meets self.now.rules.items.now self.now.rules.budget (infer (signature self.now.rules.items.now) a_type (entries context.now) ty.now) result }
    {
        match ty.form() {
            TyForm::Var(index) => self.rules.variable_kind(context, *index),
            TyForm::Name(item) => self.rules.item_kind(context, *item),
            TyForm::Pi(domain, part) => self.dependent(context, domain, part),
            TyForm::All(domain, part) => self.dependent(context, domain, part),
            TyForm::Iota(left, right) => self.dependent(context, left, right),
            TyForm::Allt(kind, part) => self.polymorphic(context, kind, part),
            TyForm::Tlam(ty, part) => self.term_function(context, ty, part),
            TyForm::Xtlam(kind, part) => self.type_function(context, kind, part),
            TyForm::At(head, arg) => self.applied_to_term(context, head, arg),
            TyForm::On(head, arg) => self.applied_to_type(context, head, arg),
            TyForm::Eq(_, _) => Ok(GuideKind::star(self.rules.alloc)?),
        }
    }

    /// The parts of the product of kinds that the kind of this type is.
    #[cycle(infer)]
    fn kind_product_of(
        &self,
        former: Former,
        context: &Context<'_>,
        ty: &Ty,
    ) -> Result<(Side, Side), Fault>
        requires former { Binds former }
        requires class { former_class former ≡ OfKind }
        requires context { ContextFits (item_sorts self.now.rules.items.now) (entries context.now) }
        requires fits { Fits (within (sorts context.now) (item_sorts self.now.rules.items.now)) types ty.now }
        requires few { length (entries context.now) + depth ty.now ≤ 4096 }
        ensures finds { FindsParts self.now.rules.items.now self.now.rules.budget
            (binder_then 1 (binder_of former) (other_form former) (infer (signature self.now.rules.items.now) a_type (entries context.now) ty.now)) result }
        ensures classes { IfOk result (λ p. classes (p.0 ∷ p.1 ∷ []) ≡ former_parts former) }
        ensures fits { IfOk result (λ p. Fits (within (sorts context.now) (item_sorts self.now.rules.items.now)) guide_kinds (former_tree former (p.0 ∷ p.1 ∷ []))) }
    {
        let found = self.ty(1, context, ty)?;
        self.rules.kind_parts(1, former, &found)
    }

    /// A dependent product or intersection: both parts have the kind `*`.
    #[cycle(infer)]
    fn dependent(&self, context: &Context<'_>, domain: &Ty, part: &Ty) -> Result<GuideKind, Fault>
        requires context { ContextFits (item_sorts self.now.rules.items.now) (entries context.now) }
        requires fits { Fits (within (sorts context.now) (item_sorts self.now.rules.items.now)) types (pi domain.now part.now) }
        requires few { length (entries context.now) + depth (pi domain.now part.now) ≤ 4096 }
        ensures { Meets self.now.rules.items.now self.now.rules.budget (star_then 1 (infer (signature self.now.rules.items.now) a_type (entries context.now) domain.now)
            (star_then 2 (infer (signature self.now.rules.items.now) a_type (term_of (erased domain.now) ∷ entries context.now) part.now) (finds star))) result }
    {
        let domain = self.erased_type(1, context, domain)?;
        self.is_type(2, &Context::Term(&domain, &*context), part)?;
        Ok(GuideKind::star(self.rules.alloc)?)
    }

    /// A product over types.
    #[cycle(infer)]
    fn polymorphic(&self, context: &Context<'_>, kind: &Kind, part: &Ty) -> Result<GuideKind, Fault>
        requires context { ContextFits (item_sorts self.now.rules.items.now) (entries context.now) }
        requires fits { Fits (within (sorts context.now) (item_sorts self.now.rules.items.now)) types (allt kind.now part.now) }
        requires few { length (entries context.now) + depth (allt kind.now part.now) ≤ 4096 }
        ensures { Meets self.now.rules.items.now self.now.rules.budget (infer (signature self.now.rules.items.now) a_type (entries context.now) (allt kind.now part.now)) result }
    {
        let domain = self.erased_kind(1, context, kind)?;
        self.is_type(2, &Context::Type(&domain, &*context), part)?;
        Ok(GuideKind::star(self.rules.alloc)?)
    }

    /// A type over terms.
    #[cycle(infer)]
    fn term_function(&self, context: &Context<'_>, ty: &Ty, part: &Ty) -> Result<GuideKind, Fault>
        requires context { ContextFits (item_sorts self.now.rules.items.now) (entries context.now) }
        requires fits { Fits (within (sorts context.now) (item_sorts self.now.rules.items.now)) types (tlam ty.now part.now) }
        requires few { length (entries context.now) + depth (tlam ty.now part.now) ≤ 4096 }
        ensures { Meets self.now.rules.items.now self.now.rules.budget (infer (signature self.now.rules.items.now) a_type (entries context.now) (tlam ty.now part.now)) result }
    {
        let domain = self.erased_type(1, context, ty)?;
        let found = self.ty(2, &Context::Term(&domain, &*context), part)?;
        kpi(self.rules.alloc, &domain, &found)
    }

    /// A type over types.
    #[cycle(infer)]
    fn type_function(
        &self,
        context: &Context<'_>,
        kind: &Kind,
        part: &Ty,
    ) -> Result<GuideKind, Fault>
        requires context { ContextFits (item_sorts self.now.rules.items.now) (entries context.now) }
        requires fits { Fits (within (sorts context.now) (item_sorts self.now.rules.items.now)) types (xtlam kind.now part.now) }
        requires few { length (entries context.now) + depth (xtlam kind.now part.now) ≤ 4096 }
        ensures { Meets self.now.rules.items.now self.now.rules.budget (infer (signature self.now.rules.items.now) a_type (entries context.now) (xtlam kind.now part.now)) result }
    {
        let domain = self.erased_kind(1, context, kind)?;
        let found = self.ty(2, &Context::Type(&domain, &*context), part)?;
        kpit(self.rules.alloc, &domain, &found)
    }

    /// A type applied to a term.
    #[cycle(infer)]
    fn applied_to_term(
        &self,
        context: &Context<'_>,
        head: &Ty,
        arg: &Term,
    ) -> Result<GuideKind, Fault>
        requires context { ContextFits (item_sorts self.now.rules.items.now) (entries context.now) }
        requires fits { Fits (within (sorts context.now) (item_sorts self.now.rules.items.now)) types (at_ head.now arg.now) }
        requires few { length (entries context.now) + depth (at_ head.now arg.now) ≤ 4096 }
        ensures { Meets self.now.rules.items.now self.now.rules.budget (infer (signature self.now.rules.items.now) a_type (entries context.now) (at_ head.now arg.now)) result }
    {
        let parts = self.kind_product_of(Former::Kpi, context, head)?;
        let found = self.term(2, context, arg)?;
        self.rules.kind_at_term(&parts, &found, arg)
    }

    /// A type applied to a type.
    #[cycle(infer)]
    fn applied_to_type(
        &self,
        context: &Context<'_>,
        head: &Ty,
        arg: &Ty,
    ) -> Result<GuideKind, Fault>
        requires context { ContextFits (item_sorts self.now.rules.items.now) (entries context.now) }
        requires fits { Fits (within (sorts context.now) (item_sorts self.now.rules.items.now)) types (on head.now arg.now) }
        requires few { length (entries context.now) + depth (on head.now arg.now) ≤ 4096 }
        ensures { Meets self.now.rules.items.now self.now.rules.budget (infer (signature self.now.rules.items.now) a_type (entries context.now) (on head.now arg.now)) result }
    {
        let parts = self.kind_product_of(Former::Kpit, context, head)?;
        let found = self.ty(2, context, arg)?;
        self.rules.kind_at_type(&parts, &found, arg)
    }
}
