//! The kind of an annotated type, read off it.
ghost use Rattle.std.specs.Prelude.{◌∷◌, slice_get, ℕ};
ghost use Rattle.cdle_model.specs.Derivation.{entry, term_of, type_of};
ghost use Rattle.cdle_model.specs.Forms.{kpi, kpit};
ghost use Rattle.cdle_model.specs.Substitution.{put_written};
ghost use Rattle.cdle_model.specs.Trees.{Tree, kpi_of, kpit_of};
ghost use Rattle.elab_model.specs.Questions.{limited, rejects, then};
ghost use Rattle.elab_model.specs.Spines.{binder_parts, kind_in as kind_in_entry, kind_of as kind_in, known_of};
ghost use Rattle.elab_model.specs.declared.codes.Code.TheVariants.{WantedKind};
ghost use Rattle.elab_reduce.specs.Items.{env_of};
ghost use Rattle.elab_rules.specs.Answers.{Meets};
ghost use Rattle.elab_rules.specs.Contexts.{entries};
ghost use Rattle.elab_tree.specs.Answers.{Gives};
ghost use Rattle.elab_tree.specs.Known.{Known};
ghost use Rattle.scoped_tree.specs.Trees.{place};

use crate::ask::Rules;
use crate::context::Context;
use crate::fault::Fault;
use crate::place::At;
use cdle_names::Span;
use elab_model::Code;
use elab_tree::{EKind, EKindForm, ETerm, EType, ETypeForm, TreeStop};

impl Rules<'_> {
    /// The kind of an annotated type, read off it.
    #[cycle(kind_of)]
    pub(crate) fn kind_of(
        &self,
        whole: Span,
        context: &Context<'_>,
        ty: &EType,
    ) -> Result<EKind, Fault>
        ensures { Meets self.now.env.now self.now.budget (kind_in (env_of self.now.env.now) (place whole) (entries context.now) ty.now) result }
    {
        match ty.form() {
            ETypeForm::Var(index) => self.kind_of_variable(whole, context, *index),
            ETypeForm::Name(item) => self.kind_of_item(whole, *item),
            ETypeForm::Tlam(domain, body) => self.term_function_kind(whole, context, domain, body),
            ETypeForm::Xtlam(domain, body) => self.type_function_kind(whole, context, domain, body),
            ETypeForm::At(head, arg) => self.kind_at_term(whole, context, head, arg),
            ETypeForm::On(head, arg) => self.kind_at_type(whole, context, head, arg),
            ETypeForm::Pi(_, _)
            | ETypeForm::All(_, _)
            | ETypeForm::Allt(_, _)
            | ETypeForm::Iota(_, _)
            | ETypeForm::Eq(_, _) => Ok(EKind::star(self.alloc)?),
            // Not reached: a solution has no unknown.
            ETypeForm::Unknown(_) => Err(Fault::NoMemory),
        }
    }

    /// The kind of a function over terms.
    #[cycle(kind_of)]
    fn term_function_kind(
        &self,
        whole: Span,
        context: &Context<'_>,
        domain: &EType,
        body: &EType,
    ) -> Result<EKind, Fault>
        ensures { Meets self.now.env.now self.now.budget (then (kind_in (env_of self.now.env.now) (place whole) (term_of domain.now ∷ entries context.now) body.now) (λ k. limited (place whole) (kpi domain.now k))) result }
    {
        let kind = self.kind_of(whole, &Context::Term(domain, &*context), body)?;
        self.kind_of_terms(whole, domain, &kind)
    }

    /// The kind of a function over types.
    #[cycle(kind_of)]
    fn type_function_kind(
        &self,
        whole: Span,
        context: &Context<'_>,
        domain: &EKind,
        body: &EType,
    ) -> Result<EKind, Fault>
        ensures { Meets self.now.env.now self.now.budget (then (kind_in (env_of self.now.env.now) (place whole) (type_of domain.now ∷ entries context.now) body.now) (λ k. limited (place whole) (kpit domain.now k))) result }
    {
        let kind = self.kind_of(whole, &Context::OfType(domain, &*context), body)?;
        self.kind_of_types(whole, domain, &kind)
    }

    /// The kind of a type applied to a term.
    #[cycle(kind_of)]
    fn kind_at_term(
        &self,
        whole: Span,
        context: &Context<'_>,
        head: &EType,
        arg: &ETerm,
    ) -> Result<EKind, Fault>
        ensures { Meets self.now.env.now self.now.budget (then (kind_in (env_of self.now.env.now) (place whole) (entries context.now) head.now) (λ k. binder_parts kpi_of k (λ b l. limited (place whole) (put_written 0 arg.now l)) (rejects (place whole) WantedKind))) result }
    {
        let kind = self.kind_of(whole, context, head)?;
        self.range_at_term(whole, &kind, arg)
    }

    /// The kind of a type applied to a type.
    #[cycle(kind_of)]
    fn kind_at_type(
        &self,
        whole: Span,
        context: &Context<'_>,
        head: &EType,
        arg: &EType,
    ) -> Result<EKind, Fault>
        ensures { Meets self.now.env.now self.now.budget (then (kind_in (env_of self.now.env.now) (place whole) (entries context.now) head.now) (λ k. binder_parts kpit_of k (λ m l. limited (place whole) (put_written 0 arg.now l)) (rejects (place whole) WantedKind))) result }
    {
        let kind = self.kind_of(whole, context, head)?;
        self.range_at_type(whole, &kind, arg)
    }

    /// The range of the product of kinds over terms, with the term put in it.
    fn range_at_term(&self, whole: Span, kind: &EKind, arg: &ETerm) -> Result<EKind, Fault>
        ensures { Meets self.now.env.now self.now.budget (binder_parts kpi_of kind.now (λ b l. limited (place whole) (put_written 0 arg.now l)) (rejects (place whole) WantedKind)) result }
    {
        match kind.form() {
            EKindForm::Kpi(_, range) => limited_kind(whole, range.put_term(self.alloc, 0, arg)),
            _ => Err(Fault::Rejected(At::Whole(whole), Code::WantedKind)),
        }
    }

    /// The range of the product of kinds over types, with the type put in it.
    fn range_at_type(&self, whole: Span, kind: &EKind, arg: &EType) -> Result<EKind, Fault>
        ensures { Meets self.now.env.now self.now.budget (binder_parts kpit_of kind.now (λ m l. limited (place whole) (put_written 0 arg.now l)) (rejects (place whole) WantedKind)) result }
    {
        match kind.form() {
            EKindForm::Kpit(_, range) => limited_kind(whole, range.put_type(self.alloc, 0, arg)),
            _ => Err(Fault::Rejected(At::Whole(whole), Code::WantedKind)),
        }
    }

    /// The kind of the type's variable of that number.
    fn kind_of_variable(
        &self,
        whole: Span,
        context: &Context<'_>,
        index: u32,
    ) -> Result<EKind, Fault>
        ensures { Meets self.now.env.now self.now.budget (kind_in_entry (entry (entries context.now) index)) result }
    {
        match self.variable_kind(whole, context, index) {
            Ok(kind) => Ok(kind),
            // Deeper than 4,096: only where the context's own kind is.
            Err(_) => Err(Fault::NoMemory),
        }
    }

    /// The kind of the item of that number, where it is a type.
    fn kind_of_item(&self, whole: Span, item: u32) -> Result<EKind, Fault>
        ensures { Meets self.now.env.now self.now.budget (kind_in_entry (known_of (slice_get (env_of self.now.env.now).items item))) result }
    {
        match self.item_kind(whole, item) {
            Ok(kind) => Ok(kind),
            // Deeper than 4,096: only where the item's own kind is.
            Err(_) => Err(Fault::NoMemory),
        }
    }
}

/// What a change of a kind of this form answers.
pub(crate) fn limited_kind(form: Span, answer: Result<EKind, TreeStop>) -> Result<EKind, Fault>
    ensures { (e : Known) (n : ℕ) (t : Tree) → Gives t answer → Meets e n (limited (place form) t) result }
{
    match answer {
        Ok(kind) => Ok(kind),
        Err(stop) => Err(Fault::stopped(form, stop)),
    }
}
