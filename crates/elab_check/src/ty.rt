//! Types with their kinds, by the rules read upwards.
ghost use Rattle.std.specs.Prelude.{List, ◌∷◌};
ghost use Rattle.cdle_model.specs.Derivation.{Entry, term_of, type_of};
ghost use Rattle.elab_model.specs.Questions.{gives};
ghost use Rattle.elab_model.specs.Rules.{star_then, type as type_in};
ghost use Rattle.elab_model.specs.ScopedForms.{s_allt, s_at, s_eq, s_on, s_tlam, s_xtlam};
ghost use Rattle.elab_model.specs.Soundness.{no_encodings};
ghost use Rattle.elab_reduce.specs.Items.{env_of};
ghost use Rattle.elab_rules.specs.Answers.{Meets};
ghost use Rattle.elab_rules.specs.Contexts.{entries};
ghost use Rattle.scoped_tree.specs.Trees.{bind_form, place, two_form};
ghost use Rattle.source_model.specs.Source.{bind, two};
ghost use Rattle.elab_check.specs.Forms.{formed};

use crate::checker::Checker;
use cdle_names::Span;
use elab_erase::erased_term;
use elab_rules::{At, Context, Fault, Former};
use elab_tree::{EKind, EType};
use scoped_tree::{BindForm, Scoped, ScopedForm, TwoForm};

impl Checker<'_> {
    /// A type with its kind.
    #[cycle(infer)]
    pub(crate) fn ty(&self, context: &Context<'_>, node: &Scoped) -> Result<(EType, EKind), Fault>
        ensures { Meets self.now.rules.env.now self.now.rules.budget (type_in (env_of self.now.rules.env.now) no_encodings (entries context.now) node.now) result }
    {
        match node.form() {
            ScopedForm::Use(name) => self.rules.type_name(node.span(), context, *name),
            ScopedForm::Two(form, head, arg) => {
                self.type_of_two(context, node.span(), *form, head, arg)
            }
            ScopedForm::Bind(form, domain, part) => {
                self.type_of_binder(context, node.span(), *form, domain, part)
            }
            _ => Err(Fault::NoMemory),
        }
    }

    /// A part of this form that is a type with the kind `★`.
    #[cycle(infer)]
    pub(crate) fn star(
        &self,
        context: &Context<'_>,
        form: Span,
        part: &Scoped,
    ) -> Result<EType, Fault>
        ensures { Meets self.now.rules.env.now self.now.rules.budget (star_then (place form) part.now (type_in (env_of self.now.rules.env.now) no_encodings (entries context.now) part.now) (λ a. gives a)) result }
    {
        let found = self.ty(context, part)?;
        self.rules.is_star(form, At::Whole(part.span()), &found.1)?;
        Ok(found.0)
    }

    /// A type of two parts.
    #[cycle(infer)]
    fn type_of_two(
        &self,
        context: &Context<'_>,
        span: Span,
        form: TwoForm,
        head: &Scoped,
        arg: &Scoped,
    ) -> Result<(EType, EKind), Fault>
        ensures { Meets self.now.rules.env.now self.now.rules.budget (type_in (env_of self.now.rules.env.now) no_encodings (entries context.now) (two (place span) (two_form form) head.now arg.now)) result }
    {
        match form {
            TwoForm::At => self.type_at_term(context, span, head, arg),
            TwoForm::On => self.type_at_type(context, span, head, arg),
            TwoForm::Eq => self.equation_type(span, head, arg),
            // No scoped type comes to this.
            _ => Err(Fault::NoMemory),
        }
    }

    /// `{ t ≃ u }`.
    fn equation_type(
        &self,
        span: Span,
        left: &Scoped,
        right: &Scoped,
    ) -> Result<(EType, EKind), Fault>
        ensures { (c : List Entry) → Meets self.now.rules.env.now self.now.rules.budget (type_in (env_of self.now.rules.env.now) no_encodings c (s_eq (place span) left.now right.now)) result }
    {
        let left = erased_term(&self.rules, left)?;
        let right = erased_term(&self.rules, right)?;
        self.rules.equation(span, &left, &right)
    }

    /// A type of two parts of which the second stands under the binder.
    #[cycle(infer)]
    fn type_of_binder(
        &self,
        context: &Context<'_>,
        span: Span,
        form: BindForm,
        domain: &Scoped,
        part: &Scoped,
    ) -> Result<(EType, EKind), Fault>
        ensures { Meets self.now.rules.env.now self.now.rules.budget (type_in (env_of self.now.rules.env.now) no_encodings (entries context.now) (bind (place span) (bind_form form) tt domain.now part.now)) result }
    {
        match form {
            BindForm::Pi => self.over_term(context, span, Former::Pi, domain, part),
            BindForm::All => self.over_term(context, span, Former::All, domain, part),
            BindForm::Iota => self.over_term(context, span, Former::Iota, domain, part),
            BindForm::Allt => self.over_type(context, span, domain, part),
            BindForm::Tlam => self.term_function(context, span, domain, part),
            BindForm::Xtlam => self.type_function(context, span, domain, part),
            _ => Err(Fault::NoMemory),
        }
    }

    /// A product over terms, or an intersection.
    #[cycle(infer)]
    fn over_term(
        &self,
        context: &Context<'_>,
        span: Span,
        former: Former,
        domain: &Scoped,
        part: &Scoped,
    ) -> Result<(EType, EKind), Fault>
        ensures { Meets self.now.rules.env.now self.now.rules.budget (type_in (env_of self.now.rules.env.now) no_encodings (entries context.now) (formed former (place span) domain.now part.now)) result }
    {
        let domain = self.star(context, span, domain)?;
        let part = self.star(&Context::Term(&domain, &*context), span, part)?;
        self.rules.over_term(span, former, &domain, &part)
    }

    /// A product over types.
    #[cycle(infer)]
    fn over_type(
        &self,
        context: &Context<'_>,
        span: Span,
        domain: &Scoped,
        part: &Scoped,
    ) -> Result<(EType, EKind), Fault>
        ensures { Meets self.now.rules.env.now self.now.rules.budget (type_in (env_of self.now.rules.env.now) no_encodings (entries context.now) (s_allt (place span) tt domain.now part.now)) result }
    {
        let domain = self.kind(context, domain)?;
        let part = self.star(&Context::OfType(&domain, &*context), span, part)?;
        self.rules.over_type(span, &domain, &part)
    }

    /// `λ x : A . B`.
    #[cycle(infer)]
    fn term_function(
        &self,
        context: &Context<'_>,
        span: Span,
        domain: &Scoped,
        part: &Scoped,
    ) -> Result<(EType, EKind), Fault>
        ensures { Meets self.now.rules.env.now self.now.rules.budget (type_in (env_of self.now.rules.env.now) no_encodings (entries context.now) (s_tlam (place span) tt domain.now part.now)) result }
    {
        let domain = self.star(context, span, domain)?;
        let body = self.ty(&Context::Term(&domain, &*context), part)?;
        self.rules.term_function(span, &domain, &body)
    }

    /// `λ X : κ . B`.
    #[cycle(infer)]
    fn type_function(
        &self,
        context: &Context<'_>,
        span: Span,
        domain: &Scoped,
        part: &Scoped,
    ) -> Result<(EType, EKind), Fault>
        ensures { Meets self.now.rules.env.now self.now.rules.budget (type_in (env_of self.now.rules.env.now) no_encodings (entries context.now) (s_xtlam (place span) tt domain.now part.now)) result }
    {
        let domain = self.kind(context, domain)?;
        let body = self.ty(&Context::OfType(&domain, &*context), part)?;
        self.rules.type_function(span, &domain, &body)
    }

    /// `A t`.
    #[cycle(infer)]
    fn type_at_term(
        &self,
        context: &Context<'_>,
        span: Span,
        head: &Scoped,
        arg: &Scoped,
    ) -> Result<(EType, EKind), Fault>
        ensures { Meets self.now.rules.env.now self.now.rules.budget (type_in (env_of self.now.rules.env.now) no_encodings (entries context.now) (s_at (place span) head.now arg.now)) result }
    {
        let found = self.ty(context, head)?;
        let parts = self.rules.kind_over_term(head.span(), &found.1)?;
        let arg = self.check(context, arg, &parts.0)?;
        self.rules.type_at_term(span, &found.0, &parts.1, &arg)
    }

    /// `A ·B`.
    #[cycle(infer)]
    fn type_at_type(
        &self,
        context: &Context<'_>,
        span: Span,
        head: &Scoped,
        arg: &Scoped,
    ) -> Result<(EType, EKind), Fault>
        ensures { Meets self.now.rules.env.now self.now.rules.budget (type_in (env_of self.now.rules.env.now) no_encodings (entries context.now) (s_on (place span) head.now arg.now)) result }
    {
        let found = self.ty(context, head)?;
        let parts = self.rules.kind_over_type(head.span(), &found.1)?;
        let second = self.ty(context, arg)?;
        self.rules
            .type_at_type(span, arg.span(), &found.0, &parts, &second)
    }
}
