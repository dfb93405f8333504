//! Kinds, by the rules read upwards.
ghost use Rattle.std.specs.Prelude.{List};
ghost use Rattle.cdle_model.specs.Derivation.{Entry};
ghost use Rattle.elab_model.specs.Rules.{kind as kind_in};
ghost use Rattle.elab_model.specs.ScopedForms.{s_kpi, s_kpit};
ghost use Rattle.elab_model.specs.Soundness.{no_encodings};
ghost use Rattle.elab_reduce.specs.Items.{env_of};
ghost use Rattle.elab_rules.specs.Answers.{Meets};
ghost use Rattle.elab_rules.specs.Contexts.{entries};
ghost use Rattle.scoped_tree.specs.Trees.{bind_form, leaf_form, place};
ghost use Rattle.source_model.specs.Source.{Span as Where, bind, leaf};

use crate::checker::Checker;
use cdle_names::Span;
use elab_rules::{Context, Fault};
use elab_tree::EKind;
use scoped_tree::{BindForm, LeafForm, Scoped, ScopedForm};

impl Checker<'_> {
    /// A kind.
    #[cycle(infer)]
    pub(crate) fn kind(&self, context: &Context<'_>, node: &Scoped) -> Result<EKind, Fault>
        ensures { Meets self.now.rules.env.now self.now.rules.budget (kind_in (env_of self.now.rules.env.now) no_encodings (entries context.now) node.now) result }
    {
        match node.form() {
            ScopedForm::Leaf(form) => self.leaf_kind(*form),
            ScopedForm::Bind(form, domain, part) => {
                self.kind_of_binder(context, node.span(), *form, domain, part)
            }
            _ => Err(Fault::NoMemory),
        }
    }

    /// `★`.
    fn leaf_kind(&self, form: LeafForm) -> Result<EKind, Fault>
        ensures { (c : List Entry) (s : Where) → Meets self.now.rules.env.now self.now.rules.budget (kind_in (env_of self.now.rules.env.now) no_encodings c (leaf s (leaf_form form))) result }
    {
        match form {
            LeafForm::Star => Ok(EKind::star(self.rules.alloc)?),
            LeafForm::LeftOut => Err(Fault::NoMemory),
        }
    }

    /// A kind of two parts of which the second stands under the binder.
    #[cycle(infer)]
    fn kind_of_binder(
        &self,
        context: &Context<'_>,
        span: Span,
        form: BindForm,
        domain: &Scoped,
        part: &Scoped,
    ) -> Result<EKind, Fault>
        ensures { Meets self.now.rules.env.now self.now.rules.budget (kind_in (env_of self.now.rules.env.now) no_encodings (entries context.now) (bind (place span) (bind_form form) tt domain.now part.now)) result }
    {
        match form {
            BindForm::Kpi => self.kind_over_term(context, span, domain, part),
            BindForm::Kpit => self.kind_over_type(context, span, domain, part),
            _ => Err(Fault::NoMemory),
        }
    }

    /// A product of kinds over terms.
    #[cycle(infer)]
    fn kind_over_term(
        &self,
        context: &Context<'_>,
        span: Span,
        domain: &Scoped,
        part: &Scoped,
    ) -> Result<EKind, Fault>
        ensures { Meets self.now.rules.env.now self.now.rules.budget (kind_in (env_of self.now.rules.env.now) no_encodings (entries context.now) (s_kpi (place span) tt domain.now part.now)) result }
    {
        let domain = self.star(context, span, domain)?;
        let part = self.kind(&Context::Term(&domain, &*context), part)?;
        self.rules.kind_of_terms(span, &domain, &part)
    }

    /// A product of kinds over types.
    #[cycle(infer)]
    fn kind_over_type(
        &self,
        context: &Context<'_>,
        span: Span,
        domain: &Scoped,
        part: &Scoped,
    ) -> Result<EKind, Fault>
        ensures { Meets self.now.rules.env.now self.now.rules.budget (kind_in (env_of self.now.rules.env.now) no_encodings (entries context.now) (s_kpit (place span) tt domain.now part.now)) result }
    {
        let domain = self.kind(context, domain)?;
        let part = self.kind(&Context::OfType(&domain, &*context), part)?;
        self.rules.kind_of_types(span, &domain, &part)
    }
}
