//! Terms, by the rules read upwards.
ghost use Rattle.std.specs.Prelude.{◌≡◌, ◌∷◌, None, Option, Some};
ghost use Rattle.cdle_model.specs.Derivation.{term_of, type_of};
ghost use Rattle.cdle_model.specs.Trees.{Tree};
ghost use Rattle.elab_model.specs.Questions.{gives, then};
ghost use Rattle.elab_model.specs.Rules.{agrees_then, check as checks, if_annotated, infer as infers, kind as kind_in, star_then, started as starts, term, type as type_in};
ghost use Rattle.elab_model.specs.ScopedForms.{s_tapp, s_unclassed, s_xlam};
ghost use Rattle.elab_model.specs.Soundness.{no_encodings};
ghost use Rattle.elab_model.specs.Spines.{argument as argument_of, type_argument as type_argument_of};
ghost use Rattle.elab_reduce.specs.Items.{env_of};
ghost use Rattle.elab_rules.specs.Answers.{Meets};
ghost use Rattle.elab_rules.specs.Contexts.{entries};
ghost use Rattle.elab_rules.specs.Endings as ends;
ghost use Rattle.elab_rules.specs.Spines.{MeetsMade, MeetsSpine, binary_of, binder_of, spine_of};
ghost use Rattle.elab_rules.specs.declared.spine.Argument.TheVariants.{Erased as ErasedArgument};
ghost use Rattle.scope_model.specs.Scoped.{Scoped as Source};
ghost use Rattle.scoped_tree.specs.Trees.{bind_form, one_form, place, two_form};
ghost use Rattle.source_model.specs.Heights.{span_of};
ghost use Rattle.source_model.specs.Source.{Span as Where, bind, one, two};
ghost use Rattle.elab_check.specs.Forms.{abstracted, applies, of_product, seen_goal};

use crate::checker::Checker;
use crate::parts::is_left_out;
use cdle_names::Span;
use elab_model::Code;
use elab_rules::{Argument, At, Context, Fault, Former, Made, Product, Spine};
use elab_tree::{EKind, ETerm, EType};
use scoped_tree::{BindForm, OneForm, Scoped, ScopedForm, TwoForm};

impl Checker<'_> {
    /// A term with its type.
    #[cycle(infer)]
    pub(crate) fn infer(
        &self,
        context: &Context<'_>,
        node: &Scoped,
    ) -> Result<(ETerm, EType), Fault>
        ensures { Meets self.now.rules.env.now self.now.rules.budget (infers (env_of self.now.rules.env.now) no_encodings (entries context.now) node.now (term (env_of self.now.rules.env.now) no_encodings (entries context.now) node.now)) result }
    {
        let made = self.term(context, node, None, node.span())?;
        self.rules.without_goal(node.span(), context, made)
    }

    /// A term that has the type asked for.
    #[cycle(infer)]
    pub(crate) fn check(
        &self,
        context: &Context<'_>,
        node: &Scoped,
        goal: &EType,
    ) -> Result<ETerm, Fault>
        ensures { Meets self.now.rules.env.now self.now.rules.budget (checks (env_of self.now.rules.env.now) no_encodings (entries context.now) node.now (term (env_of self.now.rules.env.now) no_encodings (entries context.now) node.now) goal.now) result }
    {
        let made = self.term(context, node, Some(goal), node.span())?;
        self.rules.against(node.span(), context, goal, made)
    }

    /// What a term's rule gives, with or without a type asked for. The place is that of the spine that the term is or is the head of.
    #[cycle(infer)]
    fn term(
        &self,
        context: &Context<'_>,
        node: &Scoped,
        goal: Option<&EType>,
        whole: Span,
    ) -> Result<Made, Fault>
        ensures { MeetsMade self.now.rules.env.now self.now.rules.budget (term (env_of self.now.rules.env.now) no_encodings (entries context.now) node.now (seen_goal goal.entry) (place whole)) result }
    {
        match node.form() {
            ScopedForm::Use(name) => self.rules.term_name(node.span(), context, *name),
            ScopedForm::Two(form, left, right) => {
                self.of_two(context, node.span(), *form, left, right, goal, whole)
            }
            ScopedForm::Bind(form, domain, part) => {
                self.of_binder(context, node.span(), *form, domain, part, goal)
            }
            ScopedForm::One(form, part) => self.of_one(context, node.span(), *form, part),
            // No scoped term comes to this.
            _ => Err(Fault::NoMemory),
        }
    }

    /// A form of two parts.
    #[cycle(infer)]
    fn of_two(
        &self,
        context: &Context<'_>,
        span: Span,
        form: TwoForm,
        left: &Scoped,
        right: &Scoped,
        goal: Option<&EType>,
        whole: Span,
    ) -> Result<Made, Fault>
        ensures { MeetsMade self.now.rules.env.now self.now.rules.budget (term (env_of self.now.rules.env.now) no_encodings (entries context.now) (two (place span) (two_form form) left.now right.now) (seen_goal goal.entry) (place whole)) result }
    {
        match form {
            TwoForm::App => self.application(context, Argument::Kept, left, right, whole),
            TwoForm::Eapp => self.application(context, Argument::Erased, left, right, whole),
            TwoForm::Tapp => self.type_application(context, left, right, whole),
            TwoForm::Pair => self.pair(context, span, left, right, goal),
            TwoForm::Beta => self.reflexivity(span, left, right, goal),
            TwoForm::Delta => self.absurdity(context, span, left, right, goal),
            TwoForm::Chi => self.annotated(context, span, left, right),
            TwoForm::Phi => self.cast(context, span, left, right, goal),
            TwoForm::Rho => self.guided(context, span, left, right, goal),
            _ => Err(Fault::NoMemory),
        }
    }

    /// A form of one part.
    #[cycle(infer)]
    fn of_one(
        &self,
        context: &Context<'_>,
        span: Span,
        form: OneForm,
        part: &Scoped,
    ) -> Result<Made, Fault>
        ensures { (g : Option Tree) (w : Where) → MeetsMade self.now.rules.env.now self.now.rules.budget (term (env_of self.now.rules.env.now) no_encodings (entries context.now) (one (place span) (one_form form) part.now) g w) result }
    {
        match form {
            OneForm::Fst => self.first_of(context, span, part),
            OneForm::Snd => self.second_of(context, span, part),
            OneForm::Flip => self.flip(context, span, part),
        }
    }

    /// A form of two parts of which the second stands under the binder.
    #[cycle(infer)]
    fn of_binder(
        &self,
        context: &Context<'_>,
        span: Span,
        form: BindForm,
        domain: &Scoped,
        part: &Scoped,
        goal: Option<&EType>,
    ) -> Result<Made, Fault>
        ensures { (w : Where) → MeetsMade self.now.rules.env.now self.now.rules.budget (term (env_of self.now.rules.env.now) no_encodings (entries context.now) (bind (place span) (bind_form form) tt domain.now part.now) (seen_goal goal.entry) w) result }
    {
        match form {
            BindForm::Lam => self.function(context, span, Argument::Kept, domain, part, goal),
            BindForm::Elam => self.function(context, span, Argument::Erased, domain, part, goal),
            BindForm::Xlam => self.function_of_types(context, span, domain, part, goal),
            BindForm::Unclassed => self.unclassed(context, span, part, goal),
            _ => Err(Fault::NoMemory),
        }
    }

    /// `λ x : A . t` or `Λ x : A . t`.
    #[cycle(infer)]
    fn function(
        &self,
        context: &Context<'_>,
        span: Span,
        argument: Argument,
        domain: &Scoped,
        part: &Scoped,
        goal: Option<&EType>,
    ) -> Result<Made, Fault>
        ensures { (w : Where) → MeetsMade self.now.rules.env.now self.now.rules.budget (term (env_of self.now.rules.env.now) no_encodings (entries context.now) (abstracted argument (place span) domain.now part.now) (seen_goal goal.entry) w) result }
    {
        match goal {
            Some(goal) => self.abstraction_against(context, span, argument, domain, part, goal),
            None if is_left_out(domain) => Err(Fault::Rejected(
                At::Letter(span),
                Code::AnnotationWanted,
            )),
            None => self.abstraction(context, span, argument, domain, part),
        }
    }

    /// An abstraction over a term, with an annotation.
    #[cycle(infer)]
    fn abstraction(
        &self,
        context: &Context<'_>,
        span: Span,
        argument: Argument,
        domain: &Scoped,
        part: &Scoped,
    ) -> Result<Made, Fault>
        ensures { MeetsMade self.now.rules.env.now self.now.rules.budget (star_then (place span) domain.now (type_in (env_of self.now.rules.env.now) no_encodings (entries context.now) domain.now) (λ d.
            then (infers (env_of self.now.rules.env.now) no_encodings (term_of d ∷ entries context.now) part.now (term (env_of self.now.rules.env.now) no_encodings (term_of d ∷ entries context.now) part.now)) (λ r.
            ends.abstraction argument (place span) d r))) result }
    {
        let domain = self.star(context, span, domain)?;
        let body = self.infer(&Context::Term(&domain, &*context), part)?;
        self.rules.abstraction(span, argument, &domain, &body)
    }

    /// An abstraction over a term against the type asked for.
    #[cycle(infer)]
    fn abstraction_against(
        &self,
        context: &Context<'_>,
        span: Span,
        argument: Argument,
        domain: &Scoped,
        part: &Scoped,
        goal: &EType,
    ) -> Result<Made, Fault>
        ensures { (w : Where) → MeetsMade self.now.rules.env.now self.now.rules.budget (term (env_of self.now.rules.env.now) no_encodings (entries context.now) (abstracted argument (place span) domain.now part.now) (Some goal.now) w) result }
    {
        let former = former_of(argument);
        let parts = self
            .rules
            .parts(span, At::Letter(span), Code::WantedFunction, former, goal)?;
        self.annotation(context, span, domain, &parts.0)?;
        let body = self.check(&Context::Term(&parts.0, &*context), part, &parts.1)?;
        self.rules
            .abstraction_against(span, argument, &parts.0, &body)
    }

    /// The annotation, where there is one, agrees with the domain that is wanted.
    #[cycle(infer)]
    fn annotation(
        &self,
        context: &Context<'_>,
        span: Span,
        domain: &Scoped,
        wanted: &EType,
    ) -> Result<(), Fault>
        ensures { Meets self.now.rules.env.now self.now.rules.budget (if_annotated domain.now (λ q. star_then (place span) domain.now (type_in (env_of self.now.rules.env.now) no_encodings (entries context.now) domain.now)
            (λ d. agrees_then (place span) domain.now d wanted.now q)) (gives tt)) result }
    {
        if is_left_out(domain) {
            return Ok(());
        }
        let found = self.star(context, span, domain)?;
        self.rules.same_types(
            span,
            At::Whole(domain.span()),
            Code::Mismatch,
            &found,
            wanted,
        )
    }

    /// `Λ X : κ . t`.
    #[cycle(infer)]
    fn function_of_types(
        &self,
        context: &Context<'_>,
        span: Span,
        domain: &Scoped,
        part: &Scoped,
        goal: Option<&EType>,
    ) -> Result<Made, Fault>
        ensures { (w : Where) → MeetsMade self.now.rules.env.now self.now.rules.budget (term (env_of self.now.rules.env.now) no_encodings (entries context.now) (s_xlam (place span) tt domain.now part.now) (seen_goal goal.entry) w) result }
    {
        match goal {
            Some(goal) => self.type_abstraction_against(context, span, domain, part, goal),
            None if is_left_out(domain) => Err(Fault::Rejected(
                At::Letter(span),
                Code::AnnotationWanted,
            )),
            None => self.type_abstraction(context, span, domain, part),
        }
    }

    /// An abstraction over a type, with an annotation.
    #[cycle(infer)]
    fn type_abstraction(
        &self,
        context: &Context<'_>,
        span: Span,
        domain: &Scoped,
        part: &Scoped,
    ) -> Result<Made, Fault>
        ensures { MeetsMade self.now.rules.env.now self.now.rules.budget (then (kind_in (env_of self.now.rules.env.now) no_encodings (entries context.now) domain.now) (λ d.
            then (infers (env_of self.now.rules.env.now) no_encodings (type_of d ∷ entries context.now) part.now (term (env_of self.now.rules.env.now) no_encodings (type_of d ∷ entries context.now) part.now)) (λ r.
            ends.type_abstraction (place span) d r))) result }
    {
        let domain = self.kind(context, domain)?;
        let body = self.infer(&Context::OfType(&domain, &*context), part)?;
        self.rules.type_abstraction(span, &domain, &body)
    }

    /// An abstraction over a type against the type asked for.
    #[cycle(infer)]
    fn type_abstraction_against(
        &self,
        context: &Context<'_>,
        span: Span,
        domain: &Scoped,
        part: &Scoped,
        goal: &EType,
    ) -> Result<Made, Fault>
        ensures { (w : Where) → MeetsMade self.now.rules.env.now self.now.rules.budget (term (env_of self.now.rules.env.now) no_encodings (entries context.now) (s_xlam (place span) tt domain.now part.now) (Some goal.now) w) result }
    {
        let parts = self
            .rules
            .type_parts(span, At::Letter(span), Code::WantedFunction, goal)?;
        self.kind_annotation(context, span, domain, &parts.0)?;
        self.type_abstracted(context, span, &parts.0, part, &parts.1)
    }

    /// The body of an abstraction over a type of that kind, against the rest of the type asked for.
    #[cycle(infer)]
    fn type_abstracted(
        &self,
        context: &Context<'_>,
        span: Span,
        kind: &EKind,
        part: &Scoped,
        range: &EType,
    ) -> Result<Made, Fault>
        ensures { MeetsMade self.now.rules.env.now self.now.rules.budget (then (checks (env_of self.now.rules.env.now) no_encodings (type_of kind.now ∷ entries context.now) part.now (term (env_of self.now.rules.env.now) no_encodings (type_of kind.now ∷ entries context.now) part.now) range.now)
            (λ t. ends.type_abstraction_against (place span) kind.now t)) result }
    {
        let body = self.check(&Context::OfType(kind, &*context), part, range)?;
        self.rules.type_abstraction_against(span, kind, &body)
    }

    /// The body of an abstraction over a term of that type, which is erased, against the rest of the type asked for.
    #[cycle(infer)]
    fn erased_abstracted(
        &self,
        context: &Context<'_>,
        span: Span,
        domain: &EType,
        part: &Scoped,
        range: &EType,
    ) -> Result<Made, Fault>
        ensures { MeetsMade self.now.rules.env.now self.now.rules.budget (then (checks (env_of self.now.rules.env.now) no_encodings (term_of domain.now ∷ entries context.now) part.now (term (env_of self.now.rules.env.now) no_encodings (term_of domain.now ∷ entries context.now) part.now) range.now)
            (λ t. ends.abstraction_against ErasedArgument (place span) domain.now t)) result }
    {
        let body = self.check(&Context::Term(domain, &*context), part, range)?;
        self.rules
            .abstraction_against(span, Argument::Erased, domain, &body)
    }

    /// The annotation, where there is one, agrees with the kind that is wanted.
    #[cycle(infer)]
    fn kind_annotation(
        &self,
        context: &Context<'_>,
        span: Span,
        domain: &Scoped,
        wanted: &EKind,
    ) -> Result<(), Fault>
        ensures { Meets self.now.rules.env.now self.now.rules.budget (if_annotated domain.now (λ q. then (kind_in (env_of self.now.rules.env.now) no_encodings (entries context.now) domain.now)
            (λ d. agrees_then (place span) domain.now d wanted.now q)) (gives tt)) result }
    {
        if is_left_out(domain) {
            return Ok(());
        }
        let found = self.kind(context, domain)?;
        self.rules.same_kinds(
            span,
            At::Whole(domain.span()),
            Code::Mismatch,
            &found,
            wanted,
        )
    }

    /// `Λ x . t` whose variable is not used.
    #[cycle(infer)]
    fn unclassed(
        &self,
        context: &Context<'_>,
        span: Span,
        part: &Scoped,
        goal: Option<&EType>,
    ) -> Result<Made, Fault>
        ensures { (w : Where) (a : Source) → MeetsMade self.now.rules.env.now self.now.rules.budget (term (env_of self.now.rules.env.now) no_encodings (entries context.now) (s_unclassed (place span) tt a part.now) (seen_goal goal.entry) w) result }
    {
        match goal {
            Some(goal) => self.unclassed_against(context, span, part, goal),
            None => Err(Fault::Rejected(At::Letter(span), Code::AnnotationWanted)),
        }
    }

    /// `Λ x . t` whose variable is not used, against the type asked for, which tells its class.
    #[cycle(infer)]
    fn unclassed_against(
        &self,
        context: &Context<'_>,
        span: Span,
        part: &Scoped,
        goal: &EType,
    ) -> Result<Made, Fault>
        ensures { (w : Where) (a : Source) → MeetsMade self.now.rules.env.now self.now.rules.budget (term (env_of self.now.rules.env.now) no_encodings (entries context.now) (s_unclassed (place span) tt a part.now) (Some goal.now) w) result }
    {
        let product = self.rules.either_parts(span, At::Letter(span), goal)?;
        self.unclassed_at(context, span, part, &product)
    }

    /// The body of `Λ x . t` whose variable is not used, against the rest of the product asked for.
    #[cycle(infer)]
    fn unclassed_at(
        &self,
        context: &Context<'_>,
        span: Span,
        part: &Scoped,
        product: &Product,
    ) -> Result<Made, Fault>
        ensures { MeetsMade self.now.rules.env.now self.now.rules.budget (of_product (env_of self.now.rules.env.now) (entries context.now) (place span) part.now (ends.either_of product.now)) result }
    {
        match product {
            Product::OverTerms(domain, range) => {
                self.erased_abstracted(context, span, domain, part, range)
            }
            Product::OverTypes(kind, range) => {
                self.type_abstracted(context, span, kind, part, range)
            }
        }
    }

    /// A spine applied to a term.
    #[cycle(infer)]
    fn application(
        &self,
        context: &Context<'_>,
        argument: Argument,
        head: &Scoped,
        arg: &Scoped,
        whole: Span,
    ) -> Result<Made, Fault>
        ensures { (s : Where) (g : Option Tree) → MeetsMade self.now.rules.env.now self.now.rules.budget (term (env_of self.now.rules.env.now) no_encodings (entries context.now) (applies argument s head.now arg.now) g (place whole)) result }
    {
        let spine = self.head(context, head, whole)?;
        let spine = self.argument(context, argument, spine, arg, whole)?;
        Ok(Made::Spine(spine))
    }

    /// The head of an application.
    #[cycle(infer)]
    fn head(&self, context: &Context<'_>, node: &Scoped, whole: Span) -> Result<Spine, Fault>
        ensures { MeetsSpine self.now.rules.env.now self.now.rules.budget (then (term (env_of self.now.rules.env.now) no_encodings (entries context.now) node.now None (place whole)) (starts (env_of self.now.rules.env.now) no_encodings (span_of node.now))) result }
    {
        let made = self.term(context, node, None, whole)?;
        self.rules.started(node.span(), made)
    }

    /// The spine takes a term.
    #[cycle(infer)]
    fn argument(
        &self,
        context: &Context<'_>,
        argument: Argument,
        spine: Spine,
        arg: &Scoped,
        whole: Span,
    ) -> Result<Spine, Fault>
        ensures { MeetsSpine self.now.rules.env.now self.now.rules.budget (argument_of (place whole) (binder_of argument) (binary_of argument) (span_of arg.now)
            (infers (env_of self.now.rules.env.now) no_encodings (entries context.now) arg.now (term (env_of self.now.rules.env.now) no_encodings (entries context.now) arg.now))
            (checks (env_of self.now.rules.env.now) no_encodings (entries context.now) arg.now (term (env_of self.now.rules.env.now) no_encodings (entries context.now) arg.now)) (spine_of spine)) result }
    {
        let opened = self.rules.opened(whole, argument, spine)?;
        if opened.domain.has_unknown() {
            let found = self.infer(context, arg)?;
            return self
                .rules
                .takes_inferred(whole, arg.span(), argument, opened, &found);
        }
        let found = self.check(context, arg, &opened.domain)?;
        self.rules.takes(whole, argument, opened, &found)
    }

    /// A spine applied to a type.
    #[cycle(infer)]
    fn type_application(
        &self,
        context: &Context<'_>,
        head: &Scoped,
        arg: &Scoped,
        whole: Span,
    ) -> Result<Made, Fault>
        ensures { (s : Where) (g : Option Tree) → MeetsMade self.now.rules.env.now self.now.rules.budget (term (env_of self.now.rules.env.now) no_encodings (entries context.now) (s_tapp s head.now arg.now) g (place whole)) result }
    {
        let spine = self.head(context, head, whole)?;
        let spine = self.type_argument(context, spine, arg, whole)?;
        Ok(Made::Spine(spine))
    }

    /// The spine takes a type.
    #[cycle(infer)]
    fn type_argument(
        &self,
        context: &Context<'_>,
        spine: Spine,
        arg: &Scoped,
        whole: Span,
    ) -> Result<Spine, Fault>
        ensures { MeetsSpine self.now.rules.env.now self.now.rules.budget (type_argument_of (place whole) (span_of arg.now)
            (type_in (env_of self.now.rules.env.now) no_encodings (entries context.now) arg.now) (spine_of spine)) result }
    {
        let opened = self.rules.opened_type(whole, spine)?;
        let found = self.ty(context, arg)?;
        self.rules.takes_type(whole, arg.span(), opened, &found)
    }
}

/// The product that an abstraction has as its type.
fn former_of(argument: Argument) -> Former
    ensures { ends.product_of result ≡ binder_of argument }
{
    match argument {
        Argument::Kept => Former::Pi,
        Argument::Erased => Former::All,
    }
}
