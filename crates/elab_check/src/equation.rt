//! Equations: `β`, and what is cast, absurd, annotated or flipped along them.
ghost use Rattle.std.specs.Prelude.{List, Option, Some};
ghost use Rattle.cdle_model.specs.Derivation.{Entry};
ghost use Rattle.cdle_model.specs.Forms.{delta, phi};
ghost use Rattle.cdle_model.specs.Trees.{Tree};
ghost use Rattle.elab_model.specs.Questions.{gives, rejects, then};
ghost use Rattle.elab_model.specs.Rules.{by_goal, check as checks, equation_then, erase, gives_checked, gives_inferred, infer as infers, proof_then, star_then, term, type as type_in};
ghost use Rattle.elab_model.specs.ScopedForms.{letter, s_beta, s_chi, s_delta, s_flip, s_phi};
ghost use Rattle.elab_model.specs.Soundness.{no_encodings};
ghost use Rattle.elab_reduce.specs.Items.{env_of};
ghost use Rattle.elab_model.specs.declared.codes.Code.TheVariants.{AnnotationWanted};
ghost use Rattle.elab_rules.specs.Contexts.{entries};
ghost use Rattle.elab_rules.specs.Equations.{are_booleans, are_sides, reflexive, reflexive_against as reflexive_at};
ghost use Rattle.elab_rules.specs.Spines.{MeetsMade};
ghost use Rattle.scoped_tree.specs.Trees.{place, two_form};
ghost use Rattle.source_model.specs.Source.{Span as Where, phi_of, two};
ghost use Rattle.elab_check.specs.Forms.{seen_goal};
ghost use Rattle.elab_check.specs.Rewriting.{Proof};

use crate::checker::Checker;
use crate::parts::is_left_out;
use cdle_names::Span;
use elab_erase::erased_term;
use elab_model::Code;
use elab_rules::{At, Context, Fault, Made};
use elab_tree::{EPure, ETerm, EType};
use scoped_tree::{Scoped, ScopedForm, TwoForm};

impl Checker<'_> {
    /// `β<t>{u}`, of which each may be left out.
    pub(crate) fn reflexivity(
        &self,
        span: Span,
        side: &Scoped,
        kept: &Scoped,
        goal: Option<&EType>,
    ) -> Result<Made, Fault>
        ensures { (c : List Entry) (w : Where) → MeetsMade self.now.rules.env.now self.now.rules.budget (term (env_of self.now.rules.env.now) no_encodings c (s_beta (place span) side.now kept.now) (seen_goal goal.entry) w) result }
    {
        if is_left_out(side) {
            return self.reflexive_asked(span, kept, goal);
        }
        self.reflexive_written(span, side, kept)
    }

    /// `β` whose side is written.
    fn reflexive_written(&self, span: Span, side: &Scoped, kept: &Scoped) -> Result<Made, Fault>
        ensures { MeetsMade self.now.rules.env.now self.now.rules.budget (then (erase (env_of self.now.rules.env.now) no_encodings side.now) (λ x. then (erase (env_of self.now.rules.env.now) no_encodings kept.now) (λ k. reflexive (place span) x k))) result }
    {
        let side = erased_term(&self.rules, side)?;
        let kept = erased_term(&self.rules, kept)?;
        self.rules.reflexive(span, &side, &kept)
    }

    /// `β` whose side is left out.
    fn reflexive_asked(
        &self,
        span: Span,
        kept: &Scoped,
        goal: Option<&EType>,
    ) -> Result<Made, Fault>
        ensures { MeetsMade self.now.rules.env.now self.now.rules.budget (by_goal (seen_goal goal.entry) (rejects (letter (place span)) AnnotationWanted) (λ a.
            equation_then (place span) (letter (place span)) a (λ x y. then (erase (env_of self.now.rules.env.now) no_encodings kept.now) (λ k. reflexive_at (place span) (x, y) k)))) result }
    {
        match goal {
            Some(goal) => self.reflexive_against(span, kept, goal),
            None => Err(Fault::Rejected(At::Letter(span), Code::AnnotationWanted)),
        }
    }

    /// `β` whose side is the left one of the equation asked for.
    fn reflexive_against(&self, span: Span, kept: &Scoped, goal: &EType) -> Result<Made, Fault>
        ensures { MeetsMade self.now.rules.env.now self.now.rules.budget (equation_then (place span) (letter (place span)) goal.now (λ x y. then (erase (env_of self.now.rules.env.now) no_encodings kept.now) (λ k. reflexive_at (place span) (x, y) k))) result }
    {
        let sides = self.rules.sides(span, At::Letter(span), goal)?;
        let kept = erased_term(&self.rules, kept)?;
        self.rules.reflexive_against(span, &sides, &kept)
    }

    /// `φ`, by its proof and its part in one group.
    #[cycle(infer)]
    pub(crate) fn cast(
        &self,
        context: &Context<'_>,
        span: Span,
        group: &Scoped,
        kept: &Scoped,
        goal: Option<&EType>,
    ) -> Result<Made, Fault>
        ensures { (w : Where) → MeetsMade self.now.rules.env.now self.now.rules.budget (term (env_of self.now.rules.env.now) no_encodings (entries context.now) (two (place span) phi_of group.now kept.now) (seen_goal goal.entry) w) result }
    {
        match group.form() {
            ScopedForm::Two(form, proof, part) => {
                self.cast_by(context, span, *form, proof, part, kept, goal)
            }
            // No scoped term comes to this.
            _ => Err(Fault::NoMemory),
        }
    }

    /// `φ`, by the parts of its group.
    #[cycle(infer)]
    fn cast_by(
        &self,
        context: &Context<'_>,
        span: Span,
        form: TwoForm,
        proof: &Scoped,
        part: &Scoped,
        kept: &Scoped,
        goal: Option<&EType>,
    ) -> Result<Made, Fault>
        ensures { (r w : Where) → MeetsMade self.now.rules.env.now self.now.rules.budget (term (env_of self.now.rules.env.now) no_encodings (entries context.now) (two (place span) phi_of (two r (two_form form) proof.now part.now) kept.now) (seen_goal goal.entry) w) result }
    {
        match form {
            TwoForm::Group => self.cast_of(context, span, proof, part, kept, goal),
            // No scoped term comes to this.
            _ => Err(Fault::NoMemory),
        }
    }

    /// `φ q - t {p}`.
    #[cycle(infer)]
    fn cast_of(
        &self,
        context: &Context<'_>,
        span: Span,
        proof: &Scoped,
        part: &Scoped,
        kept: &Scoped,
        goal: Option<&EType>,
    ) -> Result<Made, Fault>
        ensures { (r w : Where) → MeetsMade self.now.rules.env.now self.now.rules.budget (term (env_of self.now.rules.env.now) no_encodings (entries context.now) (s_phi (place span) r proof.now part.now kept.now) (seen_goal goal.entry) w) result }
    {
        let proof = self.proof(context, span, proof)?;
        self.cast_along(context, span, &proof, part, kept, goal)
    }

    /// The part of `φ`, with or without a type asked for.
    #[cycle(infer)]
    fn cast_along(
        &self,
        context: &Context<'_>,
        span: Span,
        proof: &(ETerm, (EPure, EPure)),
        part: &Scoped,
        kept: &Scoped,
        goal: Option<&EType>,
    ) -> Result<Made, Fault>
        ensures { MeetsMade self.now.rules.env.now self.now.rules.budget (by_goal (seen_goal goal.entry) (then (infers (env_of self.now.rules.env.now) no_encodings (entries context.now) part.now (term (env_of self.now.rules.env.now) no_encodings (entries context.now) part.now)) (λ z. then (erase (env_of self.now.rules.env.now) no_encodings kept.now) (λ k. then (are_sides (place span) proof.now.1 z.0 k) (λ _. gives_inferred (place span) (phi proof.now.0 z.0 k) z.1)))) (λ a. then (checks (env_of self.now.rules.env.now) no_encodings (entries context.now) part.now (term (env_of self.now.rules.env.now) no_encodings (entries context.now) part.now) a) (λ t. then (erase (env_of self.now.rules.env.now) no_encodings kept.now) (λ k. then (are_sides (place span) proof.now.1 t k) (λ _. gives_checked (place span) (phi proof.now.0 t k)))))) result }
    {
        match goal {
            Some(goal) => self.cast_against(context, span, proof, part, kept, goal),
            None => self.cast_inferred(context, span, proof, part, kept),
        }
    }

    /// The part of `φ`, whose type is found.
    #[cycle(infer)]
    fn cast_inferred(
        &self,
        context: &Context<'_>,
        span: Span,
        proof: &(ETerm, (EPure, EPure)),
        part: &Scoped,
        kept: &Scoped,
    ) -> Result<Made, Fault>
        ensures { MeetsMade self.now.rules.env.now self.now.rules.budget (then (infers (env_of self.now.rules.env.now) no_encodings (entries context.now) part.now (term (env_of self.now.rules.env.now) no_encodings (entries context.now) part.now)) (λ z. then (erase (env_of self.now.rules.env.now) no_encodings kept.now) (λ k. then (are_sides (place span) proof.now.1 z.0 k) (λ _. gives_inferred (place span) (phi proof.now.0 z.0 k) z.1)))) result }
    {
        let part = self.infer(context, part)?;
        let kept = erased_term(&self.rules, kept)?;
        self.rules.are_sides(span, &proof.1, &part.0, &kept)?;
        self.rules.cast_along(span, &proof.0, &part, &kept)
    }

    /// The part of `φ` against the type asked for.
    #[cycle(infer)]
    fn cast_against(
        &self,
        context: &Context<'_>,
        span: Span,
        proof: &(ETerm, (EPure, EPure)),
        part: &Scoped,
        kept: &Scoped,
        goal: &EType,
    ) -> Result<Made, Fault>
        ensures { MeetsMade self.now.rules.env.now self.now.rules.budget (then (checks (env_of self.now.rules.env.now) no_encodings (entries context.now) part.now (term (env_of self.now.rules.env.now) no_encodings (entries context.now) part.now) goal.now) (λ t. then (erase (env_of self.now.rules.env.now) no_encodings kept.now) (λ k. then (are_sides (place span) proof.now.1 t k) (λ _. gives_checked (place span) (phi proof.now.0 t k))))) result }
    {
        let part = self.check(context, part, goal)?;
        let kept = erased_term(&self.rules, kept)?;
        self.rules.are_sides(span, &proof.1, &part, &kept)?;
        self.rules.cast_along_against(span, &proof.0, &part, &kept)
    }

    /// `δ A - q`, of which A may be left out.
    #[cycle(infer)]
    pub(crate) fn absurdity(
        &self,
        context: &Context<'_>,
        span: Span,
        ty: &Scoped,
        proof: &Scoped,
        goal: Option<&EType>,
    ) -> Result<Made, Fault>
        ensures { (w : Where) → MeetsMade self.now.rules.env.now self.now.rules.budget (term (env_of self.now.rules.env.now) no_encodings (entries context.now) (s_delta (place span) ty.now proof.now) (seen_goal goal.entry) w) result }
    {
        if is_left_out(ty) {
            return self.absurd_asked(context, span, proof, goal);
        }
        self.absurd_written(context, span, ty, proof)
    }

    /// `δ` whose type is written.
    #[cycle(infer)]
    fn absurd_written(
        &self,
        context: &Context<'_>,
        span: Span,
        ty: &Scoped,
        proof: &Scoped,
    ) -> Result<Made, Fault>
        ensures { MeetsMade self.now.rules.env.now self.now.rules.budget (star_then (place span) ty.now (type_in (env_of self.now.rules.env.now) no_encodings (entries context.now) ty.now) (λ a. then {A = Proof} (proof_then (env_of self.now.rules.env.now) no_encodings (place span) (entries context.now) proof.now (term (env_of self.now.rules.env.now) no_encodings (entries context.now) proof.now) (λ q x y. gives (q, (x, y)))) (λ p. then (are_booleans (place span) p.1) (λ _. gives_inferred (place span) (delta a p.0) a)))) result }
    {
        let ty = self.star(context, span, ty)?;
        let proof = self.proof(context, span, proof)?;
        self.rules.are_booleans(span, &proof.1)?;
        self.rules.absurd(span, &ty, &proof.0)
    }

    /// `δ` whose type is left out.
    #[cycle(infer)]
    fn absurd_asked(
        &self,
        context: &Context<'_>,
        span: Span,
        proof: &Scoped,
        goal: Option<&EType>,
    ) -> Result<Made, Fault>
        ensures { MeetsMade self.now.rules.env.now self.now.rules.budget (by_goal (seen_goal goal.entry) (rejects (letter (place span)) AnnotationWanted) (λ a. then {A = Proof} (proof_then (env_of self.now.rules.env.now) no_encodings (place span) (entries context.now) proof.now (term (env_of self.now.rules.env.now) no_encodings (entries context.now) proof.now) (λ q x y. gives (q, (x, y)))) (λ p. then (are_booleans (place span) p.1) (λ _. gives_checked (place span) (delta a p.0))))) result }
    {
        match goal {
            Some(goal) => self.absurd_against(context, span, proof, goal),
            None => Err(Fault::Rejected(At::Letter(span), Code::AnnotationWanted)),
        }
    }

    /// `δ` of the type asked for.
    #[cycle(infer)]
    fn absurd_against(
        &self,
        context: &Context<'_>,
        span: Span,
        proof: &Scoped,
        goal: &EType,
    ) -> Result<Made, Fault>
        ensures { MeetsMade self.now.rules.env.now self.now.rules.budget (then {A = Proof} (proof_then (env_of self.now.rules.env.now) no_encodings (place span) (entries context.now) proof.now (term (env_of self.now.rules.env.now) no_encodings (entries context.now) proof.now) (λ q x y. gives (q, (x, y)))) (λ p. then (are_booleans (place span) p.1) (λ _. gives_checked (place span) (delta goal.now p.0)))) result }
    {
        let proof = self.proof(context, span, proof)?;
        self.rules.are_booleans(span, &proof.1)?;
        self.rules.absurd_against(span, goal, &proof.0)
    }

    /// `χ A - t`.
    #[cycle(infer)]
    pub(crate) fn annotated(
        &self,
        context: &Context<'_>,
        span: Span,
        ty: &Scoped,
        part: &Scoped,
    ) -> Result<Made, Fault>
        ensures { (g : Option Tree) (w : Where) → MeetsMade self.now.rules.env.now self.now.rules.budget (term (env_of self.now.rules.env.now) no_encodings (entries context.now) (s_chi (place span) ty.now part.now) g w) result }
    {
        let ty = self.star(context, span, ty)?;
        let part = self.check(context, part, &ty)?;
        self.rules.annotated(span, &part, &ty)
    }

    /// `ς q`.
    #[cycle(infer)]
    pub(crate) fn flip(
        &self,
        context: &Context<'_>,
        span: Span,
        proof: &Scoped,
    ) -> Result<Made, Fault>
        ensures { (g : Option Tree) (w : Where) → MeetsMade self.now.rules.env.now self.now.rules.budget (term (env_of self.now.rules.env.now) no_encodings (entries context.now) (s_flip (place span) proof.now) g w) result }
    {
        let proof = self.proof(context, span, proof)?;
        self.rules.flipped(span, &proof.0, &proof.1)
    }
}
