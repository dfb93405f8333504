//! `ρ`: terms rewritten along equations.
ghost use Rattle.cdle_model.specs.Forms.{rho};
ghost use Rattle.cdle_model.specs.Trees.{put};
ghost use Rattle.elab_model.specs.Questions.{gives, limited, then};
ghost use Rattle.elab_model.specs.Rules.{by_goal, check as checks, erase, gives_checked, gives_inferred, infer as infers, is_equation as is_written, proof_then, term};
ghost use Rattle.elab_model.specs.ScopedForms.{letter, s_rho};
ghost use Rattle.elab_model.specs.Soundness.{no_encodings};
ghost use Rattle.elab_model.specs.declared.codes.Code.TheVariants.{SidesDiffer};
ghost use Rattle.elab_reduce.specs.Items.{env_of};
ghost use Rattle.elab_rules.specs.Answers.{Meets};
ghost use Rattle.elab_rules.specs.Contexts.{entries};
ghost use Rattle.elab_rules.specs.Equations.{is_said, rewritten_from, said_of};
ghost use Rattle.elab_rules.specs.Spines.{MeetsMade};
ghost use Rattle.scoped_tree.specs.Trees.{bind_form, place};
ghost use Rattle.source_model.specs.Heights.{span_of};
ghost use Rattle.source_model.specs.Source.{Span as Where, bind, rho_of, two};
ghost use Rattle.elab_check.specs.Forms.{seen_goal};
ghost use Rattle.elab_check.specs.Rewriting.{along_equation, along_guide, rewrites};

use crate::checker::Checker;
use crate::parts::is_equation;
use cdle_names::Span;
use elab_erase::erased_type;
use elab_model::Code;
use elab_rules::{At, Context, Fault, Made, Rules};
use elab_tree::{EGuide, EPure, ETerm, EType};
use scoped_tree::{BindForm, Scoped, ScopedForm};

impl Checker<'_> {
    /// `ρ`, by its proof and its guide in one part.
    #[cycle(infer)]
    pub(crate) fn guided(
        &self,
        context: &Context<'_>,
        span: Span,
        guided: &Scoped,
        part: &Scoped,
        goal: Option<&EType>,
    ) -> Result<Made, Fault>
        ensures { (w : Where) → MeetsMade self.now.rules.env.now self.now.rules.budget (term (env_of self.now.rules.env.now) no_encodings (entries context.now) (two (place span) rho_of guided.now part.now) (seen_goal goal.entry) w) result }
    {
        match guided.form() {
            ScopedForm::Bind(form, proof, guide) => {
                self.guided_by(context, span, *form, proof, guide, part, goal)
            }
            // No scoped term comes to this.
            _ => Err(Fault::NoMemory),
        }
    }

    /// `ρ`, by the parts of the form that has its proof and its guide.
    #[cycle(infer)]
    fn guided_by(
        &self,
        context: &Context<'_>,
        span: Span,
        form: BindForm,
        proof: &Scoped,
        guide: &Scoped,
        part: &Scoped,
        goal: Option<&EType>,
    ) -> Result<Made, Fault>
        ensures { (r w : Where) → MeetsMade self.now.rules.env.now self.now.rules.budget (term (env_of self.now.rules.env.now) no_encodings (entries context.now) (two (place span) rho_of (bind r (bind_form form) tt proof.now guide.now) part.now) (seen_goal goal.entry) w) result }
    {
        match form {
            BindForm::Guide => self.rewriting(context, span, proof, guide, part, goal),
            // No scoped term comes to this.
            _ => Err(Fault::NoMemory),
        }
    }

    /// `ρ q @ x . d - t`.
    #[cycle(infer)]
    fn rewriting(
        &self,
        context: &Context<'_>,
        span: Span,
        proof: &Scoped,
        guide: &Scoped,
        part: &Scoped,
        goal: Option<&EType>,
    ) -> Result<Made, Fault>
        ensures { (r w : Where) → MeetsMade self.now.rules.env.now self.now.rules.budget (term (env_of self.now.rules.env.now) no_encodings (entries context.now) (s_rho (place span) r tt proof.now guide.now part.now) (seen_goal goal.entry) w) result }
    {
        let proof = self.proof(context, span, proof)?;
        self.rewriting_along(context, span, &proof, guide, part, goal)
    }

    /// The proof of an equation, with its sides.
    #[cycle(infer)]
    pub(crate) fn proof(
        &self,
        context: &Context<'_>,
        span: Span,
        proof: &Scoped,
    ) -> Result<(ETerm, (EPure, EPure)), Fault>
        ensures { Meets self.now.rules.env.now self.now.rules.budget (proof_then (env_of self.now.rules.env.now) no_encodings (place span) (entries context.now) proof.now (term (env_of self.now.rules.env.now) no_encodings (entries context.now) proof.now) (λ q x y. gives (q, (x, y)))) result }
    {
        let found = self.infer(context, proof)?;
        let sides = self.rules.sides(span, At::Whole(proof.span()), &found.1)?;
        Ok((found.0, sides))
    }

    /// `ρ` along an equation whose proof is found: where the guide is written as an equation, and else.
    #[cycle(infer)]
    fn rewriting_along(
        &self,
        context: &Context<'_>,
        span: Span,
        proof: &(ETerm, (EPure, EPure)),
        guide: &Scoped,
        part: &Scoped,
        goal: Option<&EType>,
    ) -> Result<Made, Fault>
        ensures { MeetsMade self.now.rules.env.now self.now.rules.budget (rewrites (env_of self.now.rules.env.now) (entries context.now) (place span) guide.now part.now (seen_goal goal.entry) proof.now) result }
    {
        if is_equation(guide) {
            return self.to_equation(context, span, proof, guide, part, goal);
        }
        match goal {
            Some(goal) => self.to_goal(context, span, proof, guide, part, goal),
            None => Err(Fault::Rejected(At::Letter(span), Code::AnnotationWanted)),
        }
    }

    /// `ρ` whose guide is written as an equation: the part is checked against what the guide says of the right side.
    #[cycle(infer)]
    fn to_equation(
        &self,
        context: &Context<'_>,
        span: Span,
        proof: &(ETerm, (EPure, EPure)),
        guide: &Scoped,
        part: &Scoped,
        goal: Option<&EType>,
    ) -> Result<Made, Fault>
        ensures { MeetsMade self.now.rules.env.now self.now.rules.budget (then (erase (env_of self.now.rules.env.now) no_encodings guide.now) (along_equation (env_of self.now.rules.env.now) (entries context.now) (place span) part.now (seen_goal goal.entry) proof.now)) result }
    {
        let guide = erased_type(&self.rules, guide)?;
        self.from_equation(context, span, proof, &guide, part, goal)
    }

    /// The same, with the guide.
    #[cycle(infer)]
    fn from_equation(
        &self,
        context: &Context<'_>,
        span: Span,
        proof: &(ETerm, (EPure, EPure)),
        guide: &EGuide,
        part: &Scoped,
        goal: Option<&EType>,
    ) -> Result<Made, Fault>
        ensures { MeetsMade self.now.rules.env.now self.now.rules.budget (along_equation (env_of self.now.rules.env.now) (entries context.now) (place span) part.now (seen_goal goal.entry) proof.now guide.now) result }
    {
        let ty = equation_of(&self.rules, span, goal, guide, &proof.1.0)?;
        let wanted = self.rules.equation_said(span, guide, &proof.1.1)?;
        let part = self.check(context, part, &wanted)?;
        rewritten(&self.rules, span, proof, guide, &ty, &part, goal)
    }

    /// `ρ` against the type asked for, by a guide that is not written as an equation: the part's type is what the guide says of the right side.
    #[cycle(infer)]
    fn to_goal(
        &self,
        context: &Context<'_>,
        span: Span,
        proof: &(ETerm, (EPure, EPure)),
        guide: &Scoped,
        part: &Scoped,
        goal: &EType,
    ) -> Result<Made, Fault>
        ensures { MeetsMade self.now.rules.env.now self.now.rules.budget (then (erase (env_of self.now.rules.env.now) no_encodings guide.now) (along_guide (env_of self.now.rules.env.now) (entries context.now) (place span) part.now goal.now proof.now)) result }
    {
        let guide = erased_type(&self.rules, guide)?;
        let (at, code) = (At::Letter(span), Code::SidesDiffer);
        self.rules
            .is_said(span, at, code, goal, &guide, &proof.1.0)?;
        let found = self.infer(context, part)?;
        self.rules
            .rewritten_from(span, part.span(), proof, &guide, goal, &found)
    }
}

/// What a guide that is an equation says of the left side: the type asked for, where there is one.
fn equation_of(
    rules: &Rules<'_>,
    form: Span,
    goal: Option<&EType>,
    guide: &EGuide,
    side: &EPure,
) -> Result<EType, Fault>
    ensures { Meets rules.now.env.now rules.now.budget (said_of (place form) (by_goal (seen_goal goal.entry) (put 0 side.now guide.now) (λ a. a)) guide.now side.now) result }
{
    match goal {
        Some(goal) => rules.equation_against(form, goal, guide, side),
        None => rules.equation_inferred(form, guide, side),
    }
}

/// The part rewritten, with the type that the guide says, or that has the type asked for.
fn rewritten(
    rules: &Rules<'_>,
    form: Span,
    proof: &(ETerm, (EPure, EPure)),
    guide: &EGuide,
    ty: &EType,
    part: &ETerm,
    goal: Option<&EType>,
) -> Result<Made, Fault>
    ensures { MeetsMade rules.now.env.now rules.now.budget (by_goal (seen_goal goal.entry)
        (gives_inferred (place form) (rho proof.now.0 guide.now ty.now part.now) ty.now)
        (λ a. gives_checked (place form) (rho proof.now.0 guide.now a part.now))) result }
{
    match goal {
        Some(goal) => rules.rewritten_against(form, &proof.0, guide, goal, part),
        None => rules.rewritten(form, &proof.0, guide, ty, part),
    }
}
