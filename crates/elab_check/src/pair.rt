//! Pairs that have intersections, and their parts.
ghost use Rattle.std.specs.Prelude.{Option, Some};
ghost use Rattle.cdle_model.specs.Substitution.{put_written};
ghost use Rattle.cdle_model.specs.Trees.{Tree};
ghost use Rattle.elab_model.specs.Questions.{limited, then};
ghost use Rattle.elab_model.specs.Rules.{check as checks, term};
ghost use Rattle.elab_model.specs.ScopedForms.{s_fst, s_pair, s_snd};
ghost use Rattle.elab_model.specs.Soundness.{no_encodings};
ghost use Rattle.elab_reduce.specs.Items.{env_of};
ghost use Rattle.elab_rules.specs.Contexts.{entries};
ghost use Rattle.elab_rules.specs.Equations.{paired};
ghost use Rattle.elab_rules.specs.Spines.{MeetsMade};
ghost use Rattle.scoped_tree.specs.Trees.{place};
ghost use Rattle.source_model.specs.Source.{Span as Where};
ghost use Rattle.elab_check.specs.Forms.{seen_goal};

use crate::checker::Checker;
use cdle_names::Span;
use elab_model::Code;
use elab_rules::{At, Context, Fault, Former, Made};
use elab_tree::{ETerm, EType};
use scoped_tree::Scoped;

impl Checker<'_> {
    /// `[t, u]`.
    #[cycle(infer)]
    pub(crate) fn pair(
        &self,
        context: &Context<'_>,
        span: Span,
        left: &Scoped,
        right: &Scoped,
        goal: Option<&EType>,
    ) -> Result<Made, Fault>
        ensures { (w : Where) → MeetsMade self.now.rules.env.now self.now.rules.budget (term (env_of self.now.rules.env.now) no_encodings (entries context.now) (s_pair (place span) left.now right.now) (seen_goal goal.entry) w) result }
    {
        match goal {
            Some(goal) => self.pair_against(context, span, left, right, goal),
            None => Err(Fault::Rejected(At::Bracket(span), Code::AnnotationWanted)),
        }
    }

    /// `[t, u]` against the type asked for.
    #[cycle(infer)]
    fn pair_against(
        &self,
        context: &Context<'_>,
        span: Span,
        left: &Scoped,
        right: &Scoped,
        goal: &EType,
    ) -> Result<Made, Fault>
        ensures { (w : Where) → MeetsMade self.now.rules.env.now self.now.rules.budget (term (env_of self.now.rules.env.now) no_encodings (entries context.now) (s_pair (place span) left.now right.now) (Some goal.now) w) result }
    {
        let parts = self.rules.parts(
            span,
            At::Bracket(span),
            Code::WantedIntersection,
            Former::Iota,
            goal,
        )?;
        let left = self.check(context, left, &parts.0)?;
        self.second_part(context, span, &left, right, &parts.1)
    }

    /// The second part of a pair, behind the first, against the second type of the intersection.
    #[cycle(infer)]
    fn second_part(
        &self,
        context: &Context<'_>,
        span: Span,
        left: &ETerm,
        right: &Scoped,
        range: &EType,
    ) -> Result<Made, Fault>
        ensures { MeetsMade self.now.rules.env.now self.now.rules.budget (then (limited (place span) (put_written 0 left.now range.now)) (λ b.
            then (checks (env_of self.now.rules.env.now) no_encodings (entries context.now) right.now (term (env_of self.now.rules.env.now) no_encodings (entries context.now) right.now) b) (λ u.
            paired (place span) left.now u range.now))) result }
    {
        let wanted = self.rules.second_type(span, left, range)?;
        let right = self.check(context, right, &wanted)?;
        self.rules.paired(span, left, &right, range)
    }

    /// `t.1`.
    #[cycle(infer)]
    pub(crate) fn first_of(
        &self,
        context: &Context<'_>,
        span: Span,
        part: &Scoped,
    ) -> Result<Made, Fault>
        ensures { (g : Option Tree) (w : Where) → MeetsMade self.now.rules.env.now self.now.rules.budget (term (env_of self.now.rules.env.now) no_encodings (entries context.now) (s_fst (place span) part.now) g w) result }
    {
        let found = self.infer(context, part)?;
        let parts = self.rules.parts(
            span,
            At::Whole(part.span()),
            Code::WantedIntersection,
            Former::Iota,
            &found.1,
        )?;
        self.rules.first(span, &found.0, &parts.0)
    }

    /// `t.2`.
    #[cycle(infer)]
    pub(crate) fn second_of(
        &self,
        context: &Context<'_>,
        span: Span,
        part: &Scoped,
    ) -> Result<Made, Fault>
        ensures { (g : Option Tree) (w : Where) → MeetsMade self.now.rules.env.now self.now.rules.budget (term (env_of self.now.rules.env.now) no_encodings (entries context.now) (s_snd (place span) part.now) g w) result }
    {
        let found = self.infer(context, part)?;
        let parts = self.rules.parts(
            span,
            At::Whole(part.span()),
            Code::WantedIntersection,
            Former::Iota,
            &found.1,
        )?;
        self.rules.second(span, &found.0, &parts.1)
    }
}
