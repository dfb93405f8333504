//! What the guide of `ρ` says of the sides of its equation, and how the rule ends with a part whose type is found.
ghost use Rattle.std.specs.Prelude.{◌≡◌, IfOk, ℕ};
ghost use Rattle.cdle_model.specs.Erasure.{erased};
ghost use Rattle.cdle_model.specs.Trees.{Tree, put};
ghost use Rattle.elab_model.specs.Questions.{ask_same, gives, limited};
ghost use Rattle.elab_rules.specs.Answers.{Meets};
ghost use Rattle.elab_rules.specs.Equations.{is_said, rewritten_from, said_of};
ghost use Rattle.elab_rules.specs.Places.{spot};
ghost use Rattle.elab_rules.specs.Spines.{MeetsMade};
ghost use Rattle.elab_tree.specs.Answers.{Gives};
ghost use Rattle.elab_tree.specs.Known.{Known as Items};
ghost use Rattle.scoped_tree.specs.Trees.{place};

use crate::ask::Rules;
use crate::fault::Fault;
use crate::place::At;
use crate::spine::Made;
use cdle_model::NoMemory;
use cdle_names::Span;
use elab_model::Code;
use elab_tree::{EGuide, EGuideForm, EPure, ETerm, EType, TreeStop};
use std::alloc::Global;

impl Rules<'_> {
    /// The guide with the side for its variable.
    fn guide_with(&self, form: Span, guide: &EGuide, side: &EPure) -> Result<EGuide, Fault>
        ensures { Meets self.now.env.now self.now.budget (limited (place form) (put 0 side.now guide.now)) result }
    {
        guide_made(form, guide.put_pure(self.alloc, 0, side))
    }

    /// Refuses, unless the type's erasure is that guide.
    fn is_guide(
        &self,
        form: Span,
        at: At,
        code: Code,
        ty: &EType,
        guide: &EGuide,
    ) -> Result<(), Fault>
        ensures { Meets self.now.env.now self.now.budget (ask_same (place form) (spot at) code (erased ty.now) guide.now (gives tt)) result }
    {
        let erased = ty.erase(self.alloc)?;
        self.same_guides(form, at, code, &erased, guide)
    }

    /// Refuses, unless the type is what the guide says of the side.
    pub fn is_said(
        &self,
        form: Span,
        at: At,
        code: Code,
        ty: &EType,
        guide: &EGuide,
        side: &EPure,
    ) -> Result<(), Fault>
        ensures { Meets self.now.env.now self.now.budget (is_said (place form) (spot at) code ty.now guide.now side.now) result }
    {
        let said = self.guide_with(form, guide, side)?;
        self.is_guide(form, at, code, ty, &said)
    }

    /// What a guide that is an equation says of the side, as a type. Of any other guide there is no answer.
    pub fn equation_said(&self, form: Span, guide: &EGuide, side: &EPure) -> Result<EType, Fault>
        ensures { Meets self.now.env.now self.now.budget (limited (place form) (put 0 side.now guide.now)) result }
    {
        let said = self.guide_with(form, guide, side)?;
        Ok(equation_type(self.alloc, &said)?)
    }

    /// What a guide that is an equation says of the side, where no type is asked for. It is compared with itself, as one that is asked for would be.
    pub fn equation_inferred(
        &self,
        form: Span,
        guide: &EGuide,
        side: &EPure,
    ) -> Result<EType, Fault>
        ensures { Meets self.now.env.now self.now.budget (said_of (place form) (put 0 side.now guide.now) guide.now side.now) result }
    {
        let said = self.guide_with(form, guide, side)?;
        let ty = equation_type(self.alloc, &said)?;
        self.is_guide(form, At::Letter(form), Code::SidesDiffer, &ty, &said)?;
        Ok(ty)
    }

    /// What a guide that is an equation says of the side, where it is the type asked for.
    pub fn equation_against(
        &self,
        form: Span,
        goal: &EType,
        guide: &EGuide,
        side: &EPure,
    ) -> Result<EType, Fault>
        ensures { Meets self.now.env.now self.now.budget (said_of (place form) goal.now guide.now side.now) result }
    {
        let said = self.guide_with(form, guide, side)?;
        self.is_guide(form, At::Letter(form), Code::SidesDiffer, goal, &said)?;
        Ok(equation_type(self.alloc, &said)?)
    }

    /// A term rewritten to the type asked for, from the type that the guide says of the right side. The proof has the sides of its equation; the part
    /// stands at that place.
    pub fn rewritten_from(
        &self,
        form: Span,
        at: Span,
        proof: &(ETerm, (EPure, EPure)),
        guide: &EGuide,
        goal: &EType,
        part: &(ETerm, EType),
    ) -> Result<Made, Fault>
        ensures { MeetsMade self.now.env.now self.now.budget (rewritten_from (place form) (place at) proof.now guide.now goal.now part.now) result }
    {
        self.is_said(
            form,
            At::Whole(at),
            Code::Mismatch,
            &part.1,
            guide,
            &proof.1.1,
        )?;
        self.rewritten_against(form, &proof.0, guide, goal, &part.0)
    }
}

/// The guide, which is an equation, as a type.
fn equation_type(alloc: Global, guide: &EGuide) -> Result<EType, NoMemory>
    ensures { IfOk result (λ a. a ≡ guide.now) }
{
    match guide.form() {
        EGuideForm::Eq(left, right) => EType::eq(alloc, left, right),
        // Nobody asks for another guide as an equation.
        _ => Err(NoMemory),
    }
}

/// The guide that a change makes, or the fault of this form.
fn guide_made(form: Span, made: Result<EGuide, TreeStop>) -> Result<EGuide, Fault>
    ensures { (k : Items) (n : ℕ) (t : Tree) → Gives t made → Meets k n (limited (place form) t) result }
{
    match made {
        Ok(guide) => Ok(guide),
        Err(stop) => Err(Fault::stopped(form, stop)),
    }
}
