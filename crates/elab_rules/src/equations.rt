//! How the rules of intersections and equations end, once their parts are found.
ghost use Rattle.std.specs.Prelude.{◌≡◌, IfOk};
ghost use Rattle.cdle_model.specs.Erasure.{erased};
ghost use Rattle.cdle_model.specs.Forms.{beta, delta, eq, fn, fst, pair, phi, rho, star};
ghost use Rattle.cdle_model.specs.Substitution.{put_written};
ghost use Rattle.cdle_model.specs.Trees.{shift, var};
ghost use Rattle.elab_model.specs.Questions.{gives, limited, rejects};
ghost use Rattle.elab_model.specs.Rules.{equation_then, gives_checked, gives_inferred, gives_spine, gives_type};
ghost use Rattle.elab_model.specs.Spines.{equation_parts};
ghost use Rattle.elab_model.specs.declared.codes.Code.TheVariants.{WantedEquation};
ghost use Rattle.elab_rules.specs.Answers.{Meets};
ghost use Rattle.elab_rules.specs.Equations.{are_booleans, are_sides, flipped, paired, reflexive, reflexive_against, second_of};
ghost use Rattle.elab_rules.specs.Parts.{seen_parts, sides_of};
ghost use Rattle.elab_rules.specs.Places.{spot};
ghost use Rattle.elab_rules.specs.Spines.{MeetsMade};
ghost use Rattle.scoped_tree.specs.Trees.{place};

use crate::ask::Rules;
use crate::fault::{Fault, low};
use crate::names::type_made;
use crate::place::At;
use crate::spine::Made;
use cdle_model::NoMemory;
use cdle_names::Span;
use elab_model::Code;
use elab_tree::{EGuide, EKind, EPure, ETerm, EType, ETypeForm};
use std::alloc::Global;

impl Rules<'_> {
    /// The equation of two pure terms, with its kind.
    pub fn equation(&self, form: Span, left: &EPure, right: &EPure) -> Result<(EType, EKind), Fault>
        ensures { Meets self.now.env.now self.now.budget (gives_type (place form) (eq left.now right.now) star) result }
    {
        let ty = EType::eq(self.alloc, left, right)?;
        self.of_star(form, ty)
    }

    /// The sides of the equation that the type's head form is.
    pub fn sides(&self, form: Span, at: At, ty: &EType) -> Result<(EPure, EPure), Fault>
        ensures { Meets self.now.env.now self.now.budget (equation_then (place form) (spot at) ty.now (λ x y. gives (x, y))) result }
    {
        let head = self.head(form, at, false, ty)?;
        self.two_sides(at, &head)
    }

    /// The sides of the type, which is in head form.
    fn two_sides(&self, at: At, head: &EType) -> Result<(EPure, EPure), Fault>
        ensures { Meets self.now.env.now self.now.budget (equation_parts head.now (λ x y. gives (x, y)) (rejects (spot at) WantedEquation)) result }
    {
        match sides_of_equation(head) {
            Some((left, right)) => Ok((left.clone()?, right.clone()?)),
            None => Err(Fault::Rejected(at, Code::WantedEquation)),
        }
    }

    /// The type of the second part of a pair: that of the intersection, in which the first part is put.
    pub fn second_type(&self, form: Span, left: &ETerm, range: &EType) -> Result<EType, Fault>
        ensures { Meets self.now.env.now self.now.budget (limited (place form) (put_written 0 left.now range.now)) result }
    {
        type_made(form, range.put_term(self.alloc, 0, left))
    }

    /// A pair that has the intersection asked for. Its parts are the same by erasure.
    pub fn paired(
        &self,
        form: Span,
        left: &ETerm,
        right: &ETerm,
        range: &EType,
    ) -> Result<Made, Fault>
        ensures { MeetsMade self.now.env.now self.now.budget (paired (place form) left.now right.now range.now) result }
    {
        let erased_left = left.erase(self.alloc)?;
        let erased_right = right.erase(self.alloc)?;
        self.same_terms(
            form,
            At::Bracket(form),
            Code::PartsDiffer,
            &erased_left,
            &erased_right,
        )?;
        self.pair_of(form, left, right, range)
    }

    fn pair_of(&self, form: Span, left: &ETerm, right: &ETerm, range: &EType) -> Result<Made, Fault>
        ensures { MeetsMade self.now.env.now self.now.budget (gives_checked (place form) (pair left.now right.now range.now)) result }
    {
        let term = ETerm::pair(self.alloc, left, right, range)?;
        self.checked(form, term)
    }

    /// The first part of a term of an intersection whose first part is this type.
    pub fn first(&self, form: Span, part: &ETerm, ty: &EType) -> Result<Made, Fault>
        ensures { MeetsMade self.now.env.now self.now.budget (gives_spine (place form) (fst part.now) ty.now) result }
    {
        let term = ETerm::fst(self.alloc, part)?;
        let ty = ty.clone()?;
        self.spine_of(form, term, ty)
    }

    /// The second part of a term of an intersection whose second part is this type, over the first.
    pub fn second(&self, form: Span, part: &ETerm, range: &EType) -> Result<Made, Fault>
        ensures { MeetsMade self.now.env.now self.now.budget (second_of (place form) part.now range.now) result }
    {
        let first = ETerm::fst(self.alloc, part)?;
        let term = ETerm::snd(self.alloc, part)?;
        low(form, term.depth())?;
        let ty = type_made(form, range.put_term(self.alloc, 0, &first))?;
        Ok(self.starting(form, term, ty))
    }

    /// A term with its type, as a spine without arguments.
    fn spine_of(&self, form: Span, term: ETerm, ty: EType) -> Result<Made, Fault>
        ensures { MeetsMade self.now.env.now self.now.budget (gives_spine (place form) term ty) result }
    {
        low(form, term.depth())?;
        low(form, ty.depth())?;
        Ok(self.starting(form, term, ty))
    }

    /// The proof that a pure term is itself, with its type.
    pub fn reflexive(&self, form: Span, side: &EPure, kept: &EPure) -> Result<Made, Fault>
        ensures { MeetsMade self.now.env.now self.now.budget (reflexive (place form) side.now kept.now) result }
    {
        let term = ETerm::beta(self.alloc, side, kept)?;
        let ty = EType::eq(self.alloc, side, side)?;
        self.inferred(form, term, ty)
    }

    /// The proof of the equation asked for, whose sides are the same.
    pub fn reflexive_against(
        &self,
        form: Span,
        sides: &(EPure, EPure),
        kept: &EPure,
    ) -> Result<Made, Fault>
        ensures { MeetsMade self.now.env.now self.now.budget (reflexive_against (place form) sides.now kept.now) result }
    {
        self.same_terms(
            form,
            At::Letter(form),
            Code::SidesDiffer,
            &sides.0,
            &sides.1,
        )?;
        let term = ETerm::beta(self.alloc, &sides.0, kept)?;
        self.checked(form, term)
    }

    /// Refuses, unless the sides of an equation are the erasure of the term and the pure term.
    pub fn are_sides(
        &self,
        form: Span,
        sides: &(EPure, EPure),
        part: &ETerm,
        kept: &EPure,
    ) -> Result<(), Fault>
        ensures { Meets self.now.env.now self.now.budget (are_sides (place form) sides.now part.now kept.now) result }
    {
        let part = part.erase(self.alloc)?;
        self.same_terms(form, At::Letter(form), Code::SidesDiffer, &sides.0, &part)?;
        self.same_terms(form, At::Letter(form), Code::SidesDiffer, &sides.1, kept)
    }

    /// A term cast along an equation, with its type.
    pub fn cast_along(
        &self,
        form: Span,
        proof: &ETerm,
        part: &(ETerm, EType),
        kept: &EPure,
    ) -> Result<Made, Fault>
        ensures { MeetsMade self.now.env.now self.now.budget (gives_inferred (place form) (phi proof.now part.now.0 kept.now) part.now.1) result }
    {
        let term = ETerm::phi(self.alloc, proof, &part.0, kept)?;
        let ty = part.1.clone()?;
        self.inferred(form, term, ty)
    }

    /// A term cast along an equation, that has the type asked for.
    pub fn cast_along_against(
        &self,
        form: Span,
        proof: &ETerm,
        part: &ETerm,
        kept: &EPure,
    ) -> Result<Made, Fault>
        ensures { MeetsMade self.now.env.now self.now.budget (gives_checked (place form) (phi proof.now part.now kept.now)) result }
    {
        let term = ETerm::phi(self.alloc, proof, part, kept)?;
        self.checked(form, term)
    }

    /// Refuses, unless the sides of an equation are the two booleans.
    pub fn are_booleans(&self, form: Span, sides: &(EPure, EPure)) -> Result<(), Fault>
        ensures { Meets self.now.env.now self.now.budget (are_booleans (place form) sides.now) result }
    {
        let first = boolean(self.alloc, 1)?;
        let second = boolean(self.alloc, 0)?;
        self.same_terms(
            form,
            At::Letter(form),
            Code::NotTheTwoBooleans,
            &sides.0,
            &first,
        )?;
        self.same_terms(
            form,
            At::Letter(form),
            Code::NotTheTwoBooleans,
            &sides.1,
            &second,
        )
    }

    /// A term of any type by an equation of the two booleans, with its type.
    pub fn absurd(&self, form: Span, ty: &EType, proof: &ETerm) -> Result<Made, Fault>
        ensures { MeetsMade self.now.env.now self.now.budget (gives_inferred (place form) (delta ty.now proof.now) ty.now) result }
    {
        let term = ETerm::delta(self.alloc, ty, proof)?;
        let ty = ty.clone()?;
        self.inferred(form, term, ty)
    }

    /// A term of the type asked for by an equation of the two booleans.
    pub fn absurd_against(&self, form: Span, goal: &EType, proof: &ETerm) -> Result<Made, Fault>
        ensures { MeetsMade self.now.env.now self.now.budget (gives_checked (place form) (delta goal.now proof.now)) result }
    {
        let term = ETerm::delta(self.alloc, goal, proof)?;
        self.checked(form, term)
    }

    /// A term rewritten along an equation, which has this type.
    pub fn rewritten(
        &self,
        form: Span,
        proof: &ETerm,
        guide: &EGuide,
        ty: &EType,
        part: &ETerm,
    ) -> Result<Made, Fault>
        ensures { MeetsMade self.now.env.now self.now.budget (gives_inferred (place form) (rho proof.now guide.now ty.now part.now) ty.now) result }
    {
        let term = ETerm::rho(self.alloc, proof, guide, ty, part)?;
        let ty = ty.clone()?;
        self.inferred(form, term, ty)
    }

    /// A term rewritten along an equation, that has the type asked for.
    pub fn rewritten_against(
        &self,
        form: Span,
        proof: &ETerm,
        guide: &EGuide,
        goal: &EType,
        part: &ETerm,
    ) -> Result<Made, Fault>
        ensures { MeetsMade self.now.env.now self.now.budget (gives_checked (place form) (rho proof.now guide.now goal.now part.now)) result }
    {
        let term = ETerm::rho(self.alloc, proof, guide, goal, part)?;
        self.checked(form, term)
    }

    /// The proof of an equation with its sides exchanged, with its type.
    pub fn flipped(&self, form: Span, proof: &ETerm, sides: &(EPure, EPure)) -> Result<Made, Fault>
        ensures { MeetsMade self.now.env.now self.now.budget (flipped (place form) sides.now proof.now) result }
    {
        let ty = EType::eq(self.alloc, &sides.1, &sides.0)?;
        let term = flipped_term(self.alloc, proof, &sides.1, &ty)?;
        self.inferred(form, term, ty)
    }

    /// A term that has the type written for it.
    pub fn annotated(&self, form: Span, part: &ETerm, ty: &EType) -> Result<Made, Fault>
        ensures { MeetsMade self.now.env.now self.now.budget (gives_inferred (place form) part.now ty.now) result }
    {
        let term = part.clone()?;
        let ty = ty.clone()?;
        self.inferred(form, term, ty)
    }
}

/// The sides of the type, where it is an equation.
fn sides_of_equation(ty: &EType) -> Option<(&EPure, &EPure)>
    ensures { seen_parts result ≡ sides_of ty.now }
{
    match ty.form() {
        ETypeForm::Eq(left, right) => Some((left, right)),
        _ => None,
    }
}

/// `λx.λy.x` at 1, and `λx.λy.y` at 0.
fn boolean(alloc: Global, index: u32) -> Result<EPure, NoMemory>
    ensures { IfOk result (λ t. t ≡ fn (fn (var index))) }
{
    let body = EPure::var(alloc, index)?;
    let inner = EPure::function(alloc, &body)?;
    EPure::function(alloc, &inner)
}

/// The proof with the sides of its equation, whose right one is this, exchanged.
fn flipped_term(alloc: Global, proof: &ETerm, side: &EPure, ty: &EType) -> Result<ETerm, NoMemory>
    ensures { IfOk result (λ t. t ≡ rho proof.now (eq (shift 0 1 side.now) (var 0)) ty.now (beta side.now (erased proof.now))) }
{
    let guide = flipping_guide(alloc, side)?;
    let kept = proof.erase(alloc)?;
    let part = ETerm::beta(alloc, side, &kept)?;
    ETerm::rho(alloc, proof, &guide, ty, &part)
}

/// The guide in which the left side is to be rewritten.
fn flipping_guide(alloc: Global, side: &EPure) -> Result<EGuide, NoMemory>
    ensures { IfOk result (λ g. g ≡ eq (shift 0 1 side.now) (var 0)) }
{
    // Never that the side is too deep: it is a part of a head form.
    let Ok(raised) = side.shift(alloc, 0, 1) else {
        return Err(NoMemory);
    };
    let variable = EPure::var(alloc, 0)?;
    EGuide::eq(alloc, &raised, &variable)
}
