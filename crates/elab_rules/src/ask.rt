//! The questions of the rules: comparisons and head forms, each with a budget of its own.
ghost use Rattle.std.specs.Prelude.{◌≡◌};
ghost use Rattle.cdle_model.specs.Comparison.{Answer};
ghost use Rattle.cdle_model.specs.Erasure.{erased};
ghost use Rattle.cdle_model.specs.Forms.{star};
ghost use Rattle.cdle_model.specs.HeadForms.{HeadAnswer};
ghost use Rattle.cdle_model.specs.Machine.{Budgeted};
ghost use Rattle.elab_convert.specs.Answers.{IsAnswer};
ghost use Rattle.elab_model.specs.Questions.{ask_head, ask_same, by_answer, by_head, found, gives};
ghost use Rattle.elab_model.specs.declared.codes.Code.TheVariants.{WantedKind};
ghost use Rattle.elab_reduce.specs.Heads.{IsHead};
ghost use Rattle.elab_rules.specs.Answers.{IsFound, Meets};
ghost use Rattle.elab_rules.specs.Places.{spot};
ghost use Rattle.scoped_tree.specs.Trees.{place};

use crate::fault::Fault;
use crate::place::At;
use cdle_names::Span;
use elab_convert::{ConvertStop, convert_kinds, convert_terms, convert_types};
use elab_model::Code;
use elab_reduce::{ElabStop, head_type};
use elab_tree::{EGuide, EGuideKind, EKind, EPure, EType, Env};
use std::alloc::Global;

/// The items so far, over which the rules are read, and the budget of each question.
#[derive(Drop)]
pub struct Rules<'a> {
    pub alloc: Global,
    pub env: &'a Env,
    pub budget: u64,
}

impl Rules<'_> {
    /// Refuses, unless the two types are the same.
    pub fn same_types(
        &self,
        form: Span,
        at: At,
        code: Code,
        left: &EType,
        right: &EType,
    ) -> Result<(), Fault>
        ensures { Meets self.now.env.now self.now.budget (ask_same (place form) (spot at) code (erased left.now) (erased right.now) (gives tt)) result }
    {
        let left = left.erase(self.alloc)?;
        let right = right.erase(self.alloc)?;
        compared(
            form,
            at,
            code,
            convert_types(self.alloc, self.env, &left, &right, self.budget),
        )
    }

    /// Refuses, unless the two kinds are the same.
    pub fn same_kinds(
        &self,
        form: Span,
        at: At,
        code: Code,
        left: &EKind,
        right: &EKind,
    ) -> Result<(), Fault>
        ensures { Meets self.now.env.now self.now.budget (ask_same (place form) (spot at) code (erased left.now) (erased right.now) (gives tt)) result }
    {
        let left = left.erase(self.alloc)?;
        let right = right.erase(self.alloc)?;
        compared(
            form,
            at,
            code,
            convert_kinds(self.alloc, self.env, &left, &right, self.budget),
        )
    }

    /// Refuses, unless the kind is `★`.
    pub fn is_star(&self, form: Span, at: At, kind: &EKind) -> Result<(), Fault>
        ensures { Meets self.now.env.now self.now.budget (ask_same (place form) (spot at) WantedKind (erased kind.now) star (gives tt)) result }
    {
        let kind = kind.erase(self.alloc)?;
        let star = EGuideKind::star(self.alloc)?;
        compared(
            form,
            at,
            Code::WantedKind,
            convert_kinds(self.alloc, self.env, &kind, &star, self.budget),
        )
    }

    /// Refuses, unless the two pure terms are the same.
    pub fn same_terms(
        &self,
        form: Span,
        at: At,
        code: Code,
        left: &EPure,
        right: &EPure,
    ) -> Result<(), Fault>
        ensures { Meets self.now.env.now self.now.budget (ask_same (place form) (spot at) code left.now right.now (gives tt)) result }
    {
        compared(
            form,
            at,
            code,
            convert_terms(self.alloc, self.env, left, right, self.budget),
        )
    }

    /// Refuses, unless the two erased types are the same.
    pub fn same_guides(
        &self,
        form: Span,
        at: At,
        code: Code,
        left: &EGuide,
        right: &EGuide,
    ) -> Result<(), Fault>
        ensures { Meets self.now.env.now self.now.budget (ask_same (place form) (spot at) code left.now right.now (gives tt)) result }
    {
        compared(
            form,
            at,
            code,
            convert_types(self.alloc, self.env, left, right, self.budget),
        )
    }

    /// The head form of the type. With `keep_data` names of datatypes are not unfolded.
    pub fn head(&self, form: Span, at: At, keep_data: bool, ty: &EType) -> Result<EType, Fault>
        ensures { Meets self.now.env.now self.now.budget (ask_head (place form) (spot at) keep_data ty.now (λ h. gives h)) result }
    {
        headed(
            form,
            at,
            head_type(self.alloc, self.env, ty, keep_data, self.budget),
        )
    }
}

/// What a comparison's answer says.
fn compared(form: Span, at: At, code: Code, answer: Result<bool, ConvertStop>) -> Result<(), Fault>
    ensures { (o : Budgeted Answer) → IsAnswer o answer → IsFound (by_answer (place form) (spot at) code o (found tt)) result }
{
    match answer {
        Ok(true) => Ok(()),
        Ok(false) => Err(Fault::Rejected(at, code)),
        Err(ConvertStop::Spent) => Err(Fault::Undecided(at)),
        Err(ConvertStop::TooDeep) => Err(Fault::TooDeep(form)),
        Err(ConvertStop::NoMemory) => Err(Fault::NoMemory),
    }
}

/// What the answer to a question for a head form says.
fn headed(form: Span, at: At, answer: Result<EType, ElabStop>) -> Result<EType, Fault>
    ensures { (o : Budgeted HeadAnswer) → IsHead o answer → IsFound (by_head (place form) (spot at) o (λ h. found h)) result }
{
    match answer {
        Ok(head) => Ok(head),
        Err(ElabStop::Spent) => Err(Fault::Undecided(at)),
        Err(ElabStop::TooDeep) => Err(Fault::TooDeep(form)),
        Err(ElabStop::NoMemory) => Err(Fault::NoMemory),
    }
}
