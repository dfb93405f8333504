//! How spines end, and terms with them.
ghost use Rattle.std.specs.Prelude.{◌≡◌, IfOk, suc, true};
ghost use Rattle.cdle_model.specs.Erasure.{erased};
ghost use Rattle.cdle_model.specs.HeadForms.{deepest};
ghost use Rattle.cdle_model.specs.Trees.{allt_of};
ghost use Rattle.elab_model.specs.Instances.{solved_in};
ghost use Rattle.elab_model.specs.Questions.{ask_head, ask_same, gives, limited, then, unless_deep};
ghost use Rattle.elab_model.specs.Rules.{started as starts};
ghost use Rattle.elab_model.specs.SourceErasure.{Encodings};
ghost use Rattle.elab_model.specs.Spines.{against as ends_against, binder_parts, closes, fitted as fits, kind_of as kind_in, kinds_agree, leading_out, led, without_goal as ends_without};
ghost use Rattle.elab_model.specs.declared.codes.Code.TheVariants.{Mismatch, WantedKind};
ghost use Rattle.elab_reduce.specs.Items.{env_of};
ghost use Rattle.elab_rules.specs.Answers.{Meets};
ghost use Rattle.elab_rules.specs.Contexts.{entries};
ghost use Rattle.elab_rules.specs.TypeProducts.{is_type_product, type_product};
ghost use Rattle.elab_rules.specs.Spines.{MeetsSpine, made_of, spine_of};
ghost use Rattle.scoped_tree.specs.Trees.{place};

use crate::ask::Rules;
use crate::context::Context;
use crate::fault::{Fault, low};
use crate::kinds::limited_kind;
use crate::place::At;
use crate::spine::{Made, Spine};
use cdle_model::NoMemory;
use cdle_names::Span;
use elab_match::Solution;
use elab_model::Code;
use elab_tree::{EKind, ETerm, EType, ETypeForm};

impl Rules<'_> {
    /// No type is left open, each that is found has its kind; the term and its type with what is found.
    pub(crate) fn closed(
        &self,
        whole: Span,
        context: &Context<'_>,
        spine: Spine,
    ) -> Result<(ETerm, EType), Fault>
        ensures { Meets self.now.env.now self.now.budget (closes (env_of self.now.env.now) (place whole) (entries context.now) (spine_of spine) (λ t a. gives (t, a))) result }
    {
        if !spine.found.is_whole() {
            return Err(Fault::Rejected(At::Whole(whole), Code::ArgumentLeftOpen));
        }
        self.kinds_agree(whole, context, &spine.found, &spine.kinds)?;
        self.filled(whole, &spine)
    }

    /// Each type that is found has the kind of its unknown.
    fn kinds_agree(
        &self,
        whole: Span,
        context: &Context<'_>,
        found: &Solution,
        kinds: &Vec<EKind>,
    ) -> Result<(), Fault>
        ensures { Meets self.now.env.now self.now.budget (kinds_agree (env_of self.now.env.now) (place whole) (entries context.now) found.now found.now kinds.now.items (gives tt)) result }
    {
        let mut number = 0;
        'unknowns: while number < found.len() {
            let Some(ty) = found.get(number) else {
                return Ok(());
            };
            if number as usize >= kinds.len() {
                return Ok(());
            }
            self.kind_agrees(whole, context, found, ty, &kinds[number as usize])?;
            number += 1;
        }
        Ok(())
    }

    /// The type has the kind, with what is found put in that.
    fn kind_agrees(
        &self,
        whole: Span,
        context: &Context<'_>,
        found: &Solution,
        ty: &EType,
        kind: &EKind,
    ) -> Result<(), Fault>
        ensures { Meets self.now.env.now self.now.budget (then (kind_in (env_of self.now.env.now) (place whole) (entries context.now) ty.now)
            (λ l. unless_deep (place whole) (solved_in found.now kind.now) (ask_same (place whole) (place whole) WantedKind (erased l) (erased (solved_in found.now kind.now)) (gives tt)))) result }
    {
        let has = self.kind_of(whole, context, ty)?;
        let wanted = self.solved_kind(whole, found, kind)?;
        self.same_kinds(whole, At::Whole(whole), Code::WantedKind, &has, &wanted)
    }

    /// The kind with what is found put for its unknowns.
    fn solved_kind(&self, whole: Span, found: &Solution, kind: &EKind) -> Result<EKind, Fault>
        ensures { Meets self.now.env.now self.now.budget (limited (place whole) (solved_in found.now kind.now)) result }
    {
        limited_kind(whole, kind.solve(self.alloc, found.as_slice()))
    }

    /// The term with what is found put for its unknowns.
    fn solved_term(&self, whole: Span, found: &Solution, term: &ETerm) -> Result<ETerm, Fault>
        ensures { Meets self.now.env.now self.now.budget (limited (place whole) (solved_in found.now term.now)) result }
    {
        match term.solve(self.alloc, found.as_slice()) {
            Ok(term) => Ok(term),
            Err(stop) => Err(Fault::stopped(whole, stop)),
        }
    }

    /// The term of the spine and its type, with what is found.
    fn filled(&self, whole: Span, spine: &Spine) -> Result<(ETerm, EType), Fault>
        ensures { Meets self.now.env.now self.now.budget (unless_deep (place whole) (solved_in spine.now.found spine.now.term) (gives (solved_in spine.now.found spine.now.term, solved_in spine.now.found spine.now.ty))) result }
    {
        let term = self.solved_term(whole, &spine.found, &spine.term)?;
        match spine.ty.solve(self.alloc, spine.found.as_slice()) {
            Ok(ty) => Ok((term, ty)),
            // Deeper than 4,096. Not reached: the type so far is not so deep, and has no unknown for which something is found.
            Err(_) => Err(Fault::NoMemory),
        }
    }

    /// How a term ends where no type is asked for.
    pub fn without_goal(
        &self,
        whole: Span,
        context: &Context<'_>,
        made: Made,
    ) -> Result<(ETerm, EType), Fault>
        ensures { Meets self.now.env.now self.now.budget (ends_without (env_of self.now.env.now) (place whole) (entries context.now) (made_of made)) result }
    {
        match made {
            // Not reached: only where a type is asked for a term is checked.
            Made::Checked(_) => Err(Fault::NoMemory),
            Made::Inferred(term, ty) => Ok((term, ty)),
            Made::Spine(spine) => self.closed(whole, context, spine),
        }
    }

    /// How a term ends against the type asked for.
    pub fn against(
        &self,
        whole: Span,
        context: &Context<'_>,
        goal: &EType,
        made: Made,
    ) -> Result<ETerm, Fault>
        ensures { Meets self.now.env.now self.now.budget (ends_against (env_of self.now.env.now) (place whole) (entries context.now) goal.now (made_of made)) result }
    {
        match made {
            Made::Checked(term) => Ok(term),
            Made::Inferred(term, ty) => self.has_goal(whole, goal, (term, ty)),
            Made::Spine(spine) => self.spine_against(whole, context, goal, spine),
        }
    }

    /// The term, where its type is the one asked for.
    fn has_goal(&self, whole: Span, goal: &EType, found: (ETerm, EType)) -> Result<ETerm, Fault>
        ensures { Meets self.now.env.now self.now.budget (ask_same (place whole) (place whole) Mismatch (erased found.1) (erased goal.now) (gives found.0)) result }
    {
        let (term, ty) = found;
        self.same_types(whole, At::Whole(whole), Code::Mismatch, &ty, goal)?;
        Ok(term)
    }

    /// How a spine ends against the type asked for.
    fn spine_against(
        &self,
        whole: Span,
        context: &Context<'_>,
        goal: &EType,
        spine: Spine,
    ) -> Result<ETerm, Fault>
        ensures { Meets self.now.env.now self.now.budget (then (led (env_of self.now.env.now) (place whole) goal.now (spine_of spine)) (λ r. then (fits (env_of self.now.env.now) (place whole) goal.now r)
            (λ r. closes (env_of self.now.env.now) (place whole) (entries context.now) r (λ t b. ask_same (place whole) (place whole) Mismatch (erased b) (erased goal.now) (gives t))))) result }
    {
        let led = self.led(whole, goal, spine)?;
        let met = self.matched(whole, goal, led)?;
        self.closed_against(whole, context, goal, met)
    }

    /// No type is left open, and the spine's type is the one asked for.
    fn closed_against(
        &self,
        whole: Span,
        context: &Context<'_>,
        goal: &EType,
        spine: Spine,
    ) -> Result<ETerm, Fault>
        ensures { Meets self.now.env.now self.now.budget (closes (env_of self.now.env.now) (place whole) (entries context.now) (spine_of spine) (λ t b. ask_same (place whole) (place whole) Mismatch (erased b) (erased goal.now) (gives t))) result }
    {
        let found = self.closed(whole, context, spine)?;
        self.has_goal(whole, goal, found)
    }

    /// Types are left out of a spine whose type so far is itself a product over types, unless the type asked for is one too.
    fn led(&self, whole: Span, goal: &EType, spine: Spine) -> Result<Spine, Fault>
        ensures { MeetsSpine self.now.env.now self.now.budget (led (env_of self.now.env.now) (place whole) goal.now (spine_of spine)) result }
    {
        if !is_type_product(&spine.ty) {
            return Ok(spine);
        }
        self.led_by_goal(whole, goal, spine)
    }

    /// The same of a spine whose type so far is itself a product over types.
    fn led_by_goal(&self, whole: Span, goal: &EType, spine: Spine) -> Result<Spine, Fault>
        ensures { MeetsSpine self.now.env.now self.now.budget (ask_head (place whole) (place whole) true goal.now
            (λ h. binder_parts allt_of h (λ l d. gives (spine_of spine)) (leading_out (env_of self.now.env.now) (suc deepest) (place whole) (spine_of spine)))) result }
    {
        let head = self.head(whole, At::Whole(whole), true, goal)?;
        if is_type_product(&head) {
            return Ok(spine);
        }
        self.led_out(whole, spine)
    }

    /// Types are left out as long as the type so far is itself a product over types.
    fn led_out(&self, whole: Span, spine: Spine) -> Result<Spine, Fault>
        ensures { MeetsSpine self.now.env.now self.now.budget (leading_out (env_of self.now.env.now) (suc deepest) (place whole) (spine_of spine)) result }
    {
        let mut current = spine;
        let mut left: u32 = 4097;
        'leading: while left > 0 {
            match type_product(&current.ty)? {
                Some((kind, range)) => current = self.leaves_out(whole, current, &kind, &range)?,
                None => return Ok(current),
            }
            left -= 1;
        }
        Err(Fault::TooDeep(whole))
    }

    /// Where not all is found, the type asked for fits the type so far, and the spine has what is found by that.
    fn matched(&self, whole: Span, goal: &EType, spine: Spine) -> Result<Spine, Fault>
        ensures { MeetsSpine self.now.env.now self.now.budget (fits (env_of self.now.env.now) (place whole) goal.now (spine_of spine)) result }
    {
        if spine.found.is_whole() {
            return Ok(spine);
        }
        let pattern = spine.ty.clone()?;
        self.refreshed(whole, whole, spine, &pattern, goal)
    }

    /// What is made of the head of an application, as a spine.
    pub fn started(&self, head: Span, made: Made) -> Result<Spine, Fault>
        ensures { (f : Encodings) → MeetsSpine self.now.env.now self.now.budget (starts (env_of self.now.env.now) f (place head) (made_of made)) result }
    {
        match made {
            Made::Spine(spine) => Ok(spine),
            Made::Inferred(term, ty) => Ok(Spine {
                head,
                term,
                ty,
                kinds: Vec::new(self.alloc),
                found: Solution::new(self.alloc),
            }),
            // Not reached: a head is asked for no type.
            Made::Checked(_) => Err(Fault::NoMemory),
        }
    }
}

/// The parts of a product over types; nothing of any other type.
fn type_product(ty: &EType) -> Result<Option<(EKind, EType)>, NoMemory>
    ensures { IfOk result (λ o. type_product ty.now ≡ o) }
{
    match ty.form() {
        ETypeForm::Allt(kind, range) => Ok(Some((kind.clone()?, range.clone()?))),
        _ => Ok(None),
    }
}

/// Whether the type is a product over types.
fn is_type_product(ty: &EType) -> bool
    ensures { result ≡ is_type_product ty.now }
{
    match ty.form() {
        ETypeForm::Allt(_, _) => true,
        _ => false,
    }
}
