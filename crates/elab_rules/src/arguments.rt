//! What a spine asks at an argument, and what it becomes.
ghost use Rattle.std.specs.Prelude.{◌≡◌, IfOk, length, suc, true, ℕ};
ghost use Rattle.cdle_model.specs.HeadForms.{deepest};
ghost use Rattle.cdle_model.specs.Trees.{Tree, all_of, allt_of, binary, leaf, pi_of, tapp_of, unknown};
ghost use Rattle.elab_model.specs.declared.codes.Code.TheVariants.{ArgumentLeftOpen};
ghost use Rattle.elab_model.specs.Instances.{instance as solution_of};
ghost use Rattle.elab_model.specs.Questions.{ask_head, gives, rejects};
ghost use Rattle.elab_model.specs.Spines.{applied, applied_at, brought as brings, fits_then, if_solved, leaves_out as leaves, made_so_far, refreshed};
ghost use Rattle.elab_rules.specs.Answers.{Meets, seen};
ghost use Rattle.elab_rules.specs.Arguments.{IsChanged, further, headed, parts_of, turn, turn_of, with_made, with_unknown};
ghost use Rattle.elab_rules.specs.Spines.{MeetsSpine, binary_of, binder_of, open_of, open_type_of, opens, opens_type, spine_of, takes, takes_inferred, takes_type};
ghost use Rattle.elab_tree.specs.Answers.{Gives};
ghost use Rattle.elab_tree.specs.Known.{Known};
ghost use Rattle.scoped_tree.specs.Trees.{place};

use crate::ask::Rules;
use crate::fault::{Fault, low};
use crate::place::At;
use crate::spine::{Argument, Opened, OpenedType, Spine};
use cdle_model::NoMemory;
use cdle_names::Span;
use elab_match::{Solution, instance, solving_puts_what_is_found};
use elab_model::Code;
use elab_tree::{EKind, ETerm, EType, ETypeForm, TreeStop};
use std::alloc::Global;

/// As many types may be left out of a spine at once as a tree may be deep, and a turn more brings it.
const TURNS: u32 = 4097;

impl Rules<'_> {
    /// A type is left out of the spine, whose type so far is a product over types of these parts.
    pub(crate) fn leaves_out(
        &self,
        whole: Span,
        spine: Spine,
        kind: &EKind,
        range: &EType,
    ) -> Result<Spine, Fault>
        ensures { MeetsSpine self.now.env.now self.now.budget (leaves (place whole) (spine_of spine) kind.now range.now) result }
    {
        let unknown = next_unknown(self.alloc, &spine)?;
        let spine = with_next_unknown(spine, kind)?;
        self.applied_to_type(whole, spine, range, &unknown)
    }

    /// The spine with its type so far in head form, and with types left out of it unless its next argument is a type.
    pub(crate) fn brought(&self, whole: Span, typed: bool, spine: Spine) -> Result<Spine, Fault>
        ensures { MeetsSpine self.now.env.now self.now.budget (brings (suc deepest) (place whole) typed (spine_of spine)) result }
    {
        let mut so_far = spine;
        let mut left = TURNS;
        'turns: while left > 0 {
            let (done, next) = self.turned(whole, typed, so_far)?;
            if done {
                return Ok(next);
            }
            so_far = next;
            left -= 1;
        }
        Err(Fault::TooDeep(whole))
    }

    /// One turn of bringing a spine to its head form: whether it is brought.
    fn turned(&self, whole: Span, typed: bool, spine: Spine) -> Result<(bool, Spine), Fault>
        ensures { Meets self.now.env.now self.now.budget (turn (place whole) typed (spine_of spine)) (seen turn_of result) }
    {
        let spine = self.in_head_form(whole, spine)?;
        if typed {
            return Ok((true, spine));
        }
        self.unless_type(whole, spine)
    }

    /// The spine with its type so far in head form.
    fn in_head_form(&self, whole: Span, spine: Spine) -> Result<Spine, Fault>
        ensures { MeetsSpine self.now.env.now self.now.budget (headed (place whole) (spine_of spine)) result }
    {
        let ty = self.head(whole, At::Whole(spine.head), false, &spine.ty)?;
        let mut spine = spine;
        spine.ty = ty;
        Ok(spine)
    }

    /// Leaves a type out of the spine where its type so far is a product over types; else it is brought.
    fn unless_type(&self, whole: Span, spine: Spine) -> Result<(bool, Spine), Fault>
        ensures { Meets self.now.env.now self.now.budget (further (place whole) (spine_of spine)) (seen turn_of result) }
    {
        match type_parts(&spine.ty)? {
            Some((kind, range)) => Ok((false, self.leaves_out(whole, spine, &kind, &range)?)),
            None => Ok((true, spine)),
        }
    }

    /// The target is an instance of the pattern as it is, or else by its head form with the names of datatypes kept: the solution by which it is.
    pub(crate) fn fitted(
        &self,
        whole: Span,
        at: Span,
        found: Solution,
        pattern: &EType,
        target: &EType,
    ) -> Result<Solution, Fault>
        ensures { Meets self.now.env.now self.now.budget (fits_then (place whole) (place at) found pattern.now target.now (λ os. gives os)) result }
    {
        let mut found = found;
        if instance(self.alloc, pattern, target, &mut found)? {
            return Ok(found);
        }
        self.fitted_by_head(whole, at, found, pattern, target)
    }

    /// The head form of the target, with the names of datatypes kept, is an instance of the pattern.
    fn fitted_by_head(
        &self,
        whole: Span,
        at: Span,
        found: Solution,
        pattern: &EType,
        target: &EType,
    ) -> Result<Solution, Fault>
        ensures { Meets self.now.env.now self.now.budget (ask_head (place whole) (place at) true target.now
            (λ h. if_solved (solution_of found pattern.now h) (λ os. gives os) (rejects (place at) ArgumentLeftOpen))) result }
    {
        let head = self.head(whole, At::Whole(at), true, target)?;
        let mut found = found;
        if instance(self.alloc, pattern, &head, &mut found)? {
            Ok(found)
        } else {
            Err(Fault::Rejected(At::Whole(at), Code::ArgumentLeftOpen))
        }
    }

    /// The spine is to take a term.
    pub fn opened(&self, whole: Span, argument: Argument, spine: Spine) -> Result<Opened, Fault>
        ensures { Meets self.now.env.now self.now.budget (opens (place whole) (binder_of argument) (spine_of spine)) (seen open_of result) }
    {
        let spine = self.brought(whole, false, spine)?;
        match product_parts(argument, &spine.ty)? {
            Some((domain, range)) => Ok(Opened {
                spine,
                domain,
                range,
            }),
            None => Err(Fault::Rejected(At::Whole(spine.head), Code::WantedFunction)),
        }
    }

    /// The spine takes a term that has its domain as its type.
    pub fn takes(
        &self,
        whole: Span,
        argument: Argument,
        with: Opened,
        term: &ETerm,
    ) -> Result<Spine, Fault>
        ensures { MeetsSpine self.now.env.now self.now.budget (takes (place whole) (binary_of argument) (open_of with) term.now) result }
    {
        let Opened { spine, range, .. } = with;
        self.applied(whole, argument, spine, &range, term)
    }

    /// The spine, whose domain has an unknown, takes a term with its type.
    pub fn takes_inferred(
        &self,
        whole: Span,
        at: Span,
        argument: Argument,
        with: Opened,
        found: &(ETerm, EType),
    ) -> Result<Spine, Fault>
        ensures { MeetsSpine self.now.env.now self.now.budget (takes_inferred (place whole) (binder_of argument) (binary_of argument) (place at) (open_of with) found.now) result }
    {
        let Opened { spine, domain, .. } = with;
        let spine = self.refreshed(whole, at, spine, &domain, &found.1)?;
        self.applied_at(whole, argument, spine, &found.0)
    }

    /// The spine is to take a type.
    pub fn opened_type(&self, whole: Span, spine: Spine) -> Result<OpenedType, Fault>
        ensures { Meets self.now.env.now self.now.budget (opens_type (place whole) (spine_of spine)) (seen open_type_of result) }
    {
        let spine = self.brought(whole, true, spine)?;
        match type_parts(&spine.ty)? {
            Some((kind, range)) => Ok(OpenedType { spine, kind, range }),
            None => Err(Fault::Rejected(At::Whole(spine.head), Code::WantedFunction)),
        }
    }

    /// The spine takes a type with its kind.
    pub fn takes_type(
        &self,
        whole: Span,
        at: Span,
        with: OpenedType,
        found: &(EType, EKind),
    ) -> Result<Spine, Fault>
        ensures { MeetsSpine self.now.env.now self.now.budget (takes_type (place whole) (place at) (open_type_of with) found.now) result }
    {
        if with.kind.has_unknown() {
            return Err(Fault::Rejected(At::Whole(at), Code::WantedKind));
        }
        self.same_kinds(whole, At::Whole(at), Code::WantedKind, &found.1, &with.kind)?;
        let OpenedType { spine, range, .. } = with;
        self.applied_to_type(whole, spine, &range, &found.0)
    }

    /// The spine, once the target is an instance of the pattern, with what is found.
    pub(crate) fn refreshed(
        &self,
        whole: Span,
        at: Span,
        spine: Spine,
        pattern: &EType,
        target: &EType,
    ) -> Result<Spine, Fault>
        ensures { MeetsSpine self.now.env.now self.now.budget
            (fits_then (place whole) (place at) spine.found pattern.now target.now (refreshed (place whole) (spine_of spine))) result }
    {
        let Spine {
            head,
            term,
            ty,
            kinds,
            found,
        } = spine;
        let found = self.fitted(whole, at, found, pattern, target)?;
        self.solved(
            whole,
            Spine {
                head,
                term,
                ty,
                kinds,
                found,
            },
        )
    }

    /// The spine with its type so far filled by what is found.
    fn solved(&self, whole: Span, spine: Spine) -> Result<Spine, Fault>
        ensures { MeetsSpine self.now.env.now self.now.budget (refreshed (place whole) (spine_of spine) spine.found) result }
    {
        solving_puts_what_is_found();
        let ty = changed(whole, spine.ty.solve(self.alloc, spine.found.as_slice()))?;
        let mut spine = spine;
        spine.ty = ty;
        made(whole, spine)
    }

    /// The spine applied to a term, where its type so far is the product that takes it.
    fn applied_at(
        &self,
        whole: Span,
        argument: Argument,
        spine: Spine,
        term: &ETerm,
    ) -> Result<Spine, Fault>
        ensures { MeetsSpine self.now.env.now self.now.budget (applied_at (place whole) (binder_of argument) (binary_of argument) term.now (spine_of spine)) result }
    {
        match product_parts(argument, &spine.ty)? {
            Some((_, range)) => self.applied(whole, argument, spine, &range, term),
            None => Err(Fault::NoMemory),
        }
    }

    /// The spine applied to a term.
    fn applied(
        &self,
        whole: Span,
        argument: Argument,
        spine: Spine,
        range: &EType,
        term: &ETerm,
    ) -> Result<Spine, Fault>
        ensures { MeetsSpine self.now.env.now self.now.budget (applied (place whole) (binary_of argument) term.now range.now (spine_of spine)) result }
    {
        let ty = changed(whole, range.put_term(self.alloc, 0, term))?;
        let term = application(self.alloc, argument, &spine.term, term)?;
        made(whole, with_parts(spine, term, ty))
    }

    /// The spine applied to a type.
    fn applied_to_type(
        &self,
        whole: Span,
        spine: Spine,
        range: &EType,
        arg: &EType,
    ) -> Result<Spine, Fault>
        ensures { MeetsSpine self.now.env.now self.now.budget (applied (place whole) tapp_of arg.now range.now (spine_of spine)) result }
    {
        let ty = changed(whole, range.put_type(self.alloc, 0, arg))?;
        let term = ETerm::tapp(self.alloc, &spine.term, arg)?;
        made(whole, with_parts(spine, term, ty))
    }
}

/// The application of the head to a term, by the form of such an argument.
fn application(
    alloc: Global,
    argument: Argument,
    head: &ETerm,
    arg: &ETerm,
) -> Result<ETerm, NoMemory>
    ensures { IfOk result (λ t. t ≡ binary (binary_of argument) head.now arg.now) }
{
    match argument {
        Argument::Kept => ETerm::app(alloc, head, arg),
        Argument::Erased => ETerm::eapp(alloc, head, arg),
    }
}

/// The spine with another term and another type so far.
fn with_parts(spine: Spine, term: ETerm, ty: EType) -> Spine
    ensures { spine_of result ≡ with_made (spine_of spine) term ty }
{
    let mut spine = spine;
    spine.term = term;
    spine.ty = ty;
    spine
}

/// The spine, unless its term or its type so far is too deep.
fn made(form: Span, spine: Spine) -> Result<Spine, Fault>
    ensures { (k : Known) (n : ℕ) → MeetsSpine k n (made_so_far (place form) (spine_of spine)) result }
{
    low(form, spine.term.depth())?;
    low(form, spine.ty.depth())?;
    Ok(spine)
}

/// What a rule of this form makes of a type, unless it is too deep.
fn changed(form: Span, change: Result<EType, TreeStop>) -> Result<EType, Fault>
    ensures { (t : Tree) → Gives t change → IsChanged (place form) t result }
{
    match change {
        Ok(ty) => Ok(ty),
        Err(stop) => Err(Fault::stopped(form, stop)),
    }
}

/// The unknown for the next type that is left out of the spine.
fn next_unknown(alloc: Global, spine: &Spine) -> Result<EType, NoMemory>
    ensures { IfOk result (λ x. x ≡ leaf (unknown (length (spine_of spine.now).kinds))) }
{
    // Not reached: so many kinds fit in no memory.
    let Ok(number) = u32::try_from(spine.kinds.len()) else {
        return Err(NoMemory);
    };
    EType::unknown(alloc, number)
}

/// The spine with an unknown more, of this kind.
fn with_next_unknown(spine: Spine, kind: &EKind) -> Result<Spine, NoMemory>
    ensures { IfOk result (λ s. spine_of s ≡ with_unknown (spine_of spine) kind.now) }
{
    let mut spine = spine;
    spine.kinds.push(kind.clone()?)?;
    spine.found.fresh()?;
    Ok(spine)
}

/// The parts of the product that takes such an argument.
fn product_parts(argument: Argument, ty: &EType) -> Result<Option<(EType, EType)>, NoMemory>
    ensures { IfOk result (λ o. o ≡ parts_of (binder_of argument) ty.now) }
{
    match argument {
        Argument::Kept => kept_parts(ty),
        Argument::Erased => erased_parts(ty),
    }
}

/// The parts of a product over terms.
fn kept_parts(ty: &EType) -> Result<Option<(EType, EType)>, NoMemory>
    ensures { IfOk result (λ o. o ≡ parts_of pi_of ty.now) }
{
    match ty.form() {
        ETypeForm::Pi(domain, range) => Ok(Some((domain.clone()?, range.clone()?))),
        _ => Ok(None),
    }
}

/// The parts of a product over erased terms.
fn erased_parts(ty: &EType) -> Result<Option<(EType, EType)>, NoMemory>
    ensures { IfOk result (λ o. o ≡ parts_of all_of ty.now) }
{
    match ty.form() {
        ETypeForm::All(domain, range) => Ok(Some((domain.clone()?, range.clone()?))),
        _ => Ok(None),
    }
}

/// The parts of a product over types.
fn type_parts(ty: &EType) -> Result<Option<(EKind, EType)>, NoMemory>
    ensures { IfOk result (λ o. o ≡ parts_of allt_of ty.now) }
{
    match ty.form() {
        ETypeForm::Allt(kind, range) => Ok(Some((kind.clone()?, range.clone()?))),
        _ => Ok(None),
    }
}
