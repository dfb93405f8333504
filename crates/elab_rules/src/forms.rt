//! How the rules of the forms end, once their parts are found.
ghost use Rattle.std.specs.Prelude.{◌≡◌, IfOk};
ghost use Rattle.cdle_model.specs.Erasure.{erased};
ghost use Rattle.cdle_model.specs.Forms.{at_, fst as fst_tree, kpi as kpi_tree, kpit as kpit_tree, on as on_tree, snd as snd_tree, star as star_tree, tlam as tlam_tree, xtlam as xtlam_tree, kpi, kpit, xlam, allt};
ghost use Rattle.cdle_model.specs.Trees.{allt_of, bind, kpi_of, kpit_of};
ghost use Rattle.cdle_model.specs.Substitution.{put_written};
ghost use Rattle.elab_model.specs.Questions.{gives, limited, rejects, then};
ghost use Rattle.elab_model.specs.Rules.{binder_then, either_product, gives_checked, gives_inferred, gives_type, unless_used};
ghost use Rattle.elab_model.specs.ScopedForms.{letter};
ghost use Rattle.elab_model.specs.Spines.{binder_parts};
ghost use Rattle.elab_model.specs.declared.codes.Code.TheVariants.{WantedFunction, WantedKind};
ghost use Rattle.elab_rules.specs.Answers.{Meets, seen};
ghost use Rattle.elab_rules.specs.Endings.{abstraction, abstraction_against, asks_product, either_of, over_term, over_terms, over_type, over_types, product_of, type_abstraction, type_abstraction_against, type_at_type};
ghost use Rattle.elab_rules.specs.Parts.{parts_of, seen_parts};
ghost use Rattle.elab_rules.specs.Places.{spot};
ghost use Rattle.elab_rules.specs.Spines.{MeetsMade};
ghost use Rattle.elab_rules.specs.declared.spine.Argument.TheVariants.{Erased, Kept};
ghost use Rattle.scoped_tree.specs.Trees.{place};

use crate::ask::Rules;
use crate::fault::{Fault, low};
use crate::names::kind_made;
use crate::place::At;
use crate::spine::{Argument, Made};
use crate::uses::is_unused;
use cdle_model::NoMemory;
use cdle_names::Span;
use elab_model::Code;
use elab_tree::{EKind, EKindForm, ETerm, EType, ETypeForm};
use std::alloc::Global;

/// The forms of two types, of which the second stands under the binder.
#[derive(Clone, Copy, Debug, PartialEq, Eq)]
pub enum Former {
    Pi,
    All,
    Iota,
}

/// The parts of a product, over terms or over types.
#[derive(Drop)]
pub enum Product {
    OverTerms(EType, EType),
    OverTypes(EKind, EType),
}

impl Rules<'_> {
    /// The parts of the form that the type's head form is.
    pub fn parts(
        &self,
        form: Span,
        at: At,
        code: Code,
        former: Former,
        ty: &EType,
    ) -> Result<(EType, EType), Fault>
        ensures { Meets self.now.env.now self.now.budget (binder_then (place form) (spot at) code (product_of former) ty.now (λ a b. gives (a, b))) result }
    {
        let head = self.head(form, at, false, ty)?;
        self.two_parts(at, code, former, &head)
    }

    /// The parts of the product over types that the type's head form is.
    pub fn type_parts(
        &self,
        form: Span,
        at: At,
        code: Code,
        ty: &EType,
    ) -> Result<(EKind, EType), Fault>
        ensures { Meets self.now.env.now self.now.budget (binder_then (place form) (spot at) code allt_of ty.now (λ k b. gives (k, b))) result }
    {
        let head = self.head(form, at, false, ty)?;
        self.two_type_parts(at, code, &head)
    }

    /// The parts of the product, of either class, that the type's head form is.
    pub fn either_parts(&self, form: Span, at: At, ty: &EType) -> Result<Product, Fault>
        ensures { Meets self.now.env.now self.now.budget (asks_product (place form) (spot at) ty.now) (seen either_of result) }
    {
        let head = self.head(form, at, false, ty)?;
        self.product(at, &head)
    }

    /// An abstraction over a term with its type. A variable that is erased is not in the body's erasure.
    pub fn abstraction(
        &self,
        form: Span,
        argument: Argument,
        domain: &EType,
        body: &(ETerm, EType),
    ) -> Result<Made, Fault>
        ensures { MeetsMade self.now.env.now self.now.budget (abstraction argument (place form) domain.now body.now) result }
    {
        match argument {
            Argument::Kept => self.kept_abstraction(form, domain, body),
            Argument::Erased => self.erased_abstraction(form, domain, body),
        }
    }

    /// An abstraction over a term that has the type asked for.
    pub fn abstraction_against(
        &self,
        form: Span,
        argument: Argument,
        domain: &EType,
        body: &ETerm,
    ) -> Result<Made, Fault>
        ensures { MeetsMade self.now.env.now self.now.budget (abstraction_against argument (place form) domain.now body.now) result }
    {
        match argument {
            Argument::Kept => self.checked_abstraction(form, domain, body),
            Argument::Erased => self.checked_erased_abstraction(form, domain, body),
        }
    }

    /// An abstraction over a type with its type.
    pub fn type_abstraction(
        &self,
        form: Span,
        kind: &EKind,
        body: &(ETerm, EType),
    ) -> Result<Made, Fault>
        ensures { MeetsMade self.now.env.now self.now.budget (type_abstraction (place form) kind.now body.now) result }
    {
        self.unused(form, &body.0)?;
        let term = ETerm::xlam(self.alloc, kind, &body.0)?;
        let ty = EType::allt(self.alloc, kind, &body.1)?;
        self.inferred(form, term, ty)
    }

    /// An abstraction over a type that has the type asked for.
    pub fn type_abstraction_against(
        &self,
        form: Span,
        kind: &EKind,
        body: &ETerm,
    ) -> Result<Made, Fault>
        ensures { MeetsMade self.now.env.now self.now.budget (type_abstraction_against (place form) kind.now body.now) result }
    {
        self.unused(form, body)?;
        let term = ETerm::xlam(self.alloc, kind, body)?;
        self.checked(form, term)
    }

    /// A product or an intersection of two types, with its kind.
    pub fn over_term(
        &self,
        form: Span,
        former: Former,
        domain: &EType,
        range: &EType,
    ) -> Result<(EType, EKind), Fault>
        ensures { Meets self.now.env.now self.now.budget (over_terms former (place form) domain.now range.now) result }
    {
        let ty = formed(self.alloc, former, domain, range)?;
        self.of_star(form, ty)
    }

    /// A product over types, with its kind.
    pub fn over_type(
        &self,
        form: Span,
        kind: &EKind,
        range: &EType,
    ) -> Result<(EType, EKind), Fault>
        ensures { Meets self.now.env.now self.now.budget (over_types (place form) kind.now range.now) result }
    {
        let ty = EType::allt(self.alloc, kind, range)?;
        self.of_star(form, ty)
    }

    /// A type that is a function over terms, with its kind.
    pub fn term_function(
        &self,
        form: Span,
        domain: &EType,
        body: &(EType, EKind),
    ) -> Result<(EType, EKind), Fault>
        ensures { Meets self.now.env.now self.now.budget (gives_type (place form) (tlam_tree domain.now body.now.0) (kpi_tree domain.now body.now.1)) result }
    {
        let ty = EType::tlam(self.alloc, domain, &body.0)?;
        low(form, ty.depth())?;
        let kind = EKind::kpi(self.alloc, domain, &body.1)?;
        low(form, kind.depth())?;
        Ok((ty, kind))
    }

    /// A type that is a function over types, with its kind.
    pub fn type_function(
        &self,
        form: Span,
        kind: &EKind,
        body: &(EType, EKind),
    ) -> Result<(EType, EKind), Fault>
        ensures { Meets self.now.env.now self.now.budget (gives_type (place form) (xtlam_tree kind.now body.now.0) (kpit_tree kind.now body.now.1)) result }
    {
        let ty = EType::xtlam(self.alloc, kind, &body.0)?;
        low(form, ty.depth())?;
        let kind = EKind::kpit(self.alloc, kind, &body.1)?;
        low(form, kind.depth())?;
        Ok((ty, kind))
    }

    /// The parts of a kind that is a product over terms.
    pub fn kind_over_term(&self, at: Span, kind: &EKind) -> Result<(EType, EKind), Fault>
        ensures { Meets self.now.env.now self.now.budget (binder_parts kpi_of kind.now (λ b k. gives (b, k)) (rejects (place at) WantedKind)) result }
    {
        match parts_by_term(kind) {
            Some((domain, part)) => Ok((domain.clone()?, part.clone()?)),
            None => Err(Fault::Rejected(At::Whole(at), Code::WantedKind)),
        }
    }

    /// The parts of a kind that is a product over types.
    pub fn kind_over_type(&self, at: Span, kind: &EKind) -> Result<(EKind, EKind), Fault>
        ensures { Meets self.now.env.now self.now.budget (binder_parts kpit_of kind.now (λ k l. gives (k, l)) (rejects (place at) WantedKind)) result }
    {
        match parts_by_type(kind) {
            Some((domain, part)) => Ok((domain.clone()?, part.clone()?)),
            None => Err(Fault::Rejected(At::Whole(at), Code::WantedKind)),
        }
    }

    /// A type applied to a term, with its kind: the rest of the head's, in which the term is put.
    pub fn type_at_term(
        &self,
        form: Span,
        head: &EType,
        rest: &EKind,
        arg: &ETerm,
    ) -> Result<(EType, EKind), Fault>
        ensures { Meets self.now.env.now self.now.budget (gives_type (place form) (at_ head.now arg.now) (put_written 0 arg.now rest.now)) result }
    {
        let ty = EType::at(self.alloc, head, arg)?;
        low(form, ty.depth())?;
        let kind = kind_made(form, rest.put_term(self.alloc, 0, arg))?;
        Ok((ty, kind))
    }

    /// A type applied to a type that has the wanted kind, with its kind.
    pub fn type_at_type(
        &self,
        form: Span,
        at: Span,
        head: &EType,
        parts: &(EKind, EKind),
        arg: &(EType, EKind),
    ) -> Result<(EType, EKind), Fault>
        ensures { Meets self.now.env.now self.now.budget (type_at_type (place form) (place at) head.now parts.now arg.now) result }
    {
        self.same_kinds(form, At::Whole(at), Code::WantedKind, &arg.1, &parts.0)?;
        self.applied_type(form, head, &parts.1, &arg.0)
    }

    /// A product of kinds over terms.
    pub fn kind_of_terms(&self, form: Span, domain: &EType, kind: &EKind) -> Result<EKind, Fault>
        ensures { Meets self.now.env.now self.now.budget (limited (place form) (kpi domain.now kind.now)) result }
    {
        let product = EKind::kpi(self.alloc, domain, kind)?;
        low(form, product.depth())?;
        Ok(product)
    }

    /// A product of kinds over types.
    pub fn kind_of_types(&self, form: Span, domain: &EKind, kind: &EKind) -> Result<EKind, Fault>
        ensures { Meets self.now.env.now self.now.budget (limited (place form) (kpit domain.now kind.now)) result }
    {
        let product = EKind::kpit(self.alloc, domain, kind)?;
        low(form, product.depth())?;
        Ok(product)
    }

    /// The parts of the type, which is in head form.
    fn two_parts(
        &self,
        at: At,
        code: Code,
        former: Former,
        head: &EType,
    ) -> Result<(EType, EType), Fault>
        ensures { Meets self.now.env.now self.now.budget (binder_parts (product_of former) head.now (λ a b. gives (a, b)) (rejects (spot at) code)) result }
    {
        match parts_of_two(former, head) {
            Some((left, right)) => Ok((left.clone()?, right.clone()?)),
            None => Err(Fault::Rejected(at, code)),
        }
    }

    /// The parts of the product over types that the type, which is in head form, is.
    fn two_type_parts(&self, at: At, code: Code, head: &EType) -> Result<(EKind, EType), Fault>
        ensures { Meets self.now.env.now self.now.budget (binder_parts allt_of head.now (λ k b. gives (k, b)) (rejects (spot at) code)) result }
    {
        match parts_over_types(head) {
            Some((kind, range)) => Ok((kind.clone()?, range.clone()?)),
            None => Err(Fault::Rejected(at, code)),
        }
    }

    /// The parts of the product, of either class, that the type, which is in head form, is.
    fn product(&self, at: At, head: &EType) -> Result<Product, Fault>
        ensures { Meets self.now.env.now self.now.budget (either_product head.now (λ d b. gives (over_term d b)) (λ d b. gives (over_type d b)) (rejects (spot at) WantedFunction)) (seen either_of result) }
    {
        match parts_of_two(Former::All, head) {
            Some((domain, range)) => Ok(Product::OverTerms(domain.clone()?, range.clone()?)),
            None => self.type_product(at, head),
        }
    }

    /// The parts of the product over types that the type, which is in head form, is.
    fn type_product(&self, at: At, head: &EType) -> Result<Product, Fault>
        ensures { Meets self.now.env.now self.now.budget (binder_parts allt_of head.now (λ d b. gives (over_type d b)) (rejects (spot at) WantedFunction)) (seen either_of result) }
    {
        match parts_over_types(head) {
            Some((kind, range)) => Ok(Product::OverTypes(kind.clone()?, range.clone()?)),
            None => Err(Fault::Rejected(at, Code::WantedFunction)),
        }
    }

    /// Refuses a body in whose erasure the variable of its binder is.
    fn unused(&self, form: Span, body: &ETerm) -> Result<(), Fault>
        ensures { Meets self.now.env.now self.now.budget (unless_used (letter (place form)) (erased body.now) (gives tt)) result }
    {
        let erased = body.erase(self.alloc)?;
        if is_unused(&erased) {
            Ok(())
        } else {
            Err(Fault::Rejected(At::Letter(form), Code::ErasedVariableUsed))
        }
    }

    /// An abstraction whose variable is kept, with its type.
    fn kept_abstraction(
        &self,
        form: Span,
        domain: &EType,
        body: &(ETerm, EType),
    ) -> Result<Made, Fault>
        ensures { MeetsMade self.now.env.now self.now.budget (abstraction Kept (place form) domain.now body.now) result }
    {
        let term = ETerm::lam(self.alloc, domain, &body.0)?;
        let ty = EType::pi(self.alloc, domain, &body.1)?;
        self.inferred(form, term, ty)
    }

    /// An abstraction whose variable is kept, that has the type asked for.
    fn checked_abstraction(&self, form: Span, domain: &EType, body: &ETerm) -> Result<Made, Fault>
        ensures { MeetsMade self.now.env.now self.now.budget (abstraction_against Kept (place form) domain.now body.now) result }
    {
        let term = ETerm::lam(self.alloc, domain, body)?;
        self.checked(form, term)
    }

    /// An abstraction whose variable is erased, that has the type asked for.
    fn checked_erased_abstraction(
        &self,
        form: Span,
        domain: &EType,
        body: &ETerm,
    ) -> Result<Made, Fault>
        ensures { MeetsMade self.now.env.now self.now.budget (abstraction_against Erased (place form) domain.now body.now) result }
    {
        self.unused(form, body)?;
        let term = ETerm::elam(self.alloc, domain, body)?;
        self.checked(form, term)
    }

    /// An abstraction whose variable is erased, with its type.
    fn erased_abstraction(
        &self,
        form: Span,
        domain: &EType,
        body: &(ETerm, EType),
    ) -> Result<Made, Fault>
        ensures { MeetsMade self.now.env.now self.now.budget (abstraction Erased (place form) domain.now body.now) result }
    {
        self.unused(form, &body.0)?;
        let term = ETerm::elam(self.alloc, domain, &body.0)?;
        let ty = EType::all(self.alloc, domain, &body.1)?;
        self.inferred(form, term, ty)
    }

    /// A term with its type.
    pub(crate) fn inferred(&self, form: Span, term: ETerm, ty: EType) -> Result<Made, Fault>
        ensures { MeetsMade self.now.env.now self.now.budget (gives_inferred (place form) term ty) result }
    {
        low(form, term.depth())?;
        low(form, ty.depth())?;
        Ok(Made::Inferred(term, ty))
    }

    /// A term that has the type asked for.
    pub(crate) fn checked(&self, form: Span, term: ETerm) -> Result<Made, Fault>
        ensures { MeetsMade self.now.env.now self.now.budget (gives_checked (place form) term) result }
    {
        low(form, term.depth())?;
        Ok(Made::Checked(term))
    }

    /// A type whose kind is `★`.
    pub(crate) fn of_star(&self, form: Span, ty: EType) -> Result<(EType, EKind), Fault>
        ensures { Meets self.now.env.now self.now.budget (gives_type (place form) ty star_tree) result }
    {
        low(form, ty.depth())?;
        let kind = EKind::star(self.alloc)?;
        Ok((ty, kind))
    }

    /// A type applied to a type, with its kind: the rest of the head's, in which the type is put.
    fn applied_type(
        &self,
        form: Span,
        head: &EType,
        rest: &EKind,
        arg: &EType,
    ) -> Result<(EType, EKind), Fault>
        ensures { Meets self.now.env.now self.now.budget (gives_type (place form) (on_tree head.now arg.now) (put_written 0 arg.now rest.now)) result }
    {
        let ty = EType::on(self.alloc, head, arg)?;
        low(form, ty.depth())?;
        let kind = kind_made(form, rest.put_type(self.alloc, 0, arg))?;
        Ok((ty, kind))
    }
}

/// The form of that binder over two types.
fn formed(alloc: Global, former: Former, domain: &EType, range: &EType) -> Result<EType, NoMemory>
    ensures { IfOk result (λ t. t ≡ bind (product_of former) domain.now range.now) }
{
    match former {
        Former::Pi => EType::pi(alloc, domain, range),
        Former::All => EType::all(alloc, domain, range),
        Former::Iota => EType::iota(alloc, domain, range),
    }
}

/// The parts of the type, where it is of this form.
fn parts_of_two(former: Former, ty: &EType) -> Option<(&EType, &EType)>
    ensures { seen_parts result ≡ parts_of (product_of former) ty.now }
{
    match (former, ty.form()) {
        (Former::Pi, ETypeForm::Pi(left, right)) => Some((left, right)),
        (Former::All, ETypeForm::All(left, right)) => Some((left, right)),
        (Former::Iota, ETypeForm::Iota(left, right)) => Some((left, right)),
        _ => None,
    }
}

/// The parts of the type, where it is a product over types.
fn parts_over_types(ty: &EType) -> Option<(&EKind, &EType)>
    ensures { seen_parts result ≡ parts_of allt_of ty.now }
{
    match ty.form() {
        ETypeForm::Allt(kind, range) => Some((kind, range)),
        _ => None,
    }
}

/// The parts of the kind, where it is a product over terms.
fn parts_by_term(kind: &EKind) -> Option<(&EType, &EKind)>
    ensures { seen_parts result ≡ parts_of kpi_of kind.now }
{
    match kind.form() {
        EKindForm::Kpi(domain, part) => Some((domain, part)),
        _ => None,
    }
}

/// The parts of the kind, where it is a product over types.
fn parts_by_type(kind: &EKind) -> Option<(&EKind, &EKind)>
    ensures { seen_parts result ≡ parts_of kpit_of kind.now }
{
    match kind.form() {
        EKindForm::Kpit(domain, part) => Some((domain, part)),
        _ => None,
    }
}
