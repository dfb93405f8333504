//! Erasures of terms, types and kinds.
ghost use Rattle.std.specs.Prelude.{◌≡◌, IfOk};
ghost use Rattle.cdle_model.specs.Trees.{var};
ghost use Rattle.cdle_model.specs.Forms.{allt, at_, fn};
ghost use Rattle.cdle_model.specs.Erasure.{erased, lowered};
ghost use Rattle.elab_tree.specs.Shapes.{guides_over};

use crate::change::Change;
use crate::guide::{EGuide, EGuideForm, EGuideKind, EGuideKindForm};
use crate::pure::{EPure, EPureForm};
use crate::shapes::OverGuides;
use crate::stop::refuse_deep_erasure;
use crate::term::{EKind, EKindForm, ETerm, ETermForm, EType, ETypeForm};
use cdle_model::NoMemory;
use std::alloc::Global;

impl ETerm {
    /// What is left without annotations and erased parts. Where an erased binder's variable is left over, there is no erasure, and the
    /// answer is want of memory.
    pub fn erase(&self, alloc: Global) -> Result<EPure, NoMemory>
        ensures { IfOk result (λ t. t ≡ erased self.now) }
    {
        refuse_deep_erasure(self.depth())?;
        match self.form() {
            ETermForm::Var(index) => EPure::of(alloc, EPureForm::Var(*index)),
            ETermForm::Name(item) => EPure::of(alloc, EPureForm::Name(*item)),
            ETermForm::Lam(_, part) => {
                let part = part.erase(alloc)?;
                EPure::of(alloc, EPureForm::Function(part))
            }
            ETermForm::Elam(_, part) | ETermForm::Xlam(_, part) => {
                let part = part.erase(alloc)?;
                part.lower(alloc)
            }
            ETermForm::App(head, arg) => {
                let head = head.erase(alloc)?;
                let arg = arg.erase(alloc)?;
                EPure::of(alloc, EPureForm::Ap(head, arg))
            }
            ETermForm::Eapp(part, _)
            | ETermForm::Tapp(part, _)
            | ETermForm::Pair(part, _, _)
            | ETermForm::Fst(part)
            | ETermForm::Snd(part)
            | ETermForm::Rho(_, _, _, part) => part.erase(alloc),
            ETermForm::Beta(_, kept) | ETermForm::Phi(_, _, kept) => kept.share(),
            ETermForm::Delta(_, _) => identity(alloc),
        }
    }
}

/// The function that gives its argument.
fn identity(alloc: Global) -> Result<EPure, NoMemory>
    ensures { IfOk result (λ t. t ≡ fn (var 0)) }
{
    let variable = EPure::var(alloc, 0)?;
    EPure::of(alloc, EPureForm::Function(variable))
}

impl EPure {
    /// Takes the variable 0, which is not in the tree, out of the numbering.
    #[tactic(auto, using(crate::proofs::Changes::lower_is))]
    fn lower(&self, alloc: Global) -> Result<EPure, NoMemory>
        ensures { IfOk result (λ t. t ≡ lowered self.now) }
    {
        // Asked for its bound alone.
        let _depth = self.depth();
        match self.change(alloc, &Change::Lower, 0) {
            Ok(tree) => Ok(tree),
            // Never that a tree is too deep: nothing is put.
            Err(_) => Err(NoMemory),
        }
    }
}

impl EType {
    /// What is left without annotations and erased parts.
    #[cycle(erase)]
    pub fn erase(&self, alloc: Global) -> Result<EGuide, NoMemory>
        ensures { IfOk result (λ t. t ≡ erased self.now) }
    {
        refuse_deep_erasure(self.depth())?;
        match self.form() {
            ETypeForm::Var(index) => EGuide::of(alloc, EGuideForm::Var(*index)),
            ETypeForm::Name(item) => EGuide::of(alloc, EGuideForm::Name(*item)),
            ETypeForm::Unknown(number) => EGuide::of(alloc, EGuideForm::Unknown(*number)),
            ETypeForm::Pi(domain, part) => domain.erase_two(alloc, OverGuides::Pi, part),
            ETypeForm::All(domain, part) => domain.erase_two(alloc, OverGuides::All, part),
            ETypeForm::Allt(domain, part) => domain.erase_allt(alloc, part),
            ETypeForm::Tlam(_, part) => {
                let part = part.erase(alloc)?;
                EGuide::of(alloc, EGuideForm::Tlam(part))
            }
            ETypeForm::Xtlam(_, part) => {
                let part = part.erase(alloc)?;
                EGuide::of(alloc, EGuideForm::Xtlam(part))
            }
            ETypeForm::At(head, arg) => {
                let head = head.erase(alloc)?;
                head.applied_by(alloc, arg)
            }
            ETypeForm::On(head, arg) => head.erase_two(alloc, OverGuides::On, arg),
            ETypeForm::Iota(left, right) => left.erase_two(alloc, OverGuides::Iota, right),
            ETypeForm::Eq(left, right) => EGuide::eq(alloc, left, right),
        }
    }

    /// The guide of that form over the erasure of this type and that of another one.
    #[cycle(erase)]
    fn erase_two(&self, alloc: Global, form: OverGuides, other: &EType) -> Result<EGuide, NoMemory>
        ensures { IfOk result (λ t. t ≡ guides_over form (erased self.now) (erased other.now)) }
    {
        let first = self.erase(alloc)?;
        let second = other.erase(alloc)?;
        EGuide::over(alloc, form, first, second)
    }
}

impl EGuide {
    /// This guide applied by the erasure of the term.
    fn applied_by(self, alloc: Global, arg: &ETerm) -> Result<EGuide, NoMemory>
        ensures { IfOk result (λ t. t ≡ at_ self (erased arg.now)) }
    {
        let arg = arg.erase(alloc)?;
        EGuide::of(alloc, EGuideForm::At(self, arg))
    }
}

impl EKind {
    /// What is left without annotations and erased parts.
    #[cycle(erase)]
    pub fn erase(&self, alloc: Global) -> Result<EGuideKind, NoMemory>
        ensures { IfOk result (λ t. t ≡ erased self.now) }
    {
        refuse_deep_erasure(self.depth())?;
        match self.form() {
            EKindForm::Star => EGuideKind::of(alloc, EGuideKindForm::Star),
            EKindForm::Kpi(domain, part) => {
                let domain = domain.erase(alloc)?;
                let part = part.erase(alloc)?;
                EGuideKind::of(alloc, EGuideKindForm::Kpi(domain, part))
            }
            EKindForm::Kpit(domain, part) => {
                let domain = domain.erase(alloc)?;
                let part = part.erase(alloc)?;
                EGuideKind::of(alloc, EGuideKindForm::Kpit(domain, part))
            }
        }
    }

    /// The erasure of the type over this domain.
    #[cycle(erase)]
    fn erase_allt(&self, alloc: Global, part: &EType) -> Result<EGuide, NoMemory>
        ensures { IfOk result (λ t. t ≡ allt (erased self.now) (erased part.now)) }
    {
        let domain = self.erase(alloc)?;
        let part = part.erase(alloc)?;
        EGuide::of(alloc, EGuideForm::Allt(domain, part))
    }
}
