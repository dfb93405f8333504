//! Erasures of terms, types and kinds.
ghost use Rattle.std.specs.Prelude.{◌≡◌, ◌≤◌, IfOk};
ghost use Rattle.cdle_model.specs.Trees.{var};
ghost use Rattle.cdle_model.specs.Forms.{allt, at_, fn};
ghost use Rattle.cdle_model.specs.Depth.{depth};
ghost use Rattle.cdle_model.specs.Erasure.{HasErasure, erased};
ghost use Rattle.core_tree.specs.Products.{product_tree};

use crate::guide::{Guide, GuideForm, GuideKind, GuideKindForm};
use crate::product::Product;
use crate::pure::{Pure, PureForm};
use crate::term::{Kind, KindForm, Term, TermForm, Ty, TyForm};
use cdle_model::NoMemory;
use std::alloc::Global;

impl Term {
    /// What is left without annotations and erased parts. It is never deeper.
    #[tactic(auto, using(cdle_model::proofs::Trees::depth_lowered))]
    pub fn erase(&self, alloc: Global) -> Result<Pure, NoMemory>
        requires { HasErasure self.now }
        ensures is { IfOk result (λ t. t ≡ erased self.now) }
        ensures no_deeper { IfOk result (λ t. depth t ≤ depth self.now) }
    {
        match self.form() {
            TermForm::Var(index) => Pure::var(alloc, *index),
            TermForm::Name(item) => Pure::name(alloc, *item),
            TermForm::Lam(_, part) => {
                let part = part.erase(alloc)?;
                Pure::of(alloc, PureForm::Function(part))
            }
            TermForm::Elam(_, part) | TermForm::Xlam(_, part) => {
                let part = part.erase(alloc)?;
                part.lower(alloc)
            }
            TermForm::App(head, arg) => {
                let head = head.erase(alloc)?;
                let arg = arg.erase(alloc)?;
                Pure::of(alloc, PureForm::Ap(head, arg))
            }
            TermForm::Eapp(part, _)
            | TermForm::Tapp(part, _)
            | TermForm::Pair(part, _, _)
            | TermForm::Fst(part)
            | TermForm::Snd(part)
            | TermForm::Rho(_, _, _, part) => part.erase(alloc),
            TermForm::Beta(_, kept) | TermForm::Phi(_, _, kept) => kept.share(),
            TermForm::Delta(_, _) => identity(alloc),
        }
    }
}

/// The function that gives its argument.
fn identity(alloc: Global) -> Result<Pure, NoMemory>
    ensures { IfOk result (λ t. t ≡ fn (var 0)) }
{
    let variable = Pure::var(alloc, 0)?;
    Pure::of(alloc, PureForm::Function(variable))
}

impl Ty {
    /// What is left without annotations and erased parts. It is never deeper.
    #[cycle(erase)]
    #[tactic(auto, using(crate::proofs::Erasures::depth_erased))]
    pub fn erase(&self, alloc: Global) -> Result<Guide, NoMemory>
        requires { HasErasure self.now }
        ensures is { IfOk result (λ t. t ≡ erased self.now) }
        ensures no_deeper { IfOk result (λ t. depth t ≤ depth self.now) }
    {
        match self.form() {
            TyForm::Var(index) => Guide::var(alloc, *index),
            TyForm::Name(item) => Guide::name(alloc, *item),
            TyForm::Pi(domain, part) => Ty::erase_product(alloc, Product::Pi, domain, part),
            TyForm::All(domain, part) => Ty::erase_product(alloc, Product::All, domain, part),
            TyForm::Allt(domain, part) => Ty::erase_allt(alloc, domain, part),
            TyForm::Tlam(_, part) => {
                let part = part.erase(alloc)?;
                Guide::of(alloc, GuideForm::Tlam(part))
            }
            TyForm::Xtlam(_, part) => {
                let part = part.erase(alloc)?;
                Guide::of(alloc, GuideForm::Xtlam(part))
            }
            TyForm::At(head, arg) => Ty::erase_at(alloc, head, arg),
            TyForm::On(head, arg) => {
                let head = head.erase(alloc)?;
                let arg = arg.erase(alloc)?;
                Guide::of(alloc, GuideForm::On(head, arg))
            }
            TyForm::Iota(left, right) => Ty::erase_product(alloc, Product::Iota, left, right),
            TyForm::Eq(left, right) => Guide::eq(alloc, left, right),
        }
    }

    /// The erasure of a product of a type and a type over its variable.
    #[cycle(erase)]
    fn erase_product(
        alloc: Global,
        product: Product,
        domain: &Ty,
        part: &Ty,
    ) -> Result<Guide, NoMemory>
        requires domain { HasErasure domain.now }
        requires part { HasErasure part.now }
        ensures { IfOk result (λ t. t ≡ product_tree product (erased domain.now) (erased part.now)) }
    {
        let domain = domain.erase(alloc)?;
        let part = part.erase(alloc)?;
        Guide::product(alloc, product, domain, part)
    }

    #[cycle(erase)]
    fn erase_allt(alloc: Global, domain: &Kind, part: &Ty) -> Result<Guide, NoMemory>
        requires domain { HasErasure domain.now }
        requires part { HasErasure part.now }
        ensures { IfOk result (λ t. t ≡ allt (erased domain.now) (erased part.now)) }
    {
        let domain = domain.erase(alloc)?;
        let part = part.erase(alloc)?;
        Guide::of(alloc, GuideForm::Allt(domain, part))
    }

    #[cycle(erase)]
    fn erase_at(alloc: Global, head: &Ty, arg: &Term) -> Result<Guide, NoMemory>
        requires head { HasErasure head.now }
        requires arg { HasErasure arg.now }
        ensures { IfOk result (λ t. t ≡ at_ (erased head.now) (erased arg.now)) }
    {
        let head = head.erase(alloc)?;
        let arg = arg.erase(alloc)?;
        Guide::of(alloc, GuideForm::At(head, arg))
    }
}

impl Kind {
    /// What is left without annotations and erased parts. It is never deeper.
    #[cycle(erase)]
    #[tactic(auto, using(crate::proofs::Erasures::depth_erased))]
    pub fn erase(&self, alloc: Global) -> Result<GuideKind, NoMemory>
        requires { HasErasure self.now }
        ensures is { IfOk result (λ t. t ≡ erased self.now) }
        ensures no_deeper { IfOk result (λ t. depth t ≤ depth self.now) }
    {
        match self.form() {
            KindForm::Star => GuideKind::star(alloc),
            KindForm::Kpi(domain, part) => {
                let domain = domain.erase(alloc)?;
                let part = part.erase(alloc)?;
                GuideKind::of(alloc, GuideKindForm::Kpi(domain, part))
            }
            KindForm::Kpit(domain, part) => {
                let domain = domain.erase(alloc)?;
                let part = part.erase(alloc)?;
                GuideKind::of(alloc, GuideKindForm::Kpit(domain, part))
            }
        }
    }
}
