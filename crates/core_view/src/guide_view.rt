//! Erased types and kinds, read on the nodes of written types and kinds or on their own.
ghost use Rattle.std.specs.Prelude.{◌≡◌, ◌≤◌, IfOk, IfSome};
ghost use Rattle.cdle_model.specs.Depth.{depth};
ghost use Rattle.cdle_model.specs.Classes.{IsOf, UsedAs, guide_kinds, guides};
ghost use Rattle.cdle_model.specs.Erasure.{HasErasure, erased};
ghost use Rattle.cdle_model.specs.Forms.{allt, at_, eq, on};
ghost use Rattle.cdle_model.specs.Trees.{IsBelow, put};
ghost use Rattle.cdle_model.specs.declared.grammar.Sort.TheVariants.{OfTerm, OfType};
ghost use Rattle.core_tree.specs.Nodes.{PutGives};
ghost use Rattle.core_tree.specs.Parts.{part_sort, part_tree};
ghost use Rattle.core_tree.specs.Products.{product_tree};
ghost use Rattle.core_view.specs.Readings.{IsGuideTop, guide_view_tree, kind_view_tree};

use crate::both::both;
use crate::guide_put::put_type;
use crate::pure_view::PureView;
use cdle_model::NoMemory;
use core_tree::{
    Guide, GuideForm, GuideKind, GuideKindForm, Kind, KindForm, Part, Product, Pure, PutStop, Term,
    Ty, TyForm,
};
use std::alloc::Global;
use std::marker::Model;

#[derive(Drop)]
enum GuideNode {
    Written(Ty),
    Built(Guide),
}

/// An erased type, read at a written type or at its own node. No binder of a type is erased, so that both have one numbering. Contracts see the tree.
#[derive(Drop)]
pub struct GuideView {
    node: GuideNode,
}

/// The head of an erased type, with its parts.
#[derive(Drop)]
pub enum GuideViewForm {
    Var(u32),
    Name(u32),
    Pi(GuideView, GuideView),
    All(GuideView, GuideView),
    Allt(KindView, GuideView),
    Tlam(GuideView),
    Xtlam(GuideView),
    At(GuideView, PureView),
    On(GuideView, GuideView),
    Iota(GuideView, GuideView),
    Eq(PureView, PureView),
}

/// The head of an erased type alone.
#[derive(Clone, Copy)]
pub enum GuideTop {
    Var(u32),
    Name(u32),
    Tlam,
    Xtlam,
    At,
    On,
    Other,
}

#[derive(Drop)]
enum KindNode {
    Written(Kind, Global),
    Built(GuideKind),
}

/// An erased kind, read at a written kind or at its own node. Contracts see the tree.
#[derive(Drop)]
pub struct KindView {
    node: KindNode,
}

/// The head of an erased kind, with its parts.
#[derive(Drop)]
pub enum KindViewForm {
    Star,
    Kpi(GuideView, KindView),
    Kpit(KindView, KindView),
}

impl Model for GuideView {
    ghost use Rattle.cdle_model.specs.Trees.{Tree};
    ghost use Rattle.cdle_model.specs.Code.{coded_tree};

    ghost Value = { Tree };

    ghost coded = { coded_tree };

    ghost use Rattle.std.specs.Prelude.{◌≤◌};
    ghost use Rattle.cdle_model.specs.Depth.{depth};
    ghost use Rattle.cdle_model.specs.Classes.{IsOf, guides};
    ghost use Rattle.core_view.specs.Readings.{IsDefinedGuide, guide_node_tree};

    ghost view = { λ a. guide_node_tree a.node };

    ghost invariant = { λ a. IsDefinedGuide a.node × IsOf guides (guide_node_tree a.node) × (depth (guide_node_tree a.node) ≤ 65535) };
}

impl Model for KindView {
    ghost use Rattle.cdle_model.specs.Trees.{Tree};
    ghost use Rattle.cdle_model.specs.Code.{coded_tree};

    ghost Value = { Tree };

    ghost coded = { coded_tree };

    ghost use Rattle.std.specs.Prelude.{◌≤◌};
    ghost use Rattle.cdle_model.specs.Depth.{depth};
    ghost use Rattle.cdle_model.specs.Classes.{IsOf, guide_kinds};
    ghost use Rattle.core_view.specs.Readings.{IsDefinedKind, kind_node_tree};

    ghost view = { λ a. kind_node_tree a.node };

    ghost invariant = { λ a. IsDefinedKind a.node × IsOf guide_kinds (kind_node_tree a.node) × (depth (kind_node_tree a.node) ≤ 65535) };
}

impl GuideView {
    /// The erasure of the type, of which the node is shared.
    #[tactic(auto, using(crate::proofs::Erasures::reading))]
    pub fn of_type(ty: &Ty) -> Result<GuideView, NoMemory>
        requires { HasErasure ty.now }
        ensures { IfOk result (λ t. t ≡ erased ty.now) }
    {
        ty.known();
        // Asked for its bound alone.
        let _depth = ty.depth();
        Ok(GuideView {
            node: GuideNode::Written(ty.clone()?),
        })
    }

    /// The erased type itself, of which the node is shared.
    pub fn of_guide(guide: &Guide) -> Result<GuideView, NoMemory>
        ensures { IfOk result (λ t. t ≡ guide.now) }
    {
        Ok(GuideView::built(guide.clone()?))
    }

    /// The erased type itself.
    pub fn built(guide: Guide) -> GuideView
        ensures { result ≡ guide }
    {
        guide.known();
        // Asked for its bound alone.
        let _depth = guide.depth();
        GuideView {
            node: GuideNode::Built(guide),
        }
    }

    /// Tells a proof the class of the tree, and how deep it is at most. It does nothing when it runs.
    pub fn known(&self)
        ensures class { IsOf guides self.now }
        ensures bounded { depth self.now ≤ 65535 }
    {
        let _ = &self.node;
    }

    /// The erased type itself, where it is read at its own node. It takes no memory.
    pub fn own(&self) -> Option<&Guide>
        ensures { IfSome result (λ t. t.now ≡ self.now) }
    {
        match &self.node {
            GuideNode::Built(guide) => Some(guide),
            GuideNode::Written(_) => None,
        }
    }

    /// The same tree once more, sharing its node.
    pub fn share(&self) -> Result<GuideView, NoMemory>
        ensures { IfOk result (λ t. t ≡ self.now) }
    {
        match &self.node {
            GuideNode::Written(ty) => Ok(GuideView {
                node: GuideNode::Written(ty.clone()?),
            }),
            GuideNode::Built(guide) => Ok(GuideView {
                node: GuideNode::Built(guide.clone()?),
            }),
        }
    }

    /// The head alone. It takes no memory.
    pub fn top(&self) -> GuideTop
        ensures { IsGuideTop self.now result }
    {
        match &self.node {
            GuideNode::Written(ty) => match ty.form() {
                TyForm::Var(index) => GuideTop::Var(*index),
                TyForm::Name(item) => GuideTop::Name(*item),
                TyForm::Tlam(_, _) => GuideTop::Tlam,
                TyForm::Xtlam(_, _) => GuideTop::Xtlam,
                TyForm::At(_, _) => GuideTop::At,
                TyForm::On(_, _) => GuideTop::On,
                _ => GuideTop::Other,
            },
            GuideNode::Built(guide) => match guide.form() {
                GuideForm::Var(index) => GuideTop::Var(*index),
                GuideForm::Name(item) => GuideTop::Name(*item),
                GuideForm::Tlam(_) => GuideTop::Tlam,
                GuideForm::Xtlam(_) => GuideTop::Xtlam,
                GuideForm::At(_, _) => GuideTop::At,
                GuideForm::On(_, _) => GuideTop::On,
                _ => GuideTop::Other,
            },
        }
    }

    /// The head of the tree, with its parts.
    pub fn form(&self, alloc: Global) -> Result<GuideViewForm, NoMemory>
        ensures { IfOk result (λ f. guide_view_tree f ≡ self.now) }
    {
        match &self.node {
            GuideNode::Written(ty) => written_form(alloc, ty),
            GuideNode::Built(guide) => built_form(guide),
        }
    }

    /// The erased type as one tree, of its own nodes.
    #[tactic(auto, using(crate::proofs::Erasures::reading))]
    pub fn whole(&self, alloc: Global) -> Result<Guide, NoMemory>
        ensures { IfOk result (λ t. t ≡ self.now) }
    {
        match &self.node {
            GuideNode::Written(ty) => ty.erase(alloc),
            GuideNode::Built(guide) => Ok(guide.clone()?),
        }
    }

    /// Puts the part for the variable 0, and lowers the other free variables by one.
    pub fn put_pure(&self, alloc: Global, part: &PureView) -> Result<Guide, PutStop>
        requires used { UsedAs OfTerm 0 guides self.now }
        requires below { IsBelow 4290000000 part.now }
        ensures { PutGives (put 0 part.now self.now) result }
    {
        if let Some(part) = part.own() {
            return self.put(alloc, &Part::Pure(part));
        }
        let part = part.whole(alloc)?;
        self.put(alloc, &Part::Pure(&part))
    }

    /// Puts the part for the variable 0, and lowers the other free variables by one.
    pub fn put_guide(&self, alloc: Global, part: &GuideView) -> Result<Guide, PutStop>
        requires used { UsedAs OfType 0 guides self.now }
        requires below { IsBelow 4290000000 part.now }
        ensures { PutGives (put 0 part.now self.now) result }
    {
        if let Some(part) = part.own() {
            return self.put(alloc, &Part::Guide(part));
        }
        let part = part.whole(alloc)?;
        self.put(alloc, &Part::Guide(&part))
    }

    fn put(&self, alloc: Global, part: &Part<'_>) -> Result<Guide, PutStop>
        requires used { UsedAs (part_sort part.now) 0 guides self.now }
        requires below { IsBelow 4290000000 (part_tree part.now) }
        ensures { PutGives (put 0 (part_tree part.now) self.now) result }
    {
        match &self.node {
            GuideNode::Written(ty) => put_written_type(alloc, ty, part),
            GuideNode::Built(guide) => match part {
                Part::Pure(part) => guide.put_pure(alloc, 0, part),
                Part::Guide(part) => guide.put_guide(alloc, 0, part),
            },
        }
    }
}

/// The type's erasure with the part for the variable 0.
#[tactic(auto, using(crate::proofs::Puts::entering))]
fn put_written_type(alloc: Global, ty: &Ty, part: &Part<'_>) -> Result<Guide, PutStop>
    requires used { UsedAs (part_sort part.now) 0 guides (erased ty.now) }
    requires below { IsBelow 4290000000 (part_tree part.now) }
    ensures { PutGives (put 0 (part_tree part.now) (erased ty.now)) result }
{
    // Asked for its bound alone.
    let _depth = ty.depth();
    put_type(alloc, ty, 0, part)
}

/// The head of the type's erasure, with its parts.
fn written_form(alloc: Global, ty: &Ty) -> Result<GuideViewForm, NoMemory>
    requires { HasErasure ty.now }
    ensures { IfOk result (λ f. guide_view_tree f ≡ erased ty.now) }
{
    match ty.form() {
        TyForm::Var(index) => Ok(GuideViewForm::Var(*index)),
        TyForm::Name(item) => Ok(GuideViewForm::Name(*item)),
        TyForm::Pi(domain, part) => written_product(Product::Pi, domain, part),
        TyForm::All(domain, part) => written_product(Product::All, domain, part),
        TyForm::Allt(domain, part) => written_allt(alloc, domain, part),
        TyForm::Tlam(_, part) => Ok(GuideViewForm::Tlam(GuideView::of_type(part)?)),
        TyForm::Xtlam(_, part) => Ok(GuideViewForm::Xtlam(GuideView::of_type(part)?)),
        TyForm::At(head, arg) => written_at(head, arg),
        TyForm::On(head, arg) => written_on(head, arg),
        TyForm::Iota(left, right) => written_product(Product::Iota, left, right),
        TyForm::Eq(left, right) => eq_form(left, right),
    }
}

fn written_product(product: Product, domain: &Ty, part: &Ty) -> Result<GuideViewForm, NoMemory>
    requires domain { HasErasure domain.now }
    requires part { HasErasure part.now }
    ensures { IfOk result (λ f. guide_view_tree f ≡ product_tree product (erased domain.now) (erased part.now)) }
{
    let (domain, part) = both(GuideView::of_type(domain), GuideView::of_type(part))?;
    Ok(product_form(product, domain, part))
}

fn written_allt(alloc: Global, domain: &Kind, part: &Ty) -> Result<GuideViewForm, NoMemory>
    requires domain { HasErasure domain.now }
    requires part { HasErasure part.now }
    ensures { IfOk result (λ f. guide_view_tree f ≡ allt (erased domain.now) (erased part.now)) }
{
    let (domain, part) = both(KindView::of_kind(alloc, domain), GuideView::of_type(part))?;
    Ok(GuideViewForm::Allt(domain, part))
}

fn written_at(head: &Ty, arg: &Term) -> Result<GuideViewForm, NoMemory>
    requires head { HasErasure head.now }
    requires arg { HasErasure arg.now }
    ensures { IfOk result (λ f. guide_view_tree f ≡ at_ (erased head.now) (erased arg.now)) }
{
    let (head, arg) = both(GuideView::of_type(head), PureView::of_term(arg))?;
    Ok(GuideViewForm::At(head, arg))
}

fn written_on(head: &Ty, arg: &Ty) -> Result<GuideViewForm, NoMemory>
    requires head { HasErasure head.now }
    requires arg { HasErasure arg.now }
    ensures { IfOk result (λ f. guide_view_tree f ≡ on (erased head.now) (erased arg.now)) }
{
    let (head, arg) = both(GuideView::of_type(head), GuideView::of_type(arg))?;
    Ok(GuideViewForm::On(head, arg))
}

/// The head of the erased type, with its parts.
fn built_form(guide: &Guide) -> Result<GuideViewForm, NoMemory>
    ensures { IfOk result (λ f. guide_view_tree f ≡ guide.now) }
{
    match guide.form() {
        GuideForm::Var(index) => Ok(GuideViewForm::Var(*index)),
        GuideForm::Name(item) => Ok(GuideViewForm::Name(*item)),
        GuideForm::Pi(domain, part) => built_product(Product::Pi, domain, part),
        GuideForm::All(domain, part) => built_product(Product::All, domain, part),
        GuideForm::Allt(domain, part) => built_allt(domain, part),
        GuideForm::Tlam(part) => Ok(GuideViewForm::Tlam(GuideView::of_guide(part)?)),
        GuideForm::Xtlam(part) => Ok(GuideViewForm::Xtlam(GuideView::of_guide(part)?)),
        GuideForm::At(head, arg) => built_at(head, arg),
        GuideForm::On(head, arg) => built_on(head, arg),
        GuideForm::Iota(left, right) => built_product(Product::Iota, left, right),
        GuideForm::Eq(left, right) => eq_form(left, right),
    }
}

fn built_product(product: Product, domain: &Guide, part: &Guide) -> Result<GuideViewForm, NoMemory>
    ensures { IfOk result (λ f. guide_view_tree f ≡ product_tree product domain.now part.now) }
{
    let (domain, part) = both(GuideView::of_guide(domain), GuideView::of_guide(part))?;
    Ok(product_form(product, domain, part))
}

fn built_allt(domain: &GuideKind, part: &Guide) -> Result<GuideViewForm, NoMemory>
    ensures { IfOk result (λ f. guide_view_tree f ≡ allt domain.now part.now) }
{
    let (domain, part) = both(KindView::of_guide_kind(domain), GuideView::of_guide(part))?;
    Ok(GuideViewForm::Allt(domain, part))
}

fn built_at(head: &Guide, arg: &Pure) -> Result<GuideViewForm, NoMemory>
    ensures { IfOk result (λ f. guide_view_tree f ≡ at_ head.now arg.now) }
{
    let (head, arg) = both(GuideView::of_guide(head), PureView::of_pure(arg))?;
    Ok(GuideViewForm::At(head, arg))
}

fn built_on(head: &Guide, arg: &Guide) -> Result<GuideViewForm, NoMemory>
    ensures { IfOk result (λ f. guide_view_tree f ≡ on head.now arg.now) }
{
    let (head, arg) = both(GuideView::of_guide(head), GuideView::of_guide(arg))?;
    Ok(GuideViewForm::On(head, arg))
}

fn eq_form(left: &Pure, right: &Pure) -> Result<GuideViewForm, NoMemory>
    ensures { IfOk result (λ f. guide_view_tree f ≡ eq left.now right.now) }
{
    let (left, right) = both(PureView::of_pure(left), PureView::of_pure(right))?;
    Ok(GuideViewForm::Eq(left, right))
}

fn product_form(product: Product, domain: GuideView, part: GuideView) -> GuideViewForm
    ensures { guide_view_tree result ≡ product_tree product domain part }
{
    match product {
        Product::Pi => GuideViewForm::Pi(domain, part),
        Product::All => GuideViewForm::All(domain, part),
        Product::Iota => GuideViewForm::Iota(domain, part),
    }
}

impl KindView {
    /// The erasure of the kind, of which the node is shared.
    #[tactic(auto, using(crate::proofs::Erasures::reading))]
    pub fn of_kind(alloc: Global, kind: &Kind) -> Result<KindView, NoMemory>
        requires { HasErasure kind.now }
        ensures { IfOk result (λ t. t ≡ erased kind.now) }
    {
        kind.known();
        // Asked for its bound alone.
        let _depth = kind.depth();
        Ok(KindView {
            node: KindNode::Written(kind.clone()?, alloc),
        })
    }

    /// The erased kind itself, of which the node is shared.
    pub fn of_guide_kind(kind: &GuideKind) -> Result<KindView, NoMemory>
        ensures { IfOk result (λ t. t ≡ kind.now) }
    {
        Ok(KindView::built(kind.clone()?))
    }

    /// The erased kind itself.
    pub fn built(kind: GuideKind) -> KindView
        ensures { result ≡ kind }
    {
        kind.known();
        // Asked for its bound alone.
        let _depth = kind.depth();
        KindView {
            node: KindNode::Built(kind),
        }
    }

    /// Tells a proof the class of the tree, and how deep it is at most. It does nothing when it runs.
    pub fn known(&self)
        ensures class { IsOf guide_kinds self.now }
        ensures bounded { depth self.now ≤ 65535 }
    {
        let _ = &self.node;
    }

    /// The same tree once more, sharing its node.
    pub fn share(&self) -> Result<KindView, NoMemory>
        ensures { IfOk result (λ t. t ≡ self.now) }
    {
        match &self.node {
            KindNode::Written(kind, alloc) => Ok(KindView {
                node: KindNode::Written(kind.clone()?, *alloc),
            }),
            KindNode::Built(kind) => Ok(KindView {
                node: KindNode::Built(kind.clone()?),
            }),
        }
    }

    /// The head of the tree, with its parts.
    pub fn form(&self) -> Result<KindViewForm, NoMemory>
        ensures { IfOk result (λ f. kind_view_tree f ≡ self.now) }
    {
        match &self.node {
            KindNode::Written(kind, alloc) => written_kind_form(*alloc, kind),
            KindNode::Built(kind) => built_kind_form(kind),
        }
    }

    /// The erased kind as one tree, of its own nodes.
    pub fn whole(&self) -> Result<GuideKind, NoMemory>
        ensures { IfOk result (λ t. t ≡ self.now) }
    {
        match &self.node {
            KindNode::Written(kind, alloc) => kind.erase(*alloc),
            KindNode::Built(kind) => Ok(kind.clone()?),
        }
    }
}

/// The head of the kind's erasure, with its parts.
fn written_kind_form(alloc: Global, kind: &Kind) -> Result<KindViewForm, NoMemory>
    requires { HasErasure kind.now }
    ensures { IfOk result (λ f. kind_view_tree f ≡ erased kind.now) }
{
    match kind.form() {
        KindForm::Star => Ok(KindViewForm::Star),
        KindForm::Kpi(domain, part) => {
            let (domain, part) = both(GuideView::of_type(domain), KindView::of_kind(alloc, part))?;
            Ok(KindViewForm::Kpi(domain, part))
        }
        KindForm::Kpit(domain, part) => {
            let (domain, part) = both(
                KindView::of_kind(alloc, domain),
                KindView::of_kind(alloc, part),
            )?;
            Ok(KindViewForm::Kpit(domain, part))
        }
    }
}

/// The head of the erased kind, with its parts.
fn built_kind_form(kind: &GuideKind) -> Result<KindViewForm, NoMemory>
    ensures { IfOk result (λ f. kind_view_tree f ≡ kind.now) }
{
    match kind.form() {
        GuideKindForm::Star => Ok(KindViewForm::Star),
        GuideKindForm::Kpi(domain, part) => {
            let (domain, part) = both(GuideView::of_guide(domain), KindView::of_guide_kind(part))?;
            Ok(KindViewForm::Kpi(domain, part))
        }
        GuideKindForm::Kpit(domain, part) => {
            let (domain, part) = both(
                KindView::of_guide_kind(domain),
                KindView::of_guide_kind(part),
            )?;
            Ok(KindViewForm::Kpit(domain, part))
        }
    }
}
