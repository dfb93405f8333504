//! Sides: erased trees as heads with arguments.
ghost use Rattle.std.specs.Prelude.{◌≡◌, IfOk};
ghost use Rattle.cdle_model.specs.Erasure.{HasErasure, erased};
ghost use Rattle.cdle_model.specs.Trees.{shift};
ghost use Rattle.core_reduce.specs.Sides.{ArePure, arg_class, arg_tree, name_of, sided, spine};
ghost use Rattle.core_tree.specs.Faults.{IsKept};
ghost use Rattle.core_reduce.specs.declared.side.SideClass.TheVariants.{OfPure, OfType, OfKind};

use crate::root::{Applied, Arg, Root};
use crate::spine::{flat_spine, guide_spine, is_applied, kind_tree, pure_spine};
use cdle_model::NoMemory;
use core_tree::{Guide, GuideKind, Kept, Kind, Pure, Term, Ty};
use core_view::{GuideView, KindView, PureView};
use std::alloc::Global;
use std::marker::Model;
use std::rc::Rc;

/// What a side stands for: a pure term, an erased type or an erased kind.
#[derive(Clone, Copy, Debug, PartialEq, Eq)]
pub enum SideClass {
    OfPure,
    OfType,
    OfKind,
}

/// An erased tree as its head with the arguments to which that is applied. A copy shares both. Contracts see the class and the tree.
#[derive(Drop)]
pub struct Side {
    pub(crate) node: Rc<Applied>,
    // Of the node's arguments, those from this place on are the side's.
    pub(crate) from: usize,
}

impl Model for Side {
    ghost use Rattle.cdle_model.specs.Classes.{IsOf};
    ghost use Rattle.std.specs.Prelude.{◌≤◌, drop, length};
    ghost use Rattle.core_reduce.specs.Sides.{Sided, class_trees, root_class, root_tree, spine};
    ghost use Rattle.core_reduce.specs.Code.{coded_side};

    ghost Value = { Sided };

    ghost coded = { coded_side };

    ghost view = { λ s. record { class = root_class s.node.value.head; tree = spine (root_tree s.node.value.head) (drop s.from s.node.value.args.items) } };

    ghost invariant = { λ s. (s.from ≤ length s.node.value.args.items) × IsOf (class_trees (root_class s.node.value.head)) (spine (root_tree s.node.value.head) (drop s.from s.node.value.args.items)) };
}

impl Side {
    /// The erasure of the term.
    pub fn of_term(alloc: Global, term: &Term) -> Result<Side, NoMemory>
        requires { HasErasure term.now }
        ensures { IfOk result (λ s. s ≡ record { class = OfPure; tree = erased term.now }) }
    {
        Side::of_root(alloc, Root::Pure(PureView::of_term(term)?))
    }

    /// The pure term itself, whose node is shared.
    pub fn of_pure(alloc: Global, term: &Pure) -> Result<Side, NoMemory>
        ensures { IfOk result (λ s. s ≡ record { class = OfPure; tree = term.now }) }
    {
        Side::of_root(alloc, Root::Pure(PureView::of_pure(term)?))
    }

    /// The erasure of the type.
    pub fn of_type(alloc: Global, ty: &Ty) -> Result<Side, NoMemory>
        requires { HasErasure ty.now }
        ensures { IfOk result (λ s. s ≡ record { class = OfType; tree = erased ty.now }) }
    {
        Side::of_root(alloc, Root::Guide(GuideView::of_type(ty)?))
    }

    /// The erased type itself, whose node is shared.
    pub fn of_guide(alloc: Global, guide: &Guide) -> Result<Side, NoMemory>
        ensures { IfOk result (λ s. s ≡ record { class = OfType; tree = guide.now }) }
    {
        Side::of_root(alloc, Root::Guide(GuideView::of_guide(guide)?))
    }

    /// The erasure of the kind.
    pub fn of_kind(alloc: Global, kind: &Kind) -> Result<Side, NoMemory>
        requires { HasErasure kind.now }
        ensures { IfOk result (λ s. s ≡ record { class = OfKind; tree = erased kind.now }) }
    {
        Side::of_root(alloc, Root::Kind(KindView::of_kind(alloc, kind)?))
    }

    /// The erased kind itself, whose node is shared.
    pub fn of_guide_kind(alloc: Global, kind: &GuideKind) -> Result<Side, NoMemory>
        ensures { IfOk result (λ s. s ≡ record { class = OfKind; tree = kind.now }) }
    {
        Side::of_root(alloc, Root::Kind(KindView::of_guide_kind(kind)?))
    }

    /// The same side again, sharing its nodes.
    pub fn copy(&self) -> Result<Side, NoMemory>
        ensures { IfOk result (λ s. s ≡ self.now) }
    {
        Ok(Side {
            node: self.node.clone()?,
            from: self.from,
        })
    }

    /// The argument as a side.
    pub(crate) fn of_arg(alloc: Global, arg: &Arg) -> Result<Side, NoMemory>
        ensures { IfOk result (λ s. s ≡ record { class = arg_class arg.now; tree = arg_tree arg.now }) }
    {
        match arg {
            Arg::Ap(term) => Side::of_root(alloc, Root::Pure(term.share()?)),
            Arg::At(term) => Side::of_root(alloc, Root::Pure(term.share()?)),
            Arg::On(guide) => Side::of_root(alloc, Root::Guide(guide.share()?)),
        }
    }

    /// The tree that is read, without arguments.
    pub(crate) fn of_root(alloc: Global, head: Root) -> Result<Side, NoMemory>
        ensures { IfOk result (λ s. s ≡ sided head) }
    {
        head.known();
        let args = Vec::new(alloc);
        Ok(Side {
            node: Rc::new(alloc, Applied { head, args })?,
            from: 0,
        })
    }

    /// A pure term applied to pure terms, of which the outermost is the first.
    pub(crate) fn applied(alloc: Global, head: PureView, args: Vec<Arg>) -> Result<Side, NoMemory>
        requires { ArePure args.items }
        ensures { IfOk result (λ s. s ≡ record { class = OfPure; tree = spine head args.items }) }
    {
        head.known();
        let head = Root::Pure(head);
        Ok(Side {
            node: Rc::new(alloc, Applied { head, args })?,
            from: 0,
        })
    }

    /// The pure term over one more variable, whose number is 0: as it is read, or as one tree where it has arguments.
    pub(crate) fn raised(&self, alloc: Global) -> Result<PureView, NoMemory>
        requires { self.now.class ≡ OfPure }
        ensures { IfOk result (λ t. t ≡ shift 0 1 self.now.tree) }
    {
        if is_applied(&self.node.args, self.from) {
            return PureView::built(self.flat_pure(alloc)?).raised(alloc);
        }
        self.node.head.pure().raised(alloc)
    }

    /// The pure term as one tree, of any depth that a tree can have.
    pub fn flat_pure(&self, alloc: Global) -> Result<Pure, NoMemory>
        requires { self.now.class ≡ OfPure }
        ensures { IfOk result (λ t. t ≡ self.now.tree) }
    {
        flat_spine(alloc, self.node.head.pure(), &self.node.args, self.from)
    }

    /// The item's number, where the side is a name.
    pub fn name(&self) -> Option<u32>
        ensures { result ≡ name_of self.now.tree }
    {
        if is_applied(&self.node.args, self.from) {
            return None;
        }
        self.node.head.name()
    }

    /// What the side stands for, which stays the same through all of its steps.
    pub fn class(&self) -> SideClass
        ensures { result ≡ self.now.class }
    {
        match &self.node.head {
            Root::Pure(_) => SideClass::OfPure,
            Root::Guide(_) => SideClass::OfType,
            Root::Kind(_) => SideClass::OfKind,
        }
    }

    /// The pure term as one tree.
    pub fn tree_pure(&self, alloc: Global) -> Result<Kept<Pure>, NoMemory>
        requires { self.now.class ≡ OfPure }
        ensures { IfOk result (λ k. IsKept self.now.tree k) }
    {
        pure_spine(alloc, self.node.head.pure(), &self.node.args, self.from)
    }

    /// The erased type as one tree.
    pub fn tree_guide(&self, alloc: Global) -> Result<Kept<Guide>, NoMemory>
        requires { self.now.class ≡ OfType }
        ensures { IfOk result (λ k. IsKept self.now.tree k) }
    {
        guide_spine(alloc, self.node.head.guide(), &self.node.args, self.from)
    }

    /// The erased kind as one tree.
    pub fn tree_kind(&self) -> Result<Kept<GuideKind>, NoMemory>
        requires { self.now.class ≡ OfKind }
        ensures { IfOk result (λ k. IsKept self.now.tree k) }
    {
        kind_tree(self.node.head.kind(), &self.node.args, self.from)
    }
}
