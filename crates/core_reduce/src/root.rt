//! Heads and arguments of sides.
ghost use Rattle.std.specs.Prelude.{◌≡◌, ◌≤◌, IfOk};
ghost use Rattle.cdle_model.specs.Depth.{depth};
ghost use Rattle.cdle_model.specs.Classes.{IsOf};
ghost use Rattle.core_reduce.specs.Sides.{class_trees, name_of, root_class, root_tree};
ghost use Rattle.core_reduce.specs.declared.side.SideClass.TheVariants.{OfPure, OfType, OfKind};

use cdle_model::NoMemory;
use core_view::{GuideTop, GuideView, KindView, PureTop, PureView};

/// An erased tree of any class, as it is read.
#[derive(Drop)]
pub(crate) enum Root {
    Pure(PureView),
    Guide(GuideView),
    Kind(KindView),
}

/// What something is applied to: a pure term by `ap`, a pure term by `at`, a guide by `on`.
#[derive(Drop)]
pub(crate) enum Arg {
    Ap(PureView),
    At(PureView),
    On(GuideView),
}

/// A head with the arguments to which it is applied, of which the outermost is the first.
#[derive(Drop)]
pub(crate) struct Applied {
    pub(crate) head: Root,
    pub(crate) args: Vec<Arg>,
}

impl Root {
    /// The tree of a pure term.
    pub(crate) fn pure(&self) -> &PureView
        requires { root_class self.now ≡ OfPure }
        ensures { result.now ≡ root_tree self.now }
    {
        match self {
            Root::Pure(term) => term,
            _ => unreachable!(),
        }
    }

    /// The tree of an erased type.
    pub(crate) fn guide(&self) -> &GuideView
        requires { root_class self.now ≡ OfType }
        ensures { result.now ≡ root_tree self.now }
    {
        match self {
            Root::Guide(guide) => guide,
            _ => unreachable!(),
        }
    }

    /// The tree of an erased kind.
    pub(crate) fn kind(&self) -> &KindView
        requires { root_class self.now ≡ OfKind }
        ensures { result.now ≡ root_tree self.now }
    {
        match self {
            Root::Kind(kind) => kind,
            _ => unreachable!(),
        }
    }

    /// The same tree, sharing its nodes.
    pub(crate) fn share(&self) -> Result<Root, NoMemory>
        ensures { IfOk result (λ r. r ≡ self.now) }
    {
        match self {
            Root::Pure(term) => Ok(Root::Pure(term.share()?)),
            Root::Guide(guide) => Ok(Root::Guide(guide.share()?)),
            Root::Kind(kind) => Ok(Root::Kind(kind.share()?)),
        }
    }

    /// Tells a proof the class of the tree, and how deep it is at most.
    pub(crate) fn known(&self)
        ensures class { IsOf (class_trees (root_class self.now)) (root_tree self.now) }
        ensures bounded { depth (root_tree self.now) ≤ 65535 }
    {
        match self {
            Root::Pure(term) => term.known(),
            Root::Guide(guide) => guide.known(),
            Root::Kind(kind) => kind.known(),
        }
    }

    /// The item's number, where the tree is a name.
    pub(crate) fn name(&self) -> Option<u32>
        ensures { result ≡ name_of (root_tree self.now) }
    {
        match self {
            Root::Pure(term) => match term.top() {
                PureTop::Name(item) => Some(item),
                _ => None,
            },
            Root::Guide(guide) => match guide.top() {
                GuideTop::Name(item) => Some(item),
                _ => None,
            },
            Root::Kind(kind) => {
                kind.known();
                None
            }
        }
    }
}

impl Arg {
    /// The same argument, sharing its nodes.
    pub(crate) fn share(&self) -> Result<Arg, NoMemory>
        ensures { IfOk result (λ a. a ≡ self.now) }
    {
        match self {
            Arg::Ap(arg) => Ok(Arg::Ap(arg.share()?)),
            Arg::At(arg) => Ok(Arg::At(arg.share()?)),
            Arg::On(arg) => Ok(Arg::On(arg.share()?)),
        }
    }
}
