//! Guides and guide kinds, which are also the erased types and kinds: their nodes.
ghost use Rattle.std.specs.Prelude.{◌≡◌, ◌≤◌, IfOk};
ghost use Rattle.cdle_model.specs.Depth.{depth};
ghost use Rattle.cdle_model.specs.Classes.{guides, guide_kinds, IsOf};
ghost use Rattle.elab_tree.specs.Forms.{guide_tree, guide_kind_tree};
ghost use Rattle.elab_tree.specs.Sizes.{IsSize, IsNode, filled, has_unknown};

use crate::pure::EPure;
use crate::size::{DEEPEST, Size};
use cdle_model::NoMemory;
use std::alloc::{AllocError, Global};
use std::marker::Model;
use std::rc::Rc;

/// A guide, which is also an erased type. A clone shares the node.
#[cycle(guide)]
#[derive(Drop)]
pub struct EGuide {
    node: Rc<GuideNode>,
}

#[cycle(guide)]
#[derive(Drop)]
struct GuideNode {
    size: Size,
    form: EGuideForm,
}

/// The forms of a guide, with their parts in the order in which Core text writes them.
#[cycle(guide)]
#[derive(Drop)]
pub enum EGuideForm {
    Var(u32),
    Name(u32),
    Unknown(u32),
    Pi(EGuide, EGuide),
    All(EGuide, EGuide),
    Allt(EGuideKind, EGuide),
    Tlam(EGuide),
    Xtlam(EGuide),
    At(EGuide, EPure),
    On(EGuide, EGuide),
    Iota(EGuide, EGuide),
    Eq(EPure, EPure),
}

/// A guide kind, which is also an erased kind. A clone shares the node.
#[cycle(guide)]
#[derive(Drop)]
pub struct EGuideKind {
    node: Rc<GuideKindNode>,
}

#[cycle(guide)]
#[derive(Drop)]
struct GuideKindNode {
    size: Size,
    form: EGuideKindForm,
}

/// The forms of a guide kind, with their parts in the order in which Core text writes them.
#[cycle(guide)]
#[derive(Drop)]
pub enum EGuideKindForm {
    Star,
    Kpi(EGuide, EGuideKind),
    Kpit(EGuideKind, EGuideKind),
}

impl Model for EGuide {
    ghost use Rattle.cdle_model.specs.Trees.{Tree};
    ghost use Rattle.cdle_model.specs.Depth.{depth};
    ghost use Rattle.cdle_model.specs.Code.{coded_tree};
    ghost use Rattle.cdle_model.specs.Classes.{guides};

    ghost Value = { Tree };

    ghost coded = { coded_tree };

    ghost use Rattle.elab_tree.specs.Forms.{guide_tree};
    ghost use Rattle.elab_tree.specs.Sizes.{IsNode};

    ghost view = { λ a. guide_tree a.node.value.form };

    ghost invariant = { λ a. IsNode guides a.node.value.size (guide_tree a.node.value.form) };

    ghost size = { depth };

    ghost use Rattle.elab_tree.specs.GuideFalls.{guide_falls};

    ghost size_decreases = { λ a h. guide_falls a.node.value.form };
}

impl Model for EGuideKind {
    ghost use Rattle.cdle_model.specs.Trees.{Tree};
    ghost use Rattle.cdle_model.specs.Depth.{depth};
    ghost use Rattle.cdle_model.specs.Code.{coded_tree};
    ghost use Rattle.cdle_model.specs.Classes.{guide_kinds};

    ghost Value = { Tree };

    ghost coded = { coded_tree };

    ghost use Rattle.elab_tree.specs.Forms.{guide_kind_tree};
    ghost use Rattle.elab_tree.specs.Sizes.{IsNode};

    ghost view = { λ a. guide_kind_tree a.node.value.form };

    ghost invariant = { λ a. IsNode guide_kinds a.node.value.size (guide_kind_tree a.node.value.form) };

    ghost size = { depth };

    ghost use Rattle.elab_tree.specs.GuideFalls.{guide_kind_falls};

    ghost size_decreases = { λ a h. guide_kind_falls a.node.value.form };
}

impl EGuide {
    /// The form, with its parts.
    pub fn form(&self) -> &EGuideForm
        ensures is { guide_tree result.now ≡ self.now }
        ensures bounded { depth self.now ≤ 16384 }
    {
        &self.node.form
    }

    /// 0 at a leaf, and at any other form one more than its deepest part.
    pub fn depth(&self) -> u32
        ensures is { result ≡ depth self.now }
        ensures bounded { result ≤ 16384 }
    {
        self.node.size.depth
    }

    /// Whether an unknown is in the tree.
    pub fn has_unknown(&self) -> bool
        ensures is { result ≡ has_unknown self.now }
    {
        self.node.size.unknown
    }

    /// Tells a proof the class of the tree once each unknown is replaced. It does nothing when it runs.
    pub fn known(&self)
        ensures { IsOf guides (filled self.now) }
    {
        let _ = &self.node;
    }

    /// What the node keeps of the tree. It tells a proof the class of the tree, too.
    pub(crate) fn size(&self) -> Size
        ensures is { IsSize result self.now }
        ensures bounded { depth self.now ≤ 16384 }
        ensures class { IsOf guides (filled self.now) }
    {
        self.node.size
    }

    /// The same node once more.
    pub(crate) fn share(&self) -> Result<EGuide, NoMemory>
        ensures { IfOk result (λ t. t ≡ self.now) }
    {
        let node = self.node.clone()?;
        Ok(EGuide { node })
    }

    /// The node of that form.
    pub(crate) fn of(alloc: Global, form: EGuideForm) -> Result<EGuide, NoMemory>
        ensures { IfOk result (λ t. t ≡ guide_tree form) }
    {
        let size = form.size();
        // The drop of a deeper tree would leave the stack. Elaboration builds none: it refuses trees deeper than 4,096.
        if size.depth > DEEPEST {
            drop(form);
            return Err(NoMemory);
        }
        let node = Rc::new(alloc, GuideNode { size, form })?;
        Ok(EGuide { node })
    }
}

impl EGuideKind {
    /// The form, with its parts.
    pub fn form(&self) -> &EGuideKindForm
        ensures is { guide_kind_tree result.now ≡ self.now }
        ensures bounded { depth self.now ≤ 16384 }
    {
        &self.node.form
    }

    /// 0 at a leaf, and at any other form one more than its deepest part.
    pub fn depth(&self) -> u32
        ensures is { result ≡ depth self.now }
        ensures bounded { result ≤ 16384 }
    {
        self.node.size.depth
    }

    /// Whether an unknown is in the tree.
    pub fn has_unknown(&self) -> bool
        ensures is { result ≡ has_unknown self.now }
    {
        self.node.size.unknown
    }

    /// Tells a proof the class of the tree once each unknown is replaced. It does nothing when it runs.
    pub fn known(&self)
        ensures { IsOf guide_kinds (filled self.now) }
    {
        let _ = &self.node;
    }

    /// What the node keeps of the tree. It tells a proof the class of the tree, too.
    pub(crate) fn size(&self) -> Size
        ensures is { IsSize result self.now }
        ensures bounded { depth self.now ≤ 16384 }
        ensures class { IsOf guide_kinds (filled self.now) }
    {
        self.node.size
    }

    /// The same node once more.
    pub(crate) fn share(&self) -> Result<EGuideKind, NoMemory>
        ensures { IfOk result (λ t. t ≡ self.now) }
    {
        let node = self.node.clone()?;
        Ok(EGuideKind { node })
    }

    /// The node of that form.
    pub(crate) fn of(alloc: Global, form: EGuideKindForm) -> Result<EGuideKind, NoMemory>
        ensures { IfOk result (λ t. t ≡ guide_kind_tree form) }
    {
        let size = form.size();
        // The drop of a deeper tree would leave the stack. Elaboration builds none: it refuses trees deeper than 4,096.
        if size.depth > DEEPEST {
            drop(form);
            return Err(NoMemory);
        }
        let node = Rc::new(alloc, GuideKindNode { size, form })?;
        Ok(EGuideKind { node })
    }
}

impl EGuideForm {
    /// The size of the tree, and for a proof its class.
    fn size(&self) -> Size
        ensures is { IsSize result (guide_tree self.now) }
        ensures class { IsOf guides (filled (guide_tree self.now)) }
    {
        match self {
            EGuideForm::Var(index) => Size::leaf(*index as u64 + 1, false),
            EGuideForm::Name(_) => Size::leaf(0, false),
            EGuideForm::Unknown(_) => Size::leaf(0, true),
            EGuideForm::Pi(left, right)
            | EGuideForm::All(left, right)
            | EGuideForm::Iota(left, right) => left.size().beside(right.size().under()).over(),
            EGuideForm::Allt(domain, part) => domain.size().beside(part.size().under()).over(),
            EGuideForm::Tlam(part) | EGuideForm::Xtlam(part) => part.size().under().over(),
            EGuideForm::At(head, arg) => head.size().beside(arg.size()).over(),
            EGuideForm::On(head, arg) => head.size().beside(arg.size()).over(),
            EGuideForm::Eq(left, right) => left.size().beside(right.size()).over(),
        }
    }
}

impl EGuideKindForm {
    /// The size of the tree, and for a proof its class.
    fn size(&self) -> Size
        ensures is { IsSize result (guide_kind_tree self.now) }
        ensures class { IsOf guide_kinds (filled (guide_kind_tree self.now)) }
    {
        match self {
            EGuideKindForm::Star => Size::leaf(0, false),
            EGuideKindForm::Kpi(domain, part) => domain.size().beside(part.size().under()).over(),
            EGuideKindForm::Kpit(domain, part) => domain.size().beside(part.size().under()).over(),
        }
    }
}

impl Clone for EGuide {
    ghost use Rattle.std.specs.Prelude.{◌≡◌};

    ghost is_clone = { λ t copy. copy ≡ t };

    fn clone(&self) -> Result<EGuide, AllocError> {
        Ok(EGuide {
            node: self.node.clone()?,
        })
    }
}

impl Clone for EGuideKind {
    ghost use Rattle.std.specs.Prelude.{◌≡◌};

    ghost is_clone = { λ t copy. copy ≡ t };

    fn clone(&self) -> Result<EGuideKind, AllocError> {
        Ok(EGuideKind {
            node: self.node.clone()?,
        })
    }
}
