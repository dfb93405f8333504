//! Annotated terms, types and kinds: their nodes.
ghost use Rattle.std.specs.Prelude.{◌≡◌, ◌≤◌, IfOk};
ghost use Rattle.cdle_model.specs.Depth.{depth};
ghost use Rattle.cdle_model.specs.Classes.{terms, types, kinds, IsOf};
ghost use Rattle.elab_tree.specs.Forms.{term_tree, type_tree, kind_tree};
ghost use Rattle.elab_tree.specs.Sizes.{IsSize, IsNode, filled, has_unknown};

use crate::guide::EGuide;
use crate::pure::EPure;
use crate::size::{DEEPEST, Size};
use cdle_model::NoMemory;
use std::alloc::{AllocError, Global};
use std::marker::Model;
use std::rc::Rc;

/// A term. A clone shares the node.
#[cycle(term)]
#[derive(Drop)]
pub struct ETerm {
    node: Rc<TermNode>,
}

#[cycle(term)]
#[derive(Drop)]
struct TermNode {
    size: Size,
    form: ETermForm,
}

/// The forms of a term, with their parts in the order in which Core text writes them.
#[cycle(term)]
#[derive(Drop)]
pub enum ETermForm {
    Var(u32),
    Name(u32),
    Lam(EType, ETerm),
    Elam(EType, ETerm),
    Xlam(EKind, ETerm),
    App(ETerm, ETerm),
    Eapp(ETerm, ETerm),
    Tapp(ETerm, EType),
    Pair(ETerm, ETerm, EType),
    Fst(ETerm),
    Snd(ETerm),
    Beta(EPure, EPure),
    Rho(ETerm, EGuide, EType, ETerm),
    Phi(ETerm, ETerm, EPure),
    Delta(EType, ETerm),
}

/// A type. A clone shares the node.
#[cycle(term)]
#[derive(Drop)]
pub struct EType {
    node: Rc<TypeNode>,
}

#[cycle(term)]
#[derive(Drop)]
struct TypeNode {
    size: Size,
    form: ETypeForm,
}

/// The forms of a type, with their parts in the order in which Core text writes them.
#[cycle(term)]
#[derive(Drop)]
pub enum ETypeForm {
    Var(u32),
    Name(u32),
    Unknown(u32),
    Pi(EType, EType),
    All(EType, EType),
    Allt(EKind, EType),
    Tlam(EType, EType),
    Xtlam(EKind, EType),
    At(EType, ETerm),
    On(EType, EType),
    Iota(EType, EType),
    Eq(EPure, EPure),
}

/// A kind. A clone shares the node.
#[cycle(term)]
#[derive(Drop)]
pub struct EKind {
    node: Rc<KindNode>,
}

#[cycle(term)]
#[derive(Drop)]
struct KindNode {
    size: Size,
    form: EKindForm,
}

/// The forms of a kind, with their parts in the order in which Core text writes them.
#[cycle(term)]
#[derive(Drop)]
pub enum EKindForm {
    Star,
    Kpi(EType, EKind),
    Kpit(EKind, EKind),
}

impl Model for ETerm {
    ghost use Rattle.cdle_model.specs.Trees.{Tree};
    ghost use Rattle.cdle_model.specs.Depth.{depth};
    ghost use Rattle.cdle_model.specs.Code.{coded_tree};
    ghost use Rattle.cdle_model.specs.Classes.{terms};

    ghost Value = { Tree };

    ghost coded = { coded_tree };

    ghost use Rattle.elab_tree.specs.Forms.{term_tree};
    ghost use Rattle.elab_tree.specs.Sizes.{IsNode};

    ghost view = { λ a. term_tree a.node.value.form };

    ghost invariant = { λ a. IsNode terms a.node.value.size (term_tree a.node.value.form) };

    ghost size = { depth };

    ghost use Rattle.elab_tree.specs.TermFalls.{term_falls};

    ghost size_decreases = { λ a h. term_falls a.node.value.form };
}

impl Model for EType {
    ghost use Rattle.cdle_model.specs.Trees.{Tree};
    ghost use Rattle.cdle_model.specs.Depth.{depth};
    ghost use Rattle.cdle_model.specs.Code.{coded_tree};
    ghost use Rattle.cdle_model.specs.Classes.{types};

    ghost Value = { Tree };

    ghost coded = { coded_tree };

    ghost use Rattle.elab_tree.specs.Forms.{type_tree};
    ghost use Rattle.elab_tree.specs.Sizes.{IsNode};

    ghost view = { λ a. type_tree a.node.value.form };

    ghost invariant = { λ a. IsNode types a.node.value.size (type_tree a.node.value.form) };

    ghost size = { depth };

    ghost use Rattle.elab_tree.specs.TermFalls.{type_falls};

    ghost size_decreases = { λ a h. type_falls a.node.value.form };
}

impl Model for EKind {
    ghost use Rattle.cdle_model.specs.Trees.{Tree};
    ghost use Rattle.cdle_model.specs.Depth.{depth};
    ghost use Rattle.cdle_model.specs.Code.{coded_tree};
    ghost use Rattle.cdle_model.specs.Classes.{kinds};

    ghost Value = { Tree };

    ghost coded = { coded_tree };

    ghost use Rattle.elab_tree.specs.Forms.{kind_tree};
    ghost use Rattle.elab_tree.specs.Sizes.{IsNode};

    ghost view = { λ a. kind_tree a.node.value.form };

    ghost invariant = { λ a. IsNode kinds a.node.value.size (kind_tree a.node.value.form) };

    ghost size = { depth };

    ghost use Rattle.elab_tree.specs.TermFalls.{kind_falls};

    ghost size_decreases = { λ a h. kind_falls a.node.value.form };
}

impl ETerm {
    /// The form, with its parts.
    pub fn form(&self) -> &ETermForm
        ensures is { term_tree result.now ≡ self.now }
        ensures bounded { depth self.now ≤ 16384 }
    {
        &self.node.form
    }

    /// 0 at a leaf, and at any other form one more than its deepest part.
    pub fn depth(&self) -> u32
        ensures is { result ≡ depth self.now }
        ensures bounded { result ≤ 16384 }
    {
        self.node.size.depth
    }

    /// Whether an unknown is in the tree.
    pub fn has_unknown(&self) -> bool
        ensures is { result ≡ has_unknown self.now }
    {
        self.node.size.unknown
    }

    /// Tells a proof the class of the tree once each unknown is replaced. It does nothing when it runs.
    pub fn known(&self)
        ensures { IsOf terms (filled self.now) }
    {
        let _ = &self.node;
    }

    /// What the node keeps of the tree. It tells a proof the class of the tree, too.
    pub(crate) fn size(&self) -> Size
        ensures is { IsSize result self.now }
        ensures bounded { depth self.now ≤ 16384 }
        ensures class { IsOf terms (filled self.now) }
    {
        self.node.size
    }

    /// The same node once more.
    pub(crate) fn share(&self) -> Result<ETerm, NoMemory>
        ensures { IfOk result (λ t. t ≡ self.now) }
    {
        let node = self.node.clone()?;
        Ok(ETerm { node })
    }

    /// The node of that form.
    pub(crate) fn of(alloc: Global, form: ETermForm) -> Result<ETerm, NoMemory>
        ensures { IfOk result (λ t. t ≡ term_tree form) }
    {
        let size = form.size();
        // The drop of a deeper tree would leave the stack. Elaboration builds none: it refuses trees deeper than 4,096.
        if size.depth > DEEPEST {
            drop(form);
            return Err(NoMemory);
        }
        let node = Rc::new(alloc, TermNode { size, form })?;
        Ok(ETerm { node })
    }
}

impl EType {
    /// The form, with its parts.
    pub fn form(&self) -> &ETypeForm
        ensures is { type_tree result.now ≡ self.now }
        ensures bounded { depth self.now ≤ 16384 }
    {
        &self.node.form
    }

    /// 0 at a leaf, and at any other form one more than its deepest part.
    pub fn depth(&self) -> u32
        ensures is { result ≡ depth self.now }
        ensures bounded { result ≤ 16384 }
    {
        self.node.size.depth
    }

    /// Whether an unknown is in the tree.
    pub fn has_unknown(&self) -> bool
        ensures is { result ≡ has_unknown self.now }
    {
        self.node.size.unknown
    }

    /// Tells a proof the class of the tree once each unknown is replaced. It does nothing when it runs.
    pub fn known(&self)
        ensures { IsOf types (filled self.now) }
    {
        let _ = &self.node;
    }

    /// What the node keeps of the tree. It tells a proof the class of the tree, too.
    pub(crate) fn size(&self) -> Size
        ensures is { IsSize result self.now }
        ensures bounded { depth self.now ≤ 16384 }
        ensures class { IsOf types (filled self.now) }
    {
        self.node.size
    }

    /// The same node once more.
    pub(crate) fn share(&self) -> Result<EType, NoMemory>
        ensures { IfOk result (λ t. t ≡ self.now) }
    {
        let node = self.node.clone()?;
        Ok(EType { node })
    }

    /// The node of that form.
    pub(crate) fn of(alloc: Global, form: ETypeForm) -> Result<EType, NoMemory>
        ensures { IfOk result (λ t. t ≡ type_tree form) }
    {
        let size = form.size();
        // The drop of a deeper tree would leave the stack. Elaboration builds none: it refuses trees deeper than 4,096.
        if size.depth > DEEPEST {
            drop(form);
            return Err(NoMemory);
        }
        let node = Rc::new(alloc, TypeNode { size, form })?;
        Ok(EType { node })
    }
}

impl EKind {
    /// The form, with its parts.
    pub fn form(&self) -> &EKindForm
        ensures is { kind_tree result.now ≡ self.now }
        ensures bounded { depth self.now ≤ 16384 }
    {
        &self.node.form
    }

    /// 0 at a leaf, and at any other form one more than its deepest part.
    pub fn depth(&self) -> u32
        ensures is { result ≡ depth self.now }
        ensures bounded { result ≤ 16384 }
    {
        self.node.size.depth
    }

    /// Whether an unknown is in the tree.
    pub fn has_unknown(&self) -> bool
        ensures is { result ≡ has_unknown self.now }
    {
        self.node.size.unknown
    }

    /// Tells a proof the class of the tree once each unknown is replaced. It does nothing when it runs.
    pub fn known(&self)
        ensures { IsOf kinds (filled self.now) }
    {
        let _ = &self.node;
    }

    /// What the node keeps of the tree. It tells a proof the class of the tree, too.
    pub(crate) fn size(&self) -> Size
        ensures is { IsSize result self.now }
        ensures bounded { depth self.now ≤ 16384 }
        ensures class { IsOf kinds (filled self.now) }
    {
        self.node.size
    }

    /// The same node once more.
    pub(crate) fn share(&self) -> Result<EKind, NoMemory>
        ensures { IfOk result (λ t. t ≡ self.now) }
    {
        let node = self.node.clone()?;
        Ok(EKind { node })
    }

    /// The node of that form.
    pub(crate) fn of(alloc: Global, form: EKindForm) -> Result<EKind, NoMemory>
        ensures { IfOk result (λ t. t ≡ kind_tree form) }
    {
        let size = form.size();
        // The drop of a deeper tree would leave the stack. Elaboration builds none: it refuses trees deeper than 4,096.
        if size.depth > DEEPEST {
            drop(form);
            return Err(NoMemory);
        }
        let node = Rc::new(alloc, KindNode { size, form })?;
        Ok(EKind { node })
    }
}

impl ETermForm {
    /// The size of the tree, and for a proof its class.
    fn size(&self) -> Size
        ensures is { IsSize result (term_tree self.now) }
        ensures class { IsOf terms (filled (term_tree self.now)) }
    {
        match self {
            ETermForm::Var(index) => Size::leaf(*index as u64 + 1, false),
            ETermForm::Name(_) => Size::leaf(0, false),
            ETermForm::Lam(ty, part) | ETermForm::Elam(ty, part) => ty
                .size()
                .beside(part.size().under())
                .over(),
            ETermForm::Xlam(kind, part) => kind.size().beside(part.size().under()).over(),
            ETermForm::App(head, arg) | ETermForm::Eapp(head, arg) => head
                .size()
                .beside(arg.size())
                .over(),
            ETermForm::Tapp(head, arg) => head.size().beside(arg.size()).over(),
            ETermForm::Pair(left, right, ty) => left
                .size()
                .beside(right.size())
                .beside(ty.size().under())
                .over(),
            ETermForm::Fst(part) | ETermForm::Snd(part) => part.size().over(),
            ETermForm::Beta(side, kept) => side.size().beside(kept.size()).over(),
            ETermForm::Rho(proof, guide, ty, part) => {
                let left = proof.size().beside(guide.size().under());
                let right = ty.size().beside(part.size());
                left.beside(right).over()
            }
            ETermForm::Phi(proof, part, kept) => proof
                .size()
                .beside(part.size())
                .beside(kept.size())
                .over(),
            ETermForm::Delta(ty, proof) => ty.size().beside(proof.size()).over(),
        }
    }
}

impl ETypeForm {
    /// The size of the tree, and for a proof its class.
    fn size(&self) -> Size
        ensures is { IsSize result (type_tree self.now) }
        ensures class { IsOf types (filled (type_tree self.now)) }
    {
        match self {
            ETypeForm::Var(index) => Size::leaf(*index as u64 + 1, false),
            ETypeForm::Name(_) => Size::leaf(0, false),
            ETypeForm::Unknown(_) => Size::leaf(0, true),
            ETypeForm::Pi(left, right)
            | ETypeForm::All(left, right)
            | ETypeForm::Tlam(left, right)
            | ETypeForm::Iota(left, right) => left.size().beside(right.size().under()).over(),
            ETypeForm::Allt(domain, part) | ETypeForm::Xtlam(domain, part) => domain
                .size()
                .beside(part.size().under())
                .over(),
            ETypeForm::At(head, arg) => head.size().beside(arg.size()).over(),
            ETypeForm::On(head, arg) => head.size().beside(arg.size()).over(),
            ETypeForm::Eq(left, right) => left.size().beside(right.size()).over(),
        }
    }
}

impl EKindForm {
    /// The size of the tree, and for a proof its class.
    fn size(&self) -> Size
        ensures is { IsSize result (kind_tree self.now) }
        ensures class { IsOf kinds (filled (kind_tree self.now)) }
    {
        match self {
            EKindForm::Star => Size::leaf(0, false),
            EKindForm::Kpi(domain, part) => domain.size().beside(part.size().under()).over(),
            EKindForm::Kpit(domain, part) => domain.size().beside(part.size().under()).over(),
        }
    }
}

impl Clone for ETerm {
    ghost use Rattle.std.specs.Prelude.{◌≡◌};

    ghost is_clone = { λ t copy. copy ≡ t };

    fn clone(&self) -> Result<ETerm, AllocError> {
        Ok(ETerm {
            node: self.node.clone()?,
        })
    }
}

impl Clone for EType {
    ghost use Rattle.std.specs.Prelude.{◌≡◌};

    ghost is_clone = { λ t copy. copy ≡ t };

    fn clone(&self) -> Result<EType, AllocError> {
        Ok(EType {
            node: self.node.clone()?,
        })
    }
}

impl Clone for EKind {
    ghost use Rattle.std.specs.Prelude.{◌≡◌};

    ghost is_clone = { λ t copy. copy ≡ t };

    fn clone(&self) -> Result<EKind, AllocError> {
        Ok(EKind {
            node: self.node.clone()?,
        })
    }
}
