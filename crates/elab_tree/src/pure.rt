//! Pure terms, which are also the erasures of terms: their nodes, with a constructor for each form.
ghost use Rattle.std.specs.Prelude.{◌≡◌, ◌≤◌, IfOk};
ghost use Rattle.cdle_model.specs.Trees.{var, name};
ghost use Rattle.cdle_model.specs.Forms.{ap, fn};
ghost use Rattle.cdle_model.specs.Depth.{depth};
ghost use Rattle.cdle_model.specs.Classes.{pure_terms, IsOf};
ghost use Rattle.elab_tree.specs.Forms.{pure_tree};
ghost use Rattle.elab_tree.specs.Sizes.{IsSize, IsNode, filled, has_unknown};

use crate::sharing::share_both;
use crate::size::{DEEPEST, Size};
use cdle_model::NoMemory;
use std::alloc::{AllocError, Global};
use std::marker::Model;
use std::rc::Rc;

/// A pure term. A clone shares the node.
#[cycle(pure)]
#[derive(Drop)]
pub struct EPure {
    node: Rc<PureNode>,
}

#[cycle(pure)]
#[derive(Drop)]
struct PureNode {
    size: Size,
    form: EPureForm,
}

/// The forms of a pure term, with their parts in the order in which Core text writes them.
#[cycle(pure)]
#[derive(Drop)]
pub enum EPureForm {
    Var(u32),
    Name(u32),
    Function(EPure),
    Ap(EPure, EPure),
}

impl Model for EPure {
    ghost use Rattle.cdle_model.specs.Trees.{Tree};
    ghost use Rattle.cdle_model.specs.Depth.{depth};
    ghost use Rattle.cdle_model.specs.Code.{coded_tree};
    ghost use Rattle.cdle_model.specs.Classes.{pure_terms};

    ghost Value = { Tree };

    ghost coded = { coded_tree };

    ghost use Rattle.elab_tree.specs.Forms.{pure_tree};
    ghost use Rattle.elab_tree.specs.Sizes.{IsNode};

    ghost view = { λ a. pure_tree a.node.value.form };

    ghost invariant = { λ a. IsNode pure_terms a.node.value.size (pure_tree a.node.value.form) };

    ghost size = { depth };

    ghost use Rattle.elab_tree.specs.PureFalls.{pure_falls};

    ghost size_decreases = { λ a h. pure_falls a.node.value.form };
}

impl EPure {
    /// The variable with `index` binders between it and its own.
    pub fn var(alloc: Global, index: u32) -> Result<EPure, NoMemory>
        ensures { IfOk result (λ t. t ≡ var index) }
    {
        EPure::of(alloc, EPureForm::Var(index))
    }

    /// The item of that number.
    pub fn name(alloc: Global, item: u32) -> Result<EPure, NoMemory>
        ensures { IfOk result (λ t. t ≡ name item) }
    {
        EPure::of(alloc, EPureForm::Name(item))
    }

    /// `(fn x part)`.
    pub fn function(alloc: Global, part: &EPure) -> Result<EPure, NoMemory>
        ensures { IfOk result (λ t. t ≡ fn part.now) }
    {
        EPure::of(alloc, EPureForm::Function(part.share()?))
    }

    /// `(ap head arg)`.
    pub fn ap(alloc: Global, head: &EPure, arg: &EPure) -> Result<EPure, NoMemory>
        ensures { IfOk result (λ t. t ≡ ap head.now arg.now) }
    {
        let (head, arg) = share_both(head, arg)?;
        EPure::of(alloc, EPureForm::Ap(head, arg))
    }
}

impl EPure {
    /// The form, with its parts.
    pub fn form(&self) -> &EPureForm
        ensures is { pure_tree result.now ≡ self.now }
        ensures bounded { depth self.now ≤ 16384 }
    {
        &self.node.form
    }

    /// 0 at a leaf, and at any other form one more than its deepest part.
    pub fn depth(&self) -> u32
        ensures is { result ≡ depth self.now }
        ensures bounded { result ≤ 16384 }
    {
        self.node.size.depth
    }

    /// Whether an unknown is in the tree.
    pub fn has_unknown(&self) -> bool
        ensures is { result ≡ has_unknown self.now }
    {
        self.node.size.unknown
    }

    /// Tells a proof the class of the tree once each unknown is replaced. It does nothing when it runs.
    pub fn known(&self)
        ensures { IsOf pure_terms (filled self.now) }
    {
        let _ = &self.node;
    }

    /// What the node keeps of the tree. It tells a proof the class of the tree, too.
    pub(crate) fn size(&self) -> Size
        ensures is { IsSize result self.now }
        ensures bounded { depth self.now ≤ 16384 }
        ensures class { IsOf pure_terms (filled self.now) }
    {
        self.node.size
    }

    /// The same node once more.
    pub(crate) fn share(&self) -> Result<EPure, NoMemory>
        ensures { IfOk result (λ t. t ≡ self.now) }
    {
        let node = self.node.clone()?;
        Ok(EPure { node })
    }

    /// The node of that form.
    pub(crate) fn of(alloc: Global, form: EPureForm) -> Result<EPure, NoMemory>
        ensures { IfOk result (λ t. t ≡ pure_tree form) }
    {
        let size = form.size();
        // The drop of a deeper tree would leave the stack. Elaboration builds none: it refuses trees deeper than 4,096.
        if size.depth > DEEPEST {
            drop(form);
            return Err(NoMemory);
        }
        let node = Rc::new(alloc, PureNode { size, form })?;
        Ok(EPure { node })
    }
}

impl EPureForm {
    /// The size of the tree, and for a proof its class.
    fn size(&self) -> Size
        ensures is { IsSize result (pure_tree self.now) }
        ensures class { IsOf pure_terms (filled (pure_tree self.now)) }
    {
        match self {
            EPureForm::Var(index) => Size::leaf(*index as u64 + 1, false),
            EPureForm::Name(_) => Size::leaf(0, false),
            EPureForm::Function(part) => part.size().under().over(),
            EPureForm::Ap(head, arg) => head.size().beside(arg.size()).over(),
        }
    }
}

impl Clone for EPure {
    ghost use Rattle.std.specs.Prelude.{◌≡◌};

    ghost is_clone = { λ t copy. copy ≡ t };

    fn clone(&self) -> Result<EPure, AllocError> {
        Ok(EPure {
            node: self.node.clone()?,
        })
    }
}
