//! Pure terms, which are also the erasures of terms: their nodes, with a constructor for each form.
ghost use Rattle.std.specs.Prelude.{◌≡◌, ◌<◌, ◌≤◌, IfOk};
ghost use Rattle.cdle_model.specs.Trees.{var, name};
ghost use Rattle.cdle_model.specs.Forms.{ap, fn};
ghost use Rattle.cdle_model.specs.Depth.{depth, free_bound};
ghost use Rattle.cdle_model.specs.Classes.{pure_terms, IsOf};
ghost use Rattle.core_tree.specs.Forms.{pure_tree};
ghost use Rattle.core_tree.specs.Nodes.{IsOpenNode};

use crate::sharing::{MOST_NODES, count_open, share_both};
use cdle_model::NoMemory;
use std::alloc::{AllocError, Global};
use std::marker::Model;
use std::rc::Rc;

/// The deepest pure term that is given.
const DEEPEST: u32 = 65_535;

/// A pure term. A clone shares the node.
#[cycle(pure)]
#[derive(Drop)]
pub struct Pure {
    node: Rc<PureNode>,
}

#[cycle(pure)]
#[derive(Drop)]
struct PureNode {
    depth: u32,
    free: u64,
    nodes: u64,
    form: PureForm,
}

/// The forms of a pure term, with their parts in the order in which Core text writes them.
#[cycle(pure)]
#[derive(Drop)]
pub enum PureForm {
    Var(u32),
    Name(u32),
    Function(Pure),
    Ap(Pure, Pure),
}

impl Model for Pure {
    ghost use Rattle.cdle_model.specs.Trees.{Tree};
    ghost use Rattle.cdle_model.specs.Depth.{depth};
    ghost use Rattle.cdle_model.specs.Code.{coded_tree};
    ghost use Rattle.cdle_model.specs.Classes.{pure_terms};

    ghost Value = { Tree };

    ghost coded = { coded_tree };

    ghost use Rattle.core_tree.specs.Forms.{pure_tree};
    ghost use Rattle.core_tree.specs.Nodes.{IsOpenNode};

    ghost view = { λ a. pure_tree a.node.value.form };

    ghost invariant = { λ a. IsOpenNode pure_terms 65535 a.node.value.depth a.node.value.free (pure_tree a.node.value.form) };

    ghost size = { depth };

    ghost use Rattle.std.proofs.Common.{arith};

    ghost size_decreases = { λ a h. Prim.grind arith };
}

impl Pure {
    /// The variable with `index` binders between it and its own.
    pub fn var(alloc: Global, index: u32) -> Result<Pure, NoMemory>
        ensures { IfOk result (λ t. t ≡ var index) }
    {
        Pure::of(alloc, PureForm::Var(index))
    }

    /// The item of that number.
    pub fn name(alloc: Global, item: u32) -> Result<Pure, NoMemory>
        ensures { IfOk result (λ t. t ≡ name item) }
    {
        Pure::of(alloc, PureForm::Name(item))
    }

    /// `(fn x part)`.
    pub fn function(alloc: Global, part: &Pure) -> Result<Pure, NoMemory>
        requires { depth part.now < 65535 }
        ensures { IfOk result (λ t. t ≡ fn part.now) }
    {
        Pure::of(alloc, PureForm::Function(part.share()?))
    }

    /// `(ap head arg)`.
    pub fn ap(alloc: Global, head: &Pure, arg: &Pure) -> Result<Pure, NoMemory>
        requires head_depth { depth head.now < 65535 }
        requires arg_depth { depth arg.now < 65535 }
        ensures { IfOk result (λ t. t ≡ ap head.now arg.now) }
    {
        let (head, arg) = share_both(head, arg)?;
        Pure::of(alloc, PureForm::Ap(head, arg))
    }

    /// The form, with its parts.
    pub fn form(&self) -> &PureForm
        ensures is { pure_tree result.now ≡ self.now }
        ensures bounded { depth self.now ≤ 65535 }
    {
        &self.node.form
    }

    /// 0 at a leaf, and at any other form one more than its deepest part.
    pub fn depth(&self) -> u32
        ensures is { result ≡ depth self.now }
        ensures bounded { result ≤ 65535 }
    {
        self.node.depth
    }

    /// Tells a proof the class of the tree. It does nothing when it runs.
    pub fn known(&self)
        ensures { IsOf pure_terms self.now }
    {
        let _ = &self.node;
    }

    /// The depth, and for a proof the class of the tree.
    pub(crate) fn level(&self) -> u32
        ensures is { result ≡ depth self.now }
        ensures bounded { result ≤ 65535 }
        ensures class { IsOf pure_terms self.now }
    {
        self.node.depth
    }

    /// One more than the largest free variable, and 0 of a closed tree.
    pub fn free(&self) -> u64
        ensures { result ≡ free_bound self.now }
    {
        self.node.free
    }

    /// How many nodes of the tree have a free variable, or the counter's last value.
    pub(crate) fn nodes(&self) -> u64 {
        self.node.nodes
    }

    /// Whether a change of the free variables may build more nodes than a memory holds. No clause speaks of it: it is for a caller that
    /// answers want of memory at once.
    pub fn is_too_large(&self) -> bool {
        self.node.nodes > MOST_NODES
    }

    /// The same node once more.
    pub(crate) fn share(&self) -> Result<Pure, NoMemory>
        ensures same { IfOk result (λ t. t ≡ self.now) }
        ensures class { IsOf pure_terms self.now }
    {
        let node = self.node.clone()?;
        Ok(Pure { node })
    }

    /// The node of that form.
    pub(crate) fn of(alloc: Global, form: PureForm) -> Result<Pure, NoMemory>
        ensures { IfOk result (λ t. t ≡ pure_tree form) }
    {
        let depth = form.depth();
        if depth > DEEPEST {
            drop(form);
            return Err(NoMemory);
        }
        let free = form.free();
        let nodes = count_open(free, form.nodes());
        let node = Rc::new(
            alloc,
            PureNode {
                depth,
                free,
                nodes,
                form,
            },
        )?;
        Ok(Pure { node })
    }
}

impl PureForm {
    /// The depth of its node, and for a proof the class of the tree.
    fn depth(&self) -> u32
        ensures is { result ≡ depth (pure_tree self.now) }
        ensures class { IsOf pure_terms (pure_tree self.now) }
    {
        match self {
            PureForm::Var(_) | PureForm::Name(_) => 0,
            PureForm::Function(part) => part.level() + 1,
            PureForm::Ap(head, arg) => head.level().max(arg.level()) + 1,
        }
    }

    /// One more than the largest free variable, and 0 of a closed tree.
    fn free(&self) -> u64
        ensures { result ≡ free_bound (pure_tree self.now) }
    {
        match self {
            PureForm::Var(index) => *index as u64 + 1,
            PureForm::Name(_) => 0,
            PureForm::Function(part) => part.free().saturating_sub(1),
            PureForm::Ap(head, arg) => head.free().max(arg.free()),
        }
    }

    /// How many nodes of the parts have a free variable, or the counter's last value.
    fn nodes(&self) -> u64 {
        match self {
            PureForm::Var(_) | PureForm::Name(_) => 0,
            PureForm::Function(part) => part.nodes(),
            PureForm::Ap(head, arg) => head.nodes().saturating_add(arg.nodes()),
        }
    }
}

impl Clone for Pure {
    ghost use Rattle.std.specs.Prelude.{◌≡◌};

    ghost is_clone = { λ t copy. copy ≡ t };

    fn clone(&self) -> Result<Pure, AllocError> {
        match self.share() {
            Ok(copy) => Ok(copy),
            Err(NoMemory) => Err(AllocError),
        }
    }
}
