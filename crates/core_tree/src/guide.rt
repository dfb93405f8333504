//! Guides and guide kinds, which are also the erased types and kinds: their nodes.
ghost use Rattle.std.specs.Prelude.{◌≡◌, ◌≤◌, IfOk};
ghost use Rattle.cdle_model.specs.Depth.{depth, free_bound};
ghost use Rattle.cdle_model.specs.Classes.{guides, guide_kinds, IsOf};
ghost use Rattle.core_tree.specs.Forms.{guide_tree, guide_kind_tree};
ghost use Rattle.core_tree.specs.Nodes.{IsOpenNode};
ghost use Rattle.core_tree.specs.Products.{product_tree};

use crate::product::Product;
use crate::pure::Pure;
use crate::sharing::count_open;
use crate::stack::DEEPEST;
use cdle_model::NoMemory;
use std::alloc::{AllocError, Global};
use std::marker::Model;
use std::rc::Rc;

/// A guide, which is also an erased type. A clone shares the node.
#[cycle(guide)]
#[derive(Drop)]
pub struct Guide {
    node: Rc<GuideNode>,
}

#[cycle(guide)]
#[derive(Drop)]
struct GuideNode {
    depth: u32,
    free: u64,
    nodes: u64,
    form: GuideForm,
}

/// The forms of a guide, with their parts in the order in which Core text writes them.
#[cycle(guide)]
#[derive(Drop)]
pub enum GuideForm {
    Var(u32),
    Name(u32),
    Pi(Guide, Guide),
    All(Guide, Guide),
    Allt(GuideKind, Guide),
    Tlam(Guide),
    Xtlam(Guide),
    At(Guide, Pure),
    On(Guide, Guide),
    Iota(Guide, Guide),
    Eq(Pure, Pure),
}

/// A guide kind, which is also an erased kind. A clone shares the node.
#[cycle(guide)]
#[derive(Drop)]
pub struct GuideKind {
    node: Rc<GuideKindNode>,
}

#[cycle(guide)]
#[derive(Drop)]
struct GuideKindNode {
    depth: u32,
    free: u64,
    nodes: u64,
    form: GuideKindForm,
}

/// The forms of a guide kind, with their parts in the order in which Core text writes them.
#[cycle(guide)]
#[derive(Drop)]
pub enum GuideKindForm {
    Star,
    Kpi(Guide, GuideKind),
    Kpit(GuideKind, GuideKind),
}

impl Model for Guide {
    ghost use Rattle.cdle_model.specs.Trees.{Tree};
    ghost use Rattle.cdle_model.specs.Depth.{depth};
    ghost use Rattle.cdle_model.specs.Code.{coded_tree};
    ghost use Rattle.cdle_model.specs.Classes.{guides};

    ghost Value = { Tree };

    ghost coded = { coded_tree };

    ghost use Rattle.core_tree.specs.Forms.{guide_tree};
    ghost use Rattle.core_tree.specs.Nodes.{IsOpenNode};

    ghost view = { λ a. guide_tree a.node.value.form };

    ghost invariant = { λ a. IsOpenNode guides 65535 a.node.value.depth a.node.value.free (guide_tree a.node.value.form) };

    ghost size = { depth };

    ghost use Rattle.std.proofs.Common.{arith};

    ghost size_decreases = { λ a h. Prim.grind arith };
}

impl Model for GuideKind {
    ghost use Rattle.cdle_model.specs.Trees.{Tree};
    ghost use Rattle.cdle_model.specs.Depth.{depth};
    ghost use Rattle.cdle_model.specs.Code.{coded_tree};
    ghost use Rattle.cdle_model.specs.Classes.{guide_kinds};

    ghost Value = { Tree };

    ghost coded = { coded_tree };

    ghost use Rattle.core_tree.specs.Forms.{guide_kind_tree};
    ghost use Rattle.core_tree.specs.Nodes.{IsOpenNode};

    ghost view = { λ a. guide_kind_tree a.node.value.form };

    ghost invariant = { λ a. IsOpenNode guide_kinds 65535 a.node.value.depth a.node.value.free (guide_kind_tree a.node.value.form) };

    ghost size = { depth };

    ghost use Rattle.std.proofs.Common.{arith};

    ghost size_decreases = { λ a h. Prim.grind arith };
}

impl Guide {
    /// The form, with its parts.
    pub fn form(&self) -> &GuideForm
        ensures is { guide_tree result.now ≡ self.now }
        ensures bounded { depth self.now ≤ 65535 }
    {
        &self.node.form
    }

    /// 0 at a leaf, and at any other form one more than its deepest part.
    pub fn depth(&self) -> u32
        ensures is { result ≡ depth self.now }
        ensures bounded { result ≤ 65535 }
    {
        self.node.depth
    }

    /// Tells a proof the class of the tree. It does nothing when it runs.
    pub fn known(&self)
        ensures { IsOf guides self.now }
    {
        let _ = &self.node;
    }

    /// The depth, and for a proof the class of the tree.
    pub(crate) fn level(&self) -> u32
        ensures is { result ≡ depth self.now }
        ensures bounded { result ≤ 65535 }
        ensures class { IsOf guides self.now }
    {
        self.node.depth
    }

    /// One more than the largest free variable, and 0 of a closed tree.
    pub(crate) fn free(&self) -> u64
        ensures { result ≡ free_bound self.now }
    {
        self.node.free
    }

    /// How many nodes of the tree have a free variable, or the counter's last value.
    pub(crate) fn nodes(&self) -> u64 {
        self.node.nodes
    }

    /// The same node once more.
    pub(crate) fn share(&self) -> Result<Guide, NoMemory>
        ensures same { IfOk result (λ t. t ≡ self.now) }
        ensures class { IsOf guides self.now }
    {
        let node = self.node.clone()?;
        Ok(Guide { node })
    }

    /// The node of that form.
    pub(crate) fn of(alloc: Global, form: GuideForm) -> Result<Guide, NoMemory>
        ensures { IfOk result (λ t. t ≡ guide_tree form) }
    {
        let depth = form.depth();
        if depth > DEEPEST {
            drop(form);
            return Err(NoMemory);
        }
        let free = form.free();
        let nodes = count_open(free, form.nodes());
        let node = Rc::new(
            alloc,
            GuideNode {
                depth,
                free,
                nodes,
                form,
            },
        )?;
        Ok(Guide { node })
    }

    /// The node of that product of the domain and the part.
    pub(crate) fn product(
        alloc: Global,
        product: Product,
        domain: Guide,
        part: Guide,
    ) -> Result<Guide, NoMemory>
        ensures { IfOk result (λ t. t ≡ product_tree product domain part) }
    {
        match product {
            Product::Pi => Guide::of(alloc, GuideForm::Pi(domain, part)),
            Product::All => Guide::of(alloc, GuideForm::All(domain, part)),
            Product::Iota => Guide::of(alloc, GuideForm::Iota(domain, part)),
        }
    }
}

impl GuideKind {
    /// The form, with its parts.
    pub fn form(&self) -> &GuideKindForm
        ensures is { guide_kind_tree result.now ≡ self.now }
        ensures bounded { depth self.now ≤ 65535 }
    {
        &self.node.form
    }

    /// 0 at a leaf, and at any other form one more than its deepest part.
    pub fn depth(&self) -> u32
        ensures is { result ≡ depth self.now }
        ensures bounded { result ≤ 65535 }
    {
        self.node.depth
    }

    /// Tells a proof the class of the tree. It does nothing when it runs.
    pub fn known(&self)
        ensures { IsOf guide_kinds self.now }
    {
        let _ = &self.node;
    }

    /// The depth, and for a proof the class of the tree.
    fn level(&self) -> u32
        ensures is { result ≡ depth self.now }
        ensures bounded { result ≤ 65535 }
        ensures class { IsOf guide_kinds self.now }
    {
        self.node.depth
    }

    /// One more than the largest free variable, and 0 of a closed tree.
    pub(crate) fn free(&self) -> u64
        ensures { result ≡ free_bound self.now }
    {
        self.node.free
    }

    /// How many nodes of the tree have a free variable, or the counter's last value.
    pub(crate) fn nodes(&self) -> u64 {
        self.node.nodes
    }

    /// The same node once more.
    pub(crate) fn share(&self) -> Result<GuideKind, NoMemory>
        ensures same { IfOk result (λ t. t ≡ self.now) }
        ensures class { IsOf guide_kinds self.now }
    {
        let node = self.node.clone()?;
        Ok(GuideKind { node })
    }

    /// The node of that form.
    pub(crate) fn of(alloc: Global, form: GuideKindForm) -> Result<GuideKind, NoMemory>
        ensures { IfOk result (λ t. t ≡ guide_kind_tree form) }
    {
        let depth = form.depth();
        if depth > DEEPEST {
            drop(form);
            return Err(NoMemory);
        }
        let free = form.free();
        let nodes = count_open(free, form.nodes());
        let node = Rc::new(
            alloc,
            GuideKindNode {
                depth,
                free,
                nodes,
                form,
            },
        )?;
        Ok(GuideKind { node })
    }
}

impl GuideForm {
    /// The depth of its node, and for a proof the class of the tree.
    fn depth(&self) -> u32
        ensures is { result ≡ depth (guide_tree self.now) }
        ensures class { IsOf guides (guide_tree self.now) }
    {
        match self {
            GuideForm::Var(_) | GuideForm::Name(_) => 0,
            GuideForm::Pi(left, right)
            | GuideForm::All(left, right)
            | GuideForm::On(left, right)
            | GuideForm::Iota(left, right) => left.level().max(right.level()) + 1,
            GuideForm::Allt(domain, part) => domain.level().max(part.level()) + 1,
            GuideForm::Tlam(part) | GuideForm::Xtlam(part) => part.level() + 1,
            GuideForm::At(head, arg) => head.level().max(arg.level()) + 1,
            GuideForm::Eq(left, right) => left.level().max(right.level()) + 1,
        }
    }

    /// One more than the largest free variable, and 0 of a closed tree.
    fn free(&self) -> u64
        ensures { result ≡ free_bound (guide_tree self.now) }
    {
        match self {
            GuideForm::Var(index) => *index as u64 + 1,
            GuideForm::Name(_) => 0,
            GuideForm::Pi(domain, part)
            | GuideForm::All(domain, part)
            | GuideForm::Iota(domain, part) => domain.free().max(part.free().saturating_sub(1)),
            GuideForm::Allt(domain, part) => domain.free().max(part.free().saturating_sub(1)),
            GuideForm::Tlam(part) | GuideForm::Xtlam(part) => part.free().saturating_sub(1),
            GuideForm::At(head, arg) => head.free().max(arg.free()),
            GuideForm::On(head, arg) => head.free().max(arg.free()),
            GuideForm::Eq(left, right) => left.free().max(right.free()),
        }
    }

    /// How many nodes of the parts have a free variable, or the counter's last value.
    fn nodes(&self) -> u64 {
        match self {
            GuideForm::Var(_) | GuideForm::Name(_) => 0,
            GuideForm::Pi(left, right)
            | GuideForm::All(left, right)
            | GuideForm::On(left, right)
            | GuideForm::Iota(left, right) => left.nodes().saturating_add(right.nodes()),
            GuideForm::Allt(domain, part) => domain.nodes().saturating_add(part.nodes()),
            GuideForm::Tlam(part) | GuideForm::Xtlam(part) => part.nodes(),
            GuideForm::At(head, arg) => head.nodes().saturating_add(arg.nodes()),
            GuideForm::Eq(left, right) => left.nodes().saturating_add(right.nodes()),
        }
    }
}

impl GuideKindForm {
    /// The depth of its node, and for a proof the class of the tree.
    fn depth(&self) -> u32
        ensures is { result ≡ depth (guide_kind_tree self.now) }
        ensures class { IsOf guide_kinds (guide_kind_tree self.now) }
    {
        match self {
            GuideKindForm::Star => 0,
            GuideKindForm::Kpi(domain, part) => domain.level().max(part.level()) + 1,
            GuideKindForm::Kpit(domain, part) => domain.level().max(part.level()) + 1,
        }
    }

    /// One more than the largest free variable, and 0 of a closed tree.
    fn free(&self) -> u64
        ensures { result ≡ free_bound (guide_kind_tree self.now) }
    {
        match self {
            GuideKindForm::Star => 0,
            GuideKindForm::Kpi(domain, part) => domain.free().max(part.free().saturating_sub(1)),
            GuideKindForm::Kpit(domain, part) => domain.free().max(part.free().saturating_sub(1)),
        }
    }

    /// How many nodes of the parts have a free variable, or the counter's last value.
    fn nodes(&self) -> u64 {
        match self {
            GuideKindForm::Star => 0,
            GuideKindForm::Kpi(domain, part) => domain.nodes().saturating_add(part.nodes()),
            GuideKindForm::Kpit(domain, part) => domain.nodes().saturating_add(part.nodes()),
        }
    }
}

impl Clone for Guide {
    ghost use Rattle.std.specs.Prelude.{◌≡◌};

    ghost is_clone = { λ t copy. copy ≡ t };

    fn clone(&self) -> Result<Guide, AllocError> {
        match self.share() {
            Ok(copy) => Ok(copy),
            Err(NoMemory) => Err(AllocError),
        }
    }
}

impl Clone for GuideKind {
    ghost use Rattle.std.specs.Prelude.{◌≡◌};

    ghost is_clone = { λ t copy. copy ≡ t };

    fn clone(&self) -> Result<GuideKind, AllocError> {
        match self.share() {
            Ok(copy) => Ok(copy),
            Err(NoMemory) => Err(AllocError),
        }
    }
}
