//! The nodes of source trees.
ghost use Rattle.std.specs.Prelude.{◌≡◌, ◌≤◌, true, false, IfOk};
ghost use Rattle.source_model.specs.Heights.{levels, is_kind, is_none, span_of};
ghost use Rattle.surf_tree.specs.Forms.{term_tree, type_tree, kind_tree, place};
ghost use Rattle.surf_tree.specs.Nodes.{IsNode};

use crate::names::NameUse;
use cdle_model::{Mode, NoMemory};
use cdle_names::{NameId, Span};
use std::alloc::{AllocError, Global};
use std::marker::Model;
use std::rc::Rc;

/// The most levels that a tree may have: dropping one goes down by one call for each.
const MOST_LEVELS: u32 = 16_384;

/// A term as a text writes it. A clone shares the node.
#[cycle(source)]
#[derive(Drop)]
pub struct Src {
    node: Rc<SrcNode>,
}

#[cycle(source)]
#[derive(Drop)]
struct SrcNode {
    span: Span,
    levels: u32,
    form: SrcForm,
}

/// The forms of a term.
#[cycle(source)]
#[derive(Drop)]
pub enum SrcForm {
    Name {
        name: NameUse,
    },
    Lam {
        var: NameId,
        ty: Option<SrcType>,
        part: Src,
    },
    Elam {
        var: NameId,
        class: Option<SrcClass>,
        part: Src,
    },
    App {
        head: Src,
        arg: Src,
    },
    Eapp {
        head: Src,
        arg: Src,
    },
    Tapp {
        head: Src,
        arg: SrcType,
    },
    Pair {
        left: Src,
        right: Src,
    },
    Fst {
        part: Src,
    },
    Snd {
        part: Src,
    },
    Beta {
        side: Option<Src>,
        kept: Option<Src>,
    },
    Rho {
        proof: Src,
        var: NameId,
        guide: SrcType,
        part: Src,
    },
    Phi {
        proof: Src,
        part: Src,
        kept: Src,
    },
    Delta {
        ty: Option<SrcType>,
        proof: Src,
    },
    Chi {
        ty: SrcType,
        part: Src,
    },
    Flip {
        proof: Src,
    },
    Mu {
        var: NameId,
        part: Src,
        motive: Option<SrcType>,
        branches: Vec<SrcBranch>,
    },
    Sigma {
        part: Src,
        motive: Option<SrcType>,
        branches: Vec<SrcBranch>,
    },
}

/// A type as a text writes it. A clone shares the node.
#[cycle(source)]
#[derive(Drop)]
pub struct SrcType {
    node: Rc<SrcTypeNode>,
}

#[cycle(source)]
#[derive(Drop)]
struct SrcTypeNode {
    span: Span,
    levels: u32,
    form: SrcTypeForm,
}

/// The forms of a type.
#[cycle(source)]
#[derive(Drop)]
pub enum SrcTypeForm {
    Name {
        name: NameUse,
    },
    Pi {
        var: Option<NameId>,
        domain: SrcType,
        part: SrcType,
    },
    All {
        var: Option<NameId>,
        domain: SrcType,
        part: SrcType,
    },
    Allt {
        var: Option<NameId>,
        domain: SrcKind,
        part: SrcType,
    },
    Tlam {
        var: NameId,
        domain: SrcType,
        part: SrcType,
    },
    Xtlam {
        var: NameId,
        domain: SrcKind,
        part: SrcType,
    },
    At {
        head: SrcType,
        arg: Src,
    },
    On {
        head: SrcType,
        arg: SrcType,
    },
    Iota {
        var: NameId,
        left: SrcType,
        right: SrcType,
    },
    Eq {
        left: Src,
        right: Src,
    },
}

/// A kind as a text writes it. A clone shares the node.
#[cycle(source)]
#[derive(Drop)]
pub struct SrcKind {
    node: Rc<SrcKindNode>,
}

#[cycle(source)]
#[derive(Drop)]
struct SrcKindNode {
    span: Span,
    levels: u32,
    form: SrcKindForm,
}

/// The forms of a kind.
#[cycle(source)]
#[derive(Drop)]
pub enum SrcKindForm {
    Star,
    Kpi {
        var: Option<NameId>,
        domain: SrcType,
        part: SrcKind,
    },
    Kpit {
        var: Option<NameId>,
        domain: SrcKind,
        part: SrcKind,
    },
}

/// The class of a type variable or of a term variable: a kind or a type.
#[cycle(source)]
#[derive(Drop)]
pub enum SrcClass {
    OfKind(SrcKind),
    OfType(SrcType),
}

/// A branch, with the place of its constructor's name.
#[cycle(source)]
#[derive(Drop)]
pub struct SrcBranch {
    pub ctor: NameUse,
    pub span: Span,
    pub args: Vec<SrcPattern>,
    pub part: Src,
}

/// A name of a branch's pattern, with its place.
#[derive(Clone, Copy, Debug, PartialEq, Eq)]
pub struct SrcPattern {
    pub mode: Mode,
    pub name: NameId,
    pub span: Span,
}

impl Model for Src {
    ghost use Rattle.std.specs.Prelude.{ℕ, true, false};
    ghost use Rattle.source_model.specs.Source.{Tree};
    ghost use Rattle.source_model.specs.Heights.{levels};
    ghost use Rattle.surf_tree.specs.Code.{coded_tree};

    ghost Value = { Tree ℕ };

    ghost coded = { coded_tree };

    ghost use Rattle.surf_tree.specs.Forms.{term_tree, place};
    ghost use Rattle.surf_tree.specs.Nodes.{IsNode};

    ghost view = { λ a. term_tree (place a.node.value.span) a.node.value.form };

    ghost invariant = { λ a. IsNode false a.node.value.levels (term_tree (place a.node.value.span) a.node.value.form) };

    ghost size = { levels };

    ghost use Rattle.surf_tree.specs.Branches.{falls};
    ghost use Rattle.std.proofs.Common.{arith};

    ghost size_decreases = { λ a h. Prim.grind (arith, falls) };
}

impl Model for SrcType {
    ghost use Rattle.std.specs.Prelude.{ℕ, true, false};
    ghost use Rattle.source_model.specs.Source.{Tree};
    ghost use Rattle.source_model.specs.Heights.{levels};
    ghost use Rattle.surf_tree.specs.Code.{coded_tree};

    ghost Value = { Tree ℕ };

    ghost coded = { coded_tree };

    ghost use Rattle.surf_tree.specs.Forms.{type_tree, place};
    ghost use Rattle.surf_tree.specs.Nodes.{IsNode};

    ghost view = { λ a. type_tree (place a.node.value.span) a.node.value.form };

    ghost invariant = { λ a. IsNode false a.node.value.levels (type_tree (place a.node.value.span) a.node.value.form) };

    ghost size = { levels };

    ghost use Rattle.std.proofs.Common.{arith};

    ghost size_decreases = { λ a h. Prim.grind arith };
}

impl Model for SrcKind {
    ghost use Rattle.std.specs.Prelude.{ℕ, true, false};
    ghost use Rattle.source_model.specs.Source.{Tree};
    ghost use Rattle.source_model.specs.Heights.{levels};
    ghost use Rattle.surf_tree.specs.Code.{coded_tree};

    ghost Value = { Tree ℕ };

    ghost coded = { coded_tree };

    ghost use Rattle.surf_tree.specs.Forms.{kind_tree, place};
    ghost use Rattle.surf_tree.specs.Nodes.{IsNode};

    ghost view = { λ a. kind_tree (place a.node.value.span) a.node.value.form };

    ghost invariant = { λ a. IsNode true a.node.value.levels (kind_tree (place a.node.value.span) a.node.value.form) };

    ghost size = { levels };

    ghost use Rattle.std.proofs.Common.{arith};

    ghost size_decreases = { λ a h. Prim.grind arith };
}

impl Src {
    /// The form, with its parts.
    pub fn form(&self) -> &SrcForm
        ensures is { term_tree (span_of self.now) result.now ≡ self.now }
        ensures bounded { levels self.now ≤ 16384 }
    {
        &self.node.form
    }

    /// The place of a term. Parentheses around it are left out.
    pub fn span(&self) -> Span
        ensures { place result ≡ span_of self.now }
    {
        self.node.span
    }

    /// One more than the height.
    pub fn levels(&self) -> u32
        ensures is { result ≡ levels self.now }
        ensures bounded { result ≤ 16384 }
        ensures class { is_kind self.now ≡ false }
        ensures there { is_none self.now ≡ false }
    {
        self.node.levels
    }

    pub(crate) fn make(
        alloc: Global,
        span: Span,
        levels: u32,
        form: SrcForm,
    ) -> Result<Src, NoMemory>
        requires levels { levels ≡ Rattle.source_model.specs.Heights.levels (term_tree (place span) form) }
        requires class { is_kind (term_tree (place span) form) ≡ false }
        requires there { is_none (term_tree (place span) form) ≡ false }
        ensures { IfOk result (λ t. t ≡ term_tree (place span) form) }
    {
        if levels > MOST_LEVELS {
            drop(form);
            return Err(NoMemory);
        }
        let node = Rc::new(alloc, SrcNode { span, levels, form })?;
        Ok(Src { node })
    }
}

impl SrcType {
    /// The form, with its parts.
    pub fn form(&self) -> &SrcTypeForm
        ensures is { type_tree (span_of self.now) result.now ≡ self.now }
        ensures bounded { levels self.now ≤ 16384 }
    {
        &self.node.form
    }

    /// The place of a type. Parentheses around it are left out.
    pub fn span(&self) -> Span
        ensures { place result ≡ span_of self.now }
    {
        self.node.span
    }

    /// One more than the height.
    pub fn levels(&self) -> u32
        ensures is { result ≡ levels self.now }
        ensures bounded { result ≤ 16384 }
        ensures class { is_kind self.now ≡ false }
        ensures there { is_none self.now ≡ false }
    {
        self.node.levels
    }

    pub(crate) fn make(
        alloc: Global,
        span: Span,
        levels: u32,
        form: SrcTypeForm,
    ) -> Result<SrcType, NoMemory>
        requires levels { levels ≡ Rattle.source_model.specs.Heights.levels (type_tree (place span) form) }
        requires class { is_kind (type_tree (place span) form) ≡ false }
        requires there { is_none (type_tree (place span) form) ≡ false }
        ensures { IfOk result (λ t. t ≡ type_tree (place span) form) }
    {
        if levels > MOST_LEVELS {
            drop(form);
            return Err(NoMemory);
        }
        let node = Rc::new(alloc, SrcTypeNode { span, levels, form })?;
        Ok(SrcType { node })
    }
}

impl SrcKind {
    /// The form, with its parts.
    pub fn form(&self) -> &SrcKindForm
        ensures is { kind_tree (span_of self.now) result.now ≡ self.now }
        ensures bounded { levels self.now ≤ 16384 }
    {
        &self.node.form
    }

    /// The place of a kind. Parentheses around it are left out.
    pub fn span(&self) -> Span
        ensures { place result ≡ span_of self.now }
    {
        self.node.span
    }

    /// One more than the height.
    pub fn levels(&self) -> u32
        ensures is { result ≡ levels self.now }
        ensures bounded { result ≤ 16384 }
        ensures class { is_kind self.now ≡ true }
        ensures there { is_none self.now ≡ false }
    {
        self.node.levels
    }

    pub(crate) fn make(
        alloc: Global,
        span: Span,
        levels: u32,
        form: SrcKindForm,
    ) -> Result<SrcKind, NoMemory>
        requires levels { levels ≡ Rattle.source_model.specs.Heights.levels (kind_tree (place span) form) }
        requires class { is_kind (kind_tree (place span) form) ≡ true }
        requires there { is_none (kind_tree (place span) form) ≡ false }
        ensures { IfOk result (λ t. t ≡ kind_tree (place span) form) }
    {
        if levels > MOST_LEVELS {
            drop(form);
            return Err(NoMemory);
        }
        let node = Rc::new(alloc, SrcKindNode { span, levels, form })?;
        Ok(SrcKind { node })
    }
}

impl Clone for Src {
    ghost use Rattle.std.specs.Prelude.{◌≡◌};

    ghost is_clone = { λ t copy. copy ≡ t };

    fn clone(&self) -> Result<Src, AllocError> {
        let node = self.node.clone()?;
        Ok(Src { node })
    }
}

impl Clone for SrcType {
    ghost use Rattle.std.specs.Prelude.{◌≡◌};

    ghost is_clone = { λ t copy. copy ≡ t };

    fn clone(&self) -> Result<SrcType, AllocError> {
        let node = self.node.clone()?;
        Ok(SrcType { node })
    }
}

impl Clone for SrcKind {
    ghost use Rattle.std.specs.Prelude.{◌≡◌};

    ghost is_clone = { λ t copy. copy ≡ t };

    fn clone(&self) -> Result<SrcKind, AllocError> {
        let node = self.node.clone()?;
        Ok(SrcKind { node })
    }
}
