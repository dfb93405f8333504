//! Terms, types and kinds as a file writes them: their nodes.
ghost use Rattle.std.specs.Prelude.{◌≡◌, ◌≤◌, IfOk};
ghost use Rattle.cdle_model.specs.Depth.{depth};
ghost use Rattle.cdle_model.specs.Classes.{terms, types, kinds, IsOf};
ghost use Rattle.core_tree.specs.Forms.{term_tree, ty_tree, kind_tree};
ghost use Rattle.core_tree.specs.Nodes.{IsNode};

use crate::guide::Guide;
use crate::pure::Pure;
use cdle_model::NoMemory;
use std::alloc::{AllocError, Global};
use std::marker::Model;
use std::rc::Rc;

/// A term. A clone shares the node.
#[cycle(term)]
#[derive(Drop)]
pub struct Term {
    node: Rc<TermNode>,
}

#[cycle(term)]
#[derive(Drop)]
struct TermNode {
    depth: u32,
    form: TermForm,
}

/// The forms of a term, with their parts in the order in which Core text writes them.
#[cycle(term)]
#[derive(Drop)]
pub enum TermForm {
    Var(u32),
    Name(u32),
    Lam(Ty, Term),
    Elam(Ty, Term),
    Xlam(Kind, Term),
    App(Term, Term),
    Eapp(Term, Term),
    Tapp(Term, Ty),
    Pair(Term, Term, Ty),
    Fst(Term),
    Snd(Term),
    Beta(Pure, Pure),
    Rho(Term, Guide, Ty, Term),
    Phi(Term, Term, Pure),
    Delta(Ty, Term),
}

/// A type. A clone shares the node.
#[cycle(term)]
#[derive(Drop)]
pub struct Ty {
    node: Rc<TyNode>,
}

#[cycle(term)]
#[derive(Drop)]
struct TyNode {
    depth: u32,
    form: TyForm,
}

/// The forms of a type, with their parts in the order in which Core text writes them.
#[cycle(term)]
#[derive(Drop)]
pub enum TyForm {
    Var(u32),
    Name(u32),
    Pi(Ty, Ty),
    All(Ty, Ty),
    Allt(Kind, Ty),
    Tlam(Ty, Ty),
    Xtlam(Kind, Ty),
    At(Ty, Term),
    On(Ty, Ty),
    Iota(Ty, Ty),
    Eq(Pure, Pure),
}

/// A kind. A clone shares the node.
#[cycle(term)]
#[derive(Drop)]
pub struct Kind {
    node: Rc<KindNode>,
}

#[cycle(term)]
#[derive(Drop)]
struct KindNode {
    depth: u32,
    form: KindForm,
}

/// The forms of a kind, with their parts in the order in which Core text writes them.
#[cycle(term)]
#[derive(Drop)]
pub enum KindForm {
    Star,
    Kpi(Ty, Kind),
    Kpit(Kind, Kind),
}

impl Model for Term {
    ghost use Rattle.cdle_model.specs.Trees.{Tree};
    ghost use Rattle.cdle_model.specs.Depth.{depth};
    ghost use Rattle.cdle_model.specs.Code.{coded_tree};
    ghost use Rattle.cdle_model.specs.Classes.{terms};

    ghost Value = { Tree };

    ghost coded = { coded_tree };

    ghost use Rattle.core_tree.specs.Forms.{term_tree};
    ghost use Rattle.core_tree.specs.Nodes.{IsNode};

    ghost view = { λ a. term_tree a.node.value.form };

    ghost invariant = { λ a. IsNode terms 4096 a.node.value.depth (term_tree a.node.value.form) };

    ghost size = { depth };

    ghost use Rattle.std.proofs.Common.{arith};

    ghost size_decreases = { λ a h. Prim.grind arith };
}

impl Model for Ty {
    ghost use Rattle.cdle_model.specs.Trees.{Tree};
    ghost use Rattle.cdle_model.specs.Depth.{depth};
    ghost use Rattle.cdle_model.specs.Code.{coded_tree};
    ghost use Rattle.cdle_model.specs.Classes.{types};

    ghost Value = { Tree };

    ghost coded = { coded_tree };

    ghost use Rattle.core_tree.specs.Forms.{ty_tree};
    ghost use Rattle.core_tree.specs.Nodes.{IsNode};

    ghost view = { λ a. ty_tree a.node.value.form };

    ghost invariant = { λ a. IsNode types 4096 a.node.value.depth (ty_tree a.node.value.form) };

    ghost size = { depth };

    ghost use Rattle.std.proofs.Common.{arith};

    ghost size_decreases = { λ a h. Prim.grind arith };
}

impl Model for Kind {
    ghost use Rattle.cdle_model.specs.Trees.{Tree};
    ghost use Rattle.cdle_model.specs.Depth.{depth};
    ghost use Rattle.cdle_model.specs.Code.{coded_tree};
    ghost use Rattle.cdle_model.specs.Classes.{kinds};

    ghost Value = { Tree };

    ghost coded = { coded_tree };

    ghost use Rattle.core_tree.specs.Forms.{kind_tree};
    ghost use Rattle.core_tree.specs.Nodes.{IsNode};

    ghost view = { λ a. kind_tree a.node.value.form };

    ghost invariant = { λ a. IsNode kinds 4096 a.node.value.depth (kind_tree a.node.value.form) };

    ghost size = { depth };

    ghost use Rattle.std.proofs.Common.{arith};

    ghost size_decreases = { λ a h. Prim.grind arith };
}

impl Term {
    /// The form, with its parts.
    pub fn form(&self) -> &TermForm
        ensures is { term_tree result.now ≡ self.now }
        ensures bounded { depth self.now ≤ 4096 }
    {
        &self.node.form
    }

    /// 0 at a leaf, and at any other form one more than its deepest part.
    pub fn depth(&self) -> u32
        ensures is { result ≡ depth self.now }
        ensures bounded { result ≤ 4096 }
    {
        self.node.depth
    }

    /// Tells a proof the class of the tree. It does nothing when it runs.
    pub fn known(&self)
        ensures { IsOf terms self.now }
    {
        let _ = &self.node;
    }

    /// The depth, and for a proof the class of the tree.
    fn level(&self) -> u32
        ensures is { result ≡ depth self.now }
        ensures bounded { result ≤ 4096 }
        ensures class { IsOf terms self.now }
    {
        self.node.depth
    }

    /// The same node once more.
    pub(crate) fn share(&self) -> Result<Term, NoMemory>
        ensures same { IfOk result (λ t. t ≡ self.now) }
        ensures class { IsOf terms self.now }
    {
        let node = self.node.clone()?;
        Ok(Term { node })
    }

    /// The node of that form.
    pub(crate) fn of(alloc: Global, form: TermForm) -> Result<Term, NoMemory>
        requires { depth (term_tree form) ≤ 4096 }
        ensures { IfOk result (λ t. t ≡ term_tree form) }
    {
        let depth = form.depth();
        let node = Rc::new(alloc, TermNode { depth, form })?;
        Ok(Term { node })
    }
}

impl Ty {
    /// The form, with its parts.
    pub fn form(&self) -> &TyForm
        ensures is { ty_tree result.now ≡ self.now }
        ensures bounded { depth self.now ≤ 4096 }
    {
        &self.node.form
    }

    /// 0 at a leaf, and at any other form one more than its deepest part.
    pub fn depth(&self) -> u32
        ensures is { result ≡ depth self.now }
        ensures bounded { result ≤ 4096 }
    {
        self.node.depth
    }

    /// Tells a proof the class of the tree. It does nothing when it runs.
    pub fn known(&self)
        ensures { IsOf types self.now }
    {
        let _ = &self.node;
    }

    /// The depth, and for a proof the class of the tree.
    fn level(&self) -> u32
        ensures is { result ≡ depth self.now }
        ensures bounded { result ≤ 4096 }
        ensures class { IsOf types self.now }
    {
        self.node.depth
    }

    /// The same node once more.
    pub(crate) fn share(&self) -> Result<Ty, NoMemory>
        ensures same { IfOk result (λ t. t ≡ self.now) }
        ensures class { IsOf types self.now }
    {
        let node = self.node.clone()?;
        Ok(Ty { node })
    }

    /// The node of that form.
    pub(crate) fn of(alloc: Global, form: TyForm) -> Result<Ty, NoMemory>
        requires { depth (ty_tree form) ≤ 4096 }
        ensures { IfOk result (λ t. t ≡ ty_tree form) }
    {
        let depth = form.depth();
        let node = Rc::new(alloc, TyNode { depth, form })?;
        Ok(Ty { node })
    }
}

impl Kind {
    /// The form, with its parts.
    pub fn form(&self) -> &KindForm
        ensures is { kind_tree result.now ≡ self.now }
        ensures bounded { depth self.now ≤ 4096 }
    {
        &self.node.form
    }

    /// 0 at a leaf, and at any other form one more than its deepest part.
    pub fn depth(&self) -> u32
        ensures is { result ≡ depth self.now }
        ensures bounded { result ≤ 4096 }
    {
        self.node.depth
    }

    /// Tells a proof the class of the tree. It does nothing when it runs.
    pub fn known(&self)
        ensures { IsOf kinds self.now }
    {
        let _ = &self.node;
    }

    /// The depth, and for a proof the class of the tree.
    fn level(&self) -> u32
        ensures is { result ≡ depth self.now }
        ensures bounded { result ≤ 4096 }
        ensures class { IsOf kinds self.now }
    {
        self.node.depth
    }

    /// The same node once more.
    pub(crate) fn share(&self) -> Result<Kind, NoMemory>
        ensures same { IfOk result (λ t. t ≡ self.now) }
        ensures class { IsOf kinds self.now }
    {
        let node = self.node.clone()?;
        Ok(Kind { node })
    }

    /// The node of that form.
    pub(crate) fn of(alloc: Global, form: KindForm) -> Result<Kind, NoMemory>
        requires { depth (kind_tree form) ≤ 4096 }
        ensures { IfOk result (λ t. t ≡ kind_tree form) }
    {
        let depth = form.depth();
        let node = Rc::new(alloc, KindNode { depth, form })?;
        Ok(Kind { node })
    }
}

impl TermForm {
    /// The depth of its node, and for a proof the class of the tree.
    fn depth(&self) -> u32
        ensures is { result ≡ depth (term_tree self.now) }
        ensures class { IsOf terms (term_tree self.now) }
    {
        match self {
            TermForm::Var(_) | TermForm::Name(_) => 0,
            TermForm::Lam(ty, part) | TermForm::Elam(ty, part) | TermForm::Delta(ty, part) => {
                ty.level().max(part.level()) + 1
            }
            TermForm::Xlam(kind, part) => kind.level().max(part.level()) + 1,
            TermForm::App(head, arg) | TermForm::Eapp(head, arg) => {
                head.level().max(arg.level()) + 1
            }
            TermForm::Tapp(head, arg) => head.level().max(arg.level()) + 1,
            TermForm::Pair(left, right, ty) => {
                left.level().max(right.level()).max(ty.level()) + 1
            }
            TermForm::Fst(part) | TermForm::Snd(part) => part.level() + 1,
            TermForm::Beta(side, kept) => side.level().max(kept.level()) + 1,
            TermForm::Rho(proof, guide, ty, part) => proof
                .level()
                .max(guide.level())
                .max(ty.level())
                .max(part.level())
                + 1,
            TermForm::Phi(proof, part, kept) => proof.level().max(part.level()).max(kept.level())
                + 1,
        }
    }
}

impl TyForm {
    /// The depth of its node, and for a proof the class of the tree.
    fn depth(&self) -> u32
        ensures is { result ≡ depth (ty_tree self.now) }
        ensures class { IsOf types (ty_tree self.now) }
    {
        match self {
            TyForm::Var(_) | TyForm::Name(_) => 0,
            TyForm::Pi(left, right)
            | TyForm::All(left, right)
            | TyForm::Tlam(left, right)
            | TyForm::On(left, right)
            | TyForm::Iota(left, right) => left.level().max(right.level()) + 1,
            TyForm::Allt(domain, part) | TyForm::Xtlam(domain, part) => {
                domain.level().max(part.level()) + 1
            }
            TyForm::At(head, arg) => head.level().max(arg.level()) + 1,
            TyForm::Eq(left, right) => left.level().max(right.level()) + 1,
        }
    }
}

impl KindForm {
    /// The depth of its node, and for a proof the class of the tree.
    fn depth(&self) -> u32
        ensures is { result ≡ depth (kind_tree self.now) }
        ensures class { IsOf kinds (kind_tree self.now) }
    {
        match self {
            KindForm::Star => 0,
            KindForm::Kpi(domain, part) => domain.level().max(part.level()) + 1,
            KindForm::Kpit(domain, part) => domain.level().max(part.level()) + 1,
        }
    }
}

impl Clone for Term {
    ghost use Rattle.std.specs.Prelude.{◌≡◌};

    ghost is_clone = { λ t copy. copy ≡ t };

    fn clone(&self) -> Result<Term, AllocError> {
        match self.share() {
            Ok(copy) => Ok(copy),
            Err(NoMemory) => Err(AllocError),
        }
    }
}

impl Clone for Ty {
    ghost use Rattle.std.specs.Prelude.{◌≡◌};

    ghost is_clone = { λ t copy. copy ≡ t };

    fn clone(&self) -> Result<Ty, AllocError> {
        match self.share() {
            Ok(copy) => Ok(copy),
            Err(NoMemory) => Err(AllocError),
        }
    }
}

impl Clone for Kind {
    ghost use Rattle.std.specs.Prelude.{◌≡◌};

    ghost is_clone = { λ t copy. copy ≡ t };

    fn clone(&self) -> Result<Kind, AllocError> {
        match self.share() {
            Ok(copy) => Ok(copy),
            Err(NoMemory) => Err(AllocError),
        }
    }
}
