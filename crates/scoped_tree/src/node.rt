//! The nodes of trees whose scope is known: one type, by shape as the definitions have it.
ghost use Rattle.std.specs.Prelude.{◌≡◌, ◌≤◌, IfOk};
ghost use Rattle.scoped_tree.specs.Trees.{chain, form_tree, levels};
ghost use Rattle.scoped_tree.specs.declared.node.ScopedForm.TheVariants.{Use, Leaf, One, Two, Bind, Cases};

use crate::forms::{Argument, BindForm, CaseForm, LeafForm, OneForm, Reference, TwoForm};
use cdle_model::NoMemory;
use cdle_names::Span;
use std::alloc::{AllocError, Global};
use std::marker::Model;
use std::rc::Rc;

/// The most levels that a tree may have: dropping one goes down by one call for each.
const MOST_LEVELS: u32 = 16_384;

/// A tree. A clone shares the node.
#[cycle(scoped)]
#[derive(Drop)]
pub struct Scoped {
    node: Rc<ScopedNode>,
}

#[cycle(scoped)]
#[derive(Drop)]
struct ScopedNode {
    span: Span,
    levels: u32,
    form: ScopedForm,
}

/// The shapes of a tree, each with its parts.
#[cycle(scoped)]
#[derive(Drop)]
pub enum ScopedForm {
    /// A name.
    Use(Reference),
    /// A form without parts.
    Leaf(LeafForm),
    /// A form of one part.
    One(OneForm, Scoped),
    /// A form of two parts.
    Two(TwoForm, Scoped, Scoped),
    /// A form of two parts of which the second stands under the binder.
    Bind(BindForm, Scoped, Scoped),
    /// What is taken apart, the motive or what is left out for it, and the branches.
    Cases(CaseForm, Scoped, Scoped, Vec<ScopedBranch>),
}

/// A branch, with the place of its constructor's name.
#[cycle(scoped)]
#[derive(Drop)]
pub struct ScopedBranch {
    pub ctor: Reference,
    pub span: Span,
    pub args: Vec<Argument>,
    pub part: Scoped,
}

impl Model for Scoped {
    ghost use Rattle.scope_model.specs.Scoped.{Scoped as Tree};
    ghost use Rattle.scoped_tree.specs.Code.{coded_tree};

    ghost Value = { Tree };

    ghost coded = { coded_tree };

    ghost use Rattle.scoped_tree.specs.Trees.{IsNode, form_tree, levels, place};

    ghost view = { λ a. form_tree (place a.node.value.span) a.node.value.form };

    ghost invariant = { λ a. IsNode a.node.value.levels (form_tree (place a.node.value.span) a.node.value.form) };

    ghost size = { levels };

    ghost use Rattle.scoped_tree.specs.Branches.{falls};
    ghost use Rattle.std.proofs.Common.{arith};

    ghost size_decreases = { λ a h. Prim.grind (arith, falls) };
}

#[tactic(auto, using(crate::proofs::Levels::none_yet))]
fn levels_of_branches(branches: &Vec<ScopedBranch>) -> u32
    ensures is { result ≡ levels (chain branches.now.items) }
    ensures bounded { result ≤ 16384 }
{
    let mut most = 1;
    let mut rest = branches.as_slice();
    'branches: while let Some((first, others)) = rest.split_first() {
        most = first.part.levels().max(most);
        rest = others;
    }
    most
}

impl Scoped {
    ghost use Rattle.source_model.specs.Heights.{span_of};
    ghost use Rattle.scoped_tree.specs.Trees.{place};

    /// The shape, with its parts.
    pub fn form(&self) -> &ScopedForm
        ensures is { form_tree (span_of self.now) result.now ≡ self.now }
        ensures bounded { levels self.now ≤ 16384 }
    {
        &self.node.form
    }

    /// The place. Parentheses around it are left out, and a part that is left out has none.
    pub fn span(&self) -> Span
        ensures { place result ≡ span_of self.now }
    {
        self.node.span
    }

    /// The number of levels.
    pub fn levels(&self) -> u32
        ensures is { result ≡ levels self.now }
        ensures bounded { result ≤ 16384 }
    {
        self.node.levels
    }

    fn make(alloc: Global, span: Span, levels: u32, form: ScopedForm) -> Result<Scoped, NoMemory>
        requires { levels ≡ Rattle.scoped_tree.specs.Trees.levels (form_tree (place span) form) }
        ensures { IfOk result (λ t. t ≡ form_tree (place span) form) }
    {
        if levels > MOST_LEVELS {
            drop(form);
            return Err(NoMemory);
        }
        let node = Rc::new(alloc, ScopedNode { span, levels, form })?;
        Ok(Scoped { node })
    }

    /// A name.
    pub fn name(alloc: Global, span: Span, reference: Reference) -> Result<Scoped, NoMemory>
        ensures { IfOk result (λ t. t ≡ form_tree (place span) (Use reference)) }
    {
        Scoped::make(alloc, span, 1, ScopedForm::Use(reference))
    }

    /// A form without parts.
    pub fn leaf(alloc: Global, span: Span, form: LeafForm) -> Result<Scoped, NoMemory>
        ensures { IfOk result (λ t. t ≡ form_tree (place span) (Leaf form)) }
    {
        Scoped::make(alloc, span, 1, ScopedForm::Leaf(form))
    }

    /// A form of one part.
    pub fn one(alloc: Global, span: Span, form: OneForm, part: Scoped) -> Result<Scoped, NoMemory>
        ensures { IfOk result (λ t. t ≡ form_tree (place span) (One form part)) }
    {
        let levels = part.levels() + 1;
        Scoped::make(alloc, span, levels, ScopedForm::One(form, part))
    }

    /// A form of two parts.
    pub fn two(
        alloc: Global,
        span: Span,
        form: TwoForm,
        left: Scoped,
        right: Scoped,
    ) -> Result<Scoped, NoMemory>
        ensures { IfOk result (λ t. t ≡ form_tree (place span) (Two form left right)) }
    {
        let levels = left.levels().max(right.levels()) + 1;
        Scoped::make(alloc, span, levels, ScopedForm::Two(form, left, right))
    }

    /// A form of two parts of which the second stands under its binder.
    pub fn bind(
        alloc: Global,
        span: Span,
        form: BindForm,
        domain: Scoped,
        part: Scoped,
    ) -> Result<Scoped, NoMemory>
        ensures { IfOk result (λ t. t ≡ form_tree (place span) (Bind form domain part)) }
    {
        let levels = domain.levels().max(part.levels()) + 1;
        Scoped::make(alloc, span, levels, ScopedForm::Bind(form, domain, part))
    }

    /// `μ` or `σ` of a part, with a motive and branches.
    pub fn cases(
        alloc: Global,
        span: Span,
        form: CaseForm,
        part: Scoped,
        motive: Scoped,
        branches: Vec<ScopedBranch>,
    ) -> Result<Scoped, NoMemory>
        ensures { IfOk result (λ t. t ≡ form_tree (place span) (Cases form part motive branches)) }
    {
        let levels = part
            .levels()
            .max(motive.levels())
            .max(levels_of_branches(&branches))
            + 1;
        Scoped::make(
            alloc,
            span,
            levels,
            ScopedForm::Cases(form, part, motive, branches),
        )
    }
}

impl Clone for Scoped {
    ghost use Rattle.std.specs.Prelude.{◌≡◌};

    ghost is_clone = { λ t copy. copy ≡ t };

    fn clone(&self) -> Result<Scoped, AllocError> {
        let node = self.node.clone()?;
        Ok(Scoped { node })
    }
}
