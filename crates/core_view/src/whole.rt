//! Pure terms that are read, as trees of their own nodes. Each node that is read is read once, and the new node is made at once.
//! In each call `from` binders that are kept stand between the node and the places that were passed.
ghost use Rattle.std.specs.Prelude.{◌≡◌, ◌+◌, ◌<◌, ◌≤◌, IfOk};
ghost use Rattle.cdle_model.specs.Classes.{IsOf, pure_terms};
ghost use Rattle.cdle_model.specs.Depth.{depth};
ghost use Rattle.cdle_model.specs.Erasure.{erased};
ghost use Rattle.cdle_model.specs.Forms.{ap, fn};
ghost use Rattle.cdle_model.specs.Trees.{var};
ghost use Rattle.core_view.specs.Passed.{renumbered};

use crate::erasure::{Erased, view};
use crate::passed::Passed;
use cdle_model::NoMemory;
use core_tree::{Pure, PureForm, Term};
use std::alloc::{AllocError, Global};

/// The term's erasure, where these places were passed.
pub(crate) fn whole_written(
    alloc: Global,
    term: &Term,
    passed: &Passed,
    from: u32,
) -> Result<Pure, NoMemory>
    requires class { IsOf pure_terms (renumbered from passed.now (erased term.now)) }
    requires room { from + depth term.now ≤ 65535 }
    ensures { IfOk result (λ t. t ≡ renumbered from passed.now (erased term.now)) }
{
    match view(term) {
        Erased::Var(index) => whole_variable(alloc, index, passed, from),
        Erased::Name(item) => Pure::name(alloc, item),
        Erased::Lam(part) => {
            let part = whole_written(alloc, part, passed, from + 1)?;
            function_of(alloc, part)
        }
        Erased::App(head, arg) => {
            let head = whole_written(alloc, head, passed, from)?;
            let arg = whole_written(alloc, arg, passed, from)?;
            ap_of(alloc, head, arg)
        }
        Erased::Pass(part) => whole_written(alloc, part, passed, from),
        Erased::Under(part) => {
            let outside = passed.erased(alloc, from)?;
            let tree = whole_written(alloc, part, &outside, 0);
            // A call drops it in one step of the proof, where the end of the block would in one for each of its forms.
            drop(outside);
            tree
        }
        Erased::Pure(kept) => whole_built(alloc, kept, passed, from),
        Erased::Identity => identity(alloc),
    }
}

/// The pure term, where these places were passed.
#[tactic(auto, using(crate::proofs::Numbers::spared))]
pub(crate) fn whole_built(
    alloc: Global,
    term: &Pure,
    passed: &Passed,
    from: u32,
) -> Result<Pure, NoMemory>
    requires class { IsOf pure_terms (renumbered from passed.now term.now) }
    requires room { from + depth term.now ≤ 65535 }
    ensures { IfOk result (λ t. t ≡ renumbered from passed.now term.now) }
{
    if passed.spares(from, term) {
        return again(term);
    }
    match term.form() {
        PureForm::Var(index) => whole_variable(alloc, *index, passed, from),
        PureForm::Name(item) => Pure::name(alloc, *item),
        PureForm::Function(part) => {
            let part = whole_built(alloc, part, passed, from + 1)?;
            function_of(alloc, part)
        }
        PureForm::Ap(head, arg) => {
            let head = whole_built(alloc, head, passed, from)?;
            let arg = whole_built(alloc, arg, passed, from)?;
            ap_of(alloc, head, arg)
        }
    }
}

/// The same of a variable.
fn whole_variable(alloc: Global, index: u32, passed: &Passed, from: u32) -> Result<Pure, NoMemory>
    requires { IsOf pure_terms (renumbered from passed.now (var index)) }
    ensures { IfOk result (λ t. t ≡ renumbered from passed.now (var index)) }
{
    let number = passed.number(from, index)?;
    Pure::var(alloc, number)
}

fn function_of(alloc: Global, part: Pure) -> Result<Pure, NoMemory>
    requires { depth part < 65535 }
    ensures { IfOk result (λ t. t ≡ fn part) }
{
    Pure::function(alloc, &part)
}

fn ap_of(alloc: Global, head: Pure, arg: Pure) -> Result<Pure, NoMemory>
    requires head_depth { depth head < 65535 }
    requires arg_depth { depth arg < 65535 }
    ensures { IfOk result (λ t. t ≡ ap head arg) }
{
    Pure::ap(alloc, &head, &arg)
}

/// `λx.x`.
pub(crate) fn identity(alloc: Global) -> Result<Pure, NoMemory>
    ensures { IfOk result (λ t. t ≡ fn (var 0)) }
{
    let variable = Pure::var(alloc, 0)?;
    Pure::function(alloc, &variable)
}

/// The same node once more.
pub(crate) fn again(term: &Pure) -> Result<Pure, NoMemory>
    ensures { IfOk result (λ t. t ≡ term.now) }
{
    Ok(term.clone()?)
}
