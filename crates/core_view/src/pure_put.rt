//! Putting a part for a variable of a pure term that is read. Each node that is read is read once, and the new node is made at once.
//! In each call `from` binders that are kept stand between the node and the places that were passed, and `under` over the whole node.
ghost use Rattle.std.specs.Prelude.{◌≡◌, ◌+◌, ◌<◌, ◌≤◌, IfOk};
ghost use Rattle.cdle_model.specs.Classes.{UsedAs, pure_terms};
ghost use Rattle.cdle_model.specs.Depth.{depth};
ghost use Rattle.cdle_model.specs.Erasure.{erased};
ghost use Rattle.cdle_model.specs.Forms.{ap, fn};
ghost use Rattle.cdle_model.specs.Trees.{IsBelow, Tree, put, shift, var};
ghost use Rattle.core_tree.specs.Nodes.{PutGives};
ghost use Rattle.core_tree.specs.Parts.{part_sort, part_tree};
ghost use Rattle.core_view.specs.Passed.{renumbered};

use crate::erasure::{Erased, view};
use crate::passed::Passed;
use crate::whole::{again, identity};
use cdle_model::NoMemory;
use core_tree::{Part, Pure, PureForm, PutStop, Term};
use std::alloc::Global;

/// The term's erasure with the part in the place of the variable `under`, and the variables above it lowered.
pub(crate) fn put_written(
    alloc: Global,
    term: &Term,
    passed: &Passed,
    from: u32,
    under: u32,
    part: &Part<'_>,
) -> Result<Pure, PutStop>
    requires used { UsedAs (part_sort part.now) under pure_terms (renumbered from passed.now (erased term.now)) }
    requires below { IsBelow 4290000000 (part_tree part.now) }
    requires fits { under + depth term.now ≤ 4096 }
    requires outside { from ≤ under }
    ensures { PutGives (put under (shift 0 under (part_tree part.now)) (renumbered from passed.now (erased term.now))) result }
{
    match view(term) {
        Erased::Var(index) => put_variable(alloc, index, passed, from, under, part),
        Erased::Name(item) => shallow(Pure::name(alloc, item)),
        Erased::Lam(inner) => {
            let inner = put_written(alloc, inner, passed, from + 1, under + 1, part)?;
            function_of(alloc, inner)
        }
        Erased::App(head, arg) => {
            let head = put_written(alloc, head, passed, from, under, part)?;
            let arg = put_written(alloc, arg, passed, from, under, part)?;
            ap_of(alloc, head, arg)
        }
        Erased::Pass(inner) => put_written(alloc, inner, passed, from, under, part),
        Erased::Under(inner) => {
            let outside = passed.erased(alloc, from)?;
            let tree = put_written(alloc, inner, &outside, 0, under, part);
            // A call drops it in one step of the proof, where the end of the block would in one for each of its forms.
            drop(outside);
            tree
        }
        Erased::Pure(kept) => put_built(alloc, kept, passed, from, under, part),
        Erased::Identity => shallow(identity(alloc)),
    }
}

/// The pure term with the part in the place of the variable `under`, and the variables above it lowered.
pub(crate) fn put_built(
    alloc: Global,
    term: &Pure,
    passed: &Passed,
    from: u32,
    under: u32,
    part: &Part<'_>,
) -> Result<Pure, PutStop>
    requires used { UsedAs (part_sort part.now) under pure_terms (renumbered from passed.now term.now) }
    requires below { IsBelow 4290000000 (part_tree part.now) }
    requires fits { under + depth term.now ≤ 4096 }
    requires outside { from ≤ under }
    ensures { PutGives (put under (shift 0 under (part_tree part.now)) (renumbered from passed.now term.now)) result }
{
    if term.free() <= under as u64 && passed.spares(from, term) {
        return shallow(again(term));
    }
    match term.form() {
        PureForm::Var(index) => put_variable(alloc, *index, passed, from, under, part),
        PureForm::Name(item) => shallow(Pure::name(alloc, *item)),
        PureForm::Function(inner) => {
            let inner = put_built(alloc, inner, passed, from + 1, under + 1, part)?;
            function_of(alloc, inner)
        }
        PureForm::Ap(head, arg) => {
            let head = put_built(alloc, head, passed, from, under, part)?;
            let arg = put_built(alloc, arg, passed, from, under, part)?;
            ap_of(alloc, head, arg)
        }
    }
}

/// The variable, or the part in its place where its number is `under`, and lowered where it is above.
fn put_variable(
    alloc: Global,
    index: u32,
    passed: &Passed,
    from: u32,
    under: u32,
    part: &Part<'_>,
) -> Result<Pure, PutStop>
    requires used { UsedAs (part_sort part.now) under pure_terms (renumbered from passed.now (var index)) }
    requires below { IsBelow 4290000000 (part_tree part.now) }
    requires fits { under ≤ 4096 }
    ensures { PutGives (put under (shift 0 under (part_tree part.now)) (renumbered from passed.now (var index))) result }
{
    let number = passed.number(from, index)?;
    put_number(alloc, number, under, part)
}

/// The same of a variable of that number, without places.
#[tactic(auto, using(crate::proofs::Puts::putting))]
pub(crate) fn put_number(
    alloc: Global,
    number: u32,
    under: u32,
    part: &Part<'_>,
) -> Result<Pure, PutStop>
    requires used { UsedAs (part_sort part.now) under pure_terms (var number) }
    requires below { IsBelow 4290000000 (part_tree part.now) }
    requires fits { under ≤ 4096 }
    ensures { PutGives (put under (shift 0 under (part_tree part.now)) (var number)) result }
{
    if number < under {
        return shallow(Pure::var(alloc, number));
    }
    if number > under {
        return shallow(Pure::var(alloc, number - 1));
    }
    match part {
        Part::Pure(part) => {
            if part.depth() > 4096 {
                return Err(PutStop::TooDeep);
            }
            part.known();
            Ok(part.shift(alloc, 0, under)?)
        }
        Part::Guide(_) => unreachable!(),
    }
}

/// The function of that part, where it is not too deep.
fn function_of(alloc: Global, part: Pure) -> Result<Pure, PutStop>
    requires { depth part < 65535 }
    ensures { PutGives (fn part) result }
{
    shallow(Pure::function(alloc, &part))
}

/// The application of those parts, where it is not too deep.
fn ap_of(alloc: Global, head: Pure, arg: Pure) -> Result<Pure, PutStop>
    requires head_depth { depth head < 65535 }
    requires arg_depth { depth arg < 65535 }
    ensures { PutGives (ap head arg) result }
{
    shallow(Pure::ap(alloc, &head, &arg))
}

/// The pure term that was made, where it is not too deep.
fn shallow(made: Result<Pure, NoMemory>) -> Result<Pure, PutStop>
    ensures { (t : Tree) → IfOk made (λ m. m ≡ t) → PutGives t result }
{
    let tree = made?;
    if tree.depth() > 4096 {
        return Err(PutStop::TooDeep);
    }
    Ok(tree)
}
