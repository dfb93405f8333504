//! The pairs in place of two head forms.
ghost use Rattle.std.specs.Prelude.{◌≡◌, ◌<◌, ◌++◌, ◌∷◌, [], IfOk, ◌↔◌, IsTrue, drop, length};
ghost use Rattle.cdle_model.specs.Comparison.{applied as applied_tree};
ghost use Rattle.cdle_model.specs.Forms.{fn};
ghost use Rattle.cdle_model.specs.Trees.{shift, var};
ghost use Rattle.elab_convert.specs.Answers.{ArePut, ArePartsPut, IsSettled, raised_all};
ghost use Rattle.elab_convert.specs.Formers.{IsFormer, part_tree};
ghost use Rattle.elab_convert.specs.Sides.{IsForm, erased_tree, form_tree, root_tree, side_tree, spine, stack};
ghost use Rattle.elab_convert.specs.declared.side.Arg.TheVariants.{OfPure};

use crate::former::{Former, Parts, Word, as_former};
use crate::side::{Arg, ArgClass, Erased, HeadForm, Part, Root, Side, SidePair};
use elab_tree::{EPure, NoMemory};
use std::alloc::Global;

/// Puts the pairs in place of two head forms on the list; false where the two differ.
pub(crate) fn settle(
    alloc: Global,
    left: &HeadForm,
    right: &HeadForm,
    pairs: &mut Vec<SidePair>,
) -> Result<bool, NoMemory>
    requires left { IsForm left.now }
    requires right { IsForm right.now }
    ensures { IfOk result (λ b. IsSettled (form_tree left.now) (form_tree right.now) pairs.old.items pairs.new.items b) }
{
    match (left, right) {
        (HeadForm::Function(left), HeadForm::Function(right)) => {
            settle_functions(alloc, left, right, pairs)
        }
        (HeadForm::Function(left), HeadForm::Applied(root, args)) => {
            settle_left_function(alloc, left, *root, args, pairs)
        }
        (HeadForm::Applied(root, args), HeadForm::Function(right)) => {
            settle_right_function(alloc, *root, args, right, pairs)
        }
        (HeadForm::Applied(left, xs), HeadForm::Applied(right, ys)) => {
            settle_roots(alloc, *left, xs, *right, ys, pairs)
        }
        (HeadForm::Former(left), HeadForm::Former(right)) => settle_formers(
            alloc, left, right, pairs,
        ),
        (HeadForm::Applied(_, _), HeadForm::Former(_)) => Ok(false),
        (HeadForm::Former(_), HeadForm::Applied(_, _)) => Ok(false),
        // Not reached: the two sides of a pair are of one class, and no pure term is a former.
        (HeadForm::Function(_), HeadForm::Former(_)) => Err(NoMemory),
        (HeadForm::Former(_), HeadForm::Function(_)) => Err(NoMemory),
    }
}

/// Two functions: their bodies.
fn settle_functions(
    alloc: Global,
    left: &EPure,
    right: &EPure,
    pairs: &mut Vec<SidePair>,
) -> Result<bool, NoMemory>
    ensures { IfOk result (λ b. IsSettled (fn left.now) (fn right.now) pairs.old.items pairs.new.items b) }
{
    put_parts(alloc, Part::Term(left), Part::Term(right), pairs)?;
    Ok(true)
}

/// A function against another form: its body against that form applied to a new variable.
fn settle_left_function(
    alloc: Global,
    left: &EPure,
    root: Root,
    args: &Vec<Arg>,
    pairs: &mut Vec<SidePair>,
) -> Result<bool, NoMemory>
    ensures { IfOk result (λ b. IsSettled (fn left.now) (spine (root_tree root) args.now.items) pairs.old.items pairs.new.items b) }
{
    let right = applied(alloc, root, args)?;
    put_pair(Part::Term(left).whole(alloc)?, right, pairs)?;
    Ok(true)
}

/// The same with the function on the right.
fn settle_right_function(
    alloc: Global,
    root: Root,
    args: &Vec<Arg>,
    right: &EPure,
    pairs: &mut Vec<SidePair>,
) -> Result<bool, NoMemory>
    ensures { IfOk result (λ b. IsSettled (spine (root_tree root) args.now.items) (fn right.now) pairs.old.items pairs.new.items b) }
{
    let left = applied(alloc, root, args)?;
    put_pair(left, Part::Term(right).whole(alloc)?, pairs)?;
    Ok(true)
}

/// Two roots: their arguments, where the roots are one.
fn settle_roots(
    alloc: Global,
    left: Root,
    xs: &Vec<Arg>,
    right: Root,
    ys: &Vec<Arg>,
    pairs: &mut Vec<SidePair>,
) -> Result<bool, NoMemory>
    ensures { IfOk result (λ b. IsSettled (spine (root_tree left) xs.now.items) (spine (root_tree right) ys.now.items) pairs.old.items pairs.new.items b) }
{
    if !same_root(left, right) {
        return Ok(false);
    }
    put_arguments(alloc, xs, ys, pairs)
}

fn same_root(left: Root, right: Root) -> bool
    ensures { IsTrue result ↔ left ≡ right }
{
    left == right
}

/// Puts the pair of two trees on the list.
pub(crate) fn put_parts(
    alloc: Global,
    left: Part<'_>,
    right: Part<'_>,
    pairs: &mut Vec<SidePair>,
) -> Result<(), NoMemory>
    ensures { IfOk result (λ _. stack [] pairs.new.items ≡ (part_tree left.entry, part_tree right.entry) ∷ stack [] pairs.old.items) }
{
    let left = left.whole(alloc)?;
    put_pair(left, right.whole(alloc)?, pairs)
}

fn put_pair(left: Side, right: Side, pairs: &mut Vec<SidePair>) -> Result<(), NoMemory>
    ensures { IfOk result (λ _. stack [] pairs.new.items ≡ (side_tree left, side_tree right) ∷ stack [] pairs.old.items) }
{
    pairs.push(SidePair { left, right })?;
    Ok(())
}

/// A root with its arguments, applied to one new variable.
fn applied(alloc: Global, root: Root, args: &Vec<Arg>) -> Result<Side, NoMemory>
    ensures { IfOk result (λ d. side_tree d ≡ applied_tree (spine (root_tree root) args.now.items)) }
{
    let head = raised_root(alloc, root)?;
    let args = raised_args(alloc, args)?;
    Ok(Side { head, args })
}

fn raised_root(alloc: Global, root: Root) -> Result<Erased, NoMemory>
    ensures { IfOk result (λ t. erased_tree t ≡ shift 0 1 (root_tree root)) }
{
    match root {
        // The one that has no number is not reached: so many binders are over no variable.
        Root::Variable(index) => match index.checked_add(1) {
            Some(index) => Ok(Erased::Term(EPure::var(alloc, index)?)),
            None => Err(NoMemory),
        },
        Root::Constant(item) => Ok(Erased::Term(EPure::name(alloc, item)?)),
    }
}

/// A new variable, and then the arguments raised by one.
fn raised_args(alloc: Global, args: &Vec<Arg>) -> Result<Vec<Arg>, NoMemory>
    ensures { IfOk result (λ xs. xs.items ≡ OfPure (var 0) ∷ raised_all args.now.items) }
{
    let mut list = Vec::new(alloc);
    list.push(Arg::OfPure(EPure::var(alloc, 0)?))?;
    let mut k = 0;
    'raised: while k < args.len() {
        list.push(args[k].raised(alloc)?)?;
        k += 1;
    }
    Ok(list)
}

/// Puts the pairs of arguments on the list, so that the innermost is the next; false where they are not as many, or not of the same
/// classes.
fn put_arguments(
    alloc: Global,
    xs: &Vec<Arg>,
    ys: &Vec<Arg>,
    pairs: &mut Vec<SidePair>,
) -> Result<bool, NoMemory>
    ensures { IfOk result (λ b. ArePut xs.now.items ys.now.items pairs.old.items pairs.new.items b) }
{
    if xs.len() != ys.len() {
        return Ok(false);
    }
    let mut k = 0;
    'put: while k < xs.len() {
        if !same_class(xs[k].class(), ys[k].class()) {
            return Ok(false);
        }
        put_parts(alloc, xs[k].part(), ys[k].part(), pairs)?;
        k += 1;
    }
    Ok(true)
}

/// The same of two formers, which are applied to nothing, or are stuck.
fn settle_formers(
    alloc: Global,
    left: &Side,
    right: &Side,
    pairs: &mut Vec<SidePair>,
) -> Result<bool, NoMemory>
    requires left { IsFormer (erased_tree left.now.head) }
    requires right { IsFormer (erased_tree right.now.head) }
    ensures { IfOk result (λ b. IsSettled (side_tree left.now) (side_tree right.now) pairs.old.items pairs.new.items b) }
{
    if left.args.len() == 0 {
        if right.args.len() == 0 {
            return settle_parts(alloc, left.head.part(), right.head.part(), pairs);
        }
        return Ok(false);
    }
    if right.args.len() == 0 {
        return Ok(false);
    }
    settle_stuck(alloc, left, right, pairs)
}

/// Two stuck applications: what is applied is the next pair, and the outermost arguments are the one behind it.
fn settle_stuck(
    alloc: Global,
    left: &Side,
    right: &Side,
    pairs: &mut Vec<SidePair>,
) -> Result<bool, NoMemory>
    requires left { IsFormer (erased_tree left.now.head) }
    requires right { IsFormer (erased_tree right.now.head) }
    requires left_applied { 0 < length left.now.args.items }
    requires right_applied { 0 < length right.now.args.items }
    ensures { IfOk result (λ b. IsSettled (side_tree left.now) (side_tree right.now) pairs.old.items pairs.new.items b) }
{
    let (x, y) = (&left.args[0], &right.args[0]);
    if !same_class(x.class(), y.class()) {
        return Ok(false);
    }
    put_parts(alloc, x.part(), y.part(), pairs)?;
    let left = inner(alloc, left)?;
    put_pair(left, inner(alloc, right)?, pairs)?;
    Ok(true)
}

/// The side without its outermost argument.
fn inner(alloc: Global, side: &Side) -> Result<Side, NoMemory>
    ensures { IfOk result (λ d. side_tree d ≡ spine (erased_tree side.now.head) (drop 1 side.now.args.items)) }
{
    let args = inner_args(alloc, &side.args)?;
    let head = side.head.once_more()?;
    Ok(Side { head, args })
}

/// The arguments without the outermost.
fn inner_args(alloc: Global, args: &Vec<Arg>) -> Result<Vec<Arg>, NoMemory>
    ensures { IfOk result (λ xs. xs.items ≡ drop 1 args.now.items) }
{
    let mut list = Vec::new(alloc);
    let mut k = 1;
    'copied: while k < args.len() {
        list.push(args[k].once_more()?)?;
        k += 1;
    }
    Ok(list)
}

fn settle_parts(
    alloc: Global,
    left: Part<'_>,
    right: Part<'_>,
    pairs: &mut Vec<SidePair>,
) -> Result<bool, NoMemory>
    requires left { IsFormer (part_tree left) }
    requires right { IsFormer (part_tree right) }
    ensures { IfOk result (λ b. IsSettled (part_tree left.entry) (part_tree right.entry) pairs.old.items pairs.new.items b) }
{
    match (as_former(left), as_former(right)) {
        (Some(left), Some(right)) => put_former(alloc, left, right, pairs),
        // Not reached: both are formers.
        _ => Err(NoMemory),
    }
}

/// Puts the pairs of the parts of two formers on the list, so that the first is the next; false where the formers are two.
fn put_former(
    alloc: Global,
    left: Former<'_>,
    right: Former<'_>,
    pairs: &mut Vec<SidePair>,
) -> Result<bool, NoMemory>
    ensures { IfOk result (λ b. ArePartsPut left.entry right.entry pairs.old.items pairs.new.items b) }
{
    if !same_word(left.word, right.word) {
        return Ok(false);
    }
    match (left.parts, right.parts) {
        (Parts::Zero, Parts::Zero) => Ok(true),
        (Parts::One(a), Parts::One(b)) => {
            put_parts(alloc, a, b, pairs)?;
            Ok(true)
        }
        (Parts::Two(a, b), Parts::Two(c, d)) => {
            put_parts(alloc, b, d, pairs)?;
            put_parts(alloc, a, c, pairs)?;
            Ok(true)
        }
        // Not reached: the formers of one word have as many parts.
        _ => Err(NoMemory),
    }
}

fn same_word(left: Word, right: Word) -> bool
    ensures { IsTrue result ↔ left ≡ right }
{
    left == right
}

fn same_class(left: ArgClass, right: ArgClass) -> bool
    ensures { IsTrue result ↔ left ≡ right }
{
    left == right
}
