//! Bringing an erased tree to its head form.
ghost use Rattle.std.specs.Prelude.{◌≡◌, ◌≤◌, ◌++◌, ◌∷◌, [], IfOk, List, Ok, ℕ};
ghost use Rattle.cdle_model.specs.Depth.{depth};
ghost use Rattle.cdle_model.specs.Forms.{fn, guide_tlam, guide_xtlam};
ghost use Rattle.cdle_model.specs.Trees.{Tree, name};
ghost use Rattle.elab_convert.specs.Bodies.{body_tree, erased_bodies};
ghost use Rattle.elab_convert.specs.Heads.{IsHead, IsMove};
ghost use Rattle.elab_convert.specs.Sides.{erased_tree, side_tree};
ghost use Rattle.elab_convert.specs.declared.head.HeadMove.TheVariants.{Former};
ghost use Rattle.elab_convert.specs.declared.side.Arg.{Arg as Argument};
ghost use Rattle.elab_convert.specs.declared.side.Arg.TheVariants.{OfPure, OfTerm, OfType};

use crate::side::{Arg, Erased, HeadForm, Root, Side};
use crate::stop::{ConvertStop, Units};
use elab_tree::{EGuide, EGuideForm, EGuideKind, EPure, EPureForm, Env, ErasedBody, NoMemory};
use std::alloc::Global;

/// What one move gives: what is now at the head, or what the head form has there.
#[derive(Drop)]
pub(crate) enum HeadMove {
    To(Erased),
    Function(EPure),
    Root(Root),
    Former,
}

/// The head form of the side over the items.
pub(crate) fn head(
    alloc: Global,
    env: &Env,
    side: Side,
    left: &mut Units,
) -> Result<HeadForm, ConvertStop>
    ensures { IsHead (erased_bodies env.now) left.old.left (side_tree side) left.new.left result }
{
    let Side {
        head: mut now,
        mut args,
    } = side;
    'moves: loop {
        match step(alloc, env, &now, &mut args, left) {
            Ok(HeadMove::To(next)) => now = next,
            Ok(HeadMove::Function(body)) => return Ok(HeadForm::Function(body)),
            Ok(HeadMove::Root(root)) => return Ok(HeadForm::Applied(root, args)),
            Ok(HeadMove::Former) => return Ok(HeadForm::Former(Side { head: now, args })),
            Err(stop) => return Err(stop),
        }
    }
}

/// One move at the head: an argument is put on the list, a contraction or an unfolding is made, or there is nothing to do.
fn step(
    alloc: Global,
    env: &Env,
    now: &Erased,
    args: &mut Vec<Arg>,
    left: &mut Units,
) -> Result<HeadMove, ConvertStop>
    ensures { IsMove (erased_bodies env.now) (erased_tree now.now) args.old.items left.old.left args.new.items left.new.left result }
{
    match now {
        Erased::Term(term) => term_step(alloc, env, term, args, left),
        Erased::OfType(ty) => type_step(alloc, env, ty, args, left),
        Erased::Kind(kind) => kind_step(kind),
    }
}

fn term_step(
    alloc: Global,
    env: &Env,
    now: &EPure,
    args: &mut Vec<Arg>,
    left: &mut Units,
) -> Result<HeadMove, ConvertStop>
    ensures { IsMove (erased_bodies env.now) now.now args.old.items left.old.left args.new.items left.new.left result }
{
    match now.form() {
        EPureForm::Var(index) => Ok(HeadMove::Root(Root::Variable(*index))),
        EPureForm::Name(item) => unfold(env, *item, left),
        EPureForm::Function(body) => match args.pop() {
            Some(Arg::OfPure(arg)) => contract(alloc, body, &arg, left),
            // Not reached: a pure term is applied to pure terms alone.
            Some(_) => Err(ConvertStop::NoMemory),
            None => Ok(HeadMove::Function(body.clone()?)),
        },
        EPureForm::Ap(head, arg) => {
            args.push(Arg::OfPure(arg.clone()?))?;
            Ok(HeadMove::To(Erased::Term(head.clone()?)))
        }
    }
}

fn type_step(
    alloc: Global,
    env: &Env,
    now: &EGuide,
    args: &mut Vec<Arg>,
    left: &mut Units,
) -> Result<HeadMove, ConvertStop>
    ensures { IsMove (erased_bodies env.now) now.now args.old.items left.old.left args.new.items left.new.left result }
{
    match now.form() {
        EGuideForm::Var(index) => Ok(HeadMove::Root(Root::Variable(*index))),
        EGuideForm::Name(item) => unfold(env, *item, left),
        EGuideForm::Tlam(body) => function_of_terms(alloc, body, args, left),
        EGuideForm::Xtlam(body) => function_of_types(alloc, body, args, left),
        EGuideForm::At(head, arg) => {
            args.push(Arg::OfTerm(arg.clone()?))?;
            Ok(HeadMove::To(Erased::OfType(head.clone()?)))
        }
        EGuideForm::On(head, arg) => {
            args.push(Arg::OfType(arg.clone()?))?;
            Ok(HeadMove::To(Erased::OfType(head.clone()?)))
        }
        _ => Ok(HeadMove::Former),
    }
}

/// One move at a type's function over terms, which is stuck where its argument is a type.
fn function_of_terms(
    alloc: Global,
    body: &EGuide,
    args: &mut Vec<Arg>,
    left: &mut Units,
) -> Result<HeadMove, ConvertStop>
    ensures { (s : List Tree) → IsMove s (guide_tlam body.now) args.old.items left.old.left args.new.items left.new.left result }
{
    match args.pop() {
        Some(Arg::OfTerm(arg)) => contract_at(alloc, body, &arg, left),
        Some(Arg::OfPure(arg)) => put_back(args, Arg::OfPure(arg)),
        Some(Arg::OfType(arg)) => put_back(args, Arg::OfType(arg)),
        None => Ok(HeadMove::Former),
    }
}

/// One move at a type's function over types, which is stuck where its argument is a term.
fn function_of_types(
    alloc: Global,
    body: &EGuide,
    args: &mut Vec<Arg>,
    left: &mut Units,
) -> Result<HeadMove, ConvertStop>
    ensures { (s : List Tree) → IsMove s (guide_xtlam body.now) args.old.items left.old.left args.new.items left.new.left result }
{
    match args.pop() {
        Some(Arg::OfType(arg)) => contract_on(alloc, body, &arg, left),
        Some(Arg::OfPure(arg)) => put_back(args, Arg::OfPure(arg)),
        Some(Arg::OfTerm(arg)) => put_back(args, Arg::OfTerm(arg)),
        None => Ok(HeadMove::Former),
    }
}

/// Leaves the function stuck, with the argument as it was.
fn put_back(args: &mut Vec<Arg>, arg: Arg) -> Result<HeadMove, ConvertStop>
    ensures { (s : List Tree) (h : Tree) (n : ℕ) → IsMove s h (args.old.items ++ arg ∷ []) n (args.old.items ++ arg ∷ []) n (Ok Former) → IsMove s h (args.old.items ++ arg ∷ []) n args.new.items n result }
{
    args.push(arg)?;
    Ok(HeadMove::Former)
}

/// A kind has nothing to do at its head.
fn kind_step(kind: &EGuideKind) -> Result<HeadMove, ConvertStop>
    ensures { (s : List Tree) (xs : List Argument) (n : ℕ) → IsMove s kind.now xs n xs n result }
{
    kind.known();
    Ok(HeadMove::Former)
}

/// The erased body of the item for its name, with one unit.
fn unfold(env: &Env, item: u32, left: &mut Units) -> Result<HeadMove, ConvertStop>
    ensures { (xs : List Argument) → IsMove (erased_bodies env.now) (name item) xs left.old.left xs left.new.left result }
{
    if item >= env.len() {
        return Ok(HeadMove::Root(Root::Constant(item)));
    }
    if !left.take() {
        return Err(ConvertStop::Spent);
    }
    Ok(HeadMove::To(body_once_more(env.erased_body(item))?))
}

/// The same tree once more, with what a proof has to know of its depth.
fn body_once_more(body: &ErasedBody) -> Result<Erased, NoMemory>
    ensures is { IfOk result (λ t. erased_tree t ≡ body_tree body.now) }
    ensures bounded { IfOk result (λ t. depth (erased_tree t) ≤ 32768) }
{
    match body {
        ErasedBody::OfTerm(term) => {
            term.depth();
            Ok(Erased::Term(term.clone()?))
        }
        ErasedBody::OfType(ty) => {
            ty.depth();
            Ok(Erased::OfType(ty.clone()?))
        }
    }
}

/// The body of a pure function with the argument put for its variable, with one unit.
fn contract(
    alloc: Global,
    body: &EPure,
    arg: &EPure,
    left: &mut Units,
) -> Result<HeadMove, ConvertStop>
    ensures { (s : List Tree) (xs : List Argument) → IsMove s (fn body.now) (xs ++ OfPure arg.now ∷ []) left.old.left xs left.new.left result }
{
    if !left.take() {
        return Err(ConvertStop::Spent);
    }
    match body.put_pure(alloc, 0, arg) {
        Ok(term) => Ok(HeadMove::To(Erased::Term(term))),
        Err(stop) => Err(ConvertStop::from(stop)),
    }
}

/// The same of a type's function over terms.
fn contract_at(
    alloc: Global,
    body: &EGuide,
    arg: &EPure,
    left: &mut Units,
) -> Result<HeadMove, ConvertStop>
    ensures { (s : List Tree) (xs : List Argument) → IsMove s (guide_tlam body.now) (xs ++ OfTerm arg.now ∷ []) left.old.left xs left.new.left result }
{
    if !left.take() {
        return Err(ConvertStop::Spent);
    }
    match body.put_pure(alloc, 0, arg) {
        Ok(ty) => Ok(HeadMove::To(Erased::OfType(ty))),
        Err(stop) => Err(ConvertStop::from(stop)),
    }
}

/// The same of a type's function over types.
fn contract_on(
    alloc: Global,
    body: &EGuide,
    arg: &EGuide,
    left: &mut Units,
) -> Result<HeadMove, ConvertStop>
    ensures { (s : List Tree) (xs : List Argument) → IsMove s (guide_xtlam body.now) (xs ++ OfType arg.now ∷ []) left.old.left xs left.new.left result }
{
    if !left.take() {
        return Err(ConvertStop::Spent);
    }
    match body.put_guide(alloc, 0, arg) {
        Ok(ty) => Ok(HeadMove::To(Erased::OfType(ty))),
        Err(stop) => Err(ConvertStop::from(stop)),
    }
}
