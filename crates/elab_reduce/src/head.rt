//! Bringing a type to its head form.
ghost use Rattle.std.specs.Prelude.{◌≡◌, ◌≤◌, ◌++◌, ◌∷◌, [], IfOk, IsFalse, IsTrue, List, Some, ℕ};
ghost use Rattle.cdle_model.specs.Depth.{depth};
ghost use Rattle.cdle_model.specs.Forms.{at_, on, tlam, xtlam};
ghost use Rattle.cdle_model.specs.Trees.{Tree, name};
ghost use Rattle.elab_model.specs.HeadWritten.{Unfolding, head_written};
ghost use Rattle.elab_model.specs.Questions.{head_in};
ghost use Rattle.elab_reduce.specs.Heads.{IsHead, IsStep, IsStill};
ghost use Rattle.elab_reduce.specs.Items.{env_of, unfolds};
ghost use Rattle.elab_reduce.specs.Spines.{arg_tree, innermost, seen_arg, spine};
ghost use Rattle.elab_tree.specs.declared.items.EArg.{EArg};
ghost use Rattle.elab_tree.specs.declared.items.EArg.TheVariants.{OfType, Term};

use crate::bodies::body;
use crate::budget::Budget;
use crate::stop::ElabStop;
use cdle_model::NoMemory;
use elab_tree::{EArg, ETerm, EType, ETypeForm, Env};
use std::alloc::Global;

/// The greatest depth of a head form.
const DEEPEST: u32 = 4096;

/// The head form of the type over the items, with so many units. With `stop_at_data` names of datatypes are not unfolded.
pub fn head_type(
    alloc: Global,
    env: &Env,
    ty: &EType,
    stop_at_data: bool,
    units: u64,
) -> Result<EType, ElabStop>
    ensures { IsHead (head_in (env_of env.now) stop_at_data units ty.now) result }
{
    let mut budget = Budget { left: units };
    let mut args = Vec::new(alloc);
    let mut head = ty.clone()?;
    'steps: while !is_still(env, stop_at_data, &head, &args) {
        head = step(alloc, env, stop_at_data, &head, &mut args, &mut budget)?;
    }
    applied(alloc, &head, &args)
}

/// Whether a head with these arguments has no step.
fn is_still(env: &Env, stop_at_data: bool, head: &EType, args: &Vec<EArg>) -> bool
    ensures still { IsTrue result → IsStill (unfolds env.now stop_at_data) head.now (innermost args.now.items) }
    ensures moves { IsFalse result → IsStill (unfolds env.now stop_at_data) head.now (innermost args.now.items) → ⊥ }
{
    let arg = last(args);
    match head.form() {
        ETypeForm::Name(item) => body(env, stop_at_data, *item).is_none(),
        ETypeForm::Tlam(_, _) => !matches!(arg, Some(EArg::Term(_))),
        ETypeForm::Xtlam(_, _) => !matches!(arg, Some(EArg::OfType(_))),
        ETypeForm::At(_, _) => false,
        ETypeForm::On(_, _) => false,
        _ => true,
    }
}

/// The innermost of the arguments.
fn last(args: &Vec<EArg>) -> Option<&EArg>
    ensures { innermost args.now.items ≡ seen_arg result }
{
    if 0 < args.len() {
        Some(&args[args.len() - 1])
    } else {
        None
    }
}

/// One move: an argument of the head is put on the list, or a contraction or an unfolding is made.
fn step(
    alloc: Global,
    env: &Env,
    stop_at_data: bool,
    head: &EType,
    args: &mut Vec<EArg>,
    budget: &mut Budget,
) -> Result<EType, ElabStop>
    requires { IsStill (unfolds env.now stop_at_data) head.now (innermost args.old.items) → ⊥ }
    ensures { IsStep (unfolds env.now stop_at_data) head.now args.old.items budget.old.left args.new.items budget.new.left result }
{
    match head.form() {
        ETypeForm::Name(item) => {
            let Some(body) = body(env, stop_at_data, *item) else {
                unreachable!()
            };
            unfold(body, budget)
        }
        ETypeForm::Tlam(_, body) => {
            let EArg::Term(arg) = pop(args) else {
                unreachable!()
            };
            contract_at(alloc, body, &arg, budget)
        }
        ETypeForm::Xtlam(_, body) => {
            let EArg::OfType(arg) = pop(args) else {
                unreachable!()
            };
            contract_on(alloc, body, &arg, budget)
        }
        ETypeForm::At(head, arg) => unwind_at(head, arg, args),
        ETypeForm::On(head, arg) => unwind_on(head, arg, args),
        _ => unreachable!(),
    }
}

/// Takes the innermost argument off the list.
fn pop(args: &mut Vec<EArg>) -> EArg
    requires { args.old.items ≡ [] → ⊥ }
    ensures { args.old.items ≡ args.new.items ++ result ∷ [] }
{
    let Some(arg) = args.pop() else {
        unreachable!()
    };
    arg
}

/// The head of an application, whose argument is put on the list.
fn unwind_at(head: &EType, arg: &ETerm, args: &mut Vec<EArg>) -> Result<EType, ElabStop>
    requires { depth (at_ head.now arg.now) ≤ 32768 }
    ensures { (u : Unfolding) (n : ℕ) → IsStep u (at_ head.now arg.now) args.old.items n args.new.items n result }
{
    args.push(EArg::Term(arg.clone()?))?;
    Ok(head.clone()?)
}

/// The same of an application to a type.
fn unwind_on(head: &EType, arg: &EType, args: &mut Vec<EArg>) -> Result<EType, ElabStop>
    requires { depth (on head.now arg.now) ≤ 32768 }
    ensures { (u : Unfolding) (n : ℕ) → IsStep u (on head.now arg.now) args.old.items n args.new.items n result }
{
    args.push(EArg::OfType(arg.clone()?))?;
    Ok(head.clone()?)
}

/// The body of the item for its name, with one unit.
fn unfold(body: &EType, budget: &mut Budget) -> Result<EType, ElabStop>
    ensures { (u : Unfolding) (n : ℕ) (xs : List EArg) → u n ≡ Some body.now → IsStep u (name n) xs budget.old.left xs budget.new.left result }
{
    budget.take()?;
    body.form();
    Ok(body.clone()?)
}

/// The body of a function with a term put for its variable, with one unit.
fn contract_at(
    alloc: Global,
    body: &EType,
    arg: &ETerm,
    budget: &mut Budget,
) -> Result<EType, ElabStop>
    ensures { (u : Unfolding) (a : Tree) (xs : List EArg) → IsStep u (tlam a body.now) (xs ++ Term arg.now ∷ []) budget.old.left xs budget.new.left result }
{
    budget.take()?;
    Ok(body.put_term(alloc, 0, arg)?)
}

/// The body of a function with a type put for its variable, with one unit.
fn contract_on(
    alloc: Global,
    body: &EType,
    arg: &EType,
    budget: &mut Budget,
) -> Result<EType, ElabStop>
    ensures { (u : Unfolding) (k : Tree) (xs : List EArg) → IsStep u (xtlam k body.now) (xs ++ OfType arg.now ∷ []) budget.old.left xs budget.new.left result }
{
    budget.take()?;
    Ok(body.put_type(alloc, 0, arg)?)
}

/// A head with its arguments as one tree, which is a head form.
fn applied(alloc: Global, head: &EType, args: &Vec<EArg>) -> Result<EType, ElabStop>
    ensures { (u : Unfolding) (n : ℕ) → IsStill u head.now (innermost args.now.items) → IsHead (head_written u n (spine head.now args.now.items)) result }
{
    if head.depth() > DEEPEST {
        return Err(ElabStop::TooDeep);
    }
    let mut tree = head.clone()?;
    let mut k = args.len();
    'build: while k > 0 {
        k -= 1;
        if tree.depth().max(arg_depth(&args[k])) >= DEEPEST {
            return Err(ElabStop::TooDeep);
        }
        tree = apply(alloc, &tree, &args[k])?;
    }
    Ok(tree)
}

fn arg_depth(arg: &EArg) -> u32
    ensures { result ≡ depth (arg_tree arg.now) }
{
    match arg {
        EArg::Term(term) => term.depth(),
        EArg::OfType(ty) => ty.depth(),
    }
}

fn apply(alloc: Global, head: &EType, arg: &EArg) -> Result<EType, NoMemory>
    ensures { IfOk result (λ t. t ≡ spine head.now (arg.now ∷ [])) }
{
    match arg {
        EArg::Term(arg) => EType::at(alloc, head, arg),
        EArg::OfType(arg) => EType::on(alloc, head, arg),
    }
}
