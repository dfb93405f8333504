//! Head forms.
ghost use Rattle.std.specs.Prelude.{◌≡◌, ◌<◌, ◌∷◌, ◌≤◌, [], IfOk, drop, get_or, length};
ghost use Rattle.cdle_model.specs.Trees.{apply, of_pure, var};
ghost use Rattle.cdle_model.specs.Classes.{IsOf, guides, pure_terms};
ghost use Rattle.cdle_model.specs.Comparison.{head_of};
ghost use Rattle.core_reduce.specs.Heads.{IsOther, IsStill, innermost};
ghost use Rattle.core_reduce.specs.Sides.{arg_function, arg_tree, class_trees, root_class, root_tree, sided, spine};
ghost use Rattle.core_reduce.specs.Values.{IsOfForm, IsStuck, StandsFor, former_class, former_parts, former_tree};
ghost use Rattle.core_reduce.specs.declared.root.Root.TheVariants.{Guide};
ghost use Rattle.core_reduce.specs.declared.side.SideClass.{SideClass};
ghost use Rattle.core_reduce.specs.declared.side.SideClass.TheVariants.{OfPure, OfType, OfKind};

use crate::root::{Applied, Arg, Root};
use crate::side::Side;
use crate::spine::is_applied;
use cdle_model::NoMemory;
use core_view::{
    GuideTop, GuideView, GuideViewForm, KindView, KindViewForm, PureView, PureViewForm,
};
use std::alloc::Global;
use std::rc::Rc;

/// The forms of an erased type or kind that is no variable and no name. `At` and `On` are applications that are stuck.
///
/// The parts stand in the order in which Core text writes them: none of `Star`, the body of `Tlam` and of `Xtlam`, and two of every other form.
#[derive(Clone, Copy, Debug, PartialEq, Eq)]
pub enum Former {
    Pi,
    All,
    Allt,
    Tlam,
    Xtlam,
    At,
    On,
    Iota,
    Eq,
    Star,
    Kpi,
    Kpit,
}

/// A head form.
#[derive(Drop)]
pub enum Value {
    /// A function of pure terms, by its body, in which the variable 0 is the new one.
    Fun(Side),
    /// A variable with its arguments, the innermost first.
    Var { var: u32, args: Vec<Side> },
    /// A form with its parts. A part under its binder has the new variable as 0.
    Former { former: Former, parts: Vec<Side> },
}

/// A form without parts.
fn no_parts(alloc: Global, former: Former) -> Value
    requires parts { former_parts former ≡ [] }
    requires stuck { IsStuck former [] }
    ensures { StandsFor (former_class former) result (former_tree former []) }
{
    Value::Former {
        former,
        parts: Vec::new(alloc),
    }
}

/// A form of one part.
fn one_part(alloc: Global, former: Former, part: Side) -> Result<Value, NoMemory>
    requires parts { former_parts former ≡ part.class ∷ [] }
    requires stuck { IsStuck former (part ∷ []) }
    ensures { IfOk result (λ v. StandsFor (former_class former) v (former_tree former (part ∷ []))) }
{
    let mut parts = Vec::new(alloc);
    parts.push(part)?;
    Ok(Value::Former { former, parts })
}

/// A form of two parts.
fn two_parts(alloc: Global, former: Former, left: Side, right: Side) -> Result<Value, NoMemory>
    requires parts { former_parts former ≡ left.class ∷ right.class ∷ [] }
    requires stuck { IsStuck former (left ∷ right ∷ []) }
    ensures { IfOk result (λ v. StandsFor (former_class former) v (former_tree former (left ∷ right ∷ []))) }
{
    let mut parts = Vec::new(alloc);
    parts.push(left)?;
    parts.push(right)?;
    Ok(Value::Former { former, parts })
}

/// A variable with the arguments from the place `from` on.
fn variable(alloc: Global, index: u32, args: &Vec<Arg>, from: usize) -> Result<Value, NoMemory>
    requires { from ≤ length args.now.items }
    ensures { IfOk result (λ v. (k : SideClass) → IsOf (class_trees k) (spine (var index) (drop from args.now.items)) → StandsFor k v (spine (var index) (drop from args.now.items))) }
{
    let mut sides = Vec::new(alloc);
    let mut k = args.len();
    'sides: while k > from {
        k -= 1;
        sides.push(Side::of_arg(alloc, &args[k])?)?;
    }
    Ok(Value::Var {
        var: index,
        args: sides,
    })
}

/// The head form that a head with its arguments from the place `from` on is.
pub(crate) fn value_of(alloc: Global, at: &Rc<Applied>, from: usize) -> Result<Value, NoMemory>
    requires within { from ≤ length at.now.value.args.items }
    requires class { IsOf (class_trees (root_class at.now.value.head)) (spine (root_tree at.now.value.head) (drop from at.now.value.args.items)) }
    requires still { IsStill (root_tree at.now.value.head) (innermost (drop from at.now.value.args.items)) }
    ensures { IfOk result (λ v. StandsFor (root_class at.now.value.head) v (spine (root_tree at.now.value.head) (drop from at.now.value.args.items))) }
{
    match &at.head {
        Root::Pure(term) => pure_value(alloc, term, &at.args, from),
        Root::Guide(guide) => guide_value(alloc, at, guide, from),
        Root::Kind(kind) => kind_value(alloc, kind),
    }
}

fn pure_value(
    alloc: Global,
    now: &PureView,
    args: &Vec<Arg>,
    from: usize,
) -> Result<Value, NoMemory>
    requires within { from ≤ length args.now.items }
    requires class { IsOf pure_terms (spine now.now (drop from args.now.items)) }
    requires still { IsStill now.now (innermost (drop from args.now.items)) }
    ensures { IfOk result (λ v. StandsFor OfPure v (spine now.now (drop from args.now.items))) }
{
    let form = now.form(alloc)?;
    match form {
        PureViewForm::Var(index) => variable(alloc, index, args, from),
        PureViewForm::Function(body) => { Ok(Value::Fun(Side::of_root(alloc, Root::Pure(body))?)) }
        PureViewForm::Name(_) => unreachable!(),
        PureViewForm::Ap(_, _) => unreachable!(),
    }
}

/// The head form of the erased type `now` with the arguments of the node of which it is the head.
fn guide_value(
    alloc: Global,
    at: &Rc<Applied>,
    now: &GuideView,
    from: usize,
) -> Result<Value, NoMemory>
    requires head { at.now.value.head ≡ Guide now.now }
    requires within { from ≤ length at.now.value.args.items }
    requires class { IsOf guides (spine now.now (drop from at.now.value.args.items)) }
    requires still { IsStill now.now (innermost (drop from at.now.value.args.items)) }
    ensures { IfOk result (λ v. StandsFor OfType v (spine now.now (drop from at.now.value.args.items))) }
{
    if let GuideTop::Var(index) = now.top() {
        return variable(alloc, index, &at.args, from);
    }
    if !is_applied(&at.args, from) {
        return form_of(alloc, now);
    }
    let head = Side {
        node: at.clone()?,
        from: from + 1,
    };
    stuck(alloc, head, argument(&at.args, from))
}

fn argument(args: &Vec<Arg>, at: usize) -> &Arg
    requires { at < length args.now.items }
    ensures { result.now ≡ get_or args.now.items at result.now }
{
    &args[at]
}

/// An application that is stuck.
fn stuck(alloc: Global, head: Side, arg: &Arg) -> Result<Value, NoMemory>
    requires head { head.class ≡ OfType }
    requires form { IsOfForm (head_of head.tree) }
    requires arg { arg_function arg.now ≡ of_pure → ⊥ }
    ensures { IfOk result (λ v. StandsFor OfType v (apply (arg_function arg.now) head.tree (arg_tree arg.now))) }
{
    match arg {
        Arg::At(arg) => {
            let arg = Side::of_root(alloc, Root::Pure(arg.share()?))?;
            two_parts(alloc, Former::At, head, arg)
        }
        Arg::On(arg) => {
            let arg = Side::of_root(alloc, Root::Guide(arg.share()?))?;
            two_parts(alloc, Former::On, head, arg)
        }
        Arg::Ap(_) => unreachable!(),
    }
}

/// An erased type that is no variable, no name and no application.
fn form_of(alloc: Global, now: &GuideView) -> Result<Value, NoMemory>
    requires other { IsOther now.now }
    ensures { IfOk result (λ v. StandsFor OfType v now.now) }
{
    match now.form(alloc)? {
        GuideViewForm::Pi(domain, part) => {
            two_roots(alloc, Former::Pi, Root::Guide(domain), Root::Guide(part))
        }
        GuideViewForm::All(domain, part) => {
            two_roots(alloc, Former::All, Root::Guide(domain), Root::Guide(part))
        }
        GuideViewForm::Allt(domain, part) => {
            two_roots(alloc, Former::Allt, Root::Kind(domain), Root::Guide(part))
        }
        GuideViewForm::Tlam(part) => {
            one_part(
                alloc,
                Former::Tlam,
                Side::of_root(alloc, Root::Guide(part))?,
            )
        }
        GuideViewForm::Xtlam(part) => {
            one_part(
                alloc,
                Former::Xtlam,
                Side::of_root(alloc, Root::Guide(part))?,
            )
        }
        GuideViewForm::Iota(left, right) => {
            two_roots(alloc, Former::Iota, Root::Guide(left), Root::Guide(right))
        }
        GuideViewForm::Eq(left, right) => {
            two_roots(alloc, Former::Eq, Root::Pure(left), Root::Pure(right))
        }
        GuideViewForm::Var(_) => unreachable!(),
        GuideViewForm::Name(_) => unreachable!(),
        GuideViewForm::At(_, _) => unreachable!(),
        GuideViewForm::On(_, _) => unreachable!(),
    }
}

/// A form of two parts that are read.
fn two_roots(alloc: Global, former: Former, left: Root, right: Root) -> Result<Value, NoMemory>
    requires parts { former_parts former ≡ root_class left ∷ root_class right ∷ [] }
    requires stuck { IsStuck former (sided left ∷ sided right ∷ []) }
    ensures { IfOk result (λ v. StandsFor (former_class former) v (former_tree former (sided left ∷ sided right ∷ []))) }
{
    let left = Side::of_root(alloc, left)?;
    let right = Side::of_root(alloc, right)?;
    two_parts(alloc, former, left, right)
}

fn kind_value(alloc: Global, now: &KindView) -> Result<Value, NoMemory>
    ensures { IfOk result (λ v. StandsFor OfKind v now.now) }
{
    match now.form()? {
        KindViewForm::Star => Ok(no_parts(alloc, Former::Star)),
        KindViewForm::Kpi(domain, part) => {
            two_roots(alloc, Former::Kpi, Root::Guide(domain), Root::Kind(part))
        }
        KindViewForm::Kpit(domain, part) => {
            two_roots(alloc, Former::Kpit, Root::Kind(domain), Root::Kind(part))
        }
    }
}
