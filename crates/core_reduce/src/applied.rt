//! A pure head form applied to a new variable.
ghost use Rattle.std.specs.Prelude.{◌≡◌, ◌∷◌, [], IfOk};
ghost use Rattle.cdle_model.specs.Comparison.{applied};
ghost use Rattle.cdle_model.specs.Forms.{fn};
ghost use Rattle.cdle_model.specs.Classes.{IsOf, pure_terms};
ghost use Rattle.cdle_model.specs.Trees.{shift, var};
ghost use Rattle.core_reduce.specs.Values.{AreArguments, IsValueOf, applied_to, value_tree};
ghost use Rattle.core_reduce.specs.declared.root.Arg.TheVariants.{Ap};
ghost use Rattle.core_reduce.specs.declared.side.SideClass.TheVariants.{OfPure};

use crate::root::Arg;
use crate::side::Side;
use crate::value::Value;
use cdle_model::NoMemory;
use core_tree::Pure;
use core_view::PureView;
use std::alloc::Global;

impl Value {
    /// The pure term applied to a new variable, whose number is 0. It takes no units.
    pub fn applied(&self, alloc: Global) -> Result<Side, NoMemory>
        requires class { IsValueOf OfPure self.now }
        ensures { IfOk result (λ s. s ≡ record { class = OfPure; tree = applied (value_tree OfPure self.now) }) }
    {
        match self {
            Value::Fun(body) => applied_function(alloc, body),
            Value::Var { var, args } => applied_variable(alloc, *var, args),
            Value::Former { .. } => unreachable!(),
        }
    }
}

fn applied_function(alloc: Global, body: &Side) -> Result<Side, NoMemory>
    requires class { body.now.class ≡ OfPure }
    ensures { IfOk result (λ s. s ≡ record { class = OfPure; tree = applied (fn body.now.tree) }) }
{
    let args = new_variable(alloc)?;
    Side::applied(alloc, raised_function(alloc, body)?, args)
}

/// The new variable as the one argument.
fn new_variable(alloc: Global) -> Result<Vec<Arg>, NoMemory>
    ensures { IfOk result (λ args. args.items ≡ Ap (var 0) ∷ []) }
{
    let mut args = Vec::new(alloc);
    args.push(Arg::Ap(PureView::variable(0)))?;
    Ok(args)
}

/// The function with that body, over the new variable.
fn raised_function(alloc: Global, body: &Side) -> Result<PureView, NoMemory>
    requires { body.now.class ≡ OfPure }
    ensures { IfOk result (λ t. t ≡ shift 0 1 (fn body.now.tree)) }
{
    let body = body.flat_pure(alloc)?;
    if body.depth() >= 65_535 {
        return Err(NoMemory);
    }
    PureView::built(Pure::function(alloc, &body)?).raised(alloc)
}

fn applied_variable(alloc: Global, index: u32, args: &Vec<Side>) -> Result<Side, NoMemory>
    requires class { AreArguments OfPure args.now.items }
    ensures { IfOk result (λ s. s ≡ record { class = OfPure; tree = applied (applied_to OfPure (var index) args.now.items) }) }
{
    if index == 4_294_967_295 {
        return Err(NoMemory);
    }
    let mut all = new_variable(alloc)?;
    let mut k = args.len();
    'raised: while k > 0 {
        k -= 1;
        all.push(raised_argument(alloc, &args[k])?)?;
    }
    Side::applied(alloc, PureView::variable(index + 1), all)
}

/// The argument over the new variable.
fn raised_argument(alloc: Global, arg: &Side) -> Result<Arg, NoMemory>
    requires { arg.now.class ≡ OfPure }
    ensures { IfOk result (λ a. (a ≡ Ap (shift 0 1 arg.now.tree)) × IsOf pure_terms (shift 0 1 arg.now.tree)) }
{
    let arg = arg.raised(alloc)?;
    arg.known();
    Ok(Arg::Ap(arg))
}
