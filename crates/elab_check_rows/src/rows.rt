//! A variable X of the kind `★`, and inside of it a variable x of the type X.
use cdle_names::Span;
use elab_check::{Ctx, ElabFault, check, infer, kind_of};
use elab_model::Code;
use elab_tree::{EKind, EKindForm, ETermForm, EType, ETypeForm, Env};
use scoped_tree::{Reference, Scoped};
use std::alloc::Global;
use std::test::Fail;

/// The units of each question.
const UNITS: u64 = 100;

/// Where the name stands.
const PLACE: Span = Span { from: 3, to: 4 };

/// X and x over the items.
fn context<'a>(alloc: Global, env: &'a Env) -> Result<Ctx<'a>, Fail> {
    let mut ctx = Ctx::new(alloc, env);
    ctx.push_type(&EKind::star(alloc)?)?;
    ctx.push_term(&EType::var(alloc, 0)?)?;
    Ok(ctx)
}

/// The name of a variable.
fn variable(alloc: Global, index: u32) -> Result<Scoped, Fail> {
    Ok(Scoped::name(alloc, PLACE, Reference::Variable(index))?)
}

#[test]
fn x_has_the_type_of_its_binder(rt: HostRuntime) -> Result<(), Fail> {
    let alloc = rt.alloc();
    let env = Env::new(alloc);
    let ctx = context(alloc, &env)?;
    let source = variable(alloc, 0)?;
    let found = infer(alloc, &ctx, &source, UNITS);
    let is_right = match &found {
        Ok((term, ty)) => {
            matches!(term.form(), ETermForm::Var(0)) && matches!(ty.form(), ETypeForm::Var(1))
        }
        Err(_) => false,
    };
    assert!(rt; is_right);
    Ok(())
}

#[test]
fn x_is_checked_against_its_type(rt: HostRuntime) -> Result<(), Fail> {
    let alloc = rt.alloc();
    let env = Env::new(alloc);
    let ctx = context(alloc, &env)?;
    let source = variable(alloc, 0)?;
    let ty = EType::var(alloc, 1)?;
    let found = check(alloc, &ctx, &source, &ty, UNITS);
    let is_right = match &found {
        Ok(term) => matches!(term.form(), ETermForm::Var(0)),
        Err(_) => false,
    };
    assert!(rt; is_right);
    Ok(())
}

#[test]
fn x_is_refused_at_another_type(rt: HostRuntime) -> Result<(), Fail> {
    let alloc = rt.alloc();
    let env = Env::new(alloc);
    let ctx = context(alloc, &env)?;
    let source = variable(alloc, 0)?;
    let ty = EType::var(alloc, 1)?;
    let other = EType::pi(alloc, &ty, &EType::var(alloc, 2)?)?;
    let wanted = ElabFault::Reject {
        span: PLACE,
        code: Code::Mismatch,
    };
    let is_right = match &check(alloc, &ctx, &source, &other, UNITS) {
        Ok(_) => false,
        Err(fault) => *fault == wanted,
    };
    assert!(rt; is_right);
    Ok(())
}

#[test]
fn x_is_undecided_without_units(rt: HostRuntime) -> Result<(), Fail> {
    let alloc = rt.alloc();
    let env = Env::new(alloc);
    let ctx = context(alloc, &env)?;
    let source = variable(alloc, 0)?;
    let ty = EType::var(alloc, 1)?;
    let wanted = ElabFault::Spent { span: PLACE };
    let is_right = match &check(alloc, &ctx, &source, &ty, 0) {
        Ok(_) => false,
        Err(fault) => *fault == wanted,
    };
    assert!(rt; is_right);
    Ok(())
}

#[test]
fn the_type_has_its_kind(rt: HostRuntime) -> Result<(), Fail> {
    let alloc = rt.alloc();
    let env = Env::new(alloc);
    let ctx = context(alloc, &env)?;
    let source = variable(alloc, 1)?;
    let found = kind_of(alloc, &ctx, &source, UNITS);
    let is_right = match &found {
        Ok((ty, kind)) => {
            matches!(ty.form(), ETypeForm::Var(1)) && matches!(kind.form(), EKindForm::Star)
        }
        Err(_) => false,
    };
    assert!(rt; is_right);
    Ok(())
}
