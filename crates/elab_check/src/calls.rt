//! The public calls.
ghost use Rattle.elab_check.specs.Answers.{Elaborates};
ghost use Rattle.elab_check.specs.Items.{definition_of, type_definition_of};
ghost use Rattle.elab_model.specs.Rules.{check as checks, infer as infers, term, type as type_in};
ghost use Rattle.elab_model.specs.Soundness.{no_encodings};
ghost use Rattle.elab_reduce.specs.Items.{env_of};
ghost use Rattle.elab_check.specs.Contexts.{entries_of};

use crate::checker::Checker;
use crate::context::Ctx;
use crate::fault::{ElabFault, told};
use elab_rules::Rules;
use elab_tree::{EKind, ETerm, EType, Env};
use scoped_tree::{ScopedKind, ScopedTerm, ScopedType};
use std::alloc::Global;

/// The term with its type, with so many units for each comparison and each head form.
pub fn infer(
    alloc: Global,
    ctx: &Ctx<'_>,
    src: &ScopedTerm,
    units: u64,
) -> Result<(ETerm, EType), ElabFault>
    ensures { Elaborates ctx.now.env.now units (infers (env_of ctx.now.env.now) no_encodings (entries_of ctx.now) src.now (term (env_of ctx.now.env.now) no_encodings (entries_of ctx.now) src.now)) result }
{
    let checker = Checker {
        rules: Rules {
            alloc,
            env: ctx.env,
            budget: units,
        },
    };
    match checker.infer(&ctx.context(), src) {
        Ok(found) => Ok(found),
        Err(fault) => Err(told(fault)),
    }
}

/// The term, which has the type.
pub fn check(
    alloc: Global,
    ctx: &Ctx<'_>,
    src: &ScopedTerm,
    ty: &EType,
    units: u64,
) -> Result<ETerm, ElabFault>
    ensures { Elaborates ctx.now.env.now units (checks (env_of ctx.now.env.now) no_encodings (entries_of ctx.now) src.now (term (env_of ctx.now.env.now) no_encodings (entries_of ctx.now) src.now) ty.now) result }
{
    let checker = Checker {
        rules: Rules {
            alloc,
            env: ctx.env,
            budget: units,
        },
    };
    match checker.check(&ctx.context(), src, ty) {
        Ok(found) => Ok(found),
        Err(fault) => Err(told(fault)),
    }
}

/// The type with its kind.
pub fn kind_of(
    alloc: Global,
    ctx: &Ctx<'_>,
    src: &ScopedType,
    units: u64,
) -> Result<(EType, EKind), ElabFault>
    ensures { Elaborates ctx.now.env.now units (type_in (env_of ctx.now.env.now) no_encodings (entries_of ctx.now) src.now) result }
{
    let checker = Checker {
        rules: Rules {
            alloc,
            env: ctx.env,
            budget: units,
        },
    };
    match checker.ty(&ctx.context(), src) {
        Ok(found) => Ok(found),
        Err(fault) => Err(told(fault)),
    }
}

/// The type and the body of a definition of a term.
pub fn definition(
    alloc: Global,
    env: &Env,
    ty: &ScopedType,
    body: &ScopedTerm,
    units: u64,
) -> Result<(EType, ETerm), ElabFault>
    ensures { Elaborates env.now units (definition_of (env_of env.now) ty.now body.now) result }
{
    let checker = Checker {
        rules: Rules {
            alloc,
            env,
            budget: units,
        },
    };
    match checker.definition(ty, body) {
        Ok(found) => Ok(found),
        Err(fault) => Err(told(fault)),
    }
}

/// The kind and the body of a definition of a type.
pub fn type_definition(
    alloc: Global,
    env: &Env,
    kind: &ScopedKind,
    body: &ScopedType,
    units: u64,
) -> Result<(EKind, EType), ElabFault>
    ensures { Elaborates env.now units (type_definition_of (env_of env.now) kind.now body.now) result }
{
    let checker = Checker {
        rules: Rules {
            alloc,
            env,
            budget: units,
        },
    };
    match checker.type_definition(kind, body) {
        Ok(found) => Ok(found),
        Err(fault) => Err(told(fault)),
    }
}
