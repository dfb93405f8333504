//! Pure terms, made of the erasures of a form's parts.
ghost use Rattle.std.specs.Prelude.{◌≡◌, IfOk, true, ℕ};
ghost use Rattle.cdle_model.specs.Erasure.{lowered};
ghost use Rattle.cdle_model.specs.Forms.{ap, fn};
ghost use Rattle.cdle_model.specs.Trees.{Tree, lacks};
ghost use Rattle.elab_model.specs.Questions.{limited};
ghost use Rattle.elab_model.specs.Rules.{unless_used};
ghost use Rattle.elab_model.specs.ScopedForms.{letter};
ghost use Rattle.elab_model.specs.Soundness.{no_encodings};
ghost use Rattle.elab_model.specs.SourceErasure.{identity as identity_in, name_erased};
ghost use Rattle.elab_rules.specs.Answers.{Meets};
ghost use Rattle.elab_tree.specs.Answers.{Gives};
ghost use Rattle.elab_tree.specs.Known.{Known};
ghost use Rattle.scoped_tree.specs.Trees.{place, reference as reference_in};

use cdle_names::Span;
use elab_model::Code;
use elab_rules::{At, Fault, is_unused, low};
use elab_tree::{EPure, NoMemory, TreeStop};
use scoped_tree::Reference;
use std::alloc::Global;

/// The pure term of that form, unless it is too deep.
fn limited_pure(form: Span, pure: EPure) -> Result<EPure, Fault>
    ensures { (e : Known) (n : ℕ) → Meets e n (limited (place form) pure) result }
{
    low(form, pure.depth())?;
    Ok(pure)
}

/// `λx.x`.
pub(crate) fn identity(alloc: Global) -> Result<EPure, NoMemory>
    ensures { IfOk result (λ t. t ≡ identity_in) }
{
    let variable = EPure::var(alloc, 0)?;
    EPure::function(alloc, &variable)
}

/// What a name stands for.
fn named(alloc: Global, reference: Reference) -> Result<EPure, NoMemory>
    ensures { IfOk result (λ t. t ≡ name_erased no_encodings (reference_in reference)) }
{
    match reference {
        Reference::Variable(index) => EPure::var(alloc, index),
        Reference::Item(item) => EPure::name(alloc, item),
        Reference::Cast(_) => identity(alloc),
    }
}

/// A name.
pub(crate) fn name(alloc: Global, form: Span, reference: Reference) -> Result<EPure, Fault>
    ensures { (e : Known) (n : ℕ) → Meets e n (limited (place form) (name_erased no_encodings (reference_in reference))) result }
{
    limited_pure(form, named(alloc, reference)?)
}

/// `λ x . part`.
pub(crate) fn function(alloc: Global, form: Span, part: &EPure) -> Result<EPure, Fault>
    ensures { (e : Known) (n : ℕ) → Meets e n (limited (place form) (fn part.now)) result }
{
    limited_pure(form, EPure::function(alloc, part)?)
}

/// `head arg`.
pub(crate) fn applied(alloc: Global, form: Span, head: &EPure, arg: &EPure) -> Result<EPure, Fault>
    ensures { (e : Known) (n : ℕ) → Meets e n (limited (place form) (ap head.now arg.now)) result }
{
    limited_pure(form, EPure::ap(alloc, head, arg)?)
}

/// `Λ x . part`: the part without the variable, which may not be used in it.
pub(crate) fn without_variable(alloc: Global, form: Span, part: &EPure) -> Result<EPure, Fault>
    ensures { (e : Known) (n : ℕ) → Meets e n (unless_used (letter (place form)) part.now (limited (place form) (lowered part.now))) result }
{
    if is_unused(part) {
        lowered_pure(form, lower(alloc, part))
    } else {
        Err(Fault::Rejected(At::Letter(form), Code::ErasedVariableUsed))
    }
}

/// The pure term without its variable 0, which is not in it.
fn lower(alloc: Global, pure: &EPure) -> Result<EPure, TreeStop>
    requires { lacks 0 pure.now ≡ true }
    ensures { Gives (lowered pure.now) result }
{
    // Whatever is put for the variable, nothing is put.
    pure.put_pure(alloc, 0, pure)
}

/// What a change of a pure term of this form answers.
fn lowered_pure(form: Span, answer: Result<EPure, TreeStop>) -> Result<EPure, Fault>
    ensures { (e : Known) (n : ℕ) (t : Tree) → Gives t answer → Meets e n (limited (place form) t) result }
{
    match answer {
        Ok(pure) => Ok(pure),
        Err(stop) => Err(Fault::stopped(form, stop)),
    }
}
