//! The binders around a part.
ghost use Rattle.std.specs.Prelude.{◌≡◌, [], slice_get};
ghost use Rattle.elab_rules.specs.Contexts.{entries, stacked};
ghost use Rattle.elab_rules.specs.Parts.{seen_known};

use elab_tree::{EKind, EType};

/// What is known of a variable: of a term its type, of a type its kind.
#[derive(Drop)]
pub enum Binding {
    Term(EType),
    OfType(EKind),
}

/// The binders around a part, the innermost first: of a term, with its type, or of a type, with its kind.
#[derive(Drop)]
pub enum Context<'a> {
    /// The binders that were given, the innermost last.
    Given(&'a [Binding]),
    /// A binder of a term, inside of the others.
    Term(&'a EType, &'a Context<'a>),
    /// A binder of a type, inside of the others.
    OfType(&'a EKind, &'a Context<'a>),
}

/// What is known of a variable, as it stands at its binder.
#[derive(Clone, Copy)]
pub(crate) enum Known<'a> {
    Term(&'a EType),
    OfType(&'a EKind),
}

impl Context<'_> {
    /// What is known of the variable of that number.
    pub(crate) fn known(&self, index: u32) -> Option<Known<'_>>
        ensures { seen_known result ≡ slice_get (entries self.now) index }
    {
        match self {
            Context::Given(bindings) => given(bindings, index),
            Context::Term(ty, outer) => {
                if index == 0 {
                    Some(Known::Term(ty))
                } else {
                    outer.known(index - 1)
                }
            }
            Context::OfType(kind, outer) => {
                if index == 0 {
                    Some(Known::OfType(kind))
                } else {
                    outer.known(index - 1)
                }
            }
        }
    }
}

/// What is known of the variable of that number, of those whose innermost is the last.
fn given(bindings: &[Binding], index: u32) -> Option<Known<'_>>
    ensures { seen_known result ≡ slice_get (stacked [] bindings.now) index }
{
    if index as usize >= bindings.len() {
        return None;
    }
    match &bindings[bindings.len() - 1 - index as usize] {
        Binding::Term(ty) => Some(Known::Term(ty)),
        Binding::OfType(kind) => Some(Known::OfType(kind)),
    }
}
