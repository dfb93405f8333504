//! Contexts that callers build.
ghost use Rattle.std.specs.Prelude.{◌≡◌, ◌∷◌, [], MatchResult};
ghost use Rattle.cdle_model.specs.Derivation.{term_of, type_of};
ghost use Rattle.elab_check.specs.Contexts.{entries_of};
ghost use Rattle.elab_rules.specs.Contexts.{entries};

use cdle_model::NoMemory;
use elab_rules::{Binding, Context};
use elab_tree::{EKind, EType, Env};
use std::alloc::Global;

/// The items so far, and variables over them.
#[derive(Drop)]
pub struct Ctx<'a> {
    pub(crate) env: &'a Env,
    pub(crate) bindings: Vec<Binding>,
}

impl<'a> Ctx<'a> {
    /// No variables. It takes no memory.
    pub fn new(alloc: Global, env: &'a Env) -> Ctx<'a>
        ensures items { result.env.now ≡ env.now }
        ensures empty { entries_of result ≡ [] }
    {
        Ctx {
            env,
            bindings: Vec::new(alloc),
        }
    }

    /// One variable of a term more, which is the innermost.
    #[tactic(auto, using(crate::proofs::Stacked::stacked_more))]
    pub fn push_term(&mut self, ty: &EType) -> Result<(), NoMemory>
        ensures more { MatchResult result (λ _. entries_of self.new ≡ term_of ty.now ∷ entries_of self.old) (λ _. entries_of self.new ≡ entries_of self.old) }
        ensures items { self.new.env ≡ self.old.env }
    {
        self.bindings.push(Binding::Term(ty.clone()?))?;
        Ok(())
    }

    /// One variable of a type more, which is the innermost.
    #[tactic(auto, using(crate::proofs::Stacked::stacked_more))]
    pub fn push_type(&mut self, kind: &EKind) -> Result<(), NoMemory>
        ensures more { MatchResult result (λ _. entries_of self.new ≡ type_of kind.now ∷ entries_of self.old) (λ _. entries_of self.new ≡ entries_of self.old) }
        ensures items { self.new.env ≡ self.old.env }
    {
        self.bindings.push(Binding::OfType(kind.clone()?))?;
        Ok(())
    }

    pub(crate) fn context(&self) -> Context<'_>
        ensures { entries result ≡ entries_of self.now }
    {
        Context::Given(self.bindings.as_slice())
    }
}
