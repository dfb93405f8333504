//! Definitions, by the rules read upwards.
ghost use Rattle.std.specs.Prelude.{[]};
ghost use Rattle.elab_check.specs.Items.{definition_of, type_definition_of};
ghost use Rattle.elab_reduce.specs.Items.{env_of};
ghost use Rattle.elab_rules.specs.Answers.{Meets};

use crate::checker::Checker;
use elab_model::Code;
use elab_rules::{At, Context, Fault};
use elab_tree::{EKind, ETerm, EType};
use scoped_tree::Scoped;

impl Checker<'_> {
    /// The written type, which has the kind `★`, and the body, which has it.
    pub(crate) fn definition(&self, ty: &Scoped, body: &Scoped) -> Result<(EType, ETerm), Fault>
        ensures { Meets self.now.rules.env.now self.now.rules.budget (definition_of (env_of self.now.rules.env.now) ty.now body.now) result }
    {
        let context = Context::Given(&[]);
        let ty = self.star(&context, ty.span(), ty)?;
        let body = self.check(&context, body, &ty)?;
        Ok((ty, body))
    }

    /// The written kind, and the body, which has it.
    pub(crate) fn type_definition(
        &self,
        kind: &Scoped,
        body: &Scoped,
    ) -> Result<(EKind, EType), Fault>
        ensures { Meets self.now.rules.env.now self.now.rules.budget (type_definition_of (env_of self.now.rules.env.now) kind.now body.now) result }
    {
        let context = Context::Given(&[]);
        let kind = self.kind(&context, kind)?;
        let found = self.ty(&context, body)?;
        let span = body.span();
        self.rules
            .same_kinds(span, At::Whole(span), Code::WantedKind, &found.1, &kind)?;
        Ok((kind, found.0))
    }
}
