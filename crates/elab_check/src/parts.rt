//! Parts that may be left out, and guides that are written as equations.
ghost use Rattle.std.specs.Prelude.{◌≡◌};
ghost use Rattle.elab_model.specs.Rules.{is_equation as is_written};
ghost use Rattle.source_model.specs.Heights.{is_none};

use scoped_tree::{LeafForm, Scoped, ScopedForm, TwoForm};

/// Whether no part is written there.
pub(crate) fn is_left_out(part: &Scoped) -> bool
    ensures { is_none part.now ≡ result }
{
    matches!(part.form(), ScopedForm::Leaf(LeafForm::LeftOut))
}

/// Whether the guide is written as an equation.
pub(crate) fn is_equation(guide: &Scoped) -> bool
    ensures { is_written guide.now ≡ result }
{
    matches!(guide.form(), ScopedForm::Two(TwoForm::Eq, _, _))
}
