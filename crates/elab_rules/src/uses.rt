//! Whether a variable stands in a pure term.
ghost use Rattle.std.specs.Prelude.{◌≡◌, ◌+◌, ◌≤◌};
ghost use Rattle.cdle_model.specs.Depth.{depth};
ghost use Rattle.cdle_model.specs.Trees.{lacks};

use elab_tree::{EPure, EPureForm};

/// Whether the innermost variable is not in the pure term.
pub fn is_unused(pure: &EPure) -> bool
    ensures { result ≡ lacks 0 pure.now }
{
    // Asked for its bound alone.
    let _depth = pure.depth();
    is_without(pure, 0)
}

/// Whether the variable of that number is not in the pure term.
fn is_without(pure: &EPure, index: u32) -> bool
    requires { index + depth pure.now ≤ 65536 }
    ensures { result ≡ lacks index pure.now }
{
    match pure.form() {
        EPureForm::Var(other) => *other != index,
        EPureForm::Name(_) => true,
        EPureForm::Function(part) => is_without(part, index + 1),
        EPureForm::Ap(head, arg) => is_without(head, index) && is_without(arg, index),
    }
}
