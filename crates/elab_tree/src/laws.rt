//! What is known of trees without unknowns.
ghost use Rattle.std.specs.Prelude.{◌≡◌, false};
ghost use Rattle.cdle_model.specs.Trees.{Tree};
ghost use Rattle.elab_tree.specs.Sizes.{filled, has_unknown};

/// A tree without unknowns is the same once each unknown is replaced. So `known` tells the class of such a tree itself.
pub fn tree_without_unknown_is_filled()
    ensures { (t : Tree) → has_unknown t ≡ false → filled t ≡ t }
{}
