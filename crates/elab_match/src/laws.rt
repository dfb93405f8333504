//! What the two sets of definitions have in common.
ghost use Rattle.std.specs.Prelude.{◌≡◌};
ghost use Rattle.cdle_model.specs.Trees.{Tree};
ghost use Rattle.elab_model.specs.Instances.{solved_in, Solution as Solved};
ghost use Rattle.elab_tree.specs.Solved.{solutions, solved};

/// What `solve` gives of a tree, for what is found, is the tree with the solutions put for its unknowns.
pub fn solving_puts_what_is_found()
    ensures { (os : Solved) (t : Tree) → solved (solutions os) t ≡ solved_in os t }
{}
