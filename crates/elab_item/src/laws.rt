//! What follows where the items so far are sound and the module is as its scope leaves it.
ghost use Rattle.std.specs.Prelude.{◌≡◌, ℕ, List};
ghost use Rattle.cdle_model.specs.Classes.{item_sorts};
ghost use Rattle.cdle_model.specs.Derivation.{AreDerived};
ghost use Rattle.cdle_model.specs.Forms.{Written};
ghost use Rattle.elab_item.specs.Given.{given_over, with_given};
ghost use Rattle.elab_model.specs.Items.{EraseTo, NamesDiffer, SourceItemsFit, names_of};
ghost use Rattle.elab_model.specs.Questions.{found, out_of_scope};
ghost use Rattle.elab_model.specs.Soundness.{EnvSound, no_encodings};
ghost use Rattle.elab_reduce.specs.Items.{env_of, items_of};
ghost use Rattle.elab_tree.specs.Known.{Known};
ghost use Rattle.scope_model.specs.Scoped.{ScopedItem};

/// Where the items so far are items with erasures and derivations, and the source items fit behind them under new names: they are so with those that are
/// given, each of these erases to its source, and the rules always say something of the source items.
pub fn given_items_stand()
    ensures stand { (k : Known) → EnvSound (env_of k) → AreDerived (items_of k.entries) → (is : List ScopedItem) → SourceItemsFit (item_sorts (items_of k.entries)) is → NamesDiffer (names_of (items_of k.entries)) is
        → (n : ℕ) (ws : List Written) → given_over n k is ≡ found ws → EnvSound (env_of (with_given k ws)) × AreDerived (items_of (with_given k ws).entries) }
    ensures erase { (k : Known) → EnvSound (env_of k) → AreDerived (items_of k.entries) → (is : List ScopedItem) → SourceItemsFit (item_sorts (items_of k.entries)) is → NamesDiffer (names_of (items_of k.entries)) is
        → (n : ℕ) (ws : List Written) → given_over n k is ≡ found ws → EraseTo (λ a b. a ≡ b) no_encodings is ws }
    ensures answered { (k : Known) → EnvSound (env_of k) → AreDerived (items_of k.entries) → (is : List ScopedItem) → SourceItemsFit (item_sorts (items_of k.entries)) is → NamesDiffer (names_of (items_of k.entries)) is
        → (n : ℕ) → given_over n k is ≡ out_of_scope → ⊥ }
{}
