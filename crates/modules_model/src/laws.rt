//! What holds of what modules come to. Each law is the contract of a function with an empty body.
ghost use Rattle.std.specs.Prelude.{◌≡◌, List, Some, ℕ};
ghost use Rattle.cdle_model.specs.Forms.{Written};
ghost use Rattle.modules_model.specs.AllBuilt.{AreCoresOf, AreDifferent, AreSaid};
ghost use Rattle.modules_model.specs.ModuleTexts.{TextsAnswer, all_given, texts_answer};
ghost use Rattle.scope_model.specs.ScopeNames.{Text};
ghost use Rattle.source_model.specs.Source.{Module};

/// Modules that files say, no two of one name, come to an answer with any number of units.
pub fn modules_come_to_an_answer()
    ensures { (n : ℕ) (ms : List (Module Text)) → AreSaid ms → AreDifferent ms → (a : TextsAnswer) × (texts_answer n ms ≡ Some a) }
{}

/// The texts that are given for such modules say items with the names of the modules' definitions, which erase to these and have a derivation.
pub fn given_texts_are_the_modules()
    ensures { (n : ℕ) (ms : List (Module Text)) (wss : List (List Written)) (texts : List (List ℕ)) → AreSaid ms → AreDifferent ms → texts_answer n ms ≡ Some (all_given wss texts) → AreCoresOf ms wss texts }
{}
