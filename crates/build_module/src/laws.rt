//! What holds of what a module's file comes to. Each law is the contract of a function with an empty body.
ghost use Rattle.std.specs.Prelude.{◌≡◌, ℕ, List};
ghost use Rattle.cdle_model.specs.Forms.{Written};
ghost use Rattle.scope_model.specs.ScopeNames.{Text};
ghost use Rattle.build_module.specs.Built.{IsCoreOf};
ghost use Rattle.build_module.specs.ModuleAnswers.{IsModuleAnswer, ModuleAnswer, gives};

/// Any bytes come to something with any number of units, and only to one.
pub fn file_comes_to_one_answer()
    ensures there { (n : ℕ) (bytes : List ℕ) (name : Text) → (a : ModuleAnswer) × IsModuleAnswer n bytes name a }
    ensures one { (n : ℕ) (bytes : List ℕ) (name : Text) (a b : ModuleAnswer) → IsModuleAnswer n bytes name a → IsModuleAnswer n bytes name b → a ≡ b }
{}

/// The text that is given says the items that are given, which have the names of the module's definitions, erase to these, and have a derivation.
pub fn given_text_is_the_modules()
    ensures { (n : ℕ) (bytes : List ℕ) (name : Text) (ws : List Written) (text : List ℕ) → IsModuleAnswer n bytes name (gives ws text) → IsCoreOf bytes name text ws }
{}
