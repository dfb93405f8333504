//! The laws of modules that are read into one table. Each is the contract of a function with an empty body.
ghost use Rattle.std.specs.Prelude.{◌≡◌, ℕ, List};
ghost use Rattle.scope_model.specs.ScopeNames.{Text};
ghost use Rattle.source_model.specs.Source.{Module};
ghost use Rattle.scope_part.specs.Names.{text_of};
ghost use Rattle.surf_parse.specs.Answers.{Grows};
ghost use Rattle.surf_scope.specs.Modules.{spelled_module};
ghost use Rattle.build_model.specs.ByText.{IsOfTable};
ghost use Rattle.build_model.specs.Renamed.{renamed_module};

/// A module with the texts of its names is the module with each name replaced by its text.
pub fn spelled_is_renamed()
    ensures { (names : List Text) (m : Module ℕ) → spelled_module names m ≡ renamed_module (text_of names) m }
{}

/// While the table grows a module stays one of it, and stays what it is with the texts of its names.
pub fn spelling_stays()
    ensures spelled { (old new : List Text) (m : Module ℕ) → Grows old new → IsOfTable old m → spelled_module new m ≡ spelled_module old m }
    ensures of_table { (old new : List Text) (m : Module ℕ) → Grows old new → IsOfTable old m → IsOfTable new m }
{}
