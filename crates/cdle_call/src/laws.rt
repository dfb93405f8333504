//! The laws of the definitions. Each is the contract of a function with an empty body.
ghost use Rattle.std.specs.Prelude.{◌≡◌, ◌⊎◌, List};
ghost use Rattle.cdle_folder.specs.Files.{Bytes, Files};
ghost use Rattle.cdle_words.specs.Words.{command_of};
ghost use Rattle.build_outcome.specs.declared.outcome.Outcome.{Outcome as OutcomeOf};
ghost use Rattle.cdle_call.specs.Work.{IsDetermined, IsSpentOver};

/// Any words and any files determine just one outcome; or the plain check with the words' budget is spent, and then they determine none.
pub fn one_outcome_is_determined()
    ensures there { (words : List Bytes) (f : Files) → ((o : OutcomeOf) × IsDetermined (command_of words) f o) ⊎ IsSpentOver (command_of words) f }
    ensures one { (words : List Bytes) (f : Files) (o p : OutcomeOf) → IsDetermined (command_of words) f o → IsDetermined (command_of words) f p → o ≡ p }
    ensures none { (words : List Bytes) (f : Files) (o : OutcomeOf) → IsSpentOver (command_of words) f → IsDetermined (command_of words) f o → ⊥ }
{}
