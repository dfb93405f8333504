//! The laws of the definitions. Each is the contract of a function with an empty body.
ghost use Rattle.std.specs.Prelude.{◌≡◌, ◌⊎◌, [], ℕ, List};
ghost use Rattle.cdle_folder.specs.Files.{Bytes, Files};
ghost use Rattle.cdle_model.specs.Check.{check_items, spends};
ghost use Rattle.cdle_model.specs.Forms.{Written};
ghost use Rattle.build_drive.specs.Answers.{IsOutcome};
ghost use Rattle.build_drive.specs.BuildCalls.{IsBuildDetermined, IsBuildSpent};
ghost use Rattle.build_drive.specs.Calls.{AreReadable};
ghost use Rattle.build_drive.specs.Checks.{IsVerdictAtBudget};
ghost use Rattle.build_drive.specs.Traces.{IsFaultlessTrace, Trace};
ghost use Rattle.build_outcome.specs.declared.outcome.Outcome.{Outcome as OutcomeOf};

/// Where nothing fails, any files have just one outcome with each budget; or what they say spends the plain check with it, and then they have none.
pub fn one_outcome_where_nothing_fails()
    ensures there { (f : Files) (files : List Bytes) (budget : ℕ) → ((t : Trace) × (o : OutcomeOf) × IsFaultlessTrace f files t × IsOutcome (IsVerdictAtBudget budget) [] t o)
        ⊎ ((all : List Written) × AreReadable f [] files all × (i : ℕ) × (path : List ℕ) × (check_items budget all ≡ spends i path)) }
    ensures one { (f : Files) (files : List Bytes) (budget : ℕ) (t u : Trace) (o p : OutcomeOf) → IsFaultlessTrace f files t → IsOutcome (IsVerdictAtBudget budget) [] t o
        → IsFaultlessTrace f files u → IsOutcome (IsVerdictAtBudget budget) [] u p → o ≡ p }
    ensures none { (f : Files) (files : List Bytes) (budget : ℕ) (all : List Written) (i : ℕ) (path : List ℕ) (t : Trace) (o : OutcomeOf) → AreReadable f [] files all
        → check_items budget all ≡ spends i path → IsFaultlessTrace f files t → IsOutcome (IsVerdictAtBudget budget) [] t o → ⊥ }
{}

/// Where nothing fails, a module's name and any files have just one outcome of `build` with each budget; or the plain check of what the module's file gives is
/// spent with it, and then they have none.
pub fn one_outcome_of_build()
    ensures there { (n : ℕ) (f : Files) (name : Bytes) → ((o : OutcomeOf) × IsBuildDetermined n f name o) ⊎ IsBuildSpent n f name }
    ensures one { (n : ℕ) (f : Files) (name : Bytes) (o p : OutcomeOf) → IsBuildDetermined n f name o → IsBuildDetermined n f name p → o ≡ p }
    ensures none { (n : ℕ) (f : Files) (name : Bytes) (o : OutcomeOf) → IsBuildSpent n f name → IsBuildDetermined n f name o → ⊥ }
{}
