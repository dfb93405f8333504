//! The laws of reading. Each is the contract of a function with an empty body.
ghost use Rattle.std.specs.Prelude.{◌≡◌, ℕ, List, None, Some, slice_get};
ghost use Rattle.cdle_folder.specs.Causes.{Quiet};
ghost use Rattle.cdle_folder.specs.Files.{Files};
ghost use Rattle.scope_model.specs.ScopeNames.{Text};
ghost use Rattle.source_model.specs.Source.{Module};
ghost use Rattle.build_outcome.specs.Changes.{FolderChange};
ghost use Rattle.build_reading.specs.Order.{AreInReadingOrder, imports_of, next_wanted};
ghost use Rattle.build_reading.specs.Readings.{FileRead, IsFaultlessReading, IsReading, ReadingEnd};

/// Where nothing fails, any files have just one reading from a root, with one end; and a call that counts no read fault reads just this.
pub fn one_reading_where_nothing_fails()
    ensures there { (f : Files) (root : Text) → (rs : List FileRead) × (end : ReadingEnd) × IsFaultlessReading f root rs end }
    ensures one { (f : Files) (root : Text) (rs qs : List FileRead) (end other : ReadingEnd) → IsFaultlessReading f root rs end → IsFaultlessReading f root qs other → (qs ≡ rs) × (other ≡ end) }
    ensures quiet { (v : FolderChange) (f : Files) (root : Text) (rs : List FileRead) (end : ReadingEnd) → v.before.files ≡ Some f → Quiet v.before.read_faults v.after.read_faults → IsReading v root rs end
        → IsFaultlessReading f root rs end }
{}

/// No two modules that are read have one name. Where all are read, each import of one is the name of one of them.
pub fn read_modules_differ_and_are_closed()
    ensures differ { (root : Text) (ms : List (Module Text)) (i j : ℕ) (m n : Module Text) → AreInReadingOrder root ms → slice_get ms i ≡ Some m → slice_get ms j ≡ Some n → m.name ≡ n.name → i ≡ j }
    ensures closed { (root : Text) (ms : List (Module Text)) (i j : ℕ) (m : Module Text) (name : Text) → AreInReadingOrder root ms → next_wanted root ms ≡ None → slice_get ms i ≡ Some m → slice_get (imports_of m) j ≡ Some name
        → (k : ℕ) × (n : Module Text) × (slice_get ms k ≡ Some n) × (n.name ≡ name) }
{}
