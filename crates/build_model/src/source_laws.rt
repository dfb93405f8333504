//! What holds of modules' files. Each law is the contract of a function with an empty body.
ghost use Rattle.std.specs.Prelude.{◌≡◌, ◌⊎◌, ◌<◌, ◌++◌, ℕ, List, length, slice_index_or, [], false, None, Ok};
ghost use Rattle.elab_model.specs.Items.{SourceItemsFit};
ghost use Rattle.scope_model.specs.ItemNames.{AreCalled};
ghost use Rattle.scope_model.specs.Scope.{scoped_module};
ghost use Rattle.scope_model.specs.ScopeFits.{AreNumbered, known_sorts};
ghost use Rattle.scope_model.specs.ScopeNames.{Exported, Text};
ghost use Rattle.scope_model.specs.Scoped.{ScopedModule};
ghost use Rattle.source_model.specs.Grammar.{Token};
ghost use Rattle.source_model.specs.Parsing.{Fault, Given, IsFirstFault, has_slash};
ghost use Rattle.source_model.specs.Source.{Module};
ghost use Rattle.source_model.specs.SurfaceText.{Says};
ghost use Rattle.build_model.specs.ByText.{AreCalledBy, IsOfTable, by_text};
ghost use Rattle.build_model.specs.Renamed.{renamed_module};
ghost use Rattle.build_model.specs.SourceFiles.{IsFirstSourceFault, IsSource, SourceFault};
ghost use Rattle.build_model.specs.Unbuilt.{unbuilt_items};

/// Reading is the same whether names are numbers of a table or the texts that stand there, and what a token is called that is no name is read by nothing:
/// such tokens say the same module, with the texts of its names, or have the same first fault, which holds no names.
pub fn names_are_read_by_texts()
    ensures said { (g : Given ℕ) (ts : List (Token ℕ)) (us : List (Token Text)) (m : Module ℕ) → AreCalledBy g.text ts us → Says g ts m → Says (by_text g) us (renamed_module g.text m) }
    ensures faulty { (g : Given ℕ) (ts : List (Token ℕ)) (us : List (Token Text)) (f : Fault) → AreCalledBy g.text ts us → IsFirstFault g ts f → IsFirstFault (by_text g) us f }
{}

/// Where each name of the tokens is a number of a table, so is each name of the module that they say. What such a module is with the texts of its names stays the
/// same in a larger table, so that several modules can be read into one.
pub fn spelling_stays()
    ensures numbers { (table : List Text) (g : Given ℕ) (ts : List (Token ℕ)) (m : Module ℕ) → AreCalled (λ x. x < length table) ts → Says g ts m → IsOfTable table m }
    ensures stays { (table more : List Text) (m : Module ℕ) → IsOfTable table m → renamed_module (λ x. slice_index_or (table ++ more) x []) m ≡ renamed_module (λ x. slice_index_or table x []) m }
    ensures grows { (table more : List Text) (m : Module ℕ) → IsOfTable table m → IsOfTable (table ++ more) m }
{}

/// A file says one module of its name, or it has one first fault, never both.
pub fn file_is_source_or_faulty()
    ensures either { (bytes : List ℕ) (name : Text) → ((m : Module Text) × IsSource bytes name m) ⊎ ((f : SourceFault) × IsFirstSourceFault bytes name f) }
    ensures never_both { (bytes : List ℕ) (name : Text) (m : Module Text) (f : SourceFault) → IsSource bytes name m → IsFirstSourceFault bytes name f → ⊥ }
    ensures one_module { (bytes : List ℕ) (name : Text) (m n : Module Text) → IsSource bytes name m → IsSource bytes name n → m ≡ n }
    ensures one_fault { (bytes : List ℕ) (name : Text) (e f : SourceFault) → IsFirstSourceFault bytes name e → IsFirstSourceFault bytes name f → e ≡ f }
{}

/// The module of a file has the file's name, which has no `/`.
pub fn file_has_its_name()
    ensures { (bytes : List ℕ) (name : Text) (m : Module Text) → IsSource bytes name m → (m.name ≡ name) × (has_slash name ≡ false) }
{}

/// A module of a file whose scope is known and that has nothing unbuilt is what the surface rules ask for.
pub fn file_fits()
    ensures { (bytes : List ℕ) (name : Text) (m : Module Text) (known : List Exported) (r : ScopedModule) → IsSource bytes name m → AreNumbered 0 known → scoped_module known m ≡ Ok r → unbuilt_items r.items ≡ None
        → SourceItemsFit (known_sorts known) r.items }
{}
