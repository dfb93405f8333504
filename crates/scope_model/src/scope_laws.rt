//! The laws of scope. Each is the contract of a function with an empty body.
ghost use Rattle.std.specs.Prelude.{◌≡◌, ◌⊎◌, ◌++◌, ℕ, List, length, map, Err, Ok};
ghost use Rattle.std.specs.List.{AllByRecursion, IsDistinct};
ghost use Rattle.std.specs.Str.{IsUtf8, bytes_eq};
ghost use Rattle.scope_model.specs.Scope.{ScopeFault, all_names, around, scoped_module, texts, with_module};
ghost use Rattle.scope_model.specs.ScopeFits.{AreNumbered, ItemsFit, known_sorts, sorts};
ghost use Rattle.scope_model.specs.ItemNames.{AllNames, AreCalled, IsPartOfWord, as_written, called};
ghost use Rattle.scope_model.specs.ScopeNames.{Exported, Text};
ghost use Rattle.scope_model.specs.Scoped.{ScopedModule};
ghost use Rattle.source_model.specs.Grammar.{Token};
ghost use Rattle.source_model.specs.Parsing.{Given};
ghost use Rattle.source_model.specs.Source.{Module};
ghost use Rattle.source_model.specs.SurfaceText.{Says};
ghost use Rattle.source_model.specs.SurfaceTokens.{TextToken, lexed};

/// The scope of a module is known, or it has a first fault, never both, and each of them is one.
pub fn module_is_scoped_or_faulty()
    ensures either { (known : List Exported) (m : Module Text) → ((r : ScopedModule) × (scoped_module known m ≡ Ok r)) ⊎ ((f : ScopeFault) × (scoped_module known m ≡ Err f)) }
    ensures never_both { (known : List Exported) (m : Module Text) (r : ScopedModule) (f : ScopeFault) → scoped_module known m ≡ Ok r → scoped_module known m ≡ Err f → ⊥ }
    ensures one_scope { (known : List Exported) (m : Module Text) (q r : ScopedModule) → scoped_module known m ≡ Ok q → scoped_module known m ≡ Ok r → q ≡ r }
    ensures one_fault { (known : List Exported) (m : Module Text) (f g : ScopeFault) → scoped_module known m ≡ Err f → scoped_module known m ≡ Err g → f ≡ g }
{}

/// In a module whose scope is known each name stands for a binder around it or for an item before it, and is used in its class. No name stands for the
/// variable of a `Λ` without a class, which fits both.
pub fn scoped_module_fits()
    ensures { (known : List Exported) (m : Module Text) (r : ScopedModule) → AreNumbered 0 known → scoped_module known m ≡ Ok r → ItemsFit (known_sorts known) r.items }
{}

/// Modules that are known are numbered one after the other.
pub fn known_modules_are_numbered()
    ensures { (known : List Exported) (m : Module Text) → AreNumbered 0 known → AreNumbered 0 (with_module known m) }
{}

/// A module whose scope is known gives the Core items of its text, each called `M.x`. Its first has the next number behind those that are known, and so they
/// are of the sorts of those that are known behind it.
pub fn scoped_items_follow_known()
    ensures names { (known : List Exported) (m : Module Text) (r : ScopedModule) → scoped_module known m ≡ Ok r → all_names r.items ≡ map (as_written (around known m)) (all_names m.items) }
    ensures first { (known : List Exported) (m : Module Text) (r : ScopedModule) → scoped_module known m ≡ Ok r → r.first ≡ length (known_sorts known) }
    ensures sorts { (known : List Exported) (m : Module Text) (r : ScopedModule) → scoped_module known m ≡ Ok r → known_sorts (with_module known m) ≡ known_sorts known ++ sorts (all_names r.items) }
{}

/// In a module whose scope is known no two Core items have one name, those that its datatypes generate counted, in its text and as written.
pub fn item_names_differ()
    ensures text { (known : List Exported) (m : Module Text) (r : ScopedModule) → scoped_module known m ≡ Ok r → IsDistinct bytes_eq (texts (all_names m.items)) }
    ensures written { (known : List Exported) (m : Module Text) (r : ScopedModule) → scoped_module known m ≡ Ok r → IsDistinct bytes_eq (texts (all_names r.items)) }
{}

/// The names of a module are parts of words of Core text: those of its text's tokens are, and so those of the module that it says, of its Core items, and of
/// these as written. Where names stand in a table, a module's are where those of its name tokens are.
pub fn names_are_parts_of_words()
    ensures tokens { (text : List ℕ) (ts : List TextToken) → IsUtf8 text → lexed text ≡ Ok ts → AreCalled IsPartOfWord (map (called text) ts) }
    ensures text { (text : List ℕ) (ts : List TextToken) (g : Given Text) (m : Module Text) → IsUtf8 text → lexed text ≡ Ok ts → Says g (map (called text) ts) m → AllNames IsPartOfWord m }
    ensures table { (g : Given ℕ) (ts : List (Token ℕ)) (m : Module ℕ) → AreCalled (λ n. IsPartOfWord (g.text n)) ts → Says g ts m → AllNames (λ n. IsPartOfWord (g.text n)) m }
    ensures items { (m : Module Text) → AllNames IsPartOfWord m → AllByRecursion IsPartOfWord (texts (all_names m.items)) }
    ensures written { (known : List Exported) (m : Module Text) (r : ScopedModule) → AllNames IsPartOfWord m → scoped_module known m ≡ Ok r → AllByRecursion IsPartOfWord (texts (all_names r.items)) }
{}
