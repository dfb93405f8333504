//! What holds of a module that the grammar says and whose scope is known, as long as it has no form that is not built. Each law is the contract of a function
//! with an empty body.
ghost use Rattle.std.specs.Prelude.{◌≡◌, ◌++◌, ℕ, List, [], false, map, None, Ok};
ghost use Rattle.std.specs.List.{AllByRecursion};
ghost use Rattle.std.specs.Str.{IsUtf8, bytes_eq};
ghost use Rattle.cdle_model.specs.declared.grammar.Sort.{Sort};
ghost use Rattle.elab_model.specs.Items.{NamesDiffer, SourceItemsFit, source_name, source_sort};
ghost use Rattle.scope_model.specs.ItemNames.{AllNames, AreCalled, called};
ghost use Rattle.scope_model.specs.Scope.{all_names, scoped_module, with_module};
ghost use Rattle.scope_model.specs.ScopeFits.{AreNumbered, known_sorts, sorts};
ghost use Rattle.scope_model.specs.ScopeNames.{Exported, Text};
ghost use Rattle.scope_model.specs.Scoped.{ScopedItem, ScopedModule};
ghost use Rattle.source_model.specs.Grammar.{Token};
ghost use Rattle.source_model.specs.Parsing.{Given};
ghost use Rattle.source_model.specs.Source.{Module};
ghost use Rattle.source_model.specs.SurfaceText.{Says};
ghost use Rattle.source_model.specs.SurfaceTokens.{TextToken, lexed};
ghost use Rattle.build_model.specs.ModuleNames.{has_dot, known_names};
ghost use Rattle.build_model.specs.Renamed.{renamed_module};
ghost use Rattle.build_model.specs.Unbuilt.{unbuilt_items};

/// Each part of its items is of its class, and uses each variable and each item in its class; also where its tokens are called by the numbers of a table. Where
/// something is unbuilt this holds over no items, so what is refused for that is only what the surface rules say nothing of.
pub fn said_module_fits()
    ensures text { (g : Given Text) (ts : List (Token Text)) (m : Module Text) (known : List Exported) (r : ScopedModule) → Says g ts m → AreNumbered 0 known → scoped_module known m ≡ Ok r → unbuilt_items r.items ≡ None → SourceItemsFit (known_sorts known) r.items }
    ensures table { (g : Given ℕ) (ts : List (Token ℕ)) (m : Module ℕ) (text : ℕ → Text) (known : List Exported) (r : ScopedModule) → Says g ts m → AreNumbered 0 known → scoped_module known (renamed_module text m) ≡ Ok r → unbuilt_items r.items ≡ None
        → SourceItemsFit (known_sorts known) r.items }
    ensures only { (g : Given Text) (ts : List (Token Text)) (m : Module Text) (known : List Exported) (r : ScopedModule) (xs : List Sort) → Says g ts m → scoped_module known m ≡ Ok r → SourceItemsFit xs r.items → unbuilt_items r.items ≡ None }
{}

/// No two of its items have one name, and none has that of an item of the modules before it, where no name of a module has a dot.
pub fn scoped_names_differ()
    ensures alone { (known : List Exported) (m : Module Text) (r : ScopedModule) → scoped_module known m ≡ Ok r → unbuilt_items r.items ≡ None → NamesDiffer [] r.items }
    ensures behind { (known : List Exported) (m : Module Text) (r : ScopedModule) → AllByRecursion (λ x. bytes_eq x.name m.name ≡ false) known → AllByRecursion (λ x. has_dot x.name ≡ false) known → has_dot m.name ≡ false
        → scoped_module known m ≡ Ok r → unbuilt_items r.items ≡ None → NamesDiffer (known_names known) r.items }
{}

/// Each of its items is one Core item, with its sort and its name. So these follow those of the modules before it.
pub fn scoped_sorts_follow()
    ensures items { (is : List ScopedItem) → unbuilt_items is ≡ None → map source_sort is ≡ sorts (all_names is) }
    ensures sorts { (known : List Exported) (m : Module Text) (r : ScopedModule) → scoped_module known m ≡ Ok r → unbuilt_items r.items ≡ None → known_sorts (with_module known m) ≡ known_sorts known ++ map source_sort r.items }
    ensures names { (known : List Exported) (m : Module Text) (r : ScopedModule) → scoped_module known m ≡ Ok r → unbuilt_items r.items ≡ None → known_names (with_module known m) ≡ known_names known ++ map source_name r.items }
{}

/// What holds of items behind some, and of others behind those, holds of both as one list: so it is told of several modules by one after the other.
pub fn items_stand_together()
    ensures fit { (xs : List Sort) (is js : List ScopedItem) → SourceItemsFit xs is → SourceItemsFit (xs ++ map source_sort is) js → SourceItemsFit xs (is ++ js) }
    ensures differ { (xs : List Text) (is js : List ScopedItem) → NamesDiffer xs is → NamesDiffer (xs ++ map source_name is) js → NamesDiffer xs (is ++ js) }
{}

/// No name of a text has a dot: those of its tokens have none, and so the name of the module that it says, and those that its items write. Where names stand in
/// a table, a module's are where those of its name tokens are.
pub fn names_have_no_dot()
    ensures tokens { (text : List ℕ) (ts : List TextToken) → IsUtf8 text → lexed text ≡ Ok ts → AreCalled (λ w. has_dot w ≡ false) (map (called text) ts) }
    ensures text { (text : List ℕ) (ts : List TextToken) (g : Given Text) (m : Module Text) → IsUtf8 text → lexed text ≡ Ok ts → Says g (map (called text) ts) m → AllNames (λ w. has_dot w ≡ false) m }
    ensures table { (g : Given ℕ) (ts : List (Token ℕ)) (m : Module ℕ) → AreCalled (λ n. has_dot (g.text n) ≡ false) ts → Says g ts m → AllNames (λ n. has_dot (g.text n) ≡ false) m }
{}
