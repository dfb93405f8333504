//! The laws of the surface rules. Each is the contract of a function with an empty body.
ghost use Rattle.cdle_model.specs.Classes.{AreScoped, item_sorts, kinds, terms, types};
ghost use Rattle.cdle_model.specs.Derivation.{AreDerived, Entry, Has, Judgement, a_kind, a_term, a_type, bodies, signature};
ghost use Rattle.cdle_model.specs.Erasure.{erased};
ghost use Rattle.cdle_model.specs.Fitting.{HaveErasures, entry_sorts};
ghost use Rattle.cdle_model.specs.Forms.{Written, star};
ghost use Rattle.cdle_model.specs.Steps.{Joined};
ghost use Rattle.cdle_model.specs.Trees.{Tree, shift};
ghost use Rattle.elab_model.specs.Derived.{ContextDerived, erased_context};
ghost use Rattle.elab_model.specs.Instances.{IsInstance, Solution, instance};
ghost use Rattle.elab_model.specs.Items.{EraseTo, IsItemOf, NamesDiffer, SourceItemFits, SourceItemsFit, item_of_source, items_in, items_of_modules, items_of_source, names_of};
ghost use Rattle.elab_model.specs.Questions.{Env, Finding, answer, found, out_of_scope, spent_at};
ghost use Rattle.elab_model.specs.Rules.{check, infer, kind, term, type};
ghost use Rattle.scope_model.specs.Scoped.{Scoped, ScopedItem, ScopedModule};
ghost use Rattle.elab_model.specs.SoundTrees.{Sound};
ghost use Rattle.elab_model.specs.Soundness.{AreEncodings, ContextSound, EncodingsFit, EnvSound, no_encodings};
ghost use Rattle.source_model.specs.Source.{Span};
ghost use Rattle.elab_model.specs.SourceClasses.{SourceFits};
ghost use Rattle.elab_model.specs.SourceErasure.{Encodings, source_erased};
ghost use Rattle.elab_model.specs.Spines.{Typed};
ghost use Rattle.std.specs.Prelude.{◌+◌, ◌++◌, ◌≡◌, ◌∷◌, List, Some, ℕ};

/// An answer of the surface rules other than spent is the answer at each larger budget.
pub fn larger_budget_keeps_rules()
    ensures inferred { (e : Env) (f : Encodings) (c : List Entry) (t : Scoped) (n more : ℕ) (r : Finding Typed) → answer e n (infer e f c t (term e f c t)) ≡ r → ((p : Span) → r ≡ spent_at p → ⊥) → answer e (n + more) (infer e f c t (term e f c t)) ≡ r }
    ensures checked { (e : Env) (f : Encodings) (c : List Entry) (t : Scoped) (a : Tree) (n more : ℕ) (r : Finding Tree) → answer e n (check e f c t (term e f c t) a) ≡ r → ((p : Span) → r ≡ spent_at p → ⊥) → answer e (n + more) (check e f c t (term e f c t) a) ≡ r }
    ensures kinded { (e : Env) (f : Encodings) (c : List Entry) (t : Scoped) (n more : ℕ) (r : Finding Typed) → answer e n (type e f c t) ≡ r → ((p : Span) → r ≡ spent_at p → ⊥) → answer e (n + more) (type e f c t) ≡ r }
    ensures a_kind { (e : Env) (f : Encodings) (c : List Entry) (t : Scoped) (n more : ℕ) (r : Finding Tree) → answer e n (kind e f c t) ≡ r → ((p : Span) → r ≡ spent_at p → ⊥) → answer e (n + more) (kind e f c t) ≡ r }
    ensures item { (e : Env) (f : Encodings) (i : ScopedItem) (n more : ℕ) (r : Finding Written) → answer e n (item_of_source e f i) ≡ r → ((p : Span) → r ≡ spent_at p → ⊥) → answer e (n + more) (item_of_source e f i) ≡ r }
    ensures items { (e : Env) (f : Encodings) (is : List ScopedItem) (n more : ℕ) (r : Finding (List Written)) → items_of_source n e f is ≡ r → ((p : Span) → r ≡ spent_at p → ⊥) → items_of_source (n + more) e f is ≡ r }
    ensures modules { (e : Env) (f : Encodings) (ms : List ScopedModule) (n more : ℕ) (r : Finding (List Written)) → items_of_modules n e f ms ≡ r → ((p : Span) → r ≡ spent_at p → ⊥) → items_of_modules (n + more) e f ms ≡ r }
{}

/// What is given is of its class over the context and has an erasure.
pub fn given_is_of_its_class()
    ensures inferred { (e : Env) (f : Encodings) → EnvSound e → EncodingsFit (item_sorts e.items) f → (c : List Entry) (t : Scoped) → ContextSound (item_sorts e.items) c → SourceFits (entry_sorts c) (item_sorts e.items) terms t
        → (n : ℕ) (x : Typed) → answer e n (infer e f c t (term e f c t)) ≡ found x → Sound (item_sorts e.items) (entry_sorts c) terms x.0 × Sound (item_sorts e.items) (entry_sorts c) types x.1 }
    ensures checked { (e : Env) (f : Encodings) → EnvSound e → EncodingsFit (item_sorts e.items) f → (c : List Entry) (t : Scoped) (a : Tree) → ContextSound (item_sorts e.items) c → SourceFits (entry_sorts c) (item_sorts e.items) terms t
        → Sound (item_sorts e.items) (entry_sorts c) types a → (n : ℕ) (x : Tree) → answer e n (check e f c t (term e f c t) a) ≡ found x → Sound (item_sorts e.items) (entry_sorts c) terms x }
    ensures kinded { (e : Env) (f : Encodings) → EnvSound e → EncodingsFit (item_sorts e.items) f → (c : List Entry) (t : Scoped) → ContextSound (item_sorts e.items) c → SourceFits (entry_sorts c) (item_sorts e.items) types t
        → (n : ℕ) (x : Typed) → answer e n (type e f c t) ≡ found x → Sound (item_sorts e.items) (entry_sorts c) types x.0 × Sound (item_sorts e.items) (entry_sorts c) kinds x.1 }
    ensures a_kind { (e : Env) (f : Encodings) → EnvSound e → EncodingsFit (item_sorts e.items) f → (c : List Entry) (t : Scoped) → ContextSound (item_sorts e.items) c → SourceFits (entry_sorts c) (item_sorts e.items) kinds t
        → (n : ℕ) (k : Tree) → answer e n (kind e f c t) ≡ found k → Sound (item_sorts e.items) (entry_sorts c) kinds k }
{}

/// What is given erases to the source's erasure, where there are no constructors.
pub fn given_erases_to_source()
    ensures inferred { (e : Env) → EnvSound e → (c : List Entry) (t : Scoped) → ContextSound (item_sorts e.items) c → SourceFits (entry_sorts c) (item_sorts e.items) terms t
        → (n : ℕ) (x : Typed) → answer e n (infer e no_encodings c t (term e no_encodings c t)) ≡ found x → erased x.0 ≡ source_erased no_encodings t }
    ensures checked { (e : Env) → EnvSound e → (c : List Entry) (t : Scoped) (a : Tree) → ContextSound (item_sorts e.items) c → SourceFits (entry_sorts c) (item_sorts e.items) terms t → Sound (item_sorts e.items) (entry_sorts c) types a
        → (n : ℕ) (x : Tree) → answer e n (check e no_encodings c t (term e no_encodings c t) a) ≡ found x → erased x ≡ source_erased no_encodings t }
    ensures kinded { (e : Env) → EnvSound e → (c : List Entry) (t : Scoped) → ContextSound (item_sorts e.items) c → SourceFits (entry_sorts c) (item_sorts e.items) types t
        → (n : ℕ) (x : Typed) → answer e n (type e no_encodings c t) ≡ found x → erased x.0 ≡ source_erased no_encodings t }
    ensures a_kind { (e : Env) → EnvSound e → (c : List Entry) (t : Scoped) → ContextSound (item_sorts e.items) c → SourceFits (entry_sorts c) (item_sorts e.items) kinds t
        → (n : ℕ) (k : Tree) → answer e n (kind e no_encodings c t) ≡ found k → erased k ≡ source_erased no_encodings t }
{}

/// What is given erases joined to the source's erasure, in which each constructor stands as its encoding.
pub fn given_erases_joined()
    ensures inferred { (e : Env) (f : Encodings) → EnvSound e → EncodingsFit (item_sorts e.items) f → AreEncodings e f → (c : List Entry) (t : Scoped) → ContextSound (item_sorts e.items) c → SourceFits (entry_sorts c) (item_sorts e.items) terms t
        → (n : ℕ) (x : Typed) → answer e n (infer e f c t (term e f c t)) ≡ found x → Joined (bodies (signature e.items)) (erased x.0) (source_erased f t) }
    ensures checked { (e : Env) (f : Encodings) → EnvSound e → EncodingsFit (item_sorts e.items) f → AreEncodings e f → (c : List Entry) (t : Scoped) (a : Tree) → ContextSound (item_sorts e.items) c → SourceFits (entry_sorts c) (item_sorts e.items) terms t
        → Sound (item_sorts e.items) (entry_sorts c) types a → (n : ℕ) (x : Tree) → answer e n (check e f c t (term e f c t) a) ≡ found x → Joined (bodies (signature e.items)) (erased x) (source_erased f t) }
    ensures kinded { (e : Env) (f : Encodings) → EnvSound e → EncodingsFit (item_sorts e.items) f → AreEncodings e f → (c : List Entry) (t : Scoped) → ContextSound (item_sorts e.items) c → SourceFits (entry_sorts c) (item_sorts e.items) types t
        → (n : ℕ) (x : Typed) → answer e n (type e f c t) ≡ found x → Joined (bodies (signature e.items)) (erased x.0) (source_erased f t) }
    ensures a_kind { (e : Env) (f : Encodings) → EnvSound e → EncodingsFit (item_sorts e.items) f → AreEncodings e f → (c : List Entry) (t : Scoped) → ContextSound (item_sorts e.items) c → SourceFits (entry_sorts c) (item_sorts e.items) kinds t
        → (n : ℕ) (k : Tree) → answer e n (kind e f c t) ≡ found k → Joined (bodies (signature e.items)) (erased k) (source_erased f t) }
{}

/// What is given has a derivation by Core's rules, in a context that is derived: a term at its type or at the type asked for, a type at its kind.
pub fn given_has_derivation()
    ensures inferred { (e : Env) (f : Encodings) → EnvSound e → AreDerived e.items → EncodingsFit (item_sorts e.items) f → (c : List Entry) (t : Scoped) → ContextSound (item_sorts e.items) c → ContextDerived (signature e.items) c
        → SourceFits (entry_sorts c) (item_sorts e.items) terms t → (n : ℕ) (x : Typed) → answer e n (infer e f c t (term e f c t)) ≡ found x
        → Has (signature e.items) a_term (erased_context c) x.0 (erased x.1) × Has (signature e.items) a_type (erased_context c) x.1 star }
    ensures checked { (e : Env) (f : Encodings) → EnvSound e → AreDerived e.items → EncodingsFit (item_sorts e.items) f → (c : List Entry) (t : Scoped) (a : Tree) → ContextSound (item_sorts e.items) c → ContextDerived (signature e.items) c
        → SourceFits (entry_sorts c) (item_sorts e.items) terms t → Sound (item_sorts e.items) (entry_sorts c) types a → Has (signature e.items) a_type (erased_context c) a star
        → (n : ℕ) (x : Tree) → answer e n (check e f c t (term e f c t) a) ≡ found x → Has (signature e.items) a_term (erased_context c) x (erased a) }
    ensures kinded { (e : Env) (f : Encodings) → EnvSound e → AreDerived e.items → EncodingsFit (item_sorts e.items) f → (c : List Entry) (t : Scoped) → ContextSound (item_sorts e.items) c → ContextDerived (signature e.items) c
        → SourceFits (entry_sorts c) (item_sorts e.items) types t → (n : ℕ) (x : Typed) → answer e n (type e f c t) ≡ found x
        → Has (signature e.items) a_type (erased_context c) x.0 (erased x.1) × Has (signature e.items) a_kind (erased_context c) x.1 star }
    ensures a_kind { (e : Env) (f : Encodings) → EnvSound e → AreDerived e.items → EncodingsFit (item_sorts e.items) f → (c : List Entry) (t : Scoped) → ContextSound (item_sorts e.items) c → ContextDerived (signature e.items) c
        → SourceFits (entry_sorts c) (item_sorts e.items) kinds t → (n : ℕ) (k : Tree) → answer e n (kind e f c t) ≡ found k → Has (signature e.items) a_kind (erased_context c) k star }
{}

/// The item that is given for a definition may stand behind the items so far: it has the source's name, is over them, has erasures and a derivation, and
/// erases to the source, in which each constructor stands as its encoding.
pub fn given_item_has_derivation()
    ensures equal { (e : Env) → EnvSound e → AreDerived e.items → (i : ScopedItem) → SourceItemFits (item_sorts e.items) i
        → (n : ℕ) (w : Written) → answer e n (item_of_source e no_encodings i) ≡ found w → IsItemOf (λ a b. a ≡ b) e no_encodings i w }
    ensures joined { (e : Env) (f : Encodings) → EnvSound e → AreDerived e.items → EncodingsFit (item_sorts e.items) f → AreEncodings e f → (i : ScopedItem) → SourceItemFits (item_sorts e.items) i
        → (n : ℕ) (w : Written) → answer e n (item_of_source e f i) ≡ found w → IsItemOf (Joined (bodies (signature e.items))) e f i w }
{}

/// The items that are given for a list of definitions, behind the items so far, are a list of items that has a derivation, and each erases to its source.
/// Those of modules one after the other are those of all their definitions as one list.
pub fn given_items_have_derivation()
    ensures derived { (n : ℕ) (e : Env) → EnvSound e → AreDerived e.items → (is : List ScopedItem) → SourceItemsFit (item_sorts e.items) is → NamesDiffer (names_of e.items) is
        → (ws : List Written) → items_of_source n e no_encodings is ≡ found ws → AreScoped (e.items ++ ws) × HaveErasures (e.items ++ ws) × AreDerived (e.items ++ ws) }
    ensures erase { (n : ℕ) (e : Env) → EnvSound e → AreDerived e.items → (is : List ScopedItem) → SourceItemsFit (item_sorts e.items) is → NamesDiffer (names_of e.items) is
        → (ws : List Written) → items_of_source n e no_encodings is ≡ found ws → EraseTo (λ a b. a ≡ b) no_encodings is ws }
    ensures modules { (n : ℕ) (e : Env) (f : Encodings) (ms : List ScopedModule) → items_of_modules n e f ms ≡ items_of_source n e f (items_in ms) }
{}

/// A tree that does not use the innermost variable of a derivation has one without it.
pub fn derivations_are_strengthened()
    ensures { (ws : List Written) → AreScoped ws → (j : Judgement) (e : Entry) (c : List Entry) (t a : Tree) → Has (signature ws) j (e ∷ c) (shift 0 1 t) a → (b : Tree) × Has (signature ws) j c t b }
{}

/// The function finds an instance exactly where there is one, and it is that one.
pub fn instance_is_found()
    ensures found { (os : Solution) (p t : Tree) (s : Solution) → instance os p t ≡ Some s → IsInstance os p t s }
    ensures all { (os : Solution) (p t : Tree) (s : Solution) → IsInstance os p t s → instance os p t ≡ Some s }
{}

/// A scoped tree of its class always has an answer: something is given, or there is a refusal, spent units or depth, each at its place.
pub fn there_is_always_an_answer()
    ensures inferred { (e : Env) (f : Encodings) → EnvSound e → AreDerived e.items → EncodingsFit (item_sorts e.items) f → (c : List Entry) (t : Scoped) → ContextSound (item_sorts e.items) c → SourceFits (entry_sorts c) (item_sorts e.items) terms t
        → (n : ℕ) → answer e n (infer e f c t (term e f c t)) ≡ out_of_scope → ⊥ }
    ensures checked { (e : Env) (f : Encodings) → EnvSound e → AreDerived e.items → EncodingsFit (item_sorts e.items) f → (c : List Entry) (t : Scoped) (a : Tree) → ContextSound (item_sorts e.items) c → SourceFits (entry_sorts c) (item_sorts e.items) terms t
        → Sound (item_sorts e.items) (entry_sorts c) types a → (n : ℕ) → answer e n (check e f c t (term e f c t) a) ≡ out_of_scope → ⊥ }
    ensures kinded { (e : Env) (f : Encodings) → EnvSound e → AreDerived e.items → EncodingsFit (item_sorts e.items) f → (c : List Entry) (t : Scoped) → ContextSound (item_sorts e.items) c → SourceFits (entry_sorts c) (item_sorts e.items) types t
        → (n : ℕ) → answer e n (type e f c t) ≡ out_of_scope → ⊥ }
    ensures a_kind { (e : Env) (f : Encodings) → EnvSound e → AreDerived e.items → EncodingsFit (item_sorts e.items) f → (c : List Entry) (t : Scoped) → ContextSound (item_sorts e.items) c → SourceFits (entry_sorts c) (item_sorts e.items) kinds t
        → (n : ℕ) → answer e n (kind e f c t) ≡ out_of_scope → ⊥ }
    ensures item { (e : Env) (f : Encodings) → EnvSound e → AreDerived e.items → EncodingsFit (item_sorts e.items) f → (i : ScopedItem) → SourceItemFits (item_sorts e.items) i
        → (n : ℕ) → answer e n (item_of_source e f i) ≡ out_of_scope → ⊥ }
{}
