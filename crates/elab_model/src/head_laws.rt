//! The laws of head forms of annotated types. Each is the contract of a function with an empty body.
ghost use Rattle.std.specs.Prelude.{◌≡◌, ◌⊎◌, ◌≤◌, ◌+◌, ℕ, Bool, true, List};
ghost use Rattle.cdle_model.specs.Classes.{AreScoped, Fits, item_sorts, types, within};
ghost use Rattle.cdle_model.specs.Derivation.{AreDerived, Entry, Has, a_type, bodies, signature};
ghost use Rattle.cdle_model.specs.Erasure.{HasErasure, erased};
ghost use Rattle.cdle_model.specs.Fitting.{HaveErasures};
ghost use Rattle.cdle_model.specs.Forms.{Written};
ghost use Rattle.cdle_model.specs.HeadForms.{Halt, HeadAnswer, deep, deepest, head_form, no_value, none, value};
ghost use Rattle.cdle_model.specs.Depth.{depth};
ghost use Rattle.cdle_model.specs.Machine.{answered, spent};
ghost use Rattle.cdle_model.specs.Steps.{Joined};
ghost use Rattle.cdle_model.specs.Trees.{Tree, leaf, name, unknown};
ghost use Rattle.cdle_model.specs.declared.grammar.Sort.{Sort};
ghost use Rattle.elab_model.specs.HeadWritten.{Unfolding, all_but, all_names, head_written, written_step};
ghost use Rattle.elab_model.specs.Unknowns.{FitsOpen};

/// An answer other than spent is the answer at each larger budget, with as many more units left.
pub fn larger_budget_keeps_head()
    ensures { (u : Unfolding) (n : ℕ) (a : Tree) (x : HeadAnswer) (left more : ℕ) → head_written u n a ≡ answered x left → head_written u (n + more) a ≡ answered x (left + more) }
{}

/// A head form has no step at its head, and is no deeper than a tree may be.
pub fn head_has_no_step()
    ensures { (u : Unfolding) (n : ℕ) (a h : Tree) (left : ℕ) → head_written u n a ≡ answered (value h) left → (written_step u h ≡ none) × (depth h ≤ deepest) }
{}

/// A name that is kept, and an unknown, is its own head form, for no unit.
pub fn kept_name_is_head()
    ensures kept { (ws : List Written) (kept : ℕ → Bool) (i n : ℕ) → kept i ≡ true → head_written (all_but kept ws) n (name i) ≡ answered (value (name i)) n }
    ensures unknown { (u : Unfolding) (i n : ℕ) → head_written u n (leaf (unknown i)) ≡ answered (value (leaf (unknown i))) n }
{}

/// A head form erases to what is joined with the type's erasure.
pub fn head_is_joined()
    ensures { (ws : List Written) → AreScoped ws → (kept : ℕ → Bool) (n : ℕ) (t h : Tree) (left : ℕ) → head_written (all_but kept ws) n t ≡ answered (value h) left → Joined (bodies (signature ws)) (erased t) (erased h) }
{}

/// The units are those of the erasure: a head form erases to what stands on the way to the erasure's head form with as many units left, and, where
/// every name unfolds, to that head form itself; where the units are spent, the erasure spends them too. An erasure's head form is found, but where the
/// annotated tree is too deep.
pub fn head_erases()
    ensures onward { (ws : List Written) → AreScoped ws → HaveErasures ws → (vs : List Sort) (t : Tree) → FitsOpen (within vs (item_sorts ws)) types t → HasErasure t → (kept : ℕ → Bool) (n : ℕ) (h : Tree) (left more : ℕ) → head_written (all_but kept ws) n t ≡ answered (value h) left → head_form (bodies (signature ws)) (n + more) (erased t) ≡ head_form (bodies (signature ws)) (left + more) (erased h) }
    ensures exact { (ws : List Written) → AreScoped ws → HaveErasures ws → (vs : List Sort) (t : Tree) → FitsOpen (within vs (item_sorts ws)) types t → HasErasure t → (n : ℕ) (h : Tree) (left : ℕ) → head_written (all_names ws) n t ≡ answered (value h) left → head_form (bodies (signature ws)) n (erased t) ≡ answered (value (erased h)) left }
    ensures spent { (ws : List Written) → AreScoped ws → HaveErasures ws → (vs : List Sort) (t : Tree) → FitsOpen (within vs (item_sorts ws)) types t → HasErasure t → (kept : ℕ → Bool) (n : ℕ) → head_written (all_but kept ws) n t ≡ spent → head_form (bodies (signature ws)) n (erased t) ≡ spent }
    ensures found { (ws : List Written) → AreScoped ws → HaveErasures ws → (vs : List Sort) (t : Tree) → FitsOpen (within vs (item_sorts ws)) types t → HasErasure t → (n : ℕ) (b : Tree) (left : ℕ) → head_form (bodies (signature ws)) n (erased t) ≡ answered (value b) left → ((h : Tree) × (head_written (all_names ws) n t ≡ answered (value h) left) × (erased h ≡ b)) ⊎ ((more : ℕ) × (head_written (all_names ws) n t ≡ answered (no_value deep) more)) }
    ensures deep { (ws : List Written) → AreScoped ws → HaveErasures ws → (vs : List Sort) (t : Tree) → FitsOpen (within vs (item_sorts ws)) types t → HasErasure t → (kept : ℕ → Bool) (n : ℕ) (z : Halt) (left : ℕ) → head_written (all_but kept ws) n t ≡ answered (no_value z) left → z ≡ deep }
{}

/// A head form is of the class of the type, in the same scope, and has an erasure, with unknowns or without.
pub fn head_keeps_class()
    ensures with_unknowns { (ws : List Written) → AreScoped ws → HaveErasures ws → (vs : List Sort) (t : Tree) → FitsOpen (within vs (item_sorts ws)) types t → HasErasure t → (kept : ℕ → Bool) (n : ℕ) (h : Tree) (left : ℕ) → head_written (all_but kept ws) n t ≡ answered (value h) left → FitsOpen (within vs (item_sorts ws)) types h × HasErasure h }
    ensures whole { (ws : List Written) → AreScoped ws → HaveErasures ws → (vs : List Sort) (t : Tree) → Fits (within vs (item_sorts ws)) types t → HasErasure t → (kept : ℕ → Bool) (n : ℕ) (h : Tree) (left : ℕ) → head_written (all_but kept ws) n t ≡ answered (value h) left → Fits (within vs (item_sorts ws)) types h × HasErasure h }
{}

/// A head form of an annotated type that has a kind has that kind, over items that have a derivation.
pub fn head_keeps_kind()
    ensures { (ws : List Written) → AreScoped ws → AreDerived ws → (kept : ℕ → Bool) (c : List Entry) (t k : Tree) → Has (signature ws) a_type c t k → (n : ℕ) (h : Tree) (left : ℕ) → head_written (all_but kept ws) n t ≡ answered (value h) left → Has (signature ws) a_type c h k }
{}
