//! The laws of derivations of annotated trees, with and without unknowns. Each is the contract of a function with an empty body.
ghost use Rattle.std.specs.Prelude.{◌≡◌, ℕ, suc, Bool, List, [], ◌∷◌, ◌++◌, Some, length};
ghost use Rattle.cdle_model.specs.Classes.{AreScoped, Fits, Scope, TreeClass, types, within};
ghost use Rattle.cdle_model.specs.Derivation.{AreDerived, Entry, Has, Judgement, a_kind, a_term, a_type, bodies, signature, term_of, type_of};
ghost use Rattle.cdle_model.specs.Erasure.{HasErasure, erased};
ghost use Rattle.cdle_model.specs.Forms.{Written, all, allt, app, eapp, eq, iota, pi, star, tapp};
ghost use Rattle.cdle_model.specs.HeadForms.{value};
ghost use Rattle.cdle_model.specs.Machine.{answered};
ghost use Rattle.cdle_model.specs.Steps.{Joined};
ghost use Rattle.cdle_model.specs.Substitution.{put_written};
ghost use Rattle.cdle_model.specs.Trees.{Binder, Tree, bind, leaf, put, shift, unknown};
ghost use Rattle.elab_model.specs.HeadExamples.{product};
ghost use Rattle.elab_model.specs.HeadWritten.{all_but, head_written};
ghost use Rattle.elab_model.specs.OpenDerivations.{Agrees, AreOfKinds, AreWhole, Found, HasOpen, SpineHas, so_far};
ghost use Rattle.cdle_model.specs.declared.grammar.Sort.{Sort};
ghost use Rattle.elab_model.specs.SoundTrees.{IsWritten, written_class};
ghost use Rattle.elab_model.specs.Unknowns.{FitsOpen, Types, above, erased_types, fill, fill_written};

/// What types a kind `*` are made of: the parts of a product, an intersection or a quantification have derivations.
pub fn parts_have_derivations()
    ensures pi { (ws : List Written) (c : List Entry) (a b k : Tree) → Has (signature ws) a_type c (pi a b) k → Has (signature ws) a_type c a star × Has (signature ws) a_type (term_of (erased a) ∷ c) b star }
    ensures all { (ws : List Written) (c : List Entry) (a b k : Tree) → Has (signature ws) a_type c (all a b) k → Has (signature ws) a_type c a star × Has (signature ws) a_type (term_of (erased a) ∷ c) b star }
    ensures iota { (ws : List Written) (c : List Entry) (a b k : Tree) → Has (signature ws) a_type c (iota a b) k → Has (signature ws) a_type c a star × Has (signature ws) a_type (term_of (erased a) ∷ c) b star }
    ensures allt { (ws : List Written) (c : List Entry) (a b k : Tree) → Has (signature ws) a_type c (allt a b) k → Has (signature ws) a_kind c a star × Has (signature ws) a_type (type_of (erased a) ∷ c) b star }
{}

/// Two forms with a binder that are joined have joined parts, and so have two equations.
pub fn parts_are_joined()
    ensures binders { (ws : List Written) → AreScoped ws → (f : Binder) (a b p q : Tree) → Joined (bodies (signature ws)) (bind f a b) (bind f p q) → Joined (bodies (signature ws)) a p × Joined (bodies (signature ws)) b q }
    ensures equations { (ws : List Written) → AreScoped ws → (a b p q : Tree) → Joined (bodies (signature ws)) (eq a b) (eq p q) → Joined (bodies (signature ws)) a p × Joined (bodies (signature ws)) b q }
{}

/// A derivation stands over more items and under one more variable, and a term or a type may be put for the innermost variable of it.
pub fn derivations_are_kept()
    ensures more_items { (ws vs : List Written) (j : Judgement) (c : List Entry) (t a : Tree) → Has (signature ws) j c t a → Has (signature (ws ++ vs)) j c t a }
    ensures under { (ws : List Written) → AreScoped ws → (j : Judgement) (e : Entry) (c : List Entry) (t a : Tree) → Has (signature ws) j c t a → Has (signature ws) j (e ∷ c) (shift 0 1 t) (shift 0 1 a) }
    ensures of_term { (ws : List Written) → AreScoped ws → (j : Judgement) (c : List Entry) (a u t b : Tree) → Has (signature ws) a_term c u a → Has (signature ws) j (term_of a ∷ c) t b → Has (signature ws) j c (put_written 0 u t) (put 0 (erased u) b) }
    ensures of_type { (ws : List Written) → AreScoped ws → (j : Judgement) (c : List Entry) (k u t b : Tree) → Has (signature ws) a_type c u k → Has (signature ws) j (type_of k ∷ c) t b → Has (signature ws) j c (put_written 0 u t) (put 0 (erased u) b) }
{}

/// Types put for unknowns commute with erasure and with what is put for a variable; in a tree of a class there are none.
pub fn unknowns_are_filled()
    ensures erased { (f : Types) (t : Tree) → erased (fill_written f t) ≡ fill (erased_types f) (erased t) }
    ensures put { (f : Types) (a t : Tree) → fill_written f (put_written 0 a t) ≡ put_written 0 (fill_written f a) (fill_written (above f) t) }
    ensures whole { (s : Scope) (c : TreeClass) (f : Types) (t : Tree) → Fits s c t → fill_written f t ≡ t }
    ensures twice { (f g : Types) (t : Tree) → fill_written f (fill_written g t) ≡ fill_written (λ n. fill_written f (g n)) t }
{}

/// The steps of a spine keep its derivation, whatever types of their kinds are put for its unknowns; at its end the types that were found are put.
pub fn spine_has_derivation()
    ensures begins { (ws : List Written) (c : List Entry) (s : Found) (t a : Tree) → ((f : Types) → fill_written f t ≡ t) → ((f : Types) → fill_written f a ≡ a) → Has (signature ws) a_term c t (erased a) → Has (signature ws) a_type c a star → SpineHas (signature ws) c [] s t a }
    ensures headed { (ws : List Written) → AreScoped ws → AreDerived ws → (c : List Entry) (ks : List Tree) (s : Found) (t a h : Tree) (kept : ℕ → Bool) (n left : ℕ) → head_written (all_but kept ws) n a ≡ answered (value h) left → SpineHas (signature ws) c ks s t a → SpineHas (signature ws) c ks s t h }
    ensures left_out { (ws : List Written) → AreScoped ws → (c : List Entry) (ks : List Tree) (s : Found) (t k b : Tree) → SpineHas (signature ws) c ks s t (allt k b) → SpineHas (signature ws) c (ks ++ (k ∷ [])) s (tapp t (leaf (unknown (length ks)))) (put_written 0 (leaf (unknown (length ks))) b) }
    ensures kept { (ws : List Written) → AreScoped ws → (c : List Entry) (ks : List Tree) (s : Found) (t u a b : Tree) → SpineHas (signature ws) c ks s t (pi a b) → HasOpen (signature ws) c ks s a_term u a → SpineHas (signature ws) c ks s (app t u) (put_written 0 u b) }
    ensures erased { (ws : List Written) → AreScoped ws → (c : List Entry) (ks : List Tree) (s : Found) (t u a b : Tree) → SpineHas (signature ws) c ks s t (all a b) → HasOpen (signature ws) c ks s a_term u a → SpineHas (signature ws) c ks s (eapp t u) (put_written 0 u b) }
    ensures of_type { (ws : List Written) → AreScoped ws → (c : List Entry) (ks : List Tree) (s : Found) (t u k b : Tree) → SpineHas (signature ws) c ks s t (allt k b) → HasOpen (signature ws) c ks s a_type u k → SpineHas (signature ws) c ks s (tapp t u) (put_written 0 u b) }
    ensures checked { (ws : List Written) (c : List Entry) (ks : List Tree) (s : Found) (j : Judgement) (u a : Tree) → AreWhole s → ((f : Types) → fill_written f u ≡ u) → ((f : Types) → fill_written f (fill_written (so_far s) a) ≡ fill_written (so_far s) a) → Has (signature ws) j c u (erased (fill_written (so_far s) a)) → HasOpen (signature ws) c ks s j u a }
    ensures inferred { (ws : List Written) (c : List Entry) (ks : List Tree) (s : Found) (u a x y : Tree) → AreWhole s → ((f : Types) → fill_written f u ≡ u) → ((f : Types) → fill_written f y ≡ y) → Has (signature ws) a_term c u (erased x) → Joined (bodies (signature ws)) (erased x) (erased y) → erased (fill_written (so_far s) a) ≡ erased y → HasOpen (signature ws) c ks s a_term u a }
    ensures found { (ws : List Written) (c : List Entry) (ks : List Tree) (s r : Found) (t a : Tree) → ((n : ℕ) (p : Tree) → s n ≡ Some p → r n ≡ Some p) → SpineHas (signature ws) c ks s t a → SpineHas (signature ws) c ks r t a }
    ensures put { (ws : List Written) (c : List Entry) (ks : List Tree) (s : Found) (t a : Tree) → AreWhole s → SpineHas (signature ws) c ks s t a → SpineHas (signature ws) c ks s (fill_written (so_far s) t) (fill_written (so_far s) a) }
    ensures solved { (s : Found) → Agrees s (so_far s) }
    ensures ends { (ws : List Written) (c : List Entry) (ks : List Tree) (s : Found) (f : Types) (t a : Tree) → Agrees s f → AreOfKinds (signature ws) c ks f → SpineHas (signature ws) c ks s t a → Has (signature ws) a_term c (fill_written f t) (erased (fill_written f a)) × Has (signature ws) a_type c (fill_written f a) star }
{}

/// A tree with unknowns stays in its class and scope, and keeps its erasure, where types are put for the unknowns, where a term or a type is put for
/// the innermost variable, and under one more variable. Without unknowns it is a tree of the class.
pub fn open_trees_keep_class()
    ensures filled { (vs xs : List Sort) (c : TreeClass) (f : Types) (t : Tree) → IsWritten c → ((n : ℕ) → FitsOpen (within vs xs) types (f n) × HasErasure (f n)) → FitsOpen (within vs xs) c t → HasErasure t → FitsOpen (within vs xs) c (fill_written f t) × HasErasure (fill_written f t) }
    ensures put { (vs xs : List Sort) (y : Sort) (c : TreeClass) (a t : Tree) → IsWritten c → FitsOpen (within vs xs) (written_class y) a → HasErasure a → FitsOpen (within (y ∷ vs) xs) c t → HasErasure t → FitsOpen (within vs xs) c (put_written 0 a t) × HasErasure (put_written 0 a t) }
    ensures shifted { (vs xs : List Sort) (y : Sort) (c : TreeClass) (t : Tree) → FitsOpen (within vs xs) c t → HasErasure t → FitsOpen (within (y ∷ vs) xs) c (shift 0 1 t) × HasErasure (shift 0 1 t) }
    ensures without { (s : Scope) (c : TreeClass) (t : Tree) → Fits s c t → FitsOpen s c t }
    ensures with_none { (s : Scope) (c : TreeClass) (t : Tree) → FitsOpen s c t → ((f : Types) → fill_written f t ≡ t) → Fits s c t }
{}

/// A worked spine, by the clauses of `spine_has_derivation` alone: for `f : ∀ X : ★ . X ➔ X` and `y : A` the left-out argument is found, and `f ·A y` has the type A.
pub fn left_out_argument_is_found()
    ensures { (ws : List Written) → AreScoped ws → (c : List Entry) (f y a : Tree) → ((g : Types) → fill_written g f ≡ f) → ((g : Types) → fill_written g y ≡ y) → ((g : Types) → fill_written g a ≡ a) → Has (signature ws) a_term c f (erased product) → Has (signature ws) a_term c y (erased a) → Has (signature ws) a_type c a star → Has (signature ws) a_term c (app (tapp f a) y) (erased a) }
{}
