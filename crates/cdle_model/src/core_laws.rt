//! The laws of Core's definitions. Each is the contract of a function with an empty body.
ghost use Rattle.std.specs.Prelude.{◌≡◌, ◌≤◌, ◌+◌, ℕ, suc, true, List, ◌∷◌, take};
ghost use Rattle.cdle_model.specs.Check.{IsUndecided, ListVerdict, Reason, accepts, answer, check_items, duplicate, ends, gives, infer, refuses, spends};
ghost use Rattle.cdle_model.specs.Classes.{AreScoped, Fits, TreeClass, item_sorts, terms, within};
ghost use Rattle.cdle_model.specs.Comparison.{Answer, apart, compare, halted, same};
ghost use Rattle.cdle_model.specs.Derivation.{AreDerived, Entry, Has, Item, Judgement, bodies, signature};
ghost use Rattle.cdle_model.specs.Erasure.{HasErasure, erased};
ghost use Rattle.cdle_model.specs.Fitting.{BodiesFit, ContextFits, HaveErasures, IsErased, JoinedWithin, SignatureFits, class_of, entry_sorts, erased_class, given_class, subject_class};
ghost use Rattle.cdle_model.specs.Forms.{Written, xlam};
ghost use Rattle.cdle_model.specs.HeadForms.{Halt, HeadAnswer, deep, head_form, head_step, no_value, none, value};
ghost use Rattle.cdle_model.specs.Machine.{answered};
ghost use Rattle.cdle_model.specs.Steps.{IsSignature, Joined, Meets, Step};
ghost use Rattle.cdle_model.specs.Substitution.{put_written};
ghost use Rattle.cdle_model.specs.Trees.{Binary, Binder, Function, Tree, Unary, apply, binary, bind, fun, lacks, put, shift, unary};
ghost use Rattle.cdle_model.specs.declared.grammar.Sort.{Sort};

/// Shifts and substitutions commute.
pub fn renumbering_commutes()
    ensures shift_shift { (i j a b : ℕ) → i ≤ j → (e : Tree) → shift (j + a) b (shift i a e) ≡ shift i a (shift j b e) }
    ensures shift_put { (i at b : ℕ) (a : Tree) → at ≤ i → (e : Tree) → shift i b (put at a e) ≡ put at (shift i b a) (shift (suc i) b e) }
    ensures shift_put_above { (i at b : ℕ) (a : Tree) → i ≤ at → (e : Tree) → shift i b (put at a e) ≡ put (at + b) (shift i b a) (shift i b e) }
    ensures put_shift { (i at b : ℕ) (a : Tree) → i ≤ at → at ≤ i + b → (e : Tree) → put at a (shift i (suc b) e) ≡ shift i b e }
    ensures put_put { (i j : ℕ) (a b : Tree) → i ≤ j → (e : Tree) → put j b (put i a e) ≡ put i (put j b a) (put (suc j) (shift i 1 b) e) }
{}

/// Substitution for a variable that is not free is a lowering, whatever is put; and a raised tree lacks the variable.
pub fn missing_variable_is_lowered()
    ensures lowered { (k : ℕ) (a b e : Tree) → lacks k e ≡ true → put k a e ≡ put k b e }
    ensures raised { (k : ℕ) (a e : Tree) → lacks k e ≡ true → e ≡ shift k 1 (put k a e) }
    ensures missing { (k : ℕ) (e : Tree) → lacks k (shift k 1 e) ≡ true }
{}

/// Erasure commutes with shifts and with substitution, which puts the erasure where a tree is erased.
pub fn erasure_commutes()
    ensures shifted { (from by : ℕ) (t : Tree) → erased (shift from by t) ≡ shift from by (erased t) }
    ensures put { (at : ℕ) (a t : Tree) → erased (put_written at a t) ≡ put at (erased a) (erased t) }
{}

/// The erasure of a term is a pure term, that of a type a guide, that of a kind a guide kind. The variable of an `xlam` is never in its
/// body's erasure. An erased tree has an erasure and is it.
pub fn erasure_keeps_classes()
    ensures classes { (vs xs : List Sort) (c : TreeClass) (t : Tree) → Fits (within vs xs) c t → HasErasure t → Fits (within vs xs) (erased_class c) (erased t) }
    ensures xlam_lacks { (vs xs : List Sort) (k t : Tree) → Fits (within vs xs) terms (xlam k t) → HasErasure t → lacks 0 (erased t) ≡ true }
    ensures itself { (vs xs : List Sort) (c : TreeClass) (t : Tree) → IsErased c → Fits (within vs xs) c t → HasErasure t × (erased t ≡ t) }
{}

/// A list of items is a signature over which the laws hold.
pub fn items_are_a_signature()
    ensures closed { (ws : List Written) → AreScoped ws → IsSignature (bodies (signature ws)) }
    ensures classes { (ws : List Written) → AreScoped ws → HaveErasures ws → SignatureFits (item_sorts ws) (signature ws) }
{}

/// A shift, a substitution and a step keep the class of an erased tree, and the sorts of its variables and names.
pub fn steps_keep_classes()
    ensures shifted { (vs xs : List Sort) (y : Sort) (c : TreeClass) (e : Tree) → Fits (within vs xs) c e → Fits (within (y ∷ vs) xs) c (shift 0 1 e) }
    ensures put { (vs xs : List Sort) (y : Sort) (c : TreeClass) (a e : Tree) → IsErased c → Fits (within vs xs) (class_of y) a → Fits (within (y ∷ vs) xs) c e → Fits (within vs xs) c (put 0 a e) }
    ensures stepped { (vs xs : List Sort) (s : List Tree) (c : TreeClass) (a b : Tree) → BodiesFit xs s → IsErased c → Step s a b → Fits (within vs xs) c a → Fits (within vs xs) c b }
{}

/// Being joined is an equivalence, goes under each form, and through shifts and substitutions.
pub fn joined_is_a_congruence()
    ensures itself { (s : List Tree) (a : Tree) → Joined s a a }
    ensures turned { (s : List Tree) (a b : Tree) → Joined s a b → Joined s b a }
    ensures chained { (s : List Tree) (a b c : Tree) → Joined s a b → Joined s b c → Joined s a c }
    ensures unaries { (s : List Tree) (j : Unary) (p q : Tree) → Joined s p q → Joined s (unary j p) (unary j q) }
    ensures functions { (s : List Tree) (c : Function) (p q : Tree) → Joined s p q → Joined s (fun c p) (fun c q) }
    ensures applications { (s : List Tree) (c : Function) (p q a b : Tree) → Joined s p q → Joined s a b → Joined s (apply c p a) (apply c q b) }
    ensures binaries { (s : List Tree) (j : Binary) (p q a b : Tree) → Joined s p q → Joined s a b → Joined s (binary j p a) (binary j q b) }
    ensures binders { (s : List Tree) (f : Binder) (p q a b : Tree) → Joined s p q → Joined s a b → Joined s (bind f p a) (bind f q b) }
    ensures shifted { (s : List Tree) → IsSignature s → (from by : ℕ) (p q : Tree) → Joined s p q → Joined s (shift from by p) (shift from by q) }
    ensures put { (s : List Tree) → IsSignature s → (at : ℕ) (a b p q : Tree) → Joined s a b → Joined s p q → Joined s (put at a p) (put at b q) }
{}

/// Two trees that are joined step to one tree.
pub fn steps_are_confluent()
    ensures { (s : List Tree) → IsSignature s → (a b : Tree) → Joined s a b → Meets (Step s) a b }
{}

/// Two trees of a class that are joined are joined by trees of that class, though a list of neighbours may also lead through trees of none.
pub fn joined_trees_stay_in_class()
    ensures { (vs xs : List Sort) (s : List Tree) → IsSignature s → BodiesFit xs s → (c : TreeClass) → IsErased c → (a b : Tree)
        → Fits (within vs xs) c a → Fits (within vs xs) c b → Joined s a b → JoinedWithin vs xs c s a b }
{}

/// Where the comparison at some budget says same, the two are joined; a head form is joined with its tree, and has no step at its head.
pub fn same_is_joined()
    ensures comparison { (s : List Tree) (n : ℕ) (a b : Tree) (left : ℕ) → compare s n a b ≡ answered same left → Joined s a b }
    ensures head_form { (s : List Tree) (n : ℕ) (a b : Tree) (left : ℕ) → head_form s n a ≡ answered (value b) left → Joined s a b × (head_step s b ≡ none) }
{}

/// Where the comparison at some budget says apart, the two are not joined.
pub fn apart_is_not_joined()
    ensures { (s : List Tree) → IsSignature s → (n : ℕ) (a b c d : Tree) (left : ℕ) → compare s n a b ≡ answered (apart c d) left → Joined s a b → ⊥ }
{}

/// An answer other than spent is the answer at each larger budget, with as many more units left.
pub fn larger_budget_keeps_answer()
    ensures head_form { (s : List Tree) (n : ℕ) (a : Tree) (x : HeadAnswer) (left more : ℕ) → head_form s n a ≡ answered x left → head_form s (n + more) a ≡ answered x (left + more) }
    ensures comparison { (s : List Tree) (n : ℕ) (a b : Tree) (x : Answer) (left more : ℕ) → compare s n a b ≡ answered x left → compare s (n + more) a b ≡ answered x (left + more) }
    ensures list { (n more : ℕ) (ws : List Written) (x : ListVerdict) → check_items n ws ≡ x → ((i : ℕ) (p : List ℕ) → x ≡ spends i p → ⊥) → check_items (n + more) ws ≡ x }
{}

/// Where each variable and name is used in its class, so it is in head forms, and in what the check gives; what has been checked has an erasure.
pub fn check_keeps_classes()
    ensures head_form { (vs xs : List Sort) (s : List Tree) → BodiesFit xs s → (c : TreeClass) → IsErased c → (n : ℕ) (a b : Tree) (left : ℕ) → Fits (within vs xs) c a → head_form s n a ≡ answered (value b) left → Fits (within vs xs) c b }
    ensures found { (xs : List Sort) (is : List Item) → SignatureFits xs is → (n : ℕ) (j : Judgement) (c : List Entry) (t a : Tree) → ContextFits xs c → Fits (within (entry_sorts c) xs) (subject_class j) t → answer (bodies is) n (infer is j c t) ≡ gives a → HasErasure t × Fits (within (entry_sorts c) xs) (given_class j) a }
    ensures accepted { (ws : List Written) → AreScoped ws → (n : ℕ) → check_items n ws ≡ accepts → HaveErasures ws }
{}

/// Where each variable and name is used in its class, the work ends early for good by depth alone.
pub fn only_depth_ends_early()
    ensures head_form { (vs xs : List Sort) (s : List Tree) → BodiesFit xs s → (c : TreeClass) → IsErased c → (n : ℕ) (a : Tree) (h : Halt) (left : ℕ) → Fits (within vs xs) c a → head_form s n a ≡ answered (no_value h) left → h ≡ deep }
    ensures comparison { (vs xs : List Sort) (s : List Tree) → BodiesFit xs s → (c : TreeClass) → IsErased c → (n : ℕ) (a b : Tree) (h : Halt) (left : ℕ) → Fits (within vs xs) c a → Fits (within vs xs) c b → compare s n a b ≡ answered (halted h) left → h ≡ deep }
    ensures list { (ws : List Written) → AreScoped ws → (n i : ℕ) (h : Halt) → check_items n ws ≡ ends i h → h ≡ deep }
{}

/// Where all passes with more than n units before a question that is spent with n, the plain check at n is spent, there or earlier; where it is spent, this is so.
pub fn undecided_is_spent()
    ensures undecided { (n k : ℕ) (ws : List Written) (i : ℕ) (p : List ℕ) → IsUndecided n (n + k) ws i p → (j : ℕ) × (r : List ℕ) × (check_items n ws ≡ spends j r) }
    ensures at_spent { (n : ℕ) (ws : List Written) (i : ℕ) (p : List ℕ) → check_items n ws ≡ spends i p → IsUndecided n n ws i p }
{}

/// Two derivations of one term in one context have joined types; likewise kinds of a type.
pub fn types_are_unique()
    ensures { (is : List Item) → IsSignature (bodies is) → (j : Judgement) (c : List Entry) (t a b : Tree) → Has is j c t a → Has is j c t b → Joined (bodies is) a b }
{}

/// Where the plain check at some budget accepts a list of items, the list has a derivation.
pub fn accepted_list_is_derived()
    ensures { (ws : List Written) → AreScoped ws → (n : ℕ) → check_items n ws ≡ accepts → AreDerived ws }
{}

/// Where the plain check at some budget refuses an item, or its name as one that an earlier item has, the items up to that one have no derivation.
pub fn refused_list_is_not_derived()
    ensures refused { (ws : List Written) → AreScoped ws → (n i : ℕ) (p : List ℕ) (w : Reason) → check_items n ws ≡ refuses i p w → AreDerived (take (suc i) ws) → ⊥ }
    ensures repeated { (ws : List Written) → AreScoped ws → (n i j : ℕ) → check_items n ws ≡ duplicate i j → AreDerived (take (suc i) ws) → ⊥ }
{}
