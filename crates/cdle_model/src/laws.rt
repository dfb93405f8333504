//! The laws of the definitions. Each is the contract of a function with an empty body.
ghost use Rattle.std.specs.Prelude.{◌≡◌, ◌⊎◌, ◌++◌, ℕ, List, [], Some, false, length};
ghost use Rattle.std.specs.Str.{IsUtf8};
ghost use Rattle.cdle_model.specs.Classes.{AreScoped, AreScopedOver};
ghost use Rattle.cdle_model.specs.CoreFaults.{BadText, Fault, TooDeep};
ghost use Rattle.cdle_model.specs.CoreGrammar.{Shape, form_in, form_of, made};
ghost use Rattle.cdle_model.specs.CoreNames.{Name, Names, with_items};
ghost use Rattle.cdle_model.specs.CoreText.{Reads, Says, Stands};
ghost use Rattle.cdle_model.specs.CoreTokens.{Token, tokens};
ghost use Rattle.cdle_model.specs.CoreWants.{IsDeepPlace, IsFirstBadPlace, IsFirstFault};
ghost use Rattle.cdle_model.specs.Forms.{Written};
ghost use Rattle.cdle_model.specs.Trees.{Tree};
ghost use Rattle.cdle_model.specs.declared.grammar.Class.{Class};
ghost use Rattle.cdle_model.specs.declared.grammar.CoreWanted.{CoreWanted};

/// The form of a class that the table finds for a tree makes that tree of its parts, and stands in the class's table under its word.
pub fn found_form_makes_its_tree()
    ensures makes { (c : Class) (t : Tree) (s : Shape) → form_in c t ≡ Some s → made s.form s.parts ≡ t }
    ensures word { (c : Class) (t : Tree) (s : Shape) → form_in c t ≡ Some s → form_of c s.word ≡ Some s.form }
{}

/// The tokens of a part are one tree, and the bytes of a file say one list of items.
pub fn one_text_one_tree()
    ensures part { (left : ℕ) (scope : Names) (c : Class) (ts : List Token) (t u : Tree) (r s : List Token)
        → Reads Stands left scope c ts t r → Reads Stands left scope c ts u s → (t ≡ u) × (r ≡ s) }
    ensures file { (bytes : List ℕ) (known : List Name) (is js : List Written) → Says bytes known is → Says bytes known js → is ≡ js }
{}

/// A text in UTF-8 says a list of items, or it has a first fault. That it has not both, and only one of either, is said by the other laws.
pub fn text_is_said_or_faulty()
    ensures either { (bytes : List ℕ) (known : List Name) → IsUtf8 bytes → ((is : List Written) × Says bytes known is) ⊎ ((f : Fault) × IsFirstFault bytes known f) }
    ensures one { (bytes : List ℕ) (known : List Name) (f g : Fault) → IsFirstFault bytes known f → IsFirstFault bytes known g → f ≡ g }
{}

/// Bytes that say items have no first fault.
pub fn said_is_faultless()
    ensures { (bytes : List ℕ) (known : List Name) (is : List Written) (f : Fault) → Says bytes known is → IsFirstFault bytes known f → ⊥ }
{}

/// A bad text goes wrong at the first token after which no text of the grammar continues, or at its end.
pub fn bad_text_is_first()
    ensures { (bytes : List ℕ) (known : List Name) (at : ℕ) (what : CoreWanted)
        → IsFirstFault bytes known (BadText at what) → IsFirstBadPlace (length bytes) known (tokens false 0 bytes) at what }
{}

/// A parenthesis is too many where 1,024 are open behind a beginning of a text of the grammar.
pub fn too_deep_is_past_the_limit()
    ensures { (bytes : List ℕ) (known : List Name) (at : ℕ) → IsFirstFault bytes known (TooDeep at) → IsDeepPlace (tokens false 0 bytes) at }
{}

/// What a text says behind items is a list of items, each closed and over the earlier ones, with each variable and name used in its class.
pub fn read_items_are_items()
    ensures { (bytes : List ℕ) (es ws : List Written) → Says bytes (with_items es []) ws → AreScopedOver es ws }
{}

/// Files one after the other: what a text says behind a list of items makes one list with them, and the names behind both lists are those
/// behind the second where those behind the first are known.
pub fn files_make_one_list()
    ensures items { (bytes : List ℕ) (es ws : List Written) → AreScoped es → Says bytes (with_items es []) ws → AreScoped (es ++ ws) }
    ensures names { (es ws : List Written) (known : List Name) → with_items (es ++ ws) known ≡ with_items ws (with_items es known) }
{}
