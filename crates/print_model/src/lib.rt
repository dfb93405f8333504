//! Printed Core: the text by which the elaborator writes items, and that it is read as these items.
//!
//! `specs/` has the definitions: the text of a tree, an item and a file, over the grammar's own table of forms, and the names that can stand in such
//! text. Each law is the contract of a function with an empty body: what is printed is read, by the definition of Core text, as exactly the items;
//! what has no text nests too deep for any Core text. No code runs here. The crate stands on `cdle_model` alone.
#![tactic(auto)]

ghost use Rattle.std.specs.Prelude.{◌≡◌, ◌<◌, ◌++◌, ◌∷◌, ℕ, suc, List, [], Ok, Err, codes, length, take, true};
ghost use Rattle.std.specs.Str.{IsUtf8};
ghost use Rattle.cdle_model.specs.Classes.{AreScopedOver, AreScoped};
ghost use Rattle.cdle_model.specs.CoreNames.{Name, with_items};
ghost use Rattle.cdle_model.specs.CoreText.{Says};
ghost use Rattle.cdle_model.specs.Forms.{Written};
ghost use Rattle.print_model.specs.Examples.{identity, identity_text, item_behind, names_behind, text_behind};
ghost use Rattle.print_model.specs.Printed.{file_text};
ghost use Rattle.print_model.specs.PrintedFiles.{AreNamed, ArePrinted, IsItemName, IsPrinted, SayItems, all_items, goes_on};

/// What is printed is read, behind the earlier items, as exactly the items that were printed.
pub fn printed_text_is_read()
    ensures { (es ws : List Written) (bytes : List ℕ) → AreNamed (es ++ ws) → AreScopedOver es ws → IsPrinted es ws bytes → Says bytes (with_items es []) ws }
{}

/// All files, read one behind the other, say the list of all items, and say no other list.
pub fn printed_files_are_read()
    ensures read { (wss : List (List Written)) (files : List (List ℕ)) → AreNamed (all_items wss) → AreScoped (all_items wss) → ArePrinted [] wss files → SayItems [] files (all_items wss) }
    ensures alone { (files : List (List ℕ)) (is js : List Written) → SayItems [] files is → SayItems [] files js → is ≡ js }
{}

/// Items that any Core text says, behind any names, have a printed text. So it is too deep exactly where no Core text says the items.
pub fn items_of_a_text_are_printed()
    ensures { (bytes : List ℕ) (known : List Name) (ws : List Written) (names : List (List ℕ)) → Says bytes known ws → (text : List ℕ) × (file_text names ws ≡ Ok text) }
{}

/// Where the text ends at an item that nests too deep, the items before it have a text, and no Core text says the items up to this one.
pub fn too_deep_item_is_first()
    ensures there { (names : List (List ℕ)) (ws : List Written) (n : ℕ) → file_text names ws ≡ Err n → n < length ws }
    ensures before { (names : List (List ℕ)) (ws : List Written) (n : ℕ) → file_text names ws ≡ Err n → (text : List ℕ) × (file_text names (take n ws) ≡ Ok text) }
    ensures unsaid { (names : List (List ℕ)) (ws : List Written) (n : ℕ) → file_text names ws ≡ Err n → (bytes : List ℕ) (known : List Name) → Says bytes known (take (suc n) ws) → ⊥ }
{}

/// A module's name and an item's, with a dot between, are a name that can stand in printed text, where no byte of either ends a word.
pub fn dotted_names_can_be_printed()
    ensures { (m x : List ℕ) → IsUtf8 m → IsUtf8 x → goes_on m ≡ true → goes_on x ≡ true → IsItemName (m ++ (codes "." ++ x)) }
{}

/// How printed files look.
pub fn printed_examples()
    ensures identity { file_text (codes "m.id" ∷ []) identity ≡ Ok identity_text }
    ensures behind { file_text names_behind item_behind ≡ Ok text_behind }
{}
