//! What each name of a module stands for, and the laws of it: what the contracts of the elaborator's crates cite.
//!
//! `specs/` has the definitions: what a name stands for at a place (ScopeNames), trees whose scope is known (Scoped), the scope of a module or its
//! first fault (Scope), that each variable and item is used in its class (ScopeFits), and the names of its Core items (ItemNames). Each law is the
//! contract of a function of `scope_laws.rt` whose body is empty, and so is proved at every check. The crate stands on `cdle_model` and `source_model`
//! (and for the characters of names on `unicode_ident`, of the toolchain); no code runs here.
#![tactic(auto)]

mod scope_laws;

pub use scope_laws::{
    item_names_differ, known_modules_are_numbered, module_is_scoped_or_faulty,
    names_are_parts_of_words, scoped_items_follow_known, scoped_module_fits,
};
