//! What the command `build` stands on: what the bytes of a module's file say, which forms are not built yet, and what holds of modules that have none of them.
//!
//! `specs/` has the definitions: a file's module and its first fault (SourceFiles), where a form stands that is not built (Unbuilt), a module with its names
//! replaced (Renamed), tokens that are called otherwise (ByText), and the written names of the modules that are known (ModuleNames). Each law is the contract
//! of a function with an empty body: those of files in `source_laws.rt`, those of modules in `laws.rt`. No code runs here.
#![tactic(auto)]

mod laws;
mod source_laws;

pub use laws::{
    items_stand_together, names_have_no_dot, said_module_fits, scoped_names_differ,
    scoped_sorts_follow,
};
pub use source_laws::{
    file_fits, file_has_its_name, file_is_source_or_faulty, names_are_read_by_texts, spelling_stays,
};
