//! The items of a module, by the surface rules.
//!
//! `elaborate` takes the items of a module in their order, each over those before it, and puts what is given for each behind the items so far. It answers
//! exactly what the definitions of `elab_model` give, with a budget for each comparison and each head form; or it wants memory. After a refusal every
//! later call on the same items is refused. `given_items_stand` says what follows of the items so far where the module's scope is that of `surf_scope`:
//! they are items that have a derivation, and each erases to its source.
#![tactic(auto)]

mod fault;
mod item;
mod items;
mod laws;

pub use elab_tree::Env;
pub use fault::ItemFault;
pub use items::elaborate;
pub use laws::given_items_stand;
