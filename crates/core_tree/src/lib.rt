//! Core trees: terms, types and kinds as a file writes them, and the pure terms, guides and guide kinds that erasure leaves of them.
//!
//! A tree is a node shared by its owners. Each node is the definitions' tree of its form and is of its class, whatever builds it, and
//! erasure, shifting and putting give what the definitions give, or tell that the tree is too deep or that memory is wanted. What a
//! change leaves as it was stays the same node. The crate has also the items of a file, and the answers of a check of files.
//! It stands on `cdle_model` alone.
#![tactic(auto)]

mod change;
mod erase;
mod faults;
mod guide;
mod guide_change;
mod guide_forms;
mod guide_kind_change;
mod items;
mod part;
mod product;
mod pure;
mod pure_change;
mod sharing;
mod stack;
mod stop;
mod term;
mod term_forms;
mod type_forms;

pub use cdle_model::NoMemory;
pub use faults::{Checked, CoreFault, Kept, Path, Why};
pub use guide::{Guide, GuideForm, GuideKind, GuideKindForm};
pub use items::{CoreFile, CoreItem, CoreItems};
pub use part::Part;
pub use product::Product;
pub use pure::{Pure, PureForm};
pub use stop::PutStop;
pub use term::{Kind, KindForm, Term, TermForm, Ty, TyForm};
