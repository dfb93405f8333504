//! The elaborator's trees: annotated terms, types and kinds, and the pure terms, guides and guide kinds that erasure leaves of them.
//!
//! A tree is a node shared by its owners. Each node is the definitions' tree of its form, and is of its class once its unknowns are
//! replaced. Erasure, shifting, putting and solving give what the definitions give, or tell that the tree is too deep or that memory is
//! wanted; none of them asks anything of its trees. The code shares the nodes that a change leaves as they were, but no contract says so.
//! The crate has also the items that elaboration gives, and the list of the items so far. It stands on `cdle_model` alone.
#![tactic(auto)]

mod change;
mod env;
mod erase;
mod erased_puts;
mod guide;
mod guide_change;
mod guide_forms;
mod items;
mod laws;
mod pure;
mod pure_change;
mod puts;
mod shapes;
mod sharing;
mod size;
mod stop;
mod term;
mod term_change;
mod term_forms;
mod type_change;
mod type_forms;

pub use cdle_model::{Mode, NoMemory};
pub use env::{Constructor, Datatype, Env};
pub use guide::{EGuide, EGuideForm, EGuideKind, EGuideKindForm};
pub use items::{EArg, ErasedBody, OutItem};
pub use laws::tree_without_unknown_is_filled;
pub use pure::{EPure, EPureForm};
pub use stop::TreeStop;
pub use term::{EKind, EKindForm, ETerm, ETermForm, EType, ETypeForm};
