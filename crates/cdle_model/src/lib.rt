//! Core's definitions, and their laws: what the contracts of all the crates above cite.
//!
//! `specs/` has the definitions, in the subject's order: trees, their classes and erasure, steps and equality, derivations, head forms and
//! comparison with a number of units, the plain check; then Core text, and the reports of the program. Each law is the contract of a
//! function of `core_laws.rt` or `laws.rt` whose body is empty, and so is proved at every check, and `core_examples.rt` has worked lists of
//! items. The crate stands on nothing, and no code runs here but the few plain types that definitions and code both name.
#![tactic(auto)]

mod core_examples;
mod core_laws;
mod grammar;
mod laws;
mod text;

pub use core_examples::{
    example_is_deep, examples_are_accepted, examples_are_refused, examples_are_spent,
};
pub use core_laws::{
    accepted_list_is_derived, apart_is_not_joined, check_keeps_classes, erasure_commutes,
    erasure_keeps_classes, items_are_a_signature, joined_is_a_congruence,
    joined_trees_stay_in_class, larger_budget_keeps_answer, missing_variable_is_lowered,
    only_depth_ends_early, refused_list_is_not_derived, renumbering_commutes, same_is_joined,
    steps_are_confluent, steps_keep_classes, types_are_unique, undecided_is_spent,
};
pub use grammar::{Class, CoreWanted, Count, Form, Mode, Piece, Sort};
pub use laws::{
    bad_text_is_first, files_make_one_list, found_form_makes_its_tree, one_text_one_tree,
    read_items_are_items, said_is_faultless, text_is_said_or_faulty, too_deep_is_past_the_limit,
};
use std::alloc::{AllocError, AllocFailed};
pub use text::Text;

/// Memory was wanted and not there.
#[derive(Clone, Copy, Debug, PartialEq, Eq)]
pub struct NoMemory;

impl From<AllocError> for NoMemory {
    fn from(_: AllocError) -> NoMemory {
        NoMemory
    }
}

impl<T: Drop> From<AllocFailed<T>> for NoMemory {
    fn from(_: AllocFailed<T>) -> NoMemory {
        NoMemory
    }
}
