//! The definitions of elaboration, and their laws: what the contracts of the elaborator's crates cite.
//!
//! `specs/` has the definitions, in the subject's order: source erasure, head forms of annotated types, trees with unknowns, what the rules ask,
//! instances, spines, the surface rules, items. Each law is the contract of a function with an empty body, in `head_laws.rt`, `spine_laws.rt` and
//! `laws.rt`; worked examples stand in `head_examples.rt` and `rule_examples.rt`. No code runs here. The crate stands on `cdle_model`, whose
//! derivations what is given has, on `source_model` and on `scope_model`, whose trees the rules are about.
#![tactic(auto)]

mod codes;
mod head_examples;
mod head_laws;
mod laws;
mod rule_examples;
mod spine_laws;

pub use codes::Code;
pub use head_examples::heads_of_examples;
pub use head_laws::{
    head_erases, head_has_no_step, head_is_joined, head_keeps_class, head_keeps_kind,
    kept_name_is_head, larger_budget_keeps_head,
};
pub use laws::{
    derivations_are_strengthened, given_erases_joined, given_erases_to_source,
    given_has_derivation, given_is_of_its_class, given_item_has_derivation,
    given_items_have_derivation, instance_is_found, larger_budget_keeps_rules,
    there_is_always_an_answer,
};
pub use rule_examples::examples_are_answered;
pub use spine_laws::{
    derivations_are_kept, left_out_argument_is_found, open_trees_keep_class, parts_are_joined,
    parts_have_derivations, spine_has_derivation, unknowns_are_filled,
};
