//! The rules with their recursion.
use elab_rules::Rules;

/// The rules over the items so far, read upwards from a form down to its parts.
#[derive(Drop)]
pub(crate) struct Checker<'a> {
    pub(crate) rules: Rules<'a>,
}
