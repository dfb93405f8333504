//! The forms of a type over two types, by a word for each.

/// The forms of a type whose erasure has the erasures of two types.
#[derive(Clone, Copy)]
pub(crate) enum OverTypes {
    Pi,
    All,
    Iota,
    On,
}
