//! Spines: a head with its arguments so far.
use cdle_names::Span;
use elab_match::Solution;
use elab_tree::{EKind, ETerm, EType};

/// How an argument that is a term stands: as it is, or erased.
#[derive(Clone, Copy, Debug, PartialEq, Eq)]
pub enum Argument {
    Kept,
    Erased,
}

/// A head with its arguments so far: its place, the term and its type so far, the kinds of the types that are left out, and what is found for
/// these.
#[derive(Drop)]
pub struct Spine {
    pub(crate) head: Span,
    pub(crate) term: ETerm,
    pub(crate) ty: EType,
    pub(crate) kinds: Vec<EKind>,
    pub(crate) found: Solution,
}

/// What a term's rule gives.
#[derive(Drop)]
pub enum Made {
    /// A term that has the type asked for.
    Checked(ETerm),
    /// A term and its type.
    Inferred(ETerm, EType),
    /// A spine so far.
    Spine(Spine),
}

/// A spine that is to take a term, and the parts of its type.
#[derive(Drop)]
pub struct Opened {
    pub(crate) spine: Spine,
    /// The type that the argument is to have.
    pub domain: EType,
    pub(crate) range: EType,
}

/// A spine that is to take a type, and the parts of its type.
#[derive(Drop)]
pub struct OpenedType {
    pub(crate) spine: Spine,
    pub(crate) kind: EKind,
    pub(crate) range: EType,
}
