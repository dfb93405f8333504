//! Where a refusal stands.
use cdle_names::Span;

/// The place of a refusal, as its form tells it.
#[derive(Clone, Copy, Debug, PartialEq, Eq)]
pub enum At {
    /// All of that form, or of a part.
    Whole(Span),
    /// The Greek letter at which the form begins.
    Letter(Span),
    /// The bracket at which the form begins.
    Bracket(Span),
}
