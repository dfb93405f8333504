//! Why a place of a source text is refused: the plain enumeration that definitions and code both name.

/// Why the surface rules refuse a place. A report prints a code and these words.
#[derive(Clone, Copy, Debug, PartialEq, Eq)]
pub enum Code {
    /// J1: what is applied is no function, or a function stands where none is wanted.
    WantedFunction,
    /// J2: a pair or a projection where no intersection is.
    WantedIntersection,
    /// J3: a proof of no equation.
    WantedEquation,
    /// J4: a type or a kind of the wrong kind.
    WantedKind,
    /// J5: a type that does not agree with the one wanted.
    Mismatch,
    /// J6: an erased variable in the erasure of what it is bound in.
    ErasedVariableUsed,
    /// J7: the parts of a pair erase to what differs.
    PartsDiffer,
    /// J8: the sides of an equation are not the two booleans.
    NotTheTwoBooleans,
    /// J9: the sides of an equation differ.
    SidesDiffer,
    /// J10: an argument that was left out is not determined.
    ArgumentLeftOpen,
    /// J11: a form whose type cannot be inferred.
    AnnotationWanted,
    /// J12: branches that are not those of the datatype.
    WrongBranches,
}
