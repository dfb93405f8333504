//! The plain enumerations of Core text, of the limits and of arguments that definitions and code both name.

/// What a name stands for.
#[derive(Clone, Copy, Debug, PartialEq, Eq)]
pub enum Sort {
    OfTerm,
    OfType,
}

/// The classes of the parts of a form.
#[derive(Clone, Copy, Debug, PartialEq, Eq)]
pub enum Class {
    Kind,
    Ty,
    Term,
    Pure,
    Guide,
    GuideKind,
}

/// The forms that stand in parentheses, other than items. A form of guides or of guide kinds has the word of the type's or the kind's.
#[derive(Clone, Copy, Debug, PartialEq, Eq)]
pub enum Form {
    Kpi,
    Kpit,
    Pi,
    All,
    Allt,
    Tlam,
    Xtlam,
    At,
    On,
    Iota,
    Eq,
    Lam,
    Elam,
    Xlam,
    App,
    Eapp,
    Tapp,
    Pair,
    Fst,
    Snd,
    Beta,
    Rho,
    Phi,
    Delta,
    Function,
    Ap,
    GuidePi,
    GuideAll,
    GuideAllt,
    GuideTlam,
    GuideXtlam,
    GuideAt,
    GuideOn,
    GuideIota,
    GuideEq,
    GuideKpi,
    GuideKpit,
}

/// What stands in a form: a binder, a part, or a part under that binder.
#[derive(Clone, Copy, Debug, PartialEq, Eq)]
pub enum Piece {
    Binder(Sort),
    Part(Class),
    Under(Class),
}

/// What the grammar wants at a place where a text goes wrong.
#[derive(Clone, Copy, Debug, PartialEq, Eq)]
pub enum CoreWanted {
    Core,
    One,
    Item,
    Name,
    Kind,
    Ty,
    Term,
    Pure,
    Guide,
    GuideKind,
    Close,
}

/// The quantities that have a limit.
#[derive(Clone, Copy, Debug, PartialEq, Eq)]
pub enum Count {
    Bytes,
    Nesting,
    Depth,
    Items,
    Modules,
    Constructors,
    Arguments,
    Parameters,
}

/// How an argument is taken: kept, or erased, or it is a type.
#[derive(Clone, Copy, Debug, PartialEq, Eq)]
pub enum Mode {
    Kept,
    Erased,
    OfType,
}
