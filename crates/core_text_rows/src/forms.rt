//! Each form with its parts, as the table of the format has them.

use cdle_model::CoreWanted;

/// What a part is: a name that is bound, or a part of a class.
#[derive(Clone, Copy, Debug, PartialEq, Eq)]
pub(crate) enum Want {
    Name,
    Kind,
    Ty,
    Term,
    Pure,
    Guide,
    GuideKind,
}

/// A form of a class, and its parts in their order.
pub(crate) struct Row {
    pub(crate) class: Want,
    pub(crate) word: &'static str,
    pub(crate) parts: &'static [Want],
}

/// A text of that class behind items `T`, a type, and `t`, a term.
pub(crate) fn leaf(want: Want) -> &'static str {
    match want {
        Want::Name => "x",
        Want::Kind | Want::GuideKind => "*",
        Want::Ty | Want::Guide => "T",
        Want::Term | Want::Pure => "t",
    }
}

/// A name of the other class, where a name may stand.
pub(crate) fn other(want: Want) -> Option<&'static str> {
    match want {
        Want::Name | Want::Kind | Want::GuideKind => None,
        Want::Ty | Want::Guide => Some("t"),
        Want::Term | Want::Pure => Some("T"),
    }
}

pub(crate) fn wanted(want: Want) -> CoreWanted {
    match want {
        Want::Name => CoreWanted::Name,
        Want::Kind => CoreWanted::Kind,
        Want::Ty => CoreWanted::Ty,
        Want::Term => CoreWanted::Term,
        Want::Pure => CoreWanted::Pure,
        Want::Guide => CoreWanted::Guide,
        Want::GuideKind => CoreWanted::GuideKind,
    }
}

/// What stands before a part of that class, and what behind it, in a file of one item.
pub(crate) fn around(class: Want) -> (&'static str, &'static str) {
    match class {
        Want::Name => ("core 1 (def ", " T t)"),
        Want::Kind => ("core 1 (type n ", " T)"),
        Want::Ty => ("core 1 (def n ", " t)"),
        Want::Term => ("core 1 (def n T ", ")"),
        Want::Pure => ("core 1 (def n (eq ", " t) t)"),
        Want::Guide => ("core 1 (def n T (rho t x ", " T t))"),
        Want::GuideKind => ("core 1 (def n T (rho t x (allt Y ", " T) T t))"),
    }
}

/// All forms.
pub(crate) const ROWS: [Row; 37] = [
    Row {
        class: Want::Kind,
        word: "kpi",
        parts: &[Want::Name, Want::Ty, Want::Kind],
    },
    Row {
        class: Want::Kind,
        word: "kpit",
        parts: &[Want::Name, Want::Kind, Want::Kind],
    },
    Row {
        class: Want::Ty,
        word: "pi",
        parts: &[Want::Name, Want::Ty, Want::Ty],
    },
    Row {
        class: Want::Ty,
        word: "all",
        parts: &[Want::Name, Want::Ty, Want::Ty],
    },
    Row {
        class: Want::Ty,
        word: "allt",
        parts: &[Want::Name, Want::Kind, Want::Ty],
    },
    Row {
        class: Want::Ty,
        word: "tlam",
        parts: &[Want::Name, Want::Ty, Want::Ty],
    },
    Row {
        class: Want::Ty,
        word: "xtlam",
        parts: &[Want::Name, Want::Kind, Want::Ty],
    },
    Row {
        class: Want::Ty,
        word: "at",
        parts: &[Want::Ty, Want::Term],
    },
    Row {
        class: Want::Ty,
        word: "on",
        parts: &[Want::Ty, Want::Ty],
    },
    Row {
        class: Want::Ty,
        word: "iota",
        parts: &[Want::Name, Want::Ty, Want::Ty],
    },
    Row {
        class: Want::Ty,
        word: "eq",
        parts: &[Want::Pure, Want::Pure],
    },
    Row {
        class: Want::Term,
        word: "lam",
        parts: &[Want::Name, Want::Ty, Want::Term],
    },
    Row {
        class: Want::Term,
        word: "elam",
        parts: &[Want::Name, Want::Ty, Want::Term],
    },
    Row {
        class: Want::Term,
        word: "xlam",
        parts: &[Want::Name, Want::Kind, Want::Term],
    },
    Row {
        class: Want::Term,
        word: "app",
        parts: &[Want::Term, Want::Term],
    },
    Row {
        class: Want::Term,
        word: "eapp",
        parts: &[Want::Term, Want::Term],
    },
    Row {
        class: Want::Term,
        word: "tapp",
        parts: &[Want::Term, Want::Ty],
    },
    Row {
        class: Want::Term,
        word: "pair",
        parts: &[Want::Term, Want::Term, Want::Name, Want::Ty],
    },
    Row {
        class: Want::Term,
        word: "fst",
        parts: &[Want::Term],
    },
    Row {
        class: Want::Term,
        word: "snd",
        parts: &[Want::Term],
    },
    Row {
        class: Want::Term,
        word: "beta",
        parts: &[Want::Pure, Want::Pure],
    },
    Row {
        class: Want::Term,
        word: "rho",
        parts: &[Want::Term, Want::Name, Want::Guide, Want::Ty, Want::Term],
    },
    Row {
        class: Want::Term,
        word: "phi",
        parts: &[Want::Term, Want::Term, Want::Pure],
    },
    Row {
        class: Want::Term,
        word: "delta",
        parts: &[Want::Ty, Want::Term],
    },
    Row {
        class: Want::Pure,
        word: "fn",
        parts: &[Want::Name, Want::Pure],
    },
    Row {
        class: Want::Pure,
        word: "ap",
        parts: &[Want::Pure, Want::Pure],
    },
    Row {
        class: Want::GuideKind,
        word: "kpi",
        parts: &[Want::Name, Want::Guide, Want::GuideKind],
    },
    Row {
        class: Want::GuideKind,
        word: "kpit",
        parts: &[Want::Name, Want::GuideKind, Want::GuideKind],
    },
    Row {
        class: Want::Guide,
        word: "pi",
        parts: &[Want::Name, Want::Guide, Want::Guide],
    },
    Row {
        class: Want::Guide,
        word: "all",
        parts: &[Want::Name, Want::Guide, Want::Guide],
    },
    Row {
        class: Want::Guide,
        word: "allt",
        parts: &[Want::Name, Want::GuideKind, Want::Guide],
    },
    Row {
        class: Want::Guide,
        word: "tlam",
        parts: &[Want::Name, Want::Guide],
    },
    Row {
        class: Want::Guide,
        word: "xtlam",
        parts: &[Want::Name, Want::Guide],
    },
    Row {
        class: Want::Guide,
        word: "at",
        parts: &[Want::Guide, Want::Pure],
    },
    Row {
        class: Want::Guide,
        word: "on",
        parts: &[Want::Guide, Want::Guide],
    },
    Row {
        class: Want::Guide,
        word: "iota",
        parts: &[Want::Name, Want::Guide, Want::Guide],
    },
    Row {
        class: Want::Guide,
        word: "eq",
        parts: &[Want::Pure, Want::Pure],
    },
];
