//! Comparisons of pure terms.
use crate::rows::Rows;
use crate::terms::{ap, function, identity, name, omega, one_argument, two_arguments, var};

/// What has no head form is gone into as long as there are units, and is not looked at where it is thrown away.
fn endless(rows: &mut Rows) {
    let alloc = rows.alloc;
    rows.terms("omega", 0, omega(alloc), omega(alloc));
    rows.terms("omega", 1000, omega(alloc), omega(alloc));
    // A pair, the two contractions that throw it away, and the pair of the variables.
    let first = function(alloc, function(alloc, var(alloc, 1)));
    let thrown = ap(alloc, ap(alloc, first, identity(alloc)), omega(alloc));
    rows.terms("thrown_away", 4, thrown, identity(alloc));
}

/// `fn x. fn y. x y` is `fn x. x`: the pair, that of the bodies, that of the bodies applied, that of the arguments.
fn eta(rows: &mut Rows) {
    let alloc = rows.alloc;
    rows.terms("eta_left", 4, one_argument(alloc, 1, 0), identity(alloc));
    rows.terms("eta_left", 3, one_argument(alloc, 1, 0), identity(alloc));
    rows.terms("eta_right", 4, identity(alloc), one_argument(alloc, 1, 0));
    rows.terms("eta_right", 3, identity(alloc), one_argument(alloc, 1, 0));
}

/// `fn x. fn y. y y` is not: the variables at the heads of the third pair are two.
fn eta_not(rows: &mut Rows) {
    let alloc = rows.alloc;
    rows.terms(
        "eta_not_left",
        3,
        one_argument(alloc, 0, 0),
        identity(alloc),
    );
    rows.terms(
        "eta_not_left",
        2,
        one_argument(alloc, 0, 0),
        identity(alloc),
    );
    rows.terms(
        "eta_not_right",
        3,
        identity(alloc),
        one_argument(alloc, 0, 0),
    );
}

/// An argument stands under the new variable: `g a` is `fn y. g a y`, with free a and g.
fn eta_raised(rows: &mut Rows) {
    let alloc = rows.alloc;
    let call = ap(alloc, var(alloc, 3), var(alloc, 2));
    let body = ap(
        alloc,
        ap(alloc, var(alloc, 4), var(alloc, 3)),
        var(alloc, 0),
    );
    rows.terms("eta_raised", 4, call, function(alloc, body));
}

/// The arguments are taken from the innermost on: those of `x y x` and `x y y` differ in the fifth pair, of `x x y` and `x y y` in the fourth.
fn in_order(rows: &mut Rows) {
    let alloc = rows.alloc;
    rows.terms(
        "second",
        5,
        two_arguments(alloc, 0, 1),
        two_arguments(alloc, 0, 0),
    );
    rows.terms(
        "second",
        4,
        two_arguments(alloc, 0, 1),
        two_arguments(alloc, 0, 0),
    );
    rows.terms(
        "first",
        4,
        two_arguments(alloc, 1, 0),
        two_arguments(alloc, 0, 0),
    );
    rows.terms(
        "first",
        3,
        two_arguments(alloc, 1, 0),
        two_arguments(alloc, 0, 0),
    );
    rows.terms(
        "more",
        3,
        two_arguments(alloc, 0, 0),
        one_argument(alloc, 1, 0),
    );
}

/// One name with itself is one pair. Two names, and one that is applied, are unfolded on both sides; a name that no item has is not.
fn names(rows: &mut Rows) {
    let alloc = rows.alloc;
    rows.terms("name", 1, name(alloc, 0), name(alloc, 0));
    rows.terms("name", 0, name(alloc, 0), name(alloc, 0));
    rows.terms("two_names", 4, name(alloc, 0), name(alloc, 1));
    rows.terms("two_names", 3, name(alloc, 0), name(alloc, 1));
    let left = ap(alloc, name(alloc, 0), identity(alloc));
    rows.terms("applied_name", 4, left, identity(alloc));
    let left = ap(alloc, name(alloc, 0), identity(alloc));
    rows.terms("applied_name", 3, left, identity(alloc));
    rows.terms("no_item", 1, name(alloc, 7), name(alloc, 8));
}

pub(crate) fn lines(rows: &mut Rows) {
    endless(rows);
    eta(rows);
    eta_not(rows);
    eta_raised(rows);
    in_order(rows);
    names(rows);
}
