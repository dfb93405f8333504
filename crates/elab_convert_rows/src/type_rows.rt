//! Comparisons of erased types and kinds.
use crate::Made;
use crate::rows::Rows;
use crate::terms::{growing, identity, tower, var as term_var};
use crate::types::{all, allt, at, eq, iota, kpi, kpit, name, on, pi, star, tlam, var, xtlam};
use elab_tree::EGuide;
use std::alloc::Global;

fn identities(alloc: Global) -> Made<EGuide> {
    eq(alloc, identity(alloc), identity(alloc))
}

/// Twenty doublings take 2 ^ 21 - 2 contractions; beside them five pairs are taken. The argument of `W W` is too deep with the 8190th
/// contraction, after two pairs.
fn large(rows: &mut Rows) {
    let alloc = rows.alloc;
    let left = eq(alloc, tower(alloc, 20), identity(alloc));
    rows.types("tower", 2_097_155, left, identities(alloc));
    let left = eq(alloc, tower(alloc, 20), identity(alloc));
    rows.types("tower", 2_097_154, left, identities(alloc));
    let left = eq(alloc, growing(alloc), identity(alloc));
    rows.types("growing", 8192, left, identities(alloc));
    let left = eq(alloc, growing(alloc), identity(alloc));
    rows.types("growing", 8191, left, identities(alloc));
}

/// Two formers of one word are one pair, and one more for each part; two words are apart at once.
fn formers(rows: &mut Rows) {
    let alloc = rows.alloc;
    rows.types("pi", 3, pi(alloc), pi(alloc));
    rows.types("pi", 2, pi(alloc), pi(alloc));
    rows.types("pi_and_all", 1, pi(alloc), all(alloc));
    rows.types("pi_and_all", 0, pi(alloc), all(alloc));
    rows.types(
        "all_and_iota",
        1,
        all(alloc),
        iota(alloc, var(alloc, 0), var(alloc, 1)),
    );
    let left = allt(alloc, star(alloc), var(alloc, 0));
    let right = allt(alloc, star(alloc), var(alloc, 0));
    rows.types("allt", 3, left, right);
    rows.types(
        "functions",
        2,
        tlam(alloc, var(alloc, 1)),
        tlam(alloc, var(alloc, 1)),
    );
    rows.types(
        "functions",
        1,
        tlam(alloc, var(alloc, 1)),
        tlam(alloc, var(alloc, 1)),
    );
    rows.types(
        "two_functions",
        1,
        tlam(alloc, var(alloc, 1)),
        xtlam(alloc, var(alloc, 1)),
    );
    rows.types(
        "unknown",
        1,
        EGuide::unknown(alloc, 3),
        EGuide::unknown(alloc, 3),
    );
    rows.types(
        "two_unknowns",
        1,
        EGuide::unknown(alloc, 3),
        EGuide::unknown(alloc, 4),
    );
    rows.types("former_and_variable", 1, pi(alloc), var(alloc, 0));
}

/// The parts are taken in their order: the first of these differ in the second pair, the others in the third.
fn parts_in_order(rows: &mut Rows) {
    let alloc = rows.alloc;
    let left = iota(alloc, var(alloc, 5), var(alloc, 1));
    rows.types(
        "first_part",
        2,
        left,
        iota(alloc, var(alloc, 0), var(alloc, 1)),
    );
    let left = iota(alloc, var(alloc, 0), var(alloc, 5));
    rows.types(
        "second_part",
        3,
        left,
        iota(alloc, var(alloc, 0), var(alloc, 1)),
    );
    let left = iota(alloc, var(alloc, 0), var(alloc, 5));
    rows.types(
        "second_part",
        2,
        left,
        iota(alloc, var(alloc, 0), var(alloc, 1)),
    );
}

/// A function of types contracts with an argument of its own class, and one of the other class is an application that is stuck: one
/// pair, one for the function and one for its body, and one for the argument.
fn contracted(rows: &mut Rows) {
    let alloc = rows.alloc;
    let left = at(alloc, tlam(alloc, var(alloc, 1)), term_var(alloc, 0));
    rows.types("at", 2, left, var(alloc, 0));
    let left = at(alloc, tlam(alloc, var(alloc, 1)), term_var(alloc, 0));
    rows.types("at", 1, left, var(alloc, 0));
    let left = on(alloc, xtlam(alloc, var(alloc, 0)), pi(alloc));
    rows.types("on", 4, left, pi(alloc));
    let left = on(alloc, tlam(alloc, var(alloc, 1)), var(alloc, 0));
    let right = on(alloc, tlam(alloc, var(alloc, 1)), var(alloc, 0));
    rows.types("stuck_function", 4, left, right);
    let left = at(alloc, xtlam(alloc, var(alloc, 0)), term_var(alloc, 0));
    let right = at(alloc, xtlam(alloc, var(alloc, 0)), term_var(alloc, 0));
    rows.types("stuck_function", 3, left, right);
}

/// What is no function is stuck, too.
fn stuck(rows: &mut Rows) {
    let alloc = rows.alloc;
    let left = on(alloc, pi(alloc), var(alloc, 2));
    let right = on(alloc, pi(alloc), var(alloc, 2));
    rows.types("stuck", 5, left, right);
    let left = on(alloc, pi(alloc), var(alloc, 2));
    let right = on(alloc, pi(alloc), var(alloc, 2));
    rows.types("stuck", 4, left, right);
    let left = on(alloc, pi(alloc), var(alloc, 2));
    let right = at(alloc, pi(alloc), term_var(alloc, 2));
    rows.types("stuck_on_another", 1, left, right);
    rows.types(
        "stuck_and_former",
        1,
        on(alloc, pi(alloc), var(alloc, 2)),
        pi(alloc),
    );
}

/// A type variable with arguments of two classes, and a type's name.
fn variables(rows: &mut Rows) {
    let alloc = rows.alloc;
    let left = on(
        alloc,
        at(alloc, var(alloc, 5), term_var(alloc, 1)),
        var(alloc, 2),
    );
    let right = on(
        alloc,
        at(alloc, var(alloc, 5), term_var(alloc, 1)),
        var(alloc, 2),
    );
    rows.types("arguments", 3, left, right);
    let left = at(alloc, var(alloc, 5), term_var(alloc, 0));
    let right = on(alloc, var(alloc, 5), var(alloc, 0));
    rows.types("arguments_of_two_classes", 1, left, right);
    rows.types("type_name", 1, name(alloc, 2), name(alloc, 2));
    rows.types(
        "type_name_on",
        3,
        on(alloc, name(alloc, 2), var(alloc, 4)),
        var(alloc, 4),
    );
    rows.types(
        "type_name_on",
        2,
        on(alloc, name(alloc, 2), var(alloc, 4)),
        var(alloc, 4),
    );
}

fn kinds(rows: &mut Rows) {
    let alloc = rows.alloc;
    rows.kinds("star", 1, star(alloc), star(alloc));
    rows.kinds("star", 0, star(alloc), star(alloc));
    rows.kinds("kpit", 3, kpit(alloc), kpit(alloc));
    rows.kinds("kpit", 2, kpit(alloc), kpit(alloc));
    rows.kinds("two_kinds", 1, kpi(alloc, 0), kpit(alloc));
    rows.kinds("domains", 2, kpi(alloc, 0), kpi(alloc, 1));
    rows.kinds("domains", 1, kpi(alloc, 0), kpi(alloc, 1));
}

pub(crate) fn lines(rows: &mut Rows) {
    large(rows);
    formers(rows);
    parts_in_order(rows);
    contracted(rows);
    stuck(rows);
    variables(rows);
    kinds(rows);
}
