//! Whether two erased trees are equal.
ghost use Rattle.std.specs.Prelude.{◌≡◌, ◌↔◌, IsTrue};
ghost use Rattle.cdle_model.specs.Forms.{allt, at_, eq};

use elab_tree::{EGuide, EGuideForm, EGuideKind, EGuideKindForm, EPure, EPureForm};

/// Whether the guides are equal.
#[cycle(same)]
pub(crate) fn same_guides(left: &EGuide, right: &EGuide) -> bool
    ensures { IsTrue result ↔ left.now ≡ right.now }
{
    match left.form() {
        EGuideForm::Var(index) => match right.form() {
            EGuideForm::Var(other) => *index == *other,
            _ => false,
        },
        EGuideForm::Name(item) => match right.form() {
            EGuideForm::Name(other) => *item == *other,
            _ => false,
        },
        EGuideForm::Unknown(number) => match right.form() {
            EGuideForm::Unknown(other) => *number == *other,
            _ => false,
        },
        EGuideForm::Pi(domain, part) => match right.form() {
            EGuideForm::Pi(from, to) => same_both(domain, part, from, to),
            _ => false,
        },
        EGuideForm::All(domain, part) => match right.form() {
            EGuideForm::All(from, to) => same_both(domain, part, from, to),
            _ => false,
        },
        EGuideForm::Iota(domain, part) => match right.form() {
            EGuideForm::Iota(from, to) => same_both(domain, part, from, to),
            _ => false,
        },
        EGuideForm::On(head, arg) => match right.form() {
            EGuideForm::On(other, by) => same_both(head, arg, other, by),
            _ => false,
        },
        EGuideForm::Allt(domain, part) => same_kinded(domain, part, right),
        EGuideForm::Tlam(part) => match right.form() {
            EGuideForm::Tlam(other) => same_guides(part, other),
            _ => false,
        },
        EGuideForm::Xtlam(part) => match right.form() {
            EGuideForm::Xtlam(other) => same_guides(part, other),
            _ => false,
        },
        EGuideForm::At(head, arg) => same_applied(head, arg, right),
        EGuideForm::Eq(first, second) => same_sides(first, second, right),
    }
}

/// Whether each of two guides is equal to its other.
#[cycle(same)]
fn same_both(first: &EGuide, second: &EGuide, from: &EGuide, to: &EGuide) -> bool
    ensures { IsTrue result ↔ (first.now ≡ from.now) × (second.now ≡ to.now) }
{
    same_guides(first, from) && same_guides(second, to)
}

/// Whether the guide is the product of these two over types.
#[cycle(same)]
fn same_kinded(domain: &EGuideKind, part: &EGuide, right: &EGuide) -> bool
    ensures { IsTrue result ↔ allt domain.now part.now ≡ right.now }
{
    match right.form() {
        EGuideForm::Allt(from, to) => same_guide_kinds(domain, from) && same_guides(part, to),
        _ => false,
    }
}

/// Whether the guide is the first of these two applied to the second.
#[cycle(same)]
fn same_applied(head: &EGuide, arg: &EPure, right: &EGuide) -> bool
    ensures { IsTrue result ↔ at_ head.now arg.now ≡ right.now }
{
    match right.form() {
        EGuideForm::At(other, by) => same_guides(head, other) && same_pures(arg, by),
        _ => false,
    }
}

/// Whether the guide kinds are equal.
#[cycle(same)]
fn same_guide_kinds(left: &EGuideKind, right: &EGuideKind) -> bool
    ensures { IsTrue result ↔ left.now ≡ right.now }
{
    match left.form() {
        EGuideKindForm::Star => match right.form() {
            EGuideKindForm::Star => true,
            _ => false,
        },
        EGuideKindForm::Kpi(domain, part) => match right.form() {
            EGuideKindForm::Kpi(from, to) => {
                same_guides(domain, from) && same_guide_kinds(part, to)
            }
            _ => false,
        },
        EGuideKindForm::Kpit(domain, part) => match right.form() {
            EGuideKindForm::Kpit(from, to) => {
                same_guide_kinds(domain, from) && same_guide_kinds(part, to)
            }
            _ => false,
        },
    }
}

/// Whether the guide is the equation of these two.
fn same_sides(first: &EPure, second: &EPure, right: &EGuide) -> bool
    ensures { IsTrue result ↔ eq first.now second.now ≡ right.now }
{
    match right.form() {
        EGuideForm::Eq(from, to) => same_pures(first, from) && same_pures(second, to),
        _ => false,
    }
}

/// Whether the pure terms are equal.
fn same_pures(left: &EPure, right: &EPure) -> bool
    ensures { IsTrue result ↔ left.now ≡ right.now }
{
    match left.form() {
        EPureForm::Var(index) => match right.form() {
            EPureForm::Var(other) => *index == *other,
            _ => false,
        },
        EPureForm::Name(item) => match right.form() {
            EPureForm::Name(other) => *item == *other,
            _ => false,
        },
        EPureForm::Function(part) => match right.form() {
            EPureForm::Function(other) => same_pures(part, other),
            _ => false,
        },
        EPureForm::Ap(head, arg) => match right.form() {
            EPureForm::Ap(other, by) => same_pures(head, other) && same_pures(arg, by),
            _ => false,
        },
    }
}
