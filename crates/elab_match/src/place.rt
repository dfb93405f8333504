//! The first place of an unknown.
ghost use Rattle.std.specs.Prelude.{◌+◌, ◌<◌, ◌≤◌, suc};
ghost use Rattle.cdle_model.specs.Depth.{depth};
ghost use Rattle.elab_model.specs.Instances.{first_place, of_head, or_part};
ghost use Rattle.elab_match.specs.Answers.{IsPart};

use elab_tree::{EKind, EKindForm, EType, ETypeForm};

/// A part of the target, and under how many of the pattern's binders it stands.
#[derive(Clone, Copy)]
pub(crate) struct Part<'a> {
    pub(crate) binders: u32,
    pub(crate) ty: &'a EType,
}

/// The target's part at the first place of the unknown from the left that is not the head of an application, in a pattern under so many
/// binders.
#[cycle(place)]
pub(crate) fn type_place<'a>(
    pattern: &EType,
    target: &'a EType,
    number: u32,
    binders: u32,
) -> Option<Part<'a>>
    requires { binders + depth pattern.now ≤ 40000 }
    ensures { IsPart (first_place number binders pattern.now target.now) result }
{
    match pattern.form() {
        ETypeForm::Unknown(other) => {
            if number == *other {
                Some(Part {
                    binders,
                    ty: target,
                })
            } else {
                None
            }
        }
        ETypeForm::At(head, _) => match target.form() {
            ETypeForm::At(other, _) => head_place(head, other, number, binders),
            _ => None,
        },
        ETypeForm::On(head, arg) => match target.form() {
            ETypeForm::On(other, by) => applied_place(head, arg, other, by, number, binders),
            _ => None,
        },
        ETypeForm::Pi(domain, part) => match target.form() {
            ETypeForm::Pi(from, to) => bound_place(domain, part, from, to, number, binders),
            _ => None,
        },
        ETypeForm::All(domain, part) => match target.form() {
            ETypeForm::All(from, to) => bound_place(domain, part, from, to, number, binders),
            _ => None,
        },
        ETypeForm::Iota(domain, part) => match target.form() {
            ETypeForm::Iota(from, to) => bound_place(domain, part, from, to, number, binders),
            _ => None,
        },
        ETypeForm::Allt(domain, part) => match target.form() {
            ETypeForm::Allt(from, to) => kinded_place(domain, part, from, to, number, binders),
            _ => None,
        },
        ETypeForm::Tlam(_, part) => match target.form() {
            ETypeForm::Tlam(_, to) => type_place(part, to, number, binders + 1),
            _ => None,
        },
        ETypeForm::Xtlam(_, part) => match target.form() {
            ETypeForm::Xtlam(_, to) => type_place(part, to, number, binders + 1),
            _ => None,
        },
        ETypeForm::Var(_) | ETypeForm::Name(_) | ETypeForm::Eq(_, _) => None,
    }
}

/// The same in the head of an application, which is no place itself.
#[cycle(place)]
fn head_place<'a>(head: &EType, target: &'a EType, number: u32, binders: u32) -> Option<Part<'a>>
    requires { binders + depth head.now ≤ 40000 }
    ensures { IsPart (of_head head.now (first_place number binders head.now target.now)) result }
{
    if let ETypeForm::Unknown(_) = head.form() {
        return None;
    }
    type_place(head, target, number, binders)
}

/// The same in the head of an application, and else in the type that it is applied to.
#[cycle(place)]
fn applied_place<'a>(
    head: &EType,
    arg: &EType,
    other: &'a EType,
    by: &'a EType,
    number: u32,
    binders: u32,
) -> Option<Part<'a>>
    requires head { binders + depth head.now ≤ 40000 }
    requires arg { binders + depth arg.now ≤ 40000 }
    ensures { IsPart (or_part (of_head head.now (first_place number binders head.now other.now)) (first_place number binders arg.now by.now)) result }
{
    match head_place(head, other, number, binders) {
        Some(part) => Some(part),
        None => type_place(arg, by, number, binders),
    }
}

/// The same in a domain, and else in what stands under its binder.
#[cycle(place)]
fn bound_place<'a>(
    domain: &EType,
    part: &EType,
    from: &'a EType,
    to: &'a EType,
    number: u32,
    binders: u32,
) -> Option<Part<'a>>
    requires domain { binders + depth domain.now ≤ 40000 }
    requires part { binders + depth part.now < 40000 }
    ensures { IsPart (or_part (first_place number binders domain.now from.now) (first_place number (suc binders) part.now to.now)) result }
{
    match type_place(domain, from, number, binders) {
        Some(part) => Some(part),
        None => type_place(part, to, number, binders + 1),
    }
}

/// The same where the domain is a kind.
#[cycle(place)]
fn kinded_place<'a>(
    domain: &EKind,
    part: &EType,
    from: &'a EKind,
    to: &'a EType,
    number: u32,
    binders: u32,
) -> Option<Part<'a>>
    requires domain { binders + depth domain.now ≤ 40000 }
    requires part { binders + depth part.now < 40000 }
    ensures { IsPart (or_part (first_place number binders domain.now from.now) (first_place number (suc binders) part.now to.now)) result }
{
    match kind_place(domain, from, number, binders) {
        Some(part) => Some(part),
        None => type_place(part, to, number, binders + 1),
    }
}

/// The same in a kind.
#[cycle(place)]
fn kind_place<'a>(pattern: &EKind, target: &'a EKind, number: u32, binders: u32) -> Option<Part<'a>>
    requires { binders + depth pattern.now ≤ 40000 }
    ensures { IsPart (first_place number binders pattern.now target.now) result }
{
    match pattern.form() {
        EKindForm::Star => None,
        EKindForm::Kpi(domain, part) => match target.form() {
            EKindForm::Kpi(from, to) => match type_place(domain, from, number, binders) {
                Some(part) => Some(part),
                None => kind_place(part, to, number, binders + 1),
            },
            _ => None,
        },
        EKindForm::Kpit(domain, part) => match target.form() {
            EKindForm::Kpit(from, to) => match kind_place(domain, from, number, binders) {
                Some(part) => Some(part),
                None => kind_place(part, to, number, binders + 1),
            },
            _ => None,
        },
    }
}
