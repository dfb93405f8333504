//! The rows by their names.

use crate::pure::PureShape;
use crate::types::TypeShape;

/// What a row compares.
#[derive(Clone, Copy)]
pub(crate) enum Row {
    Pure(PureShape, PureShape),
    Types(TypeShape, TypeShape),
    Kinds,
}

/// The row of that name; none where there is no such row.
pub(crate) fn row_of(name: &str) -> Option<Row> {
    if name.starts_with("eta") {
        return eta_row(name);
    }
    if name.starts_with("name") {
        return name_row(name);
    }
    match name {
        "never_reached" => Some(Row::Pure(PureShape::FirstOfTwo, PureShape::Identity)),
        "omega" => Some(Row::Pure(PureShape::Omega, PureShape::Omega)),
        "variables" => Some(Row::Pure(PureShape::First, PureShape::Second)),
        "more_arguments" => Some(Row::Pure(PureShape::FirstOnSecond, PureShape::First)),
        "second_argument" => {
            Some(Row::Pure(
                PureShape::FirstOnSecondAndFirst,
                PureShape::FirstOnSecondTwice,
            ))
        }
        "spine" => Some(Row::Pure(PureShape::AppliedOften, PureShape::AppliedOften)),
        "kinds" => Some(Row::Kinds),
        _ => type_row(name),
    }
}

/// The rows in which a function stands against what is none.
fn eta_row(name: &str) -> Option<Row> {
    match name {
        "eta_left" => Some(Row::Pure(PureShape::FirstOnSecond, PureShape::Identity)),
        "eta_right" => Some(Row::Pure(PureShape::Identity, PureShape::FirstOnSecond)),
        "eta_free_left" => Some(Row::Pure(PureShape::SecondOnSecond, PureShape::Identity)),
        "eta_free_right" => Some(Row::Pure(PureShape::Identity, PureShape::SecondOnSecond)),
        "eta_spine_left" => Some(Row::Pure(PureShape::AppliedOnceMore, PureShape::AppliedOften)),
        "eta_spine_right" => Some(Row::Pure(PureShape::AppliedOften, PureShape::AppliedOnceMore)),
        _ => None,
    }
}

/// The rows of names.
fn name_row(name: &str) -> Option<Row> {
    match name {
        "name" => Some(Row::Pure(PureShape::Name, PureShape::Name)),
        "name_other" => Some(Row::Pure(PureShape::Name, PureShape::OtherName)),
        "name_applied" => Some(Row::Pure(PureShape::AppliedName, PureShape::AppliedName)),
        _ => None,
    }
}

/// The rows of erased types.
fn type_row(name: &str) -> Option<Row> {
    match name {
        "tower" => Some(Row::Types(TypeShape::EqualTower, TypeShape::EqualIdentity)),
        "growing" => Some(Row::Types(TypeShape::EqualGrowing, TypeShape::EqualIdentity)),
        "doubled" => Some(Row::Types(TypeShape::DoubledFunctions, TypeShape::DoubledFunctions)),
        "formers" => Some(Row::Types(TypeShape::Functions, TypeShape::ErasedFunctions)),
        "stuck" => Some(Row::Types(TypeShape::Stuck, TypeShape::Stuck)),
        _ => None,
    }
}
