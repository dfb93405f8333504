//! Answers, as they are printed.

use core_text::CoreTextFault;
use core_tree::{Checked, CoreFault, Path, Why};
use std::fmt;

/// What became of a row.
#[derive(Drop)]
pub(crate) enum Answer {
    Checked(Result<Checked, CoreFault>),
    Unread(CoreTextFault),
}

/// A path, as it is printed: its numbers, with a stroke before each.
#[derive(Drop)]
struct Numbers<'a> {
    path: &'a Path,
}

impl<'a> fmt::Display for Numbers<'a> {
    fn fmt<W: fmt::Write>(&self, f: &mut fmt::Formatter<W>) -> fmt::Result {
        for number in self.path.numbers() {
            write!(f, "/{number}")?;
        }
        Ok(())
    }
}

impl fmt::Display for Answer {
    fn fmt<W: fmt::Write>(&self, f: &mut fmt::Formatter<W>) -> fmt::Result {
        match self {
            Answer::Checked(Ok(checked)) => {
                let items = checked.items;
                write!(f, "accepted {items}")
            }
            Answer::Checked(Err(CoreFault::Refused { item, path, why })) => {
                let path = Numbers { path };
                let why = word(why);
                write!(f, "refused {item} at {path}: {why}")
            }
            Answer::Checked(Err(CoreFault::Undecided { item, path })) => {
                let path = Numbers { path };
                write!(f, "undecided {item} at {path}")
            }
            Answer::Checked(Err(CoreFault::Duplicate { item, earlier })) => {
                write!(f, "duplicate {item} of {earlier}")
            }
            Answer::Checked(Err(CoreFault::TooDeep { item })) => write!(f, "too deep {item}"),
            Answer::Checked(Err(CoreFault::NoMemory)) => write!(f, "out of memory"),
            Answer::Unread(fault) => write!(f, "no text: {fault:?}"),
        }
    }
}

fn word(why: &Why) -> &'static str {
    match why {
        Why::NotAFunction { .. } => "not a function",
        Why::NotAnIntersection { .. } => "not an intersection",
        Why::NotAnEquation { .. } => "not an equation",
        Why::WrongKind {
            wanted: Some(_),
            ..
        } => "wrong kind",
        Why::WrongKind { wanted: None, .. } => "no product of kinds",
        Why::Mismatch { .. } => "mismatch",
        Why::ErasedUse => "erased variable used",
        Why::PartsDiffer { .. } => "parts differ",
        Why::NotBooleans { .. } => "not booleans",
        Why::SidesDiffer { .. } => "sides differ",
    }
}
