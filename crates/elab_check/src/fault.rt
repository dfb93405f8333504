//! Why there is no answer, as callers see it.
ghost use Rattle.elab_check.specs.Answers.{IsSigned, IsSpot, IsTold};

use cdle_names::Span;
use elab_model::Code;
use elab_rules::{At, Fault};

/// Why the rules give nothing.
#[derive(Clone, Copy, Debug, PartialEq, Eq)]
pub enum ElabFault {
    /// The rules say this code at this place.
    Reject { span: Span, code: Code },
    /// A comparison or a head form needs more units than there are: where its refusal would stand.
    Spent { span: Span },
    /// A tree is deeper than 4,096: the place of the form that gives it, or that asks for a comparison or a head form on the way to which it comes.
    TooDeep { span: Span },
    NoMemory,
}

/// The fault with its place in the text.
pub(crate) fn told(fault: Fault) -> ElabFault
    ensures { IsTold fault result }
{
    match fault {
        Fault::Rejected(at, code) => match span_of(at) {
            Some(span) => ElabFault::Reject { span, code },
            None => ElabFault::NoMemory,
        },
        Fault::Undecided(at) => match span_of(at) {
            Some(span) => ElabFault::Spent { span },
            None => ElabFault::NoMemory,
        },
        Fault::TooDeep(span) => ElabFault::TooDeep { span },
        Fault::NoMemory => ElabFault::NoMemory,
    }
}

/// The bytes at a place. There are none where a sign would end past the last byte that places can tell, which no text has.
fn span_of(at: At) -> Option<Span>
    ensures { IsSpot at result }
{
    match at {
        At::Whole(span) => Some(span),
        At::Letter(span) => signed(span, 2),
        At::Bracket(span) => signed(span, 1),
    }
}

/// The first bytes of the place.
fn signed(span: Span, length: u32) -> Option<Span>
    ensures { IsSigned span length result }
{
    match span.from.checked_add(length) {
        Some(to) => Some(Span {
            from: span.from,
            to,
        }),
        None => None,
    }
}
