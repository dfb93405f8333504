//! The places of parts: from a first token or part to a last one.
ghost use Rattle.std.specs.Prelude.{◌≡◌};
ghost use Rattle.source_model.specs.Made.{across, from_of, span, to_of};
ghost use Rattle.surf_tree.specs.Forms.{class_tree, place};

use crate::token::Named;
use cdle_names::Span;
use surf_tree::{Src, SrcClass, SrcType};

fn class_span(class: &SrcClass) -> Span
    ensures { place result ≡ span (from_of (class_tree class.now)) (to_of (class_tree class.now)) }
{
    match class {
        SrcClass::OfKind(kind) => kind.span(),
        SrcClass::OfType(ty) => ty.span(),
    }
}

fn join(first: Span, last: Span) -> Span
    ensures { place result ≡ span first.from last.to }
{
    Span {
        from: first.from,
        to: last.to,
    }
}

pub fn between(first: Named, last: Named) -> Span
    ensures { place result ≡ span first.span.from last.span.to }
{
    join(first.span, last.span)
}

pub fn to_term(first: Named, last: &Src) -> Span
    ensures { place result ≡ span first.span.from (to_of last.now) }
{
    join(first.span, last.span())
}

pub fn to_type(first: Named, last: &SrcType) -> Span
    ensures { place result ≡ span first.span.from (to_of last.now) }
{
    join(first.span, last.span())
}

pub fn to_class(first: Named, last: &SrcClass) -> Span
    ensures { place result ≡ span first.span.from (to_of (class_tree last.now)) }
{
    join(first.span, class_span(last))
}

pub fn over_terms(first: &Src, last: &Src) -> Span
    ensures { place result ≡ across first.now last.now }
{
    join(first.span(), last.span())
}

pub fn over_term_and_type(first: &Src, last: &SrcType) -> Span
    ensures { place result ≡ across first.now last.now }
{
    join(first.span(), last.span())
}

pub fn over_type_and_term(first: &SrcType, last: &Src) -> Span
    ensures { place result ≡ across first.now last.now }
{
    join(first.span(), last.span())
}

pub fn over_types(first: &SrcType, last: &SrcType) -> Span
    ensures { place result ≡ across first.now last.now }
{
    join(first.span(), last.span())
}

pub fn over_classes(first: &SrcClass, last: &SrcClass) -> Span
    ensures { place result ≡ across (class_tree first.now) (class_tree last.now) }
{
    join(class_span(first), class_span(last))
}

pub fn term_to_token(first: &Src, last: Named) -> Span
    ensures { place result ≡ span (from_of first.now) last.span.to }
{
    join(first.span(), last.span)
}

pub fn over_class_and_type(first: &SrcClass, last: &SrcType) -> Span
    ensures { place result ≡ across (class_tree first.now) last.now }
{
    join(class_span(first), last.span())
}
