//! The items of a module.
use crate::node::{Src, SrcClass, SrcKind, SrcType};
use cdle_names::{NameId, Span};

/// A parameter of a datatype, with the place of its name.
#[derive(Drop)]
pub struct SrcParam {
    pub name: NameId,
    pub span: Span,
    pub class: SrcClass,
}

/// A constructor, with the place of its name.
#[derive(Drop)]
pub struct SrcCtor {
    pub name: NameId,
    pub span: Span,
    pub ty: SrcType,
}

/// An item, with the place of its name.
#[derive(Drop)]
pub enum SrcItem {
    /// A term with its type.
    Def {
        name: NameId,
        span: Span,
        ty: SrcType,
        body: Src,
    },
    /// A type with its kind.
    TypeDef {
        name: NameId,
        span: Span,
        kind: SrcKind,
        body: SrcType,
    },
    /// A datatype.
    Data {
        name: NameId,
        span: Span,
        params: Vec<SrcParam>,
        ctors: Vec<SrcCtor>,
    },
}

/// A module. Each import has the place of its name.
#[derive(Drop)]
pub struct SrcModule {
    pub name: NameId,
    pub imports: Vec<(NameId, Span)>,
    pub items: Vec<SrcItem>,
}
