//! The items of a module whose scope is known.
use crate::node::Scoped;
use cdle_model::{Sort, Text};
use cdle_names::Span;

/// A parameter of a datatype, with the place of its name and what it is: a type where its class is a kind, and else a term.
#[derive(Drop)]
pub struct ScopedParam {
    pub span: Span,
    pub sort: Sort,
    pub class: Scoped,
}

/// A constructor with its written name `M.c`, and the place of its name.
#[derive(Drop)]
pub struct ScopedCtor {
    pub name: Text,
    pub span: Span,
    pub ty: Scoped,
}

/// A datatype with its written name `M.D`, the number of the first of its Core items, and the place of its name.
#[derive(Drop)]
pub struct ScopedData {
    pub name: Text,
    pub first: u32,
    pub span: Span,
    pub params: Vec<ScopedParam>,
    pub ctors: Vec<ScopedCtor>,
}

/// An item with its written name `M.x`, and the place of its name.
#[derive(Drop)]
pub enum ScopedItem {
    /// A term with its type.
    Def {
        name: Text,
        span: Span,
        ty: Scoped,
        body: Scoped,
    },
    /// A type with its kind.
    TypeDef {
        name: Text,
        span: Span,
        kind: Scoped,
        body: Scoped,
    },
    /// A datatype.
    Data(ScopedData),
}

/// A Core item as its module's text names it, and whether it is a term or a type.
#[derive(Drop)]
pub struct ItemName {
    pub text: Text,
    pub sort: Sort,
}

/// A module: its name, the number that the first of its Core items has or would have, the names of these in order, and its items.
#[derive(Drop)]
pub struct ScopedModule {
    pub name: Text,
    pub first: u32,
    pub names: Vec<ItemName>,
    pub items: Vec<ScopedItem>,
}
