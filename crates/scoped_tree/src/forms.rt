//! What stands in a tree beside its parts.
use cdle_model::Mode;
use cdle_names::Span;

/// What a name stands for.
#[derive(Clone, Copy, Debug, PartialEq, Eq)]
pub enum Reference {
    /// The variable with so many binders between it and its own.
    Variable(u32),
    /// The item with that number among all Core items.
    Item(u32),
    /// In a branch of `μ r` the cast `to/r`, by the variable of the proof along which it casts.
    Cast(u32),
}

/// Forms without parts.
#[derive(Clone, Copy, Debug, PartialEq, Eq)]
pub enum LeafForm {
    /// The kind `★`.
    Star,
    /// A part that is left out.
    LeftOut,
}

/// Forms of one part.
#[derive(Clone, Copy, Debug, PartialEq, Eq)]
pub enum OneForm {
    /// `t.1`.
    Fst,
    /// `t.2`.
    Snd,
    /// `ς q`.
    Flip,
}

/// Forms of two parts.
#[derive(Clone, Copy, Debug, PartialEq, Eq)]
pub enum TwoForm {
    /// `t u`.
    App,
    /// `t -u`.
    Eapp,
    /// `t ·A`.
    Tapp,
    /// A type applied to a term.
    At,
    /// A type applied to a type.
    On,
    /// `[t, u]`.
    Pair,
    /// `{ t ≃ u }`.
    Eq,
    /// `β<t>{u}`, of which each may be left out.
    Beta,
    /// `δ A - q`, of which A may be left out.
    Delta,
    /// `χ A - t`.
    Chi,
    /// `φ q - t {p}`: the group of q and t, and p.
    Phi,
    /// `ρ q @ x . G - t`: the guide with its proof q, and t.
    Rho,
    /// The first two parts of `φ`.
    Group,
}

/// Forms of two parts of which the second stands under the binder.
#[derive(Clone, Copy, Debug, PartialEq, Eq)]
pub enum BindForm {
    /// `Π x : A . B`.
    Pi,
    /// `∀ x : A . B` over a term.
    All,
    /// `∀ X : κ . B` over a type.
    Allt,
    /// `λ x : A . B`, a type over a term.
    Tlam,
    /// `λ X : κ . B`, a type over a type.
    Xtlam,
    /// `ι x : A . B`.
    Iota,
    /// `Π x : A . κ`, a kind over a term.
    Kpi,
    /// `Π X : κ . κ`, a kind over a type.
    Kpit,
    /// `λ x : A . t`, of which A may be left out.
    Lam,
    /// `Λ x : A . t` over a term, of which A may be left out.
    Elam,
    /// `Λ X : κ . t` over a type, of which κ may be left out.
    Xlam,
    /// `Λ x . t` where no name stands for x.
    Unclassed,
    /// The proof of `ρ`, and its guide under the variable.
    Guide,
}

/// Forms that take a value apart.
#[derive(Clone, Copy, Debug, PartialEq, Eq)]
pub enum CaseForm {
    /// `μ r . t`.
    Mu,
    /// `σ t`.
    Sigma,
}

/// A name of a branch's pattern, with its place.
#[derive(Clone, Copy, Debug, PartialEq, Eq)]
pub struct Argument {
    pub mode: Mode,
    pub span: Span,
}
