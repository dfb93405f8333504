//! Reading a term or a class: the recursive part of the parser of surface text.
//!
//! `term` and `class` give exactly what the definition of surface text says is read at a place, or its fault there. There is one function
//! for each row of the grammar that has a part; what a row makes and tests stands in `surf_reader`. Nesting is counted by a parameter, which
//! is also what the recursion goes by.
#![tactic(auto)]

mod atoms;
mod cases;
mod classes;
mod terms;

pub use classes::class;
pub use terms::term;
