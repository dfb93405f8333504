//! The forms of a guide with a guide and a guide over its variable.

/// Which of these forms it is.
#[derive(Clone, Copy)]
pub enum Product {
    Pi,
    All,
    Iota,
}
