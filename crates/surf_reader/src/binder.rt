//! The signs of classes that bind a name.
/// `Π`, `∀`, or the `λ` of types.
#[derive(Clone, Copy, Debug, PartialEq, Eq)]
pub enum Binder {
    Product,
    Forall,
    Lambda,
}
