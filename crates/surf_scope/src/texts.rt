//! Texts made of others.
ghost use Rattle.std.specs.Prelude.{◌≡◌, ◌++◌, codes, IfOk};

use cdle_model::Text;
use std::alloc::{AllocError, Global};

/// Two texts, one behind the other.
pub(crate) fn joined(alloc: Global, front: &str, behind: &str) -> Result<Text, AllocError>
    ensures { IfOk result (λ text. text ≡ front.now ++ behind.now) }
{
    let mut text = String::from_str(alloc, front)?;
    text.push_str(behind)?;
    Text::new(alloc, text.as_str())
}

/// The written name `M.x`.
pub(crate) fn written(alloc: Global, module: &str, name: &str) -> Result<Text, AllocError>
    ensures { IfOk result (λ text. text ≡ «module».now ++ (codes "." ++ name.now)) }
{
    let mut text = String::from_str(alloc, module)?;
    text.push_str(".")?;
    text.push_str(name)?;
    Text::new(alloc, text.as_str())
}
