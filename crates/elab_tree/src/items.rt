//! What elaboration gives, and the arguments of a spine.
ghost use Rattle.std.specs.Prelude.{◌≡◌, IfOk};
ghost use Rattle.cdle_model.specs.Forms.{name_of};
ghost use Rattle.elab_tree.specs.Items.{written, IsErasedBody};

use crate::guide::EGuide;
use crate::pure::EPure;
use crate::sharing::share_both;
use crate::term::{EKind, ETerm, EType};
use cdle_model::{NoMemory, Text};
use std::alloc::Global;

/// An item that elaboration gives: a term under its type, or a type under its kind.
#[derive(Drop)]
pub enum OutItem {
    Def {
        name: Text,
        ty: EType,
        body: ETerm,
    },
    TypeDef {
        name: Text,
        kind: EKind,
        body: EType,
    },
}

impl OutItem {
    /// The name that the item gives.
    pub fn name(&self) -> &Text
        ensures { result.now ≡ name_of (written self.now) }
    {
        match self {
            OutItem::Def { name, .. } => name,
            OutItem::TypeDef { name, .. } => name,
        }
    }

    /// The same item once more. Its trees are shared, and its name is copied.
    pub fn copy(&self, alloc: Global) -> Result<OutItem, NoMemory>
        ensures { IfOk result (λ copy. written copy ≡ written self.now) }
    {
        let name = Text::new(alloc, self.name().as_str())?;
        match self {
            OutItem::Def { ty, body, .. } => {
                let (ty, body) = share_both(ty, body)?;
                Ok(OutItem::Def { name, ty, body })
            }
            OutItem::TypeDef { kind, body, .. } => {
                let (kind, body) = share_both(kind, body)?;
                Ok(OutItem::TypeDef { name, kind, body })
            }
        }
    }

    /// What is left of the body by erasure.
    pub(crate) fn erased_body(&self, alloc: Global) -> Result<ErasedBody, NoMemory>
        ensures { IfOk result (λ erased. IsErasedBody (written self.now) erased) }
    {
        match self {
            OutItem::Def { body, .. } => Ok(ErasedBody::OfTerm(body.erase(alloc)?)),
            OutItem::TypeDef { body, .. } => Ok(ErasedBody::OfType(body.erase(alloc)?)),
        }
    }
}

/// What is left of an item's body by erasure: of a term a pure term, of a type a guide.
#[derive(Drop)]
pub enum ErasedBody {
    OfTerm(EPure),
    OfType(EGuide),
}

/// An argument of a spine.
#[derive(Drop)]
pub enum EArg {
    Term(ETerm),
    OfType(EType),
}
