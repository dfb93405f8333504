//! Names, where they are used.
ghost use Rattle.std.specs.Prelude.{◌≡◌, ◌∷◌, []};
ghost use Rattle.source_model.specs.Source.{use_of};
ghost use Rattle.source_model.specs.Grammar.{Make, Owner, Read};
ghost use Rattle.source_model.specs.Grammar as m;
ghost use Rattle.surf_tree.specs.Forms.{name_use, place};
ghost use Rattle.surf_reader.specs.View.{Goes, class_part, name_tree, on_token, term_part};

use crate::error::ParseFault;
use crate::reader::Reader;
use crate::spans::between;
use crate::token::Named;
use cdle_names::Span;
use surf_tree::{NameUse, Src, SrcClass, SrcType};

/// A name with its place, by its first token and the name behind its `#`.
pub fn used(first: Named, second: Option<Named>) -> (NameUse, Span)
    ensures { use_of (place result.1) (name_use result.0) ≡ name_tree first second }
{
    match second {
        None => {
            let name = NameUse {
                module: None,
                name: first.name,
            };
            (name, first.span)
        }
        Some(second) => {
            let name = NameUse {
                module: Some(first.name),
                name: second.name,
            };
            (name, between(first, second))
        }
    }
}

impl<'a> Reader<'a> {
    /// A name of a type, behind its first token.
    pub fn type_name(&self, first: Named, at: usize) -> Result<((u32, SrcClass), usize), ParseFault>
        ensures { Goes self.now class_part result (Read Owner ∷ Make m.Named ∷ []) (on_token first) at }
    {
        let (second, at) = self.owner(at)?;
        let (name, span) = used(first, second);
        let ty = SrcType::name(self.alloc, span, name)?;
        Ok(((first.span.from, SrcClass::OfType(ty)), at))
    }

    /// A name of a term, behind its first token.
    pub fn term_name(&self, first: Named, at: usize) -> Result<((u32, Src), usize), ParseFault>
        ensures { Goes self.now term_part result (Read Owner ∷ Make m.Named ∷ []) (on_token first) at }
    {
        let (second, at) = self.owner(at)?;
        let (name, span) = used(first, second);
        let term = Src::name(self.alloc, span, name)?;
        Ok(((first.span.from, term), at))
    }
}
