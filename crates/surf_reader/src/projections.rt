//! Reading the projections behind an atom.
ghost use Rattle.std.specs.Prelude.{◌≡◌, ◌+◌, ◌<◌, ◌∷◌, length, Ok, Some, None};
ghost use Rattle.source_model.specs.Grammar.{Read, Projections};
ghost use Rattle.source_model.specs.Grammar as m;
ghost use Rattle.source_model.specs.Made.{behind};
ghost use Rattle.source_model.specs.Parsing.{one};
ghost use Rattle.surf_reader.specs.View.{Projected, Projects, Told, given_of, here, term_part};

use crate::error::ParseFault;
use crate::reader::Reader;
use crate::spans::term_to_token;
use crate::token::Named;
use source_model::TokenKind;
use surf_tree::Src;

impl<'a> Reader<'a> {
    /// A part with `.1`.
    fn first(&self, term: &Src, token: Named, at: usize) -> Result<Src, ParseFault>
        ensures { Projects self.now term.now token m.Fst result at }
    {
        let made = Src::fst(self.alloc, term_to_token(term, token), term)?;
        self.shallow(&made, at)?;
        Ok(made)
    }

    /// A part with `.2`.
    fn second(&self, term: &Src, token: Named, at: usize) -> Result<Src, ParseFault>
        ensures { Projects self.now term.now token m.Snd result at }
    {
        let made = Src::snd(self.alloc, term_to_token(term, token), term)?;
        self.shallow(&made, at)?;
        Ok(made)
    }

    /// The part with the projection that is next, if one is.
    fn projection(&self, first: u32, term: &Src, at: usize) -> Result<Option<Src>, ParseFault>
        ensures gives { Projected self.now first term.now at result }
        ensures inside { (t : _) → result ≡ Ok (Some t) → at < length self.now.tokens.now }
    {
        match self.peek(at) {
            None => Ok(None),
            Some(token) => match token.kind {
                TokenKind::First => Ok(Some(self.first(term, token, at + 1)?)),
                TokenKind::Second => Ok(Some(self.second(term, token, at + 1)?)),
                _ => Ok(None),
            },
        }
    }

    /// The part with all the projections behind it.
    pub fn projections(
        &self,
        first: u32,
        term: Src,
        at: usize,
    ) -> Result<((u32, Src), usize), ParseFault>
        ensures { Told self.now term_part result (λ vs. one (given_of self.now) (Read Projections) (here self.now at (m.part first term ∷ vs))) }
    {
        let mut now = term;
        let mut to = at;
        'projections: while let Some(more) = self.projection(first, &now, to)? {
            now = more;
            to += 1;
        }
        Ok(((first, now), to))
    }
}
