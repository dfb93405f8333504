//! Reading the names of a branch's pattern.
ghost use Rattle.std.specs.Prelude.{◌≡◌, ◌∷◌, ◌++◌, [], ℕ, List, Ok, Some, None, length, ◌-◌, ◌<◌};
ghost use Rattle.source_model.specs.Source.{Pattern};
ghost use Rattle.source_model.specs.Grammar.{Make, Patterns, Read, The, Token};
ghost use Rattle.source_model.specs.Grammar as m;
ghost use Rattle.source_model.specs.Made.{span};
ghost use Rattle.source_model.specs.Rows.{binding, sign};
ghost use Rattle.source_model.specs.Parsing.{one};
ghost use Rattle.surf_tree.specs.Forms.{pattern_of};
ghost use Rattle.surf_reader.specs.View.{Goes, Patterned, Told, given_of, here, pattern_with, patterns_of};

use crate::error::ParseFault;
use crate::reader::Reader;
use crate::token::Named;
use cdle_model::Mode;
use source_model::TokenKind;
use surf_tree::SrcPattern;

impl<'a> Reader<'a> {
    /// All the names of a pattern.
    pub fn patterns(&self, at: usize) -> Result<(Vec<SrcPattern>, usize), ParseFault>
        ensures { Told self.now patterns_of result (λ vs. one (given_of self.now) (Read Patterns) (here self.now at (m.patterns [] ∷ vs))) }
    {
        let mut list = Vec::new(self.alloc);
        let mut to = at;
        'patterns: while let Some((pattern, next)) = self.pattern(to)? {
            list.push(pattern)?;
            to = next;
        }
        Ok((list, to))
    }

    /// The name of a pattern that is next, if one is.
    fn pattern(&self, at: usize) -> Result<Option<(SrcPattern, usize)>, ParseFault>
        ensures gives { Patterned self.now at result }
        ensures moves { (x : _) → result ≡ Ok (Some x) → length self.now.tokens.now - x.1 < length self.now.tokens.now - at }
    {
        match self.peek(at) {
            None => Ok(None),
            Some(token) => match token.kind {
                TokenKind::Name => Ok(Some((named(Mode::Kept, token), at + 1))),
                TokenKind::Minus => Ok(Some(self.marked(Mode::Erased, at + 1)?)),
                TokenKind::MiddleDot => Ok(Some(self.marked(Mode::OfType, at + 1)?)),
                _ => Ok(None),
            },
        }
    }

    /// A name of a pattern behind its sign.
    fn marked(&self, mode: Mode, at: usize) -> Result<(SrcPattern, usize), ParseFault>
        ensures { (d : Token ℕ) (ps : List (Pattern _)) → Goes self.now (λ p vs. m.patterns (ps ++ pattern_of p ∷ []) ∷ vs) result (binding ∷ Make (m.APattern mode) ∷ []) (λ vs. m.token d ∷ m.patterns ps ∷ vs) at }
    {
        let (name, at) = self.binding(at)?;
        Ok((named(mode, name), at))
    }
}

fn named(mode: Mode, name: Named) -> SrcPattern
    ensures { pattern_of result ≡ pattern_with mode name }
{
    SrcPattern {
        mode,
        name: name.name,
        span: name.span,
    }
}
