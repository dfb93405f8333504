//! Reading single tokens, each where the grammar wants it.
ghost use Rattle.std.specs.Prelude.{◌≡◌, ◌+◌, ◌<◌, ◌∷◌, [], ℕ, length, IfSome, None};
ghost use Rattle.source_model.specs.Grammar.{The, Owner, Make, Token};
ghost use Rattle.source_model.specs.Grammar as m;
ghost use Rattle.source_model.specs.Rows.{binding};
ghost use Rattle.source_model.specs.declared.token.TokenKind.TheVariants as kinds;
ghost use Rattle.source_model.specs.declared.wanted.Wanted.TheVariants as wanteds;
ghost use Rattle.surf_reader.specs.View.{Gives, Goes, Lacks, Next, Taken, before, on_token, owner_value, rest};

use crate::error::ParseFault;
use crate::kinds::is_same;
use crate::token::Named;
use cdle_names::NameTable;
use source_model::{TokenKind, Wanted};
use std::alloc::Global;

/// What reading goes by: the tokens, the texts of names, the module's name, the length of the text, and where memory comes from.
#[derive(Clone, Copy)]
pub struct Reader<'a> {
    pub alloc: Global,
    pub tokens: &'a [Named],
    pub names: &'a NameTable,
    pub module: &'a [u8],
    pub end: u32,
}

impl<'a> Reader<'a> {
    /// The token that is next.
    #[tactic(auto, using(crate::proofs::Steps::list_rules))]
    pub fn peek(&self, at: usize) -> Option<Named>
        ensures next { IfSome result (λ t. Next self.now at t) }
        ensures inside { IfSome result (λ t. at < length self.now.tokens.now) }
        ensures none { result ≡ None → rest self.now.tokens.now at ≡ [] }
    {
        if at < self.tokens.len() {
            Some(self.tokens[at])
        } else {
            None
        }
    }

    /// The place in the text of the token before that one.
    #[tactic(auto, using(crate::proofs::Steps::latest_rules))]
    pub fn latest(&self, at: usize) -> u32
        ensures { result ≡ before self.now.tokens.now at }
    {
        if at == 0 {
            return 0;
        }
        if at > self.tokens.len() {
            return 0;
        }
        self.tokens[at - 1].span.from
    }

    /// The token that is next, where it is of that kind.
    pub fn taken(&self, kind: TokenKind, at: usize) -> Option<Named>
        ensures taken { IfSome result (λ t. Taken self.now kind at t) }
        ensures inside { IfSome result (λ t. at < length self.now.tokens.now) }
        ensures none { result ≡ None → Lacks self.now kind at }
    {
        match self.peek(at) {
            Some(token) => {
                if is_same(kind, token.kind) {
                    Some(token)
                } else {
                    None
                }
            }
            None => None,
        }
    }

    /// A token that must stand there, else this is wanted.
    pub fn stands(
        &self,
        kind: TokenKind,
        wanted: Wanted,
        at: usize,
    ) -> Result<(Named, usize), ParseFault>
        ensures { Gives self.now on_token result (The kind wanted) at }
    {
        match self.peek(at) {
            Some(token) => {
                if is_same(kind, token.kind) {
                    Ok((token, at + 1))
                } else {
                    Err(ParseFault::Unexpected {
                        at: token.span.from,
                        wanted,
                    })
                }
            }
            None => Err(ParseFault::Unexpected {
                at: self.end,
                wanted,
            }),
        }
    }

    /// A sign or word that must stand there.
    pub fn sign(&self, kind: TokenKind, at: usize) -> Result<(Named, usize), ParseFault>
        ensures { Gives self.now on_token result (The kind (wanteds.Token kind)) at }
    {
        self.stands(kind, Wanted::Token(kind), at)
    }

    /// A name that must stand there.
    pub fn binding(&self, at: usize) -> Result<(Named, usize), ParseFault>
        ensures { Gives self.now on_token result (The kinds.Name wanteds.Name) at }
    {
        self.stands(TokenKind::Name, Wanted::Name, at)
    }

    /// The second name behind a `#`.
    fn second_name(&self, at: usize) -> Result<(Option<Named>, usize), ParseFault>
        ensures { (d : Token ℕ) → Goes self.now (λ t vs. owner_value t ∷ vs) result (binding ∷ Make m.Given ∷ []) (λ vs. m.token d ∷ vs) at }
    {
        let (name, at) = self.binding(at)?;
        Ok((Some(name), at))
    }

    /// The second name of a name with `#`, where there is one.
    pub fn owner(&self, at: usize) -> Result<(Option<Named>, usize), ParseFault>
        ensures { Gives self.now (λ t vs. owner_value t ∷ vs) result Owner at }
    {
        match self.taken(TokenKind::Hash, at) {
            Some(_) => self.second_name(at + 1),
            None => Ok((None, at)),
        }
    }
}
