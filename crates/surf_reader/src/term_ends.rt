//! What the rows of terms make, and what they test.
ghost use Rattle.std.specs.Prelude.{◌≡◌, ◌<◌, ◌∷◌, [], ℕ, Ok, Some, None, IfOk, ◌-◌};
ghost use Rattle.source_model.specs.Grammar.{Make, Test_, Token, IsShallow, The, IsType, part, token};
ghost use Rattle.source_model.specs.Grammar as m;
ghost use Rattle.source_model.specs.Made.{behind, inner, erased_lambda, span, to_of};
ghost use Rattle.surf_tree.specs.Forms.{given, class_given, class_tree, place};
ghost use Rattle.surf_reader.specs.View.{Closes, term_on, Tested, beta_tree, enclosed_of, case_tree};

use crate::class_ends::MOST_LEVELS;
use crate::error::ParseFault;
use crate::reader::Reader;
use crate::spans::{between, over_term_and_type, over_terms, to_term};
use crate::token::Named;
use cdle_names::{NoMemory, Span};
use surf_tree::{Src, SrcBranch, SrcClass, SrcType};

/// The place behind an option, or behind what is before it, and its term.
fn behind(option: Option<(u32, Src)>, before: u32) -> (u32, Option<Src>)
    ensures place { result.0 ≡ behind (enclosed_of option) before }
    ensures term { given result.1 ≡ inner (enclosed_of option) }
{
    match option {
        None => (before, None),
        Some((to, term)) => (to, Some(term)),
    }
}

impl<'a> Reader<'a> {
    /// That a part that was made is not too high.
    pub fn shallow(&self, term: &Src, at: usize) -> Result<(), ParseFault>
        ensures { (f : ℕ) → Tested self.now (λ u vs. m.part f term.now ∷ vs) result IsShallow (λ vs. m.part f term.now ∷ vs) at }
    {
        if term.levels() > MOST_LEVELS {
            return Err(ParseFault::TooDeep {
                at: self.latest(at),
            });
        }
        Ok(())
    }

    /// What `β` makes.
    pub fn beta_of(
        &self,
        letter: Named,
        side: Option<(u32, Src)>,
        kept: Option<(u32, Src)>,
    ) -> Result<Src, NoMemory>
        ensures { IfOk result (λ t. t ≡ beta_tree letter side kept) }
    {
        let (to, side) = behind(side, letter.span.to);
        let (to, kept) = behind(kept, to);
        let span = Span {
            from: letter.span.from,
            to,
        };
        Src::beta(self.alloc, span, side, kept)
    }

    /// What `Λ` makes.
    pub fn elam_of(
        &self,
        letter: Named,
        name: Named,
        class: Option<SrcClass>,
        part: &Src,
    ) -> Result<Src, NoMemory>
        ensures { IfOk result (λ t. t ≡ erased_lambda (span letter.span.from (to_of part.now)) name.name.0 (class_given class) part.now) }
    {
        let span = to_term(letter, part);
        match class {
            None => Src::elam(self.alloc, span, name.name, None, part),
            Some(SrcClass::OfKind(kind)) => {
                kind.levels();
                let class = SrcClass::OfKind(kind);
                Src::elam(self.alloc, span, name.name, Some(class), part)
            }
            Some(SrcClass::OfType(ty)) => {
                ty.levels();
                let class = SrcClass::OfType(ty);
                Src::elam(self.alloc, span, name.name, Some(class), part)
            }
        }
    }

    /// What `μ` makes, or `σ` where no variable is given.
    pub fn case_of(
        &self,
        letter: Named,
        var: Option<Named>,
        close: Named,
        part: &Src,
        motive: Option<SrcType>,
        branches: Vec<SrcBranch>,
    ) -> Result<Src, NoMemory>
        ensures { IfOk result (λ t. t ≡ case_tree letter var close part.now (given motive) branches.items) }
    {
        let span = between(letter, close);
        match var {
            Some(name) => Src::mu(self.alloc, span, name.name, part, motive, branches),
            None => Src::sigma(self.alloc, span, part, motive, branches),
        }
    }

    /// What a term makes that is applied to a term.
    pub fn app_end(&self, head: &Src, arg: &Src, at: usize) -> Result<Src, ParseFault>
        ensures { (f g : ℕ) → Closes self.now (term_on f) result (Make m.App ∷ Test_ IsShallow ∷ []) (λ vs. m.part g arg.now ∷ m.part f head.now ∷ vs) at }
    {
        let term = Src::app(self.alloc, over_terms(head, arg), head, arg)?;
        self.shallow(&term, at)?;
        Ok(term)
    }

    /// What a term makes that is applied to an erased term.
    pub fn eapp_end(&self, head: &Src, arg: &Src, at: usize) -> Result<Src, ParseFault>
        ensures { (d : Token ℕ) (f g : ℕ) → Closes self.now (term_on f) result (Make m.Eapp ∷ Test_ IsShallow ∷ []) (λ vs. m.part g arg.now ∷ m.token d ∷ m.part f head.now ∷ vs) at }
    {
        let term = Src::eapp(self.alloc, over_terms(head, arg), head, arg)?;
        self.shallow(&term, at)?;
        Ok(term)
    }

    /// What a term makes that is applied to a type, which begins at `first`.
    pub fn tapp_end(
        &self,
        head: &Src,
        first: u32,
        class: SrcClass,
        at: usize,
    ) -> Result<Src, ParseFault>
        ensures { (d : Token ℕ) (f : ℕ) → Closes self.now (term_on f) result (Test_ IsType ∷ Make m.Tapp ∷ Test_ IsShallow ∷ []) (λ vs. m.part first (class_tree class) ∷ m.token d ∷ m.part f head.now ∷ vs) at }
    {
        let arg = self.as_type(first, class)?;
        let term = Src::tapp(self.alloc, over_term_and_type(head, &arg), head, &arg)?;
        self.shallow(&term, at)?;
        Ok(term)
    }
}
