//! The places in which the numbering of a written term and that of its erasure differ.
ghost use Rattle.std.specs.Prelude.{◌≡◌, ◌∷◌, [], IfOk, IsTrue};
ghost use Rattle.cdle_model.specs.Classes.{IsOf, pure_terms};
ghost use Rattle.cdle_model.specs.Erasure.{lowered};
ghost use Rattle.cdle_model.specs.Trees.{Tree, shift, var};
ghost use Rattle.core_view.specs.Passed.{IsAbove, IsNumber, renumbered};

use cdle_model::NoMemory;
use core_tree::Pure;
use std::alloc::{AllocError, Global};
use std::marker::Model;
use std::rc::Rc;

/// The erased binders that were passed and the new variables, the innermost first. Contracts see a list of places.
#[cycle(passed)]
#[derive(Drop)]
pub(crate) struct Passed {
    first: Places,
}

#[cycle(passed)]
#[derive(Drop)]
enum Places {
    End,
    /// After so many kept binders, an erased one, or so many new variables where that is not 0; and the places outside.
    Place(u32, u32, Rc<Passed>),
}

impl Model for Passed {
    ghost use Rattle.std.specs.Prelude.{List, length};
    ghost use Rattle.core_view.specs.Passed.{Place};

    ghost Value = { List Place };

    ghost use Rattle.core_view.specs.Places.{places};

    ghost view = { λ a. places a.first };

    ghost size = { length };

    ghost use Rattle.std.proofs.Common.{arith};

    ghost size_decreases = { λ a h. Prim.grind arith };
}

impl Passed {
    /// No places.
    pub(crate) fn none() -> Passed
        ensures { result ≡ [] }
    {
        Passed { first: Places::End }
    }

    /// Whether there are no places.
    pub(crate) fn is_none(&self) -> bool
        ensures { IsTrue result → self.now ≡ [] }
    {
        matches!(&self.first, Places::End)
    }

    /// The same places, shared.
    pub(crate) fn share(&self) -> Result<Passed, NoMemory>
        ensures { IfOk result (λ p. p ≡ self.now) }
    {
        match &self.first {
            Places::End => Ok(Passed::none()),
            Places::Place(kept, new, outer) => Passed::place(*kept, *new, outer),
        }
    }

    fn place(kept: u32, new: u32, outer: &Rc<Passed>) -> Result<Passed, NoMemory>
        ensures { IfOk result (λ p. p ≡ (kept, new) ∷ outer.now.value) }
    {
        match outer.clone() {
            Ok(outer) => Ok(Passed {
                first: Places::Place(kept, new, outer),
            }),
            Err(_) => Err(NoMemory),
        }
    }

    /// The places as they are under so many more binders that are kept.
    #[tactic(auto, using(crate::proofs::Numbers::under_kept))]
    pub(crate) fn kept(&self, from: u32) -> Result<Passed, NoMemory>
        ensures { IfOk result (λ p. (t : Tree) → renumbered 0 p t ≡ renumbered from self.now t) }
    {
        match &self.first {
            Places::End => Ok(Passed::none()),
            Places::Place(kept, new, outer) => match kept.checked_add(from) {
                Some(kept) => Passed::place(kept, *new, outer),
                None => Err(NoMemory),
            },
        }
    }

    /// The places under so many more binders that are kept, with that of an erased binder inside all of these.
    pub(crate) fn erased(&self, alloc: Global, from: u32) -> Result<Passed, NoMemory>
        ensures { IfOk result (λ p. (t : Tree) → renumbered 0 p t ≡ renumbered from self.now (lowered t)) }
    {
        let outer = Rc::new(alloc, self.kept(from)?)?;
        Ok(Passed {
            first: Places::Place(0, 0, outer),
        })
    }

    /// The places with a new variable inside all others.
    #[tactic(auto, using(crate::proofs::Numbers::raising))]
    pub(crate) fn raised(&self, alloc: Global) -> Result<Passed, NoMemory>
        ensures { IfOk result (λ p. (t : Tree) → renumbered 0 p t ≡ shift 0 1 (renumbered 0 self.now t)) }
    {
        if let Places::Place(0, new, outer) = &self.first {
            if *new > 0 && *new < 4_294_967_295 {
                return Passed::place(0, *new + 1, outer);
            }
        }
        let outer = Rc::new(alloc, self.share()?)?;
        Ok(Passed {
            first: Places::Place(0, 1, outer),
        })
    }

    /// Whether the pure term, whose variables below `from` are kept, stays as it is, because no place is below one of its free variables.
    /// It looks at the innermost place alone.
    #[tactic(auto, using(crate::proofs::Numbers::spared))]
    pub(crate) fn spares(&self, from: u32, term: &Pure) -> bool
        ensures { IsTrue result → renumbered from self.now term.now ≡ term.now }
    {
        match &self.first {
            Places::End => true,
            Places::Place(kept, _, _) => term.free() <= from as u64 + *kept as u64,
        }
    }

    /// The number that a variable of a pure term, whose variables below `from` are kept, has without the erased binders and over the new
    /// variables.
    #[tactic(auto, using(crate::proofs::Numbers::outside))]
    pub(crate) fn number(&self, from: u32, index: u32) -> Result<u32, NoMemory>
        requires { IsOf pure_terms (renumbered from self.now (var index)) }
        ensures { IfOk result (λ i. renumbered from self.now (var index) ≡ var i) }
    {
        if index < from {
            return Ok(index);
        }
        let Some(number) = self.find(index - from)? else {
            unreachable!()
        };
        match number.checked_add(from) {
            Some(number) => Ok(number),
            None => Err(NoMemory),
        }
    }

    /// The number that a variable has without the erased binders and over the new variables, or none where it is an erased binder's.
    #[tactic(auto, using(crate::proofs::Numbers::numbering))]
    fn find(&self, index: u32) -> Result<Option<u32>, NoMemory>
        ensures { IfOk result (λ o. IsNumber self.now index o) }
    {
        match &self.first {
            Places::End => Ok(Some(index)),
            Places::Place(kept, new, outer) => {
                if index < *kept {
                    return Ok(Some(index));
                }
                let beyond = index - *kept;
                if *new == 0 {
                    if beyond == 0 {
                        return Ok(None);
                    }
                    let found = outer.find(beyond - 1)?;
                    above(found, *kept)
                } else {
                    let found = outer.find(beyond)?;
                    above(above(found, *kept)?, *new)
                }
            }
        }
    }
}

/// The number so many higher.
fn above(found: Option<u32>, by: u32) -> Result<Option<u32>, NoMemory>
    ensures { IfOk result (λ o. IsAbove found by o) }
{
    match found {
        Some(index) => match index.checked_add(by) {
            Some(index) => Ok(Some(index)),
            None => Err(NoMemory),
        },
        None => Ok(None),
    }
}
