//! What is to become of the free variables of a tree, and of its unknowns.
ghost use Rattle.std.specs.Prelude.{◌≡◌, ◌+◌, IfOk, IfSome, MatchOption, None, Some};
ghost use Rattle.cdle_model.specs.Trees.{var, shift};
ghost use Rattle.elab_tree.specs.Changes.{annotated, unannotated, first_of, leaves, part_of, solution_in, stands, weight};

use crate::guide::EGuide;
use crate::pure::EPure;
use crate::size::Size;
use crate::term::{ETerm, EType};
use cdle_model::NoMemory;

/// The most nodes that one change builds. More would not fit in memory, and to try would take minutes.
const MOST_NODES: u64 = 4_294_967_296;

/// What is to become of the free variables of a tree, and of its unknowns.
#[derive(Clone, Copy)]
pub(crate) enum Change<'a> {
    /// The variables not below the first number are raised by the second.
    Raise(u32, u32),
    /// The variable 0, which is not in the tree, is taken out of the numbering.
    Lower,
    /// In an erased tree the part is put for the variable of that number, and those above it are lowered by one.
    PutPure(u32, &'a EPure),
    PutGuide(u32, &'a EGuide),
    /// In an annotated tree the part is put for the variable of that number, and in sides and guides its erasure.
    PutTerm(u32, &'a ETerm, &'a EPure),
    PutType(u32, &'a EType, &'a EGuide),
    /// The solution is put for each unknown that has one, and in sides and guides its erasure.
    Solve(&'a [Option<EType>]),
}

impl Change<'_> {
    /// The first variable that is concerned.
    fn first(&self) -> u32
        ensures { result ≡ first_of self.now }
    {
        match self {
            Change::Raise(first, _)
            | Change::PutPure(first, _)
            | Change::PutGuide(first, _)
            | Change::PutTerm(first, _, _)
            | Change::PutType(first, _, _) => *first,
            Change::Lower | Change::Solve(_) => 0,
        }
    }

    /// Whether a tree of that size stays as it is under that many binders.
    pub(crate) fn leaves(&self, size: Size, under: u32) -> bool
        ensures { result ≡ leaves self.now size.free size.unknown under }
    {
        match self {
            Change::Solve(_) => !size.unknown,
            Change::Raise(_, 0) => true,
            _ => size.free <= self.first() as u64 + under as u64,
        }
    }

    /// The number of the variable afterwards, or None where the part stands for it.
    pub(crate) fn moved(&self, index: u32, under: u32) -> Result<Option<u32>, NoMemory>
        ensures annotated { IfOk result (λ r. MatchOption r (stands self.now annotated under index ≡ shift 0 under (part_of self.now annotated)) (λ i. stands self.now annotated under index ≡ var i)) }
        ensures unannotated { IfOk result (λ r. MatchOption r (stands self.now unannotated under index ≡ shift 0 under (part_of self.now unannotated)) (λ i. stands self.now unannotated under index ≡ var i)) }
    {
        let first = self.first() as u64 + under as u64;
        if (index as u64) < first {
            return Ok(Some(index));
        }
        match self {
            Change::Solve(_) => Ok(Some(index)),
            Change::Raise(_, by) => match index.checked_add(*by) {
                Some(index) => Ok(Some(index)),
                // Not reached: a shift asks that no variable passes 4,294,967,295, and the variables of a part that is put are below
                // 4,294,963,200, with at most 4,096 binders over it.
                None => Err(NoMemory),
            },
            _ => {
                if index as u64 == first {
                    Ok(None)
                } else {
                    Ok(Some(index - 1))
                }
            }
        }
    }

    /// The pure term that is put in erased trees.
    pub(crate) fn pure(&self) -> Option<&EPure>
        ensures is { IfSome result (λ p. p.now ≡ part_of self.now unannotated) }
        ensures puts { IfSome result (λ p. weight self.now ≡ 12292) }
    {
        match self {
            Change::PutPure(_, part) | Change::PutTerm(_, _, part) => Some(part),
            _ => None,
        }
    }

    /// The guide that is put in erased trees.
    pub(crate) fn guide(&self) -> Option<&EGuide>
        ensures is { IfSome result (λ g. g.now ≡ part_of self.now unannotated) }
        ensures puts { IfSome result (λ g. weight self.now ≡ 12292) }
    {
        match self {
            Change::PutGuide(_, part) | Change::PutType(_, _, part) => Some(part),
            _ => None,
        }
    }

    /// The term that is put in annotated trees.
    pub(crate) fn term(&self) -> Option<&ETerm>
        ensures is { IfSome result (λ t. t.now ≡ part_of self.now annotated) }
        ensures puts { IfSome result (λ t. weight self.now ≡ 12292) }
    {
        match self {
            Change::PutTerm(_, part, _) => Some(part),
            _ => None,
        }
    }

    /// The type that is put in annotated trees.
    pub(crate) fn ty(&self) -> Option<&EType>
        ensures is { IfSome result (λ a. a.now ≡ part_of self.now annotated) }
        ensures puts { IfSome result (λ a. weight self.now ≡ 12292) }
    {
        match self {
            Change::PutType(_, part, _) => Some(part),
            _ => None,
        }
    }

    /// The solution of the unknown of that number.
    pub(crate) fn solution(&self, number: u32) -> Option<&EType>
        ensures is { MatchOption result (solution_in self.now number ≡ None) (λ a. solution_in self.now number ≡ Some a.now) }
        ensures puts { IfSome result (λ a. weight self.now ≡ 12292) }
    {
        match self {
            Change::Solve(found) => match found.get(number as usize) {
                Some(Some(solution)) => Some(solution),
                _ => None,
            },
            _ => None,
        }
    }

    /// Refuses to build more nodes than fit in memory.
    pub(crate) fn refuse_large(&self, size: Size) -> Result<(), NoMemory> {
        if size.nodes > MOST_NODES && !self.leaves(size, 0) {
            Err(NoMemory)
        } else {
            Ok(())
        }
    }
}
