//! What is to become of the free variables of a tree.
ghost use Rattle.std.specs.Prelude.{◌≡◌, ◌+◌, ◌*◌, ◌<◌, IfOk, IfSome, MatchOption};
ghost use Rattle.cdle_model.specs.Trees.{var, shift};
ghost use Rattle.cdle_model.specs.Depth.{depth};
ghost use Rattle.core_tree.specs.Changes.{first_of, leaves, part_of, stands, weight};

use crate::guide::Guide;
use crate::part::Part;
use crate::pure::Pure;
use crate::sharing::MOST_NODES;
use cdle_model::NoMemory;

/// What is to become of the free variables of a tree.
#[derive(Clone, Copy)]
pub(crate) enum Change<'a> {
    /// Those not below the first number are raised by the second.
    Raise(u32, u32),
    /// The variable 0, which is not in the tree, is taken out of the numbering.
    Lower,
    /// The part is put for the variable of that number, and those above it are lowered by one.
    Put(u32, Part<'a>),
}

impl Change<'_> {
    /// The first variable that is concerned.
    fn first(&self) -> u32
        ensures { result ≡ first_of self.now }
    {
        match self {
            Change::Raise(from, _) => *from,
            Change::Lower => 0,
            Change::Put(at, _) => *at,
        }
    }

    /// Whether a tree with no free variable from `free` on stays as it is under that many binders.
    pub(crate) fn leaves(&self, free: u64, under: u32) -> bool
        ensures { result ≡ leaves self.now free under }
    {
        free <= self.first() as u64 + under as u64 || matches!(self, Change::Raise(_, 0))
    }

    /// The number of the variable afterwards, or None where the part stands for it.
    pub(crate) fn moved(&self, index: u32, under: u32) -> Result<Option<u32>, NoMemory>
        ensures { IfOk result (λ r. MatchOption r (stands self.now under index ≡ shift 0 under (part_of self.now)) (λ i. stands self.now under index ≡ var i)) }
    {
        let first = self.first() as u64 + under as u64;
        if (index as u64) < first {
            return Ok(Some(index));
        }
        match self {
            Change::Raise(_, by) => match index.checked_add(*by) {
                Some(index) => Ok(Some(index)),
                None => Err(NoMemory),
            },
            _ => {
                if index as u64 == first {
                    Ok(None)
                } else {
                    Ok(Some(index - 1))
                }
            }
        }
    }

    /// The pure term that is put.
    pub(crate) fn pure(&self) -> Option<&Pure>
        ensures is { IfSome result (λ p. p.now ≡ part_of self.now) }
        ensures smaller { IfSome result (λ p. 2 * depth p.now + 2 < weight self.now) }
    {
        match self {
            Change::Put(_, Part::Pure(part)) => Some(part),
            _ => None,
        }
    }

    /// The guide that is put.
    pub(crate) fn guide(&self) -> Option<&Guide>
        ensures is { IfSome result (λ g. g.now ≡ part_of self.now) }
        ensures smaller { IfSome result (λ g. 2 * depth g.now + 2 < weight self.now) }
    {
        match self {
            Change::Put(_, Part::Guide(part)) => Some(part),
            _ => None,
        }
    }

    /// Refuses to build more nodes than fit in memory.
    pub(crate) fn refuse_large(&self, nodes: u64, free: u64) -> Result<(), NoMemory> {
        if nodes > MOST_NODES && !self.leaves(free, 0) {
            Err(NoMemory)
        } else {
            Ok(())
        }
    }
}
