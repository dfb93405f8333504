//! What is found for unknowns.
ghost use Rattle.std.specs.Prelude.{◌≡◌, ◌≤◌, ◌∷◌, ◌++◌, [], length, IfOk, MatchOption, MatchResult, None, Some};
ghost use Rattle.elab_model.specs.Instances.{all_found, found_in};

use cdle_model::NoMemory;
use elab_tree::EType;
use std::alloc::Global;
use std::marker::Model;

/// Of each unknown, by its number, the type that is found for it.
#[derive(Drop)]
pub struct Solution {
    found: Vec<Option<EType>>,
}

impl Model for Solution {
    ghost use Rattle.std.specs.Prelude.{◌≤◌, List, Option, length};
    ghost use Rattle.std.specs.Coded.{coded_list, coded_option};
    ghost use Rattle.cdle_model.specs.Code.{coded_tree};
    ghost use Rattle.cdle_model.specs.Trees.{Tree};

    ghost Value = { List (Option Tree) };

    ghost coded = { coded_list (coded_option coded_tree) };

    ghost view = { λ a. a.found.items };

    ghost invariant = { λ a. length a.found.items ≤ 4294967295 };
}

impl Solution {
    /// No unknowns. It takes no memory.
    pub fn new(alloc: Global) -> Solution
        ensures { result ≡ [] }
    {
        Solution {
            found: Vec::new(alloc),
        }
    }

    /// One unknown more, for which nothing is found yet: its number.
    pub fn fresh(&mut self) -> Result<u32, NoMemory>
        ensures number { IfOk result (λ n. n ≡ length self.old) }
        ensures more { MatchResult result (λ _. self.new ≡ self.old ++ None ∷ []) (λ _. self.new ≡ self.old) }
    {
        let number = self.len();
        self.push(None)?;
        Ok(number)
    }

    /// One unknown more, for which this is found. After want of memory all is as before.
    pub(crate) fn push(&mut self, ty: Option<EType>) -> Result<(), NoMemory>
        ensures { MatchResult result (λ _. self.new ≡ self.old ++ ty ∷ []) (λ _. self.new ≡ self.old) }
    {
        // Not reached: so many unknowns fit in no memory.
        if self.found.len() >= 4_294_967_295 {
            return Err(NoMemory);
        }
        self.found.push(ty)?;
        Ok(())
    }

    /// The number of unknowns.
    pub fn len(&self) -> u32
        ensures { result ≡ length self.now }
    {
        self.found.len() as u32
    }

    /// The type that is found for the unknown of that number; nothing where none is, and where there is no such unknown.
    pub fn get(&self, unknown: u32) -> Option<&EType>
        ensures { MatchOption result (found_in self.now unknown ≡ None) (λ a. found_in self.now unknown ≡ Some a.now) }
    {
        match self.found.get(unknown as usize) {
            Some(Some(ty)) => Some(ty),
            _ => None,
        }
    }

    /// Whether for each unknown a type is found.
    pub fn is_whole(&self) -> bool
        ensures { result ≡ all_found self.now }
    {
        'unknowns: for ty in self.as_slice() {
            if ty.is_none() {
                return false;
            }
        }
        true
    }

    /// What is found for each unknown in their order, as `EType::solve` takes it.
    pub fn as_slice(&self) -> &[Option<EType>]
        ensures { result.now ≡ self.now }
    {
        self.found.as_slice()
    }
}
