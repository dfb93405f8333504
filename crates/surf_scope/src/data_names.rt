//! The names of a datatype's items.
ghost use Rattle.std.specs.Prelude.{◌≡◌, ◌∷◌, ◌++◌, [], IfOk, OnOk};
ghost use Rattle.scope_model.specs.Scope.{meets, of_sort, texts};
ghost use Rattle.scope_model.specs.ScopeNames.{is_one_of};
ghost use Rattle.scoped_tree.specs.Items.{item_name};
ghost use Rattle.surf_scope.specs.Data.{back, front, given_names, names_behind};
ghost use Rattle.scope_part.specs.Entries.{listed_names};
ghost use Rattle.scope_part.specs.Index.{names_of};
ghost use Rattle.cdle_model.specs.declared.grammar.Sort.TheVariants.{OfTerm};

use crate::texts::joined;
use cdle_model::{NoMemory, Sort, Text};
use scope_part::ItemIndex;
use scoped_tree::ItemName;
use std::alloc::Global;

/// The names of a datatype's items: those so far, and those that stand behind its constructors.
#[derive(Drop)]
pub(crate) struct DataNames {
    given: ItemIndex,
    mu: ItemName,
    sigma: ItemName,
}

/// A generated name.
fn generated(alloc: Global, datatype: &str, ending: &str, sort: Sort) -> Result<ItemName, NoMemory>
    ensures { IfOk result (λ name. item_name name ≡ of_sort sort (datatype.now ++ ending.now)) }
{
    let text = joined(alloc, datatype, ending)?;
    Ok(ItemName { text, sort })
}

/// Puts a generated name behind those so far.
fn put_generated(
    alloc: Global,
    given: &mut ItemIndex,
    datatype: &str,
    ending: &str,
    sort: Sort,
) -> Result<(), NoMemory>
    ensures { OnOk result (names_of given.new ≡ names_of given.old ++ of_sort sort (datatype.now ++ ending.now) ∷ []) }
{
    let name = generated(alloc, datatype, ending, sort)?;
    given.push(alloc, name)
}

/// Puts a name behind those so far.
fn put_name(alloc: Global, given: &mut ItemIndex, name: &str, sort: Sort) -> Result<(), NoMemory>
    ensures { OnOk result (names_of given.new ≡ names_of given.old ++ of_sort sort name.now ∷ []) }
{
    let text = Text::new(alloc, name)?;
    given.push(alloc, ItemName { text, sort })
}

/// The names before the constructors.
fn front_of(alloc: Global, datatype: &str) -> Result<ItemIndex, NoMemory>
    ensures { IfOk result (λ index. names_of index ≡ front datatype.now) }
{
    let mut given = ItemIndex::new(alloc);
    put_generated(alloc, &mut given, datatype, "/F", Sort::OfType)?;
    put_generated(alloc, &mut given, datatype, "/mono", Sort::OfTerm)?;
    put_name(alloc, &mut given, datatype, Sort::OfType)?;
    Ok(given)
}

/// Whether an item has one of these names.
fn has_any(items: &ItemIndex, names: &[ItemName]) -> bool
    ensures { result ≡ meets (texts (listed_names names.now)) (texts (names_of items.now)) }
{
    let mut rest = names;
    'names: while let Some((name, others)) = rest.split_first() {
        if items.has(name.text.as_str()) {
            return true;
        }
        rest = others;
    }
    false
}

impl DataNames {
    /// The generated names.
    pub(crate) fn new(alloc: Global, datatype: &str) -> Result<DataNames, NoMemory>
        ensures given { IfOk result (λ n. given_names n ≡ front datatype.now) }
        ensures behind { IfOk result (λ n. names_behind n ≡ back datatype.now) }
    {
        let given = front_of(alloc, datatype)?;
        let mu = generated(alloc, datatype, "/mu", Sort::OfTerm)?;
        let sigma = generated(alloc, datatype, "/sigma", Sort::OfTerm)?;
        Ok(DataNames { given, mu, sigma })
    }

    /// Whether one of the names is this text.
    #[tactic(auto, using(crate::proofs::ItemScope::among_both))]
    pub(crate) fn has(&self, word: &str) -> bool
        ensures { result ≡ is_one_of word.now (texts (given_names self.now ++ names_behind self.now)) }
    {
        self.given.has(word) || word == self.mu.text.as_str() || word == self.sigma.text.as_str()
    }

    /// Whether an item has one of the names.
    #[tactic(auto, using(crate::proofs::ItemScope::meets_both))]
    pub(crate) fn any_in(&self, items: &ItemIndex) -> bool
        ensures { result ≡ meets (texts (given_names self.now ++ names_behind self.now)) (texts (names_of items.now)) }
    {
        has_any(items, self.given.names())
            || items.has(self.mu.text.as_str())
            || items.has(self.sigma.text.as_str())
    }

    /// Puts a constructor's name behind those so far.
    pub(crate) fn add(&mut self, alloc: Global, constructor: &str) -> Result<(), NoMemory>
        ensures given { OnOk result (given_names self.new ≡ given_names self.old ++ of_sort OfTerm constructor.now ∷ []) }
        ensures behind { names_behind self.new ≡ names_behind self.old }
    {
        put_name(alloc, &mut self.given, constructor, Sort::OfTerm)
    }

    /// All names in order.
    pub(crate) fn all(self) -> Result<Vec<ItemName>, NoMemory>
        ensures { IfOk result (λ names. listed_names names.items ≡ given_names self ++ names_behind self) }
    {
        let mut names = self.given.into_names();
        names.push(self.mu)?;
        names.push(self.sigma)?;
        Ok(names)
    }
}
