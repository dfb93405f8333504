//! The items over which the rows stand.
ghost use Rattle.std.specs.Prelude.{◌≡◌, [], ◌∷◌, ◌++◌, IfOk, List};
ghost use Rattle.cdle_model.specs.Classes.{IsScopedOver, item_sort, item_sorts};
ghost use Rattle.cdle_model.specs.Fitting.{ItemHasErasures};
ghost use Rattle.cdle_model.specs.Forms as forms;
ghost use Rattle.cdle_model.specs.Trees.{var};
ghost use Rattle.cdle_model.specs.Forms.{Written};
ghost use Rattle.cdle_model.specs.declared.grammar.Sort.TheVariants.{OfTerm, OfType};
ghost use Rattle.core_tree.specs.Items.{written};
ghost use Rattle.core_compare_rows.specs.Closed.{sorts};

use cdle_model::{NoMemory, Text};
use core_reduce::CheckedItems;
use core_tree::{CoreItem, Kind, Term, Ty};
use std::alloc::Global;

/// The identity twice, as the items 0 and 1, and as the item 2 the type function that maps a type to the type of its functions.
pub(crate) fn three_items(alloc: Global) -> Result<CheckedItems, NoMemory>
    ensures { IfOk result (λ items. item_sorts items ≡ sorts) }
{
    let mut items = CheckedItems::new(alloc);
    add_identity(alloc, &mut items, "one")?;
    add_identity(alloc, &mut items, "other")?;
    add_doubling(alloc, &mut items)?;
    Ok(items)
}

/// One more item: the identity of all types.
fn add_identity(alloc: Global, items: &mut CheckedItems, name: &str) -> Result<(), NoMemory>
    ensures { IfOk result (λ _. item_sorts items.new ≡ item_sorts items.old ++ (OfTerm ∷ [])) }
{
    let item = identity_item(alloc, name)?;
    items.add(alloc, &item)
}

/// One more item: the type function that maps a type to the type of its functions.
fn add_doubling(alloc: Global, items: &mut CheckedItems) -> Result<(), NoMemory>
    ensures { IfOk result (λ _. item_sorts items.new ≡ item_sorts items.old ++ (OfType ∷ [])) }
{
    let item = doubling_item(alloc)?;
    items.add(alloc, &item)
}

/// The identity of all types.
fn identity_item(alloc: Global, name: &str) -> Result<CoreItem, NoMemory>
    ensures over { IfOk result (λ item. (es : List Written) → IsScopedOver es (written item)) }
    ensures erasures { IfOk result (λ item. ItemHasErasures (written item)) }
    ensures sort { IfOk result (λ item. item_sort (written item) ≡ OfTerm) }
{
    let ty = identity_type(alloc)?;
    let body = identity_body(alloc)?;
    let Ok(name) = Text::new(alloc, name) else {
        return Err(NoMemory);
    };
    Ok(CoreItem::Def { name, ty, body })
}

/// The type function that maps a type to the type of its functions.
fn doubling_item(alloc: Global) -> Result<CoreItem, NoMemory>
    ensures over { IfOk result (λ item. (es : List Written) → IsScopedOver es (written item)) }
    ensures erasures { IfOk result (λ item. ItemHasErasures (written item)) }
    ensures sort { IfOk result (λ item. item_sort (written item) ≡ OfType) }
{
    let kind = doubling_kind(alloc)?;
    let body = doubling_body(alloc)?;
    let Ok(name) = Text::new(alloc, "doubling") else {
        return Err(NoMemory);
    };
    Ok(CoreItem::TypeDef { name, kind, body })
}

/// The functions from the type 0 to itself.
fn arrow(alloc: Global) -> Result<Ty, NoMemory>
    ensures { IfOk result (λ t. t ≡ forms.pi (var 0) (var 1)) }
{
    let inner = Ty::var(alloc, 0)?;
    let outer = Ty::var(alloc, 1)?;
    Ty::pi(alloc, &inner, &outer)
}

/// The type of the identity of all types.
fn identity_type(alloc: Global) -> Result<Ty, NoMemory>
    ensures { IfOk result (λ t. t ≡ forms.allt forms.star (forms.pi (var 0) (var 1))) }
{
    let star = Kind::star(alloc)?;
    let arrow = arrow(alloc)?;
    Ty::allt(alloc, &star, &arrow)
}

/// The identity of the type 0.
fn identity_on(alloc: Global) -> Result<Term, NoMemory>
    ensures { IfOk result (λ t. t ≡ forms.lam (var 0) (var 0)) }
{
    let ty = Ty::var(alloc, 0)?;
    let variable = Term::var(alloc, 0)?;
    Term::lam(alloc, &ty, &variable)
}

/// The identity of all types, as a term.
fn identity_body(alloc: Global) -> Result<Term, NoMemory>
    ensures { IfOk result (λ t. t ≡ forms.xlam forms.star (forms.lam (var 0) (var 0))) }
{
    let star = Kind::star(alloc)?;
    let function = identity_on(alloc)?;
    Term::xlam(alloc, &star, &function)
}

/// The kind of functions from types to types.
fn doubling_kind(alloc: Global) -> Result<Kind, NoMemory>
    ensures { IfOk result (λ k. k ≡ forms.kpit forms.star forms.star) }
{
    let star = Kind::star(alloc)?;
    Kind::kpit(alloc, &star, &star)
}

/// The type function itself.
fn doubling_body(alloc: Global) -> Result<Ty, NoMemory>
    ensures { IfOk result (λ t. t ≡ forms.xtlam forms.star (forms.pi (var 0) (var 1))) }
{
    let star = Kind::star(alloc)?;
    let arrow = arrow(alloc)?;
    Ty::xtlam(alloc, &star, &arrow)
}
