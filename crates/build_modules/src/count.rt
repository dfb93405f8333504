//! How many Core items modules have.
ghost use Rattle.std.specs.Prelude.{◌≡◌, ◌+◌, ◌<◌, IfOk, List, map, MatchOption};
ghost use Rattle.build_modules.specs.Counts.{item_count, items_count};
ghost use Rattle.build_modules.specs.Ordered.{in_order, spelled_modules};
ghost use Rattle.modules_model.specs.ModuleTexts.{past_limit};
ghost use Rattle.scope_model.specs.ScopeNames.{Text};
ghost use Rattle.surf_tree.specs.Items.{item_of};

use crate::order::module_at;
use cdle_model::NoMemory;
use surf_tree::{SrcItem, SrcModule};

/// The most Core items of all modules.
const MOST_ITEMS: usize = 10_000;

/// How many Core items may follow the item where so many may stand from it on. There is none where these are too few for it.
fn left_behind(item: &SrcItem, left: usize) -> Option<usize>
    ensures { MatchOption result (left < item_count (item_of item.now)) (λ rest. rest + item_count (item_of item.now) ≡ left) }
{
    match item {
        SrcItem::Def { .. } | SrcItem::TypeDef { .. } => left.checked_sub(1),
        SrcItem::Data { ctors, .. } => match left.checked_sub(5) {
            Some(left) => left.checked_sub(ctors.len()),
            None => None,
        },
    }
}

/// How many Core items may follow these items where so many may stand from them on. There is none where these are too few for them.
fn left_behind_all(items: &[SrcItem], most: usize) -> Option<usize>
    ensures { MatchOption result (most < items_count (map item_of items.now)) (λ rest. rest + items_count (map item_of items.now) ≡ most) }
{
    let mut left = most;
    let mut rest = items;
    'items: while let Some((item, others)) = rest.split_first() {
        match left_behind(item, left) {
            Some(fewer) => left = fewer,
            None => return None,
        }
        rest = others;
    }
    Some(left)
}

/// The place in the order of the first module with which there are more than 10,000 Core items.
pub(crate) fn first_past_limit(
    modules: &[SrcModule],
    order: &[usize],
) -> Result<Option<usize>, NoMemory>
    ensures { IfOk result (λ found. (names : List Text) → found ≡ past_limit 0 (in_order (spelled_modules names modules.now) order.now)) }
{
    let mut left = MOST_ITEMS;
    let mut place = 0;
    let mut rest = order;
    'modules: while let Some((number, others)) = rest.split_first() {
        let module = module_at(modules, *number)?;
        match left_behind_all(&module.items, left) {
            Some(fewer) => left = fewer,
            None => return Ok(Some(place)),
        }
        place += 1;
        rest = others;
    }
    Ok(None)
}
