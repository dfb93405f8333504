//! Whether a module has no more Core items than may be.
ghost use Rattle.std.specs.Prelude.{◌≡◌, ◌+◌, ◌<◌, ◌≤◌, true, false, map, MatchOption};
ghost use Rattle.build_module.specs.Counts.{item_count, items_count};
ghost use Rattle.surf_tree.specs.Items.{item_of};

use surf_tree::SrcItem;

/// The most Core items of all modules.
const MOST_ITEMS: usize = 10_000;

/// How many Core items may follow the item where so many may stand from it on. There is none where these are too few for it.
fn left_behind(item: &SrcItem, left: usize) -> Option<usize>
    ensures { MatchOption result (left < item_count (item_of item.now)) (λ rest. rest + item_count (item_of item.now) ≡ left) }
{
    match item {
        SrcItem::Def { .. } | SrcItem::TypeDef { .. } => left.checked_sub(1),
        SrcItem::Data { ctors, .. } => match left.checked_sub(5) {
            Some(left) => left.checked_sub(ctors.len()),
            None => None,
        },
    }
}

/// Whether these items give no more than 10,000 Core items.
pub(crate) fn has_few(items: &[SrcItem]) -> bool
    ensures few { result ≡ true → items_count (map item_of items.now) ≤ 10000 }
    ensures many { result ≡ false → 10000 < items_count (map item_of items.now) }
{
    let mut left = MOST_ITEMS;
    let mut rest = items;
    'items: while let Some((item, others)) = rest.split_first() {
        match left_behind(item, left) {
            Some(fewer) => left = fewer,
            None => return false,
        }
        rest = others;
    }
    true
}
