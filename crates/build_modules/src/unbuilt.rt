//! Where the first form stands that is not built.
ghost use Rattle.std.specs.Prelude.{◌≡◌, IfOk, map};
ghost use Rattle.std.specs.Option.{option_map};
ghost use Rattle.build_model.specs.Unbuilt.{first_place, unbuilt, unbuilt_item, unbuilt_items};
ghost use Rattle.elab_model.specs.ScopedForms.{letter as letter_of};
ghost use Rattle.modules_model.specs.ModuleTexts.{unbuilt_modules};
ghost use Rattle.scoped_tree.specs.Items.{item_of, module_of};
ghost use Rattle.scoped_tree.specs.Trees.{place};

use cdle_model::NoMemory;
use cdle_names::Span;
use scoped_tree::{Scoped, ScopedForm, ScopedItem, ScopedModule};

/// The letter at which a form begins. Memory is wanted where its end has no number.
fn letter(span: Span) -> Result<Span, NoMemory>
    ensures { IfOk result (λ at. place at ≡ letter_of (place span)) }
{
    match span.from.checked_add(2) {
        Some(to) => Ok(Span {
            from: span.from,
            to,
        }),
        None => Err(NoMemory),
    }
}

/// Where the first such form of a part stands.
fn first_in_part(part: &Scoped) -> Result<Option<Span>, NoMemory>
    ensures { IfOk result (λ found. option_map place found ≡ unbuilt part.now) }
{
    match part.form() {
        ScopedForm::Use(_) | ScopedForm::Leaf(_) => Ok(None),
        ScopedForm::One(_, part) => first_in_part(part),
        ScopedForm::Two(_, left, right) | ScopedForm::Bind(_, left, right) => {
            match first_in_part(left)? {
                Some(span) => Ok(Some(span)),
                None => first_in_part(right),
            }
        }
        ScopedForm::Cases(_, _, _, _) => Ok(Some(letter(part.span())?)),
    }
}

/// Of two parts, of which the left is before the right.
fn first_in_parts(left: &Scoped, right: &Scoped) -> Result<Option<Span>, NoMemory>
    ensures { IfOk result (λ found. option_map place found ≡ first_place (unbuilt left.now) (unbuilt right.now)) }
{
    match first_in_part(left)? {
        Some(span) => Ok(Some(span)),
        None => first_in_part(right),
    }
}

/// Of an item; a datatype stands at its name.
fn first_in_item(item: &ScopedItem) -> Result<Option<Span>, NoMemory>
    ensures { IfOk result (λ found. option_map place found ≡ unbuilt_item (item_of item.now)) }
{
    match item {
        ScopedItem::Def { ty, body, .. } => first_in_parts(ty, body),
        ScopedItem::TypeDef { kind, body, .. } => first_in_parts(kind, body),
        ScopedItem::Data(data) => Ok(Some(data.span)),
    }
}

/// Of items in their order.
fn first_in_items(items: &[ScopedItem]) -> Result<Option<Span>, NoMemory>
    ensures { IfOk result (λ found. option_map place found ≡ unbuilt_items (map item_of items.now)) }
{
    let mut rest = items;
    'items: while let Some((item, others)) = rest.split_first() {
        match first_in_item(item)? {
            Some(span) => return Ok(Some(span)),
            None => {}
        }
        rest = others;
    }
    Ok(None)
}

/// The place of the first module with such a form, and where its first stands.
pub(crate) fn first_in_modules(modules: &[ScopedModule]) -> Result<Option<(usize, Span)>, NoMemory>
    ensures { IfOk result (λ found. option_map (λ x. (x.0, place x.1)) found ≡ unbuilt_modules (map module_of modules.now)) }
{
    let mut number = 0;
    let mut rest = modules;
    'modules: while let Some((module, others)) = rest.split_first() {
        match first_in_items(&module.items)? {
            Some(span) => return Ok(Some((number, span))),
            None => {}
        }
        number += 1;
        rest = others;
    }
    Ok(None)
}
