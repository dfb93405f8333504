//! Parts: the one recursion of the printer.
ghost use Rattle.std.specs.Prelude.{◌≡◌, ◌+◌, ◌-◌, ◌<◌, ◌≤◌, ◌∷◌, [], Some, get_or, string_bytes};
ghost use Rattle.print_model.specs.Printed.{item_text, part_text, spelled};
ghost use Rattle.elab_tree.specs.Items.{written};
ghost use Rattle.elab_print.specs.Layouts.{Prints, back_text, both_text, form_steps, front_text, head_steps, item_steps, joined, node_class, node_tree, slot_text};

use crate::layout::{Layout, Node, Slot, Slots, layout_of};
use cdle_model::Text;
use elab_tree::OutItem;

/// Why a part is not printed: it would have too many parentheses in each other, or memory is wanted.
#[derive(Clone, Copy, Debug, PartialEq, Eq)]
pub(crate) enum PartStop {
    TooDeep,
    NoMemory,
}

/// Behind so many bytes no more are put, as if the memory were not there: a tree of 60 shared nodes may have a text of 2^60 bytes, and a text of a
/// quarter of this length is refused by the reader.
const LONGEST: usize = 1 << 28;

/// Some text.
pub(crate) fn put(text: &str, out: &mut String) -> Result<(), PartStop>
    ensures { Prints (string_bytes out.old) (string_bytes out.new) (Some text.now) result }
{
    if out.len() > LONGEST {
        return Err(PartStop::NoMemory);
    }
    match out.push_str(text) {
        Ok(()) => Ok(()),
        Err(_) => Err(PartStop::NoMemory),
    }
}

/// The spelling of the binder inside so many others.
fn put_binder(number: u64, out: &mut String) -> Result<(), PartStop>
    ensures { Prints (string_bytes out.old) (string_bytes out.new) (Some (spelled number)) result }
{
    match write!(out, "_{number}") {
        Ok(()) => Ok(()),
        Err(_) => Err(PartStop::NoMemory),
    }
}

/// How many binders are around that of a variable.
fn outside(level: u32, index: u32) -> u64
    ensures { result ≡ level - (index + 1) }
{
    (level as u64).saturating_sub(index as u64 + 1)
}

/// The name of an item.
fn put_name(names: &[Text], item: u32, out: &mut String) -> Result<(), PartStop>
    ensures { Prints (string_bytes out.old) (string_bytes out.new) (Some (get_or names.now item [])) result }
{
    match names.get(item as usize) {
        Some(name) => put(name.as_str(), out),
        None => put("", out),
    }
}

/// A part, inside which so many parentheses may open, inside so many binders.
#[cycle(part)]
pub(crate) fn part(
    left: u32,
    level: u32,
    names: &[Text],
    node: Node<'_>,
    out: &mut String,
) -> Result<(), PartStop>
    requires { level + left ≤ 1024 }
    ensures { Prints (string_bytes out.old) (string_bytes out.new) (part_text names.now left level (node_class node.entry) (node_tree node.entry)) result }
{
    match layout_of(node) {
        Layout::Var(index) => put_binder(outside(level, index), out),
        Layout::Name(item) => put_name(names, item, out),
        Layout::Star => put("*", out),
        Layout::Form(slots) => {
            if left == 0 {
                return Err(PartStop::TooDeep);
            }
            form(left - 1, level, names, &slots, out)
        }
    }
}

/// What stands in one place of a form, a space before it.
#[cycle(part)]
pub(crate) fn slot(
    left: u32,
    level: u32,
    names: &[Text],
    slot: &Slot<'_>,
    out: &mut String,
) -> Result<(), PartStop>
    requires { level + left < 1024 }
    ensures { Prints (string_bytes out.old) (string_bytes out.new) (slot_text (part_text names.now left) level slot.now) result }
{
    match slot {
        Slot::Binder(_) => {
            put(" ", out)?;
            put_binder(level as u64, out)
        }
        Slot::Part(node) => {
            put(" ", out)?;
            part(left, level, names, *node, out)
        }
        Slot::Under(node) => {
            put(" ", out)?;
            part(left, level + 1, names, *node, out)
        }
        Slot::Nothing => put("", out),
    }
}

/// The first two places of a form.
#[cycle(part)]
fn front(
    left: u32,
    level: u32,
    names: &[Text],
    slots: &Slots<'_>,
    out: &mut String,
) -> Result<(), PartStop>
    requires { level + left < 1024 }
    ensures { Prints (string_bytes out.old) (string_bytes out.new) (front_text (part_text names.now left) level slots.now) result }
{
    slot(left, level, names, &slots.first, out)?;
    slot(left, level, names, &slots.second, out)
}

/// The other three.
#[cycle(part)]
fn back(
    left: u32,
    level: u32,
    names: &[Text],
    slots: &Slots<'_>,
    out: &mut String,
) -> Result<(), PartStop>
    requires { level + left < 1024 }
    ensures { Prints (string_bytes out.old) (string_bytes out.new) (back_text (part_text names.now left) level slots.now) result }
{
    slot(left, level, names, &slots.third, out)?;
    slot(left, level, names, &slots.fourth, out)?;
    slot(left, level, names, &slots.fifth, out)
}

/// The other three, and the closing parenthesis.
#[cycle(part)]
fn closed(
    left: u32,
    level: u32,
    names: &[Text],
    slots: &Slots<'_>,
    out: &mut String,
) -> Result<(), PartStop>
    requires { level + left < 1024 }
    ensures { Prints (string_bytes out.old) (string_bytes out.new) (joined (back_text (part_text names.now left) level slots.now) (Some (41 ∷ []))) result }
{
    back(left, level, names, slots, out)?;
    put(")", out)
}

/// A parenthesis and the word behind it.
fn open(word: &str, out: &mut String) -> Result<(), PartStop>
    ensures { Prints (string_bytes out.old) (string_bytes out.new) (joined (Some (40 ∷ [])) (Some word.now)) result }
{
    put("(", out)?;
    put(word, out)
}

/// A form, where so many parentheses may open in its own.
#[cycle(part)]
fn form(
    left: u32,
    level: u32,
    names: &[Text],
    slots: &Slots<'_>,
    out: &mut String,
) -> Result<(), PartStop>
    requires { level + left < 1024 }
    ensures { Prints (string_bytes out.old) (string_bytes out.new) (form_steps (part_text names.now left) level slots.now) result }
{
    open(slots.word, out)?;
    front(left, level, names, slots, out)?;
    closed(left, level, names, slots, out)
}

/// A parenthesis, the word of an item behind it, and its name.
fn head(word: &str, name: &str, out: &mut String) -> Result<(), PartStop>
    ensures { Prints (string_bytes out.old) (string_bytes out.new) (head_steps word.now name.now) result }
{
    open(word, out)?;
    put(" ", out)?;
    put(name, out)
}

/// The two parts of an item.
fn both(first: Node<'_>, second: Node<'_>, names: &[Text], out: &mut String) -> Result<(), PartStop>
    ensures { Prints (string_bytes out.old) (string_bytes out.new) (both_text (part_text names.now 1023) first.entry second.entry) result }
{
    slot(1023, 0, names, &Slot::Part(first), out)?;
    slot(1023, 0, names, &Slot::Part(second), out)
}

/// An item with its two parts, and the end of its line.
fn two_parts(
    word: &str,
    name: &str,
    first: Node<'_>,
    second: Node<'_>,
    names: &[Text],
    out: &mut String,
) -> Result<(), PartStop>
    ensures { Prints (string_bytes out.old) (string_bytes out.new)
        (item_steps (part_text names.now 1023) word.now name.now first.entry second.entry) result }
{
    head(word, name, out)?;
    both(first, second, names, out)?;
    put(")\n", out)
}

/// A line for an item.
#[tactic(auto, using(crate::proofs::Steps::item_is))]
pub(crate) fn put_line(item: &OutItem, names: &[Text], out: &mut String) -> Result<(), PartStop>
    ensures { Prints (string_bytes out.old) (string_bytes out.new) (joined (item_text names.now (written item.now)) (Some (10 ∷ []))) result }
{
    match item {
        OutItem::Def { name, ty, body } => {
            two_parts(
                "def",
                name.as_str(),
                Node::Ty(ty),
                Node::Term(body),
                names,
                out,
            )
        }
        OutItem::TypeDef { name, kind, body } => {
            two_parts(
                "type",
                name.as_str(),
                Node::Kind(kind),
                Node::Ty(body),
                names,
                out,
            )
        }
    }
}
