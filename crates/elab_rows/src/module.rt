//! One module, from its text to its Core file.
use cdle_model::Text;
use cdle_names::{NameTable, Span, place_of};
use elab_item::{Env, ItemFault, elaborate};
use elab_print::print_core;
use elab_tree::OutItem;
use scoped_tree::ScopedModule;
use std::alloc::Global;
use std::fmt;
use surf_lex::lex;
use surf_parse::parse;
use surf_scope::{Exports, resolve};

/// The most bytes of a row.
const MOST_BYTES: usize = 10_000;

/// What became of a row.
#[derive(Drop)]
pub(crate) enum Answer {
    /// The lines of its Core file, parted by bars.
    Built(String),
    /// Why there is none.
    Refused(String),
    /// It is no module, or memory was not there.
    Nothing,
}

impl fmt::Display for Answer {
    fn fmt<W: fmt::Write>(&self, f: &mut fmt::Formatter<W>) -> fmt::Result {
        match self {
            Answer::Built(text) => write!(f, "{text}"),
            Answer::Refused(why) => write!(f, "{why}"),
            Answer::Nothing => write!(f, "nothing"),
        }
    }
}

/// What becomes of the module of these lines, which are parted by bars.
pub(crate) fn answer_of(alloc: Global, lines: &str, budget: u64) -> Answer {
    let Ok(text) = lines.replace(alloc, " | ", "\n") else {
        return Answer::Nothing;
    };
    let Some(module) = scoped(alloc, text.as_str()) else {
        return Answer::Nothing;
    };
    let mut env = Env::new(alloc);
    match elaborate(alloc, &module, &mut env, budget) {
        Ok(items) => match printed(alloc, &items) {
            Some(text) => Answer::Built(text),
            None => Answer::Nothing,
        },
        Err(fault) => told(alloc, text.as_str(), fault),
    }
}

/// The module of the text, whose scope is known.
fn scoped(alloc: Global, text: &str) -> Option<ScopedModule> {
    if text.len() > MOST_BYTES {
        return None;
    }
    let mut names = NameTable::new(alloc);
    let tokens = lex(alloc, text).ok()?;
    if tokens.len() > MOST_BYTES {
        return None;
    }
    let module = parse(alloc, &tokens, text, "m", &mut names).ok()?;
    resolve(alloc, &module, &Exports::new(alloc), &mut names).ok()
}

/// The lines of the items' Core file behind the first, parted by bars.
fn printed(alloc: Global, items: &Vec<OutItem>) -> Option<String> {
    if items.len() > MOST_BYTES {
        return None;
    }
    let mut names = Vec::new(alloc);
    for item in items {
        names
            .push(Text::new(alloc, item.name().as_str()).ok()?)
            .ok()?;
    }
    let bytes = print_core(alloc, items.as_slice(), names.as_slice()).ok()?;
    let text = String::from_utf8(bytes).ok()?;
    let lines = text.as_str().trim_end().replace(alloc, "\n", " | ");
    lines.ok()
}

/// Why there is no Core file, with its place in the text.
fn told(alloc: Global, text: &str, fault: ItemFault) -> Answer {
    let why = match fault {
        ItemFault::Reject { item, span, code } => at(
            alloc,
            text,
            item,
            span,
            format!(in alloc; "{code:?}"),
        ),
        ItemFault::Spent { item, span } => at(
            alloc,
            text,
            item,
            span,
            String::from_str(alloc, "undecided"),
        ),
        ItemFault::TooDeep { item } => format!(in alloc; "item {item}: too deep").ok(),
        ItemFault::Failed => None,
        ItemFault::NoMemory => None,
    };
    match why {
        Some(why) => Answer::Refused(why),
        None => Answer::Nothing,
    }
}

fn at(
    alloc: Global,
    text: &str,
    item: u32,
    span: Span,
    word: Result<String, std::alloc::AllocError>,
) -> Option<String> {
    if text.len() > MOST_BYTES {
        return None;
    }
    let place = place_of(text, span.from);
    let line = place.line;
    let column = place.column;
    let word = word.ok()?;
    format!(in alloc; "item {item} at {line}:{column}: {word}").ok()
}
