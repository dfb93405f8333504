//! The texts of the reports.
ghost use Rattle.std.specs.Prelude.{◌≡◌, ◌<◌, IfOk, None, Option, Some, length, option_map, string_bytes};
ghost use Rattle.cdle_model.specs.Places.{column_of, line_of};
ghost use Rattle.cdle_model.specs.Report.{cannot_read_line, count_word, limit_line, malformed_line, missing_line, path_text, refused_line, undecided_line};
ghost use Rattle.build_outcome.specs.Lines.{built_line, byte_word, cannot_write_line, read_back_line, refused_there_line, undecided_there_line};
ghost use Rattle.build_outcome.specs.Reports.{IsPlaced, IsShown, IsSpotShown, IsTextTo, bad_word, done_line, reason_word, refusal_line, report_of, undecided_at, unwritten_line};
ghost use Rattle.build_outcome.specs.declared.outcome.Spot.TheVariants.{CoreSpot, FileSpot};

use crate::outcome::{Badness, Outcome, Reason, Spot};
use crate::words::{code_text, why_text};
use cdle_model::{Count, NoMemory};
use cdle_names::{Place, place_of};
use std::alloc::Global;

/// The report of an outcome of the job, over the text of the file at which the call ended. That memory is wanting is said without any, so not here.
pub(crate) fn report(
    alloc: Global,
    job: Option<&str>,
    outcome: &Outcome,
    text: &[u8],
) -> Result<String, NoMemory>
    requires { IsShown text.now outcome.now }
    ensures { IfOk result (λ report. string_bytes report ≡ report_of (option_map (λ name. name.now) job.entry) text.now outcome.now) }
{
    match outcome {
        Outcome::Ok { modules, items } => done(alloc, job, *modules, *items),
        Outcome::Malformed { file, at, what } => malformed(alloc, file.as_str(), text, *at, what),
        Outcome::Usage => {
            let usage = "usage: cdle core FILE.. | cdle build MODULE | cdle make N [--budget N]\n";
            Ok(String::from_str(alloc, usage)?)
        }
        Outcome::Refused { place, why } => refusal(alloc, text, place, why),
        Outcome::Undecided { place, budget } => undecided(alloc, text, place, *budget),
        Outcome::ReadFault { file } => unread(alloc, file.as_str()),
        Outcome::WriteFault { file: Some(file) } => unwritten(alloc, file.as_str()),
        Outcome::WriteFault { file: None } => Ok(String::new(alloc)),
        Outcome::NoMemory => Err(NoMemory),
        Outcome::ReadBack {
            file,
            at,
            wrote,
            read,
        } => read_back(alloc, file.as_str(), *at, *wrote, *read),
        Outcome::Limit { name, what } => past_limit(alloc, name.as_str(), *what),
        Outcome::Missing { file } => missing(alloc, file.as_str()),
    }
}

fn done(alloc: Global, job: Option<&str>, modules: u32, items: u32) -> Result<String, NoMemory>
    ensures { IfOk result (λ report. string_bytes report ≡ done_line (option_map (λ name. name.now) job.entry) modules items) }
{
    match job {
        None => Ok(format!(in alloc; "accepted {items}\n")?),
        Some(name) => Ok(format!(in alloc; "built {name} modules {modules} items {items}\n")?),
    }
}

fn malformed(
    alloc: Global,
    file: &str,
    text: &[u8],
    at: u32,
    what: &Badness,
) -> Result<String, NoMemory>
    requires { IsPlaced text.now at }
    ensures { IfOk result (λ report. string_bytes report ≡ malformed_line file.now text.now at (bad_word what.now)) }
{
    let place = place_in(text, at);
    let line = place.line;
    let column = place.column;
    let what = bad_text(alloc, what)?;
    Ok(format!(in alloc; "{file}:{line}:{column}: malformed: {what}\n")?)
}

fn unread(alloc: Global, file: &str) -> Result<String, NoMemory>
    ensures { IfOk result (λ report. string_bytes report ≡ cannot_read_line file.now) }
{
    Ok(format!(in alloc; "cannot read {file}\n")?)
}

fn past_limit(alloc: Global, name: &str, what: Count) -> Result<String, NoMemory>
    ensures { IfOk result (λ report. string_bytes report ≡ limit_line name.now what) }
{
    let what = count_text(what);
    Ok(format!(in alloc; "limit {name}: {what}\n")?)
}

fn missing(alloc: Global, file: &str) -> Result<String, NoMemory>
    ensures { IfOk result (λ report. string_bytes report ≡ missing_line file.now) }
{
    Ok(format!(in alloc; "missing {file}\n")?)
}

fn unwritten(alloc: Global, file: &str) -> Result<String, NoMemory>
    ensures { IfOk result (λ report. string_bytes report ≡ cannot_write_line file.now) }
{
    Ok(format!(in alloc; "cannot write {file}\n")?)
}

fn read_back(
    alloc: Global,
    file: &str,
    at: u32,
    wrote: Option<u8>,
    read: Option<u8>,
) -> Result<String, NoMemory>
    ensures { IfOk result (λ report. string_bytes report ≡ read_back_line file.now at wrote read) }
{
    let wrote = byte_text(alloc, wrote)?;
    let read = byte_text(alloc, read)?;
    Ok(format!(in alloc; "read back {file} differs at byte {at}: wrote {wrote}, read {read}\n")?)
}

/// The byte in decimal, or that there is none.
fn byte_text(alloc: Global, byte: Option<u8>) -> Result<String, NoMemory>
    ensures { IfOk result (λ text. string_bytes text ≡ byte_word byte) }
{
    match byte {
        Some(byte) => Ok(format!(in alloc; "{byte}")?),
        None => Ok(String::from_str(alloc, "end")?),
    }
}

fn refusal(alloc: Global, text: &[u8], place: &Spot, why: &Reason) -> Result<String, NoMemory>
    requires { IsSpotShown text.now place.now }
    ensures { IfOk result (λ report. string_bytes report ≡ refusal_line text.now place.now why.now) }
{
    match place {
        Spot::CoreSpot { item, path } => item_refusal(
            alloc,
            text,
            item.as_str(),
            path.numbers(),
            why,
        ),
        Spot::FileSpot { file, at } => refused_there(
            alloc,
            file.as_str(),
            text,
            *at,
            reason_text(why),
        ),
    }
}

fn item_refusal(
    alloc: Global,
    text: &[u8],
    item: &str,
    path: &[u32],
    why: &Reason,
) -> Result<String, NoMemory>
    ensures { IfOk result (λ report. string_bytes report ≡ refusal_line text.now (CoreSpot item.now path.now) why.now) }
{
    match why {
        Reason::Duplicate { .. } => Ok(format!(in alloc; "refused {item}: duplicate\n")?),
        _ => refused(alloc, item, path, reason_text(why)),
    }
}

fn refused(alloc: Global, item: &str, path: &[u32], what: &str) -> Result<String, NoMemory>
    ensures { IfOk result (λ report. string_bytes report ≡ refused_line item.now path.now what.now) }
{
    let path = path_of(alloc, path)?;
    Ok(format!(in alloc; "refused {item} at {path}: {what}\n")?)
}

fn refused_there(
    alloc: Global,
    file: &str,
    text: &[u8],
    at: u32,
    what: &str,
) -> Result<String, NoMemory>
    requires { IsPlaced text.now at }
    ensures { IfOk result (λ report. string_bytes report ≡ refused_there_line file.now text.now at what.now) }
{
    let place = place_in(text, at);
    let line = place.line;
    let column = place.column;
    Ok(format!(in alloc; "{file}:{line}:{column}: refused: {what}\n")?)
}

fn undecided(alloc: Global, text: &[u8], place: &Spot, budget: u64) -> Result<String, NoMemory>
    requires { IsSpotShown text.now place.now }
    ensures { IfOk result (λ report. string_bytes report ≡ undecided_at text.now place.now budget) }
{
    match place {
        Spot::CoreSpot { item, path } => {
            undecided_item(alloc, item.as_str(), path.numbers(), budget)
        }
        Spot::FileSpot { file, at } => undecided_there(alloc, file.as_str(), text, *at, budget),
    }
}

fn undecided_item(alloc: Global, item: &str, path: &[u32], budget: u64) -> Result<String, NoMemory>
    ensures { IfOk result (λ report. string_bytes report ≡ undecided_line item.now path.now budget) }
{
    let path = path_of(alloc, path)?;
    Ok(format!(in alloc; "undecided {item} at {path}: budget {budget}\n")?)
}

fn undecided_there(
    alloc: Global,
    file: &str,
    text: &[u8],
    at: u32,
    budget: u64,
) -> Result<String, NoMemory>
    requires { IsPlaced text.now at }
    ensures { IfOk result (λ report. string_bytes report ≡ undecided_there_line file.now text.now at budget) }
{
    let place = place_in(text, at);
    let line = place.line;
    let column = place.column;
    Ok(format!(in alloc; "{file}:{line}:{column}: undecided: budget {budget}\n")?)
}

/// The place of a byte of a text; of one that is not UTF-8, of where it stops to be so.
fn place_in(text: &[u8], at: u32) -> Place
    requires { IsPlaced text.now at }
    ensures line { result.line ≡ line_of text.now at }
    ensures column { result.column ≡ column_of text.now at }
{
    match std::str::from_utf8(text) {
        Ok(text) => place_of(text, at),
        Err(_) => match std::str::from_utf8(&text[..at as usize]) {
            Ok(beginning) => place_of(beginning, at),
            Err(_) => unreachable!(),
        },
    }
}

fn bad_text(alloc: Global, what: &Badness) -> Result<String, NoMemory>
    ensures { IfOk result (λ text. string_bytes text ≡ bad_word what.now) }
{
    match what {
        Badness::NotUtf8 => Ok(String::from_str(alloc, "not UTF-8")?),
        Badness::Wanted(word) => {
            let word = word.as_str();
            Ok(format!(in alloc; "wanted {word}")?)
        }
        Badness::Unbound(name) => {
            let name = name.as_str();
            Ok(format!(in alloc; "unbound {name}")?)
        }
        Badness::WrongClass(name) => {
            let name = name.as_str();
            Ok(format!(in alloc; "wrong class {name}")?)
        }
        Badness::Twice(name) => {
            let name = name.as_str();
            Ok(format!(in alloc; "twice {name}")?)
        }
        Badness::BadCharacter => Ok(String::from_str(alloc, "bad character")?),
        Badness::OpenComment => Ok(String::from_str(alloc, "open comment")?),
    }
}

/// The numbers of a path, from the item inwards.
fn path_of(alloc: Global, numbers: &[u32]) -> Result<String, NoMemory>
    ensures { IfOk result (λ text. string_bytes text ≡ path_text numbers.now) }
{
    match numbers {
        [] => Ok(String::new(alloc)),
        [number] => Ok(format!(in alloc; "{number}")?),
        [number, inner @ ..] => {
            let inner = path_of(alloc, inner)?;
            Ok(format!(in alloc; "{number}/{inner}")?)
        }
    }
}

/// Why something is refused, but for an item's repeated name.
fn reason_text(why: &Reason) -> &'static str
    ensures { result.now ≡ reason_word why.now }
{
    match why {
        Reason::Core(why) => why_text(why),
        Reason::Duplicate { .. } => "duplicate",
        Reason::Surface(code) => code_text(*code),
        Reason::NotBuilt => "form not built",
    }
}

fn count_text(what: Count) -> &'static str
    ensures { result.now ≡ count_word what }
{
    match what {
        Count::Bytes => "bytes",
        Count::Nesting => "nesting",
        Count::Depth => "depth",
        Count::Items => "items",
        Count::Modules => "modules",
        Count::Constructors => "constructors",
        Count::Arguments => "arguments",
        Count::Parameters => "parameters",
    }
}
