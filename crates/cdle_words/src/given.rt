//! The options and the values among the words, by the parser.
ghost use Rattle.std.specs.Prelude.{◌≡◌, ◌<◌, IfErr, IfOk, IsErrOf, None, Some, [], drop, false, length, map, option_map, string_bytes, unwrap_or};
ghost use Rattle.clap.specs.Words.{app_of, found_of, kind_of, rows_of};
ghost use Rattle.cdle_words.specs.Parser.{found_in, given_of, words_app};
ghost use Rattle.cdle_words.specs.Words.{nothing_given, read_words};

use crate::asked::WordsFault;
use clap::error::ErrorKind;
use clap::{Arg, ArgAction, ArgMatches, Command, Error};
use std::alloc::{AllocError, Global};

/// The values in their order, and the budget as it is written.
#[derive(Debug, Drop)]
pub(crate) struct GivenWords<'a> {
    pub(crate) values: Vec<String>,
    pub(crate) budget: Option<&'a str>,
}

/// What the words behind the first give.
pub(crate) fn read_given<'a>(
    alloc: Global,
    words: &'a Vec<String>,
) -> Result<GivenWords<'a>, WordsFault>
    requires { 0 < length words.now.items }
    ensures gives { IfOk result (λ g. read_words nothing_given false (drop 1 (map string_bytes words.entry.now.items)) ≡ Some (given_of g)) }
    ensures usage { IsErrOf result WordsFault.Usage → read_words nothing_given false (drop 1 (map string_bytes words.entry.now.items)) ≡ None }
{
    let command = match command(alloc, words[0].as_str()) {
        Ok(command) => command,
        Err(_) => return Err(WordsFault::NoMemory),
    };
    match command.try_get_matches_from(words.as_slice()) {
        Ok(matches) => found(alloc, &matches),
        Err(error) => Err(fault_of(error.kind())),
    }
}

/// The command of that name: `--budget V` at most once, and values. It has no flags of its own, not for help either.
fn command<'a>(alloc: Global, name: &'a str) -> Result<Command<'a>, Error>
    ensures shape { IfOk result (λ c. app_of c ≡ words_app name.entry.now) }
    ensures memory { IfErr result (λ e. kind_of e ≡ ErrorKind.OutOfMemory) }
{
    let command = Command::new(alloc, name)
        .disable_help_flag(true)
        .disable_version_flag(true)
        .arg(Arg::new(alloc, "budget").long("budget"))?;
    let value = Arg::new(alloc, "value").action(ArgAction::Append);
    Ok(command.arg(value)?)
}

/// What the parser found.
fn found<'a>(alloc: Global, matches: &ArgMatches<'a>) -> Result<GivenWords<'a>, WordsFault>
    ensures gives { IfOk result (λ g. given_of g ≡ found_in (rows_of (found_of matches.now))) }
    ensures memory { IsErrOf result WordsFault.Usage → ⊥ }
{
    let budget = matches.get_str("budget");
    let values = copies(alloc, matches.get_strs("value"))?;
    Ok(GivenWords { values, budget })
}

fn copies(alloc: Global, values: Option<&[&str]>) -> Result<Vec<String>, AllocError>
    ensures { IfOk result (λ copies. map string_bytes copies.items ≡ unwrap_or (option_map (λ s. map (λ v. v.now) s.now) values.entry) []) }
{
    let mut copies = Vec::new(alloc);
    if let Some(values) = values {
        for value in values {
            copies.push(String::from_str(alloc, value)?)?;
        }
    }
    Ok(copies)
}

/// A refusal of the parser: its memory, or the words.
fn fault_of(kind: ErrorKind) -> WordsFault
    ensures { result ≡ WordsFault.Usage → (kind ≡ ErrorKind.OutOfMemory → ⊥) }
{
    match kind {
        ErrorKind::OutOfMemory => WordsFault::NoMemory,
        _ => WordsFault::Usage,
    }
}
