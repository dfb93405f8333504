//! The command that the words ask for.
ghost use Rattle.std.specs.Prelude.{◌≡◌, ◌<◌, ◌≤◌, IfOk, IsErrOf, None, Some, drop, false, length, map, option_and_then, string_bytes};
ghost use Rattle.cdle_words.specs.Command.{budget_in, command_in};
ghost use Rattle.cdle_words.specs.Words.{build_given, command_of, core_given, nothing_given, read_words};
ghost use Rattle.cdle_words.specs.declared.asked.WordsFault.TheVariants.{NoMemory};

use crate::given::read_given;
use crate::module::module_of;
use crate::number::budget_of;
use std::alloc::{AllocError, Global};

/// What the words ask for.
#[derive(Debug, Drop)]
pub enum Asked {
    /// To check these files, one at least, in this order and with this budget for each comparison.
    Core { files: Vec<String>, budget: u64 },
    /// To build the module of that name, with this budget for each comparison.
    Build { module: String, budget: u64 },
}

/// Why there is no command.
#[derive(Clone, Copy, Debug, PartialEq, Eq)]
pub enum WordsFault {
    /// The words are no command.
    Usage,
    /// Memory was wanted and not there.
    NoMemory,
}

impl From<AllocError> for WordsFault {
    ghost from_gives = { λ _ e. e ≡ NoMemory };

    fn from(_: AllocError) -> Self {
        WordsFault::NoMemory
    }
}

/// The command that these words ask for, which stand behind the program's name.
pub fn command_asked(alloc: Global, words: &Vec<String>) -> Result<Asked, WordsFault>
    ensures asked { IfOk result (λ asked. command_of (map string_bytes words.now.items) ≡ Some (command_in asked)) }
    ensures usage { IsErrOf result WordsFault.Usage → command_of (map string_bytes words.now.items) ≡ None }
    ensures budget { IfOk result (λ asked. (0 < budget_in asked) × (budget_in asked ≤ 10000000)) }
{
    match words.first() {
        Some(first) if first.as_str() == "core" => core_asked(alloc, words),
        Some(first) if first.as_str() == "build" => build_asked(alloc, words),
        _ => Err(WordsFault::Usage),
    }
}

/// The command `core` by the words behind the first.
fn core_asked(alloc: Global, words: &Vec<String>) -> Result<Asked, WordsFault>
    requires { 0 < length words.now.items }
    ensures asked { IfOk result (λ asked. option_and_then core_given (read_words nothing_given false (drop 1 (map string_bytes words.now.items))) ≡ Some (command_in asked)) }
    ensures usage { IsErrOf result WordsFault.Usage → option_and_then core_given (read_words nothing_given false (drop 1 (map string_bytes words.now.items))) ≡ None }
    ensures budget { IfOk result (λ asked. (0 < budget_in asked) × (budget_in asked ≤ 10000000)) }
{
    let given = read_given(alloc, words)?;
    let Some(budget) = budget_of(given.budget) else {
        return Err(WordsFault::Usage);
    };
    if given.values.is_empty() {
        return Err(WordsFault::Usage);
    }
    Ok(Asked::Core {
        files: given.values,
        budget,
    })
}

/// The command `build` by the words behind the first.
fn build_asked(alloc: Global, words: &Vec<String>) -> Result<Asked, WordsFault>
    requires { 0 < length words.now.items }
    ensures asked { IfOk result (λ asked. option_and_then build_given (read_words nothing_given false (drop 1 (map string_bytes words.now.items))) ≡ Some (command_in asked)) }
    ensures usage { IsErrOf result WordsFault.Usage → option_and_then build_given (read_words nothing_given false (drop 1 (map string_bytes words.now.items))) ≡ None }
    ensures budget { IfOk result (λ asked. (0 < budget_in asked) × (budget_in asked ≤ 10000000)) }
{
    let given = read_given(alloc, words)?;
    let Some(budget) = budget_of(given.budget) else {
        return Err(WordsFault::Usage);
    };
    match module_of(given.values) {
        Some(module) => Ok(Asked::Build { module, budget }),
        None => Err(WordsFault::Usage),
    }
}
