//! Numbers among the words. They are read here and not by the parser, which would take a sign too.
ghost use Rattle.std.specs.Prelude.{◌≡◌, ◌<◌, ◌≤◌, IfSome, Some, length, option_map, true};
ghost use Rattle.std.specs.Char.{is_ascii_digit};
ghost use Rattle.std.specs.List.{list_all};
ghost use Rattle.std.specs.Str.Parse.{digits_value};
ghost use Rattle.cdle_words.specs.Words.{budget_of, number_of, within};

/// The units of a comparison, where none are given.
const DEFAULT_BUDGET: u64 = 200_000;

/// The most units of a comparison.
const MOST_BUDGET: u64 = 10_000_000;

/// The budget, as it is written or by default.
pub(crate) fn budget_of(word: Option<&str>) -> Option<u64>
    ensures is { result ≡ budget_of (option_map (λ s. s.now) word.entry) }
    ensures within { IfSome result (λ budget. (0 < budget) × (budget ≤ 10000000)) }
{
    match word {
        Some(word) => within(MOST_BUDGET, number_of(word, 8)),
        None => Some(DEFAULT_BUDGET),
    }
}

/// The number, where it is from one to `most`.
fn within(most: u64, number: Option<u64>) -> Option<u64>
    ensures is { result ≡ within most number }
    ensures within { IfSome result (λ n. (0 < n) × (n ≤ most)) }
{
    match number {
        Some(n) if 0 < n && n <= most => Some(n),
        _ => None,
    }
}

/// The number that the word's digits spell, where they are from one to `most`.
fn number_of(word: &str, most: usize) -> Option<u64>
    requires { most ≤ 8 }
    ensures { result ≡ number_of most word.now }
{
    if word.is_empty() || word.len() > most || !are_digits(word) {
        return None;
    }
    parsed(word)
}

fn are_digits(word: &str) -> bool
    ensures { result ≡ list_all is_ascii_digit word.now }
{
    word.bytes().all(|b| b.is_ascii_digit())
}

fn parsed(word: &str) -> Option<u64>
    requires some { 0 < length word.now }
    requires short { length word.now ≤ 8 }
    requires digits { list_all is_ascii_digit word.now ≡ true }
    ensures { result ≡ Some (digits_value 10 word.now) }
{
    word.parse::<u64>().ok()
}
