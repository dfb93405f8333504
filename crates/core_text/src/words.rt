//! Reading single tokens, each where the grammar wants it.
ghost use Rattle.std.specs.Prelude.{◌≡◌, ◌<◌, ◌^◌, length, IfErr, IfOk};
ghost use Rattle.std.specs.Str.{IsCharBoundary, IsUtf8};
ghost use Rattle.cdle_model.specs.CoreGrammar.{class_of_form};
ghost use Rattle.cdle_model.specs.CoreTokens.{IsWordAt};
ghost use Rattle.cdle_model.specs.CoreReading.{name_at, close_at, form_at, open_at, sort_at, word_at, head_at};
ghost use Rattle.core_text.specs.View.{rest, Advances, Gives, IsNamePlace, IsPlaced};
ghost use Rattle.core_text.specs.declared.error.CoreTextFault.TheVariants as faults;

use crate::error::CoreTextFault;
use crate::forms::{find_form, wanted_of};
use crate::token::{Lexeme, Token, next};
use cdle_model::{Class, CoreWanted, Form, Sort};

pub(crate) fn bad(at: usize, wanted: CoreWanted) -> CoreTextFault
    requires { at < 2 ^ 32 }
    ensures { result ≡ faults.BadText at wanted }
{
    CoreTextFault::BadText {
        at: at as u32,
        wanted,
    }
}

pub(crate) fn too_deep(at: usize) -> CoreTextFault
    requires { at < 2 ^ 32 }
    ensures { result ≡ faults.TooDeep at }
{
    CoreTextFault::TooDeep { at: at as u32 }
}

/// A name that is bound or given. So many parentheses may still open.
#[tactic(auto, unfolding(cdle_model::specs::CoreReading::name_at))]
pub(crate) fn name_of(
    bytes: &[u8],
    left: usize,
    from: usize,
) -> Result<(&[u8], usize), CoreTextFault>
    requires utf8 { IsUtf8 bytes.now }
    requires start { IsCharBoundary bytes.now from }
    requires short { length bytes.now < 2 ^ 32 }
    ensures gives { Gives (λ x. (x.0.now, rest bytes.now x.1)) result (name_at (length bytes.now) left (rest bytes.now from)) }
    ensures placed { IfErr result (IsPlaced bytes.now) }
    ensures advances { IfOk result (λ x. Advances bytes.now from x.1) }
    ensures text { IfOk result (λ x. IsUtf8 x.0.now) }
{
    match next(bytes, from) {
        None => Err(bad(bytes.len(), CoreWanted::Name)),
        Some(token) => match token.lexeme {
            Lexeme::Word(word) => {
                if word == b"*".as_slice() {
                    return Err(bad(token.at, CoreWanted::Name));
                }
                Ok((word, token.end))
            }
            Lexeme::Opens => {
                if left == 0 {
                    return Err(too_deep(token.at));
                }
                Err(bad(token.at, CoreWanted::Name))
            }
            Lexeme::Closes => Err(bad(token.at, CoreWanted::Name)),
        },
    }
}

/// The closing of a form. So many parentheses may still open.
#[tactic(auto, unfolding(cdle_model::specs::CoreReading::close_at))]
pub(crate) fn close_of(bytes: &[u8], left: usize, from: usize) -> Result<usize, CoreTextFault>
    requires utf8 { IsUtf8 bytes.now }
    requires start { IsCharBoundary bytes.now from }
    requires short { length bytes.now < 2 ^ 32 }
    ensures gives { Gives (λ x. rest bytes.now x) result (close_at (length bytes.now) left (rest bytes.now from)) }
    ensures placed { IfErr result (IsPlaced bytes.now) }
    ensures advances { IfOk result (Advances bytes.now from) }
{
    match next(bytes, from) {
        None => Err(bad(bytes.len(), CoreWanted::Close)),
        Some(token) => match token.lexeme {
            Lexeme::Closes => Ok(token.end),
            Lexeme::Opens => {
                if left == 0 {
                    return Err(too_deep(token.at));
                }
                Err(bad(token.at, CoreWanted::Close))
            }
            Lexeme::Word(_) => Err(bad(token.at, CoreWanted::Close)),
        },
    }
}

/// The word of a form of a class. So many parentheses may still open.
#[tactic(auto, unfolding(cdle_model::specs::CoreReading::form_at))]
pub(crate) fn form_word(
    bytes: &[u8],
    left: usize,
    class: Class,
    from: usize,
) -> Result<(Form, usize), CoreTextFault>
    requires utf8 { IsUtf8 bytes.now }
    requires start { IsCharBoundary bytes.now from }
    requires short { length bytes.now < 2 ^ 32 }
    ensures gives { Gives (λ x. (x.0, rest bytes.now x.1)) result (form_at (length bytes.now) left class (rest bytes.now from)) }
    ensures placed { IfErr result (IsPlaced bytes.now) }
    ensures advances { IfOk result (λ x. Advances bytes.now from x.1) }
    ensures class { IfOk result (λ x. class_of_form x.0 ≡ class) }
{
    match next(bytes, from) {
        None => Err(bad(bytes.len(), wanted_of(class))),
        Some(token) => match token.lexeme {
            Lexeme::Word(word) => match find_form(class, word) {
                Some(form) => Ok((form, token.end)),
                None => Err(bad(token.at, wanted_of(class))),
            },
            Lexeme::Opens => {
                if left == 0 {
                    return Err(too_deep(token.at));
                }
                Err(bad(token.at, wanted_of(class)))
            }
            Lexeme::Closes => Err(bad(token.at, wanted_of(class))),
        },
    }
}

/// The parenthesis of an item.
#[tactic(auto, unfolding(cdle_model::specs::CoreReading::open_at))]
pub(crate) fn open_of(bytes: &[u8], from: usize) -> Result<usize, CoreTextFault>
    requires utf8 { IsUtf8 bytes.now }
    requires start { IsCharBoundary bytes.now from }
    requires short { length bytes.now < 2 ^ 32 }
    ensures gives { Gives (λ x. rest bytes.now x) result (open_at (length bytes.now) (rest bytes.now from)) }
    ensures placed { IfErr result (IsPlaced bytes.now) }
    ensures advances { IfOk result (Advances bytes.now from) }
{
    match next(bytes, from) {
        None => Err(bad(bytes.len(), CoreWanted::Item)),
        Some(token) => match token.lexeme {
            Lexeme::Opens => Ok(token.end),
            _ => Err(bad(token.at, CoreWanted::Item)),
        },
    }
}

/// The word of an item.
#[tactic(auto, unfolding(cdle_model::specs::CoreReading::sort_at))]
pub(crate) fn sort_of(bytes: &[u8], from: usize) -> Result<(Sort, usize), CoreTextFault>
    requires utf8 { IsUtf8 bytes.now }
    requires start { IsCharBoundary bytes.now from }
    requires short { length bytes.now < 2 ^ 32 }
    ensures gives { Gives (λ x. (x.0, rest bytes.now x.1)) result (sort_at (length bytes.now) (rest bytes.now from)) }
    ensures placed { IfErr result (IsPlaced bytes.now) }
    ensures advances { IfOk result (λ x. Advances bytes.now from x.1) }
{
    match next(bytes, from) {
        None => Err(bad(bytes.len(), CoreWanted::Item)),
        Some(token) => match token.lexeme {
            Lexeme::Word(word) => {
                if word == b"def".as_slice() {
                    Ok((Sort::OfTerm, token.end))
                } else if word == b"type".as_slice() {
                    Ok((Sort::OfType, token.end))
                } else {
                    Err(bad(token.at, CoreWanted::Item))
                }
            }
            _ => Err(bad(token.at, CoreWanted::Item)),
        },
    }
}

#[tactic(auto, unfolding(cdle_model::specs::CoreReading::word_at))]
fn word_of(
    bytes: &[u8],
    word: &[u8],
    wanted: CoreWanted,
    from: usize,
) -> Result<usize, CoreTextFault>
    requires utf8 { IsUtf8 bytes.now }
    requires start { IsCharBoundary bytes.now from }
    requires short { length bytes.now < 2 ^ 32 }
    ensures gives { Gives (λ x. rest bytes.now x) result (word_at (length bytes.now) word.now wanted (rest bytes.now from)) }
    ensures placed { IfErr result (IsPlaced bytes.now) }
    ensures advances { IfOk result (Advances bytes.now from) }
{
    match next(bytes, from) {
        None => Err(bad(bytes.len(), wanted)),
        Some(token) => match token.lexeme {
            Lexeme::Word(found) => {
                if found == word {
                    Ok(token.end)
                } else {
                    Err(bad(token.at, wanted))
                }
            }
            _ => Err(bad(token.at, wanted)),
        },
    }
}

/// The words `core` and `1`.
#[tactic(auto, unfolding(cdle_model::specs::CoreReading::head_at))]
pub(crate) fn head_of(bytes: &[u8]) -> Result<usize, CoreTextFault>
    requires utf8 { IsUtf8 bytes.now }
    requires short { length bytes.now < 2 ^ 32 }
    ensures gives { Gives (λ x. rest bytes.now x) result (head_at (length bytes.now) (rest bytes.now 0)) }
    ensures placed { IfErr result (IsPlaced bytes.now) }
    ensures boundary { IfOk result (IsCharBoundary bytes.now) }
{
    let at = word_of(bytes, b"core".as_slice(), CoreWanted::Core, 0)?;
    word_of(bytes, b"1".as_slice(), CoreWanted::One, at)
}

/// The word that begins at a place, as a fault's name does.
pub fn word_at(bytes: &[u8], at: u32) -> &str
    requires utf8 { IsUtf8 bytes.now }
    requires name { IsNamePlace bytes.now at }
    ensures { IsWordAt bytes.now at result.now }
{
    match next(bytes, at as usize) {
        Some(
            Token {
                lexeme: Lexeme::Word(word),
                ..
            },
        ) => match std::str::from_utf8(word) {
            Ok(word) => word,
            Err(_) => unreachable!(),
        },
        _ => unreachable!(),
    }
}
