//! The tokens of a text, one at a time.
ghost use Rattle.std.specs.Prelude.{◌≡◌, ◌+◌, ◌<◌, ◌≤◌, ◌∷◌, [], false, true, length, slice_range, slice_index, drop, MatchOption};
ghost use Rattle.std.specs.Str.{IsCharBoundary, IsUtf8};
ghost use Rattle.cdle_model.specs.CoreTokens.{is_white, ends_word, Opens, Closes, Word, tokens};
ghost use Rattle.core_text.specs.View.{rest};
ghost use Rattle.core_text.specs.Next.{IsNext, Skips, IsPlain};

/// What a token is.
#[derive(Clone, Copy)]
pub(crate) enum Lexeme<'a> {
    Opens,
    Closes,
    Word(&'a [u8]),
}

#[derive(Clone, Copy)]
pub(crate) struct Token<'a> {
    pub(crate) at: usize,
    pub(crate) lexeme: Lexeme<'a>,
    pub(crate) end: usize,
}

fn is_white_byte(b: u8) -> bool
    ensures { result ≡ is_white b }
{
    b == b' ' || b == b'\t' || b == b'\n' || b == b'\r'
}

fn is_word_end(b: u8) -> bool
    ensures { result ≡ ends_word b }
{
    is_white_byte(b) || b == b'(' || b == b')' || b == b';'
}

/// The end of the comment that goes on at a place.
#[tactic(auto, using(crate::proofs::Lexing::comment_goes, crate::proofs::Lexing::comment_stops, crate::proofs::Lexing::comment_ends))]
fn comment_end(bytes: &[u8], from: usize) -> usize
    requires { from ≤ length bytes.now }
    ensures ahead { from ≤ result }
    ensures boundary { IsCharBoundary bytes.now result }
    ensures same { rest bytes.now result ≡ tokens true from (drop from bytes.now) }
{
    let mut at = from;
    while at < bytes.len() && bytes[at] != b'\n' {
        at += 1;
    }
    at
}

/// The place behind the white byte or the comment at a place.
#[tactic(auto, using(crate::proofs::Lexing::rest_white, crate::proofs::Lexing::rest_comment))]
fn gap_step(bytes: &[u8], at: usize) -> Option<usize>
    requires utf8 { IsUtf8 bytes.now }
    requires within { at ≤ length bytes.now }
    ensures { MatchOption result (IsPlain bytes.now at) (λ to. (at < to) × Skips bytes.now at to) }
{
    if at == bytes.len() {
        return None;
    }
    let b = bytes[at];
    if is_white_byte(b) {
        return Some(at + 1);
    }
    if b == b';' {
        return Some(comment_end(bytes, at + 1));
    }
    None
}

/// The end of white space and comments.
fn gap_end(bytes: &[u8], from: usize) -> usize
    requires utf8 { IsUtf8 bytes.now }
    requires start { IsCharBoundary bytes.now from }
    ensures skips { Skips bytes.now from result }
    ensures plain { IsPlain bytes.now result }
{
    let mut at = from;
    while let Some(to) = gap_step(bytes, at) {
        at = to;
    }
    at
}

/// The end of the word at a place.
#[tactic(auto, using(crate::proofs::Lexing::rest_word))]
fn word_end(bytes: &[u8], from: usize) -> usize
    requires within { from < length bytes.now }
    requires word { ends_word (slice_index bytes.now from) ≡ false }
    ensures ahead { from < result }
    ensures boundary { IsCharBoundary bytes.now result }
    ensures first { rest bytes.now from ≡ (from, Word (slice_range bytes.now from result)) ∷ rest bytes.now result }
{
    let mut end = from + 1;
    while end < bytes.len() && !is_word_end(bytes[end]) {
        end += 1;
    }
    end
}

/// The next token.
#[tactic(auto, using(crate::proofs::Lexing::rest_end, crate::proofs::Lexing::rest_opens, crate::proofs::Lexing::rest_closes))]
pub(crate) fn next(bytes: &[u8], from: usize) -> Option<Token<'_>>
    requires utf8 { IsUtf8 bytes.now }
    requires start { IsCharBoundary bytes.now from }
    ensures { MatchOption result (rest bytes.now from ≡ []) (IsNext bytes.now from) }
{
    let at = gap_end(bytes, from);
    if at == bytes.len() {
        return None;
    }
    let b = bytes[at];
    if b == b'(' {
        return Some(Token {
            at,
            lexeme: Lexeme::Opens,
            end: at + 1,
        });
    }
    if b == b')' {
        return Some(Token {
            at,
            lexeme: Lexeme::Closes,
            end: at + 1,
        });
    }
    let end = word_end(bytes, at);
    Some(Token {
        at,
        lexeme: Lexeme::Word(&bytes[at..end]),
        end,
    })
}
