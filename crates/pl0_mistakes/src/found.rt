//! What stands at a place of a text.

ghost use Rattle.std.specs.Prelude.{◌≡◌, ◌-◌, ◌<◌, [], ◌∷◌, length, drop, codes, MatchOption};
ghost use Rattle.std.specs.Str.{bytes_eq};
ghost use Rattle.pl0_mistakes.specs.Found.{from_line, from_place, before_place, front_token, cut};

use pl0_tree::{Place, digits_len, is_space, word_len};

/// A token as it stands in a text; it is empty where there is none.
#[derive(Clone, Copy)]
pub struct Token<'a> {
    pub bytes: &'a [u8],
}

impl<'a> Token<'a> {
    /// Whether it is this one.
    pub(crate) fn is(self, text: &str) -> bool
        ensures { result ≡ bytes_eq self.entry.bytes.now text.now }
    {
        self.bytes == text.as_bytes()
    }

    /// Whether it is one of these tokens.
    pub(crate) fn is_one_of(self, tokens: &str) -> bool {
        for token in tokens.split_whitespace() {
            if self.is(token) {
                return true;
            }
        }
        false
    }

    /// Whether it is one of these words, but for capitals.
    pub(crate) fn is_word_of(self, words: &str) -> bool {
        for word in words.split_whitespace() {
            if word.as_bytes().eq_ignore_ascii_case(self.bytes) {
                return true;
            }
        }
        false
    }

    /// Whether it is a number.
    pub(crate) fn is_number(self) -> bool {
        self.bytes.first().is_some_and(u8::is_ascii_digit)
    }

    /// Whether it is a keyword or a name.
    pub(crate) fn is_word(self) -> bool {
        self.bytes.first().is_some_and(u8::is_ascii_alphabetic)
    }
}

/// Returns what stands in a text before a place.
pub(crate) fn before_place(text: &[u8], place: Place) -> &[u8]
    ensures { result.now ≡ before_place place text.now }
{
    let onward = from_place(text, place);
    &text[..text.len().saturating_sub(onward.len())]
}

/// Returns the token at a place of a text, as long as it goes; nothing where the text ends there.
pub(crate) fn token_at(text: &[u8], place: Place) -> &[u8]
    ensures { result.now ≡ front_token (from_place place text.now) }
{
    front_token(from_place(text, place))
}

/// Returns what stands in a text from a place on.
pub(crate) fn from_place(text: &[u8], place: Place) -> &[u8]
    ensures { result.now ≡ from_place place text.now }
{
    let line = from_line(text, place.line.saturating_sub(1));
    let skipped = place.column.saturating_sub(1) as usize;
    if skipped < line.len() {
        &line[skipped..]
    } else {
        &[]
    }
}

/// Returns what stands in a text from a line on, of which the first is 0.
fn from_line(text: &[u8], line: u32) -> &[u8]
    ensures { result.now ≡ from_line line text.now }
{
    let mut left = line;
    let mut rest = text;
    while let [first, after @ ..] = rest {
        if left == 0 {
            return rest;
        }
        if *first == b'\n' {
            left -= 1;
        }
        rest = after;
    }
    rest
}

/// Returns the next token, and what is after it. White space may stand before it.
pub(crate) fn next_token(bytes: &[u8]) -> Option<(Token<'_>, &[u8])>
    ensures { MatchOption result (cut bytes.now ≡ [])
        (λ x. (cut bytes.now ≡ x.0.bytes.now ∷ cut x.1.now) × (length x.1.now < length bytes.now)) }
{
    let mut rest = bytes;
    while let [first, after @ ..] = rest {
        if !is_space(*first) {
            return Some(split_token(rest));
        }
        rest = after;
    }
    None
}

/// Returns the token in front of bytes, and what is after it.
fn split_token(bytes: &[u8]) -> (Token<'_>, &[u8])
    ensures token { result.0.bytes.now ≡ front_token bytes.now }
    ensures after { result.1.now ≡ drop (length (front_token bytes.now) - 1) (drop 1 bytes.now) }
{
    let token = front_token(bytes);
    match bytes {
        [] => (Token { bytes: token }, bytes),
        [_, after @ ..] => (
            Token { bytes: token },
            &after[token.len().saturating_sub(1)..],
        ),
    }
}

/// Returns the token in front of bytes: a word, a number or a sign. It is empty where no bytes are left.
fn front_token(bytes: &[u8]) -> &[u8]
    ensures { result.now ≡ front_token bytes.now }
{
    match bytes {
        [] => bytes,
        [first, ..] if first.is_ascii_alphabetic() => &bytes[..word_len(bytes)],
        [first, ..] if first.is_ascii_digit() => &bytes[..digits_len(bytes)],
        [b':' | b'<' | b'>', b'=', ..] => &bytes[..2],
        _ => &bytes[..1],
    }
}
