//! Cuts a text into tokens.

ghost use Rattle.std.specs.Prelude.{ℕ, ◌≡◌, ◌+◌, ◌<◌, ◌≤◌, ◌∷◌, [], ◌++◌, map, length, take, slice_index, IfOk, IfErr, IsOk, false, find, option_map};
ghost use Rattle.std.specs.Str.{bytes_eq, IsAscii};
ghost use Rattle.pl0_tree.specs.Tokens.{start_place, tokens_of, is_space, behind, word_symbol, number_symbol, decimal_value, keywords};
ghost use Rattle.pl0_tree.specs.Words.{symbol_of, ended};
ghost use Rattle.pl0_tree.specs.Faults.{limit, FaultIs};
ghost use Rattle.pl0_tree.specs.Ascending.{Ascend};
ghost use Rattle.pl0_parser.specs.Cutting.{IsFront, IsSign, along};

use pl0_tree::{
    FaultKind, Magnitude, Mark, Place, Symbol, SyntaxFault, Token, digits_len, is_space, word_len,
};
use std::alloc::Global;
use std::str::from_utf8_unchecked;

/// The most bytes of a text.
const LIMIT: usize = 65536;

/// The most characters of a name.
const NAME_LIMIT: usize = 64;

/// The place where a text begins.
const START: Place = Place { line: 1, column: 1 };

/// Returns the tokens of a text, and the place of its end, after the last byte. A token that is at fault by itself is
/// among them.
///
/// # Errors
///
/// `TooLong` at the start of a text of more than 65,536 bytes, or out of memory.
pub fn tokenize<'a>(alloc: Global, text: &'a [u8]) -> Result<(Vec<Token<'a>>, Place), SyntaxFault>
    ensures tokens { IfOk result (λ x. ended x.0.items x.1 ≡ tokens_of text.now) }
    // Each token stands after the one before, and the end after all.
    ensures in_order { IfOk result (λ x. Ascend (map (λ token. token.place) (ended x.0.items x.1))) }
    ensures short { IsOk result → length text.now ≤ limit }
    ensures long { IfErr result (FaultIs (λ kind place. (limit < length text.now) × (kind ≡ FaultKind.TooLong)
        × (place ≡ start_place))) }
{
    if text.len() > LIMIT {
        return Err(SyntaxFault::InText {
            kind: FaultKind::TooLong,
            place: START,
        });
    }
    let mut found = Vec::new(alloc);
    let mut place = START;
    let mut rest = text;
    while let [first, after @ ..] = rest {
        if is_space(*first) {
            place = place_behind(place, *first);
            rest = after;
        } else {
            let (symbol, size) = front(rest);
            found.push(Token { symbol, place })?;
            place = place_along(place, size);
            rest = &rest[size..];
        }
    }
    Ok((found, place))
}

/// Returns the symbol at the front, and its size in bytes. The bytes don't begin with white space.
fn front<'a>(bytes: &'a [u8]) -> (Symbol<'a>, usize)
    requires some { 0 < length bytes.now }
    requires visible { is_space (slice_index bytes.now 0) ≡ false }
    ensures { IsFront bytes.now result.0 result.1 }
{
    let first = bytes[0];
    if first >= 128 {
        (Symbol::Faulty(FaultKind::NotAscii), 1)
    } else if first.is_ascii_alphabetic() {
        let size = word_len(bytes);
        (word_symbol(&bytes[..size]), size)
    } else if first.is_ascii_digit() {
        let size = digits_len(bytes);
        (number_symbol(&bytes[..size]), size)
    } else {
        sign(bytes)
    }
}

/// Returns the symbol of a word: a keyword, or a name of at most 64 characters.
fn word_symbol<'a>(word: &'a [u8]) -> Symbol<'a>
    requires { IsAscii word.now }
    ensures { symbol_of result ≡ word_symbol word.now }
{
    match keyword(word) {
        Some(mark) => Symbol::Mark(mark),
        None if word.len() <= NAME_LIMIT => Symbol::Name(unsafe { from_utf8_unchecked(word) }),
        None => Symbol::Faulty(FaultKind::NameTooLong),
    }
}

/// Returns the keyword that a word is; `None` if it is none.
fn keyword(word: &[u8]) -> Option<Mark>
    ensures { result ≡ option_map (λ entry. entry.1) (find (λ entry. bytes_eq word.now entry.0) keywords) }
{
    if word == b"const".as_slice() {
        Some(Mark::Const)
    } else if word == b"var".as_slice() {
        Some(Mark::Var)
    } else if word == b"procedure".as_slice() {
        Some(Mark::Procedure)
    } else if word == b"call".as_slice() {
        Some(Mark::Call)
    } else if word == b"begin".as_slice() {
        Some(Mark::Begin)
    } else if word == b"end".as_slice() {
        Some(Mark::End)
    } else if word == b"if".as_slice() {
        Some(Mark::If)
    } else if word == b"then".as_slice() {
        Some(Mark::Then)
    } else if word == b"while".as_slice() {
        Some(Mark::While)
    } else if word == b"do".as_slice() {
        Some(Mark::Do)
    } else if word == b"odd".as_slice() {
        Some(Mark::Odd)
    } else {
        None
    }
}

/// Returns the symbol of digits: a number below 2^63.
fn number_symbol<'a>(digits: &[u8]) -> Symbol<'a>
    requires { (i : ℕ) → i < length digits.now → (48 ≤ slice_index digits.now i) × (slice_index digits.now i < 58) }
    ensures { symbol_of result ≡ number_symbol (decimal_value digits.now) }
{
    let mut value: u64 = 0;
    for digit in digits {
        let next = u128::from(value) * 10 + u128::from(*digit - b'0');
        if next >= 1 << 63 {
            return Symbol::Faulty(FaultKind::NumberTooLarge);
        }
        value = next as u64;
    }
    Symbol::Number(Magnitude { value })
}

/// Returns the sign at the front and its size in bytes. Longer signs are tried first.
fn sign<'a>(bytes: &[u8]) -> (Symbol<'a>, usize)
    ensures { IsSign bytes.now result.0 result.1 }
{
    match bytes {
        [b':', b'=', ..] => (Symbol::Mark(Mark::Becomes), 2),
        [b'<', b'=', ..] => (Symbol::Mark(Mark::AtMost), 2),
        [b'>', b'=', ..] => (Symbol::Mark(Mark::AtLeast), 2),
        [b'+', ..] => (Symbol::Mark(Mark::Plus), 1),
        [b'-', ..] => (Symbol::Mark(Mark::Minus), 1),
        [b'*', ..] => (Symbol::Mark(Mark::Times), 1),
        [b'/', ..] => (Symbol::Mark(Mark::Slash), 1),
        [b'(', ..] => (Symbol::Mark(Mark::Open), 1),
        [b')', ..] => (Symbol::Mark(Mark::Close), 1),
        [b'=', ..] => (Symbol::Mark(Mark::Equal), 1),
        [b'#', ..] => (Symbol::Mark(Mark::Unequal), 1),
        [b'<', ..] => (Symbol::Mark(Mark::Less), 1),
        [b'>', ..] => (Symbol::Mark(Mark::Greater), 1),
        [b',', ..] => (Symbol::Mark(Mark::Comma), 1),
        [b';', ..] => (Symbol::Mark(Mark::Semicolon), 1),
        [b'.', ..] => (Symbol::Mark(Mark::Period), 1),
        [b'!', ..] => (Symbol::Mark(Mark::Exclamation), 1),
        _ => (Symbol::Faulty(FaultKind::BadCharacter), 1),
    }
}

/// Returns the place after a byte.
fn place_behind(place: Place, b: u8) -> Place
    requires line { place.line < 70000 }
    requires column { place.column < 70000 }
    ensures { result ≡ behind place b }
{
    if b == b'\n' {
        Place {
            line: place.line + 1,
            column: 1,
        }
    } else {
        Place {
            line: place.line,
            column: place.column + 1,
        }
    }
}

/// Returns the place `count` bytes further on the same line.
fn place_along(place: Place, count: usize) -> Place
    requires { place.column + count < 70000 }
    ensures { result ≡ along place count }
{
    Place {
        line: place.line,
        column: place.column + count as u32,
    }
}
