//! Keywords that are meant by other words.

use crate::found::Token;
use crate::scene::KEYWORDS;

/// The keywords for which a word that nearly reads so is taken.
const LONGER: &str = "const var procedure call begin end then while";

/// The keywords behind which a blank may be forgotten.
pub(crate) const BEFORE_BLANKS: &str = "const var call procedure begin if while";

/// Returns the keyword that a word is but for its case; `None` if it is none.
pub(crate) fn keyword_in_lower_case(word: Token<'_>) -> Option<Token<'static>> {
    for text in KEYWORDS.split_whitespace() {
        let keyword = text.as_bytes();
        if word.bytes.eq_ignore_ascii_case(keyword) && word.bytes != keyword {
            return Some(Token { bytes: keyword });
        }
    }
    None
}

/// Returns the keyword from which a word differs by one letter more, less or exchanged, or by two that changed places.
pub(crate) fn keyword_nearby(word: Token<'_>) -> Option<Token<'static>> {
    for text in LONGER.split_whitespace() {
        let keyword = text.as_bytes();
        if word.bytes != keyword && is_near(word.bytes, keyword) {
            return Some(Token { bytes: keyword });
        }
    }
    None
}

/// Returns the one of these keywords with which a longer word begins.
pub(crate) fn keyword_in_front(word: Token<'_>, keywords: &'static str) -> Option<Token<'static>> {
    for text in keywords.split_whitespace() {
        let keyword = text.as_bytes();
        if word.bytes.starts_with(keyword) && word.bytes != keyword {
            return Some(Token { bytes: keyword });
        }
    }
    None
}

/// Whether two words are the same but for their case, or, where both have three letters or more, but for one letter.
pub(crate) fn resembles(word: Token<'_>, other: Token<'_>) -> bool {
    let long = word.bytes.len() > 2 && other.bytes.len() > 2;
    word.bytes.eq_ignore_ascii_case(other.bytes) || long && is_near(word.bytes, other.bytes)
}

/// Whether two words are the same but for one letter more, less or exchanged, or for two that changed places.
fn is_near(word: &[u8], other: &[u8]) -> bool {
    let (left, right) = behind_common(word, other);
    let (left_rest, right_rest) = behind_common(behind_first(left), behind_first(right));
    let swapped = left.first() == right_rest.first()
        && right.first() == left_rest.first()
        && behind_first(left_rest) == behind_first(right_rest);
    swapped
        || left_rest.is_empty() && right_rest.is_empty()
        || behind_first(left) == right
        || left == behind_first(right)
}

/// Returns what follows in two words behind the bytes with which both begin.
fn behind_common<'a>(word: &'a [u8], other: &'a [u8]) -> (&'a [u8], &'a [u8]) {
    let mut left = word;
    let mut right = other;
    while let [first, after @ ..] = left {
        match right {
            [same, others @ ..] if same == first => {
                left = after;
                right = others;
            }
            _ => break,
        }
    }
    (left, right)
}

/// Returns bytes without the first one.
fn behind_first(bytes: &[u8]) -> &[u8] {
    match bytes {
        [] => bytes,
        [_, after @ ..] => after,
    }
}
