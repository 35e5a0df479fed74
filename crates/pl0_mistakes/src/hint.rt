//! A hint as a value: it is chosen first, and written then.

ghost use Rattle.std.specs.Prelude.{◌≡◌, ◌++◌, true};
ghost use Rattle.pl0_mistakes.specs.Sentences.{in_line};

use crate::found::Token;

/// What is said beside a sentence, in the same line: a text, or a word between two texts.
#[derive(Clone, Copy)]
pub struct Hint<'a> {
    pub front: &'static str,
    pub word: &'a [u8],
    pub back: &'static str,
    ghost in_line: { in_line (front.now ++ (word.now ++ back.now)) ≡ true },
}

/// Returns a hint that is a token between two texts; `None` where these are more than a line.
pub(crate) fn around<'a>(
    front: &'static str,
    token: Token<'a>,
    back: &'static str,
) -> Option<Hint<'a>> {
    let word = token.bytes;
    if is_in_line(front.as_bytes()) && is_in_line(word) && is_in_line(back.as_bytes()) {
        Some(Hint { front, word, back })
    } else {
        None
    }
}

/// Whether bytes stand in one line.
fn is_in_line(bytes: &[u8]) -> bool
    ensures { result ≡ in_line bytes.now }
{
    bytes.iter().all(|b| *b != b'\n')
}
