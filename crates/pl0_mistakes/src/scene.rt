//! What stands around a place of a text.

ghost use Rattle.std.specs.Prelude.{◌≡◌, []};
ghost use Rattle.pl0_mistakes.specs.Found.{cut, last_or, token_before};

use crate::found::{Token, before_place, from_place, next_token};
use pl0_tree::Place;

/// What stands around a place of a text.
#[derive(Clone, Copy)]
pub struct Scene<'a> {
    /// The text before the place, and the text there and after it.
    pub front: &'a [u8],
    pub onward: &'a [u8],
    /// The token at the place, and the next two.
    pub found: Token<'a>,
    pub next: Token<'a>,
    pub third: Token<'a>,
    /// Whether no token stands before it in its line.
    pub starts_line: bool,
    /// The number of the line with the last `begin` that is open.
    pub begun: Token<'a>,
    /// What is known of the tokens before it.
    pub past: Past<'a>,
}

/// What is known of the tokens in front of a place.
#[derive(Clone, Copy)]
pub struct Past<'a> {
    /// The last token, and the one before it.
    pub last: Token<'a>,
    pub second_last: Token<'a>,
    /// The last keyword but `odd`, `;`, `:=` or `!`: with it began what the place is in.
    pub opener: Token<'a>,
    /// The token before the opener: what is assigned, where that is `:=`.
    pub before_opener: Token<'a>,
    /// What the last `;` ended, by the keyword, `:=` or `!` before it.
    pub ended: Token<'a>,
    /// How many `begin`s, `(`s and blocks of procedures are open.
    pub begins: u32,
    pub parentheses: u32,
    pub procedures: u32,
    /// Whether a sign that compares, or `odd`, stands behind the opener.
    pub compared: bool,
}

/// Returns what stands around a place of a text, where the last `begin` that is open stands in the line `begun`.
pub(crate) fn scene_at<'a>(text: &'a [u8], place: Place, begun: &'a str) -> Scene<'a>
    ensures { result.past.last.bytes.now ≡ token_before place text.now }
{
    let front = before_place(text, place);
    let onward = from_place(text, place);
    let (found, after) = split(onward);
    let (next, after) = split(after);
    let (third, _) = split(after);
    let past = past_of(front);
    Scene {
        front,
        onward,
        found,
        next,
        third,
        starts_line: starts_line(front),
        begun: Token {
            bytes: begun.as_bytes(),
        },
        past,
    }
}

/// Returns the number of the line with the last `begin` that is open at a place of a text.
pub(crate) fn begun_line(text: &[u8], place: Place) -> usize {
    let front = before_place(text, place);
    let open = past_of(front).begins;
    let mut depth = 0;
    let mut behind = front;
    let mut rest = front;
    while let Some((token, after)) = next_token(rest) {
        depth = counted(depth, token, "begin", "end");
        if token.is("begin") && depth == open {
            behind = after;
        }
        rest = after;
    }
    let before = front.len().saturating_sub(behind.len());
    let feeds = front.iter().take(before).filter(|byte| **byte == b'\n');
    feeds.count().saturating_add(1)
}

/// Whether no token stands in the last line of bytes.
fn starts_line(bytes: &[u8]) -> bool {
    let mut rest = bytes;
    while let Some((_, after)) = next_token(rest) {
        rest = after;
    }
    rest.contains(&b'\n')
}

/// Returns the first token of bytes, which is empty where there is none, and what is after it.
fn split(bytes: &[u8]) -> (Token<'_>, &[u8]) {
    match next_token(bytes) {
        Some(parts) => parts,
        None => (Token { bytes: &[] }, &[]),
    }
}

/// Returns what is known where nothing stands before.
pub(crate) fn nothing_past() -> Past<'static>
    ensures { result.last.bytes.now ≡ [] }
{
    let none = Token { bytes: &[] };
    Past {
        last: none,
        second_last: none,
        opener: none,
        before_opener: none,
        ended: none,
        begins: 0,
        parentheses: 0,
        procedures: 0,
        compared: false,
    }
}

/// Returns what is known of the tokens of bytes.
fn past_of(bytes: &[u8]) -> Past<'_>
    ensures { result.last.bytes.now ≡ last_or [] (cut bytes.now) }
{
    let mut past = nothing_past();
    let mut rest = bytes;
    while let Some((token, after)) = next_token(rest) {
        past = past.followed_by(token);
        rest = after;
    }
    past
}

impl<'a> Past<'a> {
    /// Returns what is known behind one token more.
    pub(crate) fn followed_by(self, token: Token<'a>) -> Past<'a>
        ensures { result.last.bytes.now ≡ token.entry.bytes.now }
    {
        let opens = is_keyword(token) && !token.is("odd") || token.is_one_of("; := !");
        Past {
            last: token,
            second_last: self.last,
            opener: if opens { token } else { self.opener },
            before_opener: if opens { self.last } else { self.before_opener },
            ended: if token.is(";") {
                self.opener
            } else {
                self.ended
            },
            begins: counted(self.begins, token, "begin", "end"),
            parentheses: counted(self.parentheses, token, "(", ")"),
            procedures: if self.ends_block(token) {
                self.procedures.saturating_sub(1)
            } else {
                counted(self.procedures, token, "procedure", "")
            },
            compared: is_comparison(token) || token.is("odd") || self.compared && !opens,
        }
    }

    /// Whether a token ends the block of a procedure: a `;` behind a statement that no `begin` encloses.
    fn ends_block(self, token: Token<'a>) -> bool {
        token.is(";") && self.begins == 0 && !is_declaring(self.opener)
    }
}

/// Returns how many are open behind a token, where so many are before it.
fn counted(open: u32, token: Token<'_>, opening: &str, closing: &str) -> u32 {
    if token.is(opening) {
        open.saturating_add(1)
    } else if token.is(closing) {
        open.saturating_sub(1)
    } else {
        open
    }
}

/// Whether declarations follow a token.
pub(crate) fn is_declaring(opener: Token<'_>) -> bool {
    opener.is_one_of("const var procedure")
}

/// Whether a token compares.
pub(crate) fn is_comparison(token: Token<'_>) -> bool {
    token.is_one_of("= # < <= > >=")
}

/// Whether a token is a keyword.
pub(crate) fn is_keyword(token: Token<'_>) -> bool {
    token.is_one_of(KEYWORDS)
}

/// Whether a token is a name.
pub(crate) fn is_name(token: Token<'_>) -> bool {
    token.is_word() && !is_keyword(token)
}

/// The keywords.
pub(crate) const KEYWORDS: &str = "const var procedure call begin end if then while do odd";
