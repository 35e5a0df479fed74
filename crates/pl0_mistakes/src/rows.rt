//! Rows that say what is told where, and how one is read.
//!
//! A row is a line of conditions and, behind `say:`, of what is said: `last: = here: = say: write a single `=``. Behind
//! `last:`, `here:`, `next:`, `in:` and further keys stand tokens, of which the one there has to be one; a word in
//! capitals stands for many. Behind `when:` stands what has to hold, all of it, behind `unless:` and `not:` what may not.
//! What is said may have a word in braces, which `word` (`words.rt`) finds; where there is none, the row doesn't fit.

use crate::facts::holds;
use crate::found::Token;
use crate::hint::{Hint, around};
use crate::scene::Scene;
use crate::words::{is_of, word};

/// Returns what the first row of these tables says that fits a place; `None` where nothing is known.
pub(crate) fn hint_for<'a>(tables: &[&'static str], scene: Scene<'a>) -> Option<Hint<'a>> {
    for table in tables {
        for row in table.lines() {
            if let Some(hint) = row_hint(row, scene) {
                return Some(hint);
            }
        }
    }
    None
}

/// Returns what a row says, if it fits a place.
fn row_hint<'a>(row: &'static str, scene: Scene<'a>) -> Option<Hint<'a>> {
    let (conditions, said) = row.split_once("say: ")?;
    if fits(conditions, scene) {
        hint(said, scene)
    } else {
        None
    }
}

/// Whether all conditions of a row hold at a place.
fn fits(conditions: &str, scene: Scene<'_>) -> bool {
    let mut key = "";
    let mut met = true;
    for word in conditions.split_whitespace() {
        if word.len() > 1 && word.ends_with(':') {
            if !met {
                return false;
            }
            key = word;
            met = key == "when:" || key == "unless:" || key == "not:";
        } else {
            met = follows(met, key, word, scene);
        }
    }
    met
}

/// Whether a key's condition holds with one word more, where it holds with those before it if it is `met`.
fn follows(met: bool, key: &str, word: &str, scene: Scene<'_>) -> bool {
    match key {
        "when:" => met && holds(word, scene),
        "unless:" => met && !holds(word, scene),
        "not:" => met && !is_of(scene.found, word),
        "starts:" => met || scene.onward.starts_with(word.as_bytes()),
        _ => met || is_of(token_of(key, scene), word),
    }
}

/// Returns the token of a key.
fn token_of<'a>(key: &str, scene: Scene<'a>) -> Token<'a> {
    let past = scene.past;
    match key {
        "last:" => past.last,
        "second:" => past.second_last,
        "in:" => past.opener,
        "ended:" => past.ended,
        "next:" => scene.next,
        "third:" => scene.third,
        _ => scene.found,
    }
}

/// Returns what is said at a place, with the word in braces.
fn hint<'a>(said: &'static str, scene: Scene<'a>) -> Option<Hint<'a>> {
    match said.split_once('{') {
        None => around(said, Token { bytes: &[] }, ""),
        Some((front, rest)) => {
            let (name, back) = rest.split_once('}')?;
            around(front, word(name, scene)?, back)
        }
    }
}
