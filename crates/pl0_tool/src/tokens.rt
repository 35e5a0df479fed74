//! The tokens of a text.

use crate::table::put_place;
use pl0_lessons::put_left_column;
use pl0_parser::tokenize;
use pl0_tree::{Place, Symbol, SyntaxFault, Token};
use std::alloc::{AllocError, Global};

/// What stands above the columns.
const HEAD: &str = "place    kind     text\n";

/// The width of the column of a kind.
const KIND_WIDTH: usize = 7;

/// Returns the table of a text's tokens: a row for each, in order, with its place, its kind, and how it stands there. A text
/// of more than 65,536 bytes has none.
///
/// # Errors
///
/// `AllocError`, where an allocation failed.
pub(crate) fn token_table(alloc: Global, text: &[u8]) -> Result<Vec<u8>, AllocError> {
    let mut page = Vec::from_slice(alloc, HEAD.as_bytes())?;
    match tokenize(alloc, text) {
        Ok((tokens, _)) => put_rows(alloc, &mut page, text, tokens.as_slice())?,
        Err(SyntaxFault::NoMemory) => return Err(AllocError),
        Err(SyntaxFault::InText { .. }) => {}
    }
    Ok(page)
}

/// Appends a row for each of a text's tokens.
fn put_rows(
    alloc: Global,
    page: &mut Vec<u8>,
    text: &[u8],
    tokens: &[Token<'_>],
) -> Result<(), AllocError> {
    let begins = beginnings(alloc, text, tokens)?;
    for (index, token) in tokens.iter().enumerate() {
        let begin = begin_of(begins.as_slice(), index, text);
        let end = begin_of(begins.as_slice(), index.saturating_add(1), text);
        put_row(alloc, page, token, spelling(text, begin, end))?;
    }
    Ok(())
}

/// Returns where in a text its tokens begin, in order.
fn beginnings(alloc: Global, text: &[u8], tokens: &[Token<'_>]) -> Result<Vec<usize>, AllocError> {
    let mut begins = Vec::new(alloc);
    let mut place = Place { line: 1, column: 1 };
    for (index, byte) in text.iter().enumerate() {
        if let Some(next) = tokens.get(begins.len()) {
            if next.place == place {
                begins.push(index)?;
            }
        }
        place = behind(place, *byte);
    }
    Ok(begins)
}

/// Returns the place behind a byte.
fn behind(place: Place, byte: u8) -> Place {
    if byte == b'\n' {
        Place {
            line: place.line.saturating_add(1),
            column: 1,
        }
    } else {
        Place {
            line: place.line,
            column: place.column.saturating_add(1),
        }
    }
}

/// Returns where in a text the token with this index begins; the text's end where there is none.
fn begin_of(begins: &[usize], index: usize, text: &[u8]) -> usize {
    begins.get(index).copied().unwrap_or(text.len())
}

/// Returns what stands in a text between the beginnings of two tokens, without the white space behind it.
fn spelling(text: &[u8], begin: usize, end: usize) -> &[u8] {
    let end = end.min(text.len());
    text[begin.min(end)..end].trim_ascii_end()
}

/// Appends the row of a token.
fn put_row(
    alloc: Global,
    page: &mut Vec<u8>,
    token: &Token<'_>,
    spelling: &[u8],
) -> Result<(), AllocError> {
    put_place(alloc, page, token.place)?;
    put_left_column(page, KIND_WIDTH, kind(token.symbol, spelling).as_bytes())?;
    page.extend_from_slice(spelling)?;
    page.extend_from_slice(b"\n")
}

/// Returns what a token is, by how it is written.
fn kind(symbol: Symbol<'_>, spelling: &[u8]) -> &'static str {
    match symbol {
        Symbol::Name(_) => "name",
        Symbol::Number(_) => "number",
        Symbol::Faulty(_) => "mistake",
        Symbol::Mark(_) if spelling.first().is_some_and(u8::is_ascii_alphabetic) => "keyword",
        Symbol::Mark(_) => "sign",
    }
}
