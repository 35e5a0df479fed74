//! How the tables of the tests are written.
//!
//! A table has a row a line, its cells parted by bars: a name, a text, and what is to be shown of it. In a text `~` is
//! a line feed, and `{n piece}` is the piece n times, in which `%` is 1, 2 and on.

use crate::shown::{View, show};
use std::alloc::Global;
use std::process::Abort;

/// The first cell of a row and the others.
pub fn first_cell(row: &str) -> (&str, &str) {
    row.split_once(" | ").unwrap_or((row, ""))
}

fn write_piece(rt: &impl Abort, text: &mut String, piece: &str, number: usize) {
    for letter in piece.chars() {
        match letter {
            '~' => text.push('\n').expect(rt, "memory"),
            '%' => write!(text, "{number}").expect(rt, "memory"),
            _ => text.push(letter).expect(rt, "memory"),
        }
    }
}

/// A part of a cell: `n piece}rest`, or only the rest.
fn write_part(rt: &impl Abort, text: &mut String, part: &str) {
    let (repeated, rest) = part.split_once('}').unwrap_or(("0 ", part));
    let (times, piece) = repeated.split_once(' ').unwrap_or((repeated, ""));
    for number in 0..times.parse::<usize>().expect(rt, "a number") {
        write_piece(rt, text, piece, number + 1);
    }
    write_piece(rt, text, rest, 0);
}

/// The text of a cell.
pub fn text_of(rt: &impl Abort, alloc: Global, cell: &str) -> String {
    let mut text = String::new(alloc);
    for part in cell.split('{') {
        write_part(rt, &mut text, part);
    }
    text
}

/// Asserts that a text shows this.
pub fn assert_shown(rt: &impl Abort, alloc: Global, view: View, text: &str, wanted: &str) {
    let found = show(rt, alloc, view, text);
    assert_eq!(rt; found.as_str(), wanted, "{text}");
}

/// Asserts that each text of a table shows what its row says.
pub fn assert_rows(rt: &impl Abort, alloc: Global, view: View, table: &str) {
    for row in table.lines().skip(1) {
        let (_, cells) = first_cell(row);
        let (cell, wanted) = first_cell(cells);
        let text = text_of(rt, alloc, cell);
        assert_shown(rt, alloc, view, text.as_str(), wanted);
    }
}
