//! Texts with parts that are repeated, and bytes that no text has.

use std::alloc::Global;
use std::process::Abort;

/// Appends a text, with one number in the place of each `%`, and another in that of each `&`.
fn push_numbered(
    rt: &impl Abort,
    alloc: Global,
    text: &mut String,
    piece: &str,
    up: u32,
    down: u32,
) {
    for character in piece.chars() {
        let number = match character {
            '%' => format!(in alloc; "{up}"),
            '&' => format!(in alloc; "{down}"),
            other => format!(in alloc; "{other}"),
        };
        text.push_str(number.expect(rt, "memory").as_str())
            .expect(rt, "memory");
    }
}

/// The first and the last number of `6..261`, or of `256`, which counts from 1.
fn bounds(rt: &impl Abort, times: &str) -> (u32, u32) {
    let (first, last) = times.split_once("..").unwrap_or(("1", times));
    let first = first.parse::<u32>().expect(rt, "a number");
    let last = last.parse::<u32>().expect(rt, "a number");
    (first, last)
}

/// The text, where `~256 PIECE~` stands for 256 times the piece, with 1 to 256 in the place of `%`, and 257 to 2 in that
/// of `&`; and `~6..261 PIECE~` for as many, with 6 to 261 in the place of `%`.
pub fn expanded(rt: &impl Abort, alloc: Global, text: &str) -> String {
    let mut whole = String::new(alloc);
    let mut repeats = false;
    for part in text.split('~') {
        if repeats {
            let (times, piece) = part.split_once(' ').expect(rt, "a piece that is repeated");
            let (first, last) = bounds(rt, times);
            for up in first..=last {
                let down = last.saturating_sub(up).saturating_add(2);
                push_numbered(rt, alloc, &mut whole, piece, up, down);
            }
        } else {
            whole.push_str(part).expect(rt, "memory");
        }
        repeats = !repeats;
    }
    whole
}

/// What stands before a mark and after it; all before it where there is none.
pub fn in_two<'a>(text: &'a str, mark: &str) -> (&'a str, &'a str) {
    text.split_once(mark).unwrap_or((text, ""))
}

/// The bytes of a text, where `\r` and `\n` stand for CR and LF, `\f` for a byte that no UTF-8 has, and `\\` for `\`.
pub fn unescaped(rt: &impl Abort, alloc: Global, text: &str) -> Vec<u8> {
    let mut bytes = Vec::new(alloc);
    let mut escaped = false;
    for byte in text.as_bytes() {
        if escaped {
            bytes
                .push(match byte {
                    b'r' => b'\r',
                    b'n' => b'\n',
                    b'f' => 0xff,
                    other => *other,
                })
                .expect(rt, "memory");
            escaped = false;
        } else if *byte == b'\\' {
            escaped = true;
        } else {
            bytes.push(*byte).expect(rt, "memory");
        }
    }
    bytes
}
