//! Tests of frames: read from streams, however the streams are cut, and written for contents.

use crate::text::repeated;
use dap_frame::{Decoder, encode};
use std::alloc::Global;
use std::process::Abort;

/// Streams, and what is read from each: each content with a line feed after it, then the fault.
const STREAMS: [(&str, &str); 11] = [
    (
        "Content-Length: 2\r\n\r\n{}X-y: \r\nContent-Length: 3\r\nZ: 1\r\n\r\n[1]Con",
        "{}\n[1]\n",
    ),
    (
        "Content-Length: 0\r\n\r\nContent-Length: 4\r\n\r\n\r\n\r\n",
        "\n\r\n\r\n\n",
    ),
    ("Content-Length: 5\r\n\r", ""),
    ("Content-Length: 5\n\n{\"a\":", ""),
    ("Content-Length: 5\n\n{\"a\":\r\n", "BadField"),
    ("content-length: 49\r\n\r\n", "NoLength"),
    ("Content-Length: 1\r\n\r\n{A b: c\r\n", "{\nBadField"),
    ("Content-Length:49\r\n", "BadField"),
    ("Content-Length: 49\r\nContent-Length: 49\r\n", "TwoLengths"),
    ("Content-Length: 049\r\n", "BadLength"),
    ("Content-Length: 1048577\r\n", "TooLarge"),
];

/// Feeds a piece, and appends to `seen` all contents that are whole then. After a fault a decoder returns it on every call.
fn take_piece(rt: &impl Abort, decoder: &mut Decoder, piece: &[u8], seen: &mut Vec<u8>) {
    if decoder.feed(piece).is_err() {
        return;
    }
    for _ in 0..=piece.len() {
        let Ok(Some(content)) = decoder.next_content() else {
            break;
        };
        seen.extend_from_slice(content.as_slice())
            .expect(rt, "memory");
        seen.push(b'\n').expect(rt, "memory");
    }
}

/// Returns what is read from a stream of which the first bytes are fed in one piece, and the others in pieces of `step`
/// bytes.
fn seen_in(rt: &impl Abort, alloc: Global, stream: &str, first: usize, step: usize) -> Vec<u8> {
    let bytes = stream.as_bytes();
    let (front, rest) = bytes.split_at(first.min(bytes.len()));
    let mut decoder = Decoder::new(alloc);
    let mut seen = Vec::new(alloc);
    take_piece(rt, &mut decoder, front, &mut seen);
    for piece in rest.chunks(step.max(1)) {
        take_piece(rt, &mut decoder, piece, &mut seen);
    }
    if let Err(fault) = decoder.next_content() {
        seen.extend_from_slice(
            format!(in alloc; "{fault:?}")
                .expect(rt, "memory")
                .as_bytes(),
        )
        .expect(rt, "memory");
    }
    seen
}

/// Asserts that this is read from a stream.
fn assert_gives(
    rt: &impl Abort,
    alloc: Global,
    stream: &str,
    first: usize,
    step: usize,
    expected: &str,
) {
    let seen = seen_in(rt, alloc, stream, first, step);
    let seen = std::str::from_utf8(seen.as_slice());
    assert_eq!(rt; seen, Ok(expected), "{stream:?} cut at {first}, by {step}");
}

#[test]
fn decodes_streams_however_cut(rt: HostRuntime) {
    for (stream, expected) in STREAMS.as_slice() {
        assert_gives(&rt, rt.alloc(), stream, 0, 1, expected);
        for cut in 0..=stream.len() {
            assert_gives(&rt, rt.alloc(), stream, cut, stream.len(), expected);
        }
    }
}

/// A header part of 1,024 bytes is read; one byte more is a fault.
#[test]
fn decodes_headers_up_to_the_limit(rt: HostRuntime) {
    let alloc = rt.alloc();
    for (letters, expected) in [(997, ""), (998, "HeaderTooLong")] {
        let stream = repeated(
            &rt,
            alloc,
            "Content-Length: 49\r\nX: ",
            "a",
            letters,
            "\r\n\r\n",
        );
        for step in [1, 2, 3, 1024] {
            assert_gives(&rt, alloc, stream.as_str(), 0, step, expected);
        }
    }
}

/// Where long bytes first differ from those that are wanted.
fn first_other(came: &[u8], wanted: &[u8]) -> Option<usize> {
    came.iter()
        .zip(wanted.iter())
        .position(|(byte, wanted)| byte != wanted)
}

/// A content of 1,048,576 bytes is returned, and not refused as out of memory.
#[test]
fn decodes_the_largest_content(rt: HostRuntime) {
    let alloc = rt.alloc();
    let stream = repeated(
        &rt,
        alloc,
        "Content-Length: 1048576\r\n\r\n",
        " ",
        1_048_576,
        "",
    );
    let expected = repeated(&rt, alloc, "", " ", 1_048_576, "\n");
    for step in [4096, stream.len()] {
        let seen = seen_in(&rt, alloc, stream.as_str(), 0, step);
        let other = first_other(seen.as_slice(), expected.as_bytes());
        assert_eq!(rt; (seen.len(), other), (expected.len(), None), "by {step}");
    }
}

/// A frame of the largest content is written.
#[test]
fn encodes_the_largest_content(rt: HostRuntime) {
    let alloc = rt.alloc();
    let content = repeated(&rt, alloc, "", " ", 1_048_576, "");
    let expected = repeated(
        &rt,
        alloc,
        "Content-Length: 1048576\r\n\r\n",
        " ",
        1_048_576,
        "",
    );
    let mut frame = Vec::new(alloc);
    assert_eq!(rt; encode(content.as_bytes(), &mut frame), Ok(()));
    let other = first_other(frame.as_slice(), expected.as_bytes());
    assert_eq!(rt; (frame.len(), other), (expected.len(), None));
}
