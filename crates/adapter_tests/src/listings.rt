//! Judging a text: its listing byte for byte, its first fault, and each way in which there is neither.

use crate::fakes::{Output, Progress, Streams};
use crate::serving::said;
use adapter::{check, end_of_check};
use dap_session::Loader;
use std::alloc::Global;
use std::process::Abort;
use std::sync::Wait;
use test_kit::Files;

pub const LAWFUL: &[u8] = b"var x;\n\nbegin x := 1;\n! x end.\n";

pub const LISTING: &[u8] = b"0 3 7 assign
1 4 1 write
2 4 8 return

0 JMP 0 1
1 INT 0 4
2 LIT 0 1 @0
3 STO 0 3
4 LOD 0 3 @1
5 OPR 0 14
6 OPR 0 0 @2
";

/// Asserts that judging what the loader gives writes this, and ends the program with this status and last line.
fn assert_judged<R: Abort + Wait + AllocGlobal + Drop, L: Loader>(
    rt: &R,
    alloc: Global,
    loader: &mut L,
    streams: Streams,
    expected: (&[u8], u8, &str),
) {
    let progress = Progress::new();
    let mut output = Output::new(rt, alloc, streams, &progress);
    let reason = end_of_check(&check(rt, alloc, "p.pl0", loader, &mut output));
    let said = said(rt, reason);
    let (listing, status, last_line) = expected;
    assert_eq!(rt;
        (
            std::str::from_utf8(output.bytes.as_slice()),
            reason.status(),
            std::str::from_utf8(said.as_slice())
        ),
        (std::str::from_utf8(listing), status, Ok(last_line))
    );
}

#[test]
fn prints_the_listing(rt: HostRuntime) {
    let alloc = rt.alloc();
    for write_step in [1, usize::MAX] {
        let file = &mut Files::everywhere(alloc, LAWFUL);
        let streams = Streams {
            write_step,
            ..Streams::WELL
        };
        assert_judged(&rt, alloc, file, streams, (LISTING, 0, ""));
    }
}

#[test]
fn names_the_first_fault(rt: HostRuntime) {
    let alloc = rt.alloc();
    let file = &mut Files::everywhere(alloc, b"x := 1.");
    let expected: (&[u8], u8, &str) = (b"", 3, "pl0dap: syntax 10 1 1\n");
    assert_judged(&rt, alloc, file, Streams::WELL, expected);
}

#[test]
fn says_that_a_file_cannot_be_read(rt: HostRuntime) {
    let alloc = rt.alloc();
    let none = &mut Files::none(alloc);
    let expected: (&[u8], u8, &str) = (b"", 1, "pl0dap: cannot read\n");
    assert_judged(&rt, alloc, none, Streams::WELL, expected);
}

/// The output fails, or takes nothing, at each byte of the listing.
#[test]
fn says_that_a_listing_was_cut(rt: HostRuntime) {
    let alloc = rt.alloc();
    for room in 0..LISTING.len() {
        let file = &mut Files::everywhere(alloc, LAWFUL);
        let streams = Streams {
            room,
            takes_nothing: room % 2 == 1,
            ..Streams::WELL
        };
        let expected = (&LISTING[..room], 1, "pl0dap: write failed\n");
        assert_judged(&rt, alloc, file, streams, expected);
    }
}
