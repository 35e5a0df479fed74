//! The program from its arguments to its end, over streams in memory: what it writes, what it says of its end, its status.

use crate::fakes::{Input, Output, Progress, Streams};
use crate::listings::{LAWFUL, LISTING};
use crate::rows::{HELLO, INITIALIZE};
use crate::transcript::{answered_frames, input};
use adapter::arguments::HELP;
use adapter::{Dialect, execute};
use dap_session::Loader;
use std::alloc::Global;
use std::process::Abort;
use std::sync::Wait;
use std::thread::Threads;
use test_kit::Files;

/// What a run must come to.
#[derive(Clone, Copy)]
struct Expected<'a> {
    output: &'a [u8],
    errors: &'a str,
    status: u8,
}

/// Asserts that the program comes to this over such streams, with room for all that it says of its end.
fn assert_comes_to<R, L>(
    rt: &R,
    arguments: &[&str],
    loader: &mut L,
    bytes: &[u8],
    streams: Streams,
    expected: Expected,
)
where
    R: Threads + Wait + Abort + Eprint + AllocGlobal + Copy + Drop + Send + Sync,
    L: Loader,
{
    let progress = Progress::new();
    let mut input = Input::new(rt, bytes, streams, &progress);
    let mut output = Output::new(rt, rt.alloc(), streams, &progress);
    let roomy = Streams {
        room: usize::MAX,
        ..streams
    };
    let mut errors = Output::new(rt, rt.alloc(), roomy, &progress);
    let dialect = Dialect::Codes;
    let reason = execute(
        rt,
        rt,
        dialect,
        arguments,
        loader,
        &mut input,
        &mut output,
        &mut errors,
    );
    let came = std::str::from_utf8(output.bytes.as_slice());
    let said = std::str::from_utf8(errors.bytes.as_slice());
    let output = std::str::from_utf8(expected.output);
    assert_eq!(rt;
        (came, said, reason.status()),
        (output, Ok(expected.errors), expected.status)
    );
}

const CHECK: [&str; 3] = ["pl0dap", "--check", "p.pl0"];

/// What is said of an argument that isn't understood, as `clap` words it.
const NOT_UNDERSTOOD: &str = "error: unexpected argument '--chec' found

  tip: a similar argument exists: '--check'

Usage: pl0dap [--check FILE]

For more information, try '--help'.
";

#[test]
fn serves_with_no_arguments(rt: HostRuntime) {
    let alloc = rt.alloc();
    let files = &mut Files::none(alloc);
    let sent = input(&rt, alloc, HELLO, "");
    let answered = answered_frames(&rt, alloc, HELLO);
    let expected = Expected {
        output: answered.as_slice(),
        errors: "",
        status: 0,
    };
    assert_comes_to(
        &rt,
        &["pl0dap"],
        files,
        sent.as_slice(),
        Streams::WELL,
        expected,
    );
}

#[test]
fn says_why_serving_failed(rt: HostRuntime) {
    let alloc = rt.alloc();
    let files = &mut Files::none(alloc);
    let sent = input(&rt, alloc, INITIALIZE, "A b: c\r\n");
    let answered = answered_frames(&rt, alloc, INITIALIZE);
    let expected = Expected {
        output: answered.as_slice(),
        errors: "pl0dap: frame 2\n",
        status: 2,
    };
    assert_comes_to(
        &rt,
        &["pl0dap"],
        files,
        sent.as_slice(),
        Streams::WELL,
        expected,
    );
    let full = Streams {
        room: 0,
        ..Streams::WELL
    };
    let expected = Expected {
        output: b"",
        errors: "pl0dap: write failed\n",
        status: 1,
    };
    assert_comes_to(&rt, &["pl0dap"], files, sent.as_slice(), full, expected);
}

#[test]
fn prints_the_listing_of_a_file(rt: HostRuntime) {
    let files = &mut Files::everywhere(rt.alloc(), LAWFUL);
    let expected = Expected {
        output: LISTING,
        errors: "",
        status: 0,
    };
    assert_comes_to(&rt, &CHECK, files, b"", Streams::WELL, expected);
}

#[test]
fn says_why_there_is_no_listing(rt: HostRuntime) {
    let files = &mut Files::everywhere(rt.alloc(), b"x := 1.");
    let expected = Expected {
        output: b"",
        errors: "pl0dap: syntax 10 1 1\n",
        status: 3,
    };
    assert_comes_to(&rt, &CHECK, files, b"", Streams::WELL, expected);
    let none = &mut Files::none(rt.alloc());
    let expected = Expected {
        output: b"",
        errors: "pl0dap: cannot read\n",
        status: 1,
    };
    assert_comes_to(&rt, &CHECK, none, b"", Streams::WELL, expected);
}

#[test]
fn prints_help(rt: HostRuntime) {
    let files = &mut Files::none(rt.alloc());
    let expected = Expected {
        output: HELP.as_bytes(),
        errors: "",
        status: 0,
    };
    assert_comes_to(
        &rt,
        &["pl0dap", "--help"],
        files,
        b"",
        Streams::WELL,
        expected,
    );
    for status in ["\n  0  ", "\n  1  ", "\n  2  ", "\n  3  ", "\n  4  "] {
        assert!(rt; HELP.contains(status), "{status:?}");
    }
}

#[test]
fn says_what_it_does_not_understand(rt: HostRuntime) {
    let files = &mut Files::none(rt.alloc());
    let expected = Expected {
        output: b"",
        errors: NOT_UNDERSTOOD,
        status: 4,
    };
    let arguments = ["pl0dap", "--chec", "a"];
    assert_comes_to(&rt, &arguments, files, b"", Streams::WELL, expected);
}

/// An end that can't be said is the same end.
#[test]
fn ends_so_where_errors_cannot_be_written(rt: HostRuntime) {
    let alloc = rt.alloc();
    let progress = Progress::new();
    let full = Streams {
        room: 0,
        ..Streams::WELL
    };
    let mut output = Output::new(&rt, alloc, Streams::WELL, &progress);
    let mut errors = Output::new(&rt, alloc, full, &progress);
    let mut input = Input::new(&rt, b"", Streams::WELL, &progress);
    let files = &mut Files::none(alloc);
    let dialect = Dialect::Codes;
    let reason = execute(
        &rt,
        &rt,
        dialect,
        &CHECK,
        files,
        &mut input,
        &mut output,
        &mut errors,
    );
    assert_eq!(rt;
        (
            reason.status(),
            output.bytes.as_slice(),
            errors.bytes.as_slice()
        ),
        (1, b"".as_slice(), b"".as_slice())
    );
}
