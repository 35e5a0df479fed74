//! The program over files in memory: what it opens, and as what.

use crate::fakes::{Input, OneFile, Output, Progress, Streams};
use crate::listings::{LAWFUL, LISTING};
use crate::programs::PROCEDURES;
use crate::transcript::Exchange;
use adapter::{Dialect, Opener, run};
use std::process::Abort;
use std::sync::Wait;
use std::thread::Threads;

/// Returns the arguments of a process that has these behind its name.
fn arguments<R: Abort + AllocGlobal>(rt: &R, words: &[&str]) -> Vec<String> {
    let mut given = Vec::new(rt.alloc());
    for word in ["pl0dap"].iter().chain(words.iter()) {
        let word = String::from_str(rt.alloc(), word).expect(rt, "memory");
        given.push(word).expect(rt, "memory");
    }
    given
}

/// Asserts that the program, with these arguments and files, writes these bytes, and ends with this status.
fn assert_comes_to<R, F: Opener>(
    rt: &R,
    words: &[&str],
    files: &mut F,
    bytes: &[u8],
    streams: Streams,
    expected: (&[u8], u8),
)
where
    R: Threads + Wait + Abort + Eprint + AllocGlobal + Copy + Drop + Send + Sync,
{
    let alloc = rt.alloc();
    let (progress, apart) = (Progress::new(), Progress::new());
    let mut input = Input::new(rt, bytes, streams, &progress);
    let mut output = Output::new(rt, alloc, streams, &progress);
    let mut errors = Output::new(rt, alloc, Streams::WELL, &apart);
    let given = Ok(arguments(rt, words).into_iter());
    let reason = run(
        rt,
        rt,
        Dialect::Codes,
        given,
        files,
        &mut input,
        &mut output,
        &mut errors,
    );
    let (written, status) = expected;
    assert_eq!(rt;
        (
            std::str::from_utf8(output.bytes.as_slice()),
            reason.status()
        ),
        (std::str::from_utf8(written), status)
    );
}

#[test]
fn lists_what_the_file_has(rt: HostRuntime) {
    let apart = Progress::new();
    let mut files = OneFile::new(&rt, "p.pl0", LAWFUL, &apart);
    let words = ["--check", "p.pl0"];
    assert_comes_to(&rt, &words, &mut files, b"", Streams::WELL, (LISTING, 0));
    assert_eq!(&rt; (files.opened, files.closed), ((1, 0), 1));
    let words = ["--check", "q.pl0"];
    assert_comes_to(&rt, &words, &mut files, b"", Streams::WELL, (b"", 1));
    assert_eq!(&rt; (files.opened, files.closed), ((1, 0), 1));
}

/// Each read after a run began waits for what the run brings.
#[test]
fn debugs_what_the_file_has(rt: HostRuntime) {
    let exchange = Exchange::new(&rt, rt.alloc(), PROCEDURES.transcript);
    let streams = Streams {
        cuts: exchange.reads.as_slice(),
        ..Streams::WELL
    };
    // What a file's reads note isn't what the client sees.
    let apart = Progress::new();
    let text = PROCEDURES.program.as_bytes();
    let mut files = OneFile::new(&rt, "p.pl0", text, &apart);
    let expected = (exchange.answered.as_slice(), 0);
    let sent = exchange.sent.as_slice();
    assert_comes_to(&rt, &[], &mut files, sent, streams, expected);
    assert_eq!(&rt; (files.opened, files.closed), ((0, 1), 1));
}

#[test]
fn opens_nothing_for_help(rt: HostRuntime) {
    let apart = Progress::new();
    let mut files = OneFile::new(&rt, "p.pl0", LAWFUL, &apart);
    let help = adapter::arguments::HELP.as_bytes();
    assert_comes_to(&rt, &["--help"], &mut files, b"", Streams::WELL, (help, 0));
    assert_eq!(&rt; (files.opened, files.closed), ((0, 0), 0));
}
