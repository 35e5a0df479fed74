//! Whole sessions of the adapter over an input and an output in memory.

use crate::fakes::{Cut, Hold, Input, Output, Progress, SliceGate, Streams};
use crate::rows::{FAULTS, HELLO, INITIALIZE, ROWS, Row, fault_row};
use crate::transcript::{answered_frames, input, sent_frames};
use adapter::{
    Dialect, ExitReason, NoListener, Reading, ServeFault, Served, Writing, end_of_serve,
    say_reason, serve,
};
use std::alloc::Global;
use std::process::Abort;
use std::sync::Wait;
use std::thread::Threads;
use test_kit::Files;

/// What came of a session.
#[derive(Drop)]
pub struct Outcome {
    pub end: Result<Served, ServeFault>,
    pub output: Vec<u8>,
    /// How many slices passed the gate.
    pub slices: usize,
}

/// Serves an input of these bytes, with this program.
pub fn run<R: Threads + Wait + Abort + Copy + Drop + Send + Sync>(
    rt: &R,
    alloc: Global,
    program: &str,
    bytes: &[u8],
    streams: Streams,
) -> Outcome {
    let progress = Progress::new();
    let mut input = Input::new(rt, bytes, streams, &progress);
    let mut output = Output::new(rt, alloc, streams, &progress);
    let mut files = Files::everywhere(alloc, program.as_bytes());
    let mut gate = SliceGate::new(rt, streams, &progress);
    let end = serve(
        rt,
        rt,
        alloc,
        Dialect::Codes,
        &mut input,
        &mut output,
        &mut files,
        &mut gate,
        &mut NoListener,
    );
    Outcome {
        end,
        output: output.bytes,
        slices: progress.slices(),
    }
}

/// What standard error gets where the program ends for this reason, with no arguments.
pub fn said<R: Wait + Abort + AllocGlobal>(rt: &R, reason: ExitReason) -> Vec<u8> {
    let progress = Progress::new();
    let mut errors = Output::new(rt, rt.alloc(), Streams::WELL, &progress);
    say_reason(rt, &[], reason, &mut errors);
    errors.bytes
}

/// What a session must come to: its bytes, the program's status and its last line.
#[derive(Clone, Copy)]
struct Expected<'a> {
    output: &'a [u8],
    status: u8,
    last_line: &'a str,
}

/// Asserts that the input is answered so.
fn assert_answered<R>(
    rt: &R,
    alloc: Global,
    name: &str,
    input: &[u8],
    streams: Streams,
    expected: Expected,
)
where
    R: Threads + Wait + Abort + AllocGlobal + Copy + Drop + Send + Sync,
{
    let run = run(rt, alloc, "", input, streams);
    let reason = end_of_serve(&run.end);
    let said = said(rt, reason);
    let step = streams.read_step;
    let cut = streams.cuts.first().map(|cut| cut.at);
    assert_eq!(rt;
        (
            std::str::from_utf8(run.output.as_slice()),
            reason.status(),
            std::str::from_utf8(said.as_slice())
        ),
        (
            std::str::from_utf8(expected.output),
            expected.status,
            Ok(expected.last_line)
        ),
        "{name}, by {step}, cut at {cut:?}"
    );
}

/// The streams of reads and writes of `step` bytes each.
fn by(step: usize) -> Streams<'static> {
    Streams {
        read_step: step,
        write_step: step,
        ..Streams::WELL
    }
}

/// Asserts that the row is served so: whole, by single bytes, and cut in two at each place.
fn assert_served<R: Threads + Wait + Abort + AllocGlobal + Copy + Drop + Send + Sync>(
    rt: &R,
    alloc: Global,
    row: &Row,
) {
    let name = row.name;
    let input = input(rt, alloc, row.transcript, row.tail);
    let output = answered_frames(rt, alloc, row.transcript);
    let expected = Expected {
        output: output.as_slice(),
        status: row.status,
        last_line: row.last_line,
    };
    assert_answered(rt, alloc, name, input.as_slice(), by(1), expected);
    for at in 0..input.len() {
        let hold = Hold::Nothing;
        let streams = Streams {
            cuts: &[Cut { at, hold }],
            ..Streams::WELL
        };
        assert_answered(rt, alloc, name, input.as_slice(), streams, expected);
    }
}

#[test]
fn serves_rows_however_cut(rt: HostRuntime) {
    for row in ROWS.as_slice() {
        assert_served(&rt, rt.alloc(), row);
    }
}

#[test]
fn serves_to_faults_however_cut(rt: HostRuntime) {
    for (tail, fault, last_line) in FAULTS.as_slice() {
        for transcript in ["", INITIALIZE] {
            let row = fault_row(transcript, tail, *fault, last_line);
            assert_served(&rt, rt.alloc(), &row);
        }
    }
}

/// A header part of 1,024 bytes is read, and one of 1,025 is a fault.
#[test]
fn serves_headers_up_to_the_limit(rt: HostRuntime) {
    let alloc = rt.alloc();
    let front = "Content-Length: 49\r\nX: ";
    let back = "\r\n\r\n{\"seq\":1,\"type\":\"request\",\"command\":\"initialize\"}";
    let answer = answered_frames(&rt, alloc, INITIALIZE);
    let rows = [
        (997, answer.as_slice(), 0, ""),
        (998, b"".as_slice(), 2, "pl0dap: frame 1\n"),
    ];
    for (letters, output, status, last_line) in rows {
        let name = "a".repeat(alloc, letters).expect(&rt, "memory");
        let input = format!(in alloc; "{front}{name}{back}").expect(&rt, "memory");
        let expected = Expected {
            output,
            status,
            last_line,
        };
        for step in [usize::MAX, 1, 1000] {
            assert_answered(&rt, alloc, last_line, input.as_bytes(), by(step), expected);
        }
    }
}

/// A content of 1,048,576 bytes is decoded and answered, and not refused as out of memory.
#[test]
fn serves_the_largest_content(rt: HostRuntime) {
    let alloc = rt.alloc();
    let front =
        "Content-Length: 1048576\r\n\r\n{\"seq\":1,\"type\":\"request\",\"command\":\"initialize\"}";
    let back =
        "Content-Length: 49\r\n\r\n{\"seq\":2,\"type\":\"request\",\"command\":\"disconnect\"}";
    let spaces = " ".repeat(alloc, 1_048_527).expect(&rt, "memory");
    let input = format!(in alloc; "{front}{spaces}{back}").expect(&rt, "memory");
    let output = answered_frames(&rt, alloc, HELLO);
    let expected = Expected {
        output: output.as_slice(),
        status: 0,
        last_line: "",
    };
    for step in [usize::MAX, 1000] {
        assert_answered(&rt, alloc, "spaces", input.as_bytes(), by(step), expected);
    }
}

#[test]
fn serves_streams_of_std(rt: HostRuntime) {
    let alloc = rt.alloc();
    let input = sent_frames(&rt, alloc, HELLO);
    let expected = answered_frames(&rt, alloc, HELLO);
    let mut output = Vec::new(alloc);
    let progress = Progress::new();
    let result = serve(
        &rt,
        &rt,
        alloc,
        Dialect::Codes,
        &mut Reading::new(&rt, input.as_slice()),
        &mut Writing::new(&rt, &mut output),
        &mut Files::everywhere(alloc, b""),
        &mut SliceGate::new(&rt, Streams::WELL, &progress),
        &mut NoListener,
    );
    assert_eq!(rt; result, Ok(Served::Disconnected));
    let came = std::str::from_utf8(output.as_slice());
    assert_eq!(rt; came, std::str::from_utf8(expected.as_slice()));
}

/// Requests that a client numbers from 0.
const FROM_ZERO: &str = r#"
> {"seq":0,"type":"request","command":"initialize"}
< {"body":{"supportsConditionalBreakpoints":true,"supportsConfigurationDoneRequest":true,"supportsHitConditionalBreakpoints":true,"supportsLogPoints":true,"supportsStepBack":true},"command":"initialize","request_seq":0,"seq":1,"success":true,"type":"response"}
> {"seq":1,"type":"request","command":"disconnect"}
< {"command":"disconnect","request_seq":1,"seq":2,"success":true,"type":"response"}
"#;

/// What is answered of these where the first number is 1.
const FROM_ONE: &str = r#"
< {"command":"disconnect","request_seq":1,"seq":1,"success":true,"type":"response"}
"#;

#[test]
fn serves_clients_that_count_from_zero(rt: HostRuntime) {
    let alloc = rt.alloc();
    let input = sent_frames(&rt, alloc, FROM_ZERO);
    for (dialect, answers) in [(Dialect::Words, FROM_ZERO), (Dialect::Codes, FROM_ONE)] {
        let expected = answered_frames(&rt, alloc, answers);
        let mut output = Vec::new(alloc);
        let progress = Progress::new();
        let result = serve(
            &rt,
            &rt,
            alloc,
            dialect,
            &mut Reading::new(&rt, input.as_slice()),
            &mut Writing::new(&rt, &mut output),
            &mut Files::everywhere(alloc, b""),
            &mut SliceGate::new(&rt, Streams::WELL, &progress),
            &mut NoListener,
        );
        assert_eq!(rt; result, Ok(Served::Disconnected), "{dialect:?}");
        let came = std::str::from_utf8(output.as_slice());
        let wanted = std::str::from_utf8(expected.as_slice());
        assert_eq!(rt; came, wanted, "{dialect:?}");
    }
}
