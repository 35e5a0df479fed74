//! Sessions whose streams and gate wait for each other: a test fails unless all threads run at once.

use crate::fakes::{Cut, Hold, Input, Listener, Output, Progress, SliceGate, Streams};
use crate::programs::{BROKEN, CUT_OFF, Debugging, NOTHING, PAUSED, PROCEDURES};
use crate::rows::STARTED;
use crate::serving::{Outcome, run};
use crate::transcript::{Exchange, input, sent_frames};
use adapter::{Dialect, ServeFault, Served, serve};
use dap_frame::FramingFault;
use dap_session::SessionFault;
use std::alloc::Global;
use std::process::Abort;
use std::sync::Wait;
use std::thread::Threads;
use test_kit::Files;

/// Asserts that a session ends as it should, with the frames of its transcript.
fn assert_answered(rt: &impl Abort, session: &Debugging, exchange: &Exchange, run: &Outcome) {
    let name = session.name;
    assert_eq!(rt; run.end, Ok(session.end), "{name}");
    let came = std::str::from_utf8(run.output.as_slice());
    let wanted = std::str::from_utf8(exchange.answered.as_slice());
    assert_eq!(rt; came, wanted, "{name}");
}

/// Serves a session as its transcript says, and returns how many slices passed the gate.
fn assert_served<R: Threads + Wait + Abort + Copy + Drop + Send + Sync>(
    rt: &R,
    alloc: Global,
    session: &Debugging,
) -> usize {
    let exchange = Exchange::new(rt, alloc, session.transcript);
    let streams = Streams {
        cuts: exchange.reads.as_slice(),
        slice_hold: exchange.slice_hold,
        ..Streams::WELL
    };
    let sent = exchange.sent.as_slice();
    let run = run(rt, alloc, session.program, sent, streams);
    assert_answered(rt, session, &exchange, &run);
    run.slices
}

/// Each read after a run began waits for what the run brings.
#[test]
fn reports_runs_to_an_editor_that_waits(rt: HostRuntime) {
    let slices = assert_served(&rt, rt.alloc(), &PROCEDURES);
    assert_eq!(rt; slices, 3);
}

/// The first slice waits for the answer to the pause, and the end of the input for the stop.
#[test]
fn answers_a_pause_while_the_program_runs(rt: HostRuntime) {
    let slices = assert_served(&rt, rt.alloc(), &PAUSED);
    assert_eq!(rt; slices, 1);
}

/// The first slice waits for the answer to the breakpoints, and the end of the input for the stop, which a second run
/// brings.
#[test]
fn sets_breakpoints_while_the_program_runs(rt: HostRuntime) {
    let slices = assert_served(&rt, rt.alloc(), &BROKEN);
    assert_eq!(rt; slices, 2);
}

/// The input ends when the second slice of a program without end has begun.
#[test]
fn quits_a_run_where_the_input_ends(rt: HostRuntime) {
    let alloc = rt.alloc();
    let mut exchange = Exchange::new(&rt, alloc, CUT_OFF.transcript);
    exchange
        .reads
        .push(Cut {
            at: exchange.sent.len(),
            hold: Hold::Passed(2),
        })
        .expect(&rt, "memory");
    let streams = Streams {
        cuts: exchange.reads.as_slice(),
        ..Streams::WELL
    };
    let sent = exchange.sent.as_slice();
    let run = run(&rt, alloc, CUT_OFF.program, sent, streams);
    assert_answered(&rt, &CUT_OFF, &exchange, &run);
}

/// Each write waits until a second piece was asked for.
#[test]
fn reads_before_it_has_written(rt: HostRuntime) {
    let alloc = rt.alloc();
    let exchange = Exchange::new(&rt, alloc, NOTHING.transcript);
    let streams = Streams {
        cuts: exchange.reads.as_slice(),
        write_hold: Hold::Read(2),
        ..Streams::WELL
    };
    let sent = exchange.sent.as_slice();
    let run = run(&rt, alloc, "", sent, streams);
    assert_answered(&rt, &NOTHING, &exchange, &run);
}

/// Each read waits until all that the one before it asked for is written.
#[test]
fn writes_before_it_reads_again(rt: HostRuntime) {
    let alloc = rt.alloc();
    let mut exchange = Exchange::new(&rt, alloc, NOTHING.transcript);
    for (read, answered) in exchange
        .reads
        .iter_mut()
        .zip(exchange.answered_before.iter())
    {
        read.hold = Hold::Written(*answered);
    }
    let streams = Streams {
        cuts: exchange.reads.as_slice(),
        ..Streams::WELL
    };
    let sent = exchange.sent.as_slice();
    let run = run(&rt, alloc, "", sent, streams);
    assert_answered(&rt, &NOTHING, &exchange, &run);
}

/// The most outputs that may come before the answer to a pause that was read, and again before the stop: those on their way
/// to the session, and those of one report.
const MOST_OUTPUTS: usize = 512 + 256;

/// How many outputs a text has.
fn outputs(text: &str) -> usize {
    text.matches("\"event\":\"output\"").count()
}

/// What is written in a session whose program prints at nearly each step and never ends. Nothing is written before a pause
/// was read, and that is read when the runner waits; the input ends after the stop.
fn paused_while_printing<R: Threads + Wait + Abort + Copy + Drop + Send + Sync>(
    rt: &R,
    alloc: Global,
) -> Vec<u8> {
    let numbers = "! 1; ".repeat(alloc, 300).expect(rt, "memory");
    let program = format!(in alloc; "while 1 = 1 do begin {numbers} end.").expect(rt, "memory");
    let mut sent = input(rt, alloc, STARTED, "");
    let before_pause = sent.len();
    let pause =
        "> {\"seq\":4,\"type\":\"request\",\"command\":\"pause\",\"arguments\":{\"threadId\":1}}";
    let pause = sent_frames(rt, alloc, pause);
    sent.extend_from_slice(pause.as_slice())
        .expect(rt, "memory");
    let cuts = [
        Cut {
            at: before_pause,
            hold: Hold::Settled,
        },
        Cut {
            at: sent.len(),
            hold: Hold::Stopped,
        },
    ];
    let streams = Streams {
        cuts: cuts.as_slice(),
        write_hold: Hold::Read(3),
        ..Streams::WELL
    };
    run(rt, alloc, program.as_str(), sent.as_slice(), streams).output
}

/// However much a program prints, a pause takes effect after a bounded number of messages. Some come before the stop, since
/// the first slice is taken whole.
#[test]
fn pauses_a_program_that_prints(rt: HostRuntime) {
    let output = paused_while_printing(&rt, rt.alloc());
    let text = str::from_utf8(output.as_slice()).expect(&rt, "text");
    let (before, after) = text
        .split_once("\"command\":\"pause\"")
        .expect(&rt, "an answer");
    let (between, _) = after
        .split_once("\"event\":\"stopped\"")
        .expect(&rt, "a stop");
    assert!(rt; outputs(before) > 0 || outputs(between) > 0, "no output");
    assert!(rt; outputs(before) <= MOST_OUTPUTS, "{}", outputs(before));
    assert!(rt; outputs(between) <= MOST_OUTPUTS, "{}", outputs(between));
}

/// The last read waits until the listener was told how the session ended, which it is after a fault and after the answer to
/// `disconnect`.
#[test]
fn tells_how_it_ended_before_the_input_ends(rt: HostRuntime) {
    let alloc = rt.alloc();
    let disconnect =
        b"Content-Length: 49\r\n\r\n{\"seq\":1,\"type\":\"request\",\"command\":\"disconnect\"}";
    let fault = SessionFault::Frame(FramingFault::BadField);
    let rows = [
        (b"fault\r\n".as_slice(), Err(ServeFault::Session(fault))),
        (disconnect.as_slice(), Ok(Served::Disconnected)),
    ];
    for (sent, end) in rows {
        let cuts = [Cut {
            at: sent.len(),
            hold: Hold::Told,
        }];
        let streams = Streams {
            cuts: cuts.as_slice(),
            ..Streams::WELL
        };
        let progress = Progress::new();
        let came = serve(
            &rt,
            &rt,
            alloc,
            Dialect::Codes,
            &mut Input::new(&rt, sent, streams, &progress),
            &mut Output::new(&rt, alloc, streams, &progress),
            &mut Files::none(alloc),
            &mut SliceGate::new(&rt, streams, &progress),
            &mut Listener::new(&progress),
        );
        assert_eq!(rt; (came, progress.has_missed()), (end, false));
    }
}
