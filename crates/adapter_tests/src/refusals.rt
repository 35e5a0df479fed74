//! Reads and writes that fail in turn. Each is interrupted once before that, and tried again.

use crate::fakes::{Hold, Streams};
use crate::programs::{BROKEN, Debugging, NOTHING, OVERFLOW, PAUSED, PROCEDURES};
use crate::rows::{HELLO, INITIALIZE};
use crate::serving::{Outcome, run};
use crate::transcript::{Exchange, answered_frames, sent_frames};
use adapter::{ServeFault, Served};
use std::alloc::Global;
use std::process::Abort;
use std::sync::Wait;
use std::thread::Threads;

const SESSIONS: [Debugging; 5] = [NOTHING, PROCEDURES, OVERFLOW, PAUSED, BROKEN];

/// What the first slice waits for where so many bytes are answered in all: nothing that doesn't come.
fn in_reach(hold: Hold, answered: usize) -> Hold {
    match hold {
        Hold::Written(least) if answered < least => Hold::Nothing,
        hold => hold,
    }
}

/// Asserts how a session ended, and what it had written by then.
fn assert_came(
    rt: &impl Abort,
    run: &Outcome,
    end: Result<Served, ServeFault>,
    wanted: &[u8],
    name: &str,
    at: usize,
) {
    assert_eq!(rt; run.end, end, "{name}, at {at}");
    let came = std::str::from_utf8(run.output.as_slice());
    assert_eq!(rt; came, std::str::from_utf8(wanted), "{name}, at {at}");
}

/// Each read of a session fails in turn: what came before it is answered, and after a disconnect nothing changes.
fn assert_reads_fail<R: Threads + Wait + Abort + Copy + Drop + Send + Sync>(
    rt: &R,
    alloc: Global,
    session: &Debugging,
) {
    let exchange = Exchange::new(rt, alloc, session.transcript);
    let sent = exchange.sent.as_slice();
    let reads = exchange.reads.as_slice();
    for (read, answered) in reads.iter().zip(exchange.answered_before.iter()) {
        let at = read.at;
        let streams = Streams {
            cuts: reads,
            read_fails_at: at,
            slice_hold: in_reach(exchange.slice_hold, *answered),
            ..Streams::WELL
        };
        let end = match session.end {
            Served::Disconnected if at >= sent.len() => Ok(Served::Disconnected),
            _ => Err(ServeFault::ReadFailed),
        };
        let run = run(rt, alloc, session.program, sent, streams);
        let wanted = exchange.answered.get(..*answered).expect(rt, "answers");
        assert_came(rt, &run, end, wanted, session.name, at);
    }
}

#[test]
fn ends_where_a_read_fails(rt: HostRuntime) {
    for session in SESSIONS.as_slice() {
        assert_reads_fail(&rt, rt.alloc(), session);
    }
}

/// The output takes the first bytes of a session, and fails at the next write.
fn assert_write_fails<R: Threads + Wait + Abort + Copy + Drop + Send + Sync>(
    rt: &R,
    alloc: Global,
    session: &Debugging,
    exchange: &Exchange,
    room: usize,
) {
    for takes_nothing in [false, true] {
        let streams = Streams {
            cuts: exchange.reads.as_slice(),
            room,
            takes_nothing,
            slice_hold: exchange.slice_hold,
            ..Streams::WELL
        };
        let sent = exchange.sent.as_slice();
        let run = run(rt, alloc, session.program, sent, streams);
        let wanted = exchange.answered.get(..room).expect(rt, "answers");
        let end = Err(ServeFault::WriteFailed);
        assert_came(rt, &run, end, wanted, session.name, room);
    }
}

/// Each write of a session fails in turn, after none of its bytes, after one, and after all but one.
fn assert_writes_fail<R: Threads + Wait + Abort + Copy + Drop + Send + Sync>(
    rt: &R,
    alloc: Global,
    session: &Debugging,
) {
    let exchange = Exchange::new(rt, alloc, session.transcript);
    for (begin, end) in exchange.answers.as_slice() {
        for room in [*begin, begin.saturating_add(1), end.saturating_sub(1)] {
            assert_write_fails(rt, alloc, session, &exchange, room);
        }
    }
}

#[test]
fn ends_where_a_write_fails(rt: HostRuntime) {
    for session in SESSIONS.as_slice() {
        assert_writes_fail(&rt, rt.alloc(), session);
    }
}

/// Reads fail at each byte in turn.
#[test]
fn ends_where_a_read_fails_within_a_frame(rt: HostRuntime) {
    let alloc = rt.alloc();
    let input = sent_frames(&rt, alloc, HELLO);
    let first = sent_frames(&rt, alloc, INITIALIZE);
    let answer = answered_frames(&rt, alloc, INITIALIZE);
    for read_step in [1, first.len()] {
        for read_fails_at in 0..input.len() {
            let streams = Streams {
                read_step,
                read_fails_at,
                ..Streams::WELL
            };
            let expected = if read_fails_at < first.len() {
                b""
            } else {
                answer.as_slice()
            };
            let run = run(&rt, alloc, "", input.as_slice(), streams);
            let end = Err(ServeFault::ReadFailed);
            assert_came(&rt, &run, end, expected, "hello", read_fails_at);
        }
    }
}

/// Writes fail, or take nothing, after each number of bytes in turn.
#[test]
fn ends_where_a_write_fails_within_a_frame(rt: HostRuntime) {
    let alloc = rt.alloc();
    let exchange = Exchange::new(&rt, alloc, HELLO);
    for room in 0..exchange.answered.len() {
        assert_write_fails(&rt, alloc, &NOTHING, &exchange, room);
    }
}
