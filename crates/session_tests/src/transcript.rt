//! Transcripts of sessions.
//!
//! `# NAME` begins a session, and each line `| ..` after it is one of the program's text. Then come events, and after
//! each what comes of it. Some lines stand for others (`verbs`). The events are:
//!
//! - `> COMMAND ARGUMENTS`, a request of the client, numbered from 1, or `+ ..`, one in the same piece as the line before;
//! - `>> CONTENT`, a frame of any content, and `>>> BYTES` or `+> BYTES`, bytes that needn't be a frame (`text`);
//! - `S 10`, the runner's next report, which ends at position 10, or `S`, one that ends anywhere;
//! - `S noMemory`, the report that the runner has no memory for its next slice;
//! - `R ..`, a report that is handed in besides (`reports`);
//! - `F TEXT`, a file of this text that nobody asked for, or `F cannotRead` or `F noMemory` in its place;
//! - `end`, `read failed` and `no memory`, after which nothing comes.
//!
//! What comes of an event are messages, as `4: ok configurationDone/3` (`expected`), and orders, as `! Go 1`. The last
//! line, as `= InputEnded`, says how the session ended.

use crate::client::Client;
use crate::expected::content;
use crate::files::Files;
use crate::text::{expanded, in_two};
use crate::verbs::spelled_out;
use dap_session::{Closed, SessionFault};
use std::alloc::{AllocError, Global};
use std::process::Abort;
use std::sync::Wait;
use test_kit::{Outcome, Room, Shared, framed, run_session};

/// The text of the program.
fn program_of(rt: &impl Abort, alloc: Global, session: &str) -> String {
    let mut program = String::new(alloc);
    let mut is_first = true;
    for line in session.lines() {
        if let Some(line) = line.strip_prefix('|') {
            if !is_first {
                program.push_str("\n").expect(rt, "memory");
            }
            program
                .push_str(line.strip_prefix(' ').unwrap_or(line))
                .expect(rt, "memory");
            is_first = false;
        }
    }
    program
}

/// The lines after the program.
fn transcript_of(rt: &impl Abort, alloc: Global, session: &str) -> String {
    let mut transcript = String::new(alloc);
    for line in session.lines() {
        if !line.starts_with('|') {
            transcript.push_str(line).expect(rt, "memory");
            transcript.push_str("\n").expect(rt, "memory");
        }
    }
    transcript
}

/// Whether a line of a transcript is an event.
fn is_event(line: &str) -> bool {
    let (kind, _) = in_two(line, " ");
    matches!(line, "end" | "read failed" | "no memory")
        || matches!(kind, ">" | "+" | ">>" | ">>>" | "+>" | "S" | "R" | "F")
}

/// Whether a line of a transcript says what comes of an event, or how the session ends.
fn is_outcome(line: &str) -> bool {
    line.starts_with(|c: char| c == '!' || c == '=' || c.is_ascii_digit())
}

/// Asserts that each line of a transcript can stand in one: the heading of a session, where it is mistyped, can't.
fn assert_lines(rt: &impl Abort, name: &str, transcript: &str) {
    for line in transcript.lines() {
        if !(line.is_empty() || is_event(line) || is_outcome(line)) {
            panic!(rt; "{name}: no line of a session: {line}");
        }
    }
}

/// The events of a transcript.
fn events_of<'a>(rt: &impl Abort, alloc: Global, transcript: &'a str) -> Vec<&'a str> {
    let mut events = Vec::new(alloc);
    for line in transcript.lines() {
        if is_event(line) {
            events.push(line).expect(rt, "memory");
        }
    }
    events
}

/// Runs a session with the client's bytes in pieces of this size at most: what came of it, and how many events were given.
/// `p.pl0` is the program, and `dot.pl0` the smallest one; no other can be read.
fn run<R: Abort + Wait>(
    rt: &R,
    alloc: Global,
    name: &str,
    program: &str,
    events: &[&str],
    piece: usize,
) -> (Outcome, usize) {
    let shared = Shared::new();
    let client = Client::new(rt, alloc, name, program, events, piece, &shared);
    let mut files = Files::new(rt, alloc, program);
    let outcome = run_session(rt, alloc, &shared, client, &mut files, Room::AMPLE);
    (outcome, shared.given.get())
}

/// The last line of a transcript.
fn end_line(alloc: Global, end: Result<Closed, SessionFault>) -> Result<String, AllocError> {
    match end {
        Ok(closed) => format!(in alloc; "= {closed:?}"),
        Err(fault) => format!(in alloc; "= {fault:?}"),
    }
}

/// How many lines of each kind were compared.
#[derive(Clone, Copy)]
struct Compared {
    events: usize,
    messages: usize,
    orders: usize,
    ends: usize,
}

fn assert_message(
    rt: &impl Abort,
    alloc: Global,
    name: &str,
    line: &str,
    came: &Outcome,
    at: Compared,
) {
    let content = content(rt, alloc, line);
    let frame = framed(alloc, content.as_bytes()).expect(rt, "memory");
    let frame = std::str::from_utf8(frame.as_slice());
    let message = came.frames.get(at.messages);
    let message = message.map(|noted| (noted.0, std::str::from_utf8(noted.1.as_slice())));
    assert_eq!(rt; message, Some((at.events, frame)), "{name}: {line}");
}

/// What came is what a line says, after the event that it stands after.
fn assert_line(
    rt: &impl Abort,
    alloc: Global,
    name: &str,
    line: &str,
    came: &Outcome,
    at: &mut Compared,
) {
    if is_event(line) {
        at.events = at.events.saturating_add(1);
    } else if line.starts_with('=') {
        let end = end_line(alloc, came.end).expect(rt, "memory");
        assert_eq!(rt; end.as_str(), line, "{name}");
        at.ends = at.ends.saturating_add(1);
    } else if let Some(order) = line.strip_prefix("! ") {
        let pushed = came.orders.get(at.orders);
        let pushed = pushed.map(|noted| (noted.0, noted.1.as_str()));
        assert_eq!(rt; pushed, Some((at.events, order)), "{name}: {line}");
        at.orders = at.orders.saturating_add(1);
    } else {
        assert_message(rt, alloc, name, line, came, *at);
        at.messages = at.messages.saturating_add(1);
    }
}

/// Runs a session with the client's bytes in pieces of this size at most. What comes of it is what its transcript says, and
/// no more.
pub fn assert_session<R: Abort + Wait>(rt: &R, alloc: Global, session: &str, piece: usize) {
    let (name, rest) = session.split_once('\n').expect(rt, "a transcript");
    let session = spelled_out(rt, alloc, rest);
    let program = program_of(rt, alloc, session.as_str());
    let program = expanded(rt, alloc, program.as_str());
    let transcript = transcript_of(rt, alloc, session.as_str());
    let transcript = expanded(rt, alloc, transcript.as_str());
    assert_lines(rt, name, transcript.as_str());
    let events = events_of(rt, alloc, transcript.as_str());
    let (came, given) = run(rt, alloc, name, program.as_str(), events.as_slice(), piece);
    let mut at = Compared {
        events: 0,
        messages: 0,
        orders: 0,
        ends: 0,
    };
    for line in transcript.lines() {
        if !line.is_empty() {
            assert_line(rt, alloc, name, line, &came, &mut at);
        }
    }
    assert_eq!(rt; given, at.events, "{name}: events");
    assert_eq!(rt; came.frames.len(), at.messages, "{name}: messages");
    assert_eq!(rt; came.orders.len(), at.orders, "{name}: orders");
    assert_eq!(rt; at.ends, 1, "{name}: ends");
}
