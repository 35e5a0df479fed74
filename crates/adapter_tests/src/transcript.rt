//! Transcripts of sessions: each line after `>` is a content that the editor sends, and each after `<` one that comes back.
//!
//! After a line `- read` the next read waits until all that comes back above it was written; after `- slice` the first
//! slice of the program does. The lines `- initialize`, `- launch` and `- start` stand for the requests, numbered 1, 2
//! and 3, with which most sessions begin, and for their answers. Any other line that isn't empty ends the test.

use crate::fakes::{Cut, Hold};
use std::alloc::Global;
use std::process::Abort;
use test_kit::framed;

const INITIALIZE: &str = r#"> {"seq":1,"type":"request","command":"initialize"}
< {"body":{"supportsConditionalBreakpoints":true,"supportsConfigurationDoneRequest":true,"supportsHitConditionalBreakpoints":true,"supportsLogPoints":true,"supportsStepBack":true},"command":"initialize","request_seq":1,"seq":1,"success":true,"type":"response"}"#;

const LAUNCH: &str =
    r#"> {"seq":2,"type":"request","command":"launch","arguments":{"program":"p.pl0"}}
< {"command":"launch","request_seq":2,"seq":2,"success":true,"type":"response"}
< {"event":"initialized","seq":3,"type":"event"}"#;

const START: &str = r#"> {"seq":3,"type":"request","command":"configurationDone"}
< {"command":"configurationDone","request_seq":3,"seq":4,"success":true,"type":"response"}"#;

/// The lines that a line stands for.
fn lines_of(line: &str) -> &str {
    match line {
        "- initialize" => INITIALIZE,
        "- launch" => LAUNCH,
        "- start" => START,
        line => line,
    }
}

/// What a line says.
#[derive(Clone, Copy)]
enum Line<'a> {
    Sent(&'a str),
    Answered(&'a str),
    /// The next read waits.
    Read,
    /// The first slice waits.
    Slice,
}

fn parse_line<'a>(rt: &impl Abort, line: &'a str) -> Line<'a> {
    if let Some(content) = line.strip_prefix('>') {
        return Line::Sent(content.trim());
    }
    if let Some(content) = line.strip_prefix('<') {
        return Line::Answered(content.trim());
    }
    match line {
        "- read" => Line::Read,
        "- slice" => Line::Slice,
        other => panic!(rt; "no line of a transcript: {other}"),
    }
}

/// Adds a frame of this content.
fn add_frame(rt: &impl Abort, alloc: Global, frames: &mut Vec<u8>, content: &str) {
    let frame = framed(alloc, content.as_bytes()).expect(rt, "memory");
    frames
        .extend_from_slice(frame.as_slice())
        .expect(rt, "memory");
}

/// The frames that are sent, one after another.
pub fn sent_frames(rt: &impl Abort, alloc: Global, transcript: &str) -> Vec<u8> {
    Exchange::new(rt, alloc, transcript).sent
}

/// The frames that come back, one after another.
pub fn answered_frames(rt: &impl Abort, alloc: Global, transcript: &str) -> Vec<u8> {
    Exchange::new(rt, alloc, transcript).answered
}

/// What the editor sends, and these bytes after it.
pub fn input(rt: &impl Abort, alloc: Global, transcript: &str, tail: &str) -> Vec<u8> {
    let mut bytes = sent_frames(rt, alloc, transcript);
    bytes
        .extend_from_slice(tail.as_bytes())
        .expect(rt, "memory");
    bytes
}

/// A transcript in bytes, each frame that is sent in a read of its own.
#[derive(Drop)]
pub struct Exchange {
    pub sent: Vec<u8>,
    pub answered: Vec<u8>,
    /// Where each read begins, the last one at the end, and how much comes back before it.
    pub reads: Vec<Cut>,
    pub answered_before: Vec<usize>,
    /// Where each frame that comes back begins, and ends.
    pub answers: Vec<(usize, usize)>,
    /// What the first slice waits for.
    pub slice_hold: Hold,
    // What the next read waits for.
    read_hold: Hold,
}

impl Exchange {
    pub fn new(rt: &impl Abort, alloc: Global, transcript: &str) -> Exchange {
        let mut exchange = Exchange {
            sent: Vec::new(alloc),
            answered: Vec::new(alloc),
            reads: Vec::new(alloc),
            answered_before: Vec::new(alloc),
            answers: Vec::new(alloc),
            slice_hold: Hold::Nothing,
            read_hold: Hold::Nothing,
        };
        for line in transcript.lines() {
            for line in lines_of(line).lines() {
                exchange.add_line(rt, alloc, parse_line(rt, line));
            }
        }
        exchange.add_read(rt);
        exchange
    }

    fn add_line(&mut self, rt: &impl Abort, alloc: Global, line: Line) {
        match line {
            Line::Sent(content) => {
                self.add_read(rt);
                add_frame(rt, alloc, &mut self.sent, content);
            }
            Line::Answered(content) => {
                let begin = self.answered.len();
                add_frame(rt, alloc, &mut self.answered, content);
                self.answers
                    .push((begin, self.answered.len()))
                    .expect(rt, "memory");
            }
            Line::Read => self.read_hold = Hold::Written(self.answered.len()),
            Line::Slice => self.slice_hold = Hold::Written(self.answered.len()),
        }
    }

    /// A read begins here.
    fn add_read(&mut self, rt: &impl Abort) {
        self.reads
            .push(Cut {
                at: self.sent.len(),
                hold: self.read_hold,
            })
            .expect(rt, "memory");
        self.read_hold = Hold::Nothing;
        self.answered_before
            .push(self.answered.len())
            .expect(rt, "memory");
    }
}
