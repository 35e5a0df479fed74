//! The events of a transcript. Asking for more than it has ends the test, and so does running out of memory.

use crate::reports::described;
use crate::text::unescaped;
use dap_session::{Event, LoadFault};
use std::alloc::Global;
use std::process::Abort;
use test_kit::{Events, Shared, framed};

/// The events of a transcript, with the bytes that the client sends cut in pieces.
#[derive(Drop)]
pub struct Client<'a, R: Abort> {
    rt: &'a R,
    alloc: Global,
    name: &'a str,
    program: &'a str,
    lines: &'a [&'a str],
    piece: usize,
    // Counts the lines that were given, or begun.
    shared: &'a Shared,
    // What is sent of the last line, and how much of it was.
    bytes: Vec<u8>,
    sent: usize,
    requests: u64,
}

impl<'a, R: Abort> Client<'a, R> {
    pub fn new(
        rt: &'a R,
        alloc: Global,
        name: &'a str,
        program: &'a str,
        lines: &'a [&'a str],
        piece: usize,
        shared: &'a Shared,
    ) -> Client<'a, R> {
        Client {
            rt,
            alloc,
            name,
            program,
            lines,
            piece,
            shared,
            bytes: Vec::new(alloc),
            sent: 0,
            requests: 0,
        }
    }

    /// The bytes that the client sends by a line.
    fn bytes_of(&mut self, line: &str) -> Option<Vec<u8>> {
        let (rt, alloc) = (self.rt, self.alloc);
        if let Some(bytes) = line.strip_prefix(">>> ").or(line.strip_prefix("+> ")) {
            return Some(unescaped(rt, alloc, bytes));
        }
        if let Some(content) = line.strip_prefix(">>") {
            let content = content.strip_prefix(' ').unwrap_or(content);
            let content = unescaped(rt, alloc, content);
            return Some(framed(alloc, content.as_slice()).expect(rt, "memory"));
        }
        let request = line.strip_prefix("> ").or(line.strip_prefix("+ "))?;
        self.requests = self.requests.checked_add(1).expect(rt, "a seq");
        let content = request_content(rt, alloc, self.requests, request);
        Some(framed(alloc, content.as_bytes()).expect(rt, "memory"))
    }

    fn next_line(&mut self) -> &'a str {
        let at = self.shared.given.get();
        let line = *self.lines.get(at).expect(self.rt, "a line more");
        self.shared.given.set(at.saturating_add(1));
        line
    }

    /// Adds what comes in the same piece.
    fn join_lines(&mut self) {
        for _ in 0..self.lines.len() {
            match self.lines.get(self.shared.given.get()) {
                Some(line) if line.starts_with('+') => self.join_line(),
                _ => return,
            }
        }
    }

    fn join_line(&mut self) {
        let line = self.next_line();
        if let Some(bytes) = self.bytes_of(line) {
            self.bytes
                .extend_from_slice(bytes.as_slice())
                .expect(self.rt, "memory");
        }
    }

    /// The next piece of what is sent.
    fn next_piece(&mut self) -> Event {
        let rest = self.bytes.get(self.sent..).unwrap_or_default();
        let piece = rest.get(..self.piece).unwrap_or(rest);
        let piece = Vec::from_slice(self.alloc, piece).expect(self.rt, "memory");
        self.sent = self.sent.saturating_add(piece.len());
        Event::Piece(piece)
    }

    /// The next report of the run that is on, which ends at this position, if one is given.
    fn next_report(&mut self, end: Option<&str>) -> Event {
        let report = self.shared.runner.next_report(self.alloc);
        let report = report.expect(self.rt, "a run");
        if let Some(end) = end {
            let name = self.name;
            assert_eq!(self.rt;
                Ok(report.summary().end),
                end.parse::<u64>(),
                "{name}: S {end}"
            );
        }
        Event::Report(report)
    }

    /// What the runner reports where it has no memory.
    fn report_no_memory(&mut self) -> Event {
        let report = self.shared.runner.report_no_memory();
        Event::Report(report.expect(self.rt, "a run that goes on"))
    }

    /// A file of this text, or what came in its place.
    fn file(&self, text: &str) -> Event {
        Event::File(match text {
            "cannotRead" => Err(LoadFault::CannotRead),
            "noMemory" => Err(LoadFault::NoMemory),
            text => Ok(Vec::from_slice(self.alloc, text.as_bytes()).expect(self.rt, "memory")),
        })
    }

    fn last_event(&self, line: &str) -> Event {
        match line {
            "read failed" => Event::ReadFailed,
            "no memory" => Event::NoMemory,
            other => {
                assert_eq!(self.rt; other, "end", "{}", self.name);
                Event::End
            }
        }
    }
}

impl<R: Abort> Events for Client<'_, R> {
    fn next_event(&mut self) -> Event {
        if self.sent < self.bytes.len() {
            return self.next_piece();
        }
        let line = self.next_line();
        if let Some(bytes) = self.bytes_of(line) {
            self.bytes = bytes;
            self.sent = 0;
            self.join_lines();
            return self.next_piece();
        }
        if line == "S noMemory" {
            return self.report_no_memory();
        }
        if line == "S" {
            return self.next_report(None);
        }
        if let Some(end) = line.strip_prefix("S ") {
            return self.next_report(Some(end));
        }
        if let Some(text) = line.strip_prefix("F ") {
            return self.file(text);
        }
        if let Some(description) = line.strip_prefix("R ") {
            let report = described(self.rt, self.alloc, description, self.program);
            return Event::Report(report);
        }
        self.last_event(line)
    }
}

/// The content of a request such as `variables {"variablesReference":1}`.
fn request_content(rt: &impl Abort, alloc: Global, seq: u64, request: &str) -> String {
    let (command, arguments) = request.split_once(' ').unwrap_or((request, "{}"));
    format!(in alloc;
        "{{\"seq\":{seq},\"type\":\"request\",\"command\":\"{command}\",\"arguments\":{arguments}}}"
    ).expect(rt, "memory")
}
