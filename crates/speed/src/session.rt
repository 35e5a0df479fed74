//! A session over memory, in one thread: what a client sends piece by piece, and a run before the next piece.

ghost use Rattle.std.specs.Prelude.{◌<◌, ◌≤◌, length};

use dap_session::{Event, LoadFault, LoadLog, Loader};
use std::alloc::Global;
use std::fs;
use std::io::ErrorKind;
use std::rt::Files;
use std::sync::Wait;
use test_kit::{Events, Outcome, Room, Shared, run_session};

/// A program's text has at most one byte less.
const MOST: usize = 65_537;

/// Drives a session by what a client sends.
pub fn run<R: Wait + Files + AllocGlobal>(rt: &R, alloc: Global, sent: &[u8]) -> Outcome {
    let shared = Shared::new();
    let client = Client {
        alloc,
        rest: sent,
        shared: &shared,
    };
    let mut loader = Disk {
        rt,
        log: LoadLog::new(),
    };
    run_session(rt, alloc, &shared, client, &mut loader, Room::AMPLE)
}

/// The next report of the run that is on, or else the next piece.
#[derive(Drop)]
struct Client<'a> {
    alloc: Global,
    rest: &'a [u8],
    shared: &'a Shared,
}

impl Events for Client<'_> {
    fn next_event(&mut self) -> Event {
        if let Some(report) = self.shared.runner.next_report(self.alloc) {
            return Event::Report(report);
        }
        if self.rest.is_empty() {
            return Event::End;
        }
        let (piece, rest) = self.rest.split_at(piece_length(self.rest));
        self.rest = rest;
        match Vec::from_slice(self.alloc, piece) {
            Ok(piece) => Event::Piece(piece),
            Err(_) => Event::NoMemory,
        }
    }
}

/// The files of the system.
#[derive(Drop)]
struct Disk<'a, R: Files + AllocGlobal> {
    rt: &'a R,
    log: LoadLog,
}

impl<R: Files + AllocGlobal> Loader for Disk<'_, R> {
    ghost use Rattle.std.specs.Prelude.{⊤};
    ghost use Rattle.dap_session.specs.Loads.{logged};

    ghost loaded = { λ disk. logged disk.log };

    ghost Origin = { ⊤ };

    ghost origin = { λ _. tt };

    fn load(&mut self, path: &str) -> Result<Vec<u8>, LoadFault> {
        let answer = match fs::read(self.rt, path) {
            Ok(mut text) => {
                text.truncate(MOST);
                Ok(text)
            }
            Err(error) if error.kind() == ErrorKind::OutOfMemory => Err(LoadFault::NoMemory),
            Err(_) => Err(LoadFault::CannotRead),
        };
        self.log.note(path, answer)
    }
}

/// How many bytes the next piece has: those of the frame in front, if its length is all that its header says, and else 1.
/// So a run has ended before the next frame comes, and frames cost little beside what is done with them.
fn piece_length(rest: &[u8]) -> usize
    requires { 0 < length rest.now }
    ensures { result ≤ length rest.now }
{
    let Some(mut content) = rest.strip_prefix(b"Content-Length: ") else {
        return 1;
    };
    let mut length: usize = 0;
    while let [digit @ b'0'..=b'9', more @ ..] = content {
        length = length
            .saturating_mul(10)
            .saturating_add((*digit - b'0') as usize);
        content = more;
    }
    match content.strip_prefix(b"\r\n\r\n") {
        Some(content) if length <= content.len() => rest.len() - content.len() + length,
        _ => 1,
    }
}
