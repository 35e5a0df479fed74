//! Sessions over ports in memory.

use crate::rows::{FAULTS, HELLO, INITIALIZE, LAUNCH, ROWS, Row, STARTED, fault_row};
use crate::transcript::{answered_frames, input};
use dap_session::{Closed, Event, SessionFault};
use std::alloc::{AllocError, Global};
use std::collections::VecDeque;
use std::process::Abort;
use std::sync::Wait;
use test_kit::{Events, Files, Room, Shared, run_session};

/// Events. Asking for more than there are ends the test.
#[derive(Drop)]
struct Script<'a, R: Abort> {
    rt: &'a R,
    events: VecDeque<Event>,
}

impl<R: Abort> Events for Script<'_, R> {
    fn next_event(&mut self) -> Event {
        self.events.pop_front().expect(self.rt, "an event")
    }
}

/// What came of a session.
#[derive(Drop)]
struct Outcome {
    end: Result<Closed, SessionFault>,
    /// The frames put, one after another.
    output: Vec<u8>,
    /// How many orders were pushed.
    orders: usize,
}

/// How the pieces come, what comes after them, and for how much the ports have room.
#[derive(Clone, Copy)]
struct Ports {
    piece: usize,
    last: Last,
    room: Room,
}

#[derive(Clone, Copy)]
enum Last {
    End,
    ReadFailed,
    NoMemory,
}

const AMPLE: Ports = Ports {
    piece: usize::MAX,
    last: Last::End,
    room: Room::AMPLE,
};

/// The pieces of an input, and what comes after them.
fn events(alloc: Global, input: &[u8], ports: Ports) -> Result<VecDeque<Event>, AllocError> {
    let mut events = VecDeque::new(alloc);
    for piece in input.chunks(ports.piece.max(1)) {
        events.push_back(Event::Piece(piece.to_vec(alloc)?))?;
    }
    events.push_back(match ports.last {
        Last::End => Event::End,
        Last::ReadFailed => Event::ReadFailed,
        Last::NoMemory => Event::NoMemory,
    })?;
    Ok(events)
}

/// Drives a session over these bytes.
fn run<R: Abort + Wait>(
    rt: &R,
    alloc: Global,
    input: &[u8],
    ports: Ports,
) -> Result<Outcome, AllocError> {
    let script = Script {
        rt,
        events: events(alloc, input, ports)?,
    };
    let files = &mut Files::everywhere(alloc, b".");
    let outcome = run_session(rt, alloc, &Shared::new(), script, files, ports.room);
    Ok(Outcome {
        end: outcome.end,
        output: outcome.output(alloc)?,
        orders: outcome.orders.len(),
    })
}

/// A session over ports, and what comes of it.
#[derive(Clone, Copy)]
struct Driven {
    name: &'static str,
    transcript: &'static str,
    /// Bytes after the frames that are sent.
    tail: &'static str,
    ports: Ports,
    /// The transcript whose answers are put.
    answered: &'static str,
    end: Result<Closed, SessionFault>,
    /// How many orders are pushed.
    orders: usize,
}

/// The session of a row, in pieces: all is answered, and one order to quit is pushed.
fn served(row: &Row, piece: usize) -> Driven {
    Driven {
        name: row.name,
        transcript: row.transcript,
        tail: row.tail,
        ports: Ports { piece, ..AMPLE },
        answered: row.transcript,
        end: row.end,
        orders: 1,
    }
}

fn assert_driven<R: Abort + Wait>(rt: &R, alloc: Global, session: &Driven) {
    let name = session.name;
    let piece = session.ports.piece;
    let input = input(rt, alloc, session.transcript, session.tail);
    let run = run(rt, alloc, input.as_slice(), session.ports).expect(rt, "memory");
    let answers = answered_frames(rt, alloc, session.answered);
    assert_eq!(rt;
        (run.end, run.orders),
        (session.end, session.orders),
        "{name}, by {piece}"
    );
    let came = std::str::from_utf8(run.output.as_slice());
    let wanted = std::str::from_utf8(answers.as_slice());
    assert_eq!(rt; came, wanted, "{name}, by {piece}");
}

/// Whole, a byte at a time, and cut within `Content-Length` and between CR and LF.
const PIECES: [usize; 4] = [usize::MAX, 1, 9, 19];

#[test]
fn drives_rows_however_cut(rt: HostRuntime) {
    for row in ROWS.as_slice() {
        for piece in PIECES.as_slice() {
            assert_driven(&rt, rt.alloc(), &served(row, *piece));
        }
    }
}

#[test]
fn drives_to_faults_however_cut(rt: HostRuntime) {
    for (tail, fault, last_line) in FAULTS.as_slice() {
        for transcript in ["", INITIALIZE] {
            let row = fault_row(transcript, tail, *fault, last_line);
            for piece in PIECES.as_slice() {
                assert_driven(&rt, rt.alloc(), &served(&row, *piece));
            }
        }
    }
}

/// Sessions that aren't served to their end.
const STOPS: [Driven; 6] = [
    Driven {
        name: "no room for the order to quit",
        transcript: HELLO,
        tail: "",
        ports: Ports {
            room: Room {
                orders: 0,
                ..Room::AMPLE
            },
            ..AMPLE
        },
        answered: INITIALIZE,
        end: Err(SessionFault::OrdersFull),
        orders: 0,
    },
    Driven {
        name: "no room for the order to run",
        transcript: STARTED,
        tail: "",
        ports: Ports {
            room: Room {
                orders: 0,
                ..Room::AMPLE
            },
            ..AMPLE
        },
        answered: LAUNCH,
        end: Err(SessionFault::OrdersFull),
        orders: 0,
    },
    Driven {
        name: "room for the order to run alone",
        transcript: STARTED,
        tail: "",
        ports: Ports {
            room: Room {
                orders: 1,
                ..Room::AMPLE
            },
            ..AMPLE
        },
        answered: STARTED,
        end: Err(SessionFault::OrdersFull),
        orders: 1,
    },
    Driven {
        name: "room for one frame",
        transcript: HELLO,
        tail: "",
        ports: Ports {
            room: Room {
                frames: 1,
                ..Room::AMPLE
            },
            ..AMPLE
        },
        answered: INITIALIZE,
        end: Err(SessionFault::WriterGone),
        orders: 2,
    },
    Driven {
        name: "a read fails",
        transcript: INITIALIZE,
        tail: "Content-Length: 49\r\n",
        ports: Ports {
            last: Last::ReadFailed,
            ..AMPLE
        },
        answered: INITIALIZE,
        end: Ok(Closed::ReadFailed),
        orders: 1,
    },
    Driven {
        name: "no memory for a piece",
        transcript: INITIALIZE,
        tail: "Content-Length: 49\r\n",
        ports: Ports {
            last: Last::NoMemory,
            ..AMPLE
        },
        answered: INITIALIZE,
        end: Err(SessionFault::NoMemory),
        orders: 1,
    },
];

#[test]
fn stops_where_a_port_refuses_or_a_piece_is_missing(rt: HostRuntime) {
    for session in STOPS.as_slice() {
        assert_driven(&rt, rt.alloc(), session);
    }
}
