//! A session over ports in memory.

use crate::session_ports::{Events, Frames, Incoming, Noted, Pushed, Shared};
use dap_session::{Closed, Dialect, Loader, SessionFault, drive};
use std::alloc::{AllocError, Global};
use std::sync::Wait;

/// For how many frames and orders there is room.
#[derive(Clone, Copy)]
pub struct Room {
    pub frames: usize,
    pub orders: usize,
}

impl Room {
    /// Room for all.
    pub const AMPLE: Room = Room {
        frames: usize::MAX,
        orders: usize::MAX,
    };
}

/// What came of a session.
#[derive(Drop)]
pub struct Outcome {
    pub end: Result<Closed, SessionFault>,
    /// The frames that it put.
    pub frames: Noted<Vec<u8>>,
    /// The orders that it pushed, as `Go 1`, `Hold 1` or `Quit`.
    pub orders: Noted<String>,
}

impl Outcome {
    /// The frames, one after another. Fails where memory runs out.
    pub fn output(&self, alloc: Global) -> Result<Vec<u8>, AllocError> {
        let mut output = Vec::new(alloc);
        for (_, frame) in &self.frames {
            output.extend_from_slice(frame.as_slice())?;
        }
        Ok(output)
    }
}

/// Drives a session by the events of a source until it is closed or gives up. The source has to have an event for as
/// long as the session asks for one.
pub fn run_session<R: Wait, E: Events + Drop, L: Loader>(
    rt: &R,
    alloc: Global,
    shared: &Shared,
    events: E,
    loader: &mut L,
    room: Room,
) -> Outcome {
    let mut inbox = Incoming::new(events);
    let mut frames = Frames::new(alloc, shared, room.frames);
    let mut orders = Pushed::new(alloc, shared, room.orders);
    let dialect = Dialect::Codes;
    let end = drive(
        rt,
        alloc,
        dialect,
        &mut inbox,
        loader,
        &mut frames,
        &mut orders,
    );
    Outcome {
        end,
        frames: frames.noted,
        orders: orders.noted,
    }
}
