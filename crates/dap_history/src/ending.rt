//! How a session ends.

use crate::fault::SessionFault;

/// What closed a session.
#[derive(Clone, Copy, Debug, PartialEq, Eq)]
pub enum Closed {
    /// The client asked for it by `disconnect`.
    Disconnected,
    /// The input came to its end.
    InputEnded,
    /// Reading the input failed.
    ReadFailed,
}

/// How a session ended.
#[derive(Clone, Copy)]
pub enum Ending {
    /// It was closed, by the client, by the end of the input or by a failed read.
    Closed(Closed),
    /// It gave up because of a fault.
    Fault(SessionFault),
}
