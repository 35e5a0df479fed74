//! The ends of an outbox.

ghost use Rattle.std.specs.Prelude.{◌≡◌, true, false, []};
ghost use Rattle.dap_wires.specs.Ends.{sender_log, receiver_log, receive_log, sender_room, receiver_room};
ghost use Rattle.dap_wires.specs.Rooms.{outbox_room};
ghost use Rattle.dap_wires.specs.WriterMessages.{has_end};

use crate::bundle::Bundle;
use crate::ends::{ReceiveEnd, ReceiveLog, SendEnd};
use crate::writer_message::WriterMessage;
use dbg_runner::GhostList;

/// The end of the session, which puts frames.
#[derive(Drop)]
pub struct FrameSender<R: Drop> {
    pub(crate) end: SendEnd<WriterMessage, R>,
    // The frames that were put and aren't in the queue.
    pub(crate) kept: Option<Bundle>,
    // What was returned as an error.
    pub(crate) refused: GhostList<Vec<u8>>,
    // Whether a frame was refused.
    pub(crate) is_gone: bool,
    ghost puts: { (sender_log end).first ≡ true },
    ghost room: { sender_room end ≡ outbox_room },
    ghost open: { has_end (sender_log end).put_first ≡ false },
    ghost gone: { is_gone ≡ false → refused.entries ≡ [] },
}

/// The end of a session that puts no more frames.
#[derive(Drop)]
pub struct EndedSender<R: Drop> {
    pub(crate) end: SendEnd<WriterMessage, R>,
    // The frames that were put and never came into the queue.
    pub(crate) kept: Option<Bundle>,
    ghost puts: { (sender_log end).first ≡ true },
}

/// The end of the writer, which takes frames.
#[derive(Drop)]
pub struct FrameReceiver<R: Drop> {
    pub(crate) end: ReceiveEnd<WriterMessage, R>,
    ghost takes: { (receiver_log end).takes ≡ true },
    ghost joins: { (receiver_log end).second ≡ true },
    ghost room: { receiver_room end ≡ outbox_room },
}

/// The log of what a writer received from an outbox that it has left.
#[derive(Drop)]
pub struct OutboxLog {
    pub(crate) log: ReceiveLog<WriterMessage>,
    ghost takes: { (receive_log log).takes ≡ true },
    ghost joins: { (receive_log log).second ≡ true },
}
