//! The messages in the queue of an outbox.

use crate::bundle::Bundle;
use crate::rule::Sent;

/// A message to a writer.
#[derive(Drop)]
pub enum WriterMessage {
    /// The next frames.
    Frames(Bundle),
    /// No frame comes after this.
    End,
}

/// The session sends all of them, as the first sender.
impl Sent for WriterMessage {
    ghost use Rattle.std.specs.Prelude.{false};

    ghost by_second = { λ _. false };
}
