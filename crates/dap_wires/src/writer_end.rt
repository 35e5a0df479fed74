//! The end of an outbox that belongs to one output.

ghost use Rattle.std.specs.Prelude.{◌≡◌, ◌++◌, ◌∷◌, [], IfSome, IfNone};
ghost use Rattle.dap_wires.specs.Outbox.{messages_taken, writer_queue, messages_received, received_queue, end_taken, end_queue, end_first};
ghost use Rattle.dap_wires.specs.Writing.{OwesNothing};

use crate::frame_ends::{FrameReceiver, OutboxLog};
use crate::writer_message::WriterMessage;
use byte_streams::Sink;
use std::snapshot::Snapshot;
use std::sync::Wait;

/// The end of the writer of one output. A message is taken only where the frames of all that were taken before are written
/// there. The type of the output is part of this type, so that a loop over any output has no other to show.
#[derive(Drop)]
pub struct WriterEnd<O, R: Drop> {
    outbox: FrameReceiver<R>,
    // The output as it was when nothing was taken yet.
    first: Snapshot<O>,
}

impl<O, R: Drop> WriterEnd<O, R> {
    /// The end of an outbox of which nothing was taken yet, for this output.
    pub fn new(outbox: FrameReceiver<R>, output: &O) -> WriterEnd<O, R>
        requires { messages_taken outbox ≡ [] }
        ensures taken { end_taken result ≡ [] }
        ensures first { end_first result ≡ output.now }
        ensures queue { end_queue result ≡ writer_queue outbox }
    {
        WriterEnd {
            outbox,
            first: Snapshot::of(output),
        }
    }

    /// Leaves the outbox: from now on a frame that is put is returned as an error.
    pub fn leave(self) -> OutboxLog
        ensures received { messages_received result ≡ end_taken self }
        ensures queue { received_queue result ≡ end_queue self }
    {
        self.outbox.leave()
    }
}

impl<O: Sink, R: Wait + Drop> WriterEnd<O, R> {
    /// Takes the next message. Blocks until there is one. All that was taken before has been written by then, whether the
    /// caller returns or not. Returns `None` where an allocation failed or the session's ends are gone: the caller may try
    /// again.
    pub fn receive(&mut self, output: &O) -> Option<WriterMessage>
        requires { OwesNothing (end_taken self.old) (O.output (end_first self.old)) (O.output output.now) }
        ensures some { IfSome result (λ message. end_taken self.new ≡ end_taken self.old ++ message ∷ []) }
        ensures none { IfNone result (end_taken self.new ≡ end_taken self.old) }
        ensures queue { end_queue self.new ≡ end_queue self.old }
        ensures first { end_first self.new ≡ end_first self.old }
    {
        let _ = output;
        self.outbox.receive()
    }
}
