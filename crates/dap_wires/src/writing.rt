//! The loop that takes frames from an outbox and writes them to an output.

ghost use Rattle.std.specs.Prelude.{◌≡◌, ◌++◌, List};
ghost use Rattle.dap_wires.specs.declared.writer_message.WriterMessage.{WriterMessage};
ghost use Rattle.dap_wires.specs.Outbox.{end_taken, end_queue, end_first};
ghost use Rattle.dap_wires.specs.Writing.{IsWrittenUntil, OwesNothing};

use crate::writer_end::WriterEnd;
use crate::writer_message::WriterMessage;
use byte_streams::{Sink, WriteFailed, write_all};
use std::sync::Wait;

/// The right to write what outboxes give to outputs of one type. Who has this right, and of the output knows no more than
/// its type, can write nothing else to it: each of its bytes comes from an outbox that belongs to it, by a loop that takes
/// the next message only where all that it took is written there.
pub trait Writes<O>: Drop + Sized {
    ghost use Rattle.std.specs.Prelude.{◌≡◌, ◌<◌, ◌++◌, List, MatchResult};
    ghost use Rattle.byte_streams.specs.Streams.{Output, Appends, AppendsPart};
    ghost use Rattle.dap_wires.specs.declared.writer_message.WriterMessage.{WriterMessage};
    ghost use Rattle.dap_wires.specs.Outbox.{end_taken, end_queue, end_first};
    ghost use Rattle.dap_wires.specs.Writing.{IsWrittenUntil, OwesNothing};

    /// What was written to an output.
    ghost output: { O → Output };

    /// Writes as [`write_loop`] does.
    ///
    /// # Errors
    ///
    /// `WriteFailed`, where the output failed. A prefix of the frames that were taken was written.
    fn write_from(&self, sink: &mut O, outbox: &mut WriterEnd<O, Self>) -> Result<(), WriteFailed>
        requires { OwesNothing (end_taken outbox.old) (output (end_first outbox.old)) (output sink.old) }
        ensures written { (taken : List WriterMessage) × (end_taken outbox.new ≡ end_taken outbox.old ++ taken)
            × IsWrittenUntil result taken (output sink.old) (output sink.new) }
        ensures queue { end_queue outbox.new ≡ end_queue outbox.old };

    /// Writes bytes of one's own, as [`write_all`] does.
    ///
    /// # Errors
    ///
    /// `WriteFailed`, where the output failed. A prefix of the bytes was written.
    fn write_bytes(&self, sink: &mut O, bytes: &[u8]) -> Result<(), WriteFailed>
        ensures written { MatchResult result
            (λ _. Appends (output sink.old).written (output sink.new).written bytes.now)
            (λ _. AppendsPart (output sink.old).written (output sink.new).written bytes.now) }
        ensures count { MatchResult result
            (λ _. (output sink.new).failures ≡ (output sink.old).failures)
            (λ _. (output sink.old).failures < (output sink.new).failures) };
}

/// Each sink, by [`write_loop`].
impl<O: Sink, R: Wait + Drop> Writes<O> for R {
    ghost output = { O.output };

    fn write_from(&self, sink: &mut O, outbox: &mut WriterEnd<O, R>) -> Result<(), WriteFailed> {
        write_loop(self, sink, outbox)
    }

    fn write_bytes(&self, sink: &mut O, bytes: &[u8]) -> Result<(), WriteFailed> {
        write_all(self, sink, bytes)
    }
}

/// Takes frames from an outbox and writes each whole before it takes the next, until `WriterMessage::End` comes.
///
/// # Errors
///
/// `WriteFailed`, where the output failed. A prefix of the frames that were taken was written.
pub fn write_loop<O: Sink, R: Wait + Drop>(
    rt: &impl Wait,
    output: &mut O,
    outbox: &mut WriterEnd<O, R>,
) -> Result<(), WriteFailed>
    requires { OwesNothing (end_taken outbox.old) (O.output (end_first outbox.old)) (O.output output.old) }
    ensures written { (taken : List WriterMessage) × (end_taken outbox.new ≡ end_taken outbox.old ++ taken)
        × IsWrittenUntil result taken (O.output output.old) (O.output output.new) }
    ensures queue { end_queue outbox.new ≡ end_queue outbox.old }
{
    for _ in rt.forever() {
        match outbox.receive(output) {
            None => {}
            Some(WriterMessage::End) => return Ok(()),
            Some(WriterMessage::Frames(bundle)) => {
                write_all(rt, output, bundle.bytes.as_slice())?;
            }
        }
    }
    unreachable!()
}
