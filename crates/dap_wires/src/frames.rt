//! The outbox of a session: a queue of the frames that go to a writer.

ghost use Rattle.std.specs.Prelude.{◌≡◌, ◌≢◌, ◌⊎◌, ◌++◌, ◌∷◌, [], true, false, ℕ, None, IfOk, IfSome, IfNone, IsTrue, IsFalse};
ghost use Rattle.dap_session.specs.Sending.{IsPrefixOf};
ghost use Rattle.dap_wires.specs.Outbox.{put_frames, keeps_none, frame_queue, messages_put, ended_queue, messages_taken, writer_queue, messages_received, received_queue, with_frame};
ghost use Rattle.dap_wires.specs.WriterMessages.{frames_in, has_end, AreEnded};

use crate::bundle::Bundle;
use crate::channels::{channel_of_one, reconcile_one};
use crate::frame_ends::{EndedSender, FrameReceiver, FrameSender, OutboxLog};
use crate::writer_message::WriterMessage;
use dap_session::Out;
use dbg_runner::GhostList;
use std::alloc::{AllocError, Global};
use std::mem;
use std::sync::Wait;

/// How many messages the queue of an outbox has room for.
const OUTBOX_CAPACITY: usize = 64;

/// Makes an outbox. Returns the ends of the session and of the writer.
///
/// # Errors
///
/// `AllocError`, where an allocation failed.
pub fn outbox<R: Copy + Drop>(
    rt: R,
    alloc: Global,
) -> Result<(FrameSender<R>, FrameReceiver<R>), AllocError>
    ensures frames { IfOk result (λ r. put_frames r.0 ≡ record { frames = []; refused = [] }) }
    ensures none_kept { IfOk result (λ r. keeps_none r.0) }
    ensures messages { IfOk result (λ r. messages_taken r.1 ≡ []) }
    ensures one { IfOk result (λ r. writer_queue r.1 ≡ frame_queue r.0) }
{
    let (frames, messages) = channel_of_one(rt, alloc, OUTBOX_CAPACITY)?;
    Ok((
        FrameSender {
            end: frames,
            kept: None,
            refused: GhostList::new(),
            is_gone: false,
        },
        FrameReceiver { end: messages },
    ))
}

/// Brings the logs of both ends together, when both threads were joined, and proves that the messages that the writer
/// received are a prefix of those that the session put.
pub fn reconcile_outbox<R: Drop>(frames: EndedSender<R>, log: OutboxLog)
    requires { received_queue log ≡ ended_queue frames }
    ensures taken { IsPrefixOf (messages_received log) (messages_put frames) }
{
    reconcile_one(frames.end, log.log);
}

impl<R: Wait + Drop> FrameSender<R> {
    /// Puts `WriterMessage::End` after all frames, unless a frame was refused. So where `End` was put, every frame was put
    /// before it.
    pub fn finish(mut self) -> EndedSender<R>
        ensures put { (has_end (messages_put result) ≡ false) ⊎ AreEnded (messages_put result) }
        ensures refused { (put_frames self).refused ≢ [] → has_end (messages_put result) ≡ false }
        ensures frames { frames_in (messages_put result) ≡ (put_frames self).frames }
        ensures queue { ended_queue result ≡ frame_queue self }
    {
        self.send_kept();
        self.end()
    }

    /// Puts `WriterMessage::End` after all frames, unless a frame was refused. None is kept, unless one was refused.
    fn end(self) -> EndedSender<R>
        requires { self.is_gone ≡ false → self.kept ≡ None }
        ensures put { (has_end (messages_put result) ≡ false) ⊎ AreEnded (messages_put result) }
        ensures refused { (put_frames self).refused ≢ [] → has_end (messages_put result) ≡ false }
        ensures frames { frames_in (messages_put result) ≡ (put_frames self).frames }
        ensures queue { ended_queue result ≡ frame_queue self }
    {
        let FrameSender {
            mut end,
            kept,
            is_gone,
            ..
        } = self;
        if is_gone {
            return EndedSender { end, kept };
        }
        let _ = end.send(WriterMessage::End);
        EndedSender { end, kept }
    }

    /// Puts the frames that are kept into the queue. Where the writer has left it, they stay, and is_gone says so.
    fn send_kept(&mut self)
        ensures seen { put_frames self.new ≡ put_frames self.old }
        ensures none { self.new.is_gone ≡ false → self.new.kept ≡ None }
        ensures queue { frame_queue self.new ≡ frame_queue self.old }
    {
        let Some(bundle) = mem::replace(&mut self.kept, None) else {
            return;
        };
        match self.end.send(WriterMessage::Frames(bundle)) {
            Ok(()) => {}
            Err(WriterMessage::Frames(back)) => {
                self.kept = Some(back);
                self.is_gone = true;
            }
            Err(WriterMessage::End) => unreachable!(),
        }
    }

    /// Adds a frame to those that are kept, if some are, there is room, and the writer is there. Returns whether it did.
    fn add(&mut self, frame: &Vec<u8>) -> bool
        ensures added { IsTrue result → put_frames self.new ≡ with_frame (put_frames self.old) frame.now.items }
        ensures full { IsFalse result → put_frames self.new ≡ put_frames self.old }
        ensures queue { frame_queue self.new ≡ frame_queue self.old }
    {
        match &mut self.kept {
            Some(bundle) if !self.is_gone => bundle.add(frame),
            _ => false,
        }
    }

    /// Notes that a frame is refused, as the writer has left the queue.
    fn refuse(&mut self, frame: &Vec<u8>)
        ensures frames { (put_frames self.new).frames ≡ (put_frames self.old).frames }
        ensures refused { (put_frames self.new).refused ≡ (put_frames self.old).refused ++ frame.now.items ∷ [] }
        ensures queue { frame_queue self.new ≡ frame_queue self.old }
    {
        self.is_gone = true;
        self.refused = self.refused.and(frame);
    }
}

impl<R: Wait + Drop> Out for FrameSender<R> {
    ghost use Rattle.dap_wires.specs.declared.writer_message.WriterMessage.{WriterMessage};
    ghost use Rattle.dap_wires.specs.Ends.{QueueId};
    ghost use Rattle.dap_wires.specs.Outbox.{put_frames, keeps_none, frame_queue};

    ghost seen = { put_frames };

    ghost keeps_none = { keeps_none };

    ghost Origin = { QueueId WriterMessage };

    ghost origin = { frame_queue };

    fn put(&mut self, frame: Vec<u8>) -> Result<(), Vec<u8>> {
        if self.add(&frame) {
            return Ok(());
        }
        self.send_kept();
        if self.is_gone {
            self.refuse(&frame);
            return Err(frame);
        }
        self.kept = Some(Bundle::of(frame));
        Ok(())
    }

    // The last frame goes by itself, so that it can be handed back.
    fn put_last(&mut self, frame: Vec<u8>) -> Result<(), Vec<u8>> {
        self.send_kept();
        if self.is_gone {
            self.refuse(&frame);
            return Err(frame);
        }
        match self.end.send(WriterMessage::Frames(Bundle::of(frame))) {
            Ok(()) => Ok(()),
            Err(WriterMessage::Frames(back)) => {
                self.refuse(&back.bytes);
                Err(back.bytes)
            }
            Err(WriterMessage::End) => unreachable!(),
        }
    }
}

impl<R: Wait + Drop> FrameReceiver<R> {
    /// Takes the next message. Blocks until there is one. Returns `None` where an allocation failed or the session's ends
    /// are gone: the caller may try again.
    pub(crate) fn receive(&mut self) -> Option<WriterMessage>
        ensures some { IfSome result (λ message. messages_taken self.new ≡ messages_taken self.old ++ message ∷ []) }
        ensures none { IfNone result (messages_taken self.new ≡ messages_taken self.old) }
        ensures queue { writer_queue self.new ≡ writer_queue self.old }
    {
        self.end.receive()
    }
}

impl<R: Drop> FrameReceiver<R> {
    /// Leaves the outbox: from now on a frame that is put is returned as an error.
    pub fn leave(self) -> OutboxLog
        ensures received { messages_received result ≡ messages_taken self }
        ensures queue { received_queue result ≡ writer_queue self }
    {
        OutboxLog {
            log: self.end.leave(),
        }
    }
}
