//! Bundles: one frame, and one more.

ghost use Rattle.std.specs.Prelude.{◌≡◌, [], ◌∷◌, ◌++◌, IsTrue, IsFalse};
ghost use Rattle.dap_wires.specs.WriterMessages.{bundled};

use crate::bundle::Bundle;
use dbg_runner::GhostList;

/// How many bytes of frames are written together at most, unless one frame has more.
const BUNDLE_LIMIT: usize = 16_384;

/// How many frames are written together at most. A client that reads slowly waits for all frames in the outbox and in the
/// writer's hand before it gets the answer to a request: (64 + 1) * 7 = 455, fewer than 512.
const BUNDLE_FRAMES: usize = 7;

impl Bundle {
    /// Holds one frame.
    pub(crate) fn of(frame: Vec<u8>) -> Bundle
        ensures frames { bundled result ≡ frame.items ∷ [] }
        ensures bytes { result.bytes.items ≡ frame.items }
    {
        let frames = GhostList::new().and(&frame);
        Bundle {
            bytes: frame,
            count: 1,
            frames,
        }
    }

    /// Adds a frame, if there is room for it. Returns whether there was.
    pub(crate) fn add(&mut self, frame: &Vec<u8>) -> bool
        ensures added { IsTrue result → bundled self.new ≡ bundled self.old ++ frame.now.items ∷ [] }
        ensures full { IsFalse result → bundled self.new ≡ bundled self.old }
    {
        let has_room = frame.len() <= BUNDLE_LIMIT.saturating_sub(self.bytes.len());
        if !has_room || BUNDLE_FRAMES <= self.count {
            return false;
        }
        match self.bytes.extend_from_slice(frame.as_slice()) {
            Ok(()) => {
                self.count = self.count.saturating_add(1);
                self.frames = self.frames.and(frame);
                true
            }
            Err(_) => false,
        }
    }
}
