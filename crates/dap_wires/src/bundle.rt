//! Frames that are written together.

ghost use Rattle.std.specs.Prelude.{◌≡◌, map};
ghost use Rattle.std.specs.List.{concat};

use dbg_runner::GhostList;

/// Frames that are written together, one after another.
#[derive(Drop)]
pub struct Bundle {
    pub(crate) bytes: Vec<u8>,
    // How many frames they are.
    pub(crate) count: usize,
    // The frames.
    pub(crate) frames: GhostList<Vec<u8>>,
    ghost joined: { concat (map (λ frame. frame.items) frames.entries) ≡ bytes.items },
}
