//! Files in memory, which are opened by their names.

use crate::fakes::progress::Progress;
use crate::fakes::streams::{Input, Streams};
use adapter::{FileFault, FileKinds, Opener};
use std::process::Abort;

/// An opener with one file, of this name and these bytes. It counts what it does.
#[derive(Drop)]
pub struct OneFile<'a, R: Abort> {
    rt: &'a R,
    name: &'static str,
    bytes: &'a [u8],
    progress: &'a Progress,
    /// How often the file was opened: of all kinds, and of regular files alone.
    pub opened: (usize, usize),
    /// How often it was closed.
    pub closed: usize,
}

impl<'a, R: Abort> OneFile<'a, R> {
    pub fn new(
        rt: &'a R,
        name: &'static str,
        bytes: &'a [u8],
        progress: &'a Progress,
    ) -> OneFile<'a, R> {
        OneFile {
            rt,
            name,
            bytes,
            progress,
            opened: (0, 0),
            closed: 0,
        }
    }
}

impl<'a, R: Abort> Opener for OneFile<'a, R> {
    ghost use Rattle.std.specs.Prelude.{⊤};

    type File = Input<'a, R>;

    ghost opens = { λ _ _ _ _ _. ⊤ };

    ghost closes = { λ _ _ _. ⊤ };

    fn open(&mut self, kinds: FileKinds, name: &str) -> Result<Input<'a, R>, FileFault> {
        if name != self.name {
            return Err(FileFault::Missing);
        }
        let count = match kinds {
            FileKinds::All => &mut self.opened.0,
            FileKinds::Regular => &mut self.opened.1,
        };
        *count = count.saturating_add(1);
        Ok(Input::new(self.rt, self.bytes, Streams::WELL, self.progress))
    }

    fn close(&mut self, _file: Input<'a, R>) {
        self.closed = self.closed.saturating_add(1);
    }
}
