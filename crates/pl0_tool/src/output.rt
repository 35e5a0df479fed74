//! Lines that are written in large blocks.

ghost use Rattle.std.specs.Prelude.{◌≡◌, ◌≢◌, ◌≤◌, ◌++◌, [], true, false, List, ℕ, length, IsTrue, OnOk, IfErr, MatchResult, if◌then◌else◌};
ghost use Rattle.byte_streams.specs.Streams.{Output, WritesAll, FailsIn};
ghost use Rattle.pl0_tool.specs.Pending.{Holds};

use byte_streams::{Sink, WriteFailed, write_all};
use std::io::{self, ErrorKind, IsTerminal, Write};
use std::sync::Wait;

/// An output that notices when nobody reads it any more.
#[derive(Drop)]
pub struct WatchedOutput<O: Write + Drop> {
    inner: O,
    is_closed: bool,
}

impl<O: Write + Drop> WatchedOutput<O> {
    /// An output of which no write has failed yet.
    pub fn new(inner: O) -> WatchedOutput<O>
        ensures inner { result.inner ≡ inner }
        ensures open { result.is_closed ≡ false }
    {
        WatchedOutput {
            inner,
            is_closed: false,
        }
    }

    /// Whether a write failed since nobody reads the output any more.
    pub fn is_closed(&self) -> bool
        ensures { result ≡ self.now.is_closed }
    {
        self.is_closed
    }
}

impl<O: Write + IsTerminal + Drop> IsTerminal for WatchedOutput<O> {
    fn is_terminal(&self) -> bool {
        self.inner.is_terminal()
    }
}

impl<O: Write + Drop> Write for WatchedOutput<O> {
    ghost use Rattle.std.specs.Io.{WritesAtMost};
    ghost use Rattle.std.specs.Io.KnownBytes.{WriteAppends, Keeps};
    ghost use Rattle.std.specs.IoError.{error_kind};
    ghost use Rattle.std.specs.declared.io.ErrorKind.TheVariants as kind;

    ghost contents = { λ watched. O.contents watched.inner };

    fn write(&mut self, bytes: &[u8]) -> io::Result<usize>
        ensures bound { WritesAtMost result bytes.now }
        ensures bytes { WriteAppends (O.contents self.old.inner) (O.contents self.new.inner) result bytes.now }
        ensures taken { OnOk result (self.new.is_closed ≡ self.old.is_closed) }
        ensures unread { IfErr result (λ error. error_kind error ≡ kind.BrokenPipe → self.new.is_closed ≡ true) }
        ensures failed { IfErr result (λ error. error_kind error ≢ kind.BrokenPipe
            → self.new.is_closed ≡ self.old.is_closed) }
    {
        let written = self.inner.write(bytes);
        if let Err(error) = &written {
            self.is_closed |= error.kind() == ErrorKind::BrokenPipe;
        }
        written
    }

    fn flush(&mut self) -> io::Result<()>
        ensures bytes { Keeps (O.contents self.old.inner) (O.contents self.new.inner) }
        ensures same { self.new.is_closed ≡ self.old.is_closed }
    {
        self.inner.flush()
    }
}

/// Adds bytes to those that are still to be written, of which at most `room` are kept; more of them are written.
///
/// # Errors
///
/// `WriteFailed`, where the output failed.
pub fn put<O: Sink>(
    rt: &impl Wait,
    output: &mut O,
    pending: &mut Vec<u8>,
    room: usize,
    bytes: &[u8],
) -> Result<(), WriteFailed>
    ensures held { (before : Output) (text : List ℕ)
        → Holds before (O.output output.old) pending.old.items text
        → MatchResult result
        (λ _. Holds before (O.output output.new) pending.new.items
        (text ++ bytes.now))
        (λ _. FailsIn (text ++ bytes.now) before (O.output output.new)) }
    ensures few { length pending.new.items ≤ room }
{
    if keep(pending, room, bytes) {
        return Ok(());
    }
    flush(rt, output, pending)?;
    write_all(rt, output, bytes)
}

/// Adds bytes to those that are still to be written, and returns whether there was room and memory for them.
fn keep(pending: &mut Vec<u8>, room: usize, bytes: &[u8]) -> bool
    ensures kept { pending.new.items ≡ (if result then pending.old.items ++ bytes.now else pending.old.items) }
    ensures few { IsTrue result → length pending.new.items ≤ room }
{
    if room < pending.len().saturating_add(bytes.len()) {
        return false;
    }
    pending.extend_from_slice(bytes).is_ok()
}

/// Writes what is still to be written. Nothing is still to be written afterwards.
///
/// # Errors
///
/// `WriteFailed`, where the output failed.
pub fn flush<O: Sink>(
    rt: &impl Wait,
    output: &mut O,
    pending: &mut Vec<u8>,
) -> Result<(), WriteFailed>
    ensures empty { pending.new.items ≡ [] }
    ensures flushed { MatchResult result
        (λ _. WritesAll pending.old.items (O.output output.old)
        (O.output output.new))
        (λ _. FailsIn pending.old.items (O.output output.old)
        (O.output output.new)) }
{
    let written = write_all(rt, output, pending.as_slice());
    pending.clear();
    written
}

/// Writes what is still to be written where that is more than `room` bytes.
///
/// # Errors
///
/// `WriteFailed`, where the output failed.
pub fn spill<O: Sink>(
    rt: &impl Wait,
    output: &mut O,
    pending: &mut Vec<u8>,
    room: usize,
) -> Result<(), WriteFailed>
    ensures held { (before : Output) (text : List ℕ)
        → Holds before (O.output output.old) pending.old.items text
        → MatchResult result
        (λ _. Holds before (O.output output.new) pending.new.items text)
        (λ _. FailsIn text before (O.output output.new)) }
    ensures few { length pending.new.items ≤ room }
{
    if pending.len() <= room {
        return Ok(());
    }
    flush(rt, output, pending)
}
