//! Sources and sinks of bytes, and one of each over std's `Read` and `Write`.
ghost use Rattle.std.specs.Prelude.{◌≡◌, ◌≢◌, ◌⊎◌, ◌+◌, [], Some, false};
ghost use Rattle.std.specs.Io.KnownBytes.{Appends as AppendsKnown};
ghost use Rattle.byte_streams.specs.Streams.{HasGiven};
ghost use Rattle.std.proofs.Math.Logic.{∥∥₁_map};

use crate::byte_log::ByteLog;
use crate::counting::next_count;
use std::io::{self, ErrorKind, Read, Write};
use std::sync::Wait;
use std::thread;
use std::time::{Clock, Duration};

/// How long a stream that would block is left alone before it is tried again, in milliseconds.
const RETRY_PAUSE: u64 = 1;

/// Why a read or a write did nothing.
#[derive(Clone, Copy)]
pub enum IoFault {
    /// It failed. The source or the sink counts this.
    Failed,
    /// It was interrupted, or would have had to wait, before anything happened. It may be tried again.
    Interrupted,
}

/// Where bytes come from.
pub trait Source {
    ghost use Rattle.std.specs.Prelude.{◌≡◌, ◌<◌, ◌≤◌, ◌⊎◌, length, Err, IfOk, OnOk, OnErr};
    ghost use Rattle.byte_streams.specs.Streams.{Supply, ReadGives, IsOfWhole};
    ghost use Rattle.byte_streams.specs.declared.streams.IoFault.TheVariants.{Failed, Interrupted};

    /// What its reads gave so far, whether one of them found the end, and how many failed.
    ghost supply: { Self → Supply };

    /// Reads some bytes into the front of `room`, and returns how many. It returns 0 only at the end, or where `room` is
    /// empty.
    ///
    /// # Errors
    ///
    /// `Failed` and `Interrupted`: no byte was read.
    fn read(&mut self, room: &mut [u8]) -> Result<usize, IoFault>
        ensures within { IfOk result (λ n. n ≤ length room.old) }
        ensures bytes { ReadGives (supply self.old) (supply self.new) result room.new }
        ensures goes_on { IfOk result (λ n. (0 < n) ⊎ (length room.old ≡ 0)
            → (supply self.new).ended ≡ (supply self.old).ended) }
        ensures stays { OnErr result ((supply self.new).ended ≡ (supply self.old).ended) }
        ensures kept { OnOk result ((supply self.new).failures ≡ (supply self.old).failures) }
        ensures failed { result ≡ Err Failed → (supply self.old).failures < (supply self.new).failures }
        ensures interrupted { result ≡ Err Interrupted → (supply self.new).failures ≡ (supply self.old).failures };

    /// Its reads gave no other bytes than those that it had, in order, where these are known.
    ghost of_whole: { (s : Self) → ∥ IsOfWhole (supply s) ∥₁ };
}

/// A source that may be read only at some times. Each [`Source`] is one that may be read at any time. A function over this
/// trait reads only where its contract says that it may: so it can't read again while what it has isn't handed on.
pub trait GuardedSource {
    ghost use Rattle.std.specs.Prelude.{◌≡◌, ◌<◌, ◌≤◌, ◌⊎◌, length, Err, IfOk, OnOk, OnErr};
    ghost use Rattle.byte_streams.specs.Streams.{Supply, ReadGives, IsOfWhole};
    ghost use Rattle.byte_streams.specs.declared.streams.IoFault.TheVariants.{Failed, Interrupted};

    /// As [`Source`] says.
    ghost supply: { Self → Supply };

    /// When it may be read.
    ghost may_read: { Self → Type 0 };

    /// Reads as [`Source::read`] does.
    ///
    /// # Errors
    ///
    /// `Failed` and `Interrupted`: no byte was read.
    fn read(&mut self, room: &mut [u8]) -> Result<usize, IoFault>
        requires { may_read self.old }
        ensures within { IfOk result (λ n. n ≤ length room.old) }
        ensures bytes { ReadGives (supply self.old) (supply self.new) result room.new }
        ensures goes_on { IfOk result (λ n. (0 < n) ⊎ (length room.old ≡ 0)
            → (supply self.new).ended ≡ (supply self.old).ended) }
        ensures stays { OnErr result ((supply self.new).ended ≡ (supply self.old).ended) }
        ensures kept { OnOk result ((supply self.new).failures ≡ (supply self.old).failures) }
        ensures failed { result ≡ Err Failed → (supply self.old).failures < (supply self.new).failures }
        ensures interrupted { result ≡ Err Interrupted → (supply self.new).failures ≡ (supply self.old).failures };

    /// As [`Source`] says.
    ghost of_whole: { (s : Self) → ∥ IsOfWhole (supply s) ∥₁ };
}

impl<S: Source> GuardedSource for S {
    ghost supply = { S.supply };

    ghost may_read = { λ _. Unit {0} };

    ghost of_whole = { S.of_whole };

    fn read(&mut self, room: &mut [u8]) -> Result<usize, IoFault> {
        Source::read(self, room)
    }
}

/// Where bytes go.
pub trait Sink {
    ghost use Rattle.std.specs.Prelude.{◌≡◌, ◌<◌, ◌≤◌, length, Ok, Err, IfOk};
    ghost use Rattle.byte_streams.specs.Streams.{Output, WriteTakes};
    ghost use Rattle.byte_streams.specs.declared.streams.IoFault.TheVariants.{Failed, Interrupted};

    /// What its writes took so far, and how many failed. A write that takes none of one or more bytes is one of them.
    ghost output: { Self → Output };

    /// Writes a prefix of `bytes`, and returns its length.
    ///
    /// # Errors
    ///
    /// `Failed` and `Interrupted`: no byte was written.
    fn write(&mut self, bytes: &[u8]) -> Result<usize, IoFault>
        ensures within { IfOk result (λ n. n ≤ length bytes.now) }
        ensures bytes { WriteTakes (output self.old) (output self.new) result bytes.now }
        ensures kept { IfOk result (λ n. 0 < n → (output self.new).failures ≡ (output self.old).failures) }
        ensures nothing { result ≡ Ok 0 → 0 < length bytes.now
            → (output self.old).failures < (output self.new).failures }
        ensures empty { IfOk result (λ n. length bytes.now ≡ 0
            → (output self.new).failures ≡ (output self.old).failures) }
        ensures failed { result ≡ Err Failed → (output self.old).failures < (output self.new).failures }
        ensures interrupted { result ≡ Err Interrupted → (output self.new).failures ≡ (output self.old).failures };
}

/// A source over std's `Read`. Where that doesn't block and has nothing to read, a read takes a pause and then says that it
/// was interrupted. It blocks forever where one more failure can't be counted in 64 bits.
#[derive(Drop)]
pub struct Reading<'a, R: Wait, I: Read + Drop> {
    rt: &'a R,
    inner: I,
    given: ByteLog<I>,
    ended: bool,
    failures: u64,
    ghost gives: { ∥ HasGiven (I.remaining given.first) (I.remaining inner) given.bytes ended ∥₁ },
}

impl<'a, R: Wait, I: Read + Drop> Reading<'a, R, I> {
    /// A source of which no read has given a byte, found the end or failed yet.
    pub fn new(rt: &'a R, inner: I) -> Reading<'a, R, I>
        ensures inner { result.inner ≡ inner }
        ensures first { result.given.first ≡ inner }
        ensures given { result.given.bytes ≡ [] }
        ensures ended { result.ended ≡ false }
        ensures failures { result.failures ≡ 0 }
    {
        let given = ByteLog::new(&inner);
        Reading {
            rt,
            inner,
            given,
            ended: false,
            failures: 0,
        }
    }
}

impl<R: Wait + Clock, I: Read + Drop> Source for Reading<'_, R, I> {
    ghost supply = { λ s. record {
      read = record { first = I.remaining s.given.first; bytes = s.given.bytes };
      ended = s.ended;
      failures = s.failures;
    } };

    ghost of_whole = { λ s. ∥∥₁_map s.gives (λ gives. (I.remaining s.inner, gives)) };

    fn read(&mut self, room: &mut [u8]) -> Result<usize, IoFault> {
        match self.inner.read(room) {
            Ok(0) if !room.is_empty() => {
                self.ended = true;
                Ok(0)
            }
            Ok(count) => {
                self.given.note(room.split_at(count).0);
                Ok(count)
            }
            Err(error) => {
                let fault = io_fault(self.rt, &error);
                self.failures = counted(self.rt, fault, self.failures);
                Err(fault)
            }
        }
    }
}

/// A sink over std's `Write`. It doesn't flush: standard output has no buffer of its own here. Where that doesn't block and
/// has no room, a write takes a pause and then says that it was interrupted. It blocks forever where one more failure can't
/// be counted in 64 bits.
#[derive(Drop)]
pub struct Writing<'a, R: Wait, O: Write + Drop> {
    rt: &'a R,
    inner: O,
    taken: ByteLog<O>,
    failures: u64,
    ghost takes: { ∥ AppendsKnown (O.contents taken.first) (O.contents inner) taken.bytes ∥₁ },
}

impl<'a, R: Wait, O: Write + Drop> Writing<'a, R, O> {
    /// A sink of which no write has taken a byte or failed yet.
    pub fn new(rt: &'a R, inner: O) -> Writing<'a, R, O>
        ensures inner { result.inner ≡ inner }
        ensures first { result.taken.first ≡ inner }
        ensures taken { result.taken.bytes ≡ [] }
        ensures failures { result.failures ≡ 0 }
    {
        let taken = ByteLog::new(&inner);
        Writing {
            rt,
            inner,
            taken,
            failures: 0,
        }
    }

    /// Returns what it writes to. Behind what that held at first are the bytes that writes took, where it tells.
    pub fn inner(&self) -> &O
        ensures inner { result.now ≡ self.now.inner }
        ensures contents { ∥ AppendsKnown (O.contents self.now.taken.first) (O.contents result.now)
            self.now.taken.bytes ∥₁ }
    {
        &self.inner
    }
}

impl<R: Wait + Clock, O: Write + Drop> Sink for Writing<'_, R, O> {
    ghost output = { λ s. record {
      written = record { first = O.contents s.taken.first; bytes = s.taken.bytes };
      failures = s.failures;
    } };

    fn write(&mut self, bytes: &[u8]) -> Result<usize, IoFault> {
        match self.inner.write(bytes) {
            Ok(0) if !bytes.is_empty() => {
                self.failures = next_count(self.rt, self.failures);
                Err(IoFault::Failed)
            }
            Ok(count) => {
                self.taken.note(bytes.split_at(count).0);
                Ok(count)
            }
            Err(error) => {
                let fault = io_fault(self.rt, &error);
                self.failures = counted(self.rt, fault, self.failures);
                Err(fault)
            }
        }
    }
}

ghost use Rattle.std.specs.IoError.{error_kind};
ghost use Rattle.std.specs.declared.io.ErrorKind.TheVariants as kind;
ghost use Rattle.byte_streams.specs.declared.streams.IoFault.TheVariants.{Failed, Interrupted};

/// Returns `Interrupted` for an error of that kind, and, after a pause, for one that says that the call would block. Returns
/// `Failed` for all others.
fn io_fault(clock: &impl Clock, error: &io::Error) -> IoFault
    ensures interrupted { result ≡ Interrupted
        → (error_kind error.now ≡ kind.Interrupted) ⊎ (error_kind error.now ≡ kind.WouldBlock) }
    ensures failed { result ≡ Failed
        → (error_kind error.now ≢ kind.Interrupted) × (error_kind error.now ≢ kind.WouldBlock) }
{
    match error.kind() {
        ErrorKind::Interrupted => IoFault::Interrupted,
        ErrorKind::WouldBlock => {
            thread::sleep(clock, Duration::from_millis(RETRY_PAUSE));
            IoFault::Interrupted
        }
        _ => IoFault::Failed,
    }
}

/// Returns the count of failures after this fault: one more after `Failed`, and the same after `Interrupted`. Blocks
/// forever where one more doesn't fit 64 bits.
fn counted(rt: &impl Wait, fault: IoFault, failures: u64) -> u64
    ensures failed { fault ≡ Failed → result ≡ failures + 1 }
    ensures interrupted { fault ≡ Interrupted → result ≡ failures }
{
    match fault {
        IoFault::Failed => next_count(rt, failures),
        IoFault::Interrupted => failures,
    }
}
