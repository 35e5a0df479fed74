//! Streams and a gate, each for a thread of its own. A wait that is never met fails the test.

ghost use Rattle.std.specs.Prelude.{◌≡◌, ℕ, [], None};

use crate::fakes::next_count;
use crate::fakes::progress::{Hold, Progress};
use adapter::{ByteLog, EndListener, IoFault, ServeFault, Served, Sink, Source};
use dbg_runner::{Gate, GhostList};
use std::alloc::Global;
use std::process::Abort;

/// A byte that no read passes. The read that begins there waits for something.
#[derive(Clone, Copy)]
pub struct Cut {
    pub at: usize,
    pub hold: Hold,
}

/// How the streams and the gate of a session behave. Each read and write is interrupted once before it does anything.
#[derive(Clone, Copy)]
pub struct Streams<'a> {
    /// The most bytes of a read.
    pub read_step: usize,
    pub cuts: &'a [Cut],
    /// The byte at which reads fail.
    pub read_fails_at: usize,
    /// The most bytes of a write.
    pub write_step: usize,
    /// What each write waits for.
    pub write_hold: Hold,
    /// How many bytes are taken in all. The write after them takes nothing, or fails.
    pub room: usize,
    pub takes_nothing: bool,
    /// What slice 1 of run 1 waits for.
    pub slice_hold: Hold,
}

impl Streams<'_> {
    /// Streams that take and give all, and an open gate.
    pub const WELL: Streams<'static> = Streams {
        read_step: usize::MAX,
        cuts: &[],
        read_fails_at: usize::MAX,
        write_step: usize::MAX,
        write_hold: Hold::Nothing,
        room: usize::MAX,
        takes_nothing: false,
        slice_hold: Hold::Nothing,
    };
}

/// An input of these bytes.
#[derive(Drop)]
pub struct Input<'a, R: Abort> {
    rt: &'a R,
    bytes: &'a [u8],
    streams: Streams<'a>,
    progress: &'a Progress,
    at: usize,
    is_interrupted: bool,
    read: ByteLog<()>,
    ended: bool,
    failures: u64,
}

impl<'a, R: Abort> Input<'a, R> {
    pub fn new(
        rt: &'a R,
        bytes: &'a [u8],
        streams: Streams<'a>,
        progress: &'a Progress,
    ) -> Input<'a, R>
        ensures { result.read.bytes ≡ [] }
    {
        Input {
            rt,
            bytes,
            streams,
            progress,
            at: 0,
            is_interrupted: false,
            read: ByteLog::new(&()),
            ended: false,
            failures: 0,
        }
    }

    /// Returns whether what a read from here on waits for has come.
    fn is_let_through(&self) -> bool {
        for cut in self.streams.cuts {
            if cut.at == self.at && !self.progress.reaches(cut.hold) {
                return false;
            }
        }
        true
    }

    /// Returns how many bytes a read with this much room gives.
    fn count(&self, room: usize) -> usize {
        let mut end = self.bytes.len().min(self.streams.read_fails_at);
        for cut in self.streams.cuts {
            if self.at < cut.at {
                end = end.min(cut.at);
            }
        }
        let left = end.saturating_sub(self.at);
        left.min(self.streams.read_step).min(room)
    }
}

impl<R: Abort> Source for Input<'_, R> {
    ghost supply = { λ s. record {
      read = record { first = None; bytes = s.read.bytes };
      ended = s.ended;
      failures = s.failures;
    } };

    ghost of_whole = { λ _. ∣ (None, tt) ∣₁ };

    fn read(&mut self, room: &mut [u8]) -> Result<usize, IoFault> {
        self.is_interrupted = !self.is_interrupted;
        if self.is_interrupted {
            return Err(IoFault::Interrupted);
        }
        self.progress.note_read();
        if !self.is_let_through() || self.at >= self.streams.read_fails_at {
            self.failures = next_count(self.rt, self.failures);
            return Err(IoFault::Failed);
        }
        let count = self.count(room.len()).min(room.len());
        let rest = self.bytes.get(self.at..).unwrap_or_default();
        for (slot, byte) in room.iter_mut().zip(rest.iter().take(count)) {
            *slot = *byte;
        }
        self.at = self.at.saturating_add(count);
        self.read.note(room.split_at(count).0);
        self.ended |= count == 0 && !room.is_empty();
        Ok(count)
    }
}

/// What stands in the frame of a stop.
const STOPPED: &str = "\"event\":\"stopped\"";

/// An output, which counts what was written.
#[derive(Drop)]
pub struct Output<'a, R: Abort> {
    rt: &'a R,
    pub bytes: Vec<u8>,
    streams: Streams<'a>,
    progress: &'a Progress,
    is_interrupted: bool,
    failures: u64,
}

impl<'a, R: Abort> Output<'a, R> {
    pub fn new(
        rt: &'a R,
        alloc: Global,
        streams: Streams<'a>,
        progress: &'a Progress,
    ) -> Output<'a, R> {
        Output {
            rt,
            bytes: Vec::new(alloc),
            streams,
            progress,
            is_interrupted: false,
            failures: 0,
        }
    }

    /// Returns how many of the bytes that it is given a write takes.
    fn count(&self, length: usize) -> usize {
        if !self.progress.reaches(self.streams.write_hold) {
            return 0;
        }
        let left = self.streams.room.saturating_sub(self.bytes.len());
        length.min(self.streams.write_step).min(left)
    }
}

impl<R: Abort> Sink for Output<'_, R> {
    ghost output = { λ s. record {
      written = record { first = None; bytes = s.bytes.items };
      failures = s.failures;
    } };

    fn write(&mut self, bytes: &[u8]) -> Result<usize, IoFault> {
        self.is_interrupted = !self.is_interrupted;
        if self.is_interrupted {
            return Err(IoFault::Interrupted);
        }
        if bytes.is_empty() {
            return Ok(0);
        }
        let count = self.count(bytes.len()).min(bytes.len());
        if count == 0 || self.bytes.extend_from_slice(&bytes[..count]).is_err() {
            self.progress.note_failed_write();
            self.failures = next_count(self.rt, self.failures);
            return if self.streams.takes_nothing {
                Ok(0)
            } else {
                Err(IoFault::Failed)
            };
        }
        if str::from_utf8(&bytes[..count]).is_ok_and(|text| text.contains(STOPPED)) {
            self.progress.note_stopped();
        }
        self.progress.note_written(self.bytes.len());
        Ok(count)
    }
}

/// A gate that holds slice 1 of run 1. A wait that is never met fails the test.
#[derive(Drop)]
pub struct SliceGate<'a, R: Abort> {
    rt: &'a R,
    hold: Hold,
    progress: &'a Progress,
    passed: GhostList<(u64, u64)>,
}

impl<'a, R: Abort> SliceGate<'a, R> {
    pub fn new(rt: &'a R, streams: Streams<'a>, progress: &'a Progress) -> SliceGate<'a, R> {
        SliceGate {
            rt,
            hold: streams.slice_hold,
            progress,
            passed: GhostList::new(),
        }
    }
}

impl<R: Abort> Gate for SliceGate<'_, R> {
    ghost passed = { λ gate. gate.passed.entries };

    fn pass(&mut self, run: u64, slice: u64) {
        if run == 1 && slice == 1 {
            assert!(self.rt; self.progress.reaches(self.hold), "the first slice");
        }
        self.progress.note_slice();
        self.passed = self.passed.and(&(run, slice));
    }
}

/// A listener that lets others see that it was told.
#[derive(Drop)]
pub struct Listener<'a> {
    progress: &'a Progress,
}

impl<'a> Listener<'a> {
    pub fn new(progress: &'a Progress) -> Listener<'a> {
        Listener { progress }
    }
}

impl EndListener for Listener<'_> {
    ghost use Rattle.std.specs.Prelude.{⊤};

    ghost tells = { λ _ _ _. ⊤ };

    fn tell(&mut self, _outcome: Result<Served, ServeFault>) {
        self.progress.note_told();
    }
}
