//! What the streams and the gate of a session let each other see.

use std::sync::atomic::{AtomicBool, AtomicUsize, Ordering};
use std::thread;

/// The number of polls before a wait gives up.
const TURNS: u32 = 1_000_000;

/// The number of polls without a further slice after which none is expected.
const QUIET_TURNS: u32 = 20_000;

/// What a wait is for.
#[derive(Clone, Copy)]
pub enum Hold {
    Nothing,
    /// So many bytes were written, or the output failed.
    Written(usize),
    /// So many reads were begun.
    Read(usize),
    /// So many slices passed the gate.
    Passed(usize),
    /// No further slice passes the gate.
    Settled,
    /// A stop was written.
    Stopped,
    /// The listener was told how the session ended.
    Told,
}

/// How far a session is.
#[derive(Drop)]
pub struct Progress {
    written: AtomicUsize,
    reads: AtomicUsize,
    slices: AtomicUsize,
    is_stopped: AtomicBool,
    is_told: AtomicBool,
    has_missed: AtomicBool,
}

impl Progress {
    pub fn new() -> Progress {
        Progress {
            written: AtomicUsize::new(0),
            reads: AtomicUsize::new(0),
            slices: AtomicUsize::new(0),
            is_stopped: AtomicBool::new(false),
            is_told: AtomicBool::new(false),
            has_missed: AtomicBool::new(false),
        }
    }

    /// Notes that this many bytes are written now.
    pub fn note_written(&self, count: usize) {
        self.written.store(count, Ordering::SeqCst);
    }

    /// Notes that the output failed: nothing waits for it any more.
    pub fn note_failed_write(&self) {
        self.written.store(usize::MAX, Ordering::SeqCst);
    }

    pub fn note_read(&self) {
        self.reads.fetch_add(1, Ordering::SeqCst);
    }

    pub fn note_slice(&self) {
        self.slices.fetch_add(1, Ordering::SeqCst);
    }

    pub fn note_stopped(&self) {
        self.is_stopped.store(true, Ordering::SeqCst);
    }

    pub fn note_told(&self) {
        self.is_told.store(true, Ordering::SeqCst);
    }

    /// Whether anybody waited in vain.
    pub fn has_missed(&self) -> bool {
        self.has_missed.load(Ordering::SeqCst)
    }

    /// How many slices passed the gate.
    pub fn slices(&self) -> usize {
        self.slices.load(Ordering::SeqCst)
    }

    /// Waits for this, for a million polls at most, and returns whether it came.
    pub fn reaches(&self, hold: Hold) -> bool {
        if matches!(hold, Hold::Settled) {
            self.settle();
            return true;
        }
        for _ in 0..TURNS {
            if self.has(hold) {
                return true;
            }
            thread::yield_now();
        }
        self.has_missed.store(true, Ordering::SeqCst);
        false
    }

    /// Waits until no further slice passes the gate, for a million turns at most.
    fn settle(&self) {
        let mut seen = self.slices();
        let mut quiet: u32 = 0;
        for _ in 0..TURNS {
            thread::yield_now();
            let now = self.slices();
            quiet = if now == seen {
                quiet.saturating_add(1)
            } else {
                0
            };
            if quiet == QUIET_TURNS {
                return;
            }
            seen = now;
        }
    }

    fn has(&self, hold: Hold) -> bool {
        match hold {
            Hold::Nothing => true,
            Hold::Written(least) => self.written.load(Ordering::SeqCst) >= least,
            Hold::Read(least) => self.reads.load(Ordering::SeqCst) >= least,
            Hold::Passed(least) => self.slices() >= least,
            Hold::Settled => true,
            Hold::Stopped => self.is_stopped.load(Ordering::SeqCst),
            Hold::Told => self.is_told.load(Ordering::SeqCst),
        }
    }
}
