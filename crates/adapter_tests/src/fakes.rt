//! Streams and a gate over memory. Their clauses claim no byte that comes or goes: the tests compare them. `progress`
//! has what streams and gate let each other see, from thread to thread, and so what they can wait for.

mod files;
mod progress;
mod streams;

ghost use Rattle.std.specs.Prelude.{◌≡◌, ◌+◌};

pub use files::OneFile;
pub use progress::{Hold, Progress};
use std::process::Abort;
pub use streams::{Cut, Input, Listener, Output, SliceGate, Streams};

/// One more; a count that would pass 2^64 - 1 ends the test.
fn next_count(rt: &impl Abort, count: u64) -> u64
    ensures { result ≡ count + 1 }
{
    count.checked_add(1).expect(rt, "a count")
}
