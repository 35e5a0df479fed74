//! Marks of the places where breakpoints are, so that an arrival looks at its own alone.

ghost use Rattle.std.specs.Prelude.{◌<◌, IfOk, map};
ghost use Rattle.debuggee.specs.Plain.{plain_breakpoint};
ghost use Rattle.debuggee.specs.Marks.{AreMarked};

use crate::breakpoint::{Breakpoint, Part};
use std::alloc::{AllocError, Global};

/// How many marks there are. Places whose numbers leave the same remainder share one.
pub const MARKS: usize = 1024;

/// How many bytes of a condition and a message count as a look.
const BYTES_A_LOOK: usize = 64;

/// Where the breakpoints of each mark are. An index that is none of a breakpoint ends them.
#[derive(Drop)]
pub struct Marks {
    /// The first of each mark.
    pub first: [usize; MARKS],
    /// After each, the next of its mark.
    pub next: Vec<usize>,
}

/// Returns the marks of breakpoints.
///
/// # Errors
///
/// An allocation failed.
pub fn marks_of(alloc: Global, breakpoints: &[Breakpoint]) -> Result<Marks, AllocError>
    ensures { IfOk result (λ marks. AreMarked marks.first marks.next.items (map plain_breakpoint breakpoints.now)) }
{
    let count = breakpoints.len();
    let mut first = [count; MARKS];
    let mut next = vec![in alloc; count; count]?;
    let mut index = count;
    while 0 < index {
        index -= 1;
        let mark = breakpoints[index].place % MARKS;
        next[index] = first[mark];
        first[mark] = index;
    }
    Ok(Marks { first, next })
}

/// Returns as how many looks it counts to arrive at a breakpoint. Its condition counts too, and what it says, so that a slice
/// reads and tells no more than some hundred kilobytes, or what one state makes of breakpoints.
pub(crate) fn looks_of(breakpoint: &Breakpoint) -> usize
    ensures { 0 < result }
{
    let asked = match &breakpoint.condition {
        Some(condition) => condition.len(),
        None => 0,
    };
    let told = match &breakpoint.message {
        Some(parts) => bytes_of(parts.as_slice()),
        None => 0,
    };
    1 + asked.saturating_add(told) / BYTES_A_LOOK
}

/// Returns how many bytes the parts of a message have.
fn bytes_of(parts: &[Part]) -> usize {
    let mut bytes: usize = 0;
    for part in parts {
        match part {
            Part::Text(text) | Part::Expression(text) => bytes = bytes.saturating_add(text.len()),
        }
    }
    bytes
}
