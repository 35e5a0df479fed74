//! Makes the tables of a plan.

ghost use Rattle.std.specs.Prelude.{◌≡◌, ℕ, ◌+◌, ◌<◌, ◌≤◌, ◌^◌, length, drop, map, IfOk};
ghost use Rattle.std.specs.List.{prefix_len};
ghost use Rattle.std.specs.List.Sorted.{IsNonDecreasingBy};
ghost use Rattle.dbg_plan.specs.Plans.{is_of, those_of};
ghost use Rattle.dbg_plan.specs.Table.{AreCounters, IsPart, has_part};

use crate::breakpoint::Breakpoint;
use crate::comparison::counters_for;
use pl0_machine::Counter;
use pl0_tree::StepNumber;
use std::alloc::{AllocError, Global};

/// Returns where the breakpoints of each step begin in `ordered`, which is in the order of steps, and where the last end.
///
/// # Errors
///
/// Out of memory.
pub fn starts_of(
    alloc: Global,
    ordered: &[Breakpoint],
    steps: usize,
) -> Result<Vec<usize>, AllocError>
    requires ordered { IsNonDecreasingBy (λ b. b.step) ordered.now }
    requires room { steps + 1 < 2 ^ 64 }
    ensures long { IfOk result (λ starts. length starts.items ≡ steps + 1) }
    ensures parts { IfOk result (λ starts. (s : ℕ) → s < steps →
        IsPart ordered.now starts.items s (those_of s ordered.now)) }
{
    let mut starts = Vec::with_capacity(alloc, steps + 1)?;
    let mut start = 0;
    starts.push(start)?;
    for step in 0..steps {
        start = end_of(ordered, start, step);
        starts.push(start)?;
    }
    Ok(starts)
}

/// Returns where the breakpoints of a step end that begin at `start`.
fn end_of(ordered: &[Breakpoint], start: usize, step: StepNumber) -> usize
    requires { start ≤ length ordered.now }
    ensures { result ≡ start + prefix_len (is_of step) (drop start ordered.now) }
{
    start
        + ordered[start..]
            .iter()
            .take_while(|breakpoint| breakpoint.step == step)
            .count()
}

/// Returns for each step the machine's counters of the arrivals at its breakpoints. Those of a step stand in `ordered` from
/// its start up to the next.
///
/// # Errors
///
/// Out of memory, or the count of a condition's shares is full.
pub fn counters_of(
    alloc: Global,
    ordered: &[Breakpoint],
    starts: &[usize],
    steps: usize,
) -> Result<Vec<Vec<Counter>>, AllocError>
    requires long { length starts.now ≡ steps + 1 }
    requires parts { (s : ℕ) → s < steps → IsPart ordered.now starts.now s (those_of s ordered.now) }
    ensures { IfOk result (λ counters. AreCounters ordered.now steps counters.items) }
{
    let mut counters = Vec::with_capacity(alloc, steps)?;
    for step in 0..steps {
        let of_step = counters_for(alloc, &ordered[starts[step]..starts[step + 1]])?;
        counters.push(of_step)?;
    }
    Ok(counters)
}

/// Returns for each address whether the step that begins there has a breakpoint. `begun_steps` says which step that is.
///
/// # Errors
///
/// Out of memory.
pub fn marked_of(
    alloc: Global,
    begun_steps: &[Option<StepNumber>],
    starts: &[usize],
) -> Result<Vec<bool>, AllocError>
    requires { 0 < length starts.now }
    ensures { IfOk result (λ marked. marked.items ≡ map (has_part starts.now) begun_steps.now) }
{
    let mut marked = Vec::with_capacity(alloc, begun_steps.len())?;
    for step in begun_steps {
        marked.push(is_started(starts, *step))?;
    }
    Ok(marked)
}

/// Whether a step has a breakpoint, if there is a step. A step without an entry in `starts` has none.
fn is_started(starts: &[usize], step: Option<StepNumber>) -> bool
    requires { 0 < length starts.now }
    ensures { result ≡ has_part starts.now step }
{
    match step {
        None => false,
        Some(step) => step < starts.len() - 1 && starts[step] < starts[step + 1],
    }
}
