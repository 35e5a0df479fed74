//! Running a program.

ghost use Rattle.std.specs.Prelude.{◌≡◌, ◌<◌, ◌≤◌, ◌+◌, ◌⊎◌, ◌++◌, ◌∷◌, [], List, ℕ, None, Some, MatchResult};
ghost use Rattle.std.specs.Fmt.{signed_decimal};
ghost use Rattle.pl0_machine.specs.Machine.{depth_of};
ghost use Rattle.byte_streams.specs.Streams.{Output, WritesAll, FailsIn};
ghost use Rattle.pl0_tool.specs.Pending.{Holds};
ghost use Rattle.pl0_tool.specs.Running.{HasRun, HasRunSlice, IsWithin, RanToNumber, slice_steps};

use crate::output::{flush, put};
use byte_streams::{Sink, WriteFailed};
use itoa::Buffer;
use pl0_machine::{Machine, StepOutcome};
use pl0_meaning::{RunFault, meaning_laws};
use std::alloc::Global;
use std::sync::Wait;

/// How a run ended.
#[derive(Clone, Copy, Debug, PartialEq, Eq)]
pub enum RunEnd {
    /// The main block has returned.
    Ended,
    /// The next step faults.
    Faulted(RunFault),
    /// The next step faults, and the output failed in the last lines before it.
    FaultedUnwritten(RunFault),
    /// The machine stands at the limit, and the run would go on.
    StoppedAt,
    /// The output failed.
    WriteFailed,
}

/// How many steps are taken until what is pending is written, so that a run which is stopped from outside keeps what it
/// wrote before.
const SLICE: u64 = 1 << 16;

/// Runs a machine to the end of its program, to a step that faults, to the position `limit`, or until the output fails,
/// and writes each number on a line of its own. Up to `room` bytes are kept until they are written together, in
/// `pending`, which is empty then; at the end of each slice ([`run_slice`]) none are.
pub fn run_machine<O: Sink>(
    rt: &impl Wait,
    machine: &mut Machine,
    output: &mut O,
    pending: &mut Vec<u8>,
    room: usize,
    limit: u64,
) -> RunEnd
    requires alive { 0 < depth_of machine.old }
    requires nothing_pending { pending.old.items ≡ [] }
    requires within { machine.old.position ≤ limit }
    ensures ran { HasRun result machine.old machine.new (O.output output.old) (O.output output.new) }
    ensures within { IsWithin limit result machine.new }
{
    meaning_laws();
    'slices: for _ in rt.forever() {
        let until = slice_end(machine.position(), limit);
        match run_slice(rt, machine, output, pending, room, until) {
            Some(end) => return end,
            None => {
                if until == limit {
                    return RunEnd::StoppedAt;
                }
            }
        }
    }
    unreachable!()
}

/// Returns where a slice ends that begins at a position, of a run up to a limit.
fn slice_end(position: u64, limit: u64) -> u64
    requires { position ≤ limit }
    ensures behind { position ≤ result }
    ensures within { result ≤ limit }
    ensures few { result ≤ position + slice_steps }
{
    position.saturating_add(SLICE).min(limit)
}

/// Runs a machine as [`run_machine`] does, for a slice of 2^16 steps at most, and returns `None` where the run goes on at
/// the limit. Nothing is pending then.
pub fn run_slice<O: Sink>(
    rt: &impl Wait,
    machine: &mut Machine,
    output: &mut O,
    pending: &mut Vec<u8>,
    room: usize,
    limit: u64,
) -> Option<RunEnd>
    requires alive { 0 < depth_of machine.old }
    requires nothing_pending { pending.old.items ≡ [] }
    requires within { machine.old.position ≤ limit }
    requires few { limit ≤ machine.old.position + slice_steps }
    ensures ran { HasRunSlice limit result machine.old machine.new (O.output output.old) (O.output output.new) }
    ensures empty { result ≡ None → pending.new.items ≡ [] }
{
    meaning_laws();
    'numbers: for _ in rt.forever() {
        match run_to_number(*pending.allocator(), machine, limit) {
            None => return finish(rt, output, pending, None, RunEnd::WriteFailed),
            Some(StepOutcome::Went(None)) => {}
            Some(StepOutcome::Went(Some(number))) => {
                match put_line(rt, output, pending, room, number) {
                    Ok(()) => {}
                    Err(WriteFailed) => return Some(RunEnd::WriteFailed),
                }
            }
            Some(StepOutcome::Done) => {
                let ended = Some(RunEnd::Ended);
                return finish(rt, output, pending, ended, RunEnd::WriteFailed);
            }
            Some(StepOutcome::Fault(fault)) => {
                let faulted = Some(RunEnd::Faulted(fault));
                return finish(
                    rt,
                    output,
                    pending,
                    faulted,
                    RunEnd::FaultedUnwritten(fault),
                );
            }
        }
    }
    unreachable!()
}

/// Runs a machine to the position `limit`, and returns `None`. Or runs it only to a step before that which writes a
/// number, ends the program or faults, and returns what the step did.
pub fn run_to_number(alloc: Global, machine: &mut Machine, limit: u64) -> Option<StepOutcome>
    requires alive { 0 < depth_of machine.old }
    requires within { machine.old.position ≤ limit }
    ensures { RanToNumber limit machine.old result machine.new }
{
    // A run ends at a number for which there is no room.
    let mut none = Vec::new(alloc);
    machine.run(limit, 0, None, &mut [], &mut none)
}

/// Writes what is pending at the end of a slice or of a run, and returns how it ended, which is `end`, or `failed`
/// where the output fails.
fn finish<O: Sink>(
    rt: &impl Wait,
    output: &mut O,
    pending: &mut Vec<u8>,
    end: Option<RunEnd>,
    failed: RunEnd,
) -> Option<RunEnd>
    ensures empty { pending.new.items ≡ [] }
    ensures written { (before : Output) (text : List ℕ)
        → Holds before (O.output output.old) pending.old.items text
        → ((result ≡ end) × WritesAll text before (O.output output.new))
        ⊎ ((result ≡ Some failed) × FailsIn text before (O.output output.new)) }
{
    match flush(rt, output, pending) {
        Ok(()) => end,
        Err(WriteFailed) => Some(failed),
    }
}

/// Writes a number on a line of its own, as [`put`] writes bytes.
///
/// # Errors
///
/// `WriteFailed`, where the output failed.
fn put_line<O: Sink>(
    rt: &impl Wait,
    output: &mut O,
    pending: &mut Vec<u8>,
    room: usize,
    number: i64,
) -> Result<(), WriteFailed>
    ensures { (before : Output) (text : List ℕ)
        → Holds before (O.output output.old) pending.old.items text
        → MatchResult result
        (λ _. Holds before (O.output output.new) pending.new.items
        (text ++ (signed_decimal number ++ (10 ∷ []))))
        (λ _. FailsIn (text ++ (signed_decimal number ++ (10 ∷ []))) before
        (O.output output.new)) }
{
    let mut digits = Buffer::new();
    put(rt, output, pending, room, digits.format(number).as_bytes())?;
    put(rt, output, pending, room, b"\n")
}
