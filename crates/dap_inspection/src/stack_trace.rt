//! The answer to `stackTrace`.

ghost use Rattle.std.specs.Prelude.{◌≡◌, ◌≢◌, ◌-◌, ◌<◌, ◌≤◌, IfOk, IsOk};
ghost use Rattle.pl0_machine.specs.Machine.{program, frames, frame_of, depth_of};
ghost use Rattle.dbg_plan.specs.Debugged.{machine_of, IsConsidered};
ghost use Rattle.dap_history.specs.Breakpoints.{offset};
ghost use Rattle.dap_history.specs.Frames.{frames_asked};
ghost use Rattle.dap_history.specs.Inspection.{RepliesFrom};
ghost use Rattle.dap_msg.specs.declared.question.Question.TheVariants as question;
ghost use Rattle.dap_inspection.specs.Questions.{counting_of, subject_of};
ghost use Rattle.dap_inspection.specs.Showing.{count_shown, IsShownAs};

use crate::frame_name::frame_name;
use dap_msg::{InitializeArguments, Items, Refusal, Shown, StackFrame, StackTraceArguments, Text};
use dbg_plan::Debuggee;
use pl0_machine::Machine;
use pl0_unit::Unit;
use std::alloc::{AllocError, Global};

/// Answers `stackTrace`: the frames asked for, the top one first.
///
/// # Errors
///
/// An allocation failed.
pub(crate) fn stack_trace(
    alloc: Global,
    debuggee: &Debuggee,
    path: &Text,
    settings: InitializeArguments,
    asked: StackTraceArguments,
) -> Result<Result<Shown, Refusal>, AllocError>
    requires { IsConsidered debuggee.now }
    ensures replies { IfOk result (λ r. RepliesFrom (subject_of debuggee.now path.now settings)
        (frames (machine_of debuggee.now)) (question.StackTrace asked) r) }
    ensures enough { asked.thread_id ≢ 1 → IsOk result }
{
    if asked.thread_id != 1 {
        return Ok(Err(Refusal::UnknownThread));
    }
    let machine = debuggee.machine();
    let path = Text::copied(alloc, path.as_str())?;
    let frames = Items::new(asked_frames(alloc, machine, settings, asked)?);
    let total = machine.depth() as u64;
    Ok(Ok(Shown::StackTrace {
        path,
        frames,
        total,
    }))
}

/// Returns what is shown of the frames asked for, the top one first.
fn asked_frames(
    alloc: Global,
    machine: &Machine,
    settings: InitializeArguments,
    asked: StackTraceArguments,
) -> Result<Vec<StackFrame>, AllocError>
    ensures { IfOk result (λ shown. shown.items ≡ frames_asked (program machine.now) (counting_of settings) asked
        (frames machine.now)) }
{
    let left = count_left(machine.depth(), asked.start_frame);
    let count = count_asked(asked.levels, left);
    let mut shown = Vec::with_capacity(alloc, count)?;
    for index in 0..count {
        shown.push(stack_frame(alloc, machine, settings, left - index)?)?;
    }
    Ok(shown)
}

/// How many of `depth` frames are left without the first `skipped` ones.
fn count_left(depth: usize, skipped: u64) -> usize
    ensures { result ≡ depth - skipped }
{
    // Cut after the minimum, which fits where a `usize` has 32 bits.
    depth - skipped.min(depth as u64) as usize
}

/// How many of the `left` frames are asked for: at most `levels`, or all where that is 0.
fn count_asked(levels: u64, left: usize) -> usize
    ensures { result ≡ count_shown levels left }
{
    if levels == 0 {
        return left;
    }
    levels.min(left as u64) as usize
}

/// Returns what is shown of the frame with this id.
fn stack_frame(
    alloc: Global,
    machine: &Machine,
    settings: InitializeArguments,
    id: usize,
) -> Result<StackFrame, AllocError>
    requires positive { 0 < id }
    requires alive { id ≤ depth_of machine.now }
    ensures { IfOk result (λ shown. IsShownAs (program machine.now) (counting_of settings)
        (frame_of machine.now (id - 1)) id shown) }
{
    let unit: &Unit = machine.unit();
    let view = machine.frame(id - 1);
    let name = frame_name(alloc, unit, view.block)?;
    let place = unit.steps[view.next_step].place;
    Ok(StackFrame {
        id: id as u64,
        name,
        line: counted(place.line, settings.lines_start_at_1),
        column: counted(place.column, settings.columns_start_at_1),
    })
}

/// Converts a line or a column that counts from 1 to how the client counts.
fn counted(number: u32, from_1: bool) -> u64
    ensures { result ≡ number - offset from_1 }
{
    if from_1 {
        u64::from(number)
    } else {
        u64::from(number).saturating_sub(1)
    }
}
