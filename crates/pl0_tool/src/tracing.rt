//! Telling a run position by position.

ghost use Rattle.std.specs.Prelude.{◌≡◌, ◌<◌, ◌≤◌, ◌⊎◌, ℕ, length, IfOk, MatchOption, MatchResult};
ghost use Rattle.pl0_machine.specs.Machine.{program, frame_of, depth_of, variables_of, outcome_of, Stepped};
ghost use Rattle.pl0_tool.specs.Traced.{HasPart, HasTraced, PutsRow, StopsBefore};
ghost use Rattle.pl0_tool.specs.Tracing.{IsFrameRow, AreFrameRows, IsRow, at_position, numbers_in};

use crate::drawing::{Drawing, draw_if};
use crate::instructions::{begin_if, finish};
use crate::output::spill;
use crate::running::run_to_number;
use crate::table::put_row;
use byte_streams::{Sink, WriteFailed};
use pl0_machine::{Machine, StepOutcome};
use pl0_meaning::RunFault;
use pl0_syntax::block;
use pl0_tree::{Place, StepKind};
use pl0_unit::Unit;
use std::alloc::{AllocError, Global};
use std::sync::Wait;

/// How many frames are told of a position, a fault or a stop: the newest ones.
pub const TOLD_FRAMES: usize = 16;

/// A frame at some position: its block, by its number, and the numbers in its variables, in the order of declaration.
#[derive(Drop)]
pub struct FrameRow {
    pub block: u32,
    pub numbers: Vec<i64>,
}

/// What is told of a position besides its step and frames.
#[derive(Clone, Copy, Debug, PartialEq, Eq)]
pub struct View {
    /// The machine's registers, and the first cells of its frames.
    pub machine: bool,
    /// The instructions of the step, each with the operands on the stack.
    pub instructions: bool,
}

/// What is told of a position: the step that comes next, the frames before it is taken, and what it does.
#[derive(Drop)]
pub struct Row {
    pub position: u64,
    pub kind: StepKind,
    pub place: Place,
    /// How many of the oldest frames are left out.
    pub hidden: usize,
    /// The other frames, the newest last.
    pub frames: Vec<FrameRow>,
    /// The machine before the step, with the heads of those frames, where it is drawn.
    pub drawing: Option<Drawing>,
    pub outcome: StepOutcome,
    /// The lines of the step's instructions, where they are told.
    pub instructions: Vec<u8>,
}

/// How a trace ended.
#[derive(Clone, Copy, Debug, PartialEq, Eq)]
pub enum TraceEnd {
    /// As many positions were told as were asked for, and the run goes on at the next one.
    GoesOn,
    /// The run ended with the last position that was told.
    Ended,
    /// The run ended before the first position that was asked for.
    EndedBefore,
    /// The step of the last position that was told faults, or one before the first position that was asked for.
    Faulted(RunFault),
    /// The output failed.
    WriteFailed,
}

/// Tells up to `count` positions of a run, from `from` on, in order, in a table of which `page` has the head. There
/// are fewer only where the run ends or faults. Each has a row, which begins with the position; what it tells,
/// [`next_row`] says, and how that is written is tested. Where more than `room` bytes of the table are pending in `page`
/// after a position, they are written. The machine goes to `from` without telling anything, and then stands at the end,
/// at the step that faults, or behind what was told.
///
/// # Errors
///
/// `AllocError`, where an allocation failed.
pub fn trace<O: Sink>(
    rt: &impl Wait,
    alloc: Global,
    machine: &mut Machine,
    from: u64,
    count: usize,
    view: View,
    output: &mut O,
    page: &mut Vec<u8>,
    room: usize,
) -> Result<TraceEnd, AllocError>
    requires alive { 0 < depth_of machine.old }
    requires within { machine.old.position ≤ from }
    ensures told { MatchResult result
        (λ end. HasTraced end machine.old from count machine.new page.old.items
        (O.output output.old) (O.output output.new) page.new.items)
        (λ _. HasPart page.old.items from count
        (O.output output.old) (O.output output.new)) }
    ensures few { IfOk result (λ _. (length page.new.items ≤ room) ⊎ (page.new.items ≡ page.old.items)) }
{
    if let Some(end) = go_to(rt, alloc, machine, from) {
        return Ok(end);
    }
    for index in 0..count {
        match tell_row(rt, alloc, machine, view, output, page, room) {
            Ok(None) => return Ok(TraceEnd::WriteFailed),
            Ok(Some(StepOutcome::Went(_))) => {}
            Ok(Some(StepOutcome::Done)) => return Ok(TraceEnd::Ended),
            Ok(Some(StepOutcome::Fault(fault))) => return Ok(TraceEnd::Faulted(fault)),
            Err(AllocError) => return Err(AllocError),
        }
    }
    Ok(TraceEnd::GoesOn)
}

/// Tells the position of a machine, in a row behind what is pending in `page`, and takes its step. Where more than
/// `room` bytes are pending then, they are written. Returns what the step did, or `None` where the output failed.
fn tell_row<O: Sink>(
    rt: &impl Wait,
    alloc: Global,
    machine: &mut Machine,
    view: View,
    output: &mut O,
    page: &mut Vec<u8>,
    room: usize,
) -> Result<Option<StepOutcome>, AllocError>
    requires { 0 < depth_of machine.old }
    ensures told { MatchResult result
        (λ told. PutsRow told machine.old machine.new page.old.items page.new.items
        (O.output output.old) (O.output output.new))
        (λ _. O.output output.new ≡ O.output output.old) }
    ensures few { IfOk result (λ _. length page.new.items ≤ room) }
{
    let row = next_row(alloc, machine, view)?;
    let unit: &Unit = machine.unit();
    put_row(alloc, page, unit, &row)?;
    match spill(rt, output, page, room) {
        Ok(()) => Ok(Some(row.outcome)),
        Err(WriteFailed) => Ok(None),
    }
}

/// Takes a machine to a position, or to where its run stops before that, and returns how it stopped, if it did.
fn go_to(rt: &impl Wait, alloc: Global, machine: &mut Machine, position: u64) -> Option<TraceEnd>
    requires alive { 0 < depth_of machine.old }
    requires within { machine.old.position ≤ position }
    ensures { MatchOption result
        ((0 < depth_of machine.new) × (machine.new ≡ at_position machine.old position))
        (λ end. StopsBefore end machine.old position machine.new) }
{
    'numbers: for _ in rt.forever() {
        match run_to_number(alloc, machine, position) {
            None => return None,
            Some(StepOutcome::Went(_)) => {}
            Some(StepOutcome::Done) => return Some(TraceEnd::EndedBefore),
            Some(StepOutcome::Fault(fault)) => return Some(TraceEnd::Faulted(fault)),
        }
    }
    unreachable!()
}

/// Tells the position of a machine, and takes its step.
///
/// # Errors
///
/// `AllocError`, where an allocation failed; the step may have been taken.
pub fn next_row(alloc: Global, machine: &mut Machine, view: View) -> Result<Row, AllocError>
    requires { 0 < depth_of machine.old }
    ensures { IfOk result (λ row. IsRow view machine.old row
        × Stepped (outcome_of machine.old) machine.old row.outcome machine.new) }
{
    let unit: &Unit = machine.unit();
    let step = unit.steps[machine.next_step()];
    let position = machine.position();
    let hidden = machine.depth().saturating_sub(TOLD_FRAMES);
    let frames = newest_frames(alloc, machine, hidden)?;
    let drawing = draw_if(view.machine, alloc, machine, hidden)?;
    let begun = begin_if(view.instructions, alloc, machine)?;
    let outcome = machine.step();
    let behind: &Unit = machine.unit();
    let instructions = finish(alloc, behind.code.as_slice(), outcome, begun)?;
    Ok(Row {
        position,
        kind: step.kind,
        place: step.place,
        hidden,
        frames,
        drawing,
        outcome,
        instructions,
    })
}

/// Tells the frames of a machine without the oldest ones, of which `hidden` are left out.
fn newest_frames(
    alloc: Global,
    machine: &Machine,
    hidden: usize,
) -> Result<Vec<FrameRow>, AllocError>
    requires { hidden ≤ depth_of machine.now }
    ensures { IfOk result (λ rows. AreFrameRows machine.now hidden rows.items) }
{
    let count = machine.depth() - hidden;
    let mut rows = Vec::with_capacity(alloc, count)?;
    for index in 0..count {
        rows.push(frame_row(alloc, machine, hidden + index)?)?;
    }
    Ok(rows)
}

/// Tells a frame.
fn frame_row(alloc: Global, machine: &Machine, frame: usize) -> Result<FrameRow, AllocError>
    requires { frame < depth_of machine.now }
    ensures { IfOk result (λ row. IsFrameRow (program machine.now) (frame_of machine.now frame) row) }
{
    let block = machine.frame(frame).block;
    let count = variable_count(machine, frame);
    let numbers = numbers_of(alloc, machine, frame, count)?;
    Ok(FrameRow { block, numbers })
}

/// Returns how many variables a frame has.
pub fn variable_count(machine: &Machine, frame: usize) -> usize
    requires { frame < depth_of machine.now }
    ensures { result ≡ variables_of (frame_of machine.now frame) }
{
    let depth = machine.depth();
    prove!(frame < depth);
    let unit: &Unit = machine.unit();
    let number = machine.frame(frame).block;
    let declaring = block(&unit.tree.program, &unit.nestings, number);
    declaring.variables.len()
}

/// Returns the numbers in the variables of a frame, which has this many.
fn numbers_of(
    alloc: Global,
    machine: &Machine,
    frame: usize,
    count: usize,
) -> Result<Vec<i64>, AllocError>
    requires { count ≡ variables_of (frame_of machine.now frame) }
    ensures { IfOk result (λ numbers. numbers.items ≡ numbers_in (frame_of machine.now frame)) }
{
    let mut numbers = Vec::with_capacity(alloc, count)?;
    for variable in 0..count {
        numbers.push(machine.value(frame, variable))?;
    }
    Ok(numbers)
}
