//! The reaction to `setBreakpoints`: its lines are resolved, and answered.

ghost use Rattle.std.specs.Prelude.{◌≡◌, ◌≤◌, map, Some, All, IfOk, IsOkAnd};
ghost use Rattle.dap_msg.specs.Laws.{AreWithin, LineIsWithin};
ghost use Rattle.dap_msg.specs.declared.command.Command.TheVariants as command;
ghost use Rattle.dap_msg.specs.declared.outgoing.BreakpointAnswer.TheVariants as answer_is;
ghost use Rattle.dap_msg.specs.declared.outgoing.BreakpointRefusal.TheVariants as why;
ghost use Rattle.pl0_machine.specs.Machine.{program_of};
ghost use Rattle.dbg_plan.specs.Breakpoints.{plain_breakpoints};
ghost use Rattle.dbg_plan.specs.Plans.{IsPlanOf};
ghost use Rattle.dbg_plan.specs.Resolutions.{plain_line};
ghost use Rattle.dap_history.specs.Breakpoints.{offset, asked_as, answer_to_line, is_same_path};
ghost use Rattle.dap_replies.specs.declared.phase.Phase.{Phase};
ghost use Rattle.dap_replies.specs.Choosing.{Chooses, MakesNothing};
ghost use Rattle.dap_replies.specs.Lines.{AreAnswered, IsAtStep, program_in};
ghost use Rattle.dap_replies.specs.Replied.{HasNoProgram};

use crate::choosing::Reaction;
use crate::phase::{Phase, Target};
use dap_msg::{
    Body, BreakpointAnswer, BreakpointRefusal, InitializeArguments, Items, Refusal,
    SetBreakpointsArguments, SourceBreakpoint, Text,
};
use dbg_plan::{Plan, Resolution, SourceBreakpoint as AskedLine, resolve};
use pl0_unit::Unit;
use std::alloc::{AllocError, Global};

/// Chooses the reaction to `setBreakpoints`: lines are set once a program is launched.
///
/// # Errors
///
/// An allocation failed.
pub(crate) fn set_breakpoints(
    alloc: Global,
    phase: &Phase,
    asked: &SetBreakpointsArguments,
) -> Result<Reaction, AllocError>
    requires { AreWithin asked.now }
    ensures chooses { IfOk result (Chooses (command.SetBreakpoints asked.now) phase.now) }
    ensures enough { HasNoProgram phase.now → IsOkAnd result MakesNothing }
{
    match phase {
        Phase::Fresh | Phase::Ready(_) | Phase::Launching(_, _) => {
            Ok(Reaction::Refuse(Refusal::WrongPhase))
        }
        Phase::Configuring(target, debuggee) => in_program(alloc, target, debuggee.unit(), asked),
        Phase::Running(target, run) => in_program(alloc, target, run.unit(), asked),
        Phase::Stopped(target, debuggee) | Phase::Faulted(target, debuggee) => {
            in_program(alloc, target, debuggee.debuggee().machine().unit(), asked)
        }
        Phase::Ended(target, unit) => in_program(alloc, target, unit, asked),
    }
}

/// Chooses the reaction where a program is launched: lines of its source are resolved, and others are answered alone.
fn in_program(
    alloc: Global,
    target: &Target,
    unit: &Unit,
    asked: &SetBreakpointsArguments,
) -> Result<Reaction, AllocError>
    requires { AreWithin asked.now }
    ensures { (phase : Phase) → program_in phase ≡ Some (target.now, unit.now)
        → IfOk result (Chooses (command.SetBreakpoints asked.now) phase) }
{
    if is_launched(&asked.path, target) {
        let (answers, plan) = resolved(alloc, unit, target.settings, asked)?;
        return Ok(Reaction::SetBreakpoints(answers, plan));
    }
    let others = other_source(alloc, asked.breakpoints.as_slice())?;
    Ok(Reaction::Answer(Body::Breakpoints(others)))
}

/// Whether a path is the path of the launched program.
fn is_launched(asked: &Option<Text>, target: &Target) -> bool
    ensures { result ≡ is_same_path asked.now target.now.path }
{
    match asked {
        None => false,
        Some(path) => path.as_str() == target.path.as_str(),
    }
}

/// Returns the answers to lines of another source.
fn other_source(
    alloc: Global,
    lines: &[SourceBreakpoint],
) -> Result<Items<BreakpointAnswer>, AllocError>
    ensures { IfOk result (λ answers. answers ≡ map (λ b. answer_is.Unverified why.OtherSource) lines.now) }
{
    let mut answers = Vec::with_capacity(alloc, lines.len())?;
    for _line in lines {
        answers.push(BreakpointAnswer::Unverified(BreakpointRefusal::OtherSource))?;
    }
    Ok(Items::new(answers))
}

/// Resolves lines of the program's source, and returns the answers and the plan.
fn resolved(
    alloc: Global,
    unit: &Unit,
    settings: InitializeArguments,
    asked: &SetBreakpointsArguments,
) -> Result<(Items<BreakpointAnswer>, Plan), AllocError>
    requires { AreWithin asked.now }
    ensures answered { IfOk result (λ r. AreAnswered (program_of unit.now) (offset settings.lines_start_at_1)
        asked.now.breakpoints r.0 (plain_breakpoints r.1.breakpoints)) }
    ensures plan { IfOk result (λ r. IsPlanOf unit.now r.1) }
{
    let less = line_offset(settings);
    let lines = asked_lines(alloc, asked.breakpoints.as_slice(), less)?;
    let (plan, resolutions) = resolve(alloc, unit, &lines)?;
    let answers = line_answers(alloc, unit, less, &resolutions)?;
    Ok((answers, plan))
}

/// Returns 0 if the client counts lines from 1, and 1 if it counts from 0.
fn line_offset(settings: InitializeArguments) -> u32
    ensures is { result ≡ offset settings.lines_start_at_1 }
    ensures small { result ≤ 1 }
{
    if settings.lines_start_at_1 { 0 } else { 1 }
}

/// Converts each breakpoint, as `asked_line` does.
fn asked_lines<'a>(
    alloc: Global,
    lines: &'a [SourceBreakpoint],
    less: u32,
) -> Result<Vec<AskedLine<'a>>, AllocError>
    requires within { All LineIsWithin lines.now }
    requires small { less ≤ 1 }
    ensures { IfOk result (λ asked. map plain_line asked.items ≡ map (asked_as less) lines.now) }
{
    let mut asked = Vec::with_capacity(alloc, lines.len())?;
    for line in lines {
        asked.push(asked_line(line, less))?;
    }
    Ok(asked)
}

/// Converts a breakpoint that is asked for to one that counts lines from 1.
fn asked_line(line: &SourceBreakpoint, less: u32) -> AskedLine<'_>
    requires within { LineIsWithin line.now }
    requires small { less ≤ 1 }
    ensures { plain_line result ≡ asked_as less line.now }
{
    AskedLine {
        line: line.line + less,
        condition: line.condition.as_str(),
        hit_condition: line.hit_condition.as_str(),
        log_message: line.log_message.as_str(),
    }
}

/// Returns the answer to each line, by how it was resolved.
fn line_answers(
    alloc: Global,
    unit: &Unit,
    less: u32,
    resolutions: &[Resolution],
) -> Result<Items<BreakpointAnswer>, AllocError>
    requires { All (IsAtStep (program_of unit.now)) resolutions.now }
    ensures { IfOk result (λ answers. answers ≡ map (answer_to_line (program_of unit.now) less) resolutions.now) }
{
    let mut answers = Vec::with_capacity(alloc, resolutions.len())?;
    for resolution in resolutions {
        answers.push(line_answer(unit, less, *resolution))?;
    }
    Ok(Items::new(answers))
}

/// Returns the answer to a line of the program, by how it was resolved.
fn line_answer(unit: &Unit, less: u32, resolution: Resolution) -> BreakpointAnswer
    requires { IsAtStep (program_of unit.now) resolution }
    ensures { result ≡ answer_to_line (program_of unit.now) less resolution }
{
    match resolution {
        Resolution::At(step) => {
            let line = unit.steps[step].place.line;
            BreakpointAnswer::At(u64::from(line.saturating_sub(less)))
        }
        Resolution::NoStep => BreakpointAnswer::Unverified(BreakpointRefusal::NoStep),
        Resolution::BadCondition => BreakpointAnswer::Unverified(BreakpointRefusal::BadCondition),
        Resolution::BadHitCondition => BreakpointAnswer::Unverified(
            BreakpointRefusal::BadHitCondition,
        ),
        Resolution::BadLogMessage => BreakpointAnswer::Unverified(BreakpointRefusal::BadLogMessage),
    }
}
