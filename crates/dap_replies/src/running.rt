//! Starts and resumes the program, ends it, and goes back.

ghost use Rattle.std.specs.Prelude.{◌≡◌, if◌then◌else◌, IfOk};
ghost use Rattle.dbg_plan.specs.declared.mode.Mode.TheVariants as mode_is;
ghost use Rattle.dap_replies.specs.declared.phase.Phase.TheVariants as phase_is;
ghost use Rattle.dap_history.specs.Replies.{log_events};
ghost use Rattle.dap_history.specs.Running.{body_of, mode_of, retreat_mode};
ghost use Rattle.dap_replies.specs.declared.choosing.Reaction.TheVariants as reaction_is;
ghost use Rattle.dap_replies.specs.Choosing.{Carries, FitsIn};
ghost use Rattle.dap_replies.specs.Going.{HasGone, HasStopped, HasEnded};

use crate::effect::{Effect, Reply};
use crate::logging::push_logs;
use crate::phase::{Phase, Target};
use crate::reporting::stop_reason;
use crate::run::Run;
use crate::unstarted::Unstarted;
use dap_history::reading_laws;
use dap_msg::{Body, EventBody, Items, ResumeKind, RetreatKind};
use dbg_plan::{Logs, Mode, Reason};
use dbg_runner::ConsideredDebuggee;
use std::alloc::{AllocError, Global};
use std::sync::Arc;

/// Starts the program.
///
/// # Errors
///
/// An allocation failed, or no run number is left.
pub(crate) fn start(alloc: Global, phase: Phase) -> Result<Reply, AllocError>
    requires { FitsIn phase reaction_is.Start }
    ensures { IfOk result (Carries phase reaction_is.Start) }
{
    match phase {
        Phase::Configuring(target, unstarted) => enter(alloc, target, unstarted),
        _ => unreachable!(),
    }
}

/// Considers position 0: the program stops there if it is due, or its first run begins.
fn enter(alloc: Global, target: Target, unstarted: Unstarted) -> Result<Reply, AllocError>
    ensures { IfOk result (Carries (phase_is.Configuring target unstarted) reaction_is.Start) }
{
    reading_laws();
    let mut logs = Logs::new(alloc)?;
    let (reason, debuggee) = unstarted.consider(first_mode(&target), &mut logs);
    let events = logged(alloc, &debuggee, &logs)?;
    match reason {
        Some(reason) => stop(target, debuggee, reason, events),
        None => go(target, debuggee, Mode::Continue, Body::None, events),
    }
}

/// Returns the mode in which position 0 is considered.
fn first_mode(target: &Target) -> Mode
    ensures { result ≡ (if target.now.stop_on_entry then mode_is.Entry else mode_is.Continue) }
{
    if target.stop_on_entry {
        Mode::Entry
    } else {
        Mode::Continue
    }
}

/// Returns what breakpoints of a debuggee logged, as events.
fn logged(
    alloc: Global,
    debuggee: &ConsideredDebuggee,
    logs: &Logs,
) -> Result<Vec<EventBody>, AllocError>
    ensures { IfOk result (λ events. events.items ≡ log_events debuggee.now.breakpoints logs.now) }
{
    let mut events = Vec::new(alloc);
    push_logs(
        alloc,
        debuggee.debuggee().plan(),
        logs.as_slice(),
        &mut events,
    )?;
    Ok(events)
}

/// Returns the reply with these events, after which the program stops where it stands.
fn stop(
    target: Target,
    debuggee: ConsideredDebuggee,
    reason: Reason,
    mut events: Vec<EventBody>,
) -> Result<Reply, AllocError>
    ensures { IfOk result (HasStopped target debuggee reason events.items) }
{
    events.push(EventBody::Stopped(stop_reason(reason)))?;
    Ok(Reply {
        result: Ok(Body::None),
        effect: Effect {
            events: Items::new(events),
            order: None,
            phase: Phase::Stopped(target, debuggee),
        },
    })
}

/// Resumes the program from a stop.
///
/// # Errors
///
/// An allocation failed, or no run number is left.
pub(crate) fn resume(alloc: Global, phase: Phase, kind: ResumeKind) -> Result<Reply, AllocError>
    requires { FitsIn phase (reaction_is.Resume kind) }
    ensures { IfOk result (Carries phase (reaction_is.Resume kind)) }
{
    reading_laws();
    match phase {
        Phase::Stopped(target, debuggee) => {
            let mode = resume_mode(kind, debuggee.debuggee().machine().depth());
            go(target, debuggee, mode, resume_body(kind), Vec::new(alloc))
        }
        _ => unreachable!(),
    }
}

/// Goes back from where the program stands.
///
/// # Errors
///
/// An allocation failed, or no run number is left.
pub(crate) fn retreat(alloc: Global, phase: Phase, kind: RetreatKind) -> Result<Reply, AllocError>
    requires { FitsIn phase (reaction_is.Retreat kind) }
    ensures { IfOk result (Carries phase (reaction_is.Retreat kind)) }
{
    match phase {
        Phase::Stopped(target, debuggee) => back(alloc, target, debuggee, kind),
        Phase::Faulted(target, debuggee) => back(alloc, target, debuggee, kind),
        _ => unreachable!(),
    }
}

/// Goes back from a stop, or in the same way from a fault.
fn back(
    alloc: Global,
    target: Target,
    debuggee: ConsideredDebuggee,
    kind: RetreatKind,
) -> Result<Reply, AllocError>
    ensures stop { IfOk result (Carries (phase_is.Stopped target debuggee) (reaction_is.Retreat kind)) }
    ensures fault { IfOk result (Carries (phase_is.Faulted target debuggee) (reaction_is.Retreat kind)) }
{
    reading_laws();
    go(
        target,
        debuggee,
        retreat_mode(kind),
        Body::None,
        Vec::new(alloc),
    )
}

/// Returns the mode of a run that goes back.
fn retreat_mode(kind: RetreatKind) -> Mode
    ensures { result ≡ retreat_mode kind }
{
    match kind {
        RetreatKind::StepBack => Mode::StepBack,
        RetreatKind::ReverseContinue => Mode::Reverse,
    }
}

/// Returns the mode of a run that is resumed where this many frames are alive.
fn resume_mode(kind: ResumeKind, depth: usize) -> Mode
    ensures { result ≡ mode_of kind depth }
{
    match kind {
        ResumeKind::Continue => Mode::Continue,
        ResumeKind::Next => Mode::Over(depth),
        ResumeKind::StepIn => Mode::In,
        ResumeKind::StepOut => Mode::Out(depth),
    }
}

/// Returns the body of the answer: only `continue` has one.
fn resume_body(kind: ResumeKind) -> Body
    ensures { result ≡ body_of kind }
{
    match kind {
        ResumeKind::Continue => Body::Continued,
        ResumeKind::Next => Body::None,
        ResumeKind::StepIn => Body::None,
        ResumeKind::StepOut => Body::None,
    }
}

/// Ends the program, which stands before a fault.
///
/// # Errors
///
/// An allocation failed.
pub(crate) fn end(alloc: Global, phase: Phase, kind: ResumeKind) -> Result<Reply, AllocError>
    requires { FitsIn phase (reaction_is.End kind) }
    ensures { IfOk result (Carries phase (reaction_is.End kind)) }
{
    reading_laws();
    match phase {
        Phase::Faulted(target, debuggee) => conclude(alloc, target, debuggee, resume_body(kind)),
        _ => unreachable!(),
    }
}

/// Returns the reply with this answer, after which the program, which faulted, has ended.
fn conclude(
    alloc: Global,
    target: Target,
    debuggee: ConsideredDebuggee,
    body: Body,
) -> Result<Reply, AllocError>
    ensures { IfOk result (HasEnded target debuggee.unit body) }
{
    let unit = Arc::try_clone(debuggee.debuggee().machine().unit())?;
    let events = vec![in alloc; EventBody::Exited(1), EventBody::Terminated]?;
    Ok(Reply {
        result: Ok(body),
        effect: Effect {
            events: Items::new(events),
            order: None,
            phase: Phase::Ended(target, unit),
        },
    })
}

/// Returns the reply with this answer and these events, after which the next run of the debuggee begins.
///
/// # Errors
///
/// An allocation failed, or no run number is left.
fn go(
    target: Target,
    debuggee: ConsideredDebuggee,
    mode: Mode,
    body: Body,
    events: Vec<EventBody>,
) -> Result<Reply, AllocError>
    ensures { IfOk result (HasGone target debuggee mode body events.items) }
{
    let number = target.runs.checked_add(1).ok_or(AllocError)?;
    let (run, order) = Run::begin(number, debuggee, mode)?;
    let target = Target {
        runs: number,
        ..target
    };
    Ok(Reply {
        result: Ok(body),
        effect: Effect {
            events: Items::new(events),
            order: Some(order),
            phase: Phase::Running(target, run),
        },
    })
}
