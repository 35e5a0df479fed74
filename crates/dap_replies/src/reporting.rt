//! What a session does at a report of the runner.

ghost use Rattle.std.specs.Prelude.{◌≡◌, ◌≢◌, ◌+◌, ◌<◌, ◌^◌, ◌++◌, [], length, IfOk, IsOkAnd, OnOk, IsOk};
ghost use Rattle.dbg_runner.specs.declared.outcome.SliceOutcome.TheVariants as slice;
ghost use Rattle.dbg_runner.specs.Reported.{plain_report, stopped, text_of, trail_in};
ghost use Rattle.dap_history.specs.History.{History};
ghost use Rattle.dap_history.specs.Replies.{exited_events, exception_of, only_events, stop_of, stopped_events};
ghost use Rattle.dap_history.specs.Readings.{waiting_pause};
ghost use Rattle.dap_history.specs.Reports.{continued_effect, held_effect, outputs, stopped_effect};
ghost use Rattle.dap_replies.specs.Runs.{heading_in, with_waiting};
ghost use Rattle.dap_replies.specs.Phases.{IsPhase};
ghost use Rattle.dap_replies.specs.declared.phase.Phase.TheVariants as phase_is;
ghost use Rattle.dap_replies.specs.Replied.{HasReported, IsQuiet};
ghost use Rattle.dap_replies.specs.Reporting.{fresh, outputs_after, with_told, Stops, ContinuesRun, FollowsReport, standing};

use crate::effect::Effect;
use crate::logging::push_logs;
use crate::phase::{Phase, Target};
use crate::run::Run;
use dap_history::reading_laws;
use dap_msg::{EventBody, Exception, Items, StopReason};
use dbg_plan::Reason;
use dbg_runner::{ConsideredDebuggee, Report, SliceOutcome};
use pl0_meaning::RunFault;
use std::alloc::{AllocError, Global};

/// Returns what follows a report that continues the run.
///
/// # Errors
///
/// An allocation failed, here or in the runner.
pub fn report(alloc: Global, target: Target, run: Run, report: Report) -> Result<Effect, AllocError>
    requires { (plain_report report).heading ≡ heading_in target.runs run }
    ensures follows { IfOk result (λ done. (past : History) → IsPhase (phase_is.Running target run) past →
        HasReported (plain_report report) past done) }
    ensures memory { OnOk result (report.outcome ≢ slice.NoMemory) }
    // A report that tells a client nothing needs no memory, and no event follows it.
    ensures enough { IsQuiet (plain_report report) → IsOkAnd result (λ done. done.events ≡ []) }
{
    match report.summary().outcome {
        SliceOutcome::More => keep_running(alloc, target, run, &report),
        SliceOutcome::Due(reason) => stand(alloc, target, run, report, stop_reason(reason)),
        SliceOutcome::Held => come_back(alloc, target, run, report),
        SliceOutcome::Done => end(alloc, target, run, &report),
        SliceOutcome::Fault(fault) => {
            let reason = StopReason::Exception(exception(fault));
            stand(alloc, target, run, report, reason)
        }
        SliceOutcome::NoMemory => Err(AllocError),
    }
}

/// The run isn't over: it goes on.
fn keep_running(
    alloc: Global,
    target: Target,
    mut run: Run,
    report: &Report,
) -> Result<Effect, AllocError>
    ensures follows { IfOk result (FollowsReport target run report.now
        (λ past. only_events (outputs past (plain_report report.now)))) }
    ensures enough { IsQuiet (plain_report report.now) → IsOkAnd result (λ done. done.events ≡ []) }
{
    reading_laws();
    let events = outputs(alloc, target.told, report)?;
    let target = tell(target, report);
    run.go_on_from(report.summary().end);
    Ok(Effect {
        events: Items::new(events),
        order: None,
        phase: Phase::Running(target, run),
    })
}

/// The program stands where the report ends, for this reason.
fn stand(
    alloc: Global,
    target: Target,
    run: Run,
    report: Report,
    reason: StopReason,
) -> Result<Effect, AllocError>
    requires goes_on { ContinuesRun report target run }
    requires stops { Stops report.outcome }
    ensures { IfOk result (FollowsReport target run report
        (λ past. stopped_effect past (plain_report report) (stopped_events reason))) }
{
    reading_laws();
    let mut events = outputs(alloc, target.told, &report)?;
    events.push(EventBody::Stopped(reason))?;
    let target = tell(target, &report);
    let debuggee = take_back(run, report);
    Ok(Effect {
        events: Items::new(events),
        order: None,
        phase: standing(target, debuggee, reason),
    })
}

/// Returns the phase of a program that stands for this reason.
fn standing(target: Target, debuggee: ConsideredDebuggee, reason: StopReason) -> Phase
    ensures { result ≡ standing target debuggee reason }
{
    match reason {
        StopReason::Exception(_) => Phase::Faulted(target, debuggee),
        StopReason::Breakpoint | StopReason::Step | StopReason::Entry | StopReason::Pause => {
            Phase::Stopped(target, debuggee)
        }
    }
}

/// The runner returned the debuggee because it was ordered to: the program stands if a pause waits, and goes on otherwise.
fn come_back(alloc: Global, target: Target, run: Run, report: Report) -> Result<Effect, AllocError>
    requires goes_on { ContinuesRun report target run }
    requires stops { Stops report.outcome }
    ensures { IfOk result (FollowsReport target run report
        (λ past. held_effect past (plain_report report) (waiting_pause past))) }
{
    if run.waits_to_pause() {
        stand(alloc, target, run, report, StopReason::Pause)
    } else {
        begin_again(alloc, target, run, report)
    }
}

/// The program goes on where it was held, in another run.
fn begin_again(
    alloc: Global,
    target: Target,
    run: Run,
    report: Report,
) -> Result<Effect, AllocError>
    requires goes_on { ContinuesRun report target run }
    requires stops { Stops report.outcome }
    ensures { IfOk result (FollowsReport target run report (λ past. continued_effect past (plain_report report))) }
{
    reading_laws();
    let number = target.runs.checked_add(1).ok_or(AllocError)?;
    let events = outputs(alloc, target.told, &report)?;
    let target = tell(target, &report);
    let mode = run.mode();
    let debuggee = take_back(run, report);
    let (run, order) = Run::begin(number, debuggee, mode)?;
    let target = Target {
        runs: number,
        ..target
    };
    Ok(Effect {
        events: Items::new(events),
        order: Some(order),
        phase: Phase::Running(target, run),
    })
}

/// The program has ended.
fn end(alloc: Global, target: Target, run: Run, report: &Report) -> Result<Effect, AllocError>
    ensures { IfOk result (FollowsReport target run report.now
        (λ past. only_events (outputs past (plain_report report.now) ++ exited_events 0))) }
{
    reading_laws();
    let mut events = outputs(alloc, target.told, report)?;
    events.push(EventBody::Exited(0))?;
    events.push(EventBody::Terminated)?;
    let target = tell(target, report);
    Ok(Effect {
        events: Items::new(events),
        order: None,
        phase: Phase::Ended(target, run.into_unit()),
    })
}

/// Returns the numbers of a report that weren't reported before, where `told` numbers were.
fn fresh(told: u64, report: &Report) -> &[i64]
    ensures is { result.now ≡ fresh told report.now }
    // At most one number is written in a step.
    ensures few { told + length result.now < 2 ^ 64 }
{
    let numbers = report.numbers();
    let skipped = told.saturating_sub(report.summary().numbers_before);
    if skipped < numbers.len() as u64 {
        &numbers[skipped as usize..]
    } else {
        &[]
    }
}

/// Returns the new numbers and the logs of a report as events, where `told` numbers were reported before.
fn outputs(alloc: Global, told: u64, report: &Report) -> Result<Vec<EventBody>, AllocError>
    ensures are { IfOk result (λ events. events.items ≡ outputs_after told report.now) }
    ensures enough { report.now.numbers ≡ [] → report.now.logs ≡ [] → IsOk result }
{
    let numbers = fresh(told, report);
    let mut events = Vec::with_capacity(alloc, numbers.len())?;
    for number in numbers {
        events.push(EventBody::Output(*number))?;
    }
    push_logs(alloc, report.plan(), report.logs(), &mut events)?;
    Ok(events)
}

/// Counts the new numbers of a report as reported.
fn tell(target: Target, report: &Report) -> Target
    ensures { result ≡ with_told target report.now }
{
    let told = target.told + fresh(target.told, report).len() as u64;
    Target { told, ..target }
}

/// Returns the reason of a stop as the client sees it.
pub(crate) fn stop_reason(reason: Reason) -> StopReason
    ensures { result ≡ stop_of reason }
{
    match reason {
        Reason::Breakpoint => StopReason::Breakpoint,
        Reason::Entry => StopReason::Entry,
        Reason::Step => StopReason::Step,
    }
}

/// Returns the fault of a step as the client sees it.
fn exception(fault: RunFault) -> Exception
    ensures { result ≡ exception_of fault }
{
    match fault {
        RunFault::Overflow => Exception::Overflow,
        RunFault::DivideByZero => Exception::DivideByZero,
        RunFault::Depth => Exception::Depth,
        RunFault::StepLimit => Exception::StepLimit,
    }
}

/// Takes the debuggee out of the report, and puts the plan that waited into it.
fn take_back(run: Run, report: Report) -> ConsideredDebuggee
    requires stops { Stops report.outcome }
    requires text { text_of report.unit ≡ text_of run.unit }
    ensures { result ≡ with_waiting run.waiting_plan (stopped report (trail_in report.debuggee)) }
{
    match report.into_debuggee() {
        Some(debuggee) => run.take_back(debuggee),
        None => unreachable!(),
    }
}
