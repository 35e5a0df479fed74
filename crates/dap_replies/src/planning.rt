//! Sets the breakpoints of a plan: the plan is put where the phase keeps it.

ghost use Rattle.std.specs.Prelude.{◌≡◌, ◌+◌, Ok, IfOk};
ghost use Rattle.dap_msg.specs.declared.outgoing.Body.TheVariants as body;
ghost use Rattle.dbg_plan.specs.Breakpoints.{plain_breakpoints};
ghost use Rattle.dbg_plan.specs.Plans.{IsPlanOf};
ghost use Rattle.dap_replies.specs.declared.phase.Phase.TheVariants as phase_is;
ghost use Rattle.dap_replies.specs.declared.choosing.Reaction.TheVariants as reaction_is;
ghost use Rattle.dap_replies.specs.Answering.{without_events};
ghost use Rattle.dap_replies.specs.Choosing.{Carries, FitsIn};

use crate::effect::Reply;
use crate::phase::{Phase, Target};
use crate::refusing::without_events;
use crate::unstarted::Unstarted;
use dap_history::reading_laws;
use dap_msg::{Body, BreakpointAnswer, Items};
use dbg_plan::Plan;
use dbg_runner::{ConsideredDebuggee, Order};
use std::alloc::{AllocError, Global};
use std::sync::Arc;

/// Answers lines, and sets the breakpoints of their plan. In a run the plan waits, and the runner is ordered to return
/// the debuggee; after the end no plan is kept.
///
/// # Errors
///
/// An allocation failed. The phase is dropped then.
pub(crate) fn set_plan(
    alloc: Global,
    phase: Phase,
    answers: Items<BreakpointAnswer>,
    plan: Plan,
) -> Result<Reply, AllocError>
    requires { FitsIn phase (reaction_is.SetBreakpoints answers plan) }
    ensures { IfOk result (Carries phase (reaction_is.SetBreakpoints answers plan)) }
{
    reading_laws();
    match phase {
        Phase::Configuring(target, debuggee) => {
            before_start(alloc, target, debuggee, answers, plan)
        }
        Phase::Running(target, mut run) => {
            let plan = Arc::new(alloc, plan)?;
            run.wait_for(plan);
            let order = run.hold(target.runs);
            Ok(answer_lines(alloc, answers, order, Phase::Running(target, run)))
        }
        Phase::Stopped(target, debuggee) => {
            let debuggee = with_plan(alloc, debuggee, plan)?;
            Ok(answer_lines(alloc, answers, None, Phase::Stopped(target, debuggee)))
        }
        Phase::Faulted(target, debuggee) => {
            let debuggee = with_plan(alloc, debuggee, plan)?;
            Ok(answer_lines(alloc, answers, None, Phase::Faulted(target, debuggee)))
        }
        Phase::Ended(target, unit) => {
            Ok(answer_lines(alloc, answers, None, Phase::Ended(target, unit)))
        }
        _ => unreachable!(),
    }
}

/// Answers lines, and puts their plan into a debuggee before its start.
fn before_start(
    alloc: Global,
    target: Target,
    mut debuggee: Unstarted,
    answers: Items<BreakpointAnswer>,
    plan: Plan,
) -> Result<Reply, AllocError>
    requires { IsPlanOf debuggee.unit plan }
    ensures { IfOk result (Carries (phase_is.Configuring target debuggee) (reaction_is.SetBreakpoints answers plan)) }
{
    reading_laws();
    let plan = Arc::new(alloc, plan)?;
    debuggee.set_plan(plan);
    Ok(answer_lines(alloc, answers, None, Phase::Configuring(target, debuggee)))
}

/// Returns the answer to lines, with an order or none, and the phase after it.
fn answer_lines(
    alloc: Global,
    answers: Items<BreakpointAnswer>,
    order: Option<Order>,
    phase: Phase,
) -> Reply
    ensures { result ≡ without_events (Ok (body.Breakpoints answers)) order phase }
{
    without_events(alloc, Ok(Body::Breakpoints(answers)), order, phase)
}

/// Puts a plan into a debuggee that stands.
fn with_plan(
    alloc: Global,
    debuggee: ConsideredDebuggee,
    plan: Plan,
) -> Result<ConsideredDebuggee, AllocError>
    requires { IsPlanOf debuggee.unit plan }
    ensures { IfOk result (λ new. new ≡ record debuggee
        { breakpoints = plain_breakpoints plan.breakpoints; counted_from = debuggee.position + 1 }) }
{
    let plan = Arc::new(alloc, plan)?;
    let mut debuggee = debuggee.into_debuggee();
    debuggee.set_plan(plan);
    Ok(ConsideredDebuggee::new(debuggee))
}
