//! Carries out the reaction to a command: the debuggee, the run and the orders are touched here, not where it is chosen.

ghost use Rattle.std.specs.Prelude.{IfOk, IsOk};
ghost use Rattle.dap_replies.specs.declared.phase.Phase.TheVariants as phase_is;
ghost use Rattle.dap_replies.specs.declared.choosing.Reaction.TheVariants as reaction_is;
ghost use Rattle.dap_replies.specs.Choosing.{Carries, FitsIn, MakesNothing};

use crate::choosing::Reaction;
use crate::effect::Reply;
use crate::pausing::interrupt;
use crate::phase::Phase;
use crate::planning::set_plan;
use crate::refusing::{answer, refuse, without_events};
use crate::running::{end, resume, retreat, start};
use dap_history::reading_laws;
use dap_msg::{Body, InitializeArguments};
use dbg_runner::Order;
use std::alloc::{AllocError, Global};

/// Carries out a reaction.
///
/// # Errors
///
/// An allocation failed, or no run number is left. The phase is dropped then.
pub(crate) fn carry_out(
    alloc: Global,
    phase: Phase,
    reaction: Reaction,
) -> Result<Reply, AllocError>
    requires { FitsIn phase reaction }
    ensures carries { IfOk result (Carries phase reaction) }
    ensures enough { MakesNothing reaction → IsOk result }
{
    match reaction {
        Reaction::Refuse(why) => Ok(refuse(alloc, phase, why)),
        Reaction::Answer(body) => Ok(answer(alloc, phase, body)),
        Reaction::SetBreakpoints(answers, plan) => set_plan(alloc, phase, answers, plan),
        Reaction::Begin(asked) => Ok(begin(alloc, asked)),
        Reaction::Start => start(alloc, phase),
        Reaction::Resume(kind) => resume(alloc, phase, kind),
        Reaction::End(kind) => end(alloc, phase, kind),
        Reaction::Retreat(kind) => retreat(alloc, phase, kind),
        Reaction::Interrupt => Ok(interrupt(alloc, phase)),
        Reaction::Close => Ok(close(alloc, phase)),
    }
}

/// Begins the session with these settings.
fn begin(alloc: Global, asked: InitializeArguments) -> Reply
    ensures { Carries phase_is.Fresh (reaction_is.Begin asked) result }
{
    reading_laws();
    without_events(alloc, Ok(Body::Capabilities), None, Phase::Ready(asked))
}

/// Closes the session: the runner is ordered to quit.
fn close(alloc: Global, phase: Phase) -> Reply
    ensures { Carries phase reaction_is.Close result }
{
    reading_laws();
    without_events(alloc, Ok(Body::None), Some(Order::Quit), phase)
}
