//! Interrupts a run.

ghost use Rattle.dap_replies.specs.declared.choosing.Reaction.TheVariants as reaction_is;
ghost use Rattle.dap_replies.specs.Choosing.{Carries, FitsIn};
ghost use Rattle.dap_replies.specs.Going.{WaitsToPause};

use crate::effect::Reply;
use crate::phase::{Phase, Target};
use crate::refusing::without_events;
use crate::run::Run;
use dap_history::reading_laws;
use dap_msg::Body;
use std::alloc::Global;

/// Interrupts the run.
pub(crate) fn interrupt(alloc: Global, phase: Phase) -> Reply
    requires { FitsIn phase reaction_is.Interrupt }
    ensures { Carries phase reaction_is.Interrupt result }
{
    reading_laws();
    match phase {
        Phase::Running(target, run) => wait(alloc, target, run),
        _ => unreachable!(),
    }
}

/// Makes a pause wait until the runner returns the debuggee, which is ordered once.
fn wait(alloc: Global, target: Target, mut run: Run) -> Reply
    ensures { WaitsToPause target run result }
{
    run.wait_to_pause();
    let order = run.hold(target.runs);
    without_events(alloc, Ok(Body::None), order, Phase::Running(target, run))
}
