//! Replies with no events, and those after which the phase is as before.

ghost use Rattle.std.specs.Prelude.{◌≡◌, None, Err};
ghost use Rattle.dap_replies.specs.declared.choosing.Reaction.TheVariants as reaction_is;
ghost use Rattle.dap_replies.specs.Answering.{without_events};
ghost use Rattle.dap_replies.specs.Choosing.{Carries};

use crate::effect::{Effect, Reply};
use crate::phase::Phase;
use dap_history::reading_laws;
use dap_msg::{Body, Items, Refusal};
use dbg_runner::Order;
use std::alloc::Global;

/// Refuses a command.
pub(crate) fn refuse(alloc: Global, phase: Phase, why: Refusal) -> Reply
    ensures is { result ≡ without_events (Err why) None phase }
    ensures carries { Carries phase (reaction_is.Refuse why) result }
{
    reading_laws();
    without_events(alloc, Err(why), None, phase)
}

/// Answers a command, and no more.
pub(crate) fn answer(alloc: Global, phase: Phase, body: Body) -> Reply
    ensures { Carries phase (reaction_is.Answer body) result }
{
    reading_laws();
    without_events(alloc, Ok(body), None, phase)
}

/// Returns the reply with this result, an order or none, and the phase after it, with no events.
pub(crate) fn without_events(
    alloc: Global,
    given: Result<Body, Refusal>,
    order: Option<Order>,
    phase: Phase,
) -> Reply
    ensures { result ≡ without_events given order phase }
{
    Reply {
        result: given,
        effect: Effect {
            events: Items::new(Vec::new(alloc)),
            order,
            phase,
        },
    }
}
