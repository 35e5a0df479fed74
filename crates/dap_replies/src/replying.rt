//! The reply to a request, by its command.

ghost use Rattle.std.specs.Prelude.{IfOk, IsOk};
ghost use Rattle.dap_msg.specs.Laws.{IsWithin};
ghost use Rattle.dap_replies.specs.Phases.{WantsNoFile};
ghost use Rattle.dap_replies.specs.Replied.{Replies, TakesNoMemory};

use crate::carrying::carry_out;
use crate::choosing::choose;
use crate::effect::Reply;
use crate::phase::Phase;
use dap_msg::Command;
use std::alloc::{AllocError, Global};

/// Replies to a command that needs no file.
///
/// # Errors
///
/// An allocation failed, or no run number is left. The phase is dropped then.
pub fn reply(alloc: Global, phase: Phase, command: &Command) -> Result<Reply, AllocError>
    requires fits { IsWithin command.now }
    requires no_file { WantsNoFile phase command.now }
    ensures replies { IfOk result (Replies command.now phase) }
    // Neither a command that has nothing to make nor one that isn't served needs memory.
    ensures enough { TakesNoMemory phase command.now → IsOk result }
{
    let reaction = choose(alloc, &phase, command)?;
    carry_out(alloc, phase, reaction)
}
