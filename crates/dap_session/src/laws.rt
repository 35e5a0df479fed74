//! The laws of a session.

ghost use Rattle.dap_session.specs.Laws.{FaultsLeavePrefixes, FramesAreNumbered, SentIsKnown, SeqsEndLate};

use dap_frame::frame_laws;
use dap_history::history_laws;
use dap_msg::message_laws;

/// What holds of all that a session sends, as the contract of [`drive`](crate::drive) says it. It does nothing: its
/// contract is the laws.
pub fn session_laws()
    ensures prefixes { FaultsLeavePrefixes }
    ensures numbered { FramesAreNumbered }
    ensures late { SeqsEndLate }
{
    frame_laws();
    message_laws();
    history_laws();
}

/// What holds of a session that goes on, where it waits. It does nothing: its contract is the law.
pub fn serving_laws()
    ensures sent { SentIsKnown }
{
    history_laws();
}
