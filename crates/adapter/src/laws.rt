//! The laws of serving.

ghost use Rattle.adapter.specs.AllRead.{AllReadIsAnswered};
ghost use Rattle.adapter.specs.Waiting.{WaitingOwesNothing};
ghost use Rattle.adapter.specs.WaitingEnds.{WaitingEndsOweNothing};
ghost use Rattle.adapter.specs.Written.{OutputIsOfHistory};
ghost use Rattle.adapter.specs.UpTo.{DisconnectIsAnswered, AllBeforeFaultIsAnswered};
ghost use Rattle.adapter.specs.WorkedExits.{StatusesAre, LastLinesAre, FramingFaultsAreNumbered, RefusalsAreNumbered, LongTextsAreNoticed};
ghost use Rattle.adapter.specs.Laws.{OutcomeIsOfSession, InputIsTakenWhole, FirstDisconnectCloses, RunsEndOnce, NobodyIsGone, FullAfterEnough};

use byte_streams::{Sink, Source};
use dap_frame::frame_laws;
use dap_history::{command_laws, history_laws};
use dap_msg::message_laws;
use dap_session::Loader;
use dbg_runner::runner_laws;
use std::sync::Wait;

/// Says what holds of every call of [`serve`](crate::serve), however its threads take turns. It does nothing: its contract
/// is the laws.
pub fn serving_laws()
    ensures outcome { OutcomeIsOfSession }
    ensures input { InputIsTakenWhole }
    ensures written { OutputIsOfHistory }
    ensures answered { AllReadIsAnswered }
    ensures disconnected { DisconnectIsAnswered }
    ensures fault { AllBeforeFaultIsAnswered }
    ensures disconnect { FirstDisconnectCloses }
    ensures runs { RunsEndOnce }
    ensures gone { NobodyIsGone }
    ensures full { FullAfterEnough }
{
    frame_laws();
    message_laws();
    history_laws();
    command_laws();
    runner_laws();
}

/// Says what holds while a session runs, where reader, runner, session and writer wait for something to come, and the
/// queues are empty: all that was read is answered, and the answers are written. It does nothing: its contract is the
/// laws. The second speaks of the ends themselves.
pub fn waiting_laws<I: Source, O: Sink, L: Loader, R: Wait + Drop>()
    ensures waiting { WaitingOwesNothing }
    ensures ends { WaitingEndsOweNothing R I.supply O.output L.loaded }
{
    history_laws();
}

/// How the program ends, row by row, and how much of a file is read. It does nothing: its contract is the examples.
pub fn worked_exits()
    ensures statuses { StatusesAre }
    ensures lines { LastLinesAre }
    ensures frames { FramingFaultsAreNumbered }
    ensures refusals { RefusalsAreNumbered }
    ensures texts { LongTextsAreNoticed }
{}
