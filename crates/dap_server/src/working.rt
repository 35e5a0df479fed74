//! The conversation of an adapter that works while no request waits.

ghost use Rattle.std.specs.Prelude.{◌≡◌, [], ◌∷◌, IfOk, IfErr, OnOk, map};
ghost use Rattle.byte_streams.specs.Streams.{Appends};
ghost use Rattle.dap_server.specs.Messages.{plain_event};
ghost use Rattle.dap_server.specs.Serving.{HasFailed};
ghost use Rattle.dap_server.specs.ServingInbox.{OutputFailures, CannotTell, end_of_input};
ghost use Rattle.dap_server.specs.Working.{ServedWorker, OwesNothing, OwesNothingIdle, Tells};

use crate::ending::{Ending, ServeFault};
use crate::inbox::Item;
use crate::messages::frames_of_events;
use crate::pace::{Next, Pace, Polling};
use crate::polled::Polled;
use crate::reply::Event;
use crate::responder::Responder;
use crate::serving::{Client, answer_all};
use crate::worker::Worker;
use byte_streams::{Sink, WriteFailed, write_all};
use dap_frame::Decoder;
use std::alloc::{AllocError, Global};
use std::sync::Wait;

/// Serves a client as [`crate::serve_inbox`], and lets the adapter work while it is busy and nothing has come: each time
/// for one part of its work, whose events are sent before anything else is taken.
///
/// # Errors
///
/// As `serve_inbox`; `NoSeq`, `NoMemory` and `Output` also where the events of a part can't be sent, and `NoMemory` where
/// there is no memory for a part.
pub fn serve_worker<W: Worker, I: Polled<O>, O: Sink>(
    rt: &impl Wait,
    alloc: Global,
    worker: &mut W,
    inbox: &mut I,
    output: &mut O,
) -> Result<Ending, ServeFault>
    // An item may be waited for wherever nothing is owed and the adapter isn't busy, and looked for wherever nothing is
    // owed. So it is neither waited nor looked for elsewhere, whether the session ends or not.
    requires waits { (i : I) (o : O) → OwesNothingIdle W.replies W.works W.busy I.gives I.polls worker.old inbox.old i
        (O.output output.old).written (O.output o).written → I.may_wait i o }
    requires looks { (i : I) (o : O) → OwesNothing W.replies W.works W.busy I.gives I.polls worker.old inbox.old i
        (O.output output.old).written (O.output o).written → I.may_look i o }
    ensures origin { W.origin worker.new ≡ W.origin worker.old }
    ensures served { ServedWorker W.replies W.works W.busy I.gives I.polls worker.old worker.new inbox.old inbox.new
        (O.output output.old).written (O.output output.new).written result }
    ensures failures { OutputFailures result (O.output output.old).failures (O.output output.new).failures }
{
    converse::<Polling, W, I, O>(rt, alloc, worker, inbox, output)
}

/// Serves a client at this pace.
pub(crate) fn converse<P: Pace<R, I, O>, R: Responder, I, O: Sink>(
    rt: &impl Wait,
    alloc: Global,
    responder: &mut R,
    inbox: &mut I,
    output: &mut O,
) -> Result<Ending, ServeFault>
    requires waits { (i : I) (o : O) → OwesNothingIdle R.replies P.works P.busy P.gives P.polls responder.old inbox.old
        i (O.output output.old).written (O.output o).written → P.may_wait i o }
    requires looks { (i : I) (o : O) → OwesNothing R.replies P.works P.busy P.gives P.polls responder.old inbox.old i
        (O.output output.old).written (O.output o).written → P.may_look i o }
    ensures origin { R.origin responder.new ≡ R.origin responder.old }
    ensures served { ServedWorker R.replies P.works P.busy P.gives P.polls responder.old responder.new inbox.old
        inbox.new (O.output output.old).written (O.output output.new).written result }
    ensures failures { OutputFailures result (O.output output.old).failures (O.output output.new).failures }
{
    let mut decoder = Decoder::new(alloc);
    let mut next = 1;
    for _ in rt.forever() {
        match P::next_turn(rt, alloc, responder, inbox, output)? {
            Next::Tell(events) => tell(rt, alloc, events, &mut next, output)?,
            Next::Take(Item::Event(event)) => {
                let events = only(alloc, event)?;
                tell(rt, alloc, events, &mut next, output)?;
            }
            Next::Take(Item::Bytes(bytes)) => {
                match decoder.feed(bytes.as_slice()) {
                    Ok(()) => {}
                    Err(_) => return Err(ServeFault::NoMemory),
                }
                let client = answer_all(rt, alloc, responder, &mut decoder, &mut next, output)?;
                match client {
                    Client::Stays => {}
                    Client::Left => return Ok(Ending::Disconnected),
                }
            }
            Next::Take(Item::End) => return Ok(input_end(&decoder)),
            Next::Take(Item::Failed) => return Err(ServeFault::Input),
            Next::Take(Item::NoMemory) => return Err(ServeFault::NoMemory),
        }
    }
    unreachable!()
}

/// Returns how a session ends with its input.
fn input_end(decoder: &Decoder) -> Ending
    ensures { result ≡ end_of_input decoder.now.rest }
{
    if decoder.is_between_frames() {
        Ending::InputEnded
    } else {
        Ending::InputCut
    }
}

/// Returns a list of this event alone.
fn only(alloc: Global, event: Event) -> Result<Vec<Event>, AllocError>
    ensures { IfOk result (λ events. events.items ≡ event ∷ []) }
{
    Ok(vec![in alloc; event]?)
}

/// Sends events.
fn tell<O: Sink>(
    rt: &impl Wait,
    alloc: Global,
    events: Vec<Event>,
    next: &mut u64,
    output: &mut O,
) -> Result<(), ServeFault>
    ensures ok { OnOk result (Tells (map plain_event events.items) next.old next.new
        (Appends (O.output output.old).written (O.output output.new).written)) }
    ensures count { OnOk result ((O.output output.new).failures ≡ (O.output output.old).failures) }
    ensures err { IfErr result (λ fault. CannotTell fault (map plain_event events.items) next.old
        (O.output output.old).written (O.output output.new).written) }
    ensures failed { IfErr result (λ fault. HasFailed fault (O.output output.old).failures
        (O.output output.new).failures) }
{
    let frames = frames_of_events(alloc, events, next)?;
    match write_all(rt, output, frames.as_slice()) {
        Ok(()) => Ok(()),
        Err(WriteFailed) => Err(ServeFault::Output),
    }
}
