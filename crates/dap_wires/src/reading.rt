//! The loop that reads an input and sends what it read to an inbox.

ghost use Rattle.std.specs.Prelude.{◌≡◌, ◌++◌, List};
ghost use Rattle.dap_history.specs.Events.{Incoming};
ghost use Rattle.dap_session.specs.Incoming.{incoming_of};
ghost use Rattle.dap_wires.specs.declared.event_ends.ClientSender.{ClientSender};
ghost use Rattle.dap_wires.specs.Inbox.{client_events, client_queue, returned_events};
ghost use Rattle.dap_wires.specs.Reading.{IsReadUntil, HasSentAll, end_by};

use crate::event_ends::ClientSender;
use crate::transfer::{PIECE_LIMIT, Pieces};
use byte_streams::Source;
use dap_session::Event;
use std::alloc::Global;
use std::sync::Wait;

/// How reading ended.
#[derive(Clone, Copy)]
pub enum ReadEnd {
    /// The input came to its end.
    Ended,
    /// A read failed.
    Failed,
    /// An allocation failed.
    NoMemory,
    /// The session had left the inbox, so an event was returned as an error.
    HandedBack,
}

/// The right to read inputs of one type into inboxes. Who has this right, and of the input knows no more than its type, can
/// read it by no other way: it is read on only where all that was read of it is sent.
pub trait Reads<I>: Drop + Sized {
    ghost use Rattle.std.specs.Prelude.{◌≡◌, ◌++◌, List};
    ghost use Rattle.byte_streams.specs.Streams.{Supply, IsOfWhole};
    ghost use Rattle.dap_history.specs.Events.{Incoming};
    ghost use Rattle.dap_wires.specs.Inbox.{client_events, client_queue, returned_events};
    ghost use Rattle.dap_wires.specs.Reading.{IsReadUntil};

    /// What the reads of an input gave.
    ghost supply: { I → Supply };

    /// Reads as [`read_loop`] does.
    fn read_into(&self, alloc: Global, source: &mut I, inbox: &mut ClientSender<Self>) -> ReadEnd
        ensures read { (sent : List Incoming) × (client_events inbox.new ≡ client_events inbox.old ++ sent)
            × IsReadUntil result sent (supply source.old) (supply source.new) }
        ensures of_whole { ∥ IsOfWhole (supply source.new) ∥₁ }
        ensures queue { client_queue inbox.new ≡ client_queue inbox.old };
}

/// Each source, by [`read_loop`].
impl<I: Source, R: Wait + Drop> Reads<I> for R {
    ghost supply = { I.supply };

    fn read_into(&self, alloc: Global, source: &mut I, inbox: &mut ClientSender<R>) -> ReadEnd {
        read_loop(self, alloc, source, inbox)
    }
}

/// Reads pieces of an input and sends them, until the input ends, a read or an allocation fails, or the session has left
/// the inbox. Returns which of these it was. All but the last are sent to the inbox too.
pub fn read_loop<I: Pieces<ClientSender<R>>, R: Wait + Drop>(
    rt: &impl Wait,
    alloc: Global,
    input: &mut I,
    inbox: &mut ClientSender<R>,
) -> ReadEnd
    // The input may be read wherever all that was read is sent. So it is read nowhere else, whether reading ends or not.
    requires { (i : I) (s : ClientSender R) → client_queue s ≡ client_queue inbox.old
        → HasSentAll (client_events inbox.old) (client_events s) (returned_events inbox.old) (returned_events s)
        (I.given input.old) (I.given i) → I.may_read i s }
    ensures read { (sent : List Incoming) × (client_events inbox.new ≡ client_events inbox.old ++ sent)
        × ((read : IsReadUntil result sent (I.given input.old)
        (I.given input.new))
        × (returned_events inbox.new ≡ returned_events inbox.old ++ read.lost)) }
    ensures queue { client_queue inbox.new ≡ client_queue inbox.old }
{
    let mut room = [0; PIECE_LIMIT];
    for _ in rt.forever() {
        let event = input.next_piece(rt, alloc, &mut room, inbox);
        let end = end_of(&event);
        if inbox.send(event).is_err() {
            return ReadEnd::HandedBack;
        }
        if let Some(end) = end {
            return end;
        }
    }
    unreachable!()
}

/// Returns how reading ends with this event, or `None` where it goes on.
fn end_of(event: &Event) -> Option<ReadEnd>
    ensures { result ≡ end_by (incoming_of event.now) }
{
    match event {
        Event::Piece(_) | Event::File(_) | Event::Report(_) => None,
        Event::End => Some(ReadEnd::Ended),
        Event::ReadFailed => Some(ReadEnd::Failed),
        Event::NoMemory => Some(ReadEnd::NoMemory),
    }
}
