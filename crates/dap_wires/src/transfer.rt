//! Reading one event from an input.
ghost use Rattle.std.specs.Prelude.{◌≡◌, false};
ghost use Rattle.dap_session.specs.Incoming.{incoming_of};
ghost use Rattle.dap_wires.specs.Senders.{is_report};
ghost use Rattle.dap_wires.specs.Transfer.{IsRead};

use byte_streams::{GuardedSource, IoFault};
use dap_session::Event;
use std::alloc::Global;
use std::sync::Wait;

/// The largest length of a piece, in bytes.
pub const PIECE_LIMIT: usize = 4096;

/// Where the events of a reader come from, for a reader that sends them by an `S`. Each source of bytes is one.
pub trait Pieces<S> {
    ghost use Rattle.std.specs.Prelude.{◌≡◌, false};
    ghost use Rattle.byte_streams.specs.Streams.{Supply};
    ghost use Rattle.dap_session.specs.Incoming.{incoming_of};
    ghost use Rattle.dap_wires.specs.Senders.{is_report};
    ghost use Rattle.dap_wires.specs.Transfer.{IsRead};

    /// What its reads gave so far, whether one of them found the end, and how many failed.
    ghost given: { Self → Supply };

    /// Where it may be read, by what its reads gave and what was sent by then. One that leaves it out may be read at any time.
    /// It is read only where all is sent, whatever it is: [`read_loop`](crate::read_loop) knows no other reason.
    ghost may_read: { Self → S → Type 0 } = { λ _ _. Unit {0} };

    /// Reads the next piece, and returns it as an event, or an event that says why there is none. Waits until there is one.
    /// The contents of `room` don't matter. The sender is lent to say what was sent by then.
    fn next_piece(
        &mut self,
        rt: &impl Wait,
        alloc: Global,
        room: &mut [u8; PIECE_LIMIT],
        sender: &S,
    ) -> Event
        requires { may_read self.old sender.now }
        ensures read { IsRead (incoming_of result) (given self.old) (given self.new) }
        ensures own { is_report result ≡ false };
}

impl<I: GuardedSource, S> Pieces<S> for I {
    ghost use Rattle.std.specs.Prelude.{◌≡◌};

    ghost given = { I.supply };

    ghost may_read = { λ source _. (i : I) → I.supply i ≡ I.supply source → I.may_read i };

    fn next_piece(
        &mut self,
        rt: &impl Wait,
        alloc: Global,
        room: &mut [u8; PIECE_LIMIT],
        _sender: &S,
    ) -> Event {
        read_event(rt, alloc, self, room)
    }
}

/// Reads the next piece, and returns it as an event, or an event that says why there is none. An interrupted read is tried
/// again. The contents of `room` don't matter: the caller lends it so that it isn't cleared for each read. What was read is
/// returned before the input is read again.
pub(crate) fn read_event<I: GuardedSource>(
    rt: &impl Wait,
    alloc: Global,
    input: &mut I,
    room: &mut [u8; PIECE_LIMIT],
) -> Event
    // The input may be read while nothing was read of it. So it is read no more once anything was.
    requires { (i : I) → I.supply i ≡ I.supply input.old → I.may_read i }
    ensures read { IsRead (incoming_of result) (I.supply input.old) (I.supply input.new) }
    ensures own { is_report result ≡ false }
{
    // This comes before the read, since what was read can't be put back.
    let Ok(mut piece) = Vec::with_capacity(alloc, PIECE_LIMIT) else {
        return Event::NoMemory;
    };
    for _ in rt.forever() {
        match input.read(room) {
            Ok(0) => return Event::End,
            Ok(count) => {
                piece.extend_from_slice(&room[..count]).unwrap();
                return Event::Piece(piece);
            }
            Err(IoFault::Failed) => return Event::ReadFailed,
            Err(IoFault::Interrupted) => {}
        }
    }
    unreachable!()
}
