//! The inbox of one session.

ghost use Rattle.std.specs.Prelude.{◌≡◌, []};
ghost use Rattle.dap_wires.specs.Inbox.{taken_events, event_queue, session_events, session_origin, received, left_queue};

use crate::event_ends::InboxLog;
use crate::event_receiver::EventReceiver;
use dap_session::{Dialect, Event, Inbox, Loader, Orders, Out};
use std::snapshot::Snapshot;
use std::sync::Wait;

/// The inbox of one session, with this loader and these other ports. The next event is taken only where the session owes
/// nothing. The types of the ports are part of this type, so that a session has no others to show.
#[derive(Drop)]
pub struct SessionInbox<L, O, D, R: Drop> {
    rt: R,
    events: EventReceiver<R>,
    dialect: Dialect,
    // The other ports as they were when nothing was taken yet.
    loader: Snapshot<L>,
    out: Snapshot<O>,
    orders: Snapshot<D>,
}

impl<L, O, D, R: Drop> SessionInbox<L, O, D, R> {
    /// The inbox of a session that has taken nothing, whose client speaks `dialect`.
    pub fn new(
        rt: R,
        events: EventReceiver<R>,
        dialect: Dialect,
        loader: &L,
        out: &O,
        orders: &D,
    ) -> SessionInbox<L, O, D, R>
        requires { taken_events events ≡ [] }
        ensures events { session_events result ≡ [] }
        ensures origin { session_origin result ≡ (event_queue events, dialect, loader.now, out.now, orders.now) }
    {
        SessionInbox {
            rt,
            events,
            dialect,
            loader: Snapshot::of(loader),
            out: Snapshot::of(out),
            orders: Snapshot::of(orders),
        }
    }

    /// Leaves the inbox: from now on each event or report that is sent is returned as an error.
    pub fn leave(self) -> InboxLog
        ensures received { received result ≡ session_events self }
        ensures queue { left_queue result ≡ (session_origin self).0 }
    {
        self.events.leave()
    }
}

impl<L: Loader, O: Out, D: Orders, R: Wait + Drop> Inbox<L, O, D> for SessionInbox<L, O, D, R> {
    ghost use Rattle.std.specs.Prelude.{◌≡◌, []};
    ghost use Rattle.dap_session.specs.Coming.{sources};
    ghost use Rattle.dap_session.specs.Ports.{ports};
    ghost use Rattle.dap_session.specs.Serving.{OwesNothing};
    ghost use Rattle.dap_wires.specs.Inbox.{SessionOrigin, session_events, session_origin};

    ghost given = { session_events };

    ghost Origin = { SessionOrigin L O D };

    ghost origin = { session_origin };

    ghost may_ask = { λ i l o d. OwesNothing i.dialect
        (sources [] (L.loaded i.loader.value)) (sources (session_events i) (L.loaded l))
        (ports (O.seen i.out.value) (D.seen i.orders.value)) (ports (O.seen o) (D.seen d))
        × (L.origin l ≡ L.origin i.loader.value) × (O.origin o ≡ O.origin i.out.value)
        × (D.origin d ≡ D.origin i.orders.value) × O.keeps_none o };

    fn next(&mut self, _loader: &L, _out: &O, _orders: &D) -> Event {
        let SessionInbox { rt, events, .. } = self;
        for _ in rt.forever() {
            if let Some(event) = events.give_kept() {
                return event;
            }
            if let Some(event) = events.receive() {
                return event;
            }
        }
        unreachable!()
    }
}
