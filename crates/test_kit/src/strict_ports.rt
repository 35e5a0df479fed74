//! An inbox and a loader that may be asked only where a session owes nothing else.

ghost use Rattle.std.specs.Prelude.{◌≡◌, [], map};
ghost use Rattle.dap_session.specs.Incoming.{incoming_of};
ghost use Rattle.dap_session.specs.Ports.{ports};

use crate::session_ports::Events;
use dap_session::{
    Closed, Dialect, Event, GuardedLoader, Inbox, LoadFault, Loader, Orders, Out, SessionFault,
    drive,
};
use dbg_runner::GhostList;
use std::alloc::Global;
use std::sync::Wait;

/// An inbox that may be asked only where a session that counts from 1, over ports at which nothing was done before, owes
/// nothing.
#[derive(Drop)]
pub struct StrictInbox<E: Events> {
    events: E,
    given: GhostList<Event>,
}

impl<L: GuardedLoader<StrictInbox<E>, O, D>, O: Out, D: Orders, E: Events> Inbox<L, O, D>
    for StrictInbox<E> {
    ghost use Rattle.std.specs.Prelude.{map, ⊤, []};
    ghost use Rattle.dap_msg.specs.declared.request.Dialect.TheVariants.{Codes};
    ghost use Rattle.dap_session.specs.Coming.{sources};
    ghost use Rattle.dap_session.specs.Incoming.{incoming_of};
    ghost use Rattle.dap_session.specs.Ports.{ports};
    ghost use Rattle.dap_session.specs.Serving.{OwesNothing};

    ghost given = { λ s. map incoming_of s.given.entries };

    ghost Origin = { ⊤ };

    ghost origin = { λ _. tt };

    ghost may_ask = { λ i l o d. OwesNothing Codes (sources [] [])
        (sources (map incoming_of i.given.entries) (L.loaded l))
        (ports (record { frames = []; refused = [] }) (record { orders = []; fulls = 0; refusals = 0 }))
        (ports (O.seen o) (D.seen d)) };

    fn next(&mut self, _loader: &L, _out: &O, _orders: &D) -> Event {
        let event = self.events.next_event();
        self.given = self.given.and(&event);
        event
    }
}

/// A loader that may be asked only for the file of the launch that such a session waits for, where it owes nothing else.
#[derive(Drop)]
pub struct StrictLoader<L: Loader + Drop>(L);

impl<L: Loader + Drop, O: Out, D: Orders, E: Events> GuardedLoader<StrictInbox<E>, O, D>
    for StrictLoader<L> {
    ghost use Rattle.std.specs.Prelude.{map, [], Some};
    ghost use Rattle.dap_msg.specs.declared.request.Dialect.TheVariants.{Codes};
    ghost use Rattle.dap_session.specs.Coming.{sources};
    ghost use Rattle.dap_session.specs.Incoming.{incoming_of};
    ghost use Rattle.dap_session.specs.Ports.{ports};
    ghost use Rattle.dap_session.specs.Serving.{OwesOnly};

    ghost loaded = { λ l. L.loaded l.0 };

    ghost Origin = { L.Origin };

    ghost origin = { λ l. L.origin l.0 };

    ghost may_load = { λ l path i o d. OwesOnly Codes (Some path) (sources [] [])
        (sources (map incoming_of i.given.entries) (L.loaded l.0))
        (ports (record { frames = []; refused = [] }) (record { orders = []; fulls = 0; refusals = 0 }))
        (ports (O.seen o) (D.seen d)) };

    fn load(
        &mut self,
        path: &str,
        _inbox: &StrictInbox<E>,
        _out: &O,
        _orders: &D,
    ) -> Result<Vec<u8>, LoadFault> {
        self.0.load(path)
    }
}

/// Drives a session over such ports: what `drive` requires isn't empty.
pub fn drive_strictly<R: Wait, E: Events, L: Loader + Drop, O: Out, D: Orders>(
    rt: &R,
    alloc: Global,
    inbox: &mut StrictInbox<E>,
    loader: &mut StrictLoader<L>,
    out: &mut O,
    orders: &mut D,
) -> Result<Closed, SessionFault>
    requires events { map incoming_of inbox.old.given.entries ≡ [] }
    requires loads { L.loaded loader.old.0 ≡ [] }
    requires out { O.seen out.old ≡ record { frames = []; refused = [] } }
    requires orders { D.seen orders.old ≡ record { orders = []; fulls = 0; refusals = 0 } }
{
    drive(rt, alloc, Dialect::Codes, inbox, loader, out, orders)
}
