//! The end of the session at an inbox.

ghost use Rattle.std.specs.Prelude.{◌≡◌, ◌++◌, map, true};
ghost use Rattle.std.specs.List.{flat_map};
ghost use Rattle.std.specs.Coded.{Coded-set, coded_list};
ghost use Rattle.dap_session.specs.contracts.ports.Event as event_row;
ghost use Rattle.dap_session.specs.declared.ports.Event.TheVariants as event;
ghost use Rattle.dap_wires.specs.Ends.{receiver_log, receiver_room};
ghost use Rattle.dap_wires.specs.Rooms.{inbox_room};
ghost use Rattle.dap_wires.specs.Senders.{events_in};

use crate::arrival::{Arrival, outputs_of};
use crate::ends::ReceiveEnd;
use crate::event_ends::InboxLog;
use crate::window::WindowExit;
use dap_session::Event;
use dbg_runner::{GhostList, Report};
use std::alloc::Global;
use std::collections::VecDeque;
use std::sync::Wait;

/// The end of the session, which receives events. Its fields are private, so that none is waited for while one that was
/// taken isn't given.
#[derive(Drop)]
pub struct EventReceiver<R: Drop> {
    end: ReceiveEnd<Arrival, R>,
    window: WindowExit,
    // What was taken from the queue and isn't given yet.
    rest: VecDeque<Report>,
    // What was given.
    given: GhostList<Event>,
    ghost takes: { (receiver_log end).takes ≡ true },
    ghost room: { receiver_room end ≡ inbox_room },
    ghost in_order: { flat_map events_in (receiver_log end).taken ≡ given.entries
        ++ map event.Report rest.items } by { Coded-set (coded_list event_row.the_row.coded) _ _ },
}

impl<R: Drop> EventReceiver<R> {
    ghost use Rattle.std.specs.Prelude.{◌≡◌, ◌++◌, ◌∷◌, [], true, IfSome, IfNone};
    ghost use Rattle.dap_session.specs.Incoming.{incoming_of};
    ghost use Rattle.dap_wires.specs.Ends.{receiver_log, receiver_queue, receiver_room};
    ghost use Rattle.dap_wires.specs.Inbox.{taken_events, ungiven_reports, event_queue, received, left_queue};
    ghost use Rattle.dap_wires.specs.Rooms.{inbox_room};

    /// The end at a queue from which nothing was taken yet.
    pub(crate) fn new(
        alloc: Global,
        end: ReceiveEnd<Arrival, R>,
        window: WindowExit,
    ) -> EventReceiver<R>
        requires takes { (receiver_log end).takes ≡ true }
        requires room { receiver_room end ≡ inbox_room }
        requires none { (receiver_log end).taken ≡ [] }
        ensures events { taken_events result ≡ [] }
        ensures queue { event_queue result ≡ receiver_queue end }
    {
        EventReceiver {
            end,
            window,
            rest: VecDeque::new(alloc),
            given: GhostList::new(),
        }
    }

    /// Gives the oldest report that was taken and isn't given yet, if there is one.
    pub(crate) fn give_kept(&mut self) -> Option<Event>
        ensures some { IfSome result (λ event.
            taken_events self.new ≡ taken_events self.old ++ incoming_of event ∷ []) }
        ensures none { IfNone result (taken_events self.new ≡ taken_events self.old) }
        ensures all { IfNone result (ungiven_reports self.new ≡ []) }
        ensures queue { event_queue self.new ≡ event_queue self.old }
    {
        let event = Event::Report(self.rest.pop_front()?);
        self.given = self.given.and(&event);
        Some(event)
    }

    /// Leaves the inbox: from now on each event or report that is sent is returned as an error.
    pub fn leave(self) -> InboxLog
        ensures received { received result ≡ taken_events self }
        ensures queue { left_queue result ≡ event_queue self }
    {
        let EventReceiver {
            end,
            rest,
            given,
            ..
        } = self;
        InboxLog {
            log: end.leave(),
            rest,
            given,
        }
    }
}

impl<R: Wait + Drop> EventReceiver<R> {
    ghost use Rattle.std.specs.Prelude.{◌≡◌, ◌++◌, ◌∷◌, [], true, IfSome, IfNone};
    ghost use Rattle.dap_session.specs.Incoming.{incoming_of};
    ghost use Rattle.dap_wires.specs.Ends.{receiver_log, receiver_queue, receiver_room};
    ghost use Rattle.dap_wires.specs.Inbox.{taken_events, ungiven_reports, event_queue, received, left_queue};
    ghost use Rattle.dap_wires.specs.Rooms.{inbox_room};

    /// Takes the next message, where all that was taken before was given, and gives the event in it. Blocks until there is
    /// one. Returns `None` where it is of quiet reports, which [`give_kept`](Self::give_kept) gives, and where an allocation
    /// failed or the senders are gone.
    pub(crate) fn receive(&mut self) -> Option<Event>
        requires { ungiven_reports self.old ≡ [] }
        ensures some { IfSome result (λ event.
            taken_events self.new ≡ taken_events self.old ++ incoming_of event ∷ []) }
        ensures none { IfNone result (taken_events self.new ≡ taken_events self.old) }
        ensures queue { event_queue self.new ≡ event_queue self.old }
    {
        self.window.let_out();
        match self.end.receive()? {
            Arrival::Event(event) => {
                if let Event::Report(report) = &event {
                    self.window.take(outputs_of(report));
                }
                self.given = self.given.and(&event);
                Some(event)
            }
            Arrival::Quiet(reports) => {
                self.rest = reports;
                None
            }
        }
    }
}
