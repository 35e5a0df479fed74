//! The ends of an inbox, but that of the session.

ghost use Rattle.std.specs.Prelude.{◌≡◌, ◌≤◌, ◌++◌, map, true, false};
ghost use Rattle.std.specs.List.{flat_map};
ghost use Rattle.std.specs.VecDeque.{deque_len, deque_capacity};
ghost use Rattle.std.specs.Coded.{Coded-set, coded_list};
ghost use Rattle.dap_session.specs.contracts.ports.Event as event_row;
ghost use Rattle.dap_session.specs.declared.ports.Event.TheVariants as event;
ghost use Rattle.dap_wires.specs.Ends.{sender_log, receive_log, sender_room};
ghost use Rattle.dap_wires.specs.Rooms.{inbox_room, quiet_room};
ghost use Rattle.dap_wires.specs.Senders.{events_in, are_quiet};

use crate::arrival::Arrival;
use crate::ends::{ReceiveLog, SendEnd};
use crate::window::WindowEntry;
use dap_session::Event;
use dbg_runner::{GhostList, Report};
use std::alloc::Global;
use std::collections::VecDeque;

/// The end of the reader, which sends what comes from a client.
#[derive(Drop)]
pub struct ClientSender<R: Drop> {
    pub(crate) end: SendEnd<Arrival, R>,
    // What was returned as an error.
    pub(crate) handed_back: GhostList<Event>,
    ghost puts: { (sender_log end).first ≡ true },
    ghost room: { sender_room end ≡ inbox_room },
}

/// The end of the runner, which sends reports.
#[derive(Drop)]
pub struct ReportSender<R: Drop> {
    pub(crate) alloc: Global,
    pub(crate) end: SendEnd<Arrival, R>,
    // Where the outputs of each report are counted.
    pub(crate) window: WindowEntry,
    // What was sent and isn't in the queue yet: at most QUIET_LIMIT reports, all of them quiet. It has room for as many.
    pub(crate) kept: VecDeque<Report>,
    // What was returned as an error.
    pub(crate) handed_back: GhostList<Report>,
    ghost puts: { (sender_log end).second ≡ true },
    ghost room: { sender_room end ≡ inbox_room },
    ghost quiet: { are_quiet kept.items ≡ true },
    ghost few: { deque_len kept ≤ quiet_room },
    ghost reserved: { quiet_room ≤ deque_capacity kept },
}

/// The log of what a session received from an inbox that it has left.
#[derive(Drop)]
pub struct InboxLog {
    pub(crate) log: ReceiveLog<Arrival>,
    pub(crate) rest: VecDeque<Report>,
    pub(crate) given: GhostList<Event>,
    ghost takes: { (receive_log log).takes ≡ true },
    ghost in_order: { flat_map events_in (receive_log log).taken ≡ given.entries
        ++ map event.Report rest.items } by { Coded-set (coded_list event_row.the_row.coded) _ _ },
}
