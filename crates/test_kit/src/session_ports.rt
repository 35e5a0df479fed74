//! The ports of a session, in memory.

ghost use Rattle.std.specs.Prelude.{◌≤◌, ◌+◌, length, IfOk};
ghost use Rattle.pl0_tree.specs.Faults.{limit};

use crate::runner::Runner;
use dap_session::{Event, Inbox, LoadFault, LoadLog, Loader, Order, OrderFault, Orders, Out};
use dbg_runner::GhostList;
use std::alloc::{AllocError, Global};
use std::cell::Cell;

/// The most bytes that a loader returns of a file.
const MOST: usize = 65_537;

/// What came, each with the number of events that were given before it.
pub type Noted<T> = Vec<(usize, T)>;

/// What the ports of one session share.
#[derive(Drop)]
pub struct Shared {
    /// Where the orders go, and where the source of events finds the reports.
    pub runner: Runner,
    /// How many events were given, as their source counts them; 0 where it doesn't.
    pub given: Cell<usize>,
}

impl Shared {
    /// No run, and no event given.
    pub fn new() -> Shared {
        Shared {
            runner: Runner::new(),
            given: Cell::new(0),
        }
    }
}

/// Where the events of a session come from.
pub trait Events {
    /// The next event.
    fn next_event(&mut self) -> Event;
}

/// An inbox of the events of a source.
#[derive(Drop)]
pub struct Incoming<E: Events> {
    events: E,
    given: GhostList<Event>,
}

impl<E: Events> Incoming<E> {
    pub fn new(events: E) -> Incoming<E> {
        Incoming {
            events,
            given: GhostList::new(),
        }
    }
}

impl<L, O, D, E: Events> Inbox<L, O, D> for Incoming<E> {
    ghost use Rattle.std.specs.Prelude.{map, ⊤};
    ghost use Rattle.dap_session.specs.Incoming.{incoming_of};

    ghost given = { λ s. map incoming_of s.given.entries };

    ghost Origin = { ⊤ };

    ghost origin = { λ _. tt };

    fn next(&mut self, _loader: &L, _out: &O, _orders: &D) -> Event {
        let event = self.events.next_event();
        self.given = self.given.and(&event);
        event
    }
}

/// Frames, with room for some. Where memory runs out, a frame is handed back too.
#[derive(Drop)]
pub struct Frames<'a> {
    shared: &'a Shared,
    room: usize,
    pub noted: Noted<Vec<u8>>,
    put: GhostList<Vec<u8>>,
    refused: GhostList<Vec<u8>>,
}

impl<'a> Frames<'a> {
    pub fn new(alloc: Global, shared: &'a Shared, room: usize) -> Frames<'a> {
        Frames {
            shared,
            room,
            noted: Vec::new(alloc),
            put: GhostList::new(),
            refused: GhostList::new(),
        }
    }
}

impl Out for Frames<'_> {
    ghost use Rattle.std.specs.Prelude.{map, ⊤};

    ghost seen = { λ s. record {
      frames = map (λ f. f.items) s.put.entries;
      refused = map (λ f. f.items)
          s.refused.entries;
    } };

    ghost keeps_none = { λ _. ⊤ };

    ghost Origin = { ⊤ };

    ghost origin = { λ _. tt };

    fn put(&mut self, frame: Vec<u8>) -> Result<(), Vec<u8>> {
        if self.noted.len() >= self.room {
            self.refused = self.refused.and(&frame);
            return Err(frame);
        }
        let put = self.put.and(&frame);
        match self.noted.push((self.shared.given.get(), frame)) {
            Ok(()) => {
                self.put = put;
                Ok(())
            }
            Err(failed) => {
                let (_, frame) = failed.value;
                self.refused = self.refused.and(&frame);
                Err(frame)
            }
        }
    }

    fn put_last(&mut self, frame: Vec<u8>) -> Result<(), Vec<u8>> {
        self.put(frame)
    }
}

/// Where orders go, with room for some: to the runner. Where memory runs out, an order is refused as `Gone`.
#[derive(Drop)]
pub struct Pushed<'a> {
    alloc: Global,
    shared: &'a Shared,
    room: usize,
    pub noted: Noted<String>,
    pushed: GhostList<Order>,
    fulls: GhostList<()>,
    refusals: GhostList<()>,
}

impl<'a> Pushed<'a> {
    pub fn new(alloc: Global, shared: &'a Shared, room: usize) -> Pushed<'a> {
        Pushed {
            alloc,
            shared,
            room,
            noted: Vec::new(alloc),
            pushed: GhostList::new(),
            fulls: GhostList::new(),
            refusals: GhostList::new(),
        }
    }
}

/// An order as `Go 1`, `Hold 1` or `Quit`.
fn shown(alloc: Global, order: &Order) -> Result<String, AllocError> {
    match order {
        Order::Go { run, .. } => format!(in alloc; "Go {run}"),
        Order::Hold { run } => format!(in alloc; "Hold {run}"),
        Order::Quit => String::from_str(alloc, "Quit"),
    }
}

impl Orders for Pushed<'_> {
    ghost use Rattle.std.specs.Prelude.{◌≤◌, length, map, vec_len, ⊤};
    ghost use Rattle.dbg_runner.specs.Orders.{plain_order};

    ghost seen = { λ s. record {
      orders = map plain_order s.pushed.entries;
      fulls = length s.fulls.entries;
      refusals =
          length s.refusals.entries;
    } };

    ghost is_full = { λ s. s.room ≤ vec_len s.noted };

    ghost Origin = { ⊤ };

    ghost origin = { λ _. tt };

    fn push(&mut self, order: Order) -> Result<(), OrderFault> {
        if self.noted.len() >= self.room {
            self.fulls = self.fulls.and(&());
            return Err(OrderFault::Full);
        }
        let Ok(shown) = shown(self.alloc, &order) else {
            self.refusals = self.refusals.and(&());
            return Err(OrderFault::Gone);
        };
        if self.noted.push((self.shared.given.get(), shown)).is_err() {
            self.refusals = self.refusals.and(&());
            return Err(OrderFault::Gone);
        }
        self.pushed = self.pushed.and(&order);
        self.shared.runner.obey(order);
        Ok(())
    }
}

/// Files in memory, cut after 65,537 bytes. No other file can be read.
#[derive(Drop)]
pub struct Files<'a> {
    alloc: Global,
    named: &'a [(&'a str, &'a [u8])],
    other: Option<&'a [u8]>,
    log: LoadLog,
}

impl<'a> Files<'a> {
    /// Files at these paths.
    pub fn named(alloc: Global, named: &'a [(&'a str, &'a [u8])]) -> Files<'a> {
        Files {
            alloc,
            named,
            other: None,
            log: LoadLog::new(),
        }
    }

    /// The same file at each path.
    pub fn everywhere(alloc: Global, file: &'a [u8]) -> Files<'a> {
        Files {
            alloc,
            named: &[],
            other: Some(file),
            log: LoadLog::new(),
        }
    }

    /// No file that can be read.
    pub fn none(alloc: Global) -> Files<'a> {
        Files::named(alloc, &[])
    }

    /// The file at a path.
    fn at(&self, path: &str) -> Option<&'a [u8]> {
        for (name, file) in self.named {
            if *name == path {
                return Some(*file);
            }
        }
        self.other
    }
}

impl Loader for Files<'_> {
    ghost use Rattle.std.specs.Prelude.{⊤};
    ghost use Rattle.dap_session.specs.Loads.{logged};

    ghost loaded = { λ files. logged files.log };

    ghost Origin = { ⊤ };

    ghost origin = { λ _. tt };

    fn load(&mut self, path: &str) -> Result<Vec<u8>, LoadFault> {
        let answer = match self.at(path) {
            Some(bytes) => beginning(self.alloc, bytes),
            None => Err(LoadFault::CannotRead),
        };
        self.log.note(path, answer)
    }
}

/// Returns the first 65,537 bytes of a file, or all where it has fewer.
fn beginning(alloc: Global, file: &[u8]) -> Result<Vec<u8>, LoadFault>
    ensures { IfOk result (λ bytes. length bytes.items ≤ limit + 1) }
{
    let Ok(mut bytes) = Vec::from_slice(alloc, file) else {
        return Err(LoadFault::NoMemory);
    };
    bytes.truncate(MOST);
    Ok(bytes)
}
