//! The ports of a runner that works, in memory.

use dbg_plan::Mode;
use dbg_runner::{ConsideredDebuggee, Gate, GhostList, Order, OrdersIn, Report, Reports};
use std::alloc::Global;

/// An order to run a debuggee as run 1, and then Quit. While it runs, a look for an order finds at most a Hold.
#[derive(Drop)]
pub struct OneRun<'a> {
    /// What the run begins with, until it was taken.
    debuggee: Option<ConsideredDebuggee>,
    mode: Mode,
    /// A look, from 1, and the run whose Hold it finds.
    holds: &'a [(u64, u64)],
    /// Looks so far.
    looks: u64,
    taken: GhostList<Order>,
}

impl<'a> OneRun<'a> {
    ghost use Rattle.std.specs.Prelude.{◌≡◌, []};

    /// A run in this mode. Each of `holds` is a look, from 1, and the run whose Hold it finds.
    pub fn new(debuggee: ConsideredDebuggee, mode: Mode, holds: &'a [(u64, u64)]) -> OneRun<'a>
        ensures { result.taken.entries ≡ [] }
    {
        OneRun {
            debuggee: Some(debuggee),
            mode,
            holds,
            looks: 0,
            taken: GhostList::new(),
        }
    }

    /// The run whose Hold a look finds.
    fn held_at(&self, look: u64) -> Option<u64> {
        for (at, run) in self.holds {
            if *at == look {
                return Some(*run);
            }
        }
        None
    }
}

impl OrdersIn for OneRun<'_> {
    ghost use Rattle.std.specs.Prelude.{ℕ, map};
    ghost use Rattle.dbg_runner.specs.Orders.{plain_order};

    ghost taken = { λ orders. map plain_order orders.taken.entries };

    ghost Origin = { ℕ };

    ghost origin = { λ _. 0 };

    fn next(&mut self) -> Order {
        let order = match self.debuggee.take() {
            Some(debuggee) => Order::Go {
                run: 1,
                debuggee,
                mode: self.mode,
            },
            None => Order::Quit,
        };
        self.taken = self.taken.and(&order);
        order
    }

    fn poll(&mut self) -> Option<Order> {
        let look = self.looks.saturating_add(1);
        self.looks = look;
        let Some(run) = self.held_at(look) else {
            return None;
        };
        let order = Order::Hold { run };
        self.taken = self.taken.and(&order);
        Some(order)
    }
}

/// Room for some reports. Where memory runs out, a report is handed back too.
#[derive(Drop)]
pub struct Tray {
    pub reports: Vec<Report>,
    room: usize,
    sent: GhostList<Report>,
    handed_back: GhostList<Report>,
}

impl Tray {
    ghost use Rattle.std.specs.Prelude.{◌≡◌, []};

    pub fn new(alloc: Global, room: usize) -> Tray
        ensures sent { result.sent.entries ≡ [] }
        ensures handed_back { result.handed_back.entries ≡ [] }
    {
        Tray {
            reports: Vec::new(alloc),
            room,
            sent: GhostList::new(),
            handed_back: GhostList::new(),
        }
    }
}

impl Reports for Tray {
    ghost use Rattle.std.specs.Prelude.{ℕ, map};
    ghost use Rattle.dbg_runner.specs.Reported.{plain_report};

    ghost sent = { λ tray. map plain_report tray.sent.entries };

    ghost handed_back = { λ tray. map plain_report tray.handed_back.entries };

    ghost Origin = { ℕ };

    ghost origin = { λ _. 0 };

    fn send(&mut self, report: Report) -> Result<(), Report> {
        if self.reports.len() >= self.room {
            self.handed_back = self.handed_back.and(&report);
            return Err(report);
        }
        let sent = self.sent.and(&report);
        match self.reports.push(report) {
            Ok(()) => {
                self.sent = sent;
                Ok(())
            }
            Err(failed) => {
                self.handed_back = self.handed_back.and(&failed.value);
                Err(failed.value)
            }
        }
    }
}

/// The last report, and how many there were.
#[derive(Drop)]
pub struct Last {
    pub report: Option<Report>,
    pub count: u64,
    sent: GhostList<Report>,
}

impl Last {
    ghost use Rattle.std.specs.Prelude.{◌≡◌, []};

    /// No report yet.
    pub fn new() -> Last
        ensures { result.sent.entries ≡ [] }
    {
        Last {
            report: None,
            count: 0,
            sent: GhostList::new(),
        }
    }
}

impl Reports for Last {
    ghost use Rattle.std.specs.Prelude.{ℕ, [], map};
    ghost use Rattle.dbg_runner.specs.Reported.{plain_report};

    ghost sent = { λ last. map plain_report last.sent.entries };

    ghost handed_back = { λ _. [] };

    ghost Origin = { ℕ };

    ghost origin = { λ _. 0 };

    fn send(&mut self, report: Report) -> Result<(), Report> {
        self.sent = self.sent.and(&report);
        self.report = Some(report);
        self.count = self.count.saturating_add(1);
        Ok(())
    }
}

/// A gate that is open.
#[derive(Drop)]
pub struct Open {
    /// The first slices that passed, each by the number of its run and its own.
    pub slices: Vec<(u64, u64)>,
    room: usize,
    passed: GhostList<(u64, u64)>,
}

impl Open {
    ghost use Rattle.std.specs.Prelude.{◌≡◌, []};

    /// A gate that notes at most this many slices.
    pub fn new(alloc: Global, room: usize) -> Open
        ensures { result.passed.entries ≡ [] }
    {
        Open {
            slices: Vec::new(alloc),
            room,
            passed: GhostList::new(),
        }
    }
}

impl Gate for Open {
    ghost passed = { λ gate. gate.passed.entries };

    fn pass(&mut self, run: u64, slice: u64) {
        self.passed = self.passed.and(&(run, slice));
        if self.slices.len() < self.room {
            let _ = self.slices.push((run, slice));
        }
    }
}
