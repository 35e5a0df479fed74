//! Joins three ports to one.

ghost use Rattle.std.specs.Prelude.{◌≡◌, []};
ghost use Rattle.std.specs.List.{flat_map};
ghost use Rattle.std.specs.Coded.{Coded-set, coded_list};
ghost use Rattle.dbg_runner.specs.PlainCode.{order_code, report_code};
ghost use Rattle.dbg_runner.specs.NotedActs.{acts_of};
ghost use Rattle.dbg_runner.specs.Queues.{order_in, sent_in, handed_back_in, passed_in};

use crate::ghost_list::GhostList;
use crate::noted_act::NotedAct;
use crate::order::Order;
use crate::ports::Ports;
use crate::queues::{Gate, OrdersIn, Reports};
use crate::report::Report;
use dbg_plan::Debuggee;
use std::snapshot::Snapshot;

/// Three ports as one, with a history of what was done at them. The type ensures that each port's list is what the history
/// says of it: the orders taken, the reports sent and handed back, the slices that passed.
#[derive(Drop)]
pub struct Joined<O: OrdersIn, S: Reports, G: Gate> {
    orders: O,
    reports: S,
    gate: G,
    acts: GhostList<NotedAct>,
    pub ghost taken: { O.taken orders ≡ flat_map order_in
        (acts_of acts.entries) } by { Coded-set (coded_list order_code) _ _ },
    pub ghost sent: { S.sent reports ≡ flat_map sent_in
        (acts_of acts.entries) } by { Coded-set (coded_list report_code) _ _ },
    pub ghost handed_back: { S.handed_back reports
        ≡ flat_map handed_back_in (acts_of acts.entries) } by { Coded-set (coded_list report_code) _ _ },
    pub ghost passed: { G.passed gate ≡ flat_map passed_in (acts_of acts.entries) },
}

impl<O: OrdersIn + Drop, S: Reports + Drop, G: Gate + Drop> Joined<O, S, G> {
    /// Joins three ports at which nothing was done yet.
    pub fn new(orders: O, reports: S, gate: G) -> Joined<O, S, G>
        requires taken { O.taken orders ≡ [] }
        requires sent { S.sent reports ≡ [] }
        requires handed_back { S.handed_back reports ≡ [] }
        requires passed { G.passed gate ≡ [] }
        ensures acts { acts_of result.acts.entries ≡ [] }
        ensures orders { O.origin result.orders ≡ O.origin orders }
        ensures reports { S.origin result.reports ≡ S.origin reports }
    {
        Joined {
            orders,
            reports,
            gate,
            acts: GhostList::new(),
        }
    }

    /// Returns the three ports. What was done at each is what the history says of it.
    pub fn into_ports(self) -> (O, S, G)
        ensures taken { O.taken result.0 ≡ flat_map order_in (acts_of self.acts.entries) }
        ensures sent { S.sent result.1 ≡ flat_map sent_in (acts_of self.acts.entries) }
        ensures handed_back { S.handed_back result.1 ≡ flat_map handed_back_in (acts_of self.acts.entries) }
        ensures passed { G.passed result.2 ≡ flat_map passed_in (acts_of self.acts.entries) }
        ensures orders { O.origin result.0 ≡ O.origin self.orders }
        ensures reports { S.origin result.1 ≡ S.origin self.reports }
    {
        let Joined {
            orders,
            reports,
            gate,
            acts: _,
        } = self;
        (orders, reports, gate)
    }
}

impl<O: OrdersIn + Drop, S: Reports + Drop, G: Gate + Drop> Ports for Joined<O, S, G> {
    ghost acts = { λ joined. acts_of joined.acts.entries };

    ghost Origin = { O.Origin × S.Origin };

    ghost origin = { λ joined. (O.origin joined.orders, S.origin joined.reports) };

    fn next(&mut self) -> Order {
        let order = self.orders.next();
        self.acts = self.acts.and(&NotedAct::Waited(Snapshot::of(&order)));
        order
    }

    fn poll(&mut self) -> Option<Order> {
        let found = self.orders.poll();
        self.acts = self.acts.and(&NotedAct::Looked(Snapshot::of(&found)));
        found
    }

    fn pass(&mut self, run: u64, slice: u64, debuggee: &Debuggee) {
        self.gate.pass(run, slice);
        self.acts = self
            .acts
            .and(&NotedAct::Passed(run, slice, Snapshot::of(debuggee)));
    }

    fn send(&mut self, report: Report) -> Result<(), Report> {
        let told = Snapshot::of(&report);
        match self.reports.send(report) {
            Ok(()) => {
                self.acts = self.acts.and(&NotedAct::Sent(told));
                Ok(())
            }
            Err(back) => {
                self.acts = self.acts.and(&NotedAct::HandedBack(told));
                Err(back)
            }
        }
    }
}
