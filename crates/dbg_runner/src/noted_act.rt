//! An act of the runner as a port notes it.

use crate::order::Order;
use crate::report::Report;
use dbg_plan::Debuggee;
use std::snapshot::Snapshot;

/// An act as a port notes it, for the list of its acts (`acts_of` in `specs/NotedActs`). It owns nothing of what it notes.
#[derive(Drop)]
pub enum NotedAct {
    /// The runner waited for this order.
    Waited(Snapshot<Order>),
    /// The runner looked for an order, and found this one, if any.
    Looked(Snapshot<Option<Order>>),
    /// The slice with the second number, of the run with the first, passed the gate with this debuggee.
    Passed(u64, u64, Snapshot<Debuggee>),
    /// This report was sent.
    Sent(Snapshot<Report>),
    /// This report was handed back.
    HandedBack(Snapshot<Report>),
}
