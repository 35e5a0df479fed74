//! The ends of a queue of orders.

ghost use Rattle.std.specs.Prelude.{◌≡◌, ◌≢◌, ◌≤◌, length, map, true};
ghost use Rattle.std.specs.Arc.{arc_value};
ghost use Rattle.crossbeam_queue.specs.Passes.{view, IsPassOf, ruled_capacity};
ghost use Rattle.dbg_runner.specs.Orders.{plain_order};
ghost use Rattle.dap_wires.specs.Rooms.{orders_room};

use crate::end_log::EndLog;
use crate::rule::{InOrder, Sent};
use crossbeam_queue::{Pass, RuledArrayQueue};
use crossbeam_utils::sync::{Parker, Unparker};
use dbg_runner::{GhostList, Order};
use std::alloc::Global;
use std::sync::Arc;

/// The session sends all orders, as the first sender.
impl Sent for Order {
    ghost use Rattle.std.specs.Prelude.{false};

    ghost by_second = { λ _. false };
}

/// The queue of orders between a session and a runner.
pub(crate) type OrderQueue = RuledArrayQueue<Order, EndLog<Order>, InOrder>;

/// The end of the session, which pushes orders.
#[derive(Drop)]
pub struct OrderSender<R: Drop> {
    pub(crate) rt: R,
    pub(crate) queue: Arc<OrderQueue, Global>,
    pub(crate) pass: Pass<Order, EndLog<Order>>,
    pub(crate) unparker: Unparker,
    // An entry for each time that the queue was full.
    pub(crate) fulls: GhostList<()>,
    ghost seated: { IsPassOf (arc_value queue) pass },
    ghost room: { ruled_capacity (arc_value queue) ≡ orders_room },
    ghost pushes: { (view pass).first ≡ true },
    ghost full: { length fulls.entries ≢ 0
        → orders_room ≤ length (map plain_order (view pass).put_first) },
}

/// The end of the runner, which takes orders.
#[derive(Drop)]
pub struct OrderReceiver<R: Drop> {
    pub(crate) rt: R,
    pub(crate) queue: Arc<OrderQueue, Global>,
    pub(crate) pass: Pass<Order, EndLog<Order>>,
    pub(crate) parker: Parker,
    ghost seated: { IsPassOf (arc_value queue) pass },
    ghost takes: { (view pass).takes ≡ true },
    ghost joins: { (view pass).second ≡ true },
}
