//! The queue of orders, with a parker at which the runner sleeps. No contract about orders depends on the parker.

ghost use Rattle.std.specs.Prelude.{◌≡◌, ◌≢◌, ◌≤◌, ◌∷◌, ◌++◌, [], List, length, map, option_map, true, IfOk, OnOk, OnErr};
ghost use Rattle.std.specs.Option.{option_to_list};
ghost use Rattle.std.specs.Arc.{arc_value};
ghost use Rattle.crossbeam_queue.specs.Passes.{view, IsPassOf, ruled_capacity};
ghost use Rattle.dap_session.specs.Sending.{IsPrefixOf};
ghost use Rattle.dbg_runner.specs.Orders.{plain_order};
ghost use Rattle.dbg_runner.specs.declared.order.Order.{Order};
ghost use Rattle.dap_wires.specs.Orders.{EnoughWerePushed, pushed_orders, taken_orders, push_queue, pop_queue};
ghost use Rattle.dap_wires.specs.Rooms.{orders_room};

use crate::end_log::EndLog;
use crate::order_ends::{OrderQueue, OrderReceiver, OrderSender};
use crate::rule::{First, Puts, Takes, Whole};
use crossbeam_queue::Pass;
use crossbeam_utils::sync::Parker;
use dap_session::{OrderFault, Orders};
use dbg_runner::{GhostList, Order, OrdersIn};
use std::alloc::{AllocError, Global};
use std::sync::{Arc, Wait};

/// How many orders the queue has room for: to hold an old run, to start a new one, to hold that, and to quit.
const ORDERS_CAPACITY: usize = 4;

/// Makes a queue of orders. Returns the ends of the session and of the runner.
///
/// # Errors
///
/// `AllocError`, where an allocation failed.
pub fn orders<R: Copy + Drop>(
    rt: R,
    alloc: Global,
) -> Result<(OrderSender<R>, OrderReceiver<R>), AllocError>
    ensures pushed { IfOk result (λ r. pushed_orders r.0 ≡ record { orders = []; fulls = 0; refusals = 0 }) }
    ensures taken { IfOk result (λ r. taken_orders r.1 ≡ []) }
    ensures one { IfOk result (λ r. pop_queue r.1 ≡ push_queue r.0) }
{
    let (queue, mut pass) = OrderQueue::ruled(alloc, ORDERS_CAPACITY)?;
    let first = queue.another::<First>(&mut pass);
    let queue = Arc::new(alloc, queue)?;
    let other = Arc::try_clone(&queue)?;
    let parker = Parker::new(alloc)?;
    let unparker = parker.unparker().clone()?;
    Ok((
        OrderSender {
            rt,
            queue,
            pass: first,
            unparker,
            fulls: GhostList::new(),
        },
        OrderReceiver {
            rt,
            queue: other,
            pass,
            parker,
        },
    ))
}

/// Brings the logs of both ends together, when both threads were joined, and proves that the orders that the runner took
/// are a prefix of those that the session pushed.
pub fn reconcile_orders<R: Drop>(session: OrderSender<R>, runner: OrderReceiver<R>)
    requires { pop_queue runner ≡ push_queue session }
    ensures taken { IsPrefixOf (taken_orders runner) (pushed_orders session).orders }
    ensures full { (pushed_orders session).fulls ≢ 0 → EnoughWerePushed (pushed_orders session).orders }
{
    let OrderSender {
        queue,
        pass: first,
        ..
    } = session;
    let OrderReceiver { mut pass, .. } = runner;
    queue.absorb::<First>(&mut pass, first);
    queue.learn_as::<Whole>(&mut pass);
}

impl<R: Wait + Drop> Orders for OrderSender<R> {
    ghost use Rattle.atomic_table.specs.Seated.{TableId};
    ghost use Rattle.dap_wires.specs.Orders.{pushed_orders, WasFull, push_queue};

    ghost seen = { pushed_orders };

    ghost is_full = { WasFull };

    ghost Origin = { TableId };

    ghost origin = { push_queue };

    fn push(&mut self, order: Order) -> Result<(), OrderFault> {
        let OrderSender {
            rt,
            queue,
            pass,
            unparker,
            fulls,
        } = self;
        match offer(rt, queue, pass, order) {
            Ok(()) => {
                unparker.unpark();
                Ok(())
            }
            Err(_) => {
                *fulls = fulls.and(&());
                Err(OrderFault::Full)
            }
        }
    }
}

impl<R: Wait + Drop> OrdersIn for OrderReceiver<R> {
    ghost use Rattle.atomic_table.specs.Seated.{TableId};
    ghost use Rattle.dap_wires.specs.Orders.{taken_orders, pop_queue};

    ghost taken = { taken_orders };

    ghost Origin = { TableId };

    ghost origin = { pop_queue };

    fn poll(&mut self) -> Option<Order> {
        let OrderReceiver {
            rt,
            queue,
            pass,
            ..
        } = self;
        take(rt, queue, pass)
    }

    fn next(&mut self) -> Order {
        let OrderReceiver {
            rt,
            queue,
            pass,
            parker,
        } = self;
        take_next(rt, queue, pass, parker)
    }
}

/// Pushes an order.
///
/// # Errors
///
/// The order, where the queue was full.
fn offer<R: Wait>(
    rt: &R,
    queue: &Arc<OrderQueue, Global>,
    pass: &mut Pass<Order, EndLog<Order>>,
    order: Order,
) -> Result<(), Order>
    requires seated { IsPassOf (arc_value queue.now) pass.old }
    requires room { ruled_capacity (arc_value queue.now) ≡ orders_room }
    requires pushes { (view pass.old).first ≡ true }
    ensures seated { IsPassOf (arc_value queue.now) pass.new }
    ensures queue { pass.new.table_id ≡ pass.old.table_id }
    ensures pushes { (view pass.new).first ≡ true }
    ensures pushed { OnOk result (map plain_order (view pass.new).put_first ≡ map plain_order (view pass.old).put_first
        ++ plain_order order ∷ []) }
    ensures refused { OnErr result (view pass.new ≡ view pass.old) }
    ensures full { OnErr result ((taken inside : List Order) × ((view pass.old).put_first ≡ taken ++ inside)
        × (length inside ≡ orders_room)) }
    ensures many { OnErr result (orders_room ≤ length (map plain_order (view pass.new).put_first)) }
    ensures grows { orders_room ≤ length (map plain_order (view pass.old).put_first)
        → orders_room ≤ length (map plain_order (view pass.new).put_first) }
{
    match queue.push_as::<Puts, R>(rt, pass, order) {
        Ok(()) => Ok(()),
        Err(back) => Err(back),
    }
}

/// Takes the next order, or returns `None` where none is there.
fn take<R: Wait>(
    rt: &R,
    queue: &Arc<OrderQueue, Global>,
    pass: &mut Pass<Order, EndLog<Order>>,
) -> Option<Order>
    requires seated { IsPassOf (arc_value queue.now) pass.old }
    requires takes { (view pass.old).takes ≡ true }
    ensures seated { IsPassOf (arc_value queue.now) pass.new }
    ensures queue { pass.new.table_id ≡ pass.old.table_id }
    ensures takes { (view pass.new).takes ≡ true }
    ensures joins { (view pass.new).second ≡ (view pass.old).second }
    ensures taken { map plain_order (view pass.new).taken ≡ map plain_order (view pass.old).taken
        ++ option_to_list (option_map plain_order result) }
{
    match queue.pop_as::<Takes, R>(rt, pass) {
        None => None,
        Some(order) => Some(order),
    }
}

/// Takes the next order. Blocks until there is one.
fn take_next<R: Wait>(
    rt: &R,
    queue: &Arc<OrderQueue, Global>,
    pass: &mut Pass<Order, EndLog<Order>>,
    parker: &Parker,
) -> Order
    requires seated { IsPassOf (arc_value queue.now) pass.old }
    requires takes { (view pass.old).takes ≡ true }
    ensures seated { IsPassOf (arc_value queue.now) pass.new }
    ensures queue { pass.new.table_id ≡ pass.old.table_id }
    ensures takes { (view pass.new).takes ≡ true }
    ensures joins { (view pass.new).second ≡ (view pass.old).second }
    ensures taken { map plain_order (view pass.new).taken ≡ map plain_order (view pass.old).taken
        ++ plain_order result ∷ [] }
{
    for _ in rt.forever() {
        if let Some(order) = take(rt, queue, pass) {
            return order;
        }
        parker.park(rt);
    }
    unreachable!()
}
