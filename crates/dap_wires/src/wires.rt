//! All queues between the threads of an adapter: made together, and reconciled together at the end.

ghost use Rattle.std.specs.Prelude.{◌≡◌, ◌≢◌, IfOk};
ghost use Rattle.dap_session.specs.Sending.{IsPrefixOf};
ghost use Rattle.dap_wires.specs.Inbox.{client_events, client_queue, sent_reports, report_queue, received, left_queue};
ghost use Rattle.dap_wires.specs.Orders.{EnoughWerePushed, pushed_orders, push_queue, taken_orders, pop_queue};
ghost use Rattle.dap_wires.specs.Outbox.{messages_put, ended_queue, messages_received, received_queue};
ghost use Rattle.dap_wires.specs.Senders.{from_client, reports_among};
ghost use Rattle.dap_wires.specs.Wires.{AreUnused, AreJoined};

use crate::event_ends::{ClientSender, InboxLog, ReportSender};
use crate::event_receiver::EventReceiver;
use crate::events::{inbox, reconcile_inbox};
use crate::frame_ends::{EndedSender, FrameReceiver, FrameSender, OutboxLog};
use crate::frames::{outbox, reconcile_outbox};
use crate::order_ends::{OrderReceiver, OrderSender};
use crate::order_queue::{orders, reconcile_orders};
use std::alloc::{AllocError, Global};

/// The ends of all queues, by the thread that gets them.
#[derive(Drop)]
pub struct Wires<R: Drop> {
    /// The reader's.
    pub client: ClientSender<R>,
    /// The runner's.
    pub taken: OrderReceiver<R>,
    pub reports: ReportSender<R>,
    /// The session's.
    pub events: EventReceiver<R>,
    pub frames: FrameSender<R>,
    pub pushed: OrderSender<R>,
    /// The writer's.
    pub messages: FrameReceiver<R>,
}

/// The ends of a session that is over.
#[derive(Drop)]
pub struct SessionEnds<R: Drop> {
    pub inbox: InboxLog,
    pub outbox: EndedSender<R>,
    pub orders: OrderSender<R>,
}

impl<R: Copy + Drop> Wires<R> {
    /// Makes the queues.
    ///
    /// # Errors
    ///
    /// `AllocError`, where an allocation failed.
    pub fn new(rt: R, alloc: Global) -> Result<Wires<R>, AllocError>
        ensures unused { IfOk result AreUnused }
        ensures joined { IfOk result AreJoined }
    {
        let (pushed, taken) = orders(rt, alloc)?;
        let (frames, messages) = outbox(rt, alloc)?;
        let (client, reports, events) = inbox(rt, alloc)?;
        Ok(Wires {
            client,
            taken,
            reports,
            events,
            frames,
            pushed,
            messages,
        })
    }
}

/// Brings the logs of all ends of each queue together, when all threads were joined, and proves that what was received is a
/// prefix of what was sent.
pub fn reconcile<R: Drop>(
    client: ClientSender<R>,
    reports: ReportSender<R>,
    written: OutboxLog,
    taken: OrderReceiver<R>,
    ends: SessionEnds<R>,
)
    requires inbox { (report_queue reports ≡ client_queue client) × (left_queue ends.inbox ≡ client_queue client) }
    requires outbox { received_queue written ≡ ended_queue ends.outbox }
    requires orders { pop_queue taken ≡ push_queue ends.orders }
    ensures client { IsPrefixOf (from_client (received ends.inbox)) (client_events client) }
    ensures reports { IsPrefixOf (reports_among (received ends.inbox)) (sent_reports reports) }
    ensures frames { IsPrefixOf (messages_received written) (messages_put ends.outbox) }
    ensures orders { IsPrefixOf (taken_orders taken) (pushed_orders ends.orders).orders }
    ensures full { (pushed_orders ends.orders).fulls ≢ 0 → EnoughWerePushed (pushed_orders ends.orders).orders }
{
    let SessionEnds {
        inbox,
        outbox,
        orders,
    } = ends;
    reconcile_inbox(client, reports, inbox);
    reconcile_outbox(outbox, written);
    reconcile_orders(orders, taken);
}
