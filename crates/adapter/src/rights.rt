//! The rights of `serve` over what it was lent: to drive sessions, and to run programs. [`Reads`](dap_wires::Reads) and
//! [`Writes`](dap_wires::Writes) are the other two. It has no other, and of what it was lent it knows no more than the types.

use crate::gates::{Gated, OpenGate};
use crate::serving::end_loan;
use dap_session::{Closed, Dialect, Loader, Order, Orders, SessionFault, drive};
use dap_wires::{EndedSender, FrameSender, OrderReceiver, OrderSender, ReportSender, SessionInbox};
use dbg_runner::{Gate, Joined, work};
use std::alloc::Global;
use std::sync::Wait;

/// The right to drive sessions.
pub trait Drives: Drop + Sized {
    ghost use Rattle.std.specs.Prelude.{◌≡◌, ◌≢◌, ◌⊎◌, ◌++◌, ◌∷◌, [], false};
    ghost use Rattle.dap_session.specs.Ports.{ports};
    ghost use Rattle.dap_session.specs.Serving.{Driven};
    ghost use Rattle.dbg_runner.specs.Plain.{Quit};
    ghost use Rattle.dap_wires.specs.Inbox.{session_events, session_origin};
    ghost use Rattle.dap_wires.specs.Orders.{pushed_orders, push_queue};
    ghost use Rattle.dap_wires.specs.Outbox.{put_frames, keeps_none, frame_queue, messages_put, ended_queue};
    ghost use Rattle.dap_wires.specs.WriterMessages.{frames_in, has_end, AreEnded};

    /// Drives a session that has taken and put nothing, over these ports, as `drive` does.
    ///
    /// # Errors
    ///
    /// As `drive` says.
    fn drive_over<L: Loader>(
        &self,
        alloc: Global,
        dialect: Dialect,
        inbox: &mut SessionInbox<L, FrameSender<Self>, OrderSender<Self>, Self>,
        loader: &mut L,
        outbox: &mut FrameSender<Self>,
        orders: &mut OrderSender<Self>,
    ) -> Result<Closed, SessionFault>
        requires { (session_events inbox.old ≡ []) × keeps_none outbox.old
            × (session_origin inbox.old
            ≡ ((session_origin inbox.old).0, dialect, loader.old, outbox.old, orders.old)) }
        ensures driven { Driven dialect result (session_events inbox.old) (session_events inbox.new)
            (L.loaded loader.old) (L.loaded loader.new) (ports (put_frames outbox.old) (pushed_orders orders.old))
            (ports (put_frames outbox.new) (pushed_orders orders.new)) }
        ensures inbox { session_origin inbox.new ≡ session_origin inbox.old }
        ensures loader { L.origin loader.new ≡ L.origin loader.old }
        ensures out { frame_queue outbox.new ≡ frame_queue outbox.old }
        ensures orders { push_queue orders.new ≡ push_queue orders.old };

    /// Ends an outbox as [`FrameSender::finish`] does.
    fn finish(&self, outbox: FrameSender<Self>) -> EndedSender<Self>
        ensures put { (has_end (messages_put result) ≡ false) ⊎ AreEnded (messages_put result) }
        ensures refused { (put_frames outbox).refused ≢ [] → has_end (messages_put result) ≡ false }
        ensures frames { frames_in (messages_put result) ≡ (put_frames outbox).frames }
        ensures queue { ended_queue result ≡ frame_queue outbox };

    /// Orders the runner to quit.
    fn order_to_quit(&self, orders: &mut OrderSender<Self>)
        ensures orders { ((pushed_orders orders.new).orders ≡ (pushed_orders orders.old).orders)
            ⊎ ((pushed_orders orders.new).orders ≡ (pushed_orders orders.old).orders ++ Quit ∷ []) }
        ensures queue { push_queue orders.new ≡ push_queue orders.old };
}

/// By `drive`.
impl<R: Wait + Drop> Drives for R {
    ghost use Rattle.std.specs.Prelude.{◌≡◌, ◌≢◌, ◌⊎◌, [], false};
    ghost use Rattle.dap_wires.specs.Outbox.{put_frames, frame_queue, messages_put, ended_queue};
    ghost use Rattle.dap_wires.specs.WriterMessages.{frames_in, has_end, AreEnded};

    fn drive_over<L: Loader>(
        &self,
        alloc: Global,
        dialect: Dialect,
        inbox: &mut SessionInbox<L, FrameSender<R>, OrderSender<R>, R>,
        loader: &mut L,
        outbox: &mut FrameSender<R>,
        orders: &mut OrderSender<R>,
    ) -> Result<Closed, SessionFault> {
        drive(self, alloc, dialect, inbox, loader, outbox, orders)
    }

    fn finish(&self, outbox: FrameSender<R>) -> EndedSender<R>
        ensures put { (has_end (messages_put result) ≡ false) ⊎ AreEnded (messages_put result) }
        ensures refused { (put_frames outbox).refused ≢ [] → has_end (messages_put result) ≡ false }
        ensures frames { frames_in (messages_put result) ≡ (put_frames outbox).frames }
        ensures queue { ended_queue result ≡ frame_queue outbox }
    {
        outbox.finish()
    }

    fn order_to_quit(&self, orders: &mut OrderSender<R>) {
        let _ = orders.push(Order::Quit);
    }
}

/// The right to run programs.
pub trait Works: Drop + Sized {
    ghost use Rattle.std.specs.Prelude.{◌≡◌, ◌++◌, [], List};
    ghost use Rattle.std.specs.List.{flat_map};
    ghost use Rattle.dbg_runner.specs.Runner.{Act, Idle, Ended, DoesAll};
    ghost use Rattle.dbg_runner.specs.Queues.{order_in, sent_in, passed_in};
    ghost use Rattle.dap_wires.specs.Inbox.{sent_reports, refused_reports, report_queue};
    ghost use Rattle.dap_wires.specs.Orders.{taken_orders, pop_queue};

    /// Takes orders and sends reports as `work` does, at ends at which nothing was done. Returns the ends.
    fn work_over<G: Gate>(
        &self,
        alloc: Global,
        orders: OrderReceiver<Self>,
        reports: ReportSender<Self>,
        gate: &mut G,
    ) -> (OrderReceiver<Self>, ReportSender<Self>)
        requires { (taken_orders orders ≡ []) × (sent_reports reports ≡ []) × (refused_reports reports ≡ []) }
        ensures orders { pop_queue result.0 ≡ pop_queue orders }
        ensures reports { report_queue result.1 ≡ report_queue reports }
        ensures worked { (acts : List Act) × DoesAll Idle acts Ended
            × (taken_orders result.0 ≡ flat_map order_in acts) × (sent_reports result.1 ≡ flat_map sent_in acts)
            × (G.passed gate.new ≡ G.passed gate.old ++ flat_map passed_in acts) };
}

/// By `work`.
impl<R: Wait + Drop> Works for R {
    ghost use Rattle.std.specs.Prelude.{◌≡◌, ◌++◌, [], List};
    ghost use Rattle.std.specs.List.{flat_map};
    ghost use Rattle.dbg_runner.specs.Runner.{Act, Idle, Ended, DoesAll};
    ghost use Rattle.dbg_runner.specs.Queues.{order_in, sent_in, passed_in};
    ghost use Rattle.dap_wires.specs.Inbox.{sent_reports, refused_reports, report_queue};
    ghost use Rattle.dap_wires.specs.Orders.{taken_orders, pop_queue};

    fn work_over<G: Gate>(
        &self,
        alloc: Global,
        orders: OrderReceiver<R>,
        reports: ReportSender<R>,
        gate: &mut G,
    ) -> (OrderReceiver<R>, ReportSender<R>)
        requires { (taken_orders orders ≡ []) × (sent_reports reports ≡ []) × (refused_reports reports ≡ []) }
        ensures orders { pop_queue result.0 ≡ pop_queue orders }
        ensures reports { report_queue result.1 ≡ report_queue reports }
        ensures worked { (acts : List Act) × DoesAll Idle acts Ended
            × (taken_orders result.0 ≡ flat_map order_in acts) × (sent_reports result.1 ≡ flat_map sent_in acts)
            × (G.passed gate.new ≡ G.passed gate.old ++ flat_map passed_in acts) }
    {
        let mut ports = Gated::new(Joined::new(orders, reports, OpenGate::new()), gate);
        work(self, alloc, &mut ports);
        let (ports, gate) = ports.into_parts();
        end_loan(gate);
        let (orders, reports, _) = ports.into_ports();
        (orders, reports)
    }
}
