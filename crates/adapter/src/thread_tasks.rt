//! The task of each thread of `serve`, with all that it needs.

ghost use Rattle.std.specs.Prelude.{◌≡◌, ◌++◌, [], List, true, ⊤, is_some};
ghost use Rattle.std.specs.List.{flat_map};
ghost use Rattle.dap_session.specs.Ports.{ports};
ghost use Rattle.dap_session.specs.Serving.{Driven};
ghost use Rattle.dbg_runner.specs.Runner.{Act, Idle, Ended, DoesAll};
ghost use Rattle.dbg_runner.specs.Queues.{order_in, sent_in, passed_in};
ghost use Rattle.dap_wires.specs.declared.writer_message.WriterMessage.{WriterMessage};
ghost use Rattle.dap_wires.specs.Inbox.{client_events, client_queue, sent_reports, refused_reports, report_queue, taken_events, event_queue, session_events, session_origin, received, left_queue};
ghost use Rattle.dap_wires.specs.Outbox.{put_frames, keeps_none, frame_queue, messages_put, ended_queue, messages_taken, messages_received, received_queue, writer_queue, end_taken, end_queue, end_first};
ghost use Rattle.dap_wires.specs.Orders.{pushed_orders, push_queue, taken_orders, pop_queue};
ghost use Rattle.dap_wires.specs.Writing.{IsWrittenUntil, OwesNothing};
ghost use Rattle.adapter.specs.ThreadTasks.{SessionEndsAs, ReaderEndsAs};

use crate::rights::{Drives, Works};
use crate::tasks::{OptionalTask, Task};
use byte_streams::WriteFailed;
use dap_session::{Closed, Dialect, Loader, SessionFault};
use dap_wires::{
    ClientSender, FrameSender, OrderReceiver, OrderSender, OutboxLog, ReadEnd, Reads, ReportSender,
    SessionEnds, SessionInbox, Wires, WriterEnd, Writes,
};
use dbg_runner::Gate;
use std::alloc::Global;

/// Reading the input.
#[derive(Drop)]
pub struct ReaderTask<'a, I, R: Drop> {
    rt: R,
    alloc: Global,
    input: &'a mut I,
    inbox: ClientSender<R>,
}

/// What the reader's task returns.
#[derive(Drop)]
pub struct ReaderOutput<'a, I, R: Drop> {
    pub input: &'a mut I,
    pub inbox: ClientSender<R>,
    /// How reading ended; `None` if nothing was read.
    pub end: Option<ReadEnd>,
}

impl<'a, I, R: Reads<I>> Task for ReaderTask<'a, I, R> {
    type Output = ReaderOutput<'a, I, R>;

    ghost can_run = { λ _. ⊤ };

    ghost gives = { λ t r. (r.input.ghost_name ≡ t.input.ghost_name) × (client_queue r.inbox ≡ client_queue t.inbox)
        × ReaderEndsAs r.end (client_events t.inbox) (client_events r.inbox) (R.supply t.input.now)
        (R.supply r.input.now) };

    ghost is_done = { λ r. is_some r.end };

    fn run(self) -> ReaderOutput<'a, I, R> {
        let ReaderTask {
            rt,
            alloc,
            input,
            mut inbox,
        } = self;
        let end = Some(rt.read_into(alloc, input, &mut inbox));
        ReaderOutput { input, inbox, end }
    }
}

/// If a thread can't be started, nothing is read.
impl<'a, I, R: Reads<I>> OptionalTask for ReaderTask<'a, I, R> {
    fn leave(self) -> ReaderOutput<'a, I, R> {
        let ReaderTask { input, inbox, .. } = self;
        ReaderOutput {
            input,
            inbox,
            end: None,
        }
    }
}

/// Writing the output.
#[derive(Drop)]
pub struct WriterTask<'a, O, R: Drop> {
    rt: R,
    output: &'a mut O,
    outbox: WriterEnd<O, R>,
}

/// What the writer's task returns.
#[derive(Drop)]
pub struct WriterOutput<'a, O> {
    pub output: &'a mut O,
    pub log: OutboxLog,
    pub wrote: Result<(), WriteFailed>,
}

impl<'a, O, R: Writes<O>> Task for WriterTask<'a, O, R> {
    type Output = WriterOutput<'a, O>;

    ghost can_run = { λ t. OwesNothing (end_taken t.outbox) (R.output (end_first t.outbox)) (R.output t.output.now) };

    ghost gives = { λ t r. (r.output.ghost_name ≡ t.output.ghost_name) × (received_queue r.log ≡ end_queue t.outbox)
        × ((taken : List WriterMessage) × (messages_received r.log ≡ end_taken t.outbox ++ taken)
        × IsWrittenUntil r.wrote taken (R.output t.output.now) (R.output r.output.now)) };

    ghost is_done = { λ _. true };

    fn run(self) -> WriterOutput<'a, O> {
        let WriterTask {
            rt,
            output,
            mut outbox,
        } = self;
        let wrote = rt.write_from(output, &mut outbox);
        WriterOutput {
            output,
            log: outbox.leave(),
            wrote,
        }
    }
}

/// Running the program that is debugged.
#[derive(Drop)]
pub struct RunnerTask<'a, G, R: Drop> {
    rt: R,
    alloc: Global,
    orders: OrderReceiver<R>,
    reports: ReportSender<R>,
    gate: &'a mut G,
}

/// What the runner's task returns.
#[derive(Drop)]
pub struct RunnerOutput<'a, G, R: Drop> {
    pub orders: OrderReceiver<R>,
    pub reports: ReportSender<R>,
    pub gate: &'a mut G,
}

impl<'a, G: Gate, R: Works> Task for RunnerTask<'a, G, R> {
    type Output = RunnerOutput<'a, G, R>;

    ghost can_run = { λ t. (taken_orders t.orders ≡ []) × (sent_reports t.reports ≡ [])
        × (refused_reports t.reports ≡ []) };

    ghost gives = { λ t r. (pop_queue r.orders ≡ pop_queue t.orders) × (report_queue r.reports ≡ report_queue t.reports)
        × (r.gate.ghost_name ≡ t.gate.ghost_name)
        × ((acts : List Act) × DoesAll Idle acts Ended
        × (taken_orders r.orders ≡ flat_map order_in acts) × (sent_reports r.reports ≡ flat_map sent_in acts)
        × (G.passed r.gate.now ≡ G.passed t.gate.now ++ flat_map passed_in acts)) };

    ghost is_done = { λ _. true };

    fn run(self) -> RunnerOutput<'a, G, R> {
        let RunnerTask {
            rt,
            alloc,
            orders,
            reports,
            gate,
        } = self;
        let (orders, reports) = rt.work_over(alloc, orders, reports, gate);
        RunnerOutput {
            orders,
            reports,
            gate,
        }
    }
}

/// Driving the session, in the thread that joins the others.
#[derive(Drop)]
pub struct SessionTask<'a, L, R: Drop> {
    rt: R,
    alloc: Global,
    dialect: Dialect,
    loader: &'a mut L,
    inbox: SessionInbox<L, FrameSender<R>, OrderSender<R>, R>,
    outbox: FrameSender<R>,
    orders: OrderSender<R>,
}

/// What the session's task returns.
#[derive(Drop)]
pub struct SessionOutput<'a, L, R: Drop> {
    pub loader: &'a mut L,
    pub ends: SessionEnds<R>,
    /// How the session ended; `None` if it was not driven.
    pub closed: Option<Result<Closed, SessionFault>>,
}

impl<'a, L: Loader, R: Drives> Task for SessionTask<'a, L, R> {
    type Output = SessionOutput<'a, L, R>;

    // The inbox is that of a session over these ports, which has taken and put nothing.
    ghost can_run = { λ t. (session_events t.inbox ≡ []) × keeps_none t.outbox
        × (session_origin t.inbox
        ≡ ((session_origin t.inbox).0, t.dialect, t.loader.now, t.outbox, t.orders)) };

    ghost gives = { λ t r. (r.loader.ghost_name ≡ t.loader.ghost_name)
        × (left_queue r.ends.inbox ≡ (session_origin t.inbox).0)
        × (ended_queue r.ends.outbox ≡ frame_queue t.outbox)
        × (push_queue r.ends.orders ≡ push_queue t.orders)
        × SessionEndsAs t.dialect r.closed (session_events t.inbox) (received r.ends.inbox) (L.loaded t.loader.now)
        (L.loaded r.loader.now) (ports (put_frames t.outbox) (pushed_orders t.orders)) (messages_put r.ends.outbox)
        (pushed_orders r.ends.orders)
        × (L.origin r.loader.now ≡ L.origin t.loader.now) };

    ghost is_done = { λ r. is_some r.closed };

    fn run(self) -> SessionOutput<'a, L, R> {
        let SessionTask {
            rt,
            alloc,
            dialect,
            loader,
            mut inbox,
            mut outbox,
            mut orders,
        } = self;
        let events = &mut inbox;
        let end = rt.drive_over(alloc, dialect, events, loader, &mut outbox, &mut orders);
        let ends = SessionEnds {
            inbox: inbox.leave(),
            outbox: rt.finish(outbox),
            orders,
        };
        SessionOutput {
            loader,
            ends,
            closed: Some(end),
        }
    }
}

/// If a thread can't be started, the session is not driven: the writer gets `End` and the runner `Quit`, and the loader is
/// asked for nothing.
impl<'a, L: Loader, R: Drives> OptionalTask for SessionTask<'a, L, R> {
    fn leave(self) -> SessionOutput<'a, L, R> {
        let SessionTask {
            rt,
            loader,
            inbox,
            outbox,
            mut orders,
            ..
        } = self;
        rt.order_to_quit(&mut orders);
        let ends = SessionEnds {
            inbox: inbox.leave(),
            outbox: rt.finish(outbox),
            orders,
        };
        SessionOutput {
            loader,
            ends,
            closed: None,
        }
    }
}

/// Makes the tasks of the writer, the runner, the reader and the session, each with the ends of the queues that it needs.
pub fn tasks_over<'a, R: Copy + Drop, I, O, L, G>(
    rt: R,
    alloc: Global,
    dialect: Dialect,
    wires: Wires<R>,
    input: &'a mut I,
    output: &'a mut O,
    loader: &'a mut L,
    gate: &'a mut G,
) -> (
    WriterTask<'a, O, R>,
    RunnerTask<'a, G, R>,
    ReaderTask<'a, I, R>,
    SessionTask<'a, L, R>,
)
    requires messages { messages_taken wires.messages ≡ [] }
    requires events { taken_events wires.events ≡ [] }
    ensures same_output { result.0.output.ghost_name ≡ output.entry.ghost_name }
    ensures output { result.0.output.now ≡ output.old }
    ensures none_taken { end_taken result.0.outbox ≡ [] }
    ensures outbox { end_queue result.0.outbox ≡ writer_queue wires.messages }
    ensures first_output { end_first result.0.outbox ≡ output.old }
    ensures taken { result.1.orders ≡ wires.taken }
    ensures reports { result.1.reports ≡ wires.reports }
    ensures same_gate { result.1.gate.ghost_name ≡ gate.entry.ghost_name }
    ensures gate { result.1.gate.now ≡ gate.old }
    ensures same_input { result.2.input.ghost_name ≡ input.entry.ghost_name }
    ensures input { result.2.input.now ≡ input.old }
    ensures client { result.2.inbox ≡ wires.client }
    ensures dialect { result.3.dialect ≡ dialect }
    ensures same_loader { result.3.loader.ghost_name ≡ loader.entry.ghost_name }
    ensures loader { result.3.loader.now ≡ loader.old }
    ensures events { session_events result.3.inbox ≡ [] }
    ensures inbox { session_origin result.3.inbox
        ≡ (event_queue wires.events, dialect, loader.old, wires.frames, wires.pushed) }
    ensures frames { result.3.outbox ≡ wires.frames }
    ensures pushed { result.3.orders ≡ wires.pushed }
{
    let outbox = WriterEnd::new(wires.messages, output);
    let writer = WriterTask { rt, output, outbox };
    let runner = RunnerTask {
        rt,
        alloc,
        orders: wires.taken,
        reports: wires.reports,
        gate,
    };
    let reader = ReaderTask {
        rt,
        alloc,
        input,
        inbox: wires.client,
    };
    let inbox = SessionInbox::new(
        rt,
        wires.events,
        dialect,
        &*loader,
        &wires.frames,
        &wires.pushed,
    );
    let session = SessionTask {
        rt,
        alloc,
        dialect,
        loader,
        inbox,
        outbox: wires.frames,
        orders: wires.pushed,
    };
    (writer, runner, reader, session)
}
