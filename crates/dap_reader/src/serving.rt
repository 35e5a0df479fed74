//! Serving a client over an input that is lent, and read by a thread of its own.

ghost use Rattle.std.specs.Prelude.{◌≡◌, IfOk, OnErr};
ghost use Rattle.byte_streams.specs.Streams.{IsOfWhole};
ghost use Rattle.dap_reader.specs.Sent.{sent, sender_queue};
ghost use Rattle.dap_reader.specs.Serving.{ServedInput};
ghost use Rattle.dap_reader.specs.Taken.{taken, begun, queue, taken_at_last, left_queue};

use crate::arrivals::{Arrivals, TakenLog};
use crate::queue::{item_queue, reconcile};
use crate::reader::read_client;
use crate::sender::ItemSender;
use crate::tasks::{Task, run_beside};
use byte_streams::{Sink, Source};
use dap_server::{Ending, ServeFault, Worker, serve_worker};
use std::alloc::{AllocError, Global};
use std::marker::Brand;
use std::sync::Wait;
use std::thread::Threads;

/// Why the thread that reads isn't started.
#[derive(Clone, Copy, Debug)]
pub enum StartFault {
    /// Memory ran out.
    NoMemory,
    /// A thread can't be started.
    NoThread,
}

impl From<AllocError> for StartFault {
    ghost use Rattle.std.specs.Prelude.{◌≡◌};
    ghost use Rattle.dap_reader.specs.declared.serving.StartFault.TheVariants.{NoMemory};

    ghost from_gives = { λ _ fault. fault ≡ NoMemory };

    fn from(_: AllocError) -> StartFault {
        StartFault::NoMemory
    }
}

/// Serves a client as [`serve_worker`] does, over what a thread of its own reads of an input meanwhile. The thread is joined:
/// after the session's end it ends when its next read returns, and what that read gave changes nothing. Returns how the
/// session ended.
///
/// # Errors
///
/// `NoMemory` where the queue finds no memory, and `NoThread` where the thread can't be started: nothing is served.
pub fn serve_worker_input<R, W: Worker, I: Source + Send, O: Sink>(
    rt: &R,
    alloc: Global,
    worker: &mut W,
    input: &mut I,
    output: &mut O,
) -> Result<Result<Ending, ServeFault>, StartFault>
where
    R: Threads + Wait + Copy + Drop + Send,
    ensures origin { W.origin worker.new ≡ W.origin worker.old }
    ensures served { IfOk result (λ ended. ServedInput W.replies W.works W.busy worker.old worker.new
        (I.supply input.old) (I.supply input.new) (O.output output.old) (O.output output.new) ended) }
    ensures nothing { OnErr result ((worker.new ≡ worker.old) × (output.new ≡ output.old)) }
{
    let (sender, inbox) = item_queue::<Brand, I, W, O>(alloc, &*input, &*worker, &*output)?;
    let reader = ReaderTask {
        rt: *rt,
        alloc,
        input,
        sender,
    };
    let session = SessionTask {
        rt: *rt,
        alloc,
        worker,
        inbox,
        output,
    };
    match run_beside(rt, reader, session) {
        Ok(((input, sender), (worker, log, output, ended))) => {
            end_loan(input);
            end_loans(worker, output);
            reconcile(sender, log);
            Ok(ended)
        }
        Err(session) => {
            let (worker, output) = session.into_loans();
            end_loans(worker, output);
            Err(StartFault::NoThread)
        }
    }
}

/// Reading the input.
#[derive(Drop)]
pub(crate) struct ReaderTask<'a, I, R: Wait + Drop> {
    rt: R,
    alloc: Global,
    input: &'a mut I,
    sender: ItemSender,
}

impl<'a, I: Source, R: Wait + Drop> Task for ReaderTask<'a, I, R> {
    ghost use Rattle.dap_reader.specs.Delivery.{SentBut};

    type Output = (&'a mut I, ItemSender);

    ghost can_run = { λ t. sent t.sender ≡ I.supply t.input.now };

    ghost gives = { λ t r. (r.0.ghost_name ≡ t.input.ghost_name) × (sender_queue r.1 ≡ sender_queue t.sender)
        × SentBut (sent r.1) (I.supply r.0.now) };

    fn run(self) -> (&'a mut I, ItemSender) {
        let ReaderTask {
            rt,
            alloc,
            input,
            mut sender,
        } = self;
        let _ = read_client(&rt, alloc, input, &mut sender);
        (input, sender)
    }
}

/// Serving over the inbox, in the thread that joins the other.
#[derive(Drop)]
pub(crate) struct SessionTask<'a, W, O, R: Wait + Drop> {
    rt: R,
    alloc: Global,
    worker: &'a mut W,
    inbox: Arrivals<W, O>,
    output: &'a mut O,
}

impl<'a, W: Worker, O: Sink, R: Wait + Drop> Task for SessionTask<'a, W, O, R> {
    ghost use Rattle.dap_server.specs.Inbox.{Reads};
    ghost use Rattle.dap_server.specs.ServingInbox.{OutputFailures};
    ghost use Rattle.dap_server.specs.Working.{ServedWorker};
    ghost use Rattle.dap_reader.specs.Serving.{Looks};

    type Output = (&'a mut W, TakenLog, &'a mut O, Result<Ending, ServeFault>);

    ghost can_run = { λ t. begun t.inbox ≡ (taken t.inbox, t.worker.now, t.output.now) };

    ghost gives = { λ t r. (r.0.ghost_name ≡ t.worker.ghost_name) × (r.2.ghost_name ≡ t.output.ghost_name)
        × (W.origin r.0.now ≡ W.origin t.worker.now) × (left_queue r.1 ≡ queue t.inbox)
        × ServedWorker W.replies W.works W.busy Reads Looks t.worker.now r.0.now (taken t.inbox) (taken_at_last r.1)
        (O.output t.output.now).written (O.output r.2.now).written r.3
        × OutputFailures r.3 (O.output t.output.now).failures (O.output r.2.now).failures };

    fn run(self) -> (&'a mut W, TakenLog, &'a mut O, Result<Ending, ServeFault>) {
        let SessionTask {
            rt,
            alloc,
            worker,
            mut inbox,
            output,
        } = self;
        let ended = serve_worker(&rt, alloc, worker, &mut inbox, output);
        (worker, inbox.leave(), output, ended)
    }
}

impl<'a, W, O, R: Wait + Drop> SessionTask<'a, W, O, R> {
    /// Gives back what it was lent.
    fn into_loans(self) -> (&'a mut W, &'a mut O)
        ensures same_worker { result.0.ghost_name ≡ self.entry.worker.ghost_name }
        ensures worker { result.0.now ≡ self.entry.worker.now }
        ensures same_output { result.1.ghost_name ≡ self.entry.output.ghost_name }
        ensures output { result.1.now ≡ self.entry.output.now }
    {
        let SessionTask { worker, output, .. } = self;
        (worker, output)
    }
}

/// Ends the loan of a reference that a task returned. It does nothing: its contract ties what the reference has now to the
/// parameter that was lent.
fn end_loan<T>(x: &mut T)
    ensures { x.new ≡ x.old }
{}

/// Ends the loans of the references that the session's task returned.
fn end_loans<W, O>(worker: &mut W, output: &mut O)
    ensures worker { worker.new ≡ worker.old }
    ensures output { output.new ≡ output.old }
{}
