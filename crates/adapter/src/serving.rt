//! Serving a client over an input and an output: reader, runner and writer in threads of their own, the session in this
//! one.

ghost use Rattle.std.specs.Prelude.{◌≡◌};
ghost use Rattle.adapter.specs.Serving.{streams, world, IsServed};
ghost use Rattle.adapter.specs.ThreadTasks.{outcome_if_driven};
ghost use Rattle.dap_wires.specs.Wires.{AreUnused, AreJoined};

use crate::listener::{EndListener, ListenerWitness, tell};
use crate::rights::{Drives, Works};
use crate::tasks::run_beside;
use crate::thread_tasks::{ReaderOutput, RunnerOutput, SessionOutput, WriterOutput, tasks_over};
use byte_streams::WriteFailed;
use dap_session::{Closed, Dialect, Loader, SessionFault};
use dap_wires::{Reads, Wires, Writes, reconcile};
use dbg_runner::Gate;
use std::alloc::{AllocError, Global};
use std::sync::Wait;
use std::thread::Threads;

/// How serving ended without a failure.
#[derive(Clone, Copy, Debug, PartialEq, Eq)]
pub enum Served {
    /// The client disconnected.
    Disconnected,
    /// The input ended.
    InputEnded,
}

/// Why serving failed.
#[derive(Clone, Copy, Debug, PartialEq, Eq)]
pub enum ServeFault {
    /// The output failed.
    WriteFailed,
    /// The input failed.
    ReadFailed,
    /// The session gave up with this fault.
    Session(SessionFault),
    /// A thread can't be started.
    NoThread,
}

/// How serving ends where there is no memory for its queues.
const NO_MEMORY: Result<Served, ServeFault> = Err(ServeFault::Session(SessionFault::NoMemory));

/// Serves an input and an output: a reader, a runner and a writer work in threads of their own, the session in this one,
/// and all are joined. Of the input and the output it knows the types alone: what is done with them is what `rights` can,
/// as the host's handle can. The client speaks `dialect`. The loader is asked for the program of each launch, and each
/// slice of a run passes the gate. The listener is told how serving ended before the reader is joined.
///
/// After the answer to `disconnect` the reader ends when its next read returns. What was read then changes nothing.
///
/// # Errors
///
/// After a failed write, or a session fault that is not a framing fault, a prefix was written of what the client's messages
/// and the runs call for; after a failed read or a framing fault, all of it was written. Where several failed, a failed
/// write is returned before a session fault, and that before a failed read. If a thread can't be started, those that were
/// started are joined, and nothing was read, loaded, run or written.
pub fn serve<T, R, I, O, L, G, E>(
    rt: &T,
    rights: &R,
    alloc: Global,
    dialect: Dialect,
    input: &mut I,
    output: &mut O,
    loader: &mut L,
    gate: &mut G,
    listener: &mut E,
) -> Result<Served, ServeFault>
where
    T: Threads + Wait,
    R: Reads<I> + Writes<O> + Drives + Works + Copy + Drop + Send,
    I: Send,
    O: Send,
    L: Loader,
    G: Gate + Send,
    E: EndListener,
    ensures served { IsServed dialect result
        (world (L.loaded loader.old) (G.passed gate.old)
        (streams (R.supply input.old) (R.output output.old)))
        (world (L.loaded loader.new) (G.passed gate.new)
        (streams (R.supply input.new) (R.output output.new))) }
    ensures loader { L.origin loader.new ≡ L.origin loader.old }
    ensures told { E.tells listener.old listener.new result }
{
    match Wires::new(*rights, alloc) {
        Ok(wires) => serve_over(
            rt, rights, alloc, dialect, wires, input, output, loader, gate, listener,
        ),
        Err(AllocError) => tell(listener, NO_MEMORY),
    }
}

/// Serves as [`serve`] does, over queues that nothing went through.
fn serve_over<T, R, I, O, L, G, E>(
    rt: &T,
    rights: &R,
    alloc: Global,
    dialect: Dialect,
    wires: Wires<R>,
    input: &mut I,
    output: &mut O,
    loader: &mut L,
    gate: &mut G,
    listener: &mut E,
) -> Result<Served, ServeFault>
where
    T: Threads + Wait,
    R: Reads<I> + Writes<O> + Drives + Works + Copy + Drop + Send,
    I: Send,
    O: Send,
    L: Loader,
    G: Gate + Send,
    E: EndListener,
    requires unused { AreUnused wires }
    requires joined { AreJoined wires }
    ensures served { IsServed dialect result
        (world (L.loaded loader.old) (G.passed gate.old)
        (streams (R.supply input.old) (R.output output.old)))
        (world (L.loaded loader.new) (G.passed gate.new)
        (streams (R.supply input.new) (R.output output.new))) }
    ensures loader { L.origin loader.new ≡ L.origin loader.old }
    ensures told { E.tells listener.old listener.new result }
{
    let (writer, runner, reader, session) = tasks_over(
        *rights, alloc, dialect, wires, input, output, loader, gate,
    );
    let witness = ListenerWitness::new(listener);
    // The reader is started last, since nothing can wake it from a read.
    let (writer, runner, reader, session, listener) = run_beside(
        rt, writer, runner, reader, session, witness,
    );
    let WriterOutput { output, log, wrote } = writer;
    let RunnerOutput {
        orders,
        reports,
        gate,
    } = runner;
    let ReaderOutput { input, inbox, .. } = reader;
    let SessionOutput {
        loader,
        ends,
        closed,
    } = session;
    end_loans(output, gate, input, loader, listener);
    reconcile(inbox, reports, log, orders, ends);
    outcome(&wrote, &closed)
}

/// Returns how serving ended, by how the writer and the session ended. The session was not driven if a thread can't be
/// started.
pub(crate) fn outcome(
    wrote: &Result<(), WriteFailed>,
    closed: &Option<Result<Closed, SessionFault>>,
) -> Result<Served, ServeFault>
    ensures { result ≡ outcome_if_driven wrote.now closed.now }
{
    let Some(closed) = closed else {
        return Err(ServeFault::NoThread);
    };
    if wrote.is_err() {
        return Err(ServeFault::WriteFailed);
    }
    match closed {
        Ok(Closed::Disconnected) => Ok(Served::Disconnected),
        Ok(Closed::InputEnded) => Ok(Served::InputEnded),
        Ok(Closed::ReadFailed) => Err(ServeFault::ReadFailed),
        Err(fault) => Err(ServeFault::Session(*fault)),
    }
}

/// Ends the loan of a reference that a task returned. It does nothing: its contract ties what the reference has now to the
/// parameter that was lent.
pub(crate) fn end_loan<T>(x: &mut T)
    ensures { x.new ≡ x.old }
{}

/// Ends the loans of all references that the tasks returned.
fn end_loans<O, G, I, L, E>(
    output: &mut O,
    gate: &mut G,
    input: &mut I,
    loader: &mut L,
    listener: &mut E,
)
    ensures output { output.new ≡ output.old }
    ensures gate { gate.new ≡ gate.old }
    ensures input { input.new ≡ input.old }
    ensures loader { loader.new ≡ loader.old }
    ensures listener { listener.new ≡ listener.old }
{}
