//! The inbox.

ghost use Rattle.std.specs.Prelude.{◌≡◌, [], true};
ghost use Rattle.byte_streams.specs.Streams.{IsOfWhole};
ghost use Rattle.crossbeam_channel.specs.Claims.{IsSeatAt, view};
ghost use Rattle.crossbeam_channel.specs.Ends.{receives_on};
ghost use Rattle.dap_reader.specs.Delivery.{is_taker, through};

use crate::queue_end::QueueEnd;
use crate::rule::{Gets, InOrder};
use byte_streams::Sink;
use crossbeam_channel::{Pass, RuledReceiver};
use dap_server::{Inbox, Item, Polled, Worker};
use std::alloc::Global;
use std::snapshot::Snapshot;
use std::sync::Wait;

/// What a client sends: the items that reads of an input gave, in order, each once, up to those that were taken. After the
/// last one, which is no `Bytes`, a look finds nothing, and `next` tries again and again: it never returns, and never rests.
///
/// It belongs to the session of one worker, which writes to one output. An item is looked for only where that session owes
/// nothing, and waited for only where its worker has nothing to do either. The types of both are part of this type, so that
/// a session has no others to show.
#[derive(Drop)]
pub(crate) struct Arrivals<W, O> {
    pub(crate) receiver: RuledReceiver<Item, QueueEnd, InOrder>,
    pub(crate) pass: Pass<Item, QueueEnd>,
    // The pass, the worker and the output as they were when nothing was taken yet.
    pub(crate) first: Snapshot<Pass<Item, QueueEnd>>,
    pub(crate) worker: Snapshot<W>,
    pub(crate) output: Snapshot<O>,
    ghost seated: { IsSeatAt (receives_on receiver) pass },
    ghost takes: { is_taker (view pass) ≡ true },
    ghost of_whole: { ∥ IsOfWhole (through (view pass)) ∥₁ },
}

/// What an inbox took that is left.
#[derive(Drop)]
pub(crate) struct TakenLog {
    pub(crate) pass: Pass<Item, QueueEnd>,
    ghost idle: { pass.me.1 ≡ [] },
    ghost takes: { is_taker (view pass) ≡ true },
    ghost of_whole: { ∥ IsOfWhole (through (view pass)) ∥₁ },
}

impl<W, O> Arrivals<W, O> {
    ghost use Rattle.std.specs.Prelude.{◌≡◌};
    ghost use Rattle.dap_reader.specs.Taken.{taken, queue, taken_at_last, left_queue};

    /// Leaves the inbox: from now on each item that is sent is returned as an error.
    pub(crate) fn leave(self) -> TakenLog
        ensures taken { taken_at_last result ≡ taken self }
        ensures queue { left_queue result ≡ queue self }
    {
        let Arrivals { pass, .. } = self;
        TakenLog { pass }
    }
}

impl<W: Worker, O: Sink> Inbox<O> for Arrivals<W, O> {
    ghost use Rattle.std.specs.Prelude.{◌≡◌, ◌+◌};
    ghost use Rattle.dap_server.specs.Inbox.{Reads, plain_item};
    ghost use Rattle.dap_server.specs.Working.{OwesNothingIdle};
    ghost use Rattle.dap_reader.specs.Serving.{Looks};
    ghost use Rattle.dap_reader.specs.Taken.{taken, received, begun, origin};

    ghost gives = { λ before item after. Reads (taken before) item (taken after) × (origin after ≡ origin before) };

    ghost may_wait = { λ inbox output. OwesNothingIdle W.replies W.works W.busy Reads Looks (begun inbox).1
        (begun inbox).0 (taken inbox) (O.output (begun inbox).2).written (O.output output).written };

    /// It receives one item, and returns it: it waits for no further one before.
    fn next(&mut self, rt: &impl Wait, _alloc: Global, _output: &O) -> Item
        requires { OwesNothingIdle W.replies W.works W.busy Reads Looks (begun self.old).1 (begun self.old).0
            (taken self.old) (O.output (begun self.old).2).written (O.output _output.now).written }
        ensures gives { Reads (taken self.old) (plain_item result) (taken self.new)
            × (origin self.new ≡ origin self.old) }
        ensures once { received self.new ≡ received self.old + 1 }
    {
        let Arrivals { receiver, pass, .. } = self;
        for _ in rt.forever() {
            if let Ok(item) = receiver.recv_as::<Gets, _>(rt, pass) {
                return item;
            }
        }
        unreachable!()
    }
}

impl<W: Worker, O: Sink> Polled<O> for Arrivals<W, O> {
    ghost use Rattle.std.specs.Prelude.{◌≡◌};
    ghost use Rattle.dap_server.specs.Inbox.{Reads};
    ghost use Rattle.dap_server.specs.Working.{OwesNothing};
    ghost use Rattle.dap_reader.specs.Serving.{Looks};
    ghost use Rattle.dap_reader.specs.Taken.{taken, begun, origin};

    ghost polls = { λ before found after. Looks (taken before) found (taken after) × (origin after ≡ origin before) };

    ghost may_look = { λ inbox output. OwesNothing W.replies W.works W.busy Reads Looks (begun inbox).1
        (begun inbox).0 (taken inbox) (O.output (begun inbox).2).written (O.output output).written };

    fn poll(&mut self, rt: &impl Wait, _alloc: Global, _output: &O) -> Option<Item> {
        let Arrivals { receiver, pass, .. } = self;
        match receiver.try_recv_as::<Gets, _>(rt, pass) {
            Ok(item) => Some(item),
            Err(_) => None,
        }
    }
}
