//! The queue: making it, and joining its ends.

ghost use Rattle.std.specs.Prelude.{◌≡◌, IfOk, List};
ghost use Rattle.byte_streams.specs.Streams.{IsOfWhole};
ghost use Rattle.dap_server.specs.Inbox.{PlainItem, Given};
ghost use Rattle.dap_reader.specs.Delivery.{Comes};
ghost use Rattle.dap_reader.specs.Sent.{sent, sender_queue};
ghost use Rattle.dap_reader.specs.Taken.{taken, begun, queue, taken_at_last, left_queue};

use crate::arrivals::{Arrivals, TakenLog};
use crate::rule::{Joins, Parts, Reached};
use crate::sender::ItemSender;
use crossbeam_channel::bounded_with;
use std::alloc::{AllocError, Global};
use std::snapshot::Snapshot;

/// How many items may wait for the session. The reader waits while there are as many.
const MOST_WAITING: usize = 64;

/// Makes a queue for what reads of an input will give from now on, and returns both of its ends, of which the inbox belongs
/// to a session of this worker that writes to this output. It reads nothing itself.
///
/// # Errors
///
/// An allocation failed.
pub(crate) fn item_queue<K: Reached, I, W, O>(
    alloc: Global,
    _input: &I,
    worker: &W,
    output: &O,
) -> Result<(ItemSender, Arrivals<W, O>), AllocError>
    requires { ∥ IsOfWhole K.supply ∥₁ }
    ensures sent { IfOk result (λ r. sent r.0 ≡ K.supply) }
    ensures taken { IfOk result (λ r. taken r.1 ≡ K.supply) }
    ensures begun { IfOk result (λ r. begun r.1 ≡ (K.supply, worker.now, output.now)) }
    ensures one { IfOk result (λ r. queue r.1 ≡ sender_queue r.0) }
{
    let (sender, receiver, mut pass) = bounded_with(alloc, MOST_WAITING)?;
    let other = sender.another::<Parts<K>>(&mut pass);
    Ok((
        ItemSender {
            sender,
            pass: other,
        },
        Arrivals {
            receiver,
            first: Snapshot::of(&pass),
            pass,
            worker: Snapshot::of(worker),
            output: Snapshot::of(output),
        },
    ))
}

/// Joins the ends, when nothing is sent or taken any more, and proves that what was taken is the front of what was sent.
pub(crate) fn reconcile(end: ItemSender, log: TakenLog)
    requires { left_queue log ≡ sender_queue end }
    ensures { (inside : List PlainItem) × Given Comes (taken_at_last log) inside (sent end) }
{
    let ItemSender {
        sender,
        pass: other,
    } = end;
    let TakenLog { mut pass } = log;
    sender.absorb::<Joins>(&mut pass, other);
    sender.learn_as::<Joins>(&mut pass);
}
