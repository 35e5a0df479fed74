//! A queue of one or two senders and one receiver.

ghost use Rattle.std.specs.Prelude.{◌≡◌, ◌<◌, true, IfOk, IfErr, OnOk, OnErr, IfSome, IfNone, List, ◌++◌};
ghost use Rattle.dap_wires.specs.Delivery.{unused, first_sender, second_sender, only_receiver, sole_receiver, put, took, May, of_first, of_second};
ghost use Rattle.dap_wires.specs.Ends.{sender_log, receiver_log, receive_log, sender_queue, receiver_queue, receive_log_queue, sender_room, receiver_room};

use crate::ends::{ReceiveEnd, ReceiveLog, SendEnd};
use crate::rule::{First, Puts, Second, Sent, Takes, Whole};
use crossbeam_channel::{SendError, bounded_with};
use std::alloc::{AllocError, Global};
use std::hint;
use std::sync::Wait;

/// How many times a receiver looks for a message before it sleeps. It takes about 20 microseconds.
const POLLS: usize = 256;

/// Makes a queue with room for `capacity` messages. Returns the ends of the first sender, of the second and of the
/// receiver.
///
/// # Errors
///
/// `AllocError`, where an allocation failed.
pub(crate) fn channel<M: Sent + Drop, R: Copy + Drop>(
    rt: R,
    alloc: Global,
    capacity: usize,
) -> Result<(SendEnd<M, R>, SendEnd<M, R>, ReceiveEnd<M, R>), AllocError>
    requires { 0 < capacity }
    ensures first { IfOk result (λ r. sender_log r.0 ≡ unused first_sender) }
    ensures second { IfOk result (λ r. sender_log r.1 ≡ unused second_sender) }
    ensures receiver { IfOk result (λ r. receiver_log r.2 ≡ unused only_receiver) }
    ensures one { IfOk result (λ r. (sender_queue r.1 ≡ sender_queue r.0) × (receiver_queue r.2 ≡ sender_queue r.0)) }
    ensures room { IfOk result (λ r. (sender_room r.0 ≡ capacity) × (sender_room r.1 ≡ capacity)
        × (receiver_room r.2 ≡ capacity)) }
{
    let (sender, receiver, mut pass) = bounded_with(alloc, capacity)?;
    let first = sender.another::<First>(&mut pass);
    let second = sender.another::<Second>(&mut pass);
    let other = sender.try_clone()?;
    Ok((
        SendEnd {
            rt,
            sender,
            pass: first,
        },
        SendEnd {
            rt,
            sender: other,
            pass: second,
        },
        ReceiveEnd { rt, receiver, pass },
    ))
}

/// Makes a queue of one sender, with room for `capacity` messages. Returns both of its ends. The right of the second sender
/// stays at the receiver's, where nobody uses it.
///
/// # Errors
///
/// `AllocError`, where an allocation failed.
pub(crate) fn channel_of_one<M: Sent + Drop, R: Copy + Drop>(
    rt: R,
    alloc: Global,
    capacity: usize,
) -> Result<(SendEnd<M, R>, ReceiveEnd<M, R>), AllocError>
    requires { 0 < capacity }
    ensures sender { IfOk result (λ r. sender_log r.0 ≡ unused first_sender) }
    ensures receiver { IfOk result (λ r. receiver_log r.1 ≡ unused sole_receiver) }
    ensures one { IfOk result (λ r. receiver_queue r.1 ≡ sender_queue r.0) }
    ensures room { IfOk result (λ r. (sender_room r.0 ≡ capacity) × (receiver_room r.1 ≡ capacity)) }
{
    let (sender, receiver, mut pass) = bounded_with(alloc, capacity)?;
    let only = sender.another::<First>(&mut pass);
    Ok((
        SendEnd {
            rt,
            sender,
            pass: only,
        },
        ReceiveEnd { rt, receiver, pass },
    ))
}

/// Brings the logs of all ends together, when all threads were joined, and proves that of each sender what was received,
/// and then what is left inside, is what it sent.
pub(crate) fn reconcile<M: Sent + Drop, R: Drop>(
    first: SendEnd<M, R>,
    second: SendEnd<M, R>,
    log: ReceiveLog<M>,
)
    requires one { (sender_queue second ≡ sender_queue first) × (receive_log_queue log ≡ sender_queue first) }
    requires first { (sender_log first).first ≡ true }
    requires second { (sender_log second).second ≡ true }
    requires receiver { (receive_log log).takes ≡ true }
    ensures { (inside : List M)
        × ((sender_log first).put_first ≡ of_first M.by_second ((receive_log log).taken ++ inside))
        × ((sender_log second).put_second ≡ of_second M.by_second ((receive_log log).taken ++ inside)) }
{
    let SendEnd {
        sender,
        pass: one,
        ..
    } = first;
    let SendEnd { pass: two, .. } = second;
    let ReceiveLog { mut pass } = log;
    sender.absorb::<First>(&mut pass, one);
    sender.absorb::<Second>(&mut pass, two);
    sender.learn_as::<Whole>(&mut pass);
}

/// Brings the logs of both ends of a queue of one sender together, when both threads were joined, and proves that what was
/// received, and then what is left inside, is what was sent.
pub(crate) fn reconcile_one<M: Sent + Drop, R: Drop>(first: SendEnd<M, R>, log: ReceiveLog<M>)
    requires one { receive_log_queue log ≡ sender_queue first }
    requires first { (sender_log first).first ≡ true }
    requires second { (receive_log log).second ≡ true }
    requires receiver { (receive_log log).takes ≡ true }
    ensures { (inside : List M)
        × ((sender_log first).put_first ≡ of_first M.by_second ((receive_log log).taken ++ inside)) }
{
    let SendEnd {
        sender,
        pass: one,
        ..
    } = first;
    let ReceiveLog { mut pass } = log;
    sender.absorb::<First>(&mut pass, one);
    sender.learn_as::<Whole>(&mut pass);
}

impl<M: Sent + Drop, R: Wait + Drop> SendEnd<M, R> {
    /// Sends a message. Blocks while the queue is full.
    ///
    /// # Errors
    ///
    /// The message, where the receiver has left.
    pub(crate) fn send(&mut self, message: M) -> Result<(), M>
        requires { May M.by_second (sender_log self.old) message }
        ensures sent { OnOk result (sender_log self.new ≡ put M.by_second (sender_log self.old) message) }
        ensures refused { OnErr result (sender_log self.new ≡ sender_log self.old) }
        ensures back { IfErr result (λ back. back ≡ message) }
        ensures queue { sender_queue self.new ≡ sender_queue self.old }
        ensures room { sender_room self.new ≡ sender_room self.old }
    {
        let SendEnd { rt, sender, pass } = self;
        match sender.send_as::<Puts, R>(rt, pass, message) {
            Ok(()) => Ok(()),
            Err(SendError::Disconnected(back)) => Err(back),
            // A queue of a fixed size needs no allocation to send.
            Err(SendError::OutOfMemory(_)) => unreachable!(),
        }
    }
}

impl<M: Sent + Drop, R: Wait + Drop> ReceiveEnd<M, R> {
    /// Takes the next message. Blocks until there is one. Returns `None` where the senders are gone or an allocation
    /// failed.
    pub(crate) fn receive(&mut self) -> Option<M>
        requires { (receiver_log self.old).takes ≡ true }
        ensures some { IfSome result (λ m. receiver_log self.new ≡ took (receiver_log self.old) m) }
        ensures none { IfNone result (receiver_log self.new ≡ receiver_log self.old) }
        ensures queue { receiver_queue self.new ≡ receiver_queue self.old }
        ensures room { receiver_room self.new ≡ receiver_room self.old }
    {
        let ReceiveEnd { rt, receiver, pass } = self;
        // A message that comes within microseconds, such as the next report of a run, is taken before a sleeping thread
        // could be woken.
        for _ in 0..POLLS {
            if let Ok(message) = receiver.try_recv_as::<Takes, R>(rt, pass) {
                return Some(message);
            }
            hint::spin_loop();
        }
        receiver.recv_as::<Takes, R>(rt, pass).ok()
    }
}

impl<M: Sent + Drop, R: Drop> ReceiveEnd<M, R> {
    /// Leaves the queue: from now on `send` returns its message as an error.
    pub(crate) fn leave(self) -> ReceiveLog<M>
        ensures log { receive_log result ≡ receiver_log self }
        ensures queue { receive_log_queue result ≡ receiver_queue self }
    {
        let ReceiveEnd { pass, .. } = self;
        ReceiveLog { pass }
    }
}
