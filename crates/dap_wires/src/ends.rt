//! The ends of a queue, each with a pass that carries the log of what was done at it.

ghost use Rattle.std.specs.Prelude.{◌≡◌, []};
ghost use Rattle.crossbeam_channel.specs.Claims.{IsSeatAt};
ghost use Rattle.crossbeam_channel.specs.Ends.{sends_on, receives_on};

use crate::end_log::EndLog;
use crate::rule::{InOrder, Sent};
use crossbeam_channel::{Pass, RuledReceiver, RuledSender};

/// The end of one sender.
#[derive(Drop)]
pub(crate) struct SendEnd<M: Sent + Drop, R: Drop> {
    pub(crate) rt: R,
    pub(crate) sender: RuledSender<M, EndLog<M>, InOrder>,
    pub(crate) pass: Pass<M, EndLog<M>>,
    ghost seated: { IsSeatAt (sends_on sender) pass },
}

/// The end of the receiver.
#[derive(Drop)]
pub(crate) struct ReceiveEnd<M: Sent + Drop, R: Drop> {
    pub(crate) rt: R,
    pub(crate) receiver: RuledReceiver<M, EndLog<M>, InOrder>,
    pub(crate) pass: Pass<M, EndLog<M>>,
    ghost seated: { IsSeatAt (receives_on receiver) pass },
}

/// The log of what was received at an end of a queue that its receiver has left.
#[derive(Drop)]
pub struct ReceiveLog<M: Drop> {
    pub(crate) pass: Pass<M, EndLog<M>>,
    ghost idle: { pass.me.1 ≡ [] },
}
