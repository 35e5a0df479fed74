//! The end of the queue that sends.

ghost use Rattle.std.specs.Prelude.{◌≡◌, true, IfErr, OnOk, OnErr};
ghost use Rattle.crossbeam_channel.specs.Claims.{IsSeatAt, view};
ghost use Rattle.crossbeam_channel.specs.Ends.{sends_on};
ghost use Rattle.dap_server.specs.Inbox.{plain_item};
ghost use Rattle.dap_reader.specs.Delivery.{is_sender, Comes};

use crate::queue_end::QueueEnd;
use crate::rule::{InOrder, Puts, Reached};
use byte_streams::GuardedSource;
use crossbeam_channel::{Pass, RuledSender, SendError};
use dap_server::Item;
use std::sync::Wait;

/// The end of the thread that reads: it sends what reads of a source gave.
#[derive(Drop)]
pub(crate) struct ItemSender {
    pub(crate) sender: RuledSender<Item, QueueEnd, InOrder>,
    pub(crate) pass: Pass<Item, QueueEnd>,
    ghost seated: { IsSeatAt (sends_on sender) pass },
    ghost sends: { is_sender (view pass) ≡ true },
}

impl ItemSender {
    ghost use Rattle.dap_reader.specs.Sent.{sent, sender_queue};

    /// Sends what further reads of a source gave. Blocks while the queue is full.
    ///
    /// # Errors
    ///
    /// The item, where the inbox is gone.
    pub(crate) fn send<K: Reached, S: GuardedSource>(
        &mut self,
        rt: &impl Wait,
        item: Item,
        source: &S,
    ) -> Result<(), Item>
        requires reached { K.supply ≡ S.supply source.now }
        requires given { Comes (sent self.old) (plain_item item) (S.supply source.now) }
        ensures ok { OnOk result (sent self.new ≡ S.supply source.now) }
        ensures err { OnErr result (sent self.new ≡ sent self.old) }
        ensures queue { sender_queue self.new ≡ sender_queue self.old }
        ensures back { IfErr result (λ back. back ≡ item) }
    {
        let ItemSender { sender, pass } = self;
        match sender.send_as::<Puts<K>, _>(rt, pass, item) {
            Ok(()) => Ok(()),
            Err(SendError::Disconnected(back)) => Err(back),
            // A queue of a fixed size needs no allocation to send.
            Err(SendError::OutOfMemory(_)) => unreachable!(),
        }
    }
}
