//! The thread that reads.

ghost use Rattle.std.specs.Prelude.{◌≡◌, IfErr, OnOk};
ghost use Rattle.dap_server.specs.Inbox.{plain_item};
ghost use Rattle.dap_reader.specs.Delivery.{Comes};
ghost use Rattle.dap_reader.specs.Sent.{sent, sender_queue};

use crate::sender::ItemSender;
use byte_streams::GuardedSource;
use dap_server::{Inbox, Item};
use std::alloc::Global;
use std::marker::Brand;
use std::sync::Wait;

/// Sends all that reads of a source give, until no more comes or the inbox is gone. It reads only where all was sent that
/// reads gave before.
///
/// # Errors
///
/// The item that was read last, where the inbox is gone.
pub(crate) fn read_client<R: Wait, S: GuardedSource>(
    rt: &R,
    alloc: Global,
    source: &mut S,
    sender: &mut ItemSender,
) -> Result<(), Item>
    requires begins { sent sender.old ≡ S.supply source.old }
    // It may be read wherever all was sent, to this queue. So it is read nowhere else, whether the input ends or not.
    requires reads { (s : S) (e : ItemSender) → sender_queue e ≡ sender_queue sender.old → sent e ≡ S.supply s
        → S.may_read s }
    ensures queue { sender_queue sender.new ≡ sender_queue sender.old }
    ensures ok { OnOk result (sent sender.new ≡ S.supply source.new) }
    ensures err { IfErr result (λ back. Comes (sent sender.new) (plain_item back) (S.supply source.new)) }
{
    for _ in rt.forever() {
        let item = source.next(rt, alloc, sender);
        let goes_on = matches!(item, Item::Bytes(_));
        sender.send::<Brand, S>(rt, item, source)?;
        if !goes_on {
            return Ok(());
        }
    }
    unreachable!()
}
