//! The rule of the queue: what is inside is what the reads gave after those of which all was taken.

use crate::queue_end::QueueEnd;
use crossbeam_channel::protocol::{Join, Lesson, Outcome, Protocol, Split};
use dap_server::Item;
use std::marker::{Brand, PhantomData};

/// What the reads of an input gave up to a moment. A call picks it.
pub(crate) trait Reached {
    ghost use Rattle.byte_streams.specs.Streams.{Supply};

    ghost supply: { Supply };
}

impl Reached for Brand {
    ghost use Rattle.dap_reader.specs.Delivery.{nothing};

    ghost supply = { nothing };
}

/// The rule.
pub(crate) struct InOrder;

impl Protocol<Item, QueueEnd> for InOrder {
    ghost use Rattle.dap_reader.specs.Delivery.{Carries};
    ghost use Rattle.dap_reader.specs.declared.queue_end.QueueEnd.TheVariants.{Unused};

    ghost holds = { Carries };

    ghost first = { Unused };
}

/// The step that takes the ends apart, before anything is sent.
pub(crate) struct Parts<K> {
    of: PhantomData<K>,
}

impl<K: Reached> Split<QueueEnd> for Parts<K> {
    ghost use Rattle.dap_reader.specs.Delivery.{view_of};
    ghost use Rattle.dap_reader.specs.declared.queue_end.QueueEnd.TheVariants.{Takes, Sends};

    ghost left = { λ _. Takes (view_of K.supply) 0 };

    ghost right = { λ _. Sends (view_of K.supply) };
}

/// The step that sends what one more read gave.
pub(crate) struct Puts<K> {
    of: PhantomData<K>,
}

impl<K: Reached> Outcome<Item, QueueEnd> for Puts<K> {
    ghost use Rattle.std.specs.Prelude.{◌≡◌};
    ghost use Rattle.dap_reader.specs.Delivery.{view_of};
    ghost use Rattle.dap_reader.specs.declared.queue_end.QueueEnd.TheVariants.{Sends};

    ghost then = { λ _ _ w. w ≡ Sends (view_of K.supply) };
}

impl<K> Lesson<Item, QueueEnd> for Puts<K> {
    ghost use Rattle.std.specs.Prelude.{⊤};

    ghost fact = { λ _ _. ⊤ };
}

/// The step that takes an item.
pub(crate) struct Gets;

impl Outcome<Item, QueueEnd> for Gets {
    ghost use Rattle.dap_reader.specs.Delivery.{Took};

    ghost then = { Took };
}

impl Lesson<Item, QueueEnd> for Gets {
    ghost use Rattle.std.specs.Prelude.{⊤};

    ghost fact = { λ _ _. ⊤ };
}

/// The step that joins the ends, when nothing is sent or taken any more.
pub(crate) struct Joins;

impl Join<QueueEnd> for Joins {
    ghost use Rattle.dap_reader.specs.Delivery.{joined};
    ghost use Rattle.dap_reader.specs.declared.queue_end.QueueEnd.TheVariants.{Spent};

    ghost both = { joined };

    ghost spent = { Spent };
}

impl Lesson<Item, QueueEnd> for Joins {
    ghost use Rattle.dap_reader.specs.Delivery.{Balances};

    ghost fact = { Balances };
}
