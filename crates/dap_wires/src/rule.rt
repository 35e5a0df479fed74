//! The rule of a queue: what is taken of each sender is what it sent, in order, each once.

use crate::end_log::EndLog;
use crossbeam_channel::protocol::{Join, Lesson, Outcome, Protocol, Split};
use crossbeam_queue::protocol as queue;

/// A message that one of two senders sends through a queue.
pub(crate) trait Sent {
    ghost use Rattle.std.specs.Prelude.{Bool};

    /// Whether the second sender sends it.
    ghost by_second: { Self → Bool };
}

/// The rule: what was taken and then what is inside is, of each sender, what it put.
pub(crate) struct InOrder;

impl<M: Sent> Protocol<M, EndLog<M>> for InOrder {
    ghost use Rattle.dap_wires.specs.Delivery.{Delivers, unused, every_right};

    ghost holds = { Delivers M.by_second };

    ghost first = { unused every_right };
}

/// The step that puts a message.
pub(crate) struct Puts;

impl<M: Sent> Outcome<M, EndLog<M>> for Puts {
    ghost use Rattle.std.specs.Prelude.{◌≡◌};
    ghost use Rattle.dap_wires.specs.Delivery.{put};

    ghost then = { λ v x w. w ≡ put M.by_second v x };
}

impl<M: Sent> Lesson<M, EndLog<M>> for Puts {
    ghost use Rattle.dap_wires.specs.Delivery.{WasInside};

    ghost fact = { WasInside M.by_second };
}

/// The step that takes a message.
pub(crate) struct Takes;

impl<M: Sent> Outcome<M, EndLog<M>> for Takes {
    ghost use Rattle.std.specs.Prelude.{◌≡◌};
    ghost use Rattle.dap_wires.specs.Delivery.{took};

    ghost then = { λ v x w. w ≡ took v x };
}

// A receiver has no use for what was inside at one moment, so it learns nothing.
impl<M: Sent> Lesson<M, EndLog<M>> for Takes {
    ghost use Rattle.std.specs.Prelude.{⊤};

    ghost fact = { λ v inside. ⊤ };
}

/// What an end with every right knows.
pub(crate) struct Whole;

impl<M: Sent> Lesson<M, EndLog<M>> for Whole {
    ghost use Rattle.dap_wires.specs.Delivery.{Balances};

    ghost fact = { Balances M.by_second };
}

/// The right of the first sender, which is split off and joined again.
pub(crate) struct First;

impl<M> Split<EndLog<M>> for First {
    ghost use Rattle.dap_wires.specs.Delivery.{only_first, without_first};

    ghost left = { without_first };

    ghost right = { only_first };
}

impl<M> Join<EndLog<M>> for First {
    ghost use Rattle.dap_wires.specs.Delivery.{with_first, idle};

    ghost both = { with_first };

    ghost spent = { idle };
}

/// The right of the second sender, which is split off and joined again.
pub(crate) struct Second;

impl<M> Split<EndLog<M>> for Second {
    ghost use Rattle.dap_wires.specs.Delivery.{only_second, without_second};

    ghost left = { without_second };

    ghost right = { only_second };
}

impl<M> Join<EndLog<M>> for Second {
    ghost use Rattle.dap_wires.specs.Delivery.{with_second, idle};

    ghost both = { with_second };

    ghost spent = { idle };
}

// The same rule for a queue of `crossbeam_queue`, which has traits of its own.

impl<M: Sent> queue::Protocol<M, EndLog<M>> for InOrder {
    ghost use Rattle.dap_wires.specs.Delivery.{Delivers, unused, every_right};

    ghost holds = { Delivers M.by_second };

    ghost first = { unused every_right };
}

impl<M: Sent> queue::Outcome<M, EndLog<M>> for Puts {
    ghost use Rattle.std.specs.Prelude.{◌≡◌};
    ghost use Rattle.dap_wires.specs.Delivery.{put};

    ghost then = { λ v x w. w ≡ put M.by_second v x };
}

impl<M: Sent> queue::Lesson<M, EndLog<M>> for Puts {
    ghost use Rattle.dap_wires.specs.Delivery.{WasInside};

    ghost fact = { WasInside M.by_second };
}

impl<M: Sent> queue::Outcome<M, EndLog<M>> for Takes {
    ghost use Rattle.std.specs.Prelude.{◌≡◌};
    ghost use Rattle.dap_wires.specs.Delivery.{took};

    ghost then = { λ v x w. w ≡ took v x };
}

impl<M: Sent> queue::Lesson<M, EndLog<M>> for Takes {
    ghost use Rattle.std.specs.Prelude.{⊤};

    ghost fact = { λ v inside. ⊤ };
}

impl<M: Sent> queue::Lesson<M, EndLog<M>> for Whole {
    ghost use Rattle.dap_wires.specs.Delivery.{Balances};

    ghost fact = { Balances M.by_second };
}
