//! The three ports of the runner, one trait for each.

use crate::order::Order;
use crate::report::Report;

/// Where the runner's orders come from.
pub trait OrdersIn {
    ghost use Rattle.std.specs.Prelude.{◌≡◌, ◌∷◌, ◌++◌, [], List, option_map};
    ghost use Rattle.std.specs.Option.{option_to_list};
    ghost use Rattle.dbg_runner.specs.Plain.{PlainOrder};
    ghost use Rattle.dbg_runner.specs.Orders.{plain_order};

    /// The orders that were taken, the oldest first.
    ghost taken: { Self → List PlainOrder };

    /// What the port stands on, which no call changes.
    ghost Origin: { Type 0 };

    ghost origin: { Self → Origin };

    /// Blocks until there is an order, and takes it.
    fn next(&mut self) -> Order
        ensures taken { taken self.new ≡ taken self.old ++ plain_order result ∷ [] }
        ensures origin { origin self.new ≡ origin self.old };

    /// Takes the next order, if there is one. It does not block.
    fn poll(&mut self) -> Option<Order>
        ensures taken { taken self.new ≡ taken self.old ++ option_to_list (option_map plain_order result) }
        ensures origin { origin self.new ≡ origin self.old };
}

/// Where the runner's reports go.
pub trait Reports {
    ghost use Rattle.std.specs.Prelude.{◌≡◌, ◌∷◌, ◌++◌, [], List, OnOk, OnErr, IfErr};
    ghost use Rattle.dbg_runner.specs.Plain.{PlainReport};
    ghost use Rattle.dbg_runner.specs.Reported.{plain_report};

    /// The reports that were sent, the oldest first.
    ghost sent: { Self → List PlainReport };

    /// The reports that were handed back, the oldest first.
    ghost handed_back: { Self → List PlainReport };

    /// What the port stands on, which no call changes.
    ghost Origin: { Type 0 };

    ghost origin: { Self → Origin };

    /// Sends a report.
    ///
    /// # Errors
    ///
    /// The report itself, if it can't be sent.
    fn send(&mut self, report: Report) -> Result<(), Report>
        ensures sends { OnOk result (sent self.new ≡ sent self.old ++ plain_report report ∷ []) }
        ensures keeps_refused { OnOk result (handed_back self.new ≡ handed_back self.old) }
        ensures refuses { OnErr result (handed_back self.new ≡ handed_back self.old ++ plain_report report ∷ []) }
        ensures keeps_sent { OnErr result (sent self.new ≡ sent self.old) }
        ensures back { IfErr result (λ back. back ≡ report) }
        ensures origin { origin self.new ≡ origin self.old };
}

/// What the runner's slices wait for.
pub trait Gate {
    ghost use Rattle.std.specs.Prelude.{◌≡◌, ◌∷◌, ◌++◌, [], List, ℕ};

    /// The slices that passed, each by the number of its run and its own, the oldest first.
    ghost passed: { Self → List (ℕ × ℕ) };

    /// Blocks until the slice with this number, from 1, of this run may begin.
    fn pass(&mut self, run: u64, slice: u64)
        ensures { passed self.new ≡ passed self.old ++ (run, slice) ∷ [] };
}
