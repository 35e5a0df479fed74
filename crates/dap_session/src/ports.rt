//! The ports of a session: where its events and files come from, and where its frames and orders go.

use dap_history::LoadFault;
use dbg_runner::{Order, Report};

/// What comes to a session.
#[derive(Drop)]
pub enum Event {
    /// The next bytes of the input.
    Piece(Vec<u8>),
    /// The input came to its end.
    End,
    /// Reading the input failed.
    ReadFailed,
    /// An allocation failed while a piece was read.
    NoMemory,
    /// The file that a launch waits for.
    File(Result<Vec<u8>, LoadFault>),
    /// A report of the runner.
    Report(Report),
}

/// Why an order wasn't pushed.
#[derive(Clone, Copy)]
pub enum OrderFault {
    /// There is no room for it.
    Full,
    /// Nobody takes orders any more.
    Gone,
}

/// Where frames go.
pub trait Out {
    ghost use Rattle.dap_session.specs.Ports.{Written};
    ghost use Rattle.std.specs.Prelude.{◌≡◌, ◌++◌, ◌∷◌, [], OnOk, OnErr, IfErr};

    /// The frames put, and the frames refused.
    ghost seen: { Self → Written };

    /// None of the frames put is kept.
    ghost keeps_none: { Self → Type 0 };

    /// What underlies the port, which no call changes.
    ghost Origin: { Type 0 };

    ghost origin: { Self → Origin };

    /// Puts a frame after those put before. It may be kept until [`put_last`](Self::put_last).
    ///
    /// # Errors
    ///
    /// The frame itself, where it was refused.
    fn put(&mut self, frame: Vec<u8>) -> Result<(), Vec<u8>>
        ensures ok { OnOk result ((seen self.new).frames ≡ (seen self.old).frames ++ frame.items ∷ []) }
        ensures ok_refused { OnOk result ((seen self.new).refused ≡ (seen self.old).refused) }
        ensures err { OnErr result ((seen self.new).frames ≡ (seen self.old).frames) }
        ensures err_refused { OnErr result ((seen self.new).refused ≡ (seen self.old).refused ++ frame.items ∷ []) }
        ensures back { IfErr result (λ back. back.items ≡ frame.items) }
        ensures origin { origin self.new ≡ origin self.old };

    /// Puts a frame after those put before, and passes on all that are kept, before the caller waits for something else.
    ///
    /// # Errors
    ///
    /// The frame itself, where it was refused.
    fn put_last(&mut self, frame: Vec<u8>) -> Result<(), Vec<u8>>
        ensures ok { OnOk result ((seen self.new).frames ≡ (seen self.old).frames ++ frame.items ∷ []) }
        ensures ok_refused { OnOk result ((seen self.new).refused ≡ (seen self.old).refused) }
        ensures err { OnErr result ((seen self.new).frames ≡ (seen self.old).frames) }
        ensures err_refused { OnErr result ((seen self.new).refused ≡ (seen self.old).refused ++ frame.items ∷ []) }
        ensures passed { OnOk result (keeps_none self.new) }
        ensures back { IfErr result (λ back. back.items ≡ frame.items) }
        ensures origin { origin self.new ≡ origin self.old };
}

/// Where orders go.
pub trait Orders {
    ghost use Rattle.dbg_runner.specs.Orders.{plain_order};
    ghost use Rattle.dap_session.specs.Ports.{PushedOrders};
    ghost use Rattle.dap_session.specs.declared.ports.OrderFault.TheVariants.{Full, Gone};
    ghost use Rattle.std.specs.Prelude.{◌≡◌, ◌++◌, ◌∷◌, [], ◌<◌, OnOk, OnErr, Err};

    /// The orders pushed, and how many were refused.
    ghost seen: { Self → PushedOrders };

    /// There is no room for an order.
    ghost is_full: { Self → Type 0 };

    /// What underlies the port, which no call changes.
    ghost Origin: { Type 0 };

    ghost origin: { Self → Origin };

    /// Pushes an order after those pushed before.
    ///
    /// # Errors
    ///
    /// The order was refused. Each refusal is counted by its kind only.
    fn push(&mut self, order: Order) -> Result<(), OrderFault>
        ensures ok { OnOk result ((seen self.new).orders ≡ (seen self.old).orders ++ plain_order order ∷ []) }
        ensures ok_fulls { OnOk result ((seen self.new).fulls ≡ (seen self.old).fulls) }
        ensures ok_refusals { OnOk result ((seen self.new).refusals ≡ (seen self.old).refusals) }
        ensures err { OnErr result ((seen self.new).orders ≡ (seen self.old).orders) }
        ensures full { result ≡ Err Full → is_full self.old }
        ensures full_count { result ≡ Err Full → (seen self.old).fulls < (seen self.new).fulls }
        ensures full_refusals { result ≡ Err Full → (seen self.new).refusals ≡ (seen self.old).refusals }
        ensures gone_count { result ≡ Err Gone → (seen self.old).refusals < (seen self.new).refusals }
        ensures gone_fulls { result ≡ Err Gone → (seen self.new).fulls ≡ (seen self.old).fulls }
        ensures origin { origin self.new ≡ origin self.old };
}

/// Where events come from, for a session with these other ports.
pub trait Inbox<L, O, D> {
    ghost use Rattle.dap_history.specs.Events.{Incoming};
    ghost use Rattle.dap_session.specs.Incoming.{incoming_of};
    ghost use Rattle.std.specs.Prelude.{◌≡◌, ◌++◌, ◌∷◌, [], List};

    /// The events returned so far, the oldest first.
    ghost given: { Self → List Incoming };

    /// What underlies the port, which no call changes.
    ghost Origin: { Type 0 };

    ghost origin: { Self → Origin };

    /// Where the next event may be asked for, by what this port and the others have done so far. An inbox that leaves it
    /// out may be asked at any time. Whatever it is, [`drive`](crate::drive) asks only where it owes nothing.
    ghost may_ask: { Self → L → O → D → Type 0 } = { λ _ _ _ _. Unit {0} };

    /// Returns the next event. It may block until one comes. The other ports are lent to say what they have done by then.
    fn next(&mut self, loader: &L, out: &O, orders: &D) -> Event
        requires { may_ask self.old loader.now out.now orders.now }
        ensures given { given self.new ≡ given self.old ++ incoming_of result ∷ [] }
        ensures origin { origin self.new ≡ origin self.old };
}

/// Where files come from.
pub trait Loader {
    ghost use Rattle.dap_history.specs.Interleaving.{Load};
    ghost use Rattle.dap_session.specs.Ports.{load_of, plain_file};
    ghost use Rattle.std.specs.Prelude.{◌≡◌, ◌++◌, ◌∷◌, [], ◌≤◌, ◌+◌, List, length, IfOk};
    ghost use Rattle.pl0_tree.specs.Faults.{limit};

    /// The paths asked for and the answers returned so far, the oldest first: a file, `CannotRead` or `NoMemory`.
    ghost loaded: { Self → List Load };

    /// What underlies the loader, which no call changes.
    ghost Origin: { Type 0 };

    ghost origin: { Self → Origin };

    /// Returns the bytes of the file at a path, or the first 65,537 of them where it has more: one more than a program's
    /// text may have.
    ///
    /// # Errors
    ///
    /// `CannotRead`, `NoMemory`: nothing was loaded, and the answer is noted as well.
    fn load(&mut self, path: &str) -> Result<Vec<u8>, LoadFault>
        ensures loaded { loaded self.new ≡ loaded self.old ++ load_of path.now (plain_file result) ∷ [] }
        ensures short { IfOk result (λ file. length file.items ≤ limit + 1) }
        ensures origin { origin self.new ≡ origin self.old };
}

/// A loader that may be asked only at some times, for a session with these other ports. Each [`Loader`] is one that may be
/// asked at any time. A function over this trait asks only where its contract says that it may.
pub trait GuardedLoader<I, O, D> {
    ghost use Rattle.dap_history.specs.Interleaving.{Load};
    ghost use Rattle.dap_session.specs.Ports.{load_of, plain_file};
    ghost use Rattle.std.specs.Prelude.{◌≡◌, ◌++◌, ◌∷◌, [], ◌≤◌, ◌+◌, ℕ, List, length, IfOk};
    ghost use Rattle.pl0_tree.specs.Faults.{limit};

    /// As [`Loader`] says.
    ghost loaded: { Self → List Load };

    ghost Origin: { Type 0 };

    ghost origin: { Self → Origin };

    /// Where it may be asked for the file at a path, by what this port and the others have done so far.
    ghost may_load: { Self → List ℕ → I → O → D → Type 0 } = { λ _ _ _ _ _. Unit {0} };

    /// Returns what [`Loader::load`] does. The other ports are lent to say what they have done by then.
    ///
    /// # Errors
    ///
    /// As there.
    fn load(&mut self, path: &str, inbox: &I, out: &O, orders: &D) -> Result<Vec<u8>, LoadFault>
        requires { may_load self.old path.now inbox.now out.now orders.now }
        ensures loaded { loaded self.new ≡ loaded self.old ++ load_of path.now (plain_file result) ∷ [] }
        ensures short { IfOk result (λ file. length file.items ≤ limit + 1) }
        ensures origin { origin self.new ≡ origin self.old };
}

impl<L: Loader, I, O, D> GuardedLoader<I, O, D> for L {
    ghost loaded = { L.loaded };

    ghost Origin = { L.Origin };

    ghost origin = { L.origin };

    fn load(
        &mut self,
        path: &str,
        _inbox: &I,
        _out: &O,
        _orders: &D,
    ) -> Result<Vec<u8>, LoadFault> {
        Loader::load(self, path)
    }
}
