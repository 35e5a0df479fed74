//! An inbox that can be looked into.

use crate::inbox::{Inbox, Item};
use std::alloc::Global;
use std::sync::Wait;

/// An inbox that can be looked into without waiting.
pub trait Polled<O>: Inbox<O> {
    ghost use Rattle.std.specs.Prelude.{Option, option_map};
    ghost use Rattle.dap_server.specs.Inbox.{PlainItem, plain_item};

    /// What the inbox promises of a look: before, the item that was there, if one was, and after. An inbox that leaves it
    /// out promises nothing.
    ghost polls: { Self → Option PlainItem → Self → Type 0 } = { λ _ _ _. Unit {0} };

    /// Where the inbox may be looked into, by what it gave and what the output took by then. An inbox that leaves it out may
    /// be looked into at any time. It is looked into only where nothing is owed, whatever it is: a session knows no other
    /// reason.
    ghost may_look: { Self → O → Type 0 } = { λ _ _. Unit {0} };

    /// Returns the next item, if there is one now. The output is lent to say what it took by then.
    fn poll(&mut self, rt: &impl Wait, alloc: Global, output: &O) -> Option<Item>
        requires { may_look self.old output.now }
        ensures { polls self.old (option_map plain_item result) self.new };
}
