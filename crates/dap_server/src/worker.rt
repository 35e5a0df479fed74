//! An adapter that works while no request waits.

use crate::reply::Event;
use crate::responder::Responder;
use std::alloc::{AllocError, Global};

/// An adapter that works while no request waits: a program that it debugs runs on, some steps at a time.
pub trait Worker: Responder {
    ghost use Rattle.std.specs.Prelude.{◌≡◌, Bool, true, List, IfOk, map};
    ghost use Rattle.dap_server.specs.Messages.{PlainEvent, plain_event};

    /// What the adapter promises of its work: before, the events that tell of it, and after. An adapter that leaves it out
    /// promises nothing.
    ghost works: { Self → List PlainEvent → Self → Type 0 } = { λ _ _ _. Unit {0} };

    /// Whether there is something to do while no request waits.
    ghost busy: { Self → Bool };

    /// Whether there is something to do while no request waits.
    fn is_busy(&self) -> bool
        ensures { result ≡ busy self.now };

    /// Does a part of it, and returns the events that tell of it. It is to be short, since a request waits meanwhile.
    ///
    /// # Errors
    ///
    /// An allocation failed. The session ends then.
    fn work(&mut self, alloc: Global) -> Result<Vec<Event>, AllocError>
        requires { busy self.old ≡ true }
        ensures origin { Self.origin self.new ≡ Self.origin self.old }
        ensures worked { IfOk result (λ events. works self.old (map plain_event events.items) self.new) };
}
