//! What a session does while nothing has come.

use crate::inbox::{Inbox, Item};
use crate::polled::Polled;
use crate::reply::Event;
use crate::responder::Responder;
use crate::worker::Worker;
use std::alloc::{AllocError, Global};
use std::sync::Wait;

/// What a session does next.
pub(crate) enum Next {
    /// It takes this item.
    Take(Item),
    /// It sends these events, which tell of a part of the adapter's work.
    Tell(Vec<Event>),
}

/// How a session comes to its next item: what it does while nothing has come.
pub(crate) trait Pace<R: Responder, I, O> {
    ghost use Rattle.std.specs.Prelude.{◌≡◌, Bool, true, false, None, IfOk, OnErr};
    ghost use Rattle.dap_server.specs.Inbox.{Gives};
    ghost use Rattle.dap_server.specs.Working.{Works, Polls, ComesNext};

    /// What a part of the adapter's work does.
    ghost works: { Works R };

    /// Whether the session looks into the inbox, and works where nothing is there; else it waits for an item.
    ghost busy: { R → Bool };

    /// Which item is waited for.
    ghost gives: { Gives I };

    /// What a look into the inbox finds.
    ghost polls: { Polls I };

    /// Where an item may be waited for.
    ghost may_wait: { I → O → Type 0 };

    /// Where the inbox may be looked into.
    ghost may_look: { I → O → Type 0 };

    /// Returns the next item; or, where the adapter is busy and none is there, does a part of its work.
    ///
    /// # Errors
    ///
    /// There is no memory for that part.
    fn next_turn(
        rt: &impl Wait,
        alloc: Global,
        responder: &mut R,
        inbox: &mut I,
        output: &O,
    ) -> Result<Next, AllocError>
        requires waits { busy responder.old ≡ false → may_wait inbox.old output.now }
        requires looks { busy responder.old ≡ true → may_look inbox.old output.now }
        ensures origin { R.origin responder.new ≡ R.origin responder.old }
        ensures ok { IfOk result (λ next. ComesNext works busy gives polls responder.old inbox.old next responder.new
            inbox.new) }
        ensures err { OnErr result ((busy responder.old ≡ true) × polls inbox.old None inbox.new) };
}

/// The session waits for each item, and never works.
pub(crate) struct Waiting;

impl<R: Responder, I: Inbox<O>, O> Pace<R, I, O> for Waiting {
    ghost use Rattle.std.specs.Prelude.{false};

    ghost works = { λ _ _ _. ⊥ };

    ghost busy = { λ _. false };

    ghost gives = { I.gives };

    ghost polls = { λ _ _ _. ⊥ };

    ghost may_wait = { I.may_wait };

    ghost may_look = { λ _ _. Unit {0} };

    fn next_turn(
        rt: &impl Wait,
        alloc: Global,
        _responder: &mut R,
        inbox: &mut I,
        output: &O,
    ) -> Result<Next, AllocError> {
        Ok(Next::Take(inbox.next(rt, alloc, output)))
    }
}

/// The adapter works while it is busy and nothing has come.
pub(crate) struct Polling;

impl<W: Worker, I: Polled<O>, O> Pace<W, I, O> for Polling {
    ghost works = { W.works };

    ghost busy = { W.busy };

    ghost gives = { I.gives };

    ghost polls = { I.polls };

    ghost may_wait = { I.may_wait };

    ghost may_look = { I.may_look };

    fn next_turn(
        rt: &impl Wait,
        alloc: Global,
        worker: &mut W,
        inbox: &mut I,
        output: &O,
    ) -> Result<Next, AllocError> {
        if !worker.is_busy() {
            return Ok(Next::Take(inbox.next(rt, alloc, output)));
        }
        match inbox.poll(rt, alloc, output) {
            Some(item) => Ok(Next::Take(item)),
            None => Ok(Next::Tell(worker.work(alloc)?)),
        }
    }
}
