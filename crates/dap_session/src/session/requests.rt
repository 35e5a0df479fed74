//! How a session takes a request.

ghost use Rattle.std.specs.Prelude.{◌≡◌};
ghost use Rattle.dap_history.specs.Readings.{closing_command};

use super::Session;
use crate::ports::{Orders, Out};
use dap_history::{Closed, Ending, Launch, SessionFault, reading_laws};
use dap_msg::{Command, Outgoing, Request};
use dap_replies::{Phase, Reply, reply};
use std::mem;

impl Session {
    ghost use Rattle.std.specs.Prelude.{◌≡◌, None, Some, OnOk};
    ghost use Rattle.dap_msg.specs.Laws.{IsWithin};
    ghost use Rattle.dap_history.specs.History.{Content, History, next_seq};
    ghost use Rattle.dap_history.specs.Events.{IsTaking};
    ghost use Rattle.dap_replies.specs.Phases.{IsPhase, WantsNoFile, launch_of};
    ghost use Rattle.dap_session.specs.Ports.{ports};
    ghost use Rattle.dap_session.specs.Handling.{HasHistory, IsWell, HandlesItem, HandlesContent};

    /// Takes a request: answers it, or, where it is a launch, waits for the file.
    pub(super) fn take_request<O: Out, D: Orders>(
        &mut self,
        request: Request,
        out: &mut O,
        orders: &mut D,
    ) -> Result<(), SessionFault>
        requires taking { self.old.ending ≡ None }
        requires fits { IsWithin request.body }
        requires free { launch_of self.old.phase ≡ None }
        ensures comes { (past : History) → HasHistory self.old past →
            HandlesContent result past (Some request) self.new
            (ports (O.seen out.old) (D.seen orders.old))
            (ports (O.seen out.new) (D.seen orders.new)) }
        ensures stream { self.new.stream ≡ self.old.stream }
        ensures well { OnOk result (IsWell self.new.ending) }
        ensures passed { O.keeps_none out.old → OnOk result (O.keeps_none out.new) }
        ensures out { O.origin out.new ≡ O.origin out.old }
        ensures orders { D.origin orders.new ≡ D.origin orders.old }
    {
        let Request { seq, body } = request;
        match (mem::replace(&mut self.phase, Phase::Fresh), body) {
            (Phase::Ready(settings), Command::Launch(arguments)) => {
                self.phase = Phase::Launching(settings, Launch { seq, arguments });
                Ok(())
            }
            (phase, body) => self.answer(phase, Request { seq, body }, out, orders),
        }
    }

    /// Answers a request that needs no file.
    fn answer<O: Out, D: Orders>(
        &mut self,
        phase: Phase,
        request: Request,
        out: &mut O,
        orders: &mut D,
    ) -> Result<(), SessionFault>
        requires taking { self.old.ending ≡ None }
        requires fits { IsWithin request.body }
        requires no_file { WantsNoFile phase request.body }
        ensures comes { (past : History) → IsTaking past → IsPhase phase past → self.old.next_seq ≡ next_seq past →
            HandlesItem result past (Content (Some request)) self.new
            (ports (O.seen out.old) (D.seen orders.old))
            (ports (O.seen out.new) (D.seen orders.new)) }
        ensures stream { self.new.stream ≡ self.old.stream }
        ensures well { OnOk result (IsWell self.new.ending) }
        ensures passed { O.keeps_none out.old → OnOk result (O.keeps_none out.new) }
        ensures out { O.origin out.new ≡ O.origin out.old }
        ensures orders { D.origin orders.new ≡ D.origin orders.old }
    {
        reading_laws();
        let Ok(Reply { result, effect }) = reply(self.alloc, phase, &request.body) else {
            return Err(SessionFault::NoMemory);
        };
        let ending = ending_by(&request.body);
        let answer = Outgoing::Answer {
            request_seq: request.seq,
            command: request.body.into_name(),
            result,
        };
        self.send(Some(answer), effect, out, orders)?;
        self.ending = ending;
        Ok(())
    }
}

/// Returns how a command ends the session, if it does.
fn ending_by(command: &Command) -> Option<Ending>
    ensures { result ≡ closing_command command.now }
{
    match command {
        Command::Disconnect => Some(Ending::Closed(Closed::Disconnected)),
        _ => None,
    }
}
