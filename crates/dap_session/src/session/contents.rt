//! How a session takes pieces of the input, and the contents in them.

use super::Session;
use crate::ports::{Orders, Out};
use dap_frame::Front;
use dap_history::{SessionFault, reading_laws};
use dap_msg::{Request, message_laws, read};
use dap_replies::{Phase, phase_laws};

impl Session {
    ghost use Rattle.std.specs.Prelude.{◌≡◌, ◌<◌, length, Option, None, OnOk, IfOk, IfErr, IfSome, is_some};
    ghost use Rattle.dap_frame.specs.Frame.{IsFront};
    ghost use Rattle.dap_msg.specs.Laws.{IsWithin};
    ghost use Rattle.dap_msg.specs.declared.request.Dialect.{Dialect};
    ghost use Rattle.dap_history.specs.declared.fault.SessionFault.TheVariants.{NoMemory};
    ghost use Rattle.dap_history.specs.History.{History};
    ghost use Rattle.dap_history.specs.Events.{Rest, IsTaking, IsInFront, Piece};
    ghost use Rattle.dap_replies.specs.Phases.{launch_of};
    ghost use Rattle.dap_session.specs.Ports.{ports};
    ghost use Rattle.dap_session.specs.State.{GoesOn};
    ghost use Rattle.dap_session.specs.Handling.{HasHistory, IsWell, HandlesContent, HandlesContents, Handles};

    /// Takes a piece of the input.
    pub(super) fn take_piece<O: Out, D: Orders>(
        &mut self,
        piece: &[u8],
        out: &mut O,
        orders: &mut D,
    ) -> Result<(), SessionFault>
        requires { self.old.ending ≡ None }
        ensures comes { (dialect : Dialect) (past : History) (rest : Rest) → IsTaking past →
            GoesOn dialect self.old past rest → Handles dialect result past rest (Piece piece.now) self.new
            (ports (O.seen out.old) (D.seen orders.old))
            (ports (O.seen out.new) (D.seen orders.new)) }
        ensures well { OnOk result (IsWell self.new.ending) }
        ensures passed { O.keeps_none out.old → OnOk result (O.keeps_none out.new) }
        ensures out { O.origin out.new ≡ O.origin out.old }
        ensures orders { D.origin orders.new ≡ D.origin orders.old }
    {
        let Ok(()) = self.decoder.feed(piece) else {
            return Err(SessionFault::NoMemory);
        };
        if self.waits() {
            return Ok(());
        }
        self.take_contents(out, orders)
    }

    /// Whether a launch waits for its file.
    fn waits(&self) -> bool
        ensures { result ≡ is_some (launch_of self.now.phase) }
    {
        matches!(self.phase, Phase::Launching(..))
    }

    /// Takes the contents that have come completely, until a launch waits for its file or the session ends.
    pub(super) fn take_contents<O: Out, D: Orders>(
        &mut self,
        out: &mut O,
        orders: &mut D,
    ) -> Result<(), SessionFault>
        requires taking { self.old.ending ≡ None }
        ensures comes { (past : History) → self.old.stream.fault ≡ None → launch_of self.old.phase ≡ None →
            HasHistory self.old past →
            HandlesContents self.old.stream.dialect result past self.old.stream.rest self.new
            (ports (O.seen out.old) (D.seen orders.old))
            (ports (O.seen out.new) (D.seen orders.new)) }
        ensures well { OnOk result (IsWell self.new.ending) }
        ensures passed { O.keeps_none out.old → OnOk result (O.keeps_none out.new) }
        ensures out { O.origin out.new ≡ O.origin out.old }
        ensures orders { D.origin orders.new ≡ D.origin orders.old }
    {
        reading_laws();
        while self.ending.is_none() && !self.waits() {
            let front = match self.decoder.front() {
                Ok(Some(front)) => front,
                Ok(None) => return Ok(()),
                Err(fault) => return Err(SessionFault::Frame(fault)),
            };
            let request = self.read_front(front)?;
            self.take_content(request, out, orders)?;
        }
        Ok(())
    }

    /// Reads the content in front where it stands, and passes it. It is `None` where it is no request.
    fn read_front(&mut self, front: Front) -> Result<Option<Request>, SessionFault>
        requires { IsFront front self.old.stream.rest }
        ensures ok { IfOk result (λ request.
            IsInFront self.old.stream.dialect self.old.stream.rest request self.new.stream.rest) }
        ensures fits { IfOk result (λ request. IfSome request (λ r. IsWithin r.body)) }
        ensures err { IfErr result (λ fault. fault ≡ NoMemory) }
        ensures shorter { length self.new.stream.rest < length self.old.stream.rest }
        ensures rest { self.new ≡ record self.old { stream = record self.old.stream { rest = self.new.stream.rest } } }
    {
        message_laws();
        let read = read(self.alloc, self.dialect, self.decoder.content(front));
        self.decoder.pass(front);
        let Ok(request) = read else {
            return Err(SessionFault::NoMemory);
        };
        Ok(request)
    }

    /// Takes what a content was read as: a request, or none.
    fn take_content<O: Out, D: Orders>(
        &mut self,
        request: Option<Request>,
        out: &mut O,
        orders: &mut D,
    ) -> Result<(), SessionFault>
        requires taking { self.old.ending ≡ None }
        requires fits { IfSome request (λ r. IsWithin r.body) }
        requires free { launch_of self.old.phase ≡ None }
        ensures comes { (past : History) → HasHistory self.old past →
            HandlesContent result past request self.new
            (ports (O.seen out.old) (D.seen orders.old))
            (ports (O.seen out.new) (D.seen orders.new)) }
        ensures stream { self.new.stream ≡ self.old.stream }
        ensures well { OnOk result (IsWell self.new.ending) }
        ensures passed { O.keeps_none out.old → OnOk result (O.keeps_none out.new) }
        ensures out { O.origin out.new ≡ O.origin out.old }
        ensures orders { D.origin orders.new ≡ D.origin orders.old }
    {
        match request {
            Some(request) => self.take_request(request, out, orders),
            None => {
                reading_laws();
                phase_laws();
                Ok(())
            }
        }
    }
}
