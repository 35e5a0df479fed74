//! A session, and how it takes one event.

ghost use Rattle.std.specs.Prelude.{◌≡◌, Some, None, IfErr, MatchOption};

mod closing;
mod contents;
mod files;
mod reports;
mod requests;
mod sending;

use crate::ports::{Event, Orders, Out};
use crate::want::Want;
use dap_frame::Decoder;
use dap_history::{Closed, Ending, SessionFault, reading_laws};
use dap_msg::Dialect;
use dap_replies::Phase;
use std::alloc::{AllocError, Global};
use std::marker::Model;

/// A session, which takes events and sends frames and orders.
#[derive(Drop)]
pub struct Session {
    alloc: Global,
    dialect: Dialect,
    decoder: Decoder,
    phase: Phase,
    ending: Option<Ending>,
    next_seq: u64,
    // Room for the content of a message while its frame is made. What it holds doesn't matter.
    content: Vec<u8>,
}

impl Model for Session {
    ghost use Rattle.dap_session.specs.State.{State};
    ghost use Rattle.pl0_unit.specs.contracts.unit.Unit as compiled;
    ghost use Rattle.dbg_plan.specs.Breakpoints.{breakpoint_code};
    ghost use Rattle.std.specs.Coded.{codes};

    ghost Value = { State };

    ghost coded = { Prim.hlevel (codes, compiled.the_row.coded, breakpoint_code) };

    ghost view = { λ session. record {
      stream =
          record { dialect = session.dialect; rest = session.decoder.rest; fault = session.decoder.fault };
      phase =
          session.phase;
      ending = session.ending;
      next_seq = session.next_seq;
    } };
}

impl Session {
    ghost use Rattle.std.specs.Prelude.{◌≡◌, ◌≢◌, [], Some, None, IfOk, IfErr, OnOk};
    ghost use Rattle.dap_history.specs.declared.fault.SessionFault.TheVariants.{NoMemory};
    ghost use Rattle.dap_history.specs.declared.ending.Ending.{Ending as AnEnding};
    ghost use Rattle.dap_history.specs.declared.ending.Ending.TheVariants as ending;
    ghost use Rattle.dap_replies.specs.Phases.{launch_of};
    ghost use Rattle.dap_session.specs.Incoming.{incoming_of};
    ghost use Rattle.dap_session.specs.Ports.{ports};
    ghost use Rattle.dap_session.specs.State.{Represents, IsOpenEnded, Wants, want_at_end};
    ghost use Rattle.dap_session.specs.Taking.{TakesEvent};
    ghost use Rattle.dap_session.specs.Handling.{IsWell, HandlesEvent};

    /// Returns a session that has taken no event, in the client's dialect. It takes no memory.
    pub fn new(alloc: Global, dialect: Dialect) -> Session
        ensures { Represents dialect result [] [] }
    {
        Session {
            alloc,
            dialect,
            decoder: Decoder::new(alloc),
            phase: Phase::Fresh,
            ending: None,
            next_seq: 1,
            content: Vec::new(alloc),
        }
    }

    /// Returns what closed the session; `None` while it isn't closed, and where it gave up.
    pub fn closed(&self) -> Option<Closed>
        ensures { MatchOption result (IsOpenEnded self.now.ending) (λ by. self.now.ending ≡ Some (ending.Closed by)) }
    {
        match self.ending {
            Some(Ending::Closed(by)) => Some(by),
            _ => None,
        }
    }

    /// Takes an event, sends what it causes, and returns what the session asks for next.
    ///
    /// # Errors
    ///
    /// At a framing fault, all was sent that the contents before it cause. At any other fault, what was sent is a prefix of
    /// what the event causes. Either way the session has given up: every later call sends nothing and returns the same
    /// fault. `NoMemory` is returned only at an event that needs memory: the end of the input and a failed read need none,
    /// nor, while no launch waits, a file or a report that isn't accepted or tells a client nothing.
    pub fn take<O: Out, D: Orders>(
        &mut self,
        event: Event,
        out: &mut O,
        orders: &mut D,
    ) -> Result<Want, SessionFault>
        ensures takes { self.old.ending ≡ None → TakesEvent self.old (incoming_of event) result self.new
            (ports (O.seen out.old) (D.seen orders.old))
            (ports (O.seen out.new) (D.seen orders.new)) }
        ensures failed { IfErr result (λ fault. self.new.ending ≡ Some (ending.Fault fault)) }
        // Once the session is closed or gave up, every call returns the same, and nothing changes.
        ensures answer { (over : AnEnding) → self.old.ending ≡ Some over → result ≡ want_at_end over }
        ensures quiet { self.old.ending ≢ None →
            ports (O.seen out.new) (D.seen orders.new) ≡ ports (O.seen out.old) (D.seen orders.old) }
        ensures same { self.old.ending ≢ None → self.new ≡ self.old }
        // Where no frame was kept before, none is while the caller waits for the next event.
        ensures passed { O.keeps_none out.old → OnOk result (O.keeps_none out.new) }
        ensures out { O.origin out.new ≡ O.origin out.old }
        ensures orders { D.origin orders.new ≡ D.origin orders.old }
    {
        match self.ending {
            Some(Ending::Fault(fault)) => return Err(fault),
            Some(Ending::Closed(_)) => return Ok(Want::Closed),
            None => {}
        }
        let result = match self.take_event(event, out, orders) {
            Ok(()) => self.want(),
            Err(fault) => Err(fault),
        };
        if let Err(fault) = result {
            self.ending = Some(Ending::Fault(fault));
        }
        result
    }

    /// Takes an event in a session that hasn't ended.
    fn take_event<O: Out, D: Orders>(
        &mut self,
        event: Event,
        out: &mut O,
        orders: &mut D,
    ) -> Result<(), SessionFault>
        requires { self.old.ending ≡ None }
        ensures handles { HandlesEvent self.old (incoming_of event) result self.new
            (ports (O.seen out.old) (D.seen orders.old))
            (ports (O.seen out.new) (D.seen orders.new)) }
        ensures well { OnOk result (IsWell self.new.ending) }
        ensures passed { O.keeps_none out.old → OnOk result (O.keeps_none out.new) }
        ensures out { O.origin out.new ≡ O.origin out.old }
        ensures orders { D.origin orders.new ≡ D.origin orders.old }
    {
        reading_laws();
        match event {
            Event::Piece(piece) => self.take_piece(piece.as_slice(), out, orders),
            Event::End => self.close(Closed::InputEnded, orders),
            Event::ReadFailed => self.close(Closed::ReadFailed, orders),
            Event::NoMemory => Err(SessionFault::NoMemory),
            Event::File(file) => self.take_file(file, out, orders),
            Event::Report(report) => self.take_report(report, out, orders),
        }
    }

    /// Returns what the session asks for next.
    fn want(&self) -> Result<Want, SessionFault>
        requires { IsWell self.now.ending }
        ensures ok { IfOk result (λ want. Wants want self.now self.now.ending) }
        ensures err { IfErr result (λ fault. (fault ≡ NoMemory) × (self.now.ending ≡ None)) }
        ensures waits { IfErr result (λ fault. launch_of self.now.phase ≢ None) }
    {
        if self.ending.is_some() {
            return Ok(Want::Closed);
        }
        let Phase::Launching(_, launch) = &self.phase else {
            return Ok(Want::Event);
        };
        match String::from_str(self.alloc, launch.arguments.program.as_str()) {
            Ok(path) => Ok(Want::File(path)),
            Err(AllocError) => Err(SessionFault::NoMemory),
        }
    }
}
