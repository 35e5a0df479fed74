//! The logs of a position.

use crate::breakpoint::BREAKPOINT_LIMIT;
use crate::evaluation::EvalFault;
use crate::message::EXPRESSION_LIMIT;
use std::alloc::{AllocError, Global};
use std::marker::Model;

/// What a breakpoint logs: its number in its plan, and the values of its message's expressions.
#[derive(Drop)]
pub struct Log {
    number: usize,
    count: usize,
    values: [Result<i64, EvalFault>; EXPRESSION_LIMIT],
}

impl Model for Log {
    ghost use Rattle.dbg_plan.specs.Logs.{Log as PlainLog, log_code};

    ghost Value = { PlainLog };

    ghost coded = { log_code };

    ghost use Rattle.dbg_plan.specs.LogFields.{log_of, HoldsLog};

    ghost view = { log_of };

    ghost invariant = { HoldsLog };
}

impl Log {
    ghost use Rattle.std.specs.Prelude.{◌≡◌, ◌<◌, ◌++◌, [], ◌∷◌, length, map};
    ghost use Rattle.dbg_plan.specs.Messages.{expression_limit};
    ghost use Rattle.dbg_plan.specs.Values.{answered};

    /// Returns a log without values of the breakpoint with this number.
    #[inline]
    pub(crate) fn new(number: usize) -> Log
        ensures { result ≡ record { number = number; values = [] } }
    {
        Log {
            number,
            count: 0,
            values: [Ok(0); EXPRESSION_LIMIT],
        }
    }

    /// Appends a value, for which there is room.
    #[inline]
    pub(crate) fn push(&mut self, value: Result<i64, EvalFault>)
        requires { length self.old.values < expression_limit }
        ensures { self.new ≡ record self.old { values = self.old.values ++ answered value ∷ [] } }
    {
        self.values[self.count] = value;
        self.count += 1;
    }

    /// Returns the number of the breakpoint in its plan, from 0.
    pub fn number(&self) -> usize
        ensures { result ≡ self.now.number }
    {
        self.number
    }

    /// Returns the values of the message's expressions, in order.
    pub fn values(&self) -> &[Result<i64, EvalFault>]
        ensures { map answered result.now ≡ self.now.values }
    {
        &self.values[..self.count]
    }
}

/// Room for what a position logs: at most one log of each breakpoint of a plan.
#[derive(Drop)]
pub struct Logs {
    logs: Vec<Log>,
}

impl Model for Logs {
    ghost use Rattle.std.specs.Prelude.{List};
    ghost use Rattle.dbg_plan.specs.Logs.{Log as PlainLog, log_code};
    ghost use Rattle.std.specs.Coded.{codes};

    ghost Value = { List PlainLog };

    ghost coded = { Prim.hlevel (codes, log_code) };

    ghost use Rattle.dbg_plan.specs.LogRoom.{logs_of, HasRoom};

    ghost view = { logs_of };

    ghost invariant = { HasRoom };
}

impl Logs {
    ghost use Rattle.std.specs.Prelude.{◌≡◌, ◌<◌, ◌++◌, [], ◌∷◌, IfOk, Decides, length};
    ghost use Rattle.dbg_plan.specs.Plans.{breakpoint_limit};

    /// Returns empty room.
    ///
    /// # Errors
    ///
    /// Out of memory.
    pub fn new(alloc: Global) -> Result<Logs, AllocError>
        ensures { IfOk result (λ logs. logs ≡ []) }
    {
        let logs = Vec::with_capacity(alloc, BREAKPOINT_LIMIT)?;
        Ok(Logs { logs })
    }

    /// Returns the logs, in order.
    #[inline]
    pub fn as_slice(&self) -> &[Log]
        ensures { result.now ≡ self.now }
    {
        self.logs.as_slice()
    }

    /// Whether there is no log.
    #[inline(always)]
    pub fn is_empty(&self) -> bool
        ensures { Decides result (self.now ≡ []) }
    {
        self.logs.is_empty()
    }

    /// Removes all logs.
    #[inline]
    pub fn clear(&mut self)
        ensures { self.new ≡ [] }
    {
        self.logs.clear();
    }

    /// Appends a log, for which there is room.
    #[inline]
    pub(crate) fn push(&mut self, log: Log)
        requires { length self.old < breakpoint_limit }
        ensures { self.new ≡ self.old ++ log ∷ [] }
    {
        self.logs.push_reserved(log);
    }
}
