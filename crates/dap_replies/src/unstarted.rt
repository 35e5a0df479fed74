//! A debuggee before its first position is considered.

ghost use Rattle.std.specs.Prelude.{◌≡◌};

use dbg_plan::{Debuggee, Logs, Mode, Plan, Reason};
use dbg_runner::ConsideredDebuggee;
use pl0_machine::Machine;
use pl0_unit::Unit;
use std::alloc::{AllocError, Global};
use std::marker::Model;
use std::sync::Arc;

/// A debuggee at a position that isn't considered yet.
#[derive(Drop)]
pub struct Unstarted {
    debuggee: Box<Debuggee>,
}

impl Model for Unstarted {
    ghost use Rattle.dbg_plan.specs.Debugged.{Debugged, IsNext};
    ghost use Rattle.pl0_unit.specs.contracts.unit.Unit as compiled;
    ghost use Rattle.dbg_plan.specs.Breakpoints.{breakpoint_code};
    ghost use Rattle.std.specs.Coded.{codes};

    ghost Value = { Debugged };

    ghost coded = { Prim.hlevel (codes, compiled.the_row.coded, breakpoint_code) };

    ghost view = { λ u. u.debuggee.value };

    ghost invariant = { λ u. IsNext u.debuggee.value };
}

impl Unstarted {
    ghost use Rattle.std.specs.Prelude.{◌≡◌, ◌+◌, [], IfOk};
    ghost use Rattle.dbg_plan.specs.Plans.{IsPlanOf};
    ghost use Rattle.dbg_plan.specs.Breakpoints.{plain_breakpoints};
    ghost use Rattle.dbg_plan.specs.Debugged.{due_now, logs_now};
    ghost use Rattle.dbg_plan.specs.Trail.{new_trail};

    /// Returns a program before its first step, with the empty plan.
    ///
    /// # Errors
    ///
    /// An allocation failed.
    pub fn new(alloc: Global, unit: Arc<Unit>) -> Result<Unstarted, AllocError>
        ensures { IfOk result (λ d. d ≡ record {
          unit = unit.value;
          position = 0;
          breakpoints = [];
          counted_from = 0;
          next = 0;
          trail = new_trail;
        }) }
    {
        let machine = Machine::new(alloc, unit)?;
        let debuggee = Box::new(alloc, Debuggee::new(alloc, machine))?;
        Ok(Unstarted { debuggee })
    }

    /// The program.
    pub fn unit(&self) -> &Arc<Unit>
        ensures { result.now.value ≡ self.now.unit }
    {
        self.debuggee.machine().unit()
    }

    /// Puts a plan in. It counts from the position where the program stands.
    pub fn set_plan(&mut self, plan: Arc<Plan>)
        requires { IsPlanOf self.old.unit plan.value }
        ensures { self.new ≡ record self.old
            { breakpoints = plain_breakpoints plan.value.breakpoints; counted_from = self.old.next } }
    {
        self.debuggee.set_plan(plan);
    }

    /// Considers the position where the program stands, and returns why it is due, if it is. `logs` then holds what it
    /// logs.
    pub fn consider(self, mode: Mode, logs: &mut Logs) -> (Option<Reason>, ConsideredDebuggee)
        ensures due { result.0 ≡ due_now self mode }
        ensures logs { logs.new ≡ logs_now self }
        ensures considered { result.1 ≡ record self { next = self.next + 1 } }
    {
        let mut debuggee = self.debuggee;
        let reason = debuggee.consider(mode, logs);
        (reason, ConsideredDebuggee::new(debuggee))
    }
}
