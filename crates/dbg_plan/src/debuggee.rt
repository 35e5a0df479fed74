//! A program that is debugged.

ghost use Rattle.std.specs.Prelude.{◌≡◌, option_map};
ghost use Rattle.std.specs.Arc.{arc_value};
ghost use Rattle.pl0_unit.specs.declared.unit.Unit.{Unit as Compiled};
ghost use Rattle.dbg_plan.specs.Breakpoints.{plain_breakpoints};
ghost use Rattle.dbg_plan.specs.Plans.{IsNumbered, IsPlanOf, breakpoints_of, listed_of};
ghost use Rattle.dbg_plan.specs.Counting.{MayBePlanOf};

use crate::breakpoint::BREAKPOINT_LIMIT;
use crate::counting::{count_position, reason_here};
use crate::evaluation::{EvalFault, evaluate};
use crate::logs::Logs;
use crate::mode::{Mode, Reason};
use crate::plan::Plan;
use crate::running::{marks_of, stays_considered};
use crate::trail::Trail;
use pl0_machine::{Machine, StepOutcome};
use pl0_meaning::{RunFault, configuration_laws};
use pl0_tree::Expression;
use std::alloc::Global;
use std::marker::Model;
use std::sync::Arc;

/// Where a step led.
#[derive(Clone, Copy)]
pub enum Advance {
    /// To a position where the program goes on, and why that is due, if it is.
    To(Option<Reason>),
    /// The program is over.
    Done,
    /// The step faults, and the debuggee is as it was.
    Fault(RunFault),
}

/// A machine with its plan, what was counted under the plan, and checkpoints of the run.
#[derive(Drop)]
pub struct Debuggee {
    pub(crate) machine: Machine,
    plan: Option<Arc<Plan>>,
    pub(crate) counts: [u32; BREAKPOINT_LIMIT],
    pub(crate) counted_from: u64,
    // Whether the machine's position was considered. A flag, and no position, so that `advance` has nothing to store.
    pub(crate) considered: bool,
    pub(crate) trail: Trail,
}

impl Model for Debuggee {
    ghost use Rattle.dbg_plan.specs.Debugged.{Debugged};
    ghost use Rattle.pl0_unit.specs.contracts.unit.Unit as compiled;
    ghost use Rattle.dbg_plan.specs.Breakpoints.{breakpoint_code};
    ghost use Rattle.std.specs.Coded.{codes};

    ghost Value = { Debugged };

    ghost coded = { Prim.hlevel (codes, compiled.the_row.coded, breakpoint_code) };

    ghost use Rattle.dbg_plan.specs.Counts.{debugged_of, IsCounting};

    ghost view = { debugged_of };

    ghost invariant = { IsCounting };
}

/// Returns a plan; `None` if it is empty.
fn entered(plan: Arc<Plan>) -> Option<Arc<Plan>>
    ensures breakpoints { listed_of (option_map arc_value result) ≡ plan.value.breakpoints }
    ensures numbered { IsNumbered plan.value.breakpoints }
    ensures fits { (unit : Compiled) → IsPlanOf unit plan.value → MayBePlanOf unit (option_map arc_value result) }
{
    if plan.is_empty() {
        return None;
    }
    Some(plan)
}

impl Debuggee {
    ghost use Rattle.std.specs.Prelude.{◌≡◌, ◌+◌, ◌-◌, ◌<◌, ◌≤◌, ◌++◌, [], ℤ, Option, Some, length, option_map, vec_len, vec_capacity};
    ghost use Rattle.pl0_tree.specs.Plain.{plain_expression};
    ghost use Rattle.pl0_meaning.specs.Runs.{written_by};
    ghost use Rattle.pl0_meaning.specs.Values.{value};
    ghost use Rattle.pl0_machine.specs.Machine.{Stepped, outcome_of, frames, depth_of};
    ghost use Rattle.dbg_plan.specs.Plans.{IsPlanOf};
    ghost use Rattle.dbg_plan.specs.Debugged.{machine_of, debugged_program, IsConsidered, IsNext, IsRunning, due_now, logs_now};
    ghost use Rattle.dbg_plan.specs.Retreat.{last_due};
    ghost use Rattle.dbg_plan.specs.Advances.{considered_at, Advanced};
    ghost use Rattle.dbg_plan.specs.Running.{RanFrom};
    ghost use Rattle.dbg_plan.specs.Quiet.{RanTo};
    ghost use Rattle.pl0_machine.specs.declared.outcome.StepOutcome.TheVariants.{Went};
    ghost use Rattle.dbg_plan.specs.Trail.{new_trail};
    ghost use Rattle.dbg_plan.specs.Values.{answered};

    /// Returns a debuggee with this machine and the empty plan. The machine's position is the next to be considered. It
    /// allocates nothing.
    pub fn new(alloc: Global, machine: Machine) -> Debuggee
        ensures { result ≡ record {
          unit = machine.unit;
          position = machine.position;
          breakpoints = [];
          counted_from =
              machine.position;
          next = machine.position;
          trail = new_trail;
        } }
    {
        let position = machine.position();
        Debuggee {
            machine,
            plan: None,
            counts: [0; BREAKPOINT_LIMIT],
            counted_from: position,
            considered: false,
            trail: Trail::new(alloc),
        }
    }

    /// Returns the machine.
    pub fn machine(&self) -> &Machine
        ensures { result.now ≡ machine_of self.now }
    {
        &self.machine
    }

    /// Returns the plan; `None` if it is the empty one.
    pub fn plan(&self) -> &Option<Arc<Plan>>
        ensures { breakpoints_of (option_map arc_value result.now) ≡ self.now.breakpoints }
    {
        &self.plan
    }

    /// Returns the first position that the plan counts.
    pub fn counted_from(&self) -> u64
        ensures { result ≡ self.now.counted_from }
    {
        self.counted_from
    }

    /// Returns the next position to be considered.
    pub(crate) fn next(&self) -> u64
        ensures { result ≡ self.now.next }
    {
        if self.considered {
            self.machine.position() + 1
        } else {
            self.machine.position()
        }
    }

    /// Takes the machine's next step.
    #[inline(always)]
    pub fn step(&mut self) -> StepOutcome
        requires { IsConsidered self.old }
        ensures stepped { Stepped (outcome_of (machine_of self.old)) (machine_of self.old) result
            (machine_of self.new) }
        ensures kept { self.new ≡ record self.old { position = self.new.position } }
    {
        let outcome = self.machine.step();
        self.considered = matches!(outcome, StepOutcome::Fault(_));
        outcome
    }

    /// Sets the plan, which counts from the next position to be considered.
    pub fn set_plan(&mut self, plan: Arc<Plan>)
        requires { IsPlanOf self.old.unit plan.value }
        ensures { self.new ≡ record self.old
            { breakpoints = plain_breakpoints plan.value.breakpoints; counted_from = self.old.next } }
    {
        let counted_from = self.next();
        self.plan = entered(plan);
        self.counts = [0; BREAKPOINT_LIMIT];
        self.counted_from = counted_from;
    }

    /// Considers the position where the machine stands, and returns why it is due, if it is. What the position logs
    /// replaces what was in `logs`.
    pub fn consider(&mut self, mode: Mode, logs: &mut Logs) -> Option<Reason>
        requires { IsNext self.old }
        ensures due { result ≡ due_now self.old mode }
        ensures logs { logs.new ≡ logs_now self.old }
        ensures kept { self.new ≡ record self.old { next = self.old.next + 1 } }
    {
        logs.clear();
        self.consider_on(mode, logs)
    }

    /// Does the same as `consider`, with `logs` empty already.
    #[inline(always)]
    fn consider_on(&mut self, mode: Mode, logs: &mut Logs) -> Option<Reason>
        requires next { IsNext self.old }
        requires empty { logs.old ≡ [] }
        ensures due { result ≡ due_now self.old mode }
        ensures logs { logs.new ≡ logs_now self.old }
        ensures kept { self.new ≡ record self.old { next = self.old.next + 1 } }
    {
        self.considered = true;
        let hit = count_position(&self.machine, &self.plan, &mut self.counts, logs);
        reason_here(&self.machine, hit, mode)
    }

    /// Takes the machine's next step, and considers the position that it leads to, if the program goes on there: what
    /// `step` does, and then `consider`. The number that the step writes is appended to `numbers`, which has room for it.
    /// `logs` is empty before, and holds what the position logs afterwards.
    #[inline(always)]
    pub fn advance(&mut self, mode: Mode, numbers: &mut Vec<i64>, logs: &mut Logs) -> Advance
        requires considered { IsConsidered self.old }
        requires room { vec_len numbers.old < vec_capacity numbers.old }
        requires empty { logs.old ≡ [] }
        ensures led { Advanced mode self.old result self.new logs.new }
        ensures written { numbers.new.items ≡ numbers.old.items ++ written_by (outcome_of (machine_of self.old)) }
        ensures capacity { vec_capacity numbers.new ≡ vec_capacity numbers.old }
    {
        match self.machine.step() {
            StepOutcome::Went(written) => {
                if let Some(number) = written {
                    numbers.push_reserved(number);
                }
                let hit = count_position(&self.machine, &self.plan, &mut self.counts, logs);
                Advance::To(reason_here(&self.machine, hit, mode))
            }
            StepOutcome::Done => {
                self.considered = false;
                Advance::Done
            }
            StepOutcome::Fault(fault) => Advance::Fault(fault),
        }
    }

    /// Takes steps that lead to no arrival that is due and leave more than `outer` frames alive, up to the position `limit`,
    /// and returns `None` there. Any other step is the last one, and what it did is returned; the position that it leads to
    /// isn't considered. What the steps before it write is appended to `numbers`, which has room for what all write.
    #[inline(always)]
    fn run_quietly(
        &mut self,
        limit: u64,
        outer: usize,
        numbers: &mut Vec<i64>,
    ) -> Option<StepOutcome>
        requires considered { IsConsidered self.old }
        requires alive { outer < depth_of (machine_of self.old) }
        requires within { self.old.position ≤ limit }
        requires room { length numbers.old.items + (limit - self.old.position) ≤ vec_capacity numbers.old }
        ensures ran { RanTo limit outer self.old numbers.old.items result self.new numbers.new.items }
        ensures next { (written : Option ℤ) → result ≡ Some (Went written) → IsNext self.new }
        ensures room { (written : Option ℤ) → result ≡ Some (Went written) →
            length numbers.new.items < vec_capacity numbers.new }
        ensures capacity { vec_capacity numbers.new ≡ vec_capacity numbers.old }
    {
        configuration_laws();
        let marks = marks_of(&self.plan);
        let outcome = self
            .machine
            .run(limit, outer, marks, &mut self.counts, numbers);
        self.considered = stays_considered(outcome);
        outcome
    }

    /// Advances up to the position `limit`, while the steps lead to no arrival that is due and leave more than `outer` frames
    /// alive, and returns `None` there. Any other step is the last one, taken as `advance` takes it, and where it led is
    /// returned. What the steps write is appended to `numbers`, which has room for it. `logs` is empty before, and holds
    /// what the last position logs afterwards.
    #[inline(always)]
    pub fn run(
        &mut self,
        limit: u64,
        outer: usize,
        mode: Mode,
        numbers: &mut Vec<i64>,
        logs: &mut Logs,
    ) -> Option<Advance>
        requires considered { IsConsidered self.old }
        requires alive { outer < depth_of (machine_of self.old) }
        requires within { self.old.position ≤ limit }
        requires room { length numbers.old.items + (limit - self.old.position) ≤ vec_capacity numbers.old }
        requires empty { logs.old ≡ [] }
        ensures ran { RanFrom limit outer mode self.old numbers.old.items result self.new numbers.new.items logs.new }
        ensures capacity { vec_capacity numbers.new ≡ vec_capacity numbers.old }
    {
        match self.run_quietly(limit, outer, numbers)? {
            StepOutcome::Went(written) => {
                if let Some(last) = written {
                    numbers.push_reserved(last);
                }
                Some(Advance::To(self.consider_on(mode, logs)))
            }
            StepOutcome::Done => Some(Advance::Done),
            StepOutcome::Fault(fault) => Some(Advance::Fault(fault)),
        }
    }

    /// Goes on to the position `limit`, where the program still runs, and considers each position on the way. Returns the
    /// last one where a breakpoint stops the program; `found`, if there is none on the way.
    pub fn search(&mut self, limit: u64, found: Option<u64>) -> Option<u64>
        requires considered { IsConsidered self.old }
        requires within { self.old.position ≤ limit }
        requires runs { IsRunning (record (machine_of self.old) { position = limit }) }
        ensures went { self.new ≡ considered_at self.old limit }
        ensures considered { IsConsidered self.new }
        ensures found { self.old.counted_from ≡ 0
            → found ≡ last_due (debugged_program self.old) self.old.breakpoints (self.old.position + 1)
            → result ≡ last_due (debugged_program self.old) self.old.breakpoints (limit + 1) }
    {
        configuration_laws();
        let marks = marks_of(&self.plan);
        self.machine.search(limit, marks, &mut self.counts, found)
    }

    /// Returns the value of an expression in a frame, which is alive. A name that the frame's block can't read counts as 0.
    ///
    /// # Errors
    ///
    /// The first fault of the evaluation, the left operand first.
    pub fn evaluate(&self, frame: usize, expression: &Expression) -> Result<i64, EvalFault>
        requires { frame < depth_of (machine_of self.now) }
        ensures { value (debugged_program self.now) (frames (machine_of self.now)) frame
            (plain_expression expression.now) ≡ answered result }
    {
        evaluate(&self.machine, frame, expression)
    }
}
