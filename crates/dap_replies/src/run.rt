//! The run that the runner has.

ghost use Rattle.std.specs.Prelude.{◌≡◌, option_map};
ghost use Rattle.std.specs.Arc.{arc_value};
ghost use Rattle.dbg_plan.specs.Breakpoints.{plain_breakpoints};
ghost use Rattle.dbg_plan.specs.Counting.{MayBePlanOf};
ghost use Rattle.dbg_plan.specs.Debugged.{IsConsidered};
ghost use Rattle.dbg_plan.specs.Plans.{Listed};
ghost use Rattle.dap_replies.specs.Runs.{with_waiting};

use dbg_plan::{Debuggee, Mode, Plan, same_plan, share_plan};
use dbg_runner::{ConsideredDebuggee, Order, Report, goes_back};
use pl0_code::code_laws;
use pl0_unit::Unit;
use std::alloc::AllocError;
use std::marker::Model;
use std::sync::Arc;

/// The run that the runner has, and what waits until the runner returns the debuggee.
#[derive(Drop)]
pub struct Run {
    unit: Arc<Unit>,
    mode: Mode,
    // Where its next report starts.
    position: u64,
    plan: Option<Arc<Plan>>,
    counted_from: u64,
    waiting_plan: Option<Arc<Plan>>,
    waiting_pause: bool,
    held: bool,
}

impl Model for Run {
    ghost use Rattle.dap_replies.specs.Runs.{OrderedRun};
    ghost use Rattle.pl0_unit.specs.contracts.unit.Unit as compiled;
    ghost use Rattle.dbg_plan.specs.Breakpoints.{breakpoint_code};
    ghost use Rattle.std.specs.Coded.{codes};

    ghost Value = { OrderedRun };

    ghost coded = { Prim.hlevel (codes, compiled.the_row.coded, breakpoint_code) };

    ghost use Rattle.dap_replies.specs.RunFields.{ordered_of, IsFitting};

    ghost view = { ordered_of };

    ghost invariant = { IsFitting };
}

impl Run {
    ghost use Rattle.std.specs.Prelude.{◌≡◌, [], ◌∷◌, ◌||◌, true, Some, option_map, IfOk, Decides, if◌then◌else◌};
    ghost use Rattle.std.specs.Option.{option_to_list};
    ghost use Rattle.dbg_plan.specs.Plans.{IsPlanOf};
    ghost use Rattle.dbg_plan.specs.Breakpoints.{plain_breakpoints};
    ghost use Rattle.dbg_plan.specs.Debugged.{IsConsidered};
    ghost use Rattle.dbg_runner.specs.Plain.{Go, Hold, goes_back as is_backward};
    ghost use Rattle.dbg_runner.specs.Orders.{plain_order};
    ghost use Rattle.dbg_runner.specs.Reported.{heading, plain_report, text_of};
    ghost use Rattle.dap_replies.specs.Runs.{begun_run, heading_in, ordered_to_hold, with_waiting};

    /// Begins the run of this number, and returns it with the order to the runner. Nothing waits.
    ///
    /// # Errors
    ///
    /// An allocation failed. The debuggee is dropped then.
    pub fn begin(
        number: u64,
        debuggee: ConsideredDebuggee,
        mode: Mode,
    ) -> Result<(Run, Order), AllocError>
        ensures run { IfOk result (λ r. r.0 ≡ begun_run debuggee mode) }
        ensures order { IfOk result (λ r. plain_order r.1 ≡ Go (heading number debuggee mode)) }
    {
        let of = debuggee.debuggee();
        let run = Run {
            unit: Arc::try_clone(of.machine().unit())?,
            mode,
            position: of.machine().position(),
            plan: share_plan(of.plan())?,
            counted_from: of.counted_from(),
            waiting_plan: None,
            waiting_pause: false,
            held: false,
        };
        let order = Order::Go {
            run: number,
            debuggee,
            mode,
        };
        Ok((run, order))
    }

    /// The program.
    pub fn unit(&self) -> &Arc<Unit>
        ensures { result.now.value ≡ self.now.unit }
    {
        &self.unit
    }

    /// Returns the program, and drops the rest of the run.
    pub fn into_unit(self) -> Arc<Unit>
        ensures { result.value ≡ self.unit }
    {
        self.unit
    }

    /// The mode of the run.
    pub fn mode(&self) -> Mode
        ensures { result ≡ self.now.mode }
    {
        self.mode
    }

    /// Whether a pause waits.
    pub fn waits_to_pause(&self) -> bool
        ensures { result ≡ self.now.waiting_pause }
    {
        self.waiting_pause
    }

    /// Whether a report continues this run, which has this number. Texts and plans are compared last, as that takes
    /// longest.
    pub fn expects(&self, number: u64, report: &Report) -> bool
        ensures { Decides result ((plain_report report.now).heading ≡ heading_in number self.now) }
    {
        let summary = report.summary();
        summary.run == number
            && summary.start == self.position
            && summary.mode == self.mode
            && summary.counted_from == self.counted_from
            && self.unit.has_same_text(report.unit())
            && same_plan(&self.plan, report.plan())
    }

    /// Makes a plan wait, in place of one that waited before.
    pub fn wait_for(&mut self, plan: Arc<Plan>)
        requires { IsPlanOf self.old.unit plan.value }
        ensures { self.new ≡ record self.old { waiting_plan = Some (plain_breakpoints plan.value.breakpoints) } }
    {
        self.waiting_plan = Some(plan);
    }

    /// Makes a pause wait.
    pub fn wait_to_pause(&mut self)
        ensures { self.new ≡ record self.old { waiting_pause = true } }
    {
        self.waiting_pause = true;
    }

    /// Returns the order to hold this run, which has this number; `None` where that was ordered before or the run goes
    /// back.
    pub fn hold(&mut self, number: u64) -> Option<Order>
        ensures order { option_to_list (option_map plain_order result)
            ≡ (if self.old.held || is_backward self.old.mode then [] else Hold number ∷ []) }
        ensures held { self.new ≡ ordered_to_hold self.old }
    {
        if self.held || goes_back(self.mode) {
            return None;
        }
        self.held = true;
        Some(Order::Hold { run: number })
    }

    /// Sets the position where the next report has to start.
    pub fn go_on_from(&mut self, position: u64)
        ensures { self.new ≡ record self.old { position = position } }
    {
        self.position = position;
    }

    /// Puts the plan that waits, if there is one, into the debuggee that the runner returned.
    pub fn take_back(self, debuggee: Box<Debuggee>) -> ConsideredDebuggee
        requires considered { IsConsidered debuggee.value }
        requires text { text_of debuggee.value.unit ≡ text_of self.unit }
        ensures { result ≡ with_waiting self.waiting_plan debuggee.value }
    {
        code_laws();
        with_plan(debuggee, self.waiting_plan)
    }
}

/// Puts a plan, if there is one, into a debuggee.
fn with_plan(mut debuggee: Box<Debuggee>, plan: Option<Arc<Plan>>) -> ConsideredDebuggee
    requires considered { IsConsidered debuggee.value }
    requires fits { MayBePlanOf debuggee.value.unit (option_map arc_value plan) }
    ensures { result ≡ with_waiting (option_map (λ (p : Listed). plain_breakpoints p.breakpoints)
        (option_map arc_value plan)) debuggee.value }
{
    match plan {
        None => ConsideredDebuggee::new(debuggee),
        Some(plan) => {
            debuggee.set_plan(plan);
            ConsideredDebuggee::new(debuggee)
        }
    }
}
