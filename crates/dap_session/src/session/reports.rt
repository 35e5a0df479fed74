//! How a session takes a report of the runner.

use super::Session;
use crate::ports::{Orders, Out};
use dap_history::{SessionFault, reading_laws};
use dap_replies::{Phase, Run, Target};
use dbg_runner::Report;
use std::mem;

impl Session {
    ghost use Rattle.std.specs.Prelude.{◌≡◌, ◌⊎◌, None, IfSome, IfNone, OnOk};
    ghost use Rattle.dbg_runner.specs.Reported.{plain_report};
    ghost use Rattle.dap_msg.specs.declared.request.Dialect.{Dialect};
    ghost use Rattle.dap_history.specs.History.{Accepted, History, next_seq};
    ghost use Rattle.dap_history.specs.Events.{Rest, IsTaking, Report as Reports};
    ghost use Rattle.dap_replies.specs.Runs.{heading_in};
    ghost use Rattle.dap_replies.specs.Phases.{IsPhase, launch_of};
    ghost use Rattle.dap_replies.specs.declared.phase.Phase.TheVariants as phase_is;
    ghost use Rattle.dap_replies.specs.Replied.{IsQuiet};
    ghost use Rattle.dap_session.specs.Ports.{ports};
    ghost use Rattle.dap_session.specs.State.{GoesOn};
    ghost use Rattle.dap_session.specs.Taking.{Expects};
    ghost use Rattle.dap_session.specs.Handling.{IsWell, NeededNoMemory, HandlesItem, Handles};

    /// Takes a report. One that doesn't continue the run is ignored.
    pub(super) fn take_report<O: Out, D: Orders>(
        &mut self,
        report: Report,
        out: &mut O,
        orders: &mut D,
    ) -> Result<(), SessionFault>
        requires { self.old.ending ≡ None }
        ensures comes { (dialect : Dialect) (past : History) (rest : Rest) → IsTaking past →
            GoesOn dialect self.old past rest
            → Handles dialect result past rest (Reports (plain_report report)) self.new
            (ports (O.seen out.old) (D.seen orders.old))
            (ports (O.seen out.new) (D.seen orders.new)) }
        ensures enough { launch_of self.old.phase ≡ None →
            (¬ Expects self.old.phase (plain_report report)) ⊎ IsQuiet (plain_report report) →
            NeededNoMemory result self.new }
        ensures well { OnOk result (IsWell self.new.ending) }
        ensures passed { O.keeps_none out.old → OnOk result (O.keeps_none out.new) }
        ensures out { O.origin out.new ≡ O.origin out.old }
        ensures orders { D.origin orders.new ≡ D.origin orders.old }
    {
        let Some((target, run)) = self.take_run(&report) else {
            return Ok(());
        };
        self.accept(target, run, report, out, orders)
    }

    /// Takes the run that the report continues out of the phase, if there is one.
    fn take_run(&mut self, report: &Report) -> Option<(Target, Run)>
        ensures found { IfSome result (λ taken. (self.old.phase ≡ phase_is.Running taken.0 taken.1)
            × ((plain_report report.now).heading ≡ heading_in taken.0.runs taken.1)) }
        ensures none { IfNone result (¬ Expects self.old.phase (plain_report report.now)) }
        ensures same { IfNone result (self.new ≡ self.old) }
        ensures rest { self.new ≡ record self.old { phase = self.new.phase } }
    {
        match mem::replace(&mut self.phase, Phase::Fresh) {
            Phase::Running(target, run) => {
                if run.expects(target.runs, report) {
                    return Some((target, run));
                }
                self.phase = Phase::Running(target, run);
            }
            phase => self.phase = phase,
        }
        None
    }

    /// Accepts a report that continues the run, and sends what it causes.
    fn accept<O: Out, D: Orders>(
        &mut self,
        target: Target,
        run: Run,
        report: Report,
        out: &mut O,
        orders: &mut D,
    ) -> Result<(), SessionFault>
        requires taking { self.old.ending ≡ None }
        requires expected { (plain_report report).heading ≡ heading_in target.runs run }
        ensures comes { (past : History) → IsTaking past → IsPhase (phase_is.Running target run) past →
            self.old.next_seq ≡ next_seq past →
            HandlesItem result past (Accepted (plain_report report)) self.new
            (ports (O.seen out.old) (D.seen orders.old))
            (ports (O.seen out.new) (D.seen orders.new)) }
        ensures enough { IsQuiet (plain_report report) → NeededNoMemory result self.new }
        ensures stream { self.new.stream ≡ self.old.stream }
        ensures ending { self.new.ending ≡ None }
        ensures passed { O.keeps_none out.old → OnOk result (O.keeps_none out.new) }
        ensures out { O.origin out.new ≡ O.origin out.old }
        ensures orders { D.origin orders.new ≡ D.origin orders.old }
    {
        reading_laws();
        let Ok(effect) = dap_replies::report(self.alloc, target, run, report) else {
            return Err(SessionFault::NoMemory);
        };
        self.send(None, effect, out, orders)
    }
}
