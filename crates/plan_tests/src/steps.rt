//! A debuggee's steps, and what it logs at a position.

ghost use Rattle.std.specs.Prelude.{◌≡◌, IsTrue};
ghost use Rattle.dbg_plan.specs.Debugged.{IsConsidered};

use dbg_plan::{Debuggee, Logs, log_text};
use pl0_machine::StepOutcome;
use std::alloc::Global;
use std::process::Abort;

/// Takes the debuggee's next step, and returns whether it isn't a fault.
pub fn goes(debuggee: &mut Debuggee) -> bool
    requires { IsConsidered debuggee.old }
    ensures { IsTrue result → debuggee.new.next ≡ debuggee.new.position }
{
    match debuggee.step() {
        StepOutcome::Went(_) => true,
        StepOutcome::Done => true,
        StepOutcome::Fault(_) => false,
    }
}

/// Adds a log to the others of its position.
fn add_log(rt: &impl Abort, alloc: Global, logged: &mut String, number: usize, text: &str) {
    let line = format!(in alloc; "{number} {text}").expect(rt, "memory");
    logged.push_str(line.as_str()).expect(rt, "memory");
}

/// The logs of the debuggee's position.
pub fn logged(rt: &impl Abort, alloc: Global, debuggee: &Debuggee, logs: &Logs) -> String {
    let mut all = String::new(alloc);
    if let Some(plan) = debuggee.plan() {
        for log in logs.as_slice() {
            let parts = plan.message(log.number());
            let text = log_text(alloc, parts, log).expect(rt, "memory");
            add_log(rt, alloc, &mut all, log.number(), text.as_str());
        }
    }
    all
}
