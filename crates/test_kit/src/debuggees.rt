//! Machines and debuggees of texts, and breakpoints as they are asked for.

ghost use Rattle.std.specs.Prelude.{◌≡◌, IfSome};

use dbg_plan::{Debuggee, Resolution, SourceBreakpoint, resolve};
use pl0_machine::Machine;
use pl0_unit::Unit;
use sample_programs::compiled;
use std::alloc::Global;
use std::sync::Arc;

/// How many breakpoints a plan has, at most.
const MOST_BREAKPOINTS: usize = 256;

/// A breakpoint as it is asked for: a line, a condition, a hit condition and a log message.
pub type Asked<'a> = (u32, &'a str, &'a str, &'a str);

/// A machine of a lawful text, at position 0; `None` where the text isn't lawful, or there was no memory.
pub fn machine_of(alloc: Global, text: &str) -> Option<Machine> {
    Machine::new(alloc, compiled(alloc, text).ok()?).ok()
}

/// A debuggee of a lawful text, at position 0, under no breakpoints; `None` where the text isn't lawful, or there was no
/// memory.
pub fn debuggee_of(alloc: Global, text: &str) -> Option<Debuggee>
    ensures { IfSome result (λ debuggee. debuggee.next ≡ debuggee.position) }
{
    Some(Debuggee::new(alloc, machine_of(alloc, text)?))
}

/// Breakpoints as they are asked for; `None` where there was no memory.
pub fn breakpoints_at<'a>(alloc: Global, asked: &[Asked<'a>]) -> Option<Vec<SourceBreakpoint<'a>>> {
    let mut all = Vec::new(alloc);
    for (line, condition, hit_condition, log_message) in asked {
        let breakpoint = SourceBreakpoint {
            line: *line,
            condition,
            hit_condition,
            log_message,
        };
        all.push(breakpoint).ok()?;
    }
    Some(all)
}

/// Puts a plan of these breakpoints in, and returns the answers to them; `None` where there are too many, or there was no
/// memory.
pub fn put_in(
    alloc: Global,
    debuggee: &mut Debuggee,
    breakpoints: &[SourceBreakpoint],
) -> Option<Vec<Resolution>>
    ensures unit { debuggee.new.unit ≡ debuggee.old.unit }
    ensures position { debuggee.new.position ≡ debuggee.old.position }
    ensures next { debuggee.new.next ≡ debuggee.old.next }
{
    if breakpoints.len() > MOST_BREAKPOINTS {
        return None;
    }
    let unit: &Unit = debuggee.machine().unit();
    let (plan, answers) = resolve(alloc, unit, breakpoints).ok()?;
    debuggee.set_plan(Arc::new(alloc, plan).ok()?);
    Some(answers)
}
