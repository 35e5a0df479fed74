//! Debuggees that a run begins with, and a slice of such a run.

use dbg_plan::{Logs, Mode, Reason, SourceBreakpoint};
use dbg_runner::{Buffers, ConsideredDebuggee, Outputs, Report, SliceOutcome, slice};
use std::alloc::Global;
use std::process::Abort;
use test_kit::{Asked, breakpoints_at, debuggee_of, put_in};

/// A program that never ends.
pub const FOREVER: &str = "while 1 = 1 do.";

pub const BREAKPOINT: SliceOutcome = SliceOutcome::Due(Reason::Breakpoint);

pub const STEP: SliceOutcome = SliceOutcome::Due(Reason::Step);

pub const ENTRY: SliceOutcome = SliceOutcome::Due(Reason::Entry);

/// Returns a debuggee of a lawful text under breakpoints, at position 0, considered in a mode; and why it is due, if so.
pub fn begun(
    rt: &impl Abort,
    alloc: Global,
    text: &str,
    breakpoints: &[SourceBreakpoint],
    mode: Mode,
) -> (ConsideredDebuggee, Option<Reason>) {
    let mut debuggee = debuggee_of(alloc, text).expect(rt, "a lawful text");
    let _ = put_in(alloc, &mut debuggee, breakpoints).expect(rt, "a plan");
    assert!(rt; debuggee.machine().depth() > 0);
    let mut logs = Logs::new(alloc).expect(rt, "memory");
    let reason = debuggee.consider(mode, &mut logs);
    let debuggee = Box::new(alloc, debuggee).expect(rt, "memory");
    (ConsideredDebuggee::new(debuggee), reason)
}

/// Returns such a debuggee under breakpoints as they are asked for.
pub fn begin(
    rt: &impl Abort,
    alloc: Global,
    text: &str,
    asked: &[Asked],
    mode: Mode,
) -> (ConsideredDebuggee, Option<Reason>) {
    let breakpoints = breakpoints_at(alloc, asked).expect(rt, "memory");
    begun(rt, alloc, text, &breakpoints, mode)
}

/// Runs a slice in the mode `Continue`, and returns its report, and the debuggee if the run goes on.
pub fn onward(
    rt: &impl Abort,
    alloc: Global,
    debuggee: ConsideredDebuggee,
) -> (Report, Option<ConsideredDebuggee>) {
    let debuggee = debuggee.into_debuggee();
    let mut buffers = Buffers::new();
    let outputs = Outputs::new(alloc, &*debuggee, &mut buffers).expect(rt, "memory");
    let (report, on) = slice(1, debuggee, Mode::Continue, outputs, &mut buffers);
    (report, on.map(ConsideredDebuggee::new))
}
