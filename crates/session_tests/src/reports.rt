//! Reports that no run of the session gives.

ghost use Rattle.std.specs.Prelude.{◌≡◌, false};
ghost use Rattle.dbg_runner.specs.Plain.{goes_back};

use dap_session::Report;
use dbg_plan::{Debuggee, Logs, Mode, SourceBreakpoint, resolve};
use dbg_runner::{Buffers, ConsideredDebuggee, next_report};
use pl0_code::compile;
use pl0_machine::Machine;
use pl0_syntax::parse;
use std::alloc::Global;
use std::process::Abort;
use std::sync::Arc;

/// The report of `run 1, Continue, from 0, lines 3 5, of TEXT`. `-` means no breakpoints, and no text means this
/// one.
pub fn described(rt: &impl Abort, alloc: Global, description: &str, program: &str) -> Report {
    let (run, rest) = description.split_once(", ").expect(rt, "a run");
    let (mode, rest) = rest.split_once(", from ").expect(rt, "a mode");
    let (start, rest) = rest.split_once(", lines ").expect(rt, "a start");
    let (lines, text) = rest.split_once(", of ").unwrap_or((rest, program));
    let run = run.strip_prefix("run ").expect(rt, "a run");
    let run = run.parse::<u64>().expect(rt, "a number");
    let start = start.parse::<u64>().expect(rt, "a number");
    let mode = mode_of(rt, mode);
    let debuggee = debuggee_at(rt, alloc, text, lines, start);
    next_report(
        alloc,
        run,
        debuggee.into_debuggee(),
        mode,
        &mut Buffers::new(),
    )
    .0
}

fn mode_of(rt: &impl Abort, name: &str) -> Mode
    ensures { goes_back result ≡ false }
{
    match name {
        "Entry" => Mode::Entry,
        "In" => Mode::In,
        "Over" => Mode::Over(1),
        "Out" => Mode::Out(1),
        "Continue" => Mode::Continue,
        other => panic!(rt; "{other} is no mode"),
    }
}

fn asked(rt: &impl Abort, alloc: Global, lines: &str) -> Vec<SourceBreakpoint<'static>> {
    let mut asked = Vec::new(alloc);
    for line in lines.split(' ') {
        if let Ok(line) = line.parse::<u32>() {
            asked
                .push(SourceBreakpoint {
                    line,
                    condition: "",
                    hit_condition: "",
                    log_message: "",
                })
                .expect(rt, "memory");
        }
    }
    asked
}

/// A program under breakpoints that count from position 0, where this position was considered.
fn debuggee_at(
    rt: &impl Abort,
    alloc: Global,
    text: &str,
    lines: &str,
    start: u64,
) -> ConsideredDebuggee {
    let tree = parse(alloc, text.as_bytes()).expect(rt, "a lawful text");
    let unit = Arc::new(alloc, compile(alloc, tree).expect(rt, "memory")).expect(rt, "memory");
    let machine = Machine::new(alloc, unit).expect(rt, "memory");
    let mut debuggee = begun(rt, alloc, machine, &asked(rt, alloc, lines));
    for _ in 0..start {
        debuggee = stepped(rt, alloc, debuggee);
    }
    debuggee
}

/// A program under breakpoints, at position 0.
fn begun(
    rt: &impl Abort,
    alloc: Global,
    machine: Machine,
    asked: &[SourceBreakpoint],
) -> ConsideredDebuggee {
    assert!(rt; asked.len() <= 256);
    let (plan, _) = resolve(alloc, machine.unit(), asked).expect(rt, "memory");
    let plan = Arc::new(alloc, plan).expect(rt, "memory");
    assert!(rt; machine.depth() > 0);
    let mut debuggee = Debuggee::new(alloc, machine);
    debuggee.set_plan(plan);
    let mut logs = Logs::new(alloc).expect(rt, "memory");
    debuggee.consider(Mode::Continue, &mut logs);
    ConsideredDebuggee::new(Box::new(alloc, debuggee).expect(rt, "memory"))
}

/// The program a step later.
fn stepped(rt: &impl Abort, alloc: Global, debuggee: ConsideredDebuggee) -> ConsideredDebuggee {
    let (report, _) = next_report(
        alloc,
        0,
        debuggee.into_debuggee(),
        Mode::In,
        &mut Buffers::new(),
    );
    let debuggee = report.into_debuggee().map(ConsideredDebuggee::new);
    debuggee.expect(rt, "a step")
}
