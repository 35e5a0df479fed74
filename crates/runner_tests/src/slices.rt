//! Runs of programs from their texts: where slices end and how, and what they write.

ghost use Rattle.std.specs.Prelude.{◌≡◌, false};
ghost use Rattle.dbg_runner.specs.Plain.{goes_back};

use crate::begun::{BREAKPOINT, FOREVER, STEP, begin, begun};
use dbg_plan::{Mode, Reason, SourceBreakpoint};
use dbg_runner::{Buffers, ConsideredDebuggee, Outputs, SliceOutcome, goes_back, slice};
use pl0_meaning::RunFault;
use sample_programs::{LOOP, RECURSIVE};
use std::alloc::Global;
use std::process::Abort;
use test_kit::Asked;

/// What the slices of a run gave: where each ended and how, and what they wrote.
#[derive(Drop)]
struct Seen {
    ends: Vec<(u64, SliceOutcome)>,
    numbers: Vec<i64>,
}

/// Runs one slice, and returns the debuggee if the run goes on, and otherwise the one that stopped.
fn run_slice(
    rt: &impl Abort,
    alloc: Global,
    debuggee: ConsideredDebuggee,
    mode: Mode,
    buffers: &mut Buffers,
    seen: &mut Seen,
) -> (Option<ConsideredDebuggee>, Option<ConsideredDebuggee>)
    requires { goes_back mode ≡ false }
{
    let debuggee = debuggee.into_debuggee();
    let outputs = Outputs::new(alloc, &*debuggee, buffers).expect(rt, "memory");
    let (report, on) = slice(1, debuggee, mode, outputs, buffers);
    let summary = report.summary();
    seen.ends
        .push((summary.end, summary.outcome))
        .expect(rt, "memory");
    seen.numbers
        .extend_from_slice(report.numbers())
        .expect(rt, "memory");
    match on {
        Some(debuggee) => (Some(ConsideredDebuggee::new(debuggee)), None),
        None => (None, report.into_debuggee().map(ConsideredDebuggee::new)),
    }
}

/// Runs a debuggee to its stop, for at most 100 slices.
fn run(
    rt: &impl Abort,
    alloc: Global,
    debuggee: ConsideredDebuggee,
    mode: Mode,
    seen: &mut Seen,
) -> Option<ConsideredDebuggee>
    requires { goes_back mode ≡ false }
{
    let mut next = debuggee;
    let mut buffers = Buffers::new();
    for _ in 0..100u32 {
        let (on, stopped) = run_slice(rt, alloc, next, mode, &mut buffers, seen);
        match on {
            Some(on) => next = on,
            None => return stopped,
        }
    }
    None
}

fn nothing_seen(alloc: Global) -> Seen {
    Seen {
        ends: Vec::new(alloc),
        numbers: Vec::new(alloc),
    }
}

/// Runs a debuggee in mode Continue from stop to stop, at most ten times.
fn run_on(rt: &impl Abort, alloc: Global, debuggee: ConsideredDebuggee, seen: &mut Seen) {
    let mut next = debuggee;
    for _ in 0..10u32 {
        let stopped = run(rt, alloc, next, Mode::Continue, seen);
        match (stopped, seen.ends.last()) {
            (Some(stopped), Some((_, SliceOutcome::Due(_)))) => next = stopped,
            _ => return,
        }
    }
}

/// Asserts that in the mode `Continue` the slices of a program end exactly there.
fn assert_ends(
    rt: &impl Abort,
    alloc: Global,
    text: &str,
    asked: &[Asked],
    wanted: &[(u64, SliceOutcome)],
) {
    let mut seen = nothing_seen(alloc);
    let (debuggee, _) = begin(rt, alloc, text, asked, Mode::Continue);
    run_on(rt, alloc, debuggee, &mut seen);
    assert_eq!(rt; seen.ends.as_slice(), wanted, "{text}");
}

/// Programs, and where their slices end without breakpoints.
const SLICES: [(&str, &[(u64, SliceOutcome)]); 4] = [
    (".", &[(1, SliceOutcome::Done)]),
    (
        "var x; while x < 127 do x := x + 1.",
        &[(256, SliceOutcome::Done)],
    ),
    (
        "var x; begin while x < 127 do x := x + 1; x := 0; x := 1 / 0 end.",
        &[
            (256, SliceOutcome::More),
            (256, SliceOutcome::Fault(RunFault::DivideByZero)),
        ],
    ),
    (
        "procedure p; call p; call p.",
        &[
            (256, SliceOutcome::More),
            (512, SliceOutcome::More),
            (768, SliceOutcome::More),
            (1023, SliceOutcome::Fault(RunFault::Depth)),
        ],
    ),
];

#[test]
fn ends_slices_where_the_meaning_does(rt: HostRuntime) {
    for (text, wanted) in SLICES.as_slice() {
        assert_ends(&rt, rt.alloc(), text, [].as_slice(), wanted);
    }
}

/// A condition and a hit condition at line 3 of the loop, and where its slices end.
const STOPS: [(&str, &str, &[(u64, SliceOutcome)]); 5] = [
    ("x > 3", "%2", &[(11, BREAKPOINT), (14, SliceOutcome::Done)]),
    ("x > 2", "%2", &[(9, BREAKPOINT), (14, SliceOutcome::Done)]),
    (
        "1 / 0 = 1",
        "3",
        &[
            (5, BREAKPOINT),
            (7, BREAKPOINT),
            (9, BREAKPOINT),
            (11, BREAKPOINT),
            (14, SliceOutcome::Done),
        ],
    ),
    ("x >", "", &[(14, SliceOutcome::Done)]),
    ("", "03", &[(14, SliceOutcome::Done)]),
];

#[test]
fn stops_at_breakpoints(rt: HostRuntime) {
    for (condition, hit, wanted) in STOPS.as_slice() {
        let asked = [(3, *condition, *hit, "")];
        assert_ends(&rt, rt.alloc(), LOOP, asked.as_slice(), wanted);
    }
}

#[test]
fn writes_what_the_steps_write(rt: HostRuntime) {
    let mut seen = nothing_seen(rt.alloc());
    let (debuggee, _) = begin(&rt, rt.alloc(), RECURSIVE, [].as_slice(), Mode::Continue);
    let stopped = run(&rt, rt.alloc(), debuggee, Mode::Continue, &mut seen);
    assert_eq!(rt; seen.numbers.as_slice(), [1i64, 2].as_slice());
    assert!(rt; stopped.is_none(), "stops: {:?}", seen.ends.as_slice());
}

/// A mode, where the only slice of the run in this mode ends, and how.
type Step = (Mode, u64, SliceOutcome);

/// Runs a debuggee in one mode after the other.
fn assert_runs(rt: &impl Abort, alloc: Global, debuggee: ConsideredDebuggee, wanted: &[Step]) {
    let mut next = Some(debuggee);
    for (mode, finish, ends) in wanted {
        assert!(rt; !goes_back(*mode));
        let debuggee = next.take().expect(rt, "a stop");
        let mut seen = nothing_seen(alloc);
        next = run(rt, alloc, debuggee, *mode, &mut seen);
        assert_eq!(rt; seen.ends.as_slice(), [(*finish, *ends)].as_slice());
    }
}

/// A line with a breakpoint, unless it comes after the text, and how the nested procedures run from position 0.
const MODES: [(u32, &[Step]); 3] = [
    (
        7,
        &[(Mode::Over(1), 1, STEP), (Mode::Over(1), 2, BREAKPOINT)],
    ),
    (
        99,
        &[
            (Mode::Over(1), 1, STEP),
            (Mode::Over(1), 19, STEP),
            (Mode::Out(1), 20, SliceOutcome::Done),
        ],
    ),
    (
        5,
        &[
            (Mode::Continue, 10, BREAKPOINT),
            (Mode::Out(4), 12, STEP),
            (Mode::In, 13, STEP),
            (Mode::Continue, 15, BREAKPOINT),
        ],
    ),
];

#[test]
fn steps_by_mode(rt: HostRuntime) {
    for (line, wanted) in MODES.as_slice() {
        let asked = [(*line, "", "", "")];
        let (debuggee, reason) = begin(&rt, rt.alloc(), RECURSIVE, asked.as_slice(), Mode::Entry);
        assert_eq!(rt; reason, Some(Reason::Entry));
        assert_runs(&rt, rt.alloc(), debuggee, wanted);
    }
}

/// 256 breakpoints at one line, each due at a different arrival: by its hit condition, which is this sign and a number.
fn assert_counts(rt: &impl Abort, alloc: Global, sign: &str, from: u32, at_start: Option<Reason>) {
    let mut hit_conditions = Vec::new(alloc);
    for number in from..from.saturating_add(256) {
        let hit_condition = format!(in alloc; "{sign}{number}").expect(rt, "memory");
        hit_conditions.push(hit_condition).expect(rt, "memory");
    }
    let mut lines = Vec::new(alloc);
    for hit_condition in &hit_conditions {
        lines
            .push(SourceBreakpoint {
                line: 1,
                condition: "",
                hit_condition: hit_condition.as_str(),
                log_message: "",
            })
            .expect(rt, "memory");
    }
    let (debuggee, reason) = begun(rt, alloc, FOREVER, &lines, Mode::Continue);
    assert_eq!(rt; reason, at_start);
    let wanted = [
        (Mode::Continue, 1, BREAKPOINT),
        (Mode::Continue, 2, BREAKPOINT),
    ];
    assert_runs(rt, alloc, debuggee, wanted.as_slice());
}

#[test]
fn counts_many_breakpoints_at_one_line(rt: HostRuntime) {
    assert_counts(&rt, rt.alloc(), "", 1, Some(Reason::Breakpoint));
    assert_counts(&rt, rt.alloc(), "%", 2, None);
}
