//! Slices that end at logs, and runs that go back.

use crate::begun::{BREAKPOINT, ENTRY, STEP, begin, onward};
use dbg_plan::{Log, Mode, Plan, log_text};
use dbg_runner::{
    Buffers, ConsideredDebuggee, Joined, Report, Retreat, SliceOutcome, Summary, goes_back, work,
};
use sample_programs::{LONG_LOOP, LOOP, RECURSIVE};
use std::alloc::Global;
use std::process::Abort;
use std::sync::{Arc, Wait};
use test_kit::{Asked, Last, OneRun, Open};

/// The text of the logs of a report, one after the other.
fn text_of(rt: &impl Abort, alloc: Global, plan: &Option<Arc<Plan>>, logs: &[Log]) -> String {
    let mut all = String::new(alloc);
    if let Some(plan) = plan {
        for log in logs {
            let parts = plan.message(log.number());
            let text = log_text(alloc, parts, log).expect(rt, "memory");
            all.push_str(text.as_str()).expect(rt, "memory");
        }
    }
    all
}

/// What a report says: where it ends, how, the numbers written before it starts, and what it logs.
fn assert_report(
    rt: &impl Abort,
    alloc: Global,
    report: &Report,
    wanted: (u64, SliceOutcome, &str),
) {
    let summary = report.summary();
    let text = text_of(rt, alloc, report.plan(), report.logs());
    assert_eq!(rt; (summary.end, summary.outcome, text.as_str()), wanted);
    assert_eq!(rt; summary.steps_rerun, 0);
}

/// The slices of the loop under a log point: where each ends, how, and what it logs.
fn assert_logs(rt: &impl Abort, alloc: Global, hit: &str, wanted: &[(u64, SliceOutcome, &str)]) {
    let point = (3, "", hit, "x is {x}, {10 / (x - 2)}");
    let (debuggee, reason) = begin(rt, alloc, LOOP, [point].as_slice(), Mode::Continue);
    assert_eq!(rt; reason, None);
    let mut next = Some(debuggee);
    for here in wanted {
        let debuggee = next.take().expect(rt, "a run that goes on");
        let (report, on) = onward(rt, alloc, debuggee);
        assert_report(rt, alloc, &report, *here);
        next = on;
    }
    assert!(rt; next.is_none(), "it goes on after {wanted:?}");
}

#[test]
fn ends_slices_at_logs(rt: HostRuntime) {
    let all = [
        (1u64, SliceOutcome::More, "x is 0, -5\n"),
        (3, SliceOutcome::More, "x is 1, -10\n"),
        (5, SliceOutcome::More, "x is 2, divideByZero\n"),
        (7, SliceOutcome::More, "x is 3, 10\n"),
        (9, SliceOutcome::More, "x is 4, 5\n"),
        (11, SliceOutcome::More, "x is 5, 3\n"),
        (14, SliceOutcome::Done, ""),
    ];
    assert_logs(&rt, rt.alloc(), "", all.as_slice());
    let each_third = [
        (5u64, SliceOutcome::More, "x is 2, divideByZero\n"),
        (11, SliceOutcome::More, "x is 5, 3\n"),
        (14, SliceOutcome::Done, ""),
    ];
    assert_logs(&rt, rt.alloc(), "%3", each_third.as_slice());
}

/// More slices than any run here has.
const SLICES: u64 = 10_000;

/// Runs a debuggee back in this mode, or on in the mode `Continue`, and returns the last report.
fn run(rt: &impl Abort, alloc: Global, debuggee: ConsideredDebuggee, mode: Mode) -> Report {
    if goes_back(mode) {
        return run_back(rt, alloc, Retreat::new(debuggee.into_debuggee(), mode));
    }
    let mut next = debuggee;
    for _ in 0..SLICES {
        let (report, on) = onward(rt, alloc, next);
        match on {
            None => return report,
            Some(on) => next = on,
        }
    }
    panic!(rt; "no end")
}

/// The last report of a run that goes back. Before it each slice ran 256 steps again.
fn run_back(rt: &impl Abort, alloc: Global, retreat: Retreat) -> Report {
    let mut next = retreat;
    let mut buffers = Buffers::new();
    for slices in 0..SLICES {
        let (report, on) = next.next_report(alloc, 1, &mut buffers);
        let summary = report.summary();
        match on {
            None => return report,
            Some(on) => next = on,
        }
        assert_eq!(rt;
            (summary.outcome, summary.end),
            (SliceOutcome::More, summary.start)
        );
        assert_eq!(rt;
            summary.steps_rerun,
            slices.saturating_add(1).saturating_mul(256)
        );
    }
    panic!(rt; "no end")
}

/// A mode; then the end of the run's last report, its outcome, the numbers written before it starts, the numbers that
/// it tells, and the steps run again.
type Run<'a> = (Mode, u64, SliceOutcome, u64, &'a [i64], u64);

/// Runs a debuggee in one mode after the other.
fn assert_runs(rt: &impl Abort, alloc: Global, debuggee: ConsideredDebuggee, wanted: &[Run]) {
    let mut next = Some(debuggee);
    for (mode, end, outcome, before, numbers, again) in wanted {
        let report = run(rt, alloc, next.take().expect(rt, "a stop"), *mode);
        let summary: Summary = report.summary();
        assert_eq!(rt; (summary.end, summary.outcome), (*end, *outcome));
        assert_eq!(rt;
            (summary.numbers_before, summary.steps_rerun),
            (*before, *again)
        );
        assert_eq!(rt; report.numbers(), *numbers);
        next = report.into_debuggee().map(ConsideredDebuggee::new);
    }
}

/// How the nested procedures run under a breakpoint at line 5, back to the last stop and on again.
const BACK_TO_STOPS: [Run; 7] = [
    (Mode::Continue, 10, BREAKPOINT, 0, &[], 0),
    (Mode::Continue, 15, BREAKPOINT, 0, &[1], 0),
    (Mode::Reverse, 10, BREAKPOINT, 1, &[], 24),
    (Mode::Reverse, 0, ENTRY, 0, &[], 9),
    (Mode::Continue, 10, BREAKPOINT, 0, &[], 0),
    (Mode::Continue, 15, BREAKPOINT, 0, &[1], 0),
    (Mode::Continue, 20, SliceOutcome::Done, 1, &[2], 0),
];

/// How they run back by a step, and at position 0.
const BACK_BY_STEPS: [Run; 8] = [
    (Mode::Continue, 10, BREAKPOINT, 0, &[], 0),
    (Mode::StepBack, 9, STEP, 0, &[], 9),
    (Mode::Continue, 10, BREAKPOINT, 0, &[], 0),
    (Mode::StepBack, 9, STEP, 0, &[], 9),
    (Mode::Reverse, 0, ENTRY, 0, &[], 8),
    (Mode::Reverse, 0, ENTRY, 0, &[], 0),
    (Mode::StepBack, 0, STEP, 0, &[], 0),
    (Mode::Continue, 10, BREAKPOINT, 0, &[], 0),
];

#[test]
fn goes_back_and_forth(rt: HostRuntime) {
    for runs in [BACK_TO_STOPS.as_slice(), BACK_BY_STEPS.as_slice()] {
        let asked = [(5, "", "", "")];
        let (debuggee, _) = begin(&rt, rt.alloc(), RECURSIVE, asked.as_slice(), Mode::Continue);
        assert_runs(&rt, rt.alloc(), debuggee, runs);
    }
}

#[test]
fn counts_begin_anew_after_a_stop(rt: HostRuntime) {
    let asked = [(3u32, "", "%2", "")];
    let (debuggee, _) = begin(&rt, rt.alloc(), LOOP, asked.as_slice(), Mode::Continue);
    let runs: [Run; 6] = [
        (Mode::Continue, 3, BREAKPOINT, 0, [].as_slice(), 0),
        (Mode::Continue, 7, BREAKPOINT, 0, [].as_slice(), 0),
        (Mode::Reverse, 3, BREAKPOINT, 0, [].as_slice(), 9),
        (Mode::StepBack, 2, STEP, 0, [].as_slice(), 2),
        (Mode::Continue, 5, BREAKPOINT, 0, [].as_slice(), 0),
        (Mode::Reverse, 3, BREAKPOINT, 0, [].as_slice(), 7),
    ];
    assert_runs(&rt, rt.alloc(), debuggee, runs.as_slice());
}

/// What a runner makes of an order to run this debuggee: its last report, and how many it sent. The first look finds a
/// Hold of another run.
fn ordered<R: Abort + Wait>(
    rt: &R,
    alloc: Global,
    debuggee: ConsideredDebuggee,
    mode: Mode,
) -> (Report, u64) {
    let holds = [(1, 7)];
    let mut ports = Joined::new(
        OneRun::new(debuggee, mode, holds.as_slice()),
        Last::new(),
        Open::new(alloc, 0),
    );
    work(rt, alloc, &mut ports);
    let (_, last, _) = ports.into_ports();
    let count = last.count;
    (last.report.expect(rt, "a report"), count)
}

/// An order to run in this mode; then where its last report ends, how many steps were run again, and how many reports it
/// sent.
type Turn = (Mode, u64, u64, u64);

/// Gives a runner one order after the other to run the long loop, which stops at the conditions of `stops`.
fn assert_counts<R: Abort + Wait>(rt: &R, alloc: Global, stops: &[Asked], turns: &[Turn]) {
    let (debuggee, _) = begin(rt, alloc, LONG_LOOP, stops, Mode::Continue);
    let mut next = Some(debuggee);
    for (mode, end, again, reports) in turns {
        let debuggee = next.take().expect(rt, "a stop");
        let (report, count) = ordered(rt, alloc, debuggee, *mode);
        let summary = report.summary();
        assert_eq!(rt;
            (summary.end, summary.steps_rerun, count),
            (*end, *again, *reports)
        );
        next = report.into_debuggee().map(ConsideredDebuggee::new);
    }
}

/// A run back in the mode `Reverse` from position n to position m runs n - 1 steps again, up to where it began, and then
/// those from the last checkpoint at or before m. One in the mode `StepBack` runs only the latter. Checkpoints are kept
/// after slices, at least 4,096 positions apart: here at 4,096, since the first run stops at 5,000, and at 8,328, which
/// the slices from there come to.
#[test]
fn counts_steps_from_checkpoints(rt: HostRuntime) {
    let stops = [(1u32, "x = 2500", "", ""), (1, "x = 4500", "", "")];
    let turns = [
        (Mode::Continue, 5_000u64, 0u64, 20u64),
        (Mode::Continue, 9_000, 0, 16),
        (Mode::Reverse, 5_000, 8_999 + 904, 39),
        (Mode::Continue, 9_000, 0, 16),
        (Mode::StepBack, 8_999, 671, 3),
        (Mode::Reverse, 5_000, 8_998 + 904, 39),
        (Mode::StepBack, 4_999, 903, 4),
        (Mode::Reverse, 0, 4_998, 20),
    ];
    assert_counts(&rt, rt.alloc(), stops.as_slice(), turns.as_slice());
}

/// A checkpoint at position 4,096: back to it none is run again, and back to the one before, all are.
#[test]
fn goes_back_to_a_checkpoint(rt: HostRuntime) {
    let stops = [(1u32, "x = 2049", "", "")];
    let turns = [
        (Mode::Continue, 4_098u64, 0u64, 17u64),
        (Mode::StepBack, 4_097, 1, 1),
        (Mode::StepBack, 4_096, 0, 1),
        (Mode::StepBack, 4_095, 4_095, 16),
    ];
    assert_counts(&rt, rt.alloc(), stops.as_slice(), turns.as_slice());
}

/// Where more than 64 are asked for, every second one is given up, and the next ones are 8,192 apart: after 266,240 the
/// last one is 274,432.
#[test]
fn goes_back_from_one_of_many_checkpoints(rt: HostRuntime) {
    let stops = [(1u32, "x = 138000", "", "")];
    let turns = [
        (Mode::Continue, 276_000u64, 0u64, 1_079u64),
        (Mode::StepBack, 275_999, 1_567, 7),
    ];
    assert_counts(&rt, rt.alloc(), stops.as_slice(), turns.as_slice());
}

/// Without checkpoints, as slices alone run the program, all is run again.
#[test]
fn steps_back_without_checkpoints(rt: HostRuntime) {
    let asked = [(1u32, "x = 5000", "", "")];
    let (debuggee, _) = begin(&rt, rt.alloc(), LONG_LOOP, asked.as_slice(), Mode::Continue);
    let runs: [Run; 2] = [
        (Mode::Continue, 10_000, BREAKPOINT, 0, [].as_slice(), 0),
        (Mode::StepBack, 9_999, STEP, 0, [].as_slice(), 9_999),
    ];
    assert_runs(&rt, rt.alloc(), debuggee, runs.as_slice());
}
