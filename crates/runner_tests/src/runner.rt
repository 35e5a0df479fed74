//! What a runner makes of orders: where its reports end and how, and which slices pass its gate.

use crate::begun::{FOREVER, begin};
use dbg_plan::Mode;
use dbg_runner::{Joined, Report, SliceOutcome, work};
use std::alloc::Global;
use std::process::Abort;
use std::sync::Wait;
use test_kit::{OneRun, Open, Tray};

/// What a runner makes of orders to run a program that never ends and to hold it at a look: where its reports end and how,
/// and which slices pass the gate. The first look finds a Hold of another run.
fn assert_worked<R: Abort + Wait>(
    rt: &R,
    alloc: Global,
    held_at: u64,
    room: usize,
    ends: &[(u64, SliceOutcome)],
    passed: &[(u64, u64)],
) {
    let (debuggee, _) = begin(rt, alloc, FOREVER, [].as_slice(), Mode::Continue);
    let holds = [(held_at, 1), (1, 7)];
    let mut ports = Joined::new(
        OneRun::new(debuggee, Mode::Continue, holds.as_slice()),
        Tray::new(alloc, room),
        Open::new(alloc, usize::MAX),
    );
    work(rt, alloc, &mut ports);
    let (_, tray, gate) = ports.into_ports();
    assert_eq!(rt; gate.slices.as_slice(), passed);
    assert_reports(rt, &tray.reports, ends);
}

fn assert_reports(rt: &impl Abort, reports: &[Report], ends: &[(u64, SliceOutcome)]) {
    assert_eq!(rt; reports.len(), ends.len());
    for (report, end) in reports.iter().zip(ends) {
        let summary = report.summary();
        assert_eq!(rt; (summary.end, summary.outcome), *end);
    }
}

/// A Hold is seen after a report, and one of another run does nothing. A runner that never looks fills the reports.
#[test]
fn looks_for_orders_after_reports(rt: HostRuntime) {
    let ends = [
        (256u64, SliceOutcome::More),
        (512, SliceOutcome::More),
        (512, SliceOutcome::Held),
    ];
    let passed = [(1u64, 1u64), (1, 2)];
    assert_worked(&rt, rt.alloc(), 2, 10, ends.as_slice(), passed.as_slice());
}

#[test]
fn ends_where_a_report_is_handed_back(rt: HostRuntime) {
    let ends = [(256u64, SliceOutcome::More)];
    let passed = [(1u64, 1u64), (1, 2)];
    assert_worked(&rt, rt.alloc(), 5, 1, ends.as_slice(), passed.as_slice());
}
