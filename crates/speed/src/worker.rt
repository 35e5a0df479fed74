//! The runner over ports in memory.

use crate::slices::begun;
use anyhow::{Context, Result};
use dbg_plan::Mode;
use dbg_runner::{Joined, work};
use pl0_unit::Unit;
use std::alloc::Global;
use std::sync::Wait;
use test_kit::{Last, OneRun, Open};

/// Hands a program to the runner by one Go: how and where its run ended.
pub fn run<R: Wait>(rt: &R, alloc: Global, unit: Unit) -> Result<String> {
    let debuggee = begun(alloc, unit, &[])?;
    let orders = OneRun::new(debuggee, Mode::Continue, &[]);
    let mut ports = Joined::new(orders, Last::new(), Open::new(alloc, 0));
    work(rt, alloc, &mut ports);
    let (_, last, _) = ports.into_ports();
    let last = last.report.context("no report")?.summary();
    format!(in alloc; "{:?} after {} steps", last.outcome, last.end).context("no line")
}
