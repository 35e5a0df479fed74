//! Slices of a program of the stack language, by `debuggee`.

use anyhow::{Context, Result, anyhow};
use debuggee::{Breakpoint, Halt, Language, Mode, run as run_slice};
use stack_language::Machine;
use std::alloc::Global;
use std::str;

/// Runs a program to its end, or to a halt before it, under breakpoints: which halt it is.
pub fn run(alloc: Global, text: &[u8], lines: &[String]) -> Result<String> {
    let text = str::from_utf8(text).context("no text")?;
    let mut machine = match Machine::load(alloc, text, "").context("no program")? {
        Ok(machine) => machine,
        Err(mistake) => return Err(anyhow!("{mistake}")),
    };
    let mut breakpoints = breakpoints_at(alloc, lines)?;
    let halt = slices(alloc, &mut machine, &mut breakpoints)?;
    format!(in alloc; "{} under {} breakpoints", name_of(halt), breakpoints.len()).context(
        "no line",
    )
}

/// Breakpoints without a condition at the places asked for: the first, and how many.
fn breakpoints_at(alloc: Global, lines: &[String]) -> Result<Vec<Breakpoint>> {
    let mut breakpoints = Vec::new(alloc);
    let [first, count, ..] = lines else {
        return Ok(breakpoints);
    };
    let first: u32 = first.parse()?;
    let count: u32 = count.parse()?;
    for index in 0..count {
        breakpoints.push(Breakpoint {
            place: first.saturating_add(index) as usize,
            condition: None,
            rule: None,
            arrivals: 0,
            message: None,
        })?;
    }
    Ok(breakpoints)
}

/// Runs slices up to a halt; `None` where there is none.
fn slices(
    alloc: Global,
    machine: &mut Machine,
    breakpoints: &mut Vec<Breakpoint>,
) -> Result<Option<Halt>> {
    let mut told = Vec::new(alloc);
    for _ in 0..u64::MAX {
        told.clear();
        let halt = run_slice(alloc, machine, breakpoints, Mode::Continue, &mut told)?;
        if halt.is_some() {
            return Ok(halt);
        }
    }
    Ok(None)
}

fn name_of(halt: Option<Halt>) -> &'static str {
    match halt {
        Some(Halt::AtBreakpoint) => "stopped at a breakpoint",
        Some(Halt::AtStep) => "stopped after a step",
        Some(Halt::AtEnd(_)) => "ended",
        Some(Halt::AtFault(_)) => "failed",
        None => "ran on",
    }
}
