//! Runs a program to its end and does nothing else: what the scripts of `bench/` time, and `checks/refusals.py` runs out of
//! memory. Or drives a session over memory, beside which `checks/in_memory.py` plays it to the program in threads.
//!
//! - `speed machine FILE` takes the machine's steps alone.
//! - `speed slices FILE [FIRST COUNT [CONDITION [HIT]]]` runs a debuggee in slices, under breakpoints at COUNT lines from
//!   FIRST on; `speed next FILE ..` runs it up to the next position of the main block, and `speed out FILE ..` as long as
//!   there is a frame above that one's.
//! - `speed work FILE` hands a debuggee to the runner, over a queue of orders, a gate and reports in memory.
//! - `speed language FILE [FIRST COUNT]` runs a program of the stack language in slices of `debuggee`, under breakpoints at
//!   COUNT lines from FIRST on, of which the first of the program is 0.
//! - `speed session FILE` drives a session by the bytes in the file, and prints the frames that it puts.
#![tactic(auto)]

mod language;
mod machine;
mod session;
mod slices;
mod worker;

use anyhow::{Context, Result, anyhow};
use dbg_plan::Mode;
use pl0_code::compile;
use pl0_syntax::parse;
use pl0_unit::Unit;
use std::alloc::Global;
use std::io::Write;
use std::rt::Files;
use std::sync::Wait;
use std::{env, fs, io};

const USAGE: &str =
    "usage: speed machine|slices|next|out|work|language|session FILE [FIRST COUNT [CONDITION [HIT]]]";

fn main(rt: HostRuntime) -> Result<()> {
    let arguments = env::args(&rt)
        .context("no arguments")?
        .collect::<Vec<String>>(rt.alloc())
        .context("no arguments")?;
    run(&rt, arguments.as_slice())
}

/// Does what the arguments ask for, of which the first is the program's name.
fn run<R: Wait + Files + Print + AllocGlobal>(rt: &R, arguments: &[String]) -> Result<()> {
    let [_, mode, path, rest @ ..] = arguments else {
        return Err(anyhow!("{USAGE}"));
    };
    let text = fs::read(rt, path.as_str()).context("no text")?;
    match mode.as_str() {
        "session" => print_session(rt, text.as_slice()),
        mode => print_run(rt, mode, text.as_slice(), rest),
    }
}

/// Prints the frames that a session puts, one after another. Fails, after these, where the session gives up.
fn print_session<R: Wait + Files + Print + AllocGlobal>(rt: &R, sent: &[u8]) -> Result<()> {
    let outcome = session::run(rt, rt.alloc(), sent);
    let frames = outcome
        .output(rt.alloc())
        .context("no room for the frames")?;
    io::writer(rt)
        .write_all(frames.as_slice())
        .context("no output")?;
    match outcome.end {
        Ok(_) => Ok(()),
        Err(fault) => Err(anyhow!("the session gave up: {fault:?}")),
    }
}

/// Prints how and where the run of a program ended.
fn print_run<R: Wait + Print + AllocGlobal>(
    rt: &R,
    mode: &str,
    text: &[u8],
    rest: &[String],
) -> Result<()> {
    let line = match mode {
        "language" => language::run(rt.alloc(), text, rest)?,
        mode => line_of_run(rt, mode, text, rest)?,
    };
    println!(rt; "{line}")?;
    Ok(())
}

/// How and where the run of a program ended.
fn line_of_run<R: Wait + AllocGlobal>(
    rt: &R,
    mode: &str,
    text: &[u8],
    rest: &[String],
) -> Result<String> {
    let alloc = rt.alloc();
    let unit = compiled(alloc, text)?;
    match mode {
        "machine" => machine::run(alloc, unit),
        "slices" => slices::run(alloc, unit, Mode::Continue, rest),
        "next" => slices::run(alloc, unit, Mode::Over(1), rest),
        "out" => slices::run(alloc, unit, Mode::Out(2), rest),
        "work" => worker::run(rt, alloc, unit),
        _ => Err(anyhow!("{USAGE}")),
    }
}

/// The code of a text.
fn compiled(alloc: Global, text: &[u8]) -> Result<Unit> {
    let tree = parse(alloc, text).map_err(|fault| anyhow!("no tree: {fault:?}"))?;
    compile(alloc, tree).map_err(|fault| anyhow!("no code: {fault:?}"))
}
