//! `pl0`: runs, traces, checks, lists and draws PL/0 programs. What it does is said in `pl0_tool`.
#![tactic(auto)]

use byte_streams::{Reading, SystemFiles, Writing};
use pl0_tool::{WatchedOutput, run};
use std::env;
use std::process::ExitCode;

/// Does what the arguments ask for, and exits with the status of how that ended.
fn main(rt: HostRuntime) -> ExitCode {
    let files = &mut SystemFiles::new(&rt);
    let input = &mut Reading::new(&rt, rt.stdin());
    let output = &mut Writing::new(&rt, WatchedOutput::new(rt.stdout()));
    let errors = &mut Writing::new(&rt, rt.stderr());
    run(&rt, env::args(&rt), files, input, output, errors)
}
