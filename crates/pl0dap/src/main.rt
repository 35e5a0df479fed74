//! `pl0dap`: a debug adapter for PL/0 over standard input and output. What it does is said in `adapter`.
#![tactic(auto)]

use adapter::{Dialect, Reading, SystemFiles, Writing, run_process};
use std::env;
use std::process::ExitCode;

/// Serves or checks as the arguments ask, and exits with the status of how that ended.
fn main(rt: HostRuntime) -> ExitCode {
    let files = &mut SystemFiles::new(&rt);
    let input = &mut Reading::new(&rt, rt.stdin());
    let output = &mut Writing::new(&rt, rt.stdout());
    let errors = &mut Writing::new(&rt, rt.stderr());
    run_process(
        &rt,
        &rt,
        Dialect::Codes,
        env::args(&rt),
        files,
        input,
        output,
        errors,
    )
}
