//! `pl0dap_from_zero`: the program `pl0dap` for editors that number their requests from 0.
#![tactic(auto)]

use adapter::{Dialect, Reading, SystemFiles, Writing, run_process};
use std::env;
use std::process::ExitCode;

/// Serves or checks as the arguments ask, and exits with the status of how that ended.
fn main(rt: HostRuntime) -> ExitCode {
    let files = &mut SystemFiles::new(&rt);
    let input = &mut Reading::new(&rt, rt.stdin());
    let output = &mut Writing::new(&rt, rt.stdout());
    let errors = &mut Writing::new(&rt, rt.stderr());
    run_process(
        &rt,
        &rt,
        Dialect::Words,
        env::args(&rt),
        files,
        input,
        output,
        errors,
    )
}
