//! A debug adapter for a small stack language: an example of what stands over `dap_debug`.
//!
//! `stack_language` is the language, with its meaning, and all else is `dap_debug`. So the contract of `serve_language` says
//! by `takes` of `stack_language` where a program stops and what it prints. docs/YOUR_OWN_ADAPTER.md explains it.
#![tactic(auto)]

use byte_streams::{Reading, SystemFiles, Writing};
use dap_debug::{DebugFault, serve_language};
use dap_server::ServeFault;
use stack_language::Machine;
use std::process::ExitCode;

fn main(rt: HostRuntime) -> ExitCode {
    let files = &mut SystemFiles::new(&rt);
    let input = &mut Reading::new(&rt, rt.stdin());
    let output = &mut Writing::new(&rt, rt.stdout());
    match serve_language::<Machine, _, _, _, _>(&rt, rt.alloc(), files, input, output) {
        Ok(_) => ExitCode::SUCCESS,
        Err(fault) => {
            let _ = eprintln!(rt; "stack_adapter: {fault:?}");
            ExitCode::from(status(fault))
        }
    }
}

/// Returns the exit status for a fault.
fn status(fault: DebugFault) -> u8 {
    match fault {
        DebugFault::Serve(ServeFault::Input | ServeFault::Output) => 1,
        DebugFault::Serve(ServeFault::Framing(_)) => 2,
        DebugFault::Serve(ServeFault::NoMemory | ServeFault::NoSeq) => 3,
        DebugFault::Start(_) => 4,
    }
}
