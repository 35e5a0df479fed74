//! A whole adapter in little: it answers `initialize` and `disconnect`, refuses all others, and ends.
//! It shows how `byte_streams` and `dap_server` go together; docs/YOUR_OWN_ADAPTER.md explains it.
#![tactic(auto)]

use byte_streams::{Reading, Writing};
use dap_server::{Reply, Responder, ServeFault, serve};
use serde_json::{Value, json};
use std::alloc::{AllocError, Global};
use std::process::ExitCode;

/// The adapter.
#[derive(Drop)]
struct Tiny;

impl Responder for Tiny {
    ghost use Rattle.std.specs.Prelude.{◌≡◌};
    ghost use Rattle.tiny_adapter.specs.Tiny.{reply_to};

    ghost replies = { λ _ command _ reply _. reply ≡ reply_to command };

    fn respond(
        &mut self,
        alloc: Global,
        command: &str,
        _arguments: Option<&Value>,
    ) -> Result<Reply, AllocError> {
        if command == "initialize" {
            Ok(Reply::with_body(alloc, json!(in alloc; {})?))
        } else if command == "disconnect" {
            Ok(Reply::done(alloc))
        } else {
            Reply::refused(alloc, "unsupported")
        }
    }
}

fn main(rt: HostRuntime) -> ExitCode {
    let mut input = Reading::new(&rt, rt.stdin());
    let mut output = Writing::new(&rt, rt.stdout());
    match serve(&rt, rt.alloc(), &mut Tiny, &mut input, &mut output) {
        Ok(_) => ExitCode::SUCCESS,
        Err(fault) => ExitCode::from(status(fault)),
    }
}

/// Returns the exit status for a fault.
fn status(fault: ServeFault) -> u8 {
    match fault {
        ServeFault::Input | ServeFault::Output => 1,
        ServeFault::Framing(_) => 2,
        ServeFault::NoMemory | ServeFault::NoSeq => 3,
    }
}
