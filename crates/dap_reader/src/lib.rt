//! What a client sends, read by a thread of its own, so that a session can look for it without waiting.
//!
//! ```
//! use byte_streams::{Reading, Writing};
//! use dap_reader::serve_worker_input;
//! use std::process::ExitCode;
//!
//! fn main(rt: HostRuntime) -> ExitCode {
//!     let input = &mut Reading::new(&rt, rt.stdin());
//!     let output = &mut Writing::new(&rt, rt.stdout());
//!     let ended = serve_worker_input(&rt, rt.alloc(), &mut Mine::new(), input, output);
//!     ExitCode::from(if matches!(ended, Ok(Ok(_))) { 0 } else { 1 })
//! }
//! ```
//!
//! The session's inbox gives what reads of the input give (`Reads` of `dap_server`): each byte, once and in order. So what
//! `ServedWorker` says is of these bytes (`ServedInput` in `specs/Serving.antt`). Nothing is promised of when an item comes.
#![tactic(auto)]

mod arrivals;
mod queue;
mod queue_end;
mod reader;
mod rule;
mod sender;
mod serving;
mod tasks;

pub use serving::{StartFault, serve_worker_input};
