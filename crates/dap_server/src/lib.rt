//! A debug adapter's conversation: requests read, each answered once, its events after it, all numbered.
//!
//! ```
//! use byte_streams::{Reading, Writing};
//! use dap_server::{Reply, Responder, serve};
//! use serde_json::{Value, json};
//! use std::alloc::{AllocError, Global};
//! use std::process::ExitCode;
//!
//! #[derive(Drop)]
//! struct Mine;
//!
//! impl Responder for Mine {
//!     fn respond(
//!         &mut self,
//!         alloc: Global,
//!         command: &str,
//!         _arguments: Option<&Value>,
//!     ) -> Result<Reply, AllocError> {
//!         match command {
//!             "initialize" => Ok(Reply::with_body(alloc, json!(in alloc; {})?)),
//!             "disconnect" => Ok(Reply::done(alloc)),
//!             _ => Reply::refused(alloc, "unsupported"),
//!         }
//!     }
//! }
//!
//! fn main(rt: HostRuntime) -> ExitCode {
//!     let mut input = Reading::new(&rt, rt.stdin());
//!     let mut output = Writing::new(&rt, rt.stdout());
//!     let ended = serve(&rt, rt.alloc(), &mut Mine, &mut input, &mut output);
//!     ExitCode::from(if ended.is_ok() { 0 } else { 1 })
//! }
//! ```
//!
//! The contract is that of [`serve`] (`Served` in `specs/Serving.antt`): what was read is the frames of some contents
//! and a rest; each content that is a request was answered once, under its own `seq` and command, with what the
//! [`Responder`] replied, its events after it, and no other content was; the messages are numbered 1, 2, 3; and what was
//! written is their frames. Each [`Ending`] and each [`ServeFault`] says what the rest is, and what of it is unanswered.
//! What a reply says is the adapter's own promise, its ghost member `replies`.
//!
//! [`serve_inbox`] takes items of an [`Inbox`] in place of bytes, among them events that no request asked for
//! (`ServedInbox` in `specs/ServingInbox.antt`).
//!
//! [`serve_worker`] lets a [`Worker`] work while it is busy and nothing has come, as an adapter does whose program runs
//! (`ServedWorker` in `specs/Working.antt`).
#![tactic(auto)]

mod ending;
mod inbox;
mod laws;
mod messages;
mod pace;
mod polled;
mod reading;
mod reply;
mod responder;
mod serving;
mod worker;
mod working;

pub use ending::{Ending, ServeFault};
pub use inbox::{Inbox, Item};
pub use laws::{message_laws, request_laws, worked_messages};
pub use polled::Polled;
pub use reply::{Event, Reply};
pub use responder::Responder;
pub use serving::{serve, serve_inbox};
pub use worker::Worker;
pub use working::serve_worker;
