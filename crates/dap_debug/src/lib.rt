//! A debug adapter for any language: what a language gives is `Language` of `debuggee`, and all else is here.
//!
//! [`serve_language`] serves a client, here on the process's own streams:
//!
//! ```
//! use byte_streams::{Reading, SystemFiles, Writing};
//! use dap_debug::serve_language;
//! use std::process::ExitCode;
//!
//! fn main(rt: HostRuntime) -> ExitCode {
//!     let files = &mut SystemFiles::new(&rt);
//!     let input = &mut Reading::new(&rt, rt.stdin());
//!     let output = &mut Writing::new(&rt, rt.stdout());
//!     match serve_language::<Mine, _, _, _, _>(&rt, rt.alloc(), files, input, output) {
//!         Ok(_) => ExitCode::SUCCESS,
//!         Err(fault) => {
//!             let _ = eprintln!(rt; "{fault:?}");
//!             ExitCode::FAILURE
//!         }
//!     }
//! }
//! ```
//!
//! [`serve_language_inbox`] serves one over an inbox of your own. The program has no thread of its own: it runs in slices, one
//! with the reply that lets it go on, and one more each time that nothing has come from the client. So `pause` stops it in
//! its own reply.
//!
//! The contract is `Debugged` in `specs/Serving.antt`: each request that the inbox gave is answered once, in order, with what
//! `RepliesTo` in `specs/Replies.antt` says, and each slice is told as `WorksOn` in `specs/Running.antt` says, by the language's
//! own steps. By `conversation_laws` each run ends once: with a `stopped`, or with `exited` and `terminated`. Over the thread of
//! `serve_language` the inbox gave what reads of the input gave that was lent, each byte once and in order
//! (`DebuggedByReader`). The text that a `launch` loads is what reading the file at its path gave, by the opener that was lent
//! (`Launches` in `specs/Loading.antt`).
//!
//! What the language means is the language's to say, by its ghost members. Where its `takes` allows any step, nothing is
//! promised of the states between two stops, or of what is printed.
#![tactic(auto)]

mod breakpoints;
mod command;
mod inspecting;
mod launching;
mod laws;
mod running;
mod serving;
mod session;
mod state;
mod telling;

pub use laws::{conversation_laws, debug_laws, shown_laws, worked_debugger, worked_requests};
pub use serving::{DebugFault, serve_language, serve_language_inbox};
