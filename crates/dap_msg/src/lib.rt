//! Messages of the Debug Adapter Protocol: contents read as requests, and answers and events
//! written as contents.
//!
//! ```
//! use dap_msg::{Body, Command, Dialect, MsgFault, Outgoing, Refusal, read, write};
//! use std::alloc::Global;
//!
//! /// Returns the content of the answer to a request, numbered `seq`, or `None` where the content is no request.
//! fn answered(alloc: Global, content: &[u8], seq: u64) -> Result<Option<Vec<u8>>, MsgFault> {
//!     let Some(request) = read(alloc, Dialect::Codes, content)? else {
//!         return Ok(None);
//!     };
//!     let result = match &request.body {
//!         Command::Threads => Ok(Body::Threads),
//!         _ => Err(Refusal::Unsupported),
//!     };
//!     let answer = Outgoing::Answer {
//!         request_seq: request.seq,
//!         command: request.body.into_name(),
//!         result,
//!     };
//!     let mut text = Vec::new(alloc);
//!     write(&answer, seq, &mut text)?;
//!     Ok(Some(text))
//! }
//! ```
//!
//! It serves a debugger of whole numbers with one thread: the capabilities, the thread `main`, the refusals and the faults
//! of a program are those of this repository's adapter. For another language it is a pattern.
//!
//! The one contract: [`read`] returns exactly the request that a content is in the client's dialect, or `None` where it
//! is none; which value a content has is said by `serde_json`'s own definition of reading. [`write`] appends exactly
//! the defined text of a message.
//!
//! Each command has its arguments in `src/requests` and the body of its answer in `src/answers.rt`, both defined in one
//! file of `specs`; `Request` in `specs` says which request a content is, and `Outgoing`
//! what the content of a message is. A further command needs a variant of [`Supported`], of
//! [`Command`] and of [`Body`], and its arguments and body; one that asks about the program where it stands
//! needs a variant of [`Question`], of [`QuestionKind`] and of [`Shown`] in place of these, and one that resumes or goes
//! back a variant of [`ResumeKind`] or [`RetreatKind`].
//!
//! [`message_laws`] is the check on these definitions: a content is one request or none (`proofs/Once`), with its
//! `seq` and `command` (`proofs/WellFormed`); what a request asks is said member by member in `Asked` of `specs`,
//! and what a message says in `Said`, in the protocol's words and without the other files but those of the questions.
#![tactic(auto)]

mod answers;
mod arguments;
mod command;
mod draft;
mod events;
mod items;
mod laws;
mod outgoing;
mod printable;
mod question;
mod reading;
mod request;
mod requests;
mod text;
mod writing;

pub use command::{Command, CommandName, Supported};
pub use items::Items;
pub use laws::message_laws;
pub use outgoing::{
    Body, BreakpointAnswer, BreakpointRefusal, EventBody, Exception, Outgoing, Refusal, Scope,
    StackFrame, StopReason, Variable,
};
pub use question::{Question, QuestionKind, Shown};
pub use reading::read;
pub use request::{Dialect, Request};
pub use requests::evaluate::EvaluateArguments;
pub use requests::initialize::InitializeArguments;
pub use requests::launch::LaunchArguments;
pub use requests::resume::{ResumeKind, RetreatKind, ThreadArguments};
pub use requests::scopes::ScopesArguments;
pub use requests::set_breakpoints::{SetBreakpointsArguments, SourceBreakpoint};
pub use requests::stack_trace::StackTraceArguments;
pub use requests::variables::VariablesArguments;
use std::alloc::AllocError;
pub use text::Text;
pub use writing::write;

/// Why a content was not read, or a message was not written.
#[derive(Clone, Copy, Debug)]
pub enum MsgFault {
    /// An allocation failed.
    NoMemory,
}

impl From<AllocError> for MsgFault {
    fn from(_: AllocError) -> MsgFault {
        MsgFault::NoMemory
    }
}
