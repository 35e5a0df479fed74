//! What an adapter tells of a debuggee with one thread: events, and the bodies of responses, member by member.
//!
//! ```
//! use dap_bodies::{Variable, stopped, variables};
//! use dap_server::{Event, Reply};
//! use std::alloc::{AllocError, Global};
//!
//! fn step(alloc: Global) -> Result<Reply, AllocError> {
//!     let mut reply = Reply::done(alloc);
//!     reply.push(stopped(alloc, "step", None)?)?;
//!     Ok(reply)
//! }
//!
//! fn show(alloc: Global, shown: Vec<Variable>) -> Result<Reply, AllocError> {
//!     Ok(Reply::with_body(alloc, variables(alloc, shown)?))
//! }
//! ```
//!
//! And the members of a request's arguments by name: `whole(arguments, "line")`, `text(member(arguments, "source"), "path")`.
//!
//! Each contract says which event or body it is, in full: `specs/Events.antt` and `specs/Bodies.antt` have the members and
//! their values, as the Debug Adapter Protocol names them, and `worked_bodies` an example of each. Lines and columns are as
//! the adapter counts them. An `Err` means that an allocation failed.
#![tactic(auto)]

mod arguments;
mod cutting;
mod events;
mod laws;
mod placing;
mod showing;
mod values;

pub use arguments::{list, member, text, truth, truth_or, whole};
pub use cutting::{shown_text, split_text};
pub use events::{THREAD, exited, initialized, output, stopped, terminated};
pub use laws::worked_bodies;
pub use placing::{Breakpoint, breakpoints};
pub use showing::{
    Scope, StackFrame, Variable, evaluated, exception_info, scopes, stack_trace, threads, variables,
};
