//! A session of the Debug Adapter Protocol: events in, frames and orders out.
//!
//! A session is driven over its ports until something closes it:
//!
//! ```
//! use dap_session::{Closed, Dialect, drive};
//!
//! let dialect = Dialect::Codes;
//! match drive(&rt, rt.alloc(), dialect, &mut inbox, &mut loader, &mut out, &mut orders) {
//!     Ok(Closed::Disconnected) => println!(rt; "the client asked for it")?,
//!     Ok(Closed::InputEnded | Closed::ReadFailed) => println!(rt; "no more comes from the client")?,
//!     Err(fault) => println!(rt; "the session gave up: {fault:?}")?,
//! }
//! ```
//!
//! The one contract is that of [`drive`]: for every interleaving of the events of an inbox and the files of a loader, the
//! frames put are those of the messages that the events cause, numbered from 1, the orders pushed are those that the events
//! cause, and the result says what closed the session. [`Session::take`] has the same contract for one event. What events
//! cause, and the laws of all that is sent, are in `dap_history`, and what a session does at one item is in `dap_replies`.
//!
//! No history is stored: a session's fields are readings of the steps so far (`specs/State`), and a contract speaks of
//! every list of events that the session represents.
#![tactic(auto)]

mod driving;
mod laws;
mod load_log;
mod ports;
mod session;
mod want;

pub use dap_history::{Closed, Ending, LoadFault, SessionFault};
pub use dap_msg::Dialect;
pub use dbg_runner::{Order, Report};
pub use driving::drive;
pub use laws::{serving_laws, session_laws};
pub use load_log::LoadLog;
pub use ports::{Event, GuardedLoader, Inbox, Loader, OrderFault, Orders, Out};
pub use session::Session;
pub use want::Want;
