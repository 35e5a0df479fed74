//! What the crates of tests and `speed` share: ports in memory, the runner in one thread, and debuggees of texts. Nothing here is
//! installed, and nothing panics: a test that must end where its input does wraps a port of its own.
//!
//! - [`Runner`] obeys orders and reports slices in the thread of its caller, one report for each call.
//! - [`run_session`] drives a session over ports in memory: events from a source of the caller's ([`Events`]), files from a
//!   loader ([`Files`] has some in memory), and room for some frames and orders. Orders go to the runner of [`Shared`],
//!   which the source of events has too; it takes the reports from there. The [`Outcome`] has each frame and order with
//!   the number of events given before it.
//! - [`OneRun`], [`Tray`], [`Last`] and [`Open`] are the ports of `dbg_runner::work`: orders for one run, room for some
//!   reports, the last report alone, and a gate that is open.
//! - [`framed`] makes a frame of a content.
//! - [`machine_of`] and [`debuggee_of`] begin a program from its text, [`breakpoints_at`] and [`put_in`] give a debuggee
//!   breakpoints.
//!
//! Transcripts stay where they are read, since reading one panics where it is badly written: the short notation in
//! `session_tests`, and the exact contents, with what each read waits for, in `adapter_tests`.
#![tactic(auto)]

mod debuggees;
mod framing;
mod runner;
mod runner_ports;
mod session;
mod session_ports;
mod strict_ports;

pub use debuggees::{Asked, breakpoints_at, debuggee_of, machine_of, put_in};
pub use framing::framed;
pub use runner::Runner;
pub use runner_ports::{Last, OneRun, Open, Tray};
pub use session::{Outcome, Room, run_session};
pub use session_ports::{Events, Files, Noted, Shared};
pub use strict_ports::{StrictInbox, StrictLoader, drive_strictly};
