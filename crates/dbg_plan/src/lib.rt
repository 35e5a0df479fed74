//! Breakpoints, the plan that they make, and a program that is debugged under a plan.
//!
//! A program is stopped at a breakpoint with a condition:
//!
//! ```
//! use dbg_plan::{Debuggee, Logs, Mode, Reason, SourceBreakpoint, resolve};
//!
//! let alloc = rt.alloc();
//! let unit = compiled(alloc, "var x;\nwhile x < 6 do\nx := x + 1.").expect(&rt, "a lawful text");
//! let asked = SourceBreakpoint {
//!     line: 3,
//!     condition: "x = 0",
//!     hit_condition: "",
//!     log_message: "",
//! };
//! let (plan, _) = resolve(alloc, &unit, [asked].as_slice()).expect(&rt, "memory");
//! let mut debuggee = Debuggee::new(alloc, Machine::new(alloc, unit).expect(&rt, "memory"));
//! debuggee.set_plan(Arc::new(alloc, plan).expect(&rt, "memory"));
//! assert!(&rt; debuggee.machine().depth() > 0);
//! let mut logs = Logs::new(alloc).expect(&rt, "memory");
//! assert_eq!(&rt; debuggee.consider(Mode::Continue, &mut logs), None);
//! let _ = debuggee.step();
//! assert!(&rt; debuggee.machine().depth() > 0);
//! assert_eq!(&rt; debuggee.consider(Mode::Continue, &mut logs), Some(Reason::Breakpoint));
//! ```
//!
//! The one contract is that of [`Debuggee::consider`]: whether the position where the machine stands is due, defined by
//! a count of all earlier arrivals (`specs/Due`), which no field keeps, and what it logs (`specs/Logs`). A plan is a
//! table by step. Contracts see the list of breakpoints in the order asked, as data without addresses
//! (`specs/Breakpoints`, `Plans`), by which [`same_plan`] compares two plans. A second table, by the address of an
//! instruction, says where steps with breakpoints begin, so that a position at any other step costs one look-up. A
//! third has for each step what the machine counts there: of each breakpoint what has to hold for an arrival, and how
//! many arrivals are passed. A run asks and counts these in its loop. A breakpoint with a message logs it, and doesn't
//! stop the program; `specs/Messages` says which parts a message has. The hard lemma is `tally` of `proofs/Tally`: one
//! walk along a step's part of the table takes the counts of the whole list from one position to the next, and finds
//! the breakpoints that are met.
#![tactic(auto)]

mod binding;
mod breakpoint;
mod comparison;
mod counting;
mod debuggee;
mod evaluation;
mod going_back;
mod laws;
mod logging;
mod logs;
mod message;
mod messages;
mod mode;
mod plan;
mod resolving;
mod rule;
mod running;
mod same;
mod table;
mod trail;

pub use breakpoint::{BREAKPOINT_LIMIT, BoundCondition, Breakpoint, Rule};
pub use debuggee::{Advance, Debuggee};
pub use evaluation::EvalFault;
pub use going_back::going_back_laws;
pub use laws::{log_laws, worked_plans, worked_readings, worked_runs};
pub use logging::log_text;
pub use logs::{Log, Logs};
pub use message::{BoundExpression, EXPRESSION_LIMIT, LogMessage, Part};
pub use mode::{Mode, Reason};
pub use plan::{Plan, same_plan, share_plan};
pub use resolving::{Resolution, SourceBreakpoint, resolve};
