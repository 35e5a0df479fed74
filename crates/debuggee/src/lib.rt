//! A program under a debugger, of any language: what the language gives, and a run that stops where it is first due.
//!
//! ```
//! use debuggee::{Debuggee, Mode, Output, run};
//! use std::alloc::{AllocError, Global};
//!
//! /// Runs a program to its end, or up to a step that fails, and returns what it prints.
//! fn printed<D: Debuggee>(alloc: Global, program: &mut D) -> Result<Vec<Output>, AllocError> {
//!     let mut told = Vec::new(alloc);
//!     for _ in 0..u64::MAX {
//!         match run(alloc, program, &mut Vec::new(alloc), Mode::Continue, &mut told)? {
//!             None => {}
//!             Some(_) => break,
//!         }
//!     }
//!     Ok(told)
//! }
//! ```
//!
//! [`run`] promises (`Runs` in `specs/Runs.antt`), of each language and by the language's own steps: it takes one step at
//! least and 1,000 at most, and halts at the first state in which a breakpoint stops the program (its condition holds or has
//! no value, and its rule accepts the arrival) or that the mode asks for; or at the program's end; or at its fault. What the
//! steps print and the messages of breakpoints say is told in order, all of it, and nothing else. `run_laws` joins the slices
//! of a run.
//!
//! What the steps mean is the language's to say: its ghost member `takes` has no default. A language whose `takes` allows
//! any step has no promise of where a run leads, or of what is printed.
#![tactic(auto)]

mod arriving;
mod breakpoint;
mod debuggee;
mod halt;
mod language;
mod laws;
mod marks;
mod mode;
mod running;

pub use arriving::arrive;
pub use breakpoint::{Breakpoint, Part, Rule};
pub use debuggee::{Debuggee, Evaluated, Fault, Step};
pub use halt::{Halt, Output};
pub use language::{Frame, Language, Location, Page, Variable};
pub use laws::{run_laws, worked_debuggee};
pub use mode::Mode;
pub use running::run;
