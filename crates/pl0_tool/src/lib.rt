//! Running, tracing, checking, listing and drawing PL/0 programs from a command line, and cutting texts into tokens.
//!
//! The main contract is that of [`execute`], which does what the arguments ask for: it reads each file, does the task
//! with its text, and writes what is to be told, with how that ended. It cites that of [`perform`], which does a task
//! with a text: where the text is no program's, it tells the first mistake. A run writes the numbers that the program
//! writes by its meaning, each on a line of its own, up to its end or to the step that faults, or a prefix of them,
//! where the output fails ([`run_machine`]), and at the end of each slice none are kept back ([`run_slice`]); of a
//! fault the newest frames are told. [`trace`] tells positions of a run in order: of each, [`next_row`] returns the
//! frames, the step and the number that the meaning has there, and the machine, if it is drawn, as the meaning's frames
//! lie in its cells, and the step's instructions with their operands. How a row stands in the table of a trace, and what
//! stands in a listing, a tree, a table of names or of tokens, is tested, and not defined. [`run`] is all of the program
//! `pl0` but its `main`, which hands it the arguments, the files and the streams.
#![tactic(auto)]

mod answering;
mod arguments;
mod blocks;
mod commands;
mod drawing;
mod fault;
mod instructions;
mod lines;
mod listing;
mod output;
mod program;
mod report;
mod running;
mod table;
mod text;
mod tokens;
mod tracing;

pub use arguments::Task;
pub use commands::perform;
pub use drawing::{Drawing, FrameHead};
pub use output::WatchedOutput;
pub use program::{execute, run};
pub use report::{Ending, Report};
pub use running::{RunEnd, run_machine, run_slice};
pub use text::load;
pub use tracing::{FrameRow, Row, TraceEnd, View, next_row, trace};
