//! A stack language of one instruction a line, with a meaning, to be debugged by `dap_debug`.
//!
//! `specs/Language.antt` is the meaning, and reads as a manual: what each instruction does to the line, the stack, the calls
//! and the variables, and when it fails. Each instruction has a function in `state.rt`, which is proved to do what `done`
//! says of it. So a run of `debuggee` goes by these steps, and prints what they print.
//!
//! `specs/Text.antt` is the manual's first page: which instruction each line of a text is. `parse` gives the program that
//! the lines are, or the first line that is no instruction.
//!
//! [`Machine`] is a program, and its state. `worked_texts`, `worked_steps` and `worked_views` have examples of the words.
#![tactic(auto)]

mod language;
mod laws;
mod machine;
mod parsing;
mod program;
mod state;

pub use laws::{language_laws, worked_steps, worked_texts, worked_views};
pub use machine::Machine;
