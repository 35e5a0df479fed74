//! Pages that show how a program is compiled and run: the table of its names, its tree, and a step's instructions with
//! their operands.
//!
//! [`operate`], [`led`], [`put_instruction`], [`put_first`] and [`put_onward`] do and show a step as `specs/Interpreter` says.
//! What [`name_table`] and [`program_tree`] write is tested, and not defined: a definition would be the code once more. The
//! address of a procedure is read from the code, where the code of a block ends with the first return from its own
//! statement on.
#![tactic(auto)]

mod columns;
mod interpreter;
mod laws;
mod names;
mod standing;
mod tree;

pub use columns::{put_left, put_left_column, put_right, put_right_column};
pub use interpreter::{led, operate, put_first, put_instruction, put_onward};
pub use laws::worked_pages;
pub use names::name_table;
pub use tree::program_tree;
