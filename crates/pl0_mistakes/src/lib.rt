//! Mistakes of a PL/0 text and faults of its run, in words.
//!
//! Each is told in one line of the form that compilers have, to which editors jump:
//!
//! ```
//! use pl0_mistakes::mistake_line;
//! use pl0_tree::{FaultKind, Place};
//!
//! let text = b"var x;\nbegin x = 1 end.";
//! let place = Place { line: 2, column: 9 };
//! let line = mistake_line(rt.alloc(), "a.pl0", text, FaultKind::Expected, place).expect(&rt, "memory");
//! assert_eq!(&rt; line.as_slice(), b"a.pl0:2:9: error: `=` can't stand here; `:=` assigns, and `=` compares\n".as_slice());
//! ```
//!
//! The contracts are those of [`mistake_line`], [`mistake_lines`], [`fault_line`] and [`warning_lines`]: they return the
//! lines that `specs/Lines` and `specs/Warnings` define, with the sentences of `specs/Sentences`. What is told behind a
//! mistake of a name is a fault of the names too; which are told, and in which order, is tested. What is said beside a
//! token that can't stand where it does is a hint. `src/hints.rt` is a table of rows, of which the first that fits counts; `src/rows.rt`
//! reads one, by the tokens around the place (`src/scene.rt`). It is defined only that a hint stays in the line.
#![tactic(auto)]

mod cases;
mod facts;
mod found;
mod further;
mod hint;
mod hints;
mod lines;
mod names;
mod rows;
mod scene;
mod sentences;
mod warnings;
mod words;

pub use further::mistake_lines;
pub use lines::{fault_line, mistake_line};
pub use warnings::warning_lines;
