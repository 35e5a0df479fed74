//! PL/0 programs for tests to run. Nothing here is installed.
//!
//! `worked` has them, and `compiling` compiles any of them.
#![tactic(auto)]

mod compiling;
mod worked;

pub use compiling::compiled;
pub use worked::{LONG_LOOP, LOOP, NESTED, POWER, RECURSIVE};
