//! Tests of the language: what each stage makes of a text, from its tokens to the end of its run. Nothing here is installed.
//!
//! Most are tables: `table` says how a row is written, and `shown` what is shown of its text. `tokens`, `faults`,
//! `editor`, `steps`, `code` and `runs` have the rows, a stage each; `machines` says what a machine shows. `examples` has
//! the example calls that stand at the heads of libraries.
#![tactic(auto)]

#[cfg(test)]
mod code;
#[cfg(test)]
mod editor;
#[cfg(test)]
mod examples;
#[cfg(test)]
mod faults;
#[cfg(test)]
mod machines;
#[cfg(test)]
mod runs;
#[cfg(test)]
mod shown;
#[cfg(test)]
mod steps;
#[cfg(test)]
mod table;
#[cfg(test)]
mod tokens;
