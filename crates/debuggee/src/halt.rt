//! What comes of a run.

use crate::debuggee::Fault;

/// Why a run halts.
#[derive(Drop)]
pub enum Halt {
    /// A breakpoint stops the program.
    AtBreakpoint,
    /// The mode asks for it.
    AtStep,
    /// The program has ended, with this status.
    AtEnd(u64),
    /// A step can't be taken, and why.
    AtFault(Box<Fault>),
}

/// What is told of a run.
#[derive(Drop)]
pub enum Output {
    /// The program prints it.
    Printed(String),
    /// A breakpoint's message says it.
    Logged(String),
}
