//! How far a session has come.

ghost use Rattle.std.specs.Prelude.{◌≡◌, option_map};
ghost use Rattle.dap_debug.specs.Standings.{column_offset, line_offset, offset, program_in, standing, unused};

use debuggee::{Breakpoint, Fault, Mode};
use std::alloc::Global;

/// How far the program has come.
#[derive(Drop)]
pub enum Phase<L> {
    /// None was launched.
    NoProgram,
    /// It is loaded, and waits to be started. Whether it is to stop where it begins.
    Configuring(L, bool),
    Running(L, Mode),
    Stopped(L),
    /// It is kept, so that breakpoints asked for are answered.
    Ended(L),
}

impl<L> Phase<L> {
    /// Returns the program, if there is one.
    pub fn program(&self) -> Option<&L>
        ensures { option_map (λ program. program.now) result ≡ program_in self.now }
    {
        match self {
            Phase::NoProgram => None,
            Phase::Configuring(program, _)
            | Phase::Running(program, _)
            | Phase::Stopped(program)
            | Phase::Ended(program) => Some(program),
        }
    }
}

/// How a client counts lines and columns: from 1, or from 0.
#[derive(Clone, Copy)]
pub struct Counting {
    pub lines_start_at_1: bool,
    pub columns_start_at_1: bool,
}

impl Counting {
    /// Returns by how much the client's lines are less than those counted from 1.
    pub fn line_offset(self) -> u64
        ensures { result ≡ line_offset self }
    {
        offset(self.lines_start_at_1)
    }

    /// Returns the same of its columns.
    pub fn column_offset(self) -> u64
        ensures { result ≡ column_offset self }
    {
        offset(self.columns_start_at_1)
    }
}

/// Returns by how much numbers are less than those counted from 1.
fn offset(start_at_1: bool) -> u64
    ensures { result ≡ offset start_at_1 }
{
    if start_at_1 { 0 } else { 1 }
}

/// The program, its path, its fault, and the breakpoints that are set in it.
#[derive(Drop)]
pub struct State<L> {
    pub phase: Phase<L>,
    pub path: String,
    /// Why the step that was tried last can't be taken, if it can't.
    pub fault: Option<Fault>,
    pub breakpoints: Vec<Breakpoint>,
    /// How the client counts, as it said in `initialize`.
    pub counting: Counting,
}

impl<L> State<L> {
    /// Returns a state with no program.
    pub fn new(alloc: Global) -> State<L>
        ensures { standing result ≡ unused }
    {
        State {
            phase: Phase::NoProgram,
            path: String::new(alloc),
            fault: None,
            breakpoints: Vec::new(alloc),
            counting: Counting {
                lines_start_at_1: true,
                columns_start_at_1: true,
            },
        }
    }
}
