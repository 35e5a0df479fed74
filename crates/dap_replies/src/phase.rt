//! How far a session has come.

use crate::run::Run;
use crate::unstarted::Unstarted;
use dap_history::Launch;
use dap_msg::{InitializeArguments, Text};
use dbg_runner::ConsideredDebuggee;
use pl0_unit::Unit;
use std::sync::Arc;

/// How far a session has come. It holds the debuggee exactly in `Configuring`, `Stopped` and `Faulted`.
#[derive(Drop)]
pub enum Phase {
    /// No `initialize` has succeeded.
    Fresh,
    /// An `initialize` has succeeded, and no program is launched.
    Ready(InitializeArguments),
    /// The same as `Ready`, and a launch waits for its file.
    Launching(InitializeArguments, Launch),
    /// A program is launched, and waits for `configurationDone`.
    Configuring(Target, Unstarted),
    /// The program is running: the runner has the debuggee.
    Running(Target, Run),
    /// The program stopped.
    Stopped(Target, ConsideredDebuggee),
    /// The program stopped before a step that faults.
    Faulted(Target, ConsideredDebuggee),
    /// The program has ended.
    Ended(Target, Arc<Unit>),
}

/// What a session keeps of its launch, apart from the program.
#[derive(Drop)]
pub struct Target {
    /// How the client counts lines and columns.
    pub settings: InitializeArguments,
    /// The path of the program.
    pub path: Text,
    /// Whether the program stops before its first step.
    pub stop_on_entry: bool,
    /// How many runs were ordered, which is the number of the last.
    pub runs: u64,
    /// How many numbers that the program wrote were reported.
    pub told: u64,
}
