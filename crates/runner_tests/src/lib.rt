//! Tests of runs: where their slices end and how (`slices`), how they go back (`retreats`), and what a runner makes of orders
//! (`runner`). Nothing here is installed.
//!
//! `begun` has the debuggees that a run begins with; `test_kit` has the ports of a runner.
#![tactic(auto)]

#[cfg(test)]
mod begun;
#[cfg(test)]
mod retreats;
#[cfg(test)]
mod runner;
#[cfg(test)]
mod slices;
