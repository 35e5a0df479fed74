//! Tests of breakpoints and of debuggees: how breakpoints are answered (`plans`), what positions log (`logpoints`), and which
//! steps are run again where a debuggee goes back (`going_back`). Nothing here is installed.
//!
//! `steps` takes a debuggee's steps, `examples` has the example calls that stand at the head of the library.
#![tactic(auto)]

#[cfg(test)]
mod examples;
#[cfg(test)]
mod going_back;
#[cfg(test)]
mod logpoints;
#[cfg(test)]
mod plans;
#[cfg(test)]
mod steps;
