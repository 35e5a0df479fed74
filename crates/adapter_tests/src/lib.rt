//! Tests of whole sessions and of the adapter, over public calls alone: what no contract says, as the frames and texts that
//! editors know. It is never installed.
//!
//! `rows` has the worked rows, as transcripts, and `programs` those that debug a program; `driving` runs them through a
//! session over the ports of `test_kit`, and `serving` through the adapter over streams in memory, which stand in
//! `fakes`. In `held` streams and runs wait for each other, in `refusals` reads and writes fail. `listings`, `loading`,
//! `command_line`, `running` and `opening` try what else the program does.
#![tactic(auto)]

#[cfg(test)]
mod command_line;
#[cfg(test)]
mod driving;
#[cfg(test)]
mod fakes;
#[cfg(test)]
mod held;
#[cfg(test)]
mod listings;
#[cfg(test)]
mod loading;
#[cfg(test)]
mod opening;
#[cfg(test)]
mod programs;
#[cfg(test)]
mod refusals;
#[cfg(test)]
mod rows;
#[cfg(test)]
mod running;
#[cfg(test)]
mod serving;
#[cfg(test)]
mod transcript;
