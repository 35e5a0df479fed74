//! Tests of frames and messages, over the public calls of their two crates alone: what no contract says, as the texts that
//! editors know, and that each call can succeed at the largest sizes. It is never installed.
//!
//! `examples` has the examples of the crates' documentation, `frames` tests the decoder, `requests` tests reading and
//! `messages` the largest answer. `text` makes long texts for them.
#![tactic(auto)]

#[cfg(test)]
mod examples;
#[cfg(test)]
mod frames;
#[cfg(test)]
mod messages;
#[cfg(test)]
mod requests;
#[cfg(test)]
mod text;
