//! Tests of whole sessions, from the bytes that a client sends to the bytes and orders that leave, over ports in
//! memory. It is never installed.
//!
//! `rows` has the sessions, as transcripts. `transcript` says how to read one, `verbs` which lines stand for others
//! that many sessions share, `expected` which contents its lines stand for. `client` has the events, `files` the files,
//! `reports` the reports that no run gives; `test_kit` has the other ports.
#![tactic(auto)]

#[cfg(test)]
mod client;
#[cfg(test)]
mod expected;
#[cfg(test)]
mod files;
#[cfg(test)]
mod reports;
#[cfg(test)]
mod rows;
#[cfg(test)]
mod text;
#[cfg(test)]
mod transcript;
#[cfg(test)]
mod verbs;
