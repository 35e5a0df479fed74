//! The messages in the queue of an inbox.

ghost use Rattle.std.specs.Prelude.{◌≡◌};
ghost use Rattle.dap_wires.specs.Senders.{goes_on, is_quiet};

use crate::rule::Sent;
use dap_session::Event;
use dbg_runner::{Report, SliceOutcome};
use std::collections::VecDeque;

/// A message in the queue of an inbox.
#[derive(Drop)]
pub enum Arrival {
    /// An event.
    Event(Event),
    /// Quiet reports, for which a client gets no message, the oldest first.
    Quiet(VecDeque<Report>),
}

/// The reader sends every event but a report, which the runner sends.
impl Sent for Arrival {
    ghost use Rattle.dap_wires.specs.Senders.{is_by_runner};

    ghost by_second = { is_by_runner };
}

/// Whether a report is quiet: its run goes on, and it has no numbers and no logs.
#[inline(always)]
pub(crate) fn is_quiet(report: &Report) -> bool
    ensures { result ≡ is_quiet report.now }
{
    goes_on(report.summary().outcome) && report.numbers().is_empty() && report.logs().is_empty()
}

/// How many outputs a report has: numbers and logs, for each of which a client gets a message.
pub(crate) fn outputs_of(report: &Report) -> usize {
    report.numbers().len().saturating_add(report.logs().len())
}

/// Whether a run goes on after a slice with this outcome.
fn goes_on(outcome: SliceOutcome) -> bool
    ensures { result ≡ goes_on outcome }
{
    match outcome {
        SliceOutcome::More => true,
        SliceOutcome::Done
        | SliceOutcome::Due(_)
        | SliceOutcome::Held
        | SliceOutcome::Fault(_)
        | SliceOutcome::NoMemory => false,
    }
}
