//! The laws of phases and of reports.

ghost use Rattle.dap_replies.specs.Laws.{SkippingKeepsThePhase, SilentReportsAreQuiet};

use dap_history::reading_laws;

/// A content that is no request leaves the phase as it is. It does nothing: its contract is the law.
pub fn phase_laws()
    ensures { SkippingKeepsThePhase }
{
    reading_laws();
}

/// A report after which the run goes on, and that tells neither a number nor a log, is quiet. It does nothing: its contract
/// is the law.
pub fn quiet_laws()
    ensures { SilentReportsAreQuiet }
{}
