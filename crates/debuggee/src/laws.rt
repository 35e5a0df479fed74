//! What holds of runs in every language, and worked examples.

ghost use Rattle.debuggee.specs.Laws.{RunsJoin};
ghost use Rattle.debuggee.specs.WorkedRuns.{ConditionsStop, RulesAccept, ArrivalsCount, ModesAsk, BreakpointsComeFirst, MessagesSay, RunStops, RunsEnd};

use crate::debuggee::Debuggee;

/// A run that didn't halt, and one that goes on from there, are one run. It does nothing: its contract is the law.
pub fn run_laws<D: Debuggee>()
    ensures join { RunsJoin D.takes D.sees }
{}

/// Where breakpoints and modes stop a program of six states, what breakpoints count and say, and four runs, computed from
/// the definitions. A wrong definition of one of these words doesn't meet them. It does nothing: its contract is the
/// examples.
pub fn worked_debuggee()
    ensures conditions { ConditionsStop }
    ensures rules { RulesAccept }
    ensures counted { ArrivalsCount }
    ensures modes { ModesAsk }
    ensures first { BreakpointsComeFirst }
    ensures messages { MessagesSay }
    ensures run { RunStops }
    ensures ends { RunsEnd }
{}
