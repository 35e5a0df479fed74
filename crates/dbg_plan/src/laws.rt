//! The laws of logs, and worked examples.

ghost use Rattle.dbg_plan.specs.Logs.{EachIsReplaced, LogsAreSaid, ValuesAreArithmetic};
ghost use Rattle.dbg_plan.specs.WorkedReadings.{RulesRead, OthersAreNoRules, ConditionsRead, NamesAreOfTheBlock, MessagesRead, BracesClose, BracesAreNotDoubled, MessagesAreShort};
ghost use Rattle.dbg_plan.specs.WorkedRuns.{VariablesBeginAtZero, FramesAreNumbered, NextStepsStand, NamesAreFound, QuotientsAre, OperationsAre, ConditionsAre, RunsEnd};
ghost use Rattle.dbg_plan.specs.WorkedPlans.{ConditionsStop, OthersDont, ConditionsReadTheNewest, RulesCount, ConditionsCount, CountsBegin, MessagesDontStop, ModesStop, DepthsAre, LogsAre, TextsAre, LogsCount, LogsReadTheNewest, LinesHaveSteps, RetreatsLead, TrailsKeep, FloorsAre};

use pl0_syntax::editor_laws;

/// The text of a log is its message with each expression replaced by its value, if its values are those of the message's
/// expressions. So the texts of the logs of a position are what the position says. Each value is a number or a fault of
/// arithmetic. It does nothing: its contract is the laws.
pub fn log_laws()
    ensures replaced { EachIsReplaced }
    ensures said { LogsAreSaid }
    ensures arithmetic { ValuesAreArithmetic }
{}

/// What breakpoints do in the runs of two texts, computed from the definitions: where they stop the program, how their
/// arrivals count, what they log, to which step a line belongs, where going back leads, and which checkpoints are kept. A
/// wrong definition of one of these words doesn't meet them. It does nothing: its contract is the examples.
pub fn worked_plans()
    ensures conditions { ConditionsStop }
    ensures others { OthersDont }
    ensures newest { ConditionsReadTheNewest }
    ensures rules { RulesCount }
    ensures counted { ConditionsCount }
    ensures begins { CountsBegin }
    ensures messages { MessagesDontStop }
    ensures modes { ModesStop }
    ensures depths { DepthsAre }
    ensures logs { LogsAre }
    ensures texts { TextsAre }
    ensures log_counts { LogsCount }
    ensures log_newest { LogsReadTheNewest }
    ensures lines { LinesHaveSteps }
    ensures back { RetreatsLead }
    ensures checkpoints { TrailsKeep }
    ensures floors { FloorsAre }
{}

/// What the runs of these two texts are: frames and their variables, next steps, what names mean there, arithmetic, and
/// the end. It does nothing: its contract is the examples.
pub fn worked_runs()
    ensures zero { VariablesBeginAtZero }
    ensures frames { FramesAreNumbered }
    ensures next_steps { NextStepsStand }
    ensures names { NamesAreFound }
    ensures quotients { QuotientsAre }
    ensures operations { OperationsAre }
    ensures truths { ConditionsAre }
    ensures ends { RunsEnd }
{}

/// What some texts of an editor read as, and which don't: hit conditions, a condition, and messages with braces. It does
/// nothing: its contract is the examples.
pub fn worked_readings()
    ensures rules { RulesRead }
    ensures no_rules { OthersAreNoRules }
    ensures conditions { ConditionsRead }
    ensures names { NamesAreOfTheBlock }
    ensures messages { MessagesRead }
    ensures braces { BracesClose }
    ensures doubled { BracesAreNotDoubled }
    ensures short { MessagesAreShort }
{
    editor_laws();
}
