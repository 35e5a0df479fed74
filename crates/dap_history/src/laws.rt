//! The laws of the history of a session.

ghost use Rattle.dap_history.specs.Laws.{HistoryIsOne, ItemsLeadToOne, EachItemLeads, NoItemLeadsNowhere, ContentsAreOfTheStream, CutsChangeNothing, EachIsAnsweredOnce, SeqCountFromOne, FramesAreReadBack, DisconnectIsLast, ClosedByItsEvent, QuitIsLast, QuitCloses, RestIsOpen, NumbersAreWritten, StopsFollowNumbers, LogsAreOfPositions, LogsFollowNumbers, StopsFollowLogs};
ghost use Rattle.dap_history.specs.ReadingLaws.{ReadingsGoOn};
ghost use Rattle.dap_history.specs.GoingBack.{EachGoesBackAsAsked, CountsBeginAnew, RetreatsAreNotHeld};
ghost use Rattle.dap_history.specs.Lines.{PlanIsOfLines, EachRunHasItsLines, EachRunCountsFrom};
ghost use Rattle.dap_history.specs.Runs.{RunsCountFromOne, EachStepOrdersOnce, EachRunIsAsAsked, GrantedRunsAreOrdered, HeldRunsGoOn, HoldOnce, WaitsAreHeld};
ghost use Rattle.dap_history.specs.Transitions.{EachStepLeads, SituationIsAfterSteps};
ghost use Rattle.dap_history.specs.Verdicts.{EachIsJudged, RefusalsChangeNothing, OthersTellNothing, AnswersComeFirst};
ghost use Rattle.dap_history.specs.Loading.{EachLaunchIsOfItsFile};
ghost use Rattle.dap_history.specs.Moves.{PositionZeroIsConsidered, PausesStop, EachStopIsAsAsked, NoStopIsPassed};
ghost use Rattle.dap_history.specs.Ends.{EachEndIsTheEnd, EachEndIsTold};
ghost use Rattle.dap_history.specs.Interleaving.{EachLoadIsOfALaunch, EachLaunchIsLoaded, EventsAreReturned};
ghost use Rattle.dap_history.specs.WorkedWords.{FramesBeginSo, SeqsAre, LimitsAre, NamesAreShort, MistakesAreNumbered, MistakesAreOrdered};
ghost use Rattle.dap_history.specs.Taken.{EventsAreTaken, EachItemEndsOrNot};
ghost use Rattle.dap_history.specs.LineAnswers.{LinesAreAnswered};
ghost use Rattle.dap_history.specs.Shown.{AnswersShowTheProgram};
ghost use Rattle.dap_history.specs.Stops.{EachRunStartsThere, EachStopIsRight, EachReportIsTold, EachReplyIsTold, QuestionsAreAnsweredThere};

use dap_frame::frame_laws;
use dap_msg::message_laws;
use dbg_plan::{going_back_laws, log_laws};
use pl0_meaning::{configuration_laws, meaning_laws};
use pl0_syntax::{editor_laws, text_laws};

/// What holds of all that a session sends, whatever events come. It does nothing: its contract is the laws.
pub fn history_laws()
    ensures one { HistoryIsOne }
    ensures one_effect { ItemsLeadToOne }
    ensures leads { EachItemLeads }
    ensures all_lead { NoItemLeadsNowhere }
    ensures contents { ContentsAreOfTheStream }
    ensures unread { RestIsOpen }
    ensures moves { EachStepLeads }
    ensures situation { SituationIsAfterSteps }
    ensures cuts { CutsChangeNothing }
    ensures answered { EachIsAnsweredOnce }
    ensures numbered { SeqCountFromOne }
    ensures read_back { FramesAreReadBack }
    ensures outputs { NumbersAreWritten }
    ensures order { StopsFollowNumbers }
    ensures logs { LogsAreOfPositions }
    ensures logs_follow { LogsFollowNumbers }
    ensures stops_follow { StopsFollowLogs }
    ensures runs { EachRunStartsThere }
    ensures back { EachGoesBackAsAsked }
    ensures anew { CountsBeginAnew }
    ensures not_held { RetreatsAreNotHeld }
    ensures stops { EachStopIsRight }
    ensures questions { QuestionsAreAnsweredThere }
    ensures last { DisconnectIsLast }
    ensures closed_by { ClosedByItsEvent }
    ensures quits_last { QuitIsLast }
    ensures quits { QuitCloses }
{
    frame_laws();
    message_laws();
    text_laws();
    editor_laws();
    meaning_laws();
    configuration_laws();
    log_laws();
}

/// What holds of the runs that a session orders, and of what it reports of them, whatever events come. It does nothing:
/// its contract is the laws.
pub fn run_laws()
    ensures counted { RunsCountFromOne }
    ensures once { EachStepOrdersOnce }
    ensures asked { EachRunIsAsAsked }
    ensures ordered { GrantedRunsAreOrdered }
    ensures onward { HeldRunsGoOn }
    ensures plan { PlanIsOfLines }
    ensures lines { EachRunHasItsLines }
    ensures counts { EachRunCountsFrom }
    ensures held { HoldOnce }
    ensures waits { WaitsAreHeld }
    ensures told { EachReportIsTold }
    ensures replies { EachReplyIsTold }
    ensures over { EachEndIsTheEnd }
    ensures over_told { EachEndIsTold }
{
    text_laws();
    meaning_laws();
    configuration_laws();
}

/// What each command is answered with and brings about, whatever events come. It does nothing: its contract is the laws.
pub fn command_laws()
    ensures judged { EachIsJudged }
    ensures refused { RefusalsChangeNothing }
    ensures others { OthersTellNothing }
    ensures answers_first { AnswersComeFirst }
    ensures launched { EachLaunchIsOfItsFile }
    ensures loads { EachLoadIsOfALaunch }
    ensures loaded { EachLaunchIsLoaded }
    ensures returned { EventsAreReturned }
    ensures first { PositionZeroIsConsidered }
    ensures paused { PausesStop }
    ensures as_asked { EachStopIsAsAsked }
    ensures none_passed { NoStopIsPassed }
    ensures taken { EventsAreTaken }
    ensures ends { EachItemEndsOrNot }
    ensures lines { LinesAreAnswered }
    ensures shown { AnswersShowTheProgram }
{
    text_laws();
    meaning_laws();
    configuration_laws();
    going_back_laws();
    history_laws();
}

/// How each reading of a history changes with one more step. It does nothing: its contract is the law.
pub fn reading_laws()
    ensures { ReadingsGoOn }
{}

/// How a frame begins, which numbers a client's messages may have, the limits, and the numbers of mistakes, computed from
/// the definitions. It does nothing: its contract is the examples.
pub fn worked_words()
    ensures frames { FramesBeginSo }
    ensures seqs { SeqsAre }
    ensures limits { LimitsAre }
    ensures names { NamesAreShort }
    ensures mistakes { MistakesAreNumbered }
    ensures order { MistakesAreOrdered }
{}
