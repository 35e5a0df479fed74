//! What holds of each session.

ghost use Rattle.dap_debug.specs.Laws.{WorkIsBalanced, RepliesAreBalanced, TextsAreKept, PiecesAreKept, TellingIsOne, FramesAreFound, ScopesAreFound, VariablesAreFound};
ghost use Rattle.dap_debug.specs.Loading.{reads_by};
ghost use Rattle.dap_debug.specs.Replies.{known_of};
ghost use Rattle.dap_debug.specs.Sums.{EachEndsOnce};
ghost use Rattle.dap_debug.specs.WorkedDebugger.{CommandsAreNamed, ModesFollow, TextsAreTold, HaltsAreTold, EntryIsTold, PauseIsTold, EndIsTold, CapabilitiesAre, AnnouncedAreServed, RulesAreRead, ShownAreNumbered, NumbersAreFound, MessagesAreRead};
ghost use Rattle.dap_debug.specs.WorkedRequests.{BreakpointIsSet, CountingIsAsked, CommandsAreChecked, ExpressionsAreEvaluated, FramesAreAsked, LineIsAsked, MistakeIsTold, PagesAreAsked, ProgramIsLoaded};

use byte_streams::Opener;
use dap_server::Polled;
use debuggee::Language;

/// Each run ends once: a request that lets the program go on, or ends one that doesn't run, owes one event that tells that
/// the program has stopped or is gone, and what was owed is told, but for what is still owed while the program runs. And
/// each byte that is printed or said is told, in order, at most 65,536 in one event, and in no other way. It does nothing: its
/// contract is the laws.
pub fn debug_laws<L: Language>()
    ensures work { WorkIsBalanced L.takes L.sees }
    ensures replies { RepliesAreBalanced (known_of L.takes L.sees L.shows) }
    ensures texts { TextsAreKept }
    ensures pieces { PiecesAreKept }
    ensures one { TellingIsOne }
{}

/// The same of a whole conversation: the ends that its events tell are those that its requests ask for, but for one that is
/// still to be told while the program runs. It does nothing: its contract is the law.
pub fn conversation_laws<L: Language, F: Opener, I: Polled<O>, O>()
    ensures { EachEndsOnce (known_of L.takes L.sees L.shows) (reads_by F.opens F.closes F.File.supply) I.gives
        I.polls }
{}

/// What is shown is found again: the identifier of a frame leads to that frame, the reference of a scope to that scope, and that of
/// what is inside a variable to its number.
/// It does nothing: its contract is the laws.
pub fn shown_laws()
    ensures frames { FramesAreFound }
    ensures scopes { ScopesAreFound }
    ensures variables { VariablesAreFound }
{}

/// Examples of commands, modes, what is told of a run, hit conditions, messages, identifiers and references, computed. It
/// does nothing: its contract is the examples.
pub fn worked_debugger()
    ensures commands { CommandsAreNamed }
    ensures modes { ModesFollow }
    ensures texts { TextsAreTold }
    ensures halts { HaltsAreTold }
    ensures entry { EntryIsTold }
    ensures pause { PauseIsTold }
    ensures end { EndIsTold }
    ensures capabilities { CapabilitiesAre }
    ensures announced { AnnouncedAreServed }
    ensures rules { RulesAreRead }
    ensures messages { MessagesAreRead }
    ensures numbered { ShownAreNumbered }
    ensures found { NumbersAreFound }
{}

/// What requests ask for, by the names of their arguments, computed from the definitions. A wrong name doesn't meet the
/// examples. It does nothing: its contract is the examples.
pub fn worked_requests()
    ensures frames { FramesAreAsked }
    ensures expressions { ExpressionsAreEvaluated }
    ensures program { ProgramIsLoaded }
    ensures breakpoint { BreakpointIsSet }
    ensures line { LineIsAsked }
    ensures counted { CountingIsAsked }
    ensures mistake { MistakeIsTold }
    ensures pages { PagesAreAsked }
    ensures checked { CommandsAreChecked }
{}
