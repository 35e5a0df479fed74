//! What a session does about a command, by its phase: the table of reactions.

ghost use Rattle.std.specs.Prelude.{◌≡◌, false, nat_eq, IfOk, IsOkAnd};
ghost use Rattle.dap_msg.specs.Laws.{IsWithin};
ghost use Rattle.dap_msg.specs.declared.command.Command.TheVariants as command_is;
ghost use Rattle.dap_msg.specs.declared.outgoing.Refusal.TheVariants as refusal_is;
ghost use Rattle.dap_replies.specs.declared.choosing.Reaction.TheVariants as reaction_is;
ghost use Rattle.dap_replies.specs.Choosing.{Chooses, MakesNothing};
ghost use Rattle.dap_replies.specs.Replied.{IsConfigured, NothingIsShown, NothingMoves, TakesNoMemory};

use crate::breakpoints::set_breakpoints;
use crate::phase::Phase;
use dap_inspection::ask;
use dap_msg::{
    Body, BreakpointAnswer, Command, InitializeArguments, Items, Question, Refusal, ResumeKind,
    RetreatKind, ThreadArguments,
};
use dbg_plan::Plan;
use std::alloc::{AllocError, Global};

/// The id of the one thread.
const MAIN_THREAD: u64 = 1;

/// What a session does about a command.
#[derive(Drop)]
pub(crate) enum Reaction {
    /// It refuses the command.
    Refuse(Refusal),
    /// It answers the command, and no more.
    Answer(Body),
    /// It answers lines, and sets the breakpoints of a plan.
    SetBreakpoints(Items<BreakpointAnswer>, Plan),
    /// It begins with these settings.
    Begin(InitializeArguments),
    /// It starts the launched program.
    Start,
    /// It resumes the program.
    Resume(ResumeKind),
    /// It ends the program, which stands before a fault.
    End(ResumeKind),
    /// It goes back.
    Retreat(RetreatKind),
    /// It interrupts the run.
    Interrupt,
    /// It closes.
    Close,
}

/// Chooses the reaction to a command by its row of the table.
///
/// # Errors
///
/// An allocation failed.
pub(crate) fn choose(
    alloc: Global,
    phase: &Phase,
    command: &Command,
) -> Result<Reaction, AllocError>
    requires { IsWithin command.now }
    ensures chooses { IfOk result (Chooses command.now phase.now) }
    ensures enough { TakesNoMemory phase.now command.now → IsOkAnd result MakesNothing }
{
    match command {
        Command::Initialize(asked) => Ok(initialize(phase, *asked)),
        Command::Launch(_) => Ok(Reaction::Refuse(Refusal::WrongPhase)),
        Command::SetBreakpoints(asked) => set_breakpoints(alloc, phase, asked),
        Command::ConfigurationDone => Ok(configuration_done(phase)),
        Command::Threads => Ok(threads(phase)),
        Command::Resume(kind, asked) => Ok(resume(phase, *kind, *asked)),
        Command::Retreat(kind, asked) => Ok(retreat(phase, *kind, *asked)),
        Command::Pause(asked) => Ok(pause(phase, *asked)),
        Command::Inspect(question) => inspect(alloc, phase, question),
        Command::Disconnect => Ok(Reaction::Close),
        Command::Unsupported(_) => Ok(Reaction::Refuse(Refusal::Unsupported)),
        Command::BadArguments(_) => Ok(Reaction::Refuse(Refusal::BadArguments)),
    }
}

/// Chooses the reaction to `initialize`: a session is initialized once.
fn initialize(phase: &Phase, asked: InitializeArguments) -> Reaction
    ensures chooses { Chooses (command_is.Initialize asked) phase.now result }
    ensures enough { MakesNothing result }
{
    match phase {
        Phase::Fresh => Reaction::Begin(asked),
        _ => Reaction::Refuse(Refusal::WrongPhase),
    }
}

/// Chooses the reaction to `configurationDone`: the program starts.
fn configuration_done(phase: &Phase) -> Reaction
    ensures chooses { Chooses command_is.ConfigurationDone phase.now result }
    ensures enough { IsConfigured phase.now → MakesNothing result }
{
    match phase {
        Phase::Configuring(_, _) => Reaction::Start,
        _ => Reaction::Refuse(Refusal::WrongPhase),
    }
}

/// Chooses the reaction to `threads`: the one thread is there as soon as the session is initialized.
fn threads(phase: &Phase) -> Reaction
    ensures chooses { Chooses command_is.Threads phase.now result }
    ensures enough { MakesNothing result }
{
    match phase {
        Phase::Fresh => Reaction::Refuse(Refusal::WrongPhase),
        _ => Reaction::Answer(Body::Threads),
    }
}

/// Chooses the reaction where the program is to be resumed: it goes on from a stop, and ends before a fault.
fn resume(phase: &Phase, kind: ResumeKind, asked: ThreadArguments) -> Reaction
    ensures chooses { Chooses (command_is.Resume kind asked) phase.now result }
    ensures enough { NothingMoves phase.now asked → MakesNothing result }
{
    match phase {
        Phase::Running(_, _) => Reaction::Refuse(Refusal::NotStopped),
        Phase::Stopped(_, _) => for_thread(asked, Reaction::Resume(kind)),
        Phase::Faulted(_, _) => for_thread(asked, Reaction::End(kind)),
        _ => Reaction::Refuse(Refusal::WrongPhase),
    }
}

/// Chooses the reaction where the program is to go back: it does from a stop and from a fault.
fn retreat(phase: &Phase, kind: RetreatKind, asked: ThreadArguments) -> Reaction
    ensures chooses { Chooses (command_is.Retreat kind asked) phase.now result }
    ensures enough { NothingMoves phase.now asked → MakesNothing result }
{
    match phase {
        Phase::Running(_, _) => Reaction::Refuse(Refusal::NotStopped),
        Phase::Stopped(_, _) => for_thread(asked, Reaction::Retreat(kind)),
        Phase::Faulted(_, _) => for_thread(asked, Reaction::Retreat(kind)),
        _ => Reaction::Refuse(Refusal::WrongPhase),
    }
}

/// Chooses the reaction to `pause`: a run is interrupted, and a program that stands stays there.
fn pause(phase: &Phase, asked: ThreadArguments) -> Reaction
    ensures chooses { Chooses (command_is.Pause asked) phase.now result }
    ensures enough { MakesNothing result }
{
    match phase {
        Phase::Running(_, _) => for_thread(asked, Reaction::Interrupt),
        Phase::Stopped(_, _) => for_thread(asked, Reaction::Answer(Body::None)),
        Phase::Faulted(_, _) => for_thread(asked, Reaction::Answer(Body::None)),
        _ => Reaction::Refuse(Refusal::WrongPhase),
    }
}

/// Chooses the reaction to a question: it is answered or refused where the program stands.
fn inspect(alloc: Global, phase: &Phase, question: &Question) -> Result<Reaction, AllocError>
    ensures chooses { IfOk result (Chooses (command_is.Inspect question.now) phase.now) }
    ensures enough { NothingIsShown phase.now question.now → IsOkAnd result MakesNothing }
{
    match phase {
        Phase::Fresh
        | Phase::Ready(_)
        | Phase::Launching(_, _)
        | Phase::Configuring(_, _)
        | Phase::Ended(_, _) => Ok(Reaction::Refuse(Refusal::WrongPhase)),
        Phase::Running(_, _) => Ok(Reaction::Refuse(Refusal::NotStopped)),
        Phase::Stopped(target, debuggee) | Phase::Faulted(target, debuggee) => {
            let debuggee = debuggee.debuggee();
            match ask(alloc, debuggee, &target.path, target.settings, question)? {
                Ok(shown) => Ok(Reaction::Answer(Body::Shown(shown))),
                Err(why) => Ok(Reaction::Refuse(why)),
            }
        }
    }
}

/// Returns the reaction if the one thread is asked for, and otherwise a refusal.
fn for_thread(asked: ThreadArguments, reaction: Reaction) -> Reaction
    ensures known { asked.thread_id ≡ 1 → result ≡ reaction }
    ensures other { nat_eq asked.thread_id 1 ≡ false → result ≡ reaction_is.Refuse refusal_is.UnknownThread }
{
    if asked.thread_id == MAIN_THREAD {
        reaction
    } else {
        Reaction::Refuse(Refusal::UnknownThread)
    }
}
