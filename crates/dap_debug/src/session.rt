//! A session: what is replied to each request, and the program's work between them.

ghost use Rattle.std.specs.Prelude.{◌≡◌, IfOk, option_map};
ghost use Rattle.serde_json.specs.View.{view};
ghost use Rattle.dap_server.specs.Messages.{plain_reply};
ghost use Rattle.dap_debug.specs.Standings.{standing, unused};
ghost use Rattle.dap_debug.specs.Loading.{reads_by, situation};
ghost use Rattle.dap_debug.specs.Replies.{Answers, capabilities, counting_asked, known_of};
ghost use Rattle.dap_debug.specs.Serving.{FilesFor};

use crate::command::{Command, checked, command_of, refusal_text};
use crate::state::{Counting, Phase, State};
use byte_streams::Opener;
use dap_bodies::{threads, truth_or};
use dap_server::{Event, Reply, Responder, Worker};
use debuggee::Language;
use serde_json::{Value, json};
use std::alloc::{AllocError, Global};
use std::sync::Wait;

/// What the program's one thread is called.
const THREAD_NAME: &str = "main";

/// A session.
#[derive(Drop)]
pub struct Session<'a, R, F, L> {
    rt: &'a R,
    files: &'a mut F,
    state: State<L>,
}

impl<R: Wait, F: Opener, L: Language> Responder for Session<'_, R, F, L> {
    ghost use Rattle.dap_debug.specs.Standings.{standing};
    ghost use Rattle.dap_debug.specs.Loading.{reads_by, situation};
    ghost use Rattle.dap_debug.specs.Replies.{known_of};
    ghost use Rattle.dap_debug.specs.Serving.{replied_by};

    ghost replies = { λ before command arguments reply after. replied_by (known_of L.takes L.sees L.shows)
        (reads_by F.opens F.closes F.File.supply) (situation (standing before.state) before.files.now) command
        arguments reply (situation (standing after.state) after.files.now) };

    ghost origin = { λ session. session.files.ghost_name };

    fn respond(
        &mut self,
        alloc: Global,
        command: &str,
        arguments: Option<&Value>,
    ) -> Result<Reply, AllocError> {
        self.reply_to(alloc, checked(command_of(command), arguments), arguments)
    }
}

impl<R: Wait, F: Opener, L: Language> Worker for Session<'_, R, F, L> {
    ghost use Rattle.dap_debug.specs.Standings.{standing, is_running};
    ghost use Rattle.dap_debug.specs.Loading.{situation};
    ghost use Rattle.dap_debug.specs.Replies.{known_of};
    ghost use Rattle.dap_debug.specs.Serving.{worked_by};

    ghost works = { λ before events after. worked_by (known_of L.takes L.sees L.shows)
        (situation (standing before.state) before.files.now) events
        (situation (standing after.state) after.files.now) };

    ghost busy = { λ s. is_running s.state.phase };

    fn is_busy(&self) -> bool {
        matches!(self.state.phase, Phase::Running(_, _))
    }

    fn work(&mut self, alloc: Global) -> Result<Vec<Event>, AllocError> {
        self.state.run_on(alloc)
    }
}

impl<'a, R: Wait, F: Opener, L: Language> Session<'a, R, F, L> {
    /// Returns a session with no program, which reads files by this opener.
    pub fn new(rt: &'a R, alloc: Global, files: &'a mut F) -> Session<'a, R, F, L>
        ensures unused { standing result.state ≡ unused }
        ensures same_files { result.files.ghost_name ≡ files.entry.ghost_name }
        ensures files { result.files.now ≡ files.old }
    {
        Session {
            rt,
            files,
            state: State::new(alloc),
        }
    }

    /// Returns the opener.
    pub fn into_files(self) -> &'a mut F
        ensures same_files { result.ghost_name ≡ self.entry.files.ghost_name }
        ensures files { result.now ≡ self.entry.files.now }
    {
        self.files
    }

    /// Returns what is replied to a command that isn't refused for its arguments.
    fn reply_to(
        &mut self,
        alloc: Global,
        command: Command,
        arguments: Option<&Value>,
    ) -> Result<Reply, AllocError>
        ensures origin { self.new.files.ghost_name ≡ self.old.files.ghost_name }
        ensures replied { IfOk result (λ reply. Answers (known_of L.takes L.sees L.shows) command
            (option_map (λ v. view v.now) arguments.entry) (standing self.old.state) (plain_reply reply)
            (standing self.new.state)) }
        ensures files { IfOk result (λ reply. FilesFor (known_of L.takes L.sees L.shows)
            (reads_by F.opens F.closes F.File.supply) command (option_map (λ v. view v.now) arguments.entry)
            (situation (standing self.old.state) self.old.files.now) (plain_reply reply)
            (situation (standing self.new.state) self.new.files.now)) }
    {
        match command {
            Command::Initialize => {
                self.state.counting = counting_asked(arguments);
                Ok(Reply::with_body(alloc, capabilities(alloc)?))
            }
            Command::Launch => self.state.launch(self.rt, alloc, self.files, arguments),
            Command::SetBreakpoints => self.state.set_breakpoints(alloc, arguments),
            Command::ConfigurationDone => self.state.start(alloc),
            Command::Threads => Ok(Reply::with_body(alloc, threads(alloc, THREAD_NAME)?)),
            Command::Resume(resume) => self.state.resume(alloc, resume),
            Command::Pause => self.state.pause(alloc),
            Command::Terminate => self.state.terminate(alloc),
            Command::Inspect(question) => self.state.inspect(alloc, question, arguments),
            Command::ExceptionInfo => self.state.explain(alloc),
            Command::Disconnect => Ok(Reply::done(alloc)),
            Command::Refused(why) => Reply::refused(alloc, refusal_text(why)),
        }
    }
}

/// Returns how the client counts, as its `initialize` says.
fn counting_asked(arguments: Option<&Value>) -> Counting
    ensures { result ≡ counting_asked (option_map (λ v. view v.now) arguments.entry) }
{
    Counting {
        lines_start_at_1: truth_or(arguments, "linesStartAt1", true),
        columns_start_at_1: truth_or(arguments, "columnsStartAt1", true),
    }
}

/// Returns what the adapter can do.
fn capabilities(alloc: Global) -> Result<Value, AllocError>
    ensures { IfOk result (λ body. view body ≡ capabilities) }
{
    json!(in alloc; {
        "supportsConditionalBreakpoints": true,
        "supportsConfigurationDoneRequest": true,
        "supportsEvaluateForHovers": true,
        "supportsExceptionInfoRequest": true,
        "supportsHitConditionalBreakpoints": true,
        "supportsLogPoints": true,
        "supportsTerminateRequest": true
    })
}
