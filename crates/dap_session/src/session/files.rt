//! How a session takes the file of a launch.

ghost use Rattle.std.specs.Prelude.{◌≡◌, ℕ, Some, Vec, option_map, IfOk, IfErr};
ghost use Rattle.std.specs.declared.alloc.Global.{Global};
ghost use Rattle.dap_history.specs.declared.fault.SessionFault.TheVariants as faults;
ghost use Rattle.dap_session.specs.Taking.{file_of};
ghost use Rattle.dap_session.specs.Ports.{plain_file};

use super::Session;
use crate::ports::{Orders, Out};
use dap_history::{Launch, LoadFault, SessionFault, reading_laws};
use dap_msg::{CommandName, InitializeArguments, Outgoing, Supported};
use dap_replies::{Phase, Reply};
use std::mem;

impl Session {
    ghost use Rattle.std.specs.Prelude.{◌≡◌, None, Err, IfSome, IfNone, OnOk, option_map};
    ghost use Rattle.dap_msg.specs.declared.request.Dialect.{Dialect};
    ghost use Rattle.dap_history.specs.declared.fault.SessionFault.TheVariants.{NoMemory};
    ghost use Rattle.dap_session.specs.Taking.{LacksMemory};
    ghost use Rattle.dap_history.specs.History.{Loaded, History, next_seq};
    ghost use Rattle.dap_history.specs.Events.{File, Rest, IsTaking};
    ghost use Rattle.dap_replies.specs.declared.phase.Phase.TheVariants as phase_is;
    ghost use Rattle.dap_replies.specs.Phases.{IsPhase, launch_of};
    ghost use Rattle.dap_session.specs.Ports.{ports};
    ghost use Rattle.dap_session.specs.State.{GoesOn};
    ghost use Rattle.dap_session.specs.Handling.{IsWell, NeededNoMemory, HandlesItem, Handles};
    ghost use Rattle.dap_session.specs.Ports.{plain_file};

    /// Takes a file. One that no launch waits for is ignored.
    pub(super) fn take_file<O: Out, D: Orders>(
        &mut self,
        file: Result<Vec<u8>, LoadFault>,
        out: &mut O,
        orders: &mut D,
    ) -> Result<(), SessionFault>
        requires { self.old.ending ≡ None }
        ensures comes { (dialect : Dialect) (past : History) (rest : Rest) → IsTaking past →
            GoesOn dialect self.old past rest → Handles dialect result past rest (File (plain_file file)) self.new
            (ports (O.seen out.old) (D.seen orders.old))
            (ports (O.seen out.new) (D.seen orders.new)) }
        ensures no_memory { LacksMemory (File (plain_file file)) (launch_of self.old.phase) → result ≡ Err NoMemory }
        ensures enough { launch_of self.old.phase ≡ None → NeededNoMemory result self.new }
        ensures well { OnOk result (IsWell self.new.ending) }
        ensures passed { O.keeps_none out.old → OnOk result (O.keeps_none out.new) }
        ensures out { O.origin out.new ≡ O.origin out.old }
        ensures orders { D.origin orders.new ≡ D.origin orders.old }
    {
        let Some((settings, launch)) = self.take_launch() else {
            return Ok(());
        };
        let file = readable(file)?;
        self.load(settings, launch, file, out, orders)?;
        self.take_contents(out, orders)
    }

    /// Takes the launch that waits for its file out of the phase, if there is one.
    fn take_launch(&mut self) -> Option<(InitializeArguments, Launch)>
        ensures found { IfSome result (λ taken. self.old.phase ≡ phase_is.Launching taken.0 taken.1) }
        ensures none { IfNone result (launch_of self.old.phase ≡ None) }
        ensures same { IfNone result (self.new ≡ self.old) }
        ensures rest { self.new ≡ record self.old { phase = self.new.phase } }
    {
        match mem::replace(&mut self.phase, Phase::Fresh) {
            Phase::Launching(settings, launch) => Some((settings, launch)),
            phase => {
                self.phase = phase;
                None
            }
        }
    }

    /// Launches the program in a file. `file` is `None` where the file can't be read.
    fn load<O: Out, D: Orders>(
        &mut self,
        settings: InitializeArguments,
        launch: Launch,
        file: Option<Vec<u8>>,
        out: &mut O,
        orders: &mut D,
    ) -> Result<(), SessionFault>
        requires { self.old.ending ≡ None }
        ensures comes { (past : History) → IsTaking past → IsPhase (phase_is.Launching settings launch) past →
            self.old.next_seq ≡ next_seq past →
            HandlesItem result past (Loaded launch (option_map (λ bytes. bytes.items) file)) self.new
            (ports (O.seen out.old) (D.seen orders.old))
            (ports (O.seen out.new) (D.seen orders.new)) }
        ensures stream { self.new.stream ≡ self.old.stream }
        ensures ending { self.new.ending ≡ None }
        ensures passed { O.keeps_none out.old → OnOk result (O.keeps_none out.new) }
        ensures out { O.origin out.new ≡ O.origin out.old }
        ensures orders { D.origin orders.new ≡ D.origin orders.old }
    {
        reading_laws();
        let request_seq = launch.seq;
        let Ok(Reply { result, effect }) = dap_replies::launch(self.alloc, settings, launch, file)
        else {
            return Err(SessionFault::NoMemory);
        };
        let answer = Outgoing::Answer {
            request_seq,
            command: CommandName::Supported(Supported::Launch),
            result,
        };
        self.send(Some(answer), effect, out, orders)
    }
}

/// Returns the file's bytes, or `None` where the file can't be read. The only error is `NoMemory`.
fn readable(file: Result<Vec<u8>, LoadFault>) -> Result<Option<Vec<u8>>, SessionFault>
    ensures ok { IfOk result (λ bytes. file_of (plain_file file)
        ≡ Some (option_map (λ (v : Vec ℕ Global). v.items) bytes)) }
    ensures err { IfErr result (λ fault. fault ≡ faults.NoMemory) }
{
    match file {
        Ok(bytes) => Ok(Some(bytes)),
        Err(LoadFault::CannotRead) => Ok(None),
        Err(LoadFault::NoMemory) => Err(SessionFault::NoMemory),
    }
}
