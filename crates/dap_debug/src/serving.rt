//! Serving a client.

ghost use Rattle.std.specs.Prelude.{◌≡◌};
ghost use Rattle.dap_server.specs.ServingInbox.{OutputFailures};
ghost use Rattle.dap_debug.specs.Replies.{known_of};
ghost use Rattle.dap_debug.specs.Loading.{reads_by};
ghost use Rattle.dap_debug.specs.Serving.{Debugged, DebuggedByReader, OwesNothing, OwesNothingIdle};

use crate::session::Session;
use byte_streams::{Opener, Sink, Source};
use dap_reader::{StartFault, serve_worker_input};
use dap_server::{Ending, Polled, ServeFault, serve_worker};
use debuggee::Language;
use std::alloc::Global;
use std::sync::Wait;
use std::thread::Threads;

/// Why serving a language failed.
#[derive(Clone, Copy, Debug)]
pub enum DebugFault {
    /// The thread that reads isn't started, and nothing is written.
    Start(StartFault),
    /// A client was served, and then this fault came.
    Serve(ServeFault),
}

/// Serves a client that debugs programs of a language, whose files the opener opens. A thread of its own reads the input, and
/// is joined: after the answer to `disconnect` it ends when its next read returns. What was read then changes nothing.
///
/// # Errors
///
/// `Start`, as [`serve_worker_input`], and `Serve`, as [`serve_worker`].
pub fn serve_language<L, R, F, I, O>(
    rt: &R,
    alloc: Global,
    files: &mut F,
    input: &mut I,
    output: &mut O,
) -> Result<Ending, DebugFault>
where
    L: Language,
    R: Threads + Wait + Copy + Drop + Send,
    F: Opener,
    I: Source + Send,
    O: Sink,
    ensures { DebuggedByReader (known_of L.takes L.sees L.shows) (reads_by F.opens F.closes F.File.supply)
        files.old files.new (I.supply input.old) (I.supply input.new) (O.output output.old) (O.output output.new)
        result }
{
    let mut session = Session::<R, F, L>::new(rt, alloc, files);
    let served = serve_worker_input(rt, alloc, &mut session, input, output);
    end_loan(session.into_files());
    match served {
        Ok(Ok(ending)) => Ok(ending),
        Ok(Err(fault)) => Err(DebugFault::Serve(fault)),
        Err(fault) => Err(DebugFault::Start(fault)),
    }
}

/// Serves a client that debugs programs of a language, whose files the opener opens, over an inbox that gives what the
/// client sends.
///
/// # Errors
///
/// As [`serve_worker`].
pub fn serve_language_inbox<L, R, F, I, O>(
    rt: &R,
    alloc: Global,
    files: &mut F,
    inbox: &mut I,
    output: &mut O,
) -> Result<Ending, ServeFault>
where
    L: Language,
    R: Wait,
    F: Opener,
    I: Polled<O>,
    O: Sink,
    // An item may be waited for wherever nothing is owed and no program runs, and looked for wherever nothing is owed. So it
    // is neither waited nor looked for elsewhere, whether the session ends or not.
    requires waits { (i : I) (o : O) → OwesNothingIdle (known_of L.takes L.sees L.shows)
        (reads_by F.opens F.closes F.File.supply) I.gives I.polls files.old inbox.old i
        (O.output output.old).written (O.output o).written → I.may_wait i o }
    requires looks { (i : I) (o : O) → OwesNothing (known_of L.takes L.sees L.shows)
        (reads_by F.opens F.closes F.File.supply) I.gives I.polls files.old inbox.old i
        (O.output output.old).written (O.output o).written → I.may_look i o }
    ensures served { Debugged (known_of L.takes L.sees L.shows) (reads_by F.opens F.closes F.File.supply)
        I.gives I.polls files.old files.new inbox.old inbox.new (O.output output.old).written
        (O.output output.new).written result }
    ensures failures { OutputFailures result (O.output output.old).failures (O.output output.new).failures }
{
    let mut session = Session::<R, F, L>::new(rt, alloc, files);
    let ended = serve_worker(rt, alloc, &mut session, inbox, output);
    end_loan(session.into_files());
    ended
}

/// Ends the loan of a value, which stays as it is.
fn end_loan<T>(value: &mut T)
    ensures { value.new ≡ value.old }
{}
