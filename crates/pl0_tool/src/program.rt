//! The program from its arguments to its exit status.

ghost use Rattle.std.specs.Prelude.{◌≡◌, ◌≢◌, Result, IfOk, MatchResult, map};
ghost use Rattle.std.specs.Process.{exit_status};
ghost use Rattle.byte_streams.specs.Streams.{output as output_at};
ghost use Rattle.byte_streams.specs.declared.files.FileKinds.TheVariants.{All};
ghost use Rattle.pl0_tool.specs.declared.report.Ending.{Ending};
ghost use Rattle.pl0_tool.specs.Executing.{Comes, Executes, ExecutesGiven, LacksMemory, Runs, given_of, origins};
ghost use Rattle.pl0_tool.specs.Reporting.{HasTold, status_of};

use crate::answering::answer;
use crate::arguments::parse_arguments;
use crate::output::WatchedOutput;
use crate::report::{Ending, Report};
use byte_streams::{
    Opener, Sink, Source, WriteFailed, Writing, borrow_texts, collect_arguments, say, write_all,
};
use clap::Error;
use clap::error::ErrorKind;
use std::alloc::{AllocError, Global};
use std::env::Args;
use std::io::{self, IsTerminal, Write};
use std::process::ExitCode;
use std::rt::Clock;
use std::sync::Wait;

/// How many bytes of numbers or rows are written together, where the output is no terminal.
const ROOM: usize = 65_536;

/// Does what the arguments ask for, as [`execute`] does, and returns the exit code: 0 where all went well, 1 where a
/// run faulted, 2 where a text has a mistake, 3 where a file can't be read, the output fails or memory runs out, and 4
/// where the arguments aren't understood. `given` is what `env::args` gave, the program's name first. An output that
/// fails is told on `errors`, unless nobody reads it any more.
pub fn run<R, F, I, O, E>(
    rt: &R,
    given: io::Result<Args>,
    files: &mut F,
    input: &mut I,
    output: &mut Writing<'_, R, WatchedOutput<O>>,
    errors: &mut E,
) -> ExitCode
where
    R: Wait + Clock + AllocGlobal,
    F: Opener,
    I: Source,
    O: Write + IsTerminal + Drop,
    E: Sink,
    ensures { (ending : Ending) × (exit_status result ≡ status_of ending)
        × Runs (F.opens All) F.closes F.File.supply (given_of given) ending
        output.new.inner.is_closed
        (origins files.old (I.supply input.old))
        (origins files.new (I.supply input.new))
        (output_at (O.contents output.old.taken.first.inner) output.old.taken.bytes output.old.failures)
        (output_at (O.contents output.new.taken.first.inner) output.new.taken.bytes output.new.failures)
        (E.output errors.old) (E.output errors.new) }
{
    let room = if output.inner().is_terminal() {
        0
    } else {
        ROOM
    };
    let ending = execute_given(rt, given, files, input, output, errors, room);
    close(rt, ending, output.inner().is_closed(), errors);
    ExitCode::from(ending.status())
}

/// Says at the end that the output failed, if it did, unless nobody reads it any more.
fn close<E: Sink>(rt: &impl Wait, ending: Ending, is_unread: bool, errors: &mut E)
    ensures { ClosesWith ending is_unread (E.output errors.old) (E.output errors.new) }
{
    if ending == Ending::Unwritten && !is_unread {
        say(rt, errors, &["pl0: cannot write the output\n"]);
    }
}

/// Does what the arguments ask for, as [`execute`] does. Where an error was given in their place, it says so on
/// `errors`, and does nothing else.
fn execute_given<R, F, I, O, E>(
    rt: &R,
    given: io::Result<Args>,
    files: &mut F,
    input: &mut I,
    output: &mut O,
    errors: &mut E,
    room: usize,
) -> Ending
where
    R: Wait + AllocGlobal,
    F: Opener,
    I: Source,
    O: Sink,
    E: Sink,
    ensures { ExecutesGiven (F.opens All) F.closes F.File.supply (given_of given) result
        (origins files.old (I.supply input.old))
        (origins files.new (I.supply input.new))
        (O.output output.old) (O.output output.new)
        (E.output errors.old) (E.output errors.new) }
{
    match given {
        Ok(given) => {
            let Ok(strings) = collect_arguments(rt.alloc(), given) else {
                return no_memory(rt, errors);
            };
            let Ok(arguments) = borrow_texts(rt.alloc(), strings.as_slice()) else {
                return no_memory(rt, errors);
            };
            execute(rt, arguments.as_slice(), files, input, output, errors, room)
        }
        Err(error) if error.kind() == io::ErrorKind::OutOfMemory => no_memory(rt, errors),
        Err(_) => not_text(rt, errors),
    }
}

/// Does what the arguments ask for, the program's name first, and returns how that ended. At most `room` bytes of a
/// run's numbers, and of the rows of a trace, are kept until they are written together; what is told besides is written
/// at the end. A file is read as far as a program's text may reach, and one byte more; the name `-` stands for the
/// input. Where memory runs out, only this is told.
pub fn execute<R, F, I, O, E>(
    rt: &R,
    arguments: &[&str],
    files: &mut F,
    input: &mut I,
    output: &mut O,
    errors: &mut E,
    room: usize,
) -> Ending
where
    R: Wait + AllocGlobal,
    F: Opener,
    I: Source,
    O: Sink,
    E: Sink,
    ensures { Executes (F.opens All) F.closes F.File.supply
        (map (λ argument. argument.now) arguments.entry.now) result
        (origins files.old (I.supply input.old))
        (origins files.new (I.supply input.new))
        (O.output output.old) (O.output output.new)
        (E.output errors.old) (E.output errors.new) }
{
    match attempt(rt, arguments, files, input, output, room) {
        Ok(report) => tell(rt, &report, output, errors),
        Err(AllocError) => no_memory(rt, errors),
    }
}

ghost use Rattle.pl0_tool.specs.declared.report.Ending.TheVariants.{Failure, NotUnderstood};
ghost use Rattle.pl0_tool.specs.Executing.{ClosesWith, memory_line, not_text_line};
ghost use Rattle.byte_streams.specs.Streams.{WritesOrFails};

/// Says that there is no memory.
fn no_memory<E: Sink>(rt: &impl Wait, errors: &mut E) -> Ending
    ensures ending { result ≡ Failure }
    ensures said { WritesOrFails memory_line (E.output errors.old) (E.output errors.new) }
{
    say(rt, errors, &["pl0: no memory\n"]);
    Ending::Failure
}

/// Says that an argument is not text.
fn not_text<E: Sink>(rt: &impl Wait, errors: &mut E) -> Ending
    ensures ending { result ≡ NotUnderstood }
    ensures said { WritesOrFails not_text_line (E.output errors.old) (E.output errors.new) }
{
    say(rt, errors, &["pl0: an argument is not text\n"]);
    Ending::NotUnderstood
}

/// Writes a report, and returns how the command ended.
fn tell<O: Sink, E: Sink>(rt: &impl Wait, report: &Report, output: &mut O, errors: &mut E) -> Ending
    ensures { HasTold report.now result
        (O.output output.old) (O.output output.new)
        (E.output errors.old) (E.output errors.new) }
{
    let written = write_all(rt, output, report.output.as_slice());
    let _ = write_all(rt, errors, report.errors.as_slice());
    match written {
        Ok(()) => report.ending,
        Err(WriteFailed) => Ending::Unwritten,
    }
}

/// Does what the arguments ask for, the program's name first, and returns what is to be told of it.
fn attempt<R, F, I, O>(
    rt: &R,
    arguments: &[&str],
    files: &mut F,
    input: &mut I,
    output: &mut O,
    room: usize,
) -> Result<Report, AllocError>
where
    R: Wait + AllocGlobal,
    F: Opener,
    I: Source,
    O: Sink,
    ensures { MatchResult result
        (λ report. Comes (F.opens All) F.closes F.File.supply
        (map (λ argument. argument.now) arguments.entry.now) report
        (origins files.old (I.supply input.old))
        (origins files.new (I.supply input.new))
        (O.output output.old) (O.output output.new))
        (λ _. LacksMemory (F.opens All) F.closes F.File.supply
        (map (λ argument. argument.now) arguments.entry.now)
        (origins files.old (I.supply input.old))
        (origins files.new (I.supply input.new))
        (O.output output.old) (O.output output.new)) }
{
    match parse_arguments(rt.alloc(), arguments) {
        Ok(request) => answer(rt, &request, files, input, output, room),
        Err(error) => unasked(rt.alloc(), &error),
    }
}

ghost use Rattle.clap.specs.Values.{kind_of};
ghost use Rattle.clap.specs.declared.error.kind.ErrorKind.TheVariants.{OutOfMemory};
ghost use Rattle.pl0_tool.specs.Executing.{IsToldFor};

/// Returns the help, the version, or why the arguments aren't understood.
fn unasked(alloc: Global, error: &Error) -> Result<Report, AllocError>
    ensures told { IfOk result (IsToldFor (kind_of error.now)) }
    ensures memory { IfOk result (λ _. kind_of error.now ≢ OutOfMemory) }
{
    let text = error.to_string(alloc)?.into_bytes();
    let nothing = Vec::new(alloc);
    match error.kind() {
        ErrorKind::DisplayHelp | ErrorKind::DisplayVersion => {
            Ok(Report::new(text, nothing, Ending::Success))
        }
        ErrorKind::OutOfMemory => Err(AllocError),
        _ => Ok(Report::new(nothing, text, Ending::NotUnderstood)),
    }
}
