//! The program from its arguments to its end.

ghost use Rattle.std.specs.Prelude.{◌≡◌, Result, IfErr, map, string_bytes};
ghost use Rattle.std.specs.Process.{exit_status};
ghost use Rattle.std.specs.Vec.Iter.{into_iter_items};
ghost use Rattle.adapter.specs.declared.exit_reason.ExitReason.{ExitReason};
ghost use Rattle.adapter.specs.declared.checking.CheckFault.{CheckFault};
ghost use Rattle.adapter.specs.Arguments.{IsParsed, kinds_for};
ghost use Rattle.adapter.specs.Checking.{IsChecked};
ghost use Rattle.adapter.specs.ExitReasons.{reason_of_check, status_of};
ghost use Rattle.adapter.specs.Running.{EndsServing, Reports, Executes, ExecutesOnFiles, Runs, EndsHelping, given_of};
ghost use Rattle.adapter.specs.Serving.{streams};

use crate::arguments::{ArgumentsFault, HELP, Invocation, parse_arguments};
use crate::checking::{CheckFault, check_keeping};
use crate::exit_reason::{
    ExitReason, end_of_arguments, end_of_check, end_of_reading, end_of_serve,
};
use crate::files::FileLoader;
use crate::gates::OpenGate;
use crate::reporting::{EndReporter, note_mistake, note_unread, report};
use crate::rights::{Drives, Works};
use crate::serving::{end_loan, serve};
use byte_streams::{FileKinds, Opener, Sink, WriteFailed, borrow_texts, collect_arguments};
use dap_session::{Dialect, Loader};
use dap_wires::{Reads, Writes};
use std::env::Args;
use std::io;
use std::process::ExitCode;
use std::sync::Wait;
use std::thread::Threads;

/// Does what the arguments ask for, as [`run`] does, and returns the exit code. A `main` is one call of it, with what
/// `env::args` gave, the program's name first, the files of the system and the standard streams; `rt` and `rights` are
/// both the host's handle there.
pub fn run_process<T, R, F, I, O, E>(
    rt: &T,
    rights: &R,
    dialect: Dialect,
    given: io::Result<Args>,
    files: &mut F,
    input: &mut I,
    output: &mut O,
    errors: &mut E,
) -> ExitCode
where
    T: Threads + Wait + Eprint + AllocGlobal + Copy + Drop + Send,
    R: Reads<I> + Writes<O> + Drives + Works + Copy + Drop + Send,
    F: Opener,
    I: Send,
    O: Send,
    E: Sink,
    ensures { (reason : ExitReason) × (exit_status result ≡ status_of reason) × Runs F.opens F.closes F.File.supply
        dialect (given_of given) reason files.old files.new
        (streams (R.supply input.old) (R.output output.old)) (streams (R.supply input.new) (R.output output.new))
        (E.output errors.old) (E.output errors.new) }
{
    ExitCode::from(run(rt, rights, dialect, given, files, input, output, errors).status())
}

/// Does what the arguments ask for, as [`execute`] does, with the files that are opened, and returns how that ended:
/// `launch` gets regular files alone, and `--check` also what may block, such as a named pipe. Where an error was given
/// in place of the arguments, it says so on `errors`, and does nothing else.
pub fn run<T, R, F, I, O, E>(
    rt: &T,
    rights: &R,
    dialect: Dialect,
    given: io::Result<Args>,
    files: &mut F,
    input: &mut I,
    output: &mut O,
    errors: &mut E,
) -> ExitReason
where
    T: Threads + Wait + Eprint + AllocGlobal + Copy + Drop + Send,
    R: Reads<I> + Writes<O> + Drives + Works + Copy + Drop + Send,
    F: Opener,
    I: Send,
    O: Send,
    E: Sink,
    ensures { Runs F.opens F.closes F.File.supply dialect (given_of given) result files.old files.new
        (streams (R.supply input.old) (R.output output.old)) (streams (R.supply input.new) (R.output output.new))
        (E.output errors.old) (E.output errors.new) }
{
    match given {
        Ok(given) => run_given(rt, rights, dialect, given, files, input, output, errors),
        Err(error) => report(rt, &[], end_of_reading(&error), errors),
    }
}

/// Does what the arguments ask for, as [`run`] does.
fn run_given<T, R, F, I, O, E>(
    rt: &T,
    rights: &R,
    dialect: Dialect,
    given: Args,
    files: &mut F,
    input: &mut I,
    output: &mut O,
    errors: &mut E,
) -> ExitReason
where
    T: Threads + Wait + Eprint + AllocGlobal + Copy + Drop + Send,
    R: Reads<I> + Writes<O> + Drives + Works + Copy + Drop + Send,
    F: Opener,
    I: Send,
    O: Send,
    E: Sink,
    ensures { ExecutesOnFiles F.opens F.closes F.File.supply
        dialect (map string_bytes (into_iter_items given)) result files.old files.new
        (streams (R.supply input.old) (R.output output.old)) (streams (R.supply input.new) (R.output output.new))
        (E.output errors.old) (E.output errors.new) }
{
    let Ok(given) = collect_arguments(rt.alloc(), given) else {
        return report(rt, &[], ExitReason::NoMemory, errors);
    };
    let Ok(arguments) = borrow_texts(rt.alloc(), given.as_slice()) else {
        return report(rt, &[], ExitReason::NoMemory, errors);
    };
    let asked = parse_arguments(rt.alloc(), arguments.as_slice());
    let mut loader = FileLoader::new(rt, rt.alloc(), files, kinds_for(&asked));
    let reason = carry_out(
        rt,
        rights,
        dialect,
        arguments.as_slice(),
        asked,
        &mut loader,
        input,
        output,
        errors,
    );
    end_loan(loader.into_files());
    reason
}

/// Returns the kinds of files that are opened for what was asked.
fn kinds_for(asked: &Result<Invocation<'_>, ArgumentsFault>) -> FileKinds
    ensures { result ≡ kinds_for asked.now }
{
    match asked {
        Ok(Invocation::Check(_)) => FileKinds::All,
        Ok(Invocation::Serve) | Err(_) => FileKinds::Regular,
    }
}

/// Does what the arguments ask for, the program's name first, and returns how that ended. A client that is served
/// speaks `dialect`. `errors` gets nothing at status 0, the usage at status 4, and else the last line, which is written as
/// soon as the reason is known: where a client was served, before the last read of its input returns. Where `errors`
/// fails, nothing else changes.
pub fn execute<T, R, L, I, O, E>(
    rt: &T,
    rights: &R,
    dialect: Dialect,
    arguments: &[&str],
    loader: &mut L,
    input: &mut I,
    output: &mut O,
    errors: &mut E,
) -> ExitReason
where
    T: Threads + Wait + Eprint + AllocGlobal + Copy + Drop + Send,
    R: Reads<I> + Writes<O> + Drives + Works + Copy + Drop + Send,
    L: Loader,
    I: Send,
    O: Send,
    E: Sink,
    ensures executes { Executes dialect (map (λ argument. argument.now) arguments.entry.now) result
        (L.loaded loader.old) (L.loaded loader.new)
        (streams (R.supply input.old) (R.output output.old)) (streams (R.supply input.new) (R.output output.new))
        (E.output errors.old) (E.output errors.new) }
    ensures loader { L.origin loader.new ≡ L.origin loader.old }
{
    let asked = parse_arguments(rt.alloc(), arguments);
    carry_out(
        rt, rights, dialect, arguments, asked, loader, input, output, errors,
    )
}

/// Does what these arguments ask for, parsed as `asked`, as [`execute`] does.
fn carry_out<T, R, L, I, O, E>(
    rt: &T,
    rights: &R,
    dialect: Dialect,
    arguments: &[&str],
    asked: Result<Invocation<'_>, ArgumentsFault>,
    loader: &mut L,
    input: &mut I,
    output: &mut O,
    errors: &mut E,
) -> ExitReason
where
    T: Threads + Wait + Eprint + AllocGlobal + Copy + Drop + Send,
    R: Reads<I> + Writes<O> + Drives + Works + Copy + Drop + Send,
    L: Loader,
    I: Send,
    O: Send,
    E: Sink,
    requires { IsParsed (map (λ argument. argument.now) arguments.now) asked }
    ensures executes { Executes dialect (map (λ argument. argument.now) arguments.entry.now) result
        (L.loaded loader.old) (L.loaded loader.new)
        (streams (R.supply input.old) (R.output output.old)) (streams (R.supply input.new) (R.output output.new))
        (E.output errors.old) (E.output errors.new) }
    ensures loader { L.origin loader.new ≡ L.origin loader.old }
    ensures idle { IfErr asked.entry (λ _. L.loaded loader.new ≡ L.loaded loader.old) }
{
    let reason = match asked {
        Ok(Invocation::Serve) => return serve_client(
            rt, rights, dialect, loader, input, output, errors,
        ),
        Ok(Invocation::Check(file)) => check_file(rt, rights, file, loader, output),
        Err(ArgumentsFault::Help) => show_help(rights, output),
        Err(fault) => end_of_arguments(fault),
    };
    report(rt, arguments, reason, errors)
}

/// Serves a client that speaks `dialect`, reports how that ended, and returns it.
fn serve_client<T, R, L, I, O, E>(
    rt: &T,
    rights: &R,
    dialect: Dialect,
    loader: &mut L,
    input: &mut I,
    output: &mut O,
    errors: &mut E,
) -> ExitReason
where
    T: Threads + Wait + Eprint + AllocGlobal + Copy + Drop + Send,
    R: Reads<I> + Writes<O> + Drives + Works + Copy + Drop + Send,
    L: Loader,
    I: Send,
    O: Send,
    E: Sink,
    ensures served { EndsServing dialect result (L.loaded loader.old) (L.loaded loader.new)
        (streams (R.supply input.old) (R.output output.old)) (streams (R.supply input.new) (R.output output.new)) }
    ensures loader { L.origin loader.new ≡ L.origin loader.old }
    ensures reports { Reports result (E.output errors.old) (E.output errors.new) }
{
    let alloc = rt.alloc();
    let gate = &mut OpenGate::new();
    let mut reporter = EndReporter::new(rt, errors);
    let served = serve(
        rt,
        rights,
        alloc,
        dialect,
        input,
        output,
        loader,
        gate,
        &mut reporter,
    );
    end_loan(reporter.into_errors());
    end_of_serve(&served)
}

/// Checks the program text in a file, notes its mistake, if it has one, and returns how that ended.
fn check_file<T, R, L, O>(
    rt: &T,
    rights: &R,
    file: &str,
    loader: &mut L,
    output: &mut O,
) -> ExitReason
where
    T: Eprint + AllocGlobal,
    R: Writes<O>,
    L: Loader,
    ensures checked { (outcome : Result (Unit {0}) CheckFault) × (result ≡ reason_of_check outcome)
        × IsChecked file.now outcome (L.loaded loader.old) (L.loaded loader.new)
        (R.output output.old) (R.output output.new) }
    ensures loader { L.origin loader.new ≡ L.origin loader.old }
{
    let checked = check_keeping(rights, rt.alloc(), file, loader, output);
    match checked.outcome {
        Err(CheckFault::Syntax { kind, place }) => {
            note_mistake(rt, file, checked.text.as_slice(), kind, place);
        }
        Err(CheckFault::CannotRead) => note_unread(rt, file),
        Ok(()) | Err(_) => {}
    }
    end_of_check(&checked.outcome)
}

/// Writes the help to `output`.
fn show_help<R: Writes<O>, O>(rights: &R, output: &mut O) -> ExitReason
    ensures { EndsHelping result (R.output output.old) (R.output output.new) }
{
    match rights.write_bytes(output, HELP.as_bytes()) {
        Ok(()) => end_of_arguments(ArgumentsFault::Help),
        Err(WriteFailed) => ExitReason::WriteFailed,
    }
}
