//! Doing what is asked for with each file.

ghost use Rattle.std.specs.Prelude.{MatchResult};
ghost use Rattle.byte_streams.specs.Files.{plain_text};
ghost use Rattle.byte_streams.specs.declared.files.FileKinds.TheVariants.{All};
ghost use Rattle.pl0_tool.specs.Executing.{Adds, AreDone, GivesUp, Reads, RunsOut, files_of, origins};

use crate::arguments::{Request, Task};
use crate::commands::{nothing_told, perform};
use crate::report::{Ending, Report};
use byte_streams::{FileFault, FileKinds, Opener, Sink, Source, read_file, read_text};
use std::alloc::{AllocError, Global};
use std::sync::Wait;

/// How many bytes of a file are read: one more than a text may have, so that a longer one is noticed.
const BEGINNING: usize = 65_537;

/// Does what is asked for with each file that can be read, and returns what is to be told of all.
pub(crate) fn answer<R, F, I, O>(
    rt: &R,
    request: &Request<'_>,
    files: &mut F,
    input: &mut I,
    output: &mut O,
    room: usize,
) -> Result<Report, AllocError>
where
    R: Wait + AllocGlobal,
    F: Opener,
    I: Source,
    O: Sink,
    ensures { MatchResult result
        (λ report. AreDone (F.opens All) F.closes F.File.supply request.now.task
        (origins files.old (I.supply input.old))
        (O.output output.old) (files_of request.now) report
        (origins files.new (I.supply input.new))
        (O.output output.new))
        (λ _. GivesUp (F.opens All) F.closes F.File.supply
        request.now.task (files_of request.now)
        (origins files.old (I.supply input.old))
        (origins files.new (I.supply input.new))
        (O.output output.old) (O.output output.new)) }
{
    let task = request.task;
    let names = request.files.as_slice();
    let mut report = nothing_told(rt.alloc(), Ending::Success);
    for name in names {
        match add_answer(rt, task, name, files, input, output, room, &mut report) {
            Ok(()) => {}
            Err(AllocError) => return Err(AllocError),
        }
    }
    Ok(report)
}

/// Does a task with the text of one file, and puts what is to be told of it, or that the file can't be read, behind
/// `report`.
fn add_answer<R, F, I, O>(
    rt: &R,
    task: Task,
    name: &str,
    files: &mut F,
    input: &mut I,
    output: &mut O,
    room: usize,
    report: &mut Report,
) -> Result<(), AllocError>
where
    R: Wait + AllocGlobal,
    F: Opener,
    I: Source,
    O: Sink,
    ensures { MatchResult result
        (λ _. Adds (F.opens All) F.closes F.File.supply task name.now report.old report.new
        (origins files.old (I.supply input.old))
        (origins files.new (I.supply input.new))
        (O.output output.old) (O.output output.new))
        (λ _. RunsOut (F.opens All) F.closes F.File.supply task name.now
        (origins files.old (I.supply input.old))
        (origins files.new (I.supply input.new))
        (O.output output.old) (O.output output.new)) }
{
    let alloc = rt.alloc();
    match text_of(rt, files, input, name) {
        Ok(text) => {
            report.add(perform(rt, alloc, task, name, text.as_slice(), output, room)?)?;
            Ok(())
        }
        Err(fault) => {
            report.add(unread(alloc, name, fault)?)?;
            Ok(())
        }
    }
}

ghost use Rattle.std.specs.Prelude.{◌≡◌, ◌≢◌, IfOk, []};
ghost use Rattle.byte_streams.specs.declared.files.FileFault.TheVariants.{NoMemory};
ghost use Rattle.pl0_tool.specs.declared.report.Ending.TheVariants.{Failure};
ghost use Rattle.pl0_tool.specs.Commands.{IsReport};
ghost use Rattle.pl0_tool.specs.Executing.{reason, unread_line};

/// Returns what is told of a file that can't be read. Where memory ran out at it, nothing is.
fn unread(alloc: Global, name: &str, fault: FileFault) -> Result<Report, AllocError>
    ensures told { IfOk result (IsReport [] (unread_line name.now fault) Failure) }
    ensures memory { IfOk result (λ _. fault ≢ NoMemory) }
{
    if fault == FileFault::NoMemory {
        return Err(AllocError);
    }
    let reason = reason(fault);
    let line = format!(in alloc; "pl0: cannot read {name}{reason}\n")?;
    Ok(Report::new(Vec::new(alloc), line.into_bytes(), Ending::Failure))
}

/// Returns what says why a file can't be read; nothing where that isn't known.
fn reason(fault: FileFault) -> &'static str
    ensures { result.now ≡ reason fault }
{
    match fault {
        FileFault::Missing => ": there is no such file",
        FileFault::Folder => ": it is a folder",
        FileFault::Forbidden => ": it is not allowed",
        FileFault::CannotRead | FileFault::NoMemory => "",
    }
}

/// Returns the text of a file, or that of the input for `-`.
fn text_of<R: Wait + AllocGlobal, F: Opener, I: Source>(
    rt: &R,
    files: &mut F,
    input: &mut I,
    name: &str,
) -> Result<Vec<u8>, FileFault>
    ensures { Reads (F.opens All) F.closes F.File.supply name.now (plain_text result)
        (origins files.old (I.supply input.old))
        (origins files.new (I.supply input.new)) }
{
    if name == "-" {
        return read_text(rt, rt.alloc(), input, BEGINNING);
    }
    read_file(rt, rt.alloc(), files, FileKinds::All, name, BEGINNING)
}
