//! The commands: what each one makes of a text.

ghost use Rattle.std.specs.Prelude.{◌<◌, ◌≤◌, [], IfOk, MatchResult};
ghost use Rattle.pl0_tree.specs.Faults.{IsFirstFault};
ghost use Rattle.pl0_machine.specs.Machine.{depth_of};
ghost use Rattle.pl0_mistakes.specs.Warnings.{warning_lines};
ghost use Rattle.pl0_tool.specs.Commands.{AreMistakesTold, IsPage, MistakeTells, PageTells, Tells, ProgramTells, RunTells, TraceTells, IsReport, start_of};
ghost use Rattle.pl0_tool.specs.Commands.{WritesNumbers, ProgramWrites, StartTraces, StartWrites, WritesRun};
ghost use Rattle.pl0_tool.specs.Commands.{IsRunReport, IsTraceReport, position_line};
ghost use Rattle.pl0_tool.specs.Faulting.{fault_report};
ghost use Rattle.pl0_tool.specs.declared.report.Ending.TheVariants.{Success};
ghost use Rattle.pl0_tool.specs.declared.running.RunEnd.TheVariants.{StoppedAt};

use crate::arguments::Task;
use crate::fault::{fault_report, stop_report};
use crate::listing::listing;
use crate::report::{Ending, Report};
use crate::running::{RunEnd, run_machine};
use crate::table::put_head;
use crate::text::load;
use crate::tokens::token_table;
use crate::tracing::{TraceEnd, View, trace};
use byte_streams::Sink;
use pl0_lessons::{name_table, program_tree};
use pl0_machine::Machine;
use pl0_meaning::RunFault;
use pl0_mistakes::{mistake_line, mistake_lines, warning_lines};
use pl0_tree::{FaultKind, Place, SyntaxFault};
use pl0_unit::Unit;
use std::alloc::{AllocError, Global};
use std::sync::{Arc, Wait};

/// Does a task with a text, and returns what is still to be told of it. A run has written its numbers then, and a trace
/// the first rows of its table, of which up to `room` bytes at a time are kept until they are written together.
///
/// # Errors
///
/// `AllocError`, where an allocation failed. Nothing was written then, or numbers of the run, or a part of the trace.
pub fn perform<O: Sink>(
    rt: &impl Wait,
    alloc: Global,
    task: Task,
    file: &str,
    text: &[u8],
    output: &mut O,
    room: usize,
) -> Result<Report, AllocError>
    ensures { MatchResult result
        (λ report. Tells task file.now text.now report
        (O.output output.old) (O.output output.new))
        (λ _. WritesNumbers task text.now
        (O.output output.old) (O.output output.new)) }
{
    match load(alloc, text) {
        Ok(unit) => {
            let unit = Arc::new(alloc, unit)?;
            perform_program(rt, alloc, task, file, unit, output, room)
        }
        Err(SyntaxFault::NoMemory) => Err(AllocError),
        Err(SyntaxFault::InText { kind, place }) => {
            tell_mistake(alloc, task, file, text, kind, place)
        }
    }
}

/// Tells the first mistake of a text, a check with further ones; the tokens of the text too, if these are asked for.
fn tell_mistake(
    alloc: Global,
    task: Task,
    file: &str,
    text: &[u8],
    kind: FaultKind,
    place: Place,
) -> Result<Report, AllocError>
    requires { IsFirstFault text.now kind place }
    ensures { IfOk result (MistakeTells task file.now text.now) }
{
    let lines = lines_of_mistaken(alloc, task, file, text, kind, place)?;
    let page = page_of_mistaken(alloc, task, text)?;
    Ok(Report::new(page, lines, Ending::Mistake))
}

/// Returns what is told of a text that is no program's: its first mistake, and where it is checked further ones.
fn lines_of_mistaken(
    alloc: Global,
    task: Task,
    file: &str,
    text: &[u8],
    kind: FaultKind,
    place: Place,
) -> Result<Vec<u8>, AllocError>
    ensures { IfOk result (λ lines. AreMistakesTold task file.now text.now kind place lines.items) }
{
    match task {
        Task::Check => mistake_lines(alloc, file, text, kind, place),
        _ => mistake_line(alloc, file, text, kind, place),
    }
}

/// Returns what is shown of a text that is no program's: its tokens, if these are asked for.
fn page_of_mistaken(alloc: Global, task: Task, text: &[u8]) -> Result<Vec<u8>, AllocError>
    ensures { IfOk result (λ page. IsPage task page.items) }
{
    match task {
        Task::Tokens => token_table(alloc, text),
        _ => Ok(Vec::new(alloc)),
    }
}

/// Does a task with a program.
fn perform_program<O: Sink>(
    rt: &impl Wait,
    alloc: Global,
    task: Task,
    file: &str,
    unit: Arc<Unit>,
    output: &mut O,
    room: usize,
) -> Result<Report, AllocError>
    ensures { MatchResult result
        (λ report. ProgramTells task file.now unit.value report
        (O.output output.old) (O.output output.new))
        (λ _. ProgramWrites task unit.value
        (O.output output.old) (O.output output.new)) }
{
    match task {
        Task::Check => check_program(alloc, file, &unit),
        Task::List { names } => list_program(alloc, &unit, names),
        Task::Tree => page_told(program_tree(alloc, &unit), alloc),
        Task::Tokens => page_told(token_table(alloc, unit.tree.text.as_slice()), alloc),
        Task::Run { limit } => run_program(rt, alloc, file, unit, limit, output, room),
        Task::Trace { from, steps, view } => {
            trace_program(rt, alloc, file, unit, from, steps, view, output, room)
        }
    }
}

/// Returns a report of nothing, and of a command that ends so.
pub(crate) fn nothing_told(alloc: Global, ending: Ending) -> Report
    ensures { IsReport [] [] ending result }
{
    Report::new(Vec::new(alloc), Vec::new(alloc), ending)
}

/// Returns a report of these bytes for the output, and of a fault of the step at which a machine stands.
fn fault_told(
    alloc: Global,
    file: &str,
    machine: &Machine,
    fault: RunFault,
    output: Vec<u8>,
    ending: Ending,
) -> Result<Report, AllocError>
    ensures { IfOk result (IsReport output.items (fault_report file.now machine.now fault) ending) }
{
    let errors = fault_report(alloc, file, machine, fault)?;
    Ok(Report::new(output, errors, ending))
}

/// Returns a report of a page, if it was made.
fn page_told(page: Result<Vec<u8>, AllocError>, alloc: Global) -> Result<Report, AllocError>
    ensures { IfOk result PageTells }
{
    Ok(Report::new(page?, Vec::new(alloc), Ending::Success))
}

/// Checks a program: warns of statements that are perhaps empty by mistake.
fn check_program(alloc: Global, file: &str, unit: &Unit) -> Result<Report, AllocError>
    ensures { IfOk result (IsReport [] (warning_lines file.now unit.now.tree.text.items) Success) }
{
    let warnings = warning_lines(alloc, file, unit.tree.text.as_slice())?;
    Ok(Report::new(Vec::new(alloc), warnings, Ending::Success))
}

/// Lists a program, or its names.
fn list_program(alloc: Global, unit: &Unit, names: bool) -> Result<Report, AllocError>
    ensures { IfOk result PageTells }
{
    if names {
        page_told(name_table(alloc, unit), alloc)
    } else {
        page_told(listing(alloc, unit), alloc)
    }
}

/// Runs a program up to a limit of steps.
fn run_program<O: Sink>(
    rt: &impl Wait,
    alloc: Global,
    file: &str,
    unit: Arc<Unit>,
    limit: u64,
    output: &mut O,
    room: usize,
) -> Result<Report, AllocError>
    ensures { MatchResult result
        (λ report. RunTells limit file.now (start_of unit.value) report
        (O.output output.old) (O.output output.new))
        (λ _. StartWrites unit.value
        (O.output output.old) (O.output output.new)) }
{
    let mut machine = Machine::new(alloc, unit)?;
    run_whole(rt, alloc, file, &mut machine, limit, output, room)
}

/// Tells some positions of a program's run.
fn trace_program<O: Sink>(
    rt: &impl Wait,
    alloc: Global,
    file: &str,
    unit: Arc<Unit>,
    from: u64,
    steps: usize,
    view: View,
    output: &mut O,
    room: usize,
) -> Result<Report, AllocError>
    ensures { MatchResult result
        (λ report. TraceTells file.now (start_of unit.value) from steps report
        (O.output output.old) (O.output output.new))
        (λ _. StartTraces (O.output output.old) (O.output output.new)) }
{
    let mut machine = Machine::new(alloc, unit)?;
    let mut page = Vec::new(alloc);
    put_head(&mut page, view)?;
    let end = trace(
        rt,
        alloc,
        &mut machine,
        from,
        steps,
        view,
        output,
        &mut page,
        room,
    )?;
    trace_report(alloc, file, &machine, end, page)
}

/// Runs a machine to the end of its program, or to a limit.
fn run_whole<O: Sink>(
    rt: &impl Wait,
    alloc: Global,
    file: &str,
    machine: &mut Machine,
    limit: u64,
    output: &mut O,
    room: usize,
) -> Result<Report, AllocError>
    requires alive { 0 < depth_of machine.old }
    requires within { machine.old.position ≤ limit }
    ensures { MatchResult result
        (λ report. RunTells limit file.now machine.old report
        (O.output output.old) (O.output output.new))
        (λ _. WritesRun machine.old
        (O.output output.old) (O.output output.new)) }
{
    let nothing = Vec::new(alloc);
    match run_machine(rt, machine, output, &mut Vec::new(alloc), room, limit) {
        RunEnd::Ended => Ok(nothing_told(alloc, Ending::Success)),
        RunEnd::WriteFailed => Ok(nothing_told(alloc, Ending::Unwritten)),
        RunEnd::StoppedAt => stop_told(alloc, file, machine),
        RunEnd::Faulted(fault) => {
            fault_told(alloc, file, machine, fault, nothing, Ending::Fault)
        }
        RunEnd::FaultedUnwritten(fault) => {
            fault_told(alloc, file, machine, fault, nothing, Ending::Unwritten)
        }
    }
}

/// Returns a report of a run that was stopped where a machine stands.
fn stop_told(alloc: Global, file: &str, machine: &Machine) -> Result<Report, AllocError>
    ensures { IfOk result (IsRunReport StoppedAt file.now machine.now) }
{
    let errors = stop_report(alloc, file, machine)?;
    Ok(Report::new(Vec::new(alloc), errors, Ending::Stopped))
}

/// Returns a report of what is pending of a table, and of how the trace ended, where a machine stands.
fn trace_report(
    alloc: Global,
    file: &str,
    machine: &Machine,
    end: TraceEnd,
    page: Vec<u8>,
) -> Result<Report, AllocError>
    ensures { IfOk result (IsTraceReport end file.now machine.now page.items) }
{
    match end {
        TraceEnd::GoesOn => position_told(alloc, page, "goes on", machine.position()),
        TraceEnd::Ended => Ok(Report::new(page, Vec::new(alloc), Ending::Success)),
        TraceEnd::EndedBefore => position_told(alloc, page, "ends", machine.position()),
        TraceEnd::Faulted(fault) => fault_told(alloc, file, machine, fault, page, Ending::Fault),
        TraceEnd::WriteFailed => Ok(nothing_told(alloc, Ending::Unwritten)),
    }
}

/// Returns a report of these bytes for the output, and of a line that says where a run goes on or ends.
fn position_told(
    alloc: Global,
    output: Vec<u8>,
    does: &str,
    position: u64,
) -> Result<Report, AllocError>
    ensures { IfOk result (IsReport output.items (position_line does.now position) Success) }
{
    let line = format!(in alloc; "pl0: the run {does} at position {position}\n")?;
    Ok(Report::new(output, line.into_bytes(), Ending::Success))
}
