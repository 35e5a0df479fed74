//! What is told of a run that faults.

ghost use Rattle.std.specs.Prelude.{◌≡◌, ◌<◌, IfOk, option_map, string_bytes};
ghost use Rattle.pl0_machine.specs.Machine.{program, frame_of, depth_of};
ghost use Rattle.pl0_tool.specs.Faulting.{fault_report, first_line, frame_line, more_line, stop_line, stop_report, stopped_at, with_frames};
ghost use Rattle.pl0_tool.specs.Tracing.{step_before};

use crate::blocks::frame_name;
use crate::tracing::TOLD_FRAMES;
use pl0_machine::Machine;
use pl0_meaning::RunFault;
use pl0_mistakes::fault_line;
use pl0_tree::Place;
use pl0_unit::Unit;
use std::alloc::{AllocError, Global};

/// Returns the line of a fault of the step at which a machine stands, and under it a line for each of the newest frames
/// that are alive, the newest first.
///
/// # Errors
///
/// `AllocError`, where an allocation failed.
pub fn fault_report(
    alloc: Global,
    file: &str,
    machine: &Machine,
    fault: RunFault,
) -> Result<Vec<u8>, AllocError>
    ensures { IfOk result (λ report. report.items ≡ fault_report file.now machine.now fault) }
{
    let first = first_line(alloc, file, machine, fault)?;
    with_frames(alloc, first, file, machine)
}

/// Returns the line of a run that was stopped before the step at which a machine stands, and under it lines as
/// [`fault_report`] has them.
///
/// # Errors
///
/// `AllocError`, where an allocation failed.
pub(crate) fn stop_report(
    alloc: Global,
    file: &str,
    machine: &Machine,
) -> Result<Vec<u8>, AllocError>
    ensures { IfOk result (λ report. report.items ≡ stop_report file.now machine.now) }
{
    let first = stop_line(alloc, file, machine)?;
    with_frames(alloc, first, file, machine)
}

/// Returns the line of a run that was stopped before the step at which a machine stands, and nothing where there is none.
fn stop_line(alloc: Global, file: &str, machine: &Machine) -> Result<Vec<u8>, AllocError>
    ensures { IfOk result (λ line. line.items ≡ stop_line file.now machine.now) }
{
    match place_of(machine) {
        None => Ok(Vec::new(alloc)),
        Some(place) => {
            let line = stopped_at(alloc, file, place, machine.position())?;
            Ok(line.into_bytes())
        }
    }
}

/// Returns the line of a run that was stopped before the step at a place.
fn stopped_at(alloc: Global, file: &str, place: Place, position: u64) -> Result<String, AllocError>
    ensures { IfOk result (λ line. string_bytes line ≡ stopped_at file.now position place) }
{
    let line = place.line;
    let column = place.column;
    format!(in alloc; "{file}:{line}:{column}: stopped: at position {position}\n")
}

/// Returns the place of the step at which a machine stands, if a frame is alive.
fn place_of(machine: &Machine) -> Option<Place>
    ensures { result ≡ option_map (λ s. s.place) (step_before machine.now) }
{
    if machine.depth() == 0 {
        return None;
    }
    let unit: &Unit = machine.unit();
    Some(unit.steps[machine.next_step()].place)
}

/// Returns a line, and under it a line for each of the newest frames of a machine, the newest first.
fn with_frames(
    alloc: Global,
    first: Vec<u8>,
    file: &str,
    machine: &Machine,
) -> Result<Vec<u8>, AllocError>
    ensures { IfOk result (λ report. report.items ≡ with_frames first.items file.now machine.now) }
{
    let mut report = first;
    let depth = machine.depth();
    for index in 0..depth.min(TOLD_FRAMES) {
        let line = frame_line(alloc, file, machine, depth - 1 - index)?;
        report.extend_from_slice(line.as_bytes())?;
    }
    let more = more_line(alloc, depth.saturating_sub(TOLD_FRAMES))?;
    report.extend_from_slice(more.as_bytes())?;
    Ok(report)
}

/// Returns the line of a fault of the step at which a machine stands, and nothing where no frame is alive.
fn first_line(
    alloc: Global,
    file: &str,
    machine: &Machine,
    fault: RunFault,
) -> Result<Vec<u8>, AllocError>
    ensures { IfOk result (λ line. line.items ≡ first_line file.now machine.now fault) }
{
    match place_of(machine) {
        None => Ok(Vec::new(alloc)),
        Some(place) => fault_line(alloc, file, fault, place),
    }
}

/// Returns the line of a frame: its name, and where it stands.
fn frame_line(
    alloc: Global,
    file: &str,
    machine: &Machine,
    frame: usize,
) -> Result<String, AllocError>
    requires { frame < depth_of machine.now }
    ensures { IfOk result (λ line.
        string_bytes line ≡ frame_line file.now (program machine.now) (frame_of machine.now frame)) }
{
    let view = machine.frame(frame);
    let unit: &Unit = machine.unit();
    let step = unit.steps[view.next_step];
    let name = frame_name(unit, view.block);
    let line = step.place.line;
    let column = step.place.column;
    format!(in alloc; "  in {name} at {file}:{line}:{column}\n")
}

/// Returns the line that says how many frames are left out, and nothing where none is.
fn more_line(alloc: Global, more: usize) -> Result<String, AllocError>
    ensures { IfOk result (λ line. string_bytes line ≡ more_line more) }
{
    if more == 0 {
        return Ok(String::new(alloc));
    }
    format!(in alloc; "  and {more} more\n")
}
