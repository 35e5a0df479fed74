//! Running a program.

ghost use Rattle.std.specs.Prelude.{IfOk, map, option_map};
ghost use Rattle.debuggee.specs.Plain.{plain_breakpoint, plain_halt, plain_output};
ghost use Rattle.debuggee.specs.Marks.{AreMarked, PassesOrHalts};
ghost use Rattle.debuggee.specs.Runs.{Added, Takes, Advances, Runs, slice_limit};

use crate::arriving::arrive_by_marks;
use crate::breakpoint::Breakpoint;
use crate::debuggee::{Debuggee, Step};
use crate::halt::{Halt, Output};
use crate::marks::{Marks, marks_of};
use crate::mode::Mode;
use std::alloc::{AllocError, Global};

/// How many steps a slice takes at most. Once it has looked at that many breakpoints, it takes one step more. It keeps short
/// what a request waits for, also where each look evaluates a condition.
const SLICE: usize = 1000;

/// Runs a program for a slice: to the first state in which it is due, to its end or its fault; `None` where the slice ends
/// before. Adds what is told.
///
/// # Errors
///
/// An allocation failed.
pub fn run<D: Debuggee>(
    alloc: Global,
    debuggee: &mut D,
    breakpoints: &mut Vec<Breakpoint>,
    mode: Mode,
    told: &mut Vec<Output>,
) -> Result<Option<Halt>, AllocError>
    ensures { IfOk result (λ halt. Runs D.takes D.sees slice_limit mode debuggee.old
        (map plain_breakpoint breakpoints.old.items) (option_map plain_halt halt) debuggee.new
        (map plain_breakpoint breakpoints.new.items) (map plain_output told.old.items)
        (map plain_output told.new.items)) }
{
    let marks = marks_of(alloc, breakpoints)?;
    let mut looks = 0;
    match pass_or_halt(alloc, debuggee, breakpoints, &marks, mode, told, &mut looks)? {
        Some(halt) => Ok(Some(halt)),
        None => advance(alloc, debuggee, breakpoints, &marks, mode, told, &mut looks),
    }
}

/// Runs a program up to the last step of a slice. Adds as how many looks it counts.
fn pass_or_halt<D: Debuggee>(
    alloc: Global,
    debuggee: &mut D,
    breakpoints: &mut Vec<Breakpoint>,
    marks: &Marks,
    mode: Mode,
    told: &mut Vec<Output>,
    looks: &mut usize,
) -> Result<Option<Halt>, AllocError>
    requires { AreMarked marks.now.first marks.now.next.items (map plain_breakpoint breakpoints.old.items) }
    ensures { IfOk result (λ halt. PassesOrHalts D.takes D.sees mode marks.now.first marks.now.next.items debuggee.old
        (map plain_breakpoint breakpoints.old.items) (option_map plain_halt halt) debuggee.new
        (map plain_breakpoint breakpoints.new.items) (map plain_output told.old.items)
        (map plain_output told.new.items)) }
{
    for _ in 1..SLICE {
        if *looks >= SLICE {
            return Ok(None);
        }
        match advance(alloc, debuggee, breakpoints, marks, mode, told, looks)? {
            Some(halt) => return Ok(Some(halt)),
            None => {}
        }
    }
    Ok(None)
}

/// Takes a step, and returns why the run halts after it, if it does. Adds as how many looks it counts.
fn advance<D: Debuggee>(
    alloc: Global,
    debuggee: &mut D,
    breakpoints: &mut Vec<Breakpoint>,
    marks: &Marks,
    mode: Mode,
    told: &mut Vec<Output>,
    looks: &mut usize,
) -> Result<Option<Halt>, AllocError>
    requires { AreMarked marks.now.first marks.now.next.items (map plain_breakpoint breakpoints.old.items) }
    ensures { IfOk result (λ halt. Added (Advances D.takes D.sees mode debuggee.old
        (map plain_breakpoint breakpoints.old.items) (option_map plain_halt halt) debuggee.new
        (map plain_breakpoint breakpoints.new.items)) (map plain_output told.old.items) (map plain_output told.new.items)) }
{
    match take(alloc, debuggee, told)? {
        Some(halt) => Ok(Some(halt)),
        None => arrive_by_marks(alloc, debuggee, breakpoints, marks, mode, told, looks),
    }
}

/// Takes a step. Adds what it prints.
fn take<D: Debuggee>(
    alloc: Global,
    debuggee: &mut D,
    told: &mut Vec<Output>,
) -> Result<Option<Halt>, AllocError>
    ensures { IfOk result (λ halt. Added (Takes D.takes debuggee.old (option_map plain_halt halt) debuggee.new)
        (map plain_output told.old.items) (map plain_output told.new.items)) }
{
    match debuggee.step(alloc)? {
        Step::Goes => Ok(None),
        Step::Prints(text) => {
            told.push(Output::Printed(text))?;
            Ok(None)
        }
        Step::Ends(status) => Ok(Some(Halt::AtEnd(status))),
        Step::Fails(why) => Ok(Some(Halt::AtFault(Box::new(alloc, why)?))),
    }
}
