//! What is due in a state.

ghost use Rattle.std.specs.Prelude.{◌≡◌, IfOk, map, option_map, string_bytes};
ghost use Rattle.std.specs.List.{flat_map};
ghost use Rattle.debuggee.specs.Plain.{plain_breakpoint, plain_halt, plain_output, plain_part};
ghost use Rattle.debuggee.specs.Due.{accepts, arrives, is_asked, part_text};
ghost use Rattle.debuggee.specs.Marks.{AreMarked, halt_of};
ghost use Rattle.debuggee.specs.Runs.{Arrives, ArrivesAt, ArrivesAll};

use crate::breakpoint::{Breakpoint, Part};
use crate::debuggee::{Debuggee, Evaluated};
use crate::halt::{Halt, Output};
use crate::marks::{MARKS, Marks, looks_of};
use crate::mode::Mode;
use std::alloc::{AllocError, Global};

/// Counts the arrivals at breakpoints in the state where the program is, adds what messages say there, and returns why the
/// program is to stop there, if it is.
///
/// # Errors
///
/// An allocation failed.
pub fn arrive<D: Debuggee>(
    alloc: Global,
    debuggee: &D,
    breakpoints: &mut Vec<Breakpoint>,
    mode: Mode,
    told: &mut Vec<Output>,
) -> Result<Option<Halt>, AllocError>
    ensures { IfOk result (λ halt. Arrives D.sees mode debuggee.now (map plain_breakpoint breakpoints.old.items)
        (option_map plain_halt halt) (map plain_breakpoint breakpoints.new.items) (map plain_output told.old.items)
        (map plain_output told.new.items)) }
{
    let place = debuggee.place();
    let stops = arrive_all(alloc, debuggee, place, breakpoints, told)?;
    Ok(halt_of(debuggee, place, stops, mode))
}

/// Does the same as `arrive`, and looks only at breakpoints that share a mark with the place. Adds as how many looks that
/// counts.
pub(crate) fn arrive_by_marks<D: Debuggee>(
    alloc: Global,
    debuggee: &D,
    breakpoints: &mut Vec<Breakpoint>,
    marks: &Marks,
    mode: Mode,
    told: &mut Vec<Output>,
    looks: &mut usize,
) -> Result<Option<Halt>, AllocError>
    requires { AreMarked marks.now.first marks.now.next.items (map plain_breakpoint breakpoints.old.items) }
    ensures { IfOk result (λ halt. Arrives D.sees mode debuggee.now (map plain_breakpoint breakpoints.old.items)
        (option_map plain_halt halt) (map plain_breakpoint breakpoints.new.items) (map plain_output told.old.items)
        (map plain_output told.new.items)) }
{
    let place = debuggee.place();
    let stops = arrive_marked(alloc, debuggee, place, breakpoints, marks, told, looks)?;
    Ok(halt_of(debuggee, place, stops, mode))
}

/// Returns why the program is to stop, if it is: because a breakpoint stops it, or the mode asks for it.
fn halt_of<D: Debuggee>(debuggee: &D, place: Option<usize>, stops: bool, mode: Mode) -> Option<Halt>
    requires { place ≡ D.sees.place_of debuggee.now }
    ensures { option_map plain_halt result ≡ halt_of D.sees mode stops debuggee.now }
{
    if stops {
        return Some(Halt::AtBreakpoint);
    }
    if is_asked(debuggee, place, mode) {
        return Some(Halt::AtStep);
    }
    None
}

/// Whether the mode asks for the state where the program is.
fn is_asked<D: Debuggee>(debuggee: &D, place: Option<usize>, mode: Mode) -> bool
    requires { place ≡ D.sees.place_of debuggee.now }
    ensures { result ≡ is_asked D.sees mode debuggee.now }
{
    place.is_some() && !matches!(mode, Mode::Continue) && mode.asks(debuggee.depth())
}

/// Counts the arrivals at all breakpoints, and returns whether one stops the program.
fn arrive_all<D: Debuggee>(
    alloc: Global,
    debuggee: &D,
    place: Option<usize>,
    breakpoints: &mut Vec<Breakpoint>,
    told: &mut Vec<Output>,
) -> Result<bool, AllocError>
    requires { place ≡ D.sees.place_of debuggee.now }
    ensures { IfOk result (λ stops. ArrivesAll D.sees debuggee.now (map plain_breakpoint breakpoints.old.items) stops
        (map plain_breakpoint breakpoints.new.items) (map plain_output told.old.items) (map plain_output told.new.items)) }
{
    let mut stops = false;
    for breakpoint in breakpoints.iter_mut() {
        let here = arrive_at(alloc, debuggee, place, breakpoint, told)?;
        stops |= here;
    }
    Ok(stops)
}

/// Does the same, where the marks are those of the breakpoints, and looks only at those that share a mark with the place.
fn arrive_marked<D: Debuggee>(
    alloc: Global,
    debuggee: &D,
    place: Option<usize>,
    breakpoints: &mut Vec<Breakpoint>,
    marks: &Marks,
    told: &mut Vec<Output>,
    looks: &mut usize,
) -> Result<bool, AllocError>
    requires at { place ≡ D.sees.place_of debuggee.now }
    requires marked { AreMarked marks.now.first marks.now.next.items (map plain_breakpoint breakpoints.old.items) }
    ensures { IfOk result (λ stops. ArrivesAll D.sees debuggee.now (map plain_breakpoint breakpoints.old.items) stops
        (map plain_breakpoint breakpoints.new.items) (map plain_output told.old.items) (map plain_output told.new.items)) }
{
    let here = match place {
        Some(here) => here,
        None => return Ok(false),
    };
    let mut stops = false;
    let mut index = marks.first[here % MARKS];
    while index < breakpoints.len() {
        let breakpoint = &mut breakpoints[index];
        *looks = looks.saturating_add(looks_of(breakpoint));
        let stops_here = arrive_at(alloc, debuggee, place, breakpoint, told)?;
        stops |= stops_here;
        index = marks.next[index];
    }
    Ok(stops)
}

/// Counts an arrival at a breakpoint, if it is one, and returns whether it stops the program.
fn arrive_at<D: Debuggee>(
    alloc: Global,
    debuggee: &D,
    place: Option<usize>,
    breakpoint: &mut Breakpoint,
    told: &mut Vec<Output>,
) -> Result<bool, AllocError>
    requires { place ≡ D.sees.place_of debuggee.now }
    ensures { IfOk result (λ stops. ArrivesAt D.sees debuggee.now (plain_breakpoint breakpoint.old) stops
        (plain_breakpoint breakpoint.new) (map plain_output told.old.items) (map plain_output told.new.items)) }
{
    if !arrives(alloc, debuggee, place, breakpoint)? {
        return Ok(false);
    }
    breakpoint.arrivals = breakpoint.arrivals.saturating_add(1);
    if !is_accepted(breakpoint) {
        return Ok(false);
    }
    match &breakpoint.message {
        None => Ok(true),
        Some(parts) => {
            let text = text_of(alloc, debuggee, parts.as_slice())?;
            told.push(Output::Logged(text))?;
            Ok(false)
        }
    }
}

/// Whether the last arrival that was counted is accepted.
fn is_accepted(breakpoint: &Breakpoint) -> bool
    ensures { result ≡ accepts breakpoint.now.rule breakpoint.now.arrivals }
{
    match breakpoint.rule {
        None => true,
        Some(rule) => rule.accepts(breakpoint.arrivals),
    }
}

/// Whether the program arrives at a breakpoint.
fn arrives<D: Debuggee>(
    alloc: Global,
    debuggee: &D,
    place: Option<usize>,
    breakpoint: &Breakpoint,
) -> Result<bool, AllocError>
    requires { place ≡ D.sees.place_of debuggee.now }
    ensures { IfOk result (λ here. here ≡ arrives D.sees debuggee.now (plain_breakpoint breakpoint.now)) }
{
    match place {
        Some(here) if here == breakpoint.place => match &breakpoint.condition {
            None => Ok(true),
            Some(condition) => debuggee.holds(alloc, condition.as_str()),
        },
        _ => Ok(false),
    }
}

/// Returns the text of a message.
fn text_of<D: Debuggee>(alloc: Global, debuggee: &D, parts: &[Part]) -> Result<String, AllocError>
    ensures { IfOk result (λ text. string_bytes text ≡ flat_map (part_text D.sees debuggee.now)
        (map plain_part parts.now)) }
{
    let mut text = String::new(alloc);
    for part in parts {
        match part {
            Part::Text(own) => text.push_str(own.as_str())?,
            Part::Expression(expression) => match debuggee.evaluate(
                alloc,
                0,
                expression.as_str(),
            )? {
                Evaluated::Value(value, _) => text.push_str(value.as_str())?,
                Evaluated::NoValue(why) => text.push_str(why.as_str())?,
            },
        }
    }
    Ok(text)
}
