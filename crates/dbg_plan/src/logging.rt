//! Makes the logs of breakpoints, and their texts.

ghost use Rattle.std.specs.Prelude.{◌≡◌, ◌+◌, ◌<◌, ◌≤◌, ◌++◌, [], ◌∷◌, List, IfOk, OnOk, is_none, Some, length, map, option_to_list, string_bytes};
ghost use Rattle.dbg_plan.specs.Counting.{IsMetHere, log_now};
ghost use Rattle.dbg_plan.specs.Debugged.{IsRunning};
ghost use Rattle.dbg_plan.specs.Logs.{value_text, filled, log_text as text_of};
ghost use Rattle.dbg_plan.specs.Messages.{Part as PlainPart, expressions, expression_limit, plain_part, plain_parts};
ghost use Rattle.dbg_plan.specs.Plans.{breakpoint_limit};
ghost use Rattle.dbg_plan.specs.Reads.{ReadsPart};
ghost use Rattle.dbg_plan.specs.Values.{answered};
ghost use Rattle.pl0_machine.specs.Machine.{program, frames};
ghost use Rattle.pl0_meaning.specs.Values.{value};

use crate::breakpoint::Breakpoint;
use crate::evaluation::{EvalFault, value_of};
use crate::logs::{Log, Logs};
use crate::message::{LogMessage, Part};
use pl0_machine::Machine;
use std::alloc::{AllocError, Global};

/// Appends the value of a part in a frame to a log, if the part is an expression.
fn log_part(machine: &Machine, frame: usize, part: &Part, log: &mut Log)
    requires reads { ReadsPart (program machine.now) (frames machine.now) frame part.now }
    requires room { length log.old.values + length (expressions (plain_part part.now ∷ [])) ≤ expression_limit }
    ensures { log.new ≡ record log.old {
      values = log.old.values
          ++ map (value (program machine.now) (frames machine.now) frame) (expressions (plain_part part.now ∷ []));
    } }
{
    match part {
        Part::Text(_) => {}
        Part::Value(expression) => log.push(value_of(machine, frame, &expression.located)),
    }
}

/// Returns the log of a breakpoint's message at the machine's step.
fn log_of(machine: &Machine, breakpoint: &Breakpoint, message: &LogMessage) -> Log
    requires running { IsRunning machine.now }
    requires here { IsMetHere machine.now breakpoint.now }
    requires message { breakpoint.now.message ≡ Some message.now }
    ensures { Some result ≡ log_now machine.now breakpoint.now }
{
    let top = machine.depth() - 1;
    let mut log = Log::new(breakpoint.number);
    for part in &message.parts {
        log_part(machine, top, part, &mut log);
    }
    log
}

/// Does what a breakpoint does that is met where the machine stands: it logs its message, if it has one, or else it stops
/// the program. Returns whether it stops the program.
#[inline]
pub fn stops_or_logs(machine: &Machine, breakpoint: &Breakpoint, logs: &mut Logs) -> bool
    requires running { IsRunning machine.now }
    requires here { IsMetHere machine.now breakpoint.now }
    requires room { length logs.old < breakpoint_limit }
    ensures stops { result ≡ is_none breakpoint.now.message }
    ensures logs { logs.new ≡ logs.old ++ option_to_list (log_now machine.now breakpoint.now) }
{
    match &breakpoint.message {
        None => true,
        Some(message) => {
            logs.push(log_of(machine, breakpoint, message));
            false
        }
    }
}

/// Returns the text of a log: the parts of its message, with its values in place of the expressions, and a line feed.
///
/// # Errors
///
/// Out of memory.
pub fn log_text(alloc: Global, parts: &[Part], log: &Log) -> Result<String, AllocError>
    ensures { IfOk result (λ text. string_bytes text ≡ text_of (plain_parts parts.now) log.now.values) }
{
    let mut values = log.values();
    let mut text = String::new(alloc);
    for part in parts {
        values = push_part(alloc, &mut text, part, values)?;
    }
    text.push('\n')?;
    Ok(text)
}

/// Appends the text of a part, with the first of the values in place of an expression. Returns the values that are left.
fn push_part<'a>(
    alloc: Global,
    text: &mut String,
    part: &Part,
    values: &'a [Result<i64, EvalFault>],
) -> Result<&'a [Result<i64, EvalFault>], AllocError>
    ensures { IfOk result (λ left. (parts : List PlainPart) → string_bytes text.new
        ++ filled parts (map answered left.now) ≡ string_bytes text.old
        ++ filled (plain_part part.now ∷ parts) (map answered values.now)) }
{
    match part {
        Part::Text(bytes) => {
            text.push_str(bytes.as_str())?;
            Ok(values)
        }
        Part::Value(_) => match values.split_first() {
            Some((value, left)) => {
                push_value(alloc, text, *value)?;
                Ok(left)
            }
            None => Ok(values),
        },
    }
}

/// Appends the text of a value to a text.
fn push_value(
    alloc: Global,
    text: &mut String,
    value: Result<i64, EvalFault>,
) -> Result<(), AllocError>
    ensures { OnOk result (string_bytes text.new ≡ string_bytes text.old ++ value_text (answered value)) }
{
    match value {
        Ok(number) => {
            let number = format!(in alloc; "{number}")?;
            text.push_str(number.as_str())
        }
        Err(EvalFault::Overflow) => text.push_str("overflow"),
        Err(EvalFault::DivideByZero) => text.push_str("divideByZero"),
    }
}
