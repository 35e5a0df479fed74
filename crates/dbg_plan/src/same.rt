//! Compares breakpoints, whatever memory they are in.

ghost use Rattle.std.specs.Prelude.{◌≡◌, Decides, map, option_map};
ghost use Rattle.dbg_plan.specs.Breakpoints.{text_condition, plain_message};
ghost use Rattle.dbg_plan.specs.Table.{numbered_of};

use crate::breakpoint::{BoundCondition, Breakpoint, Rule};
use crate::message::LogMessage;

/// Whether these are the same breakpoints with the same numbers, in the same order.
pub fn same_breakpoints(left: &[Breakpoint], right: &[Breakpoint]) -> bool
    ensures { Decides result (map numbered_of left.now ≡ map numbered_of right.now) }
{
    if left.len() != right.len() {
        return false;
    }
    for index in 0..left.len() {
        if !same_breakpoint(&left[index], &right[index]) {
            return false;
        }
    }
    true
}

/// Whether two breakpoints are the same, with the same number.
fn same_breakpoint(left: &Breakpoint, right: &Breakpoint) -> bool
    ensures { Decides result (numbered_of left.now ≡ numbered_of right.now) }
{
    left.number == right.number
        && left.step == right.step
        && same_rule(left.rule, right.rule)
        && same_condition(&left.condition, &right.condition)
        && same_message(&left.message, &right.message)
}

/// Whether two conditions are the same. A text reads as one condition only, so the texts decide.
fn same_condition(left: &Option<BoundCondition>, right: &Option<BoundCondition>) -> bool
    ensures { Decides result (option_map text_condition left.now ≡ option_map text_condition right.now) }
{
    match (left, right) {
        (None, None) => true,
        (Some(left), Some(right)) => left.text.as_str() == right.text.as_str(),
        _ => false,
    }
}

/// Whether two rules are the same.
fn same_rule(left: Option<Rule>, right: Option<Rule>) -> bool
    ensures { Decides result (left ≡ right) }
{
    match (left, right) {
        (None, None) => true,
        (Some(Rule::From(j)), Some(Rule::From(k))) => j == k,
        (Some(Rule::Every(j)), Some(Rule::Every(k))) => j == k,
        _ => false,
    }
}

/// Whether two messages are the same. A text reads as one message only, so the texts decide.
fn same_message(left: &Option<LogMessage>, right: &Option<LogMessage>) -> bool
    ensures { Decides result (option_map plain_message left.now ≡ option_map plain_message right.now) }
{
    match (left, right) {
        (Some(left), Some(right)) => left.text.as_str() == right.text.as_str(),
        (None, None) => true,
        _ => false,
    }
}
