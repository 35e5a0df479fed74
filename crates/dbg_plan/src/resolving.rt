//! Resolves lines that an editor asks for to breakpoints.

ghost use Rattle.std.specs.Prelude.{◌≡◌, ◌<◌, ◌≤◌, length, map, Some, IfOk, IfErr};
ghost use Rattle.pl0_tree.specs.Steps.{steps};
ghost use Rattle.pl0_tree.specs.Plain.{plain_condition};
ghost use Rattle.pl0_tree.specs.Faults.{FaultIs};
ghost use Rattle.pl0_machine.specs.Machine.{program_of};
ghost use Rattle.dbg_plan.specs.declared.messages.MessageFault.TheVariants.{Bad};
ghost use Rattle.dbg_plan.specs.declared.resolving.Resolution.TheVariants.{BadLogMessage};
ghost use Rattle.dbg_plan.specs.Breakpoints.{text_condition, plain_breakpoints};
ghost use Rattle.dbg_plan.specs.ReadsAs.{ReadsAs};
ghost use Rattle.dbg_plan.specs.Plans.{IsBoundAt, IsPlanOf, AreBreakpointsOf, breakpoint_limit};
ghost use Rattle.dbg_plan.specs.Resolutions.{plain_line, step_from, HasConditionAt, AreResolved};
ghost use Rattle.dbg_plan.specs.Resolving.{IsBoundConditionOf, ResolvesLine};

use crate::binding::bind_condition;
use crate::breakpoint::{BoundCondition, Breakpoint};
use crate::comparison::comparison_at;
use crate::messages::{MessageFault, read_message};
use crate::plan::Plan;
use crate::rule::{BadHitCondition, read_rule};
use pl0_syntax::{Names, editor_laws, parse_condition};
use pl0_tree::{Condition, StepNumber, SyntaxFault};
use pl0_unit::Unit;
use std::alloc::{AllocError, Global};
use std::sync::Arc;

/// A breakpoint as an editor asks for it: a line, from 1, and the texts of a condition, of a hit condition and of a log
/// message. An empty text is an absent one.
#[derive(Clone, Copy)]
pub struct SourceBreakpoint<'a> {
    pub line: u32,
    pub condition: &'a str,
    pub hit_condition: &'a str,
    pub log_message: &'a str,
}

/// What a source breakpoint is resolved to: the step of its line, or why it has no breakpoint.
#[derive(Clone, Copy, Debug, PartialEq, Eq)]
pub enum Resolution {
    /// The breakpoint is at this step.
    At(StepNumber),
    /// No step is at the line or after it.
    NoStep,
    /// The text of the condition reads as none at the step.
    BadCondition,
    /// The text of the hit condition is no rule.
    BadHitCondition,
    /// The text of the log message reads as none at the step.
    BadLogMessage,
}

/// Returns the plan of these source breakpoints, and what each of them is resolved to, in order.
///
/// # Errors
///
/// Out of memory.
pub fn resolve(
    alloc: Global,
    unit: &Unit,
    asked: &[SourceBreakpoint],
) -> Result<(Plan, Vec<Resolution>), AllocError>
    requires { length asked.now ≤ breakpoint_limit }
    ensures resolutions { IfOk result (λ r. AreResolved (program_of unit.now) (map plain_line asked.now) r.1.items
        (plain_breakpoints r.0.breakpoints)) }
    ensures plan { IfOk result (λ r. IsPlanOf unit.now r.0) }
    ensures breakpoints { IfOk result (λ r. AreBreakpointsOf (program_of unit.now)
        (plain_breakpoints r.0.breakpoints)) }
{
    let names = names_for(alloc, unit, asked)?;
    let mut resolutions = Vec::with_capacity(alloc, asked.len())?;
    let mut breakpoints = Vec::new(alloc);
    for line in asked {
        let resolution = resolve_line(alloc, unit, &names, line, &mut breakpoints)?;
        resolutions.push(resolution)?;
    }
    let plan = Plan::new(alloc, unit.steps.len(), &unit.begun_steps, breakpoints)?;
    Ok((plan, resolutions))
}

/// Returns the names of a program, with tables if a condition or a message is asked for.
fn names_for<'a>(
    alloc: Global,
    unit: &'a Unit,
    asked: &[SourceBreakpoint],
) -> Result<Names<'a>, AllocError>
    ensures { IfOk result (λ names. names ≡ unit.now.tree.program) }
{
    let main = &unit.tree.program;
    if asked.iter().any(|line| !line.condition.is_empty() || !line.log_message.is_empty()) {
        Names::with_tables(alloc, main, &unit.nestings)
    } else {
        Ok(Names::new(main, &unit.nestings))
    }
}

/// Resolves a line. Its breakpoint, if it has one, is appended to `breakpoints`, and has the number of those before it.
fn resolve_line(
    alloc: Global,
    unit: &Unit,
    names: &Names,
    asked: &SourceBreakpoint,
    breakpoints: &mut Vec<Breakpoint>,
) -> Result<Resolution, AllocError>
    requires { names.now ≡ unit.now.tree.program }
    ensures { IfOk result (ResolvesLine (program_of unit.now) (plain_line asked.now) breakpoints.old.items
        breakpoints.new.items) }
{
    let step = match first_step(unit, asked.line) {
        Some(step) => step,
        None => return Ok(Resolution::NoStep),
    };
    let condition = match read_condition(alloc, unit, names, asked.condition, step) {
        Ok(condition) => condition,
        Err(SyntaxFault::NoMemory) => return Err(AllocError),
        Err(SyntaxFault::InText { .. }) => return Ok(Resolution::BadCondition),
    };
    resolve_at(alloc, unit, names, asked, step, condition, breakpoints)
}

/// Resolves a line whose step and condition were found.
fn resolve_at(
    alloc: Global,
    unit: &Unit,
    names: &Names,
    asked: &SourceBreakpoint,
    step: StepNumber,
    condition: Option<BoundCondition>,
    breakpoints: &mut Vec<Breakpoint>,
) -> Result<Resolution, AllocError>
    requires names { names.now ≡ unit.now.tree.program }
    requires there { step_from (program_of unit.now) asked.now.line ≡ Some step }
    requires condition { IsBoundConditionOf (program_of unit.now) step asked.now.condition.now condition }
    ensures { IfOk result (ResolvesLine (program_of unit.now) (plain_line asked.now) breakpoints.old.items
        breakpoints.new.items) }
{
    let rule = match read_rule(asked.hit_condition) {
        Ok(rule) => rule,
        Err(BadHitCondition) => return Ok(Resolution::BadHitCondition),
    };
    let message = match read_message(alloc, unit, names, asked.log_message, step) {
        Ok(message) => message,
        Err(fault) => return without_message(fault),
    };
    let number = breakpoints.len();
    breakpoints.push(Breakpoint {
        number,
        step,
        condition,
        rule,
        message,
    })?;
    Ok(Resolution::At(step))
}

/// Returns what a line is resolved to whose message wasn't read.
fn without_message(fault: MessageFault) -> Result<Resolution, AllocError>
    ensures { IfOk result (λ resolution. (resolution ≡ BadLogMessage) × (fault ≡ Bad)) }
{
    match fault {
        MessageFault::NoMemory => Err(AllocError),
        MessageFault::Bad => Ok(Resolution::BadLogMessage),
    }
}

/// Returns the first step at a line or after it.
fn first_step(unit: &Unit, line: u32) -> Option<StepNumber>
    ensures { result ≡ step_from (program_of unit.now) line }
{
    let first = unit.steps.partition_point(|step| step.place.line < line);
    (first < unit.steps.len()).then_some(first)
}

/// Reads the condition of a text, bound to the names that a step can use; `None` if the text is empty.
fn read_condition(
    alloc: Global,
    unit: &Unit,
    names: &Names,
    text: &str,
    step: StepNumber,
) -> Result<Option<BoundCondition>, SyntaxFault>
    requires names { names.now ≡ unit.now.tree.program }
    requires within { step < length (steps (program_of unit.now)) }
    ensures condition { IfOk result (IsBoundConditionOf (program_of unit.now) step text.now) }
    ensures fault { IfErr result (FaultIs (λ kind place. ¬ HasConditionAt (program_of unit.now) step text.now)) }
{
    if text.is_empty() {
        return Ok(None);
    }
    editor_laws();
    let condition = match parse_condition(alloc, text.as_bytes(), names, &unit.steps, step) {
        Ok(condition) => condition,
        Err(fault) => return Err(fault),
    };
    match bind(alloc, unit, names, text, step, condition) {
        Ok(bound) => Ok(Some(bound)),
        Err(_) => Err(SyntaxFault::NoMemory),
    }
}

/// Returns a condition that was read, with what its names mean in the block of a step.
fn bind(
    alloc: Global,
    unit: &Unit,
    names: &Names,
    text: &str,
    step: StepNumber,
    condition: Condition,
) -> Result<BoundCondition, AllocError>
    requires names { names.now ≡ unit.now.tree.program }
    requires within { step < length (steps (program_of unit.now)) }
    requires reads { ∥ ReadsAs text.now (plain_condition condition) ∥₁ }
    ensures text { IfOk result (λ c. text_condition c
        ≡ record { text = text.now; condition = plain_condition condition }) }
    ensures bound { IfOk result (λ c. IsBoundAt (program_of unit.now) step (Some c)) }
{
    let number = unit.steps[step].block;
    let located = bind_condition(alloc, names, number, &condition)?;
    let asked = comparison_at(unit, step, &located);
    let shared = Arc::new(alloc, located)?;
    let text = String::from_str(alloc, text)?;
    Ok(BoundCondition {
        text,
        condition,
        located: shared,
        asked,
    })
}
