//! What the machine is asked in its loop for a condition: a comparison of numbers and of variables, of the newest frame or of
//! the main block's, or else the condition itself.

ghost use Rattle.std.specs.Prelude.{◌≡◌, IfOk, IfSome, length};
ghost use Rattle.pl0_tree.specs.Steps.{step_path};
ghost use Rattle.pl0_machine.specs.Machine.{program_of};
ghost use Rattle.pl0_machine.specs.declared.located.LocatedExpression.TheVariants.{Variable};
ghost use Rattle.dbg_plan.specs.Comparisons.{expression_of, condition_of, Asks};
ghost use Rattle.dbg_plan.specs.Table.{IsCounterOf, AreCountersOf};

use crate::breakpoint::{BoundCondition, Breakpoint};
use crate::counting::{passes_of, starts_over};
use pl0_machine::{
    Comparison, Counter, LocatedCondition, LocatedExpression, Operand, Proviso, step_depth,
};
use pl0_tree::StepNumber;
use pl0_unit::Unit;
use std::alloc::{AllocError, Global};
use std::sync::Arc;

/// Returns the machine's counters of the arrivals at these breakpoints.
///
/// # Errors
///
/// Out of memory, or the count of a condition's shares is full.
pub fn counters_for(alloc: Global, breakpoints: &[Breakpoint]) -> Result<Vec<Counter>, AllocError>
    ensures { IfOk result (λ counters. AreCountersOf breakpoints.now counters.items) }
{
    let mut counters = Vec::with_capacity(alloc, breakpoints.len())?;
    for breakpoint in breakpoints {
        let counter = counter_for(breakpoint)?;
        counters.push(counter)?;
    }
    Ok(counters)
}

/// Returns the machine's counter of the arrivals at a breakpoint.
///
/// # Errors
///
/// The count of the condition's shares is full.
fn counter_for(breakpoint: &Breakpoint) -> Result<Counter, AllocError>
    ensures { IfOk result (IsCounterOf breakpoint.now) }
{
    let proviso = match &breakpoint.condition {
        None => Proviso::Nothing,
        Some(condition) => proviso_of(condition)?,
    };
    Ok(Counter {
        proviso,
        number: breakpoint.number,
        passes: passes_of(breakpoint.rule),
        starts_over: starts_over(breakpoint.rule),
        stops: breakpoint.message.is_none(),
    })
}

/// Returns what is asked for a condition.
///
/// # Errors
///
/// The count of its shares is full.
fn proviso_of(condition: &BoundCondition) -> Result<Proviso, AllocError>
    ensures { IfOk result (Asks condition.now) }
{
    match condition.asked {
        Some(comparison) => Ok(Proviso::Comparison(comparison)),
        None => Ok(Proviso::Condition(Arc::try_clone(&condition.located)?)),
    }
}

/// Returns a condition, whose names were looked up for the block of a step, as a comparison, if it is one.
pub fn comparison_at(
    unit: &Unit,
    step: StepNumber,
    condition: &LocatedCondition,
) -> Option<Comparison>
    ensures { IfSome result (λ c. condition.now ≡ condition_of (length (step_path (program_of unit.now) step)) c) }
{
    let depth = step_depth(unit, step)?;
    comparison_of(condition, depth)
}

/// Returns a condition as a comparison, if it is one. `depth` static links lead to the main block's frame.
fn comparison_of(condition: &LocatedCondition, depth: usize) -> Option<Comparison>
    ensures { IfSome result (λ c. condition.now ≡ condition_of depth c) }
{
    let LocatedCondition::Compare(relation, left, right) = condition else {
        return None;
    };
    let left = operand_of(left, depth)?;
    let right = operand_of(right, depth)?;
    Some(Comparison {
        relation: *relation,
        left,
        right,
    })
}

/// Returns an expression as an operand, if it is one. `depth` static links lead to the main block's frame.
fn operand_of(expression: &LocatedExpression, depth: usize) -> Option<Operand>
    ensures { IfSome result (λ o. expression.now ≡ expression_of depth o) }
{
    match expression {
        LocatedExpression::Number(number) => Some(Operand::Number(*number)),
        LocatedExpression::Variable { level, index } => variable_of(*level, *index, depth),
        LocatedExpression::Negate(_) => None,
        LocatedExpression::Binary(_, _, _) => None,
    }
}

/// Returns a variable as an operand, if it is one of the frame itself or of the main block's.
fn variable_of(level: usize, index: usize, depth: usize) -> Option<Operand>
    ensures { IfSome result (λ o. Variable level index ≡ expression_of depth o) }
{
    if level == 0 {
        return Some(Operand::Variable(index));
    }
    if level == depth {
        return Some(Operand::Main(index));
    }
    None
}
