//! The values of expressions and conditions in the frames of a machine.

ghost use Rattle.std.specs.Prelude.{◌≡◌, ◌<◌, Ok};
ghost use Rattle.pl0_tree.specs.Plain.{plain_expression};
ghost use Rattle.pl0_meaning.specs.Values.{value, name_number, or_zero};
ghost use Rattle.pl0_meaning.specs.Arithmetic.{IsArithmetic};
ghost use Rattle.pl0_machine.specs.Machine.{program, frames, depth_of};
ghost use Rattle.dbg_plan.specs.Debugged.{IsRunning};
ghost use Rattle.dbg_plan.specs.Values.{answered};
ghost use Rattle.pl0_machine.specs.LocatedValues.{located_value, located_truth, CanRead, CanTest};
ghost use Rattle.dbg_plan.specs.Counting.{holds_now, IsMetHere};

use crate::binding::{Located, locate};
use crate::breakpoint::Breakpoint;
use pl0_machine::{LocatedCondition, LocatedExpression, Machine};
use pl0_meaning::{RunFault, apply, compare, is_odd, negate};
use pl0_syntax::Names;
use pl0_tree::Expression;
use pl0_unit::Unit;

/// Why an evaluation has no result.
#[derive(Clone, Copy)]
pub enum EvalFault {
    /// A number would not fit 64 bits with a sign.
    Overflow,
    DivideByZero,
}

/// What arithmetic gives, as an evaluation's result.
#[inline(always)]
fn evaluated(outcome: Result<i64, RunFault>) -> Result<i64, EvalFault>
    requires { IsArithmetic outcome }
    ensures { outcome ≡ answered result }
{
    match outcome {
        Ok(number) => Ok(number),
        Err(RunFault::Overflow) => Err(EvalFault::Overflow),
        Err(RunFault::DivideByZero) => Err(EvalFault::DivideByZero),
        Err(RunFault::Depth | RunFault::StepLimit) => unreachable!(),
    }
}

/// The same as `value_of`, at once for a number or a variable of the frame itself.
#[inline(always)]
#[cycle(value)]
fn operand_value(
    machine: &Machine,
    frame: usize,
    operand: &LocatedExpression,
) -> Result<i64, EvalFault>
    requires { CanRead (frames machine.now) frame operand.now }
    ensures { located_value (frames machine.now) frame operand.now ≡ answered result }
{
    match operand {
        LocatedExpression::Number(number) => Ok(*number),
        LocatedExpression::Variable { level: 0, index } => Ok(machine.value(frame, *index)),
        _ => value_of(machine, frame, operand),
    }
}

/// Returns the value of a located expression in a frame of its block, the left operand first.
///
/// # Errors
///
/// The first fault of an operation, by the meaning.
#[cycle(value)]
pub fn value_of(
    machine: &Machine,
    frame: usize,
    expression: &LocatedExpression,
) -> Result<i64, EvalFault>
    requires { CanRead (frames machine.now) frame expression.now }
    ensures { located_value (frames machine.now) frame expression.now ≡ answered result }
{
    match expression {
        LocatedExpression::Number(number) => Ok(*number),
        LocatedExpression::Variable { level, index } => Ok(machine.value_up(frame, *level, *index)),
        LocatedExpression::Negate(inner) => evaluated(negate(operand_value(
            machine, frame, inner,
        )?)),
        LocatedExpression::Binary(operator, left, right) => {
            let x = operand_value(machine, frame, left)?;
            let y = operand_value(machine, frame, right)?;
            evaluated(apply(*operator, x, y))
        }
    }
}

/// Whether a located condition holds in a frame of its block.
#[inline]
fn truth_of(
    machine: &Machine,
    frame: usize,
    condition: &LocatedCondition,
) -> Result<bool, EvalFault>
    requires { CanTest (frames machine.now) frame condition.now }
    ensures { located_truth (frames machine.now) frame condition.now ≡ answered result }
{
    match condition {
        LocatedCondition::Odd(expression) => Ok(is_odd(operand_value(machine, frame, expression)?)),
        LocatedCondition::Compare(relation, left, right) => {
            let x = operand_value(machine, frame, left)?;
            let y = operand_value(machine, frame, right)?;
            Ok(compare(*relation, x, y))
        }
    }
}

/// Whether the condition of a breakpoint at the machine's step holds, or has none or faults.
#[inline]
pub fn is_met(machine: &Machine, breakpoint: &Breakpoint) -> bool
    requires running { IsRunning machine.now }
    requires here { IsMetHere machine.now breakpoint.now }
    ensures { result ≡ holds_now machine.now breakpoint.now }
{
    match &breakpoint.condition {
        None => true,
        Some(condition) => {
            let top = machine.depth() - 1;
            truth_of(machine, top, &condition.located).unwrap_or(true)
        }
    }
}

/// The number that a name stands for in a frame, 0 where the frame's block can't read it.
fn name_value(machine: &Machine, frame: usize, text: &str) -> i64
    requires { frame < depth_of machine.now }
    ensures { result ≡ or_zero (name_number (program machine.now) (frames machine.now) frame text.now) }
{
    let depth = machine.depth();
    prove!(frame < depth);
    let unit: &Unit = machine.unit();
    let view = machine.frame(frame);
    let names = Names::new(&unit.tree.program, &unit.nestings);
    match locate(&names, view.block, text) {
        Located::Number(number) => number,
        Located::Variable { level, index } => machine.value_up(frame, level, index),
    }
}

/// The value of an expression in a frame. A name that the frame's block can't read counts as 0.
///
/// # Errors
///
/// The first fault, the left operand first.
pub fn evaluate(machine: &Machine, frame: usize, expression: &Expression) -> Result<i64, EvalFault>
    requires { frame < depth_of machine.now }
    ensures { value (program machine.now) (frames machine.now) frame (plain_expression expression.now)
        ≡ answered result }
{
    match expression {
        Expression::Name(name) => Ok(name_value(machine, frame, name.text.as_str())),
        Expression::Number(number) => Ok(*number),
        Expression::Negate(inner) => evaluated(negate(evaluate(machine, frame, inner)?)),
        Expression::Binary(operator, left, right) => {
            let x = evaluate(machine, frame, left)?;
            let y = evaluate(machine, frame, right)?;
            evaluated(apply(*operator, x, y))
        }
    }
}
