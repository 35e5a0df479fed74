//! Expressions and conditions whose names were looked up once, for the frames of one block.

ghost use Rattle.std.specs.Prelude.{◌≡◌, ◌≤◌, length};
ghost use Rattle.std.specs.Result.{result_ok};
ghost use Rattle.pl0_machine.specs.LocatedValues.{value_by, truth_by, CanReadBy, CanTestBy, numbers_there};

use crate::evaluate::load;
use pl0_meaning::{apply, compare, is_odd, negate};
use pl0_tree::{Operator, Relation};
use pl0_unit::FRAME_HEAD;

/// An expression of one block.
#[derive(Drop)]
pub enum LocatedExpression {
    /// A number, that of a constant, or 0 for a name that can't be read.
    Number(i64),
    /// A variable: how many static links lead to its frame, and its index there.
    Variable { level: usize, index: usize },
    Negate(Box<LocatedExpression>),
    Binary(Operator, Box<LocatedExpression>, Box<LocatedExpression>),
}

/// A condition of one block.
#[derive(Drop)]
pub enum LocatedCondition {
    Odd(LocatedExpression),
    Compare(Relation, LocatedExpression, LocatedExpression),
}

/// The same as `value_of`, at once for a number or a variable of the frame itself.
#[inline(always)]
#[cycle(value)]
fn operand_of(cells: &[i64], base: usize, top: usize, operand: &LocatedExpression) -> Option<i64>
    requires within { top ≤ length cells.now }
    requires can { CanReadBy (numbers_there cells.now base top) operand.now }
    ensures { result ≡ result_ok (value_by (numbers_there cells.now base top) operand.now) }
{
    match operand {
        LocatedExpression::Number(number) => Some(*number),
        LocatedExpression::Variable { level: 0, index } => Some(cells[base + FRAME_HEAD + *index]),
        _ => value_of(cells, base, top, operand),
    }
}

/// The value of an expression in the frame that begins at `base`; `None` if it faults.
#[cycle(value)]
fn value_of(cells: &[i64], base: usize, top: usize, expression: &LocatedExpression) -> Option<i64>
    requires within { top ≤ length cells.now }
    requires can { CanReadBy (numbers_there cells.now base top) expression.now }
    ensures { result ≡ result_ok (value_by (numbers_there cells.now base top) expression.now) }
{
    match expression {
        LocatedExpression::Number(number) => Some(*number),
        LocatedExpression::Variable { level, index } => Some(load(
            cells,
            base,
            *level,
            FRAME_HEAD + *index,
            top,
        )),
        LocatedExpression::Negate(inner) => negate(operand_of(cells, base, top, inner)?).ok(),
        LocatedExpression::Binary(operator, left, right) => {
            let x = operand_of(cells, base, top, left)?;
            let y = operand_of(cells, base, top, right)?;
            apply(*operator, x, y).ok()
        }
    }
}

/// The same as `value_of`, at once for a number or a variable.
#[inline(always)]
fn reach(cells: &[i64], base: usize, top: usize, operand: &LocatedExpression) -> Option<i64>
    requires within { top ≤ length cells.now }
    requires can { CanReadBy (numbers_there cells.now base top) operand.now }
    ensures { result ≡ result_ok (value_by (numbers_there cells.now base top) operand.now) }
{
    match operand {
        LocatedExpression::Number(number) => Some(*number),
        LocatedExpression::Variable { level, index } => Some(load(
            cells,
            base,
            *level,
            FRAME_HEAD + *index,
            top,
        )),
        _ => value_of(cells, base, top, operand),
    }
}

/// The same as `reach`, at once also for an operator between two operands: what most conditions have on a side.
#[inline(always)]
fn side_of(cells: &[i64], base: usize, top: usize, side: &LocatedExpression) -> Option<i64>
    requires within { top ≤ length cells.now }
    requires can { CanReadBy (numbers_there cells.now base top) side.now }
    ensures { result ≡ result_ok (value_by (numbers_there cells.now base top) side.now) }
{
    match side {
        LocatedExpression::Binary(operator, left, right) => {
            let left = operand_of(cells, base, top, left)?;
            let right = operand_of(cells, base, top, right)?;
            apply(*operator, left, right).ok()
        }
        _ => reach(cells, base, top, side),
    }
}

/// Whether a condition holds in the frame that begins at `base`; `None` if it faults.
#[inline(always)]
pub fn truth_of(
    cells: &[i64],
    base: usize,
    top: usize,
    condition: &LocatedCondition,
) -> Option<bool>
    requires within { top ≤ length cells.now }
    requires can { CanTestBy (numbers_there cells.now base top) condition.now }
    ensures { result ≡ result_ok (truth_by (numbers_there cells.now base top) condition.now) }
{
    match condition {
        LocatedCondition::Odd(expression) => {
            Some(is_odd(side_of(cells, base, top, expression)?))
        }
        LocatedCondition::Compare(relation, left, right) => {
            let x = side_of(cells, base, top, left)?;
            let y = reach(cells, base, top, right)?;
            Some(compare(*relation, x, y))
        }
    }
}
