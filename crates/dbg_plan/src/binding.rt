//! Looks up the names of expressions and conditions, by their text.

ghost use Rattle.std.specs.Prelude.{◌≡◌, ◌<◌, length, slice_get, Some, IfOk};
ghost use Rattle.pl0_tree.specs.Plain.{plain_expression, plain_condition, plain_block};
ghost use Rattle.pl0_tree.specs.Scope.{Path, home};
ghost use Rattle.pl0_tree.specs.Steps.{blocks};
ghost use Rattle.dbg_plan.specs.Bound.{IsNameBound, IsExpressionBound, IsConditionBound};
ghost use Rattle.dbg_plan.specs.Reads.{bound_of};

use pl0_machine::{LocatedCondition, LocatedExpression};
use pl0_syntax::{Meaning, Names};
use pl0_tree::{Condition, Expression};
use std::alloc::{AllocError, Global};

/// What a name stands for in the frames of a block.
#[derive(Clone, Copy)]
pub enum Located {
    /// A constant, by its number, or a name that can't be read, by 0.
    Number(i64),
    /// A variable: how many static links lead to its frame, and its index there.
    Variable { level: usize, index: usize },
}

/// Returns what a name stands for in the block with this number. A name that can't be read counts as 0.
pub fn locate(names: &Names, number: u32, text: &str) -> Located
    requires { number < length (blocks (plain_block names.now)) }
    ensures { (q : Path) → slice_get (blocks (plain_block names.now)) number ≡ Some q →
        IsNameBound (plain_block names.now) q (home (plain_block names.now) q text.now) (bound_of result) }
{
    let Some(home) = names.find(number, text) else {
        return Located::Number(0);
    };
    match home.meaning {
        Meaning::Constant(index) => Located::Number(home.block.constants[index].value),
        Meaning::Variable(index) => Located::Variable {
            level: home.level,
            index,
        },
        Meaning::Procedure(_) => Located::Number(0),
    }
}

/// Returns an expression with its names looked up for the block with this number.
///
/// # Errors
///
/// Out of memory.
pub fn bind_expression(
    alloc: Global,
    names: &Names,
    number: u32,
    expression: &Expression,
) -> Result<LocatedExpression, AllocError>
    requires { number < length (blocks (plain_block names.now)) }
    ensures { (q : Path) → slice_get (blocks (plain_block names.now)) number ≡ Some q →
        IfOk result (IsExpressionBound (plain_block names.now) q (plain_expression expression.now)) }
{
    match expression {
        Expression::Name(name) => {
            let located = locate(names, number, name.text.as_str());
            Ok(expression_of(located))
        }
        Expression::Number(value) => Ok(LocatedExpression::Number(*value)),
        Expression::Negate(inner) => {
            let inner = bind_expression(alloc, names, number, inner)?;
            Ok(LocatedExpression::Negate(Box::new(alloc, inner)?))
        }
        Expression::Binary(operator, left, right) => {
            let left = bind_expression(alloc, names, number, left)?;
            let right = bind_expression(alloc, names, number, right)?;
            let left = Box::new(alloc, left)?;
            let right = Box::new(alloc, right)?;
            Ok(LocatedExpression::Binary(*operator, left, right))
        }
    }
}

/// Returns a name that was looked up as an expression.
fn expression_of(located: Located) -> LocatedExpression
    ensures { result ≡ bound_of located }
{
    match located {
        Located::Number(number) => LocatedExpression::Number(number),
        Located::Variable { level, index } => LocatedExpression::Variable { level, index },
    }
}

/// Returns a condition with its names looked up for the block with this number.
///
/// # Errors
///
/// Out of memory.
pub fn bind_condition(
    alloc: Global,
    names: &Names,
    number: u32,
    condition: &Condition,
) -> Result<LocatedCondition, AllocError>
    requires { number < length (blocks (plain_block names.now)) }
    ensures { (q : Path) → slice_get (blocks (plain_block names.now)) number ≡ Some q →
        IfOk result (IsConditionBound (plain_block names.now) q (plain_condition condition.now)) }
{
    match condition {
        Condition::Odd(expression) => {
            let bound = bind_expression(alloc, names, number, expression)?;
            Ok(LocatedCondition::Odd(bound))
        }
        Condition::Compare(relation, left, right) => {
            let left = bind_expression(alloc, names, number, left)?;
            let right = bind_expression(alloc, names, number, right)?;
            Ok(LocatedCondition::Compare(*relation, left, right))
        }
    }
}
