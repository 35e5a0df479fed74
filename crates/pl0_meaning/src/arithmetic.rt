//! Arithmetic on numbers of 64 bits with a sign.

ghost use Rattle.std.specs.Prelude.{◌≡◌, neg_ℤ};
ghost use Rattle.pl0_meaning.specs.Values.{operation, comparison, checked, is_odd};
ghost use Rattle.pl0_meaning.specs.Arithmetic.{IsArithmetic};

use crate::RunFault;
use pl0_tree::{Operator, Relation};

/// Returns the result of an operation on two numbers. A quotient is rounded toward zero.
///
/// # Errors
///
/// `Overflow` if the result doesn't fit 64 bits with a sign, `DivideByZero` if the divisor is 0.
#[inline(always)]
pub fn apply(operator: Operator, x: i64, y: i64) -> Result<i64, RunFault>
    ensures value { result ≡ operation operator x y }
    ensures faults { IsArithmetic result }
{
    match operator {
        Operator::Add => x.checked_add(y).ok_or(RunFault::Overflow),
        Operator::Subtract => x.checked_sub(y).ok_or(RunFault::Overflow),
        Operator::Multiply => x.checked_mul(y).ok_or(RunFault::Overflow),
        Operator::Divide => {
            if y == 0 {
                Err(RunFault::DivideByZero)
            } else {
                x.checked_div(y).ok_or(RunFault::Overflow)
            }
        }
    }
}

/// Returns the negative of a number.
///
/// # Errors
///
/// `Overflow` if the result doesn't fit 64 bits with a sign.
#[inline(always)]
pub fn negate(x: i64) -> Result<i64, RunFault>
    ensures value { result ≡ checked (neg_ℤ x) }
    ensures faults { IsArithmetic result }
{
    x.checked_neg().ok_or(RunFault::Overflow)
}

/// Whether a comparison of two numbers holds.
#[inline(always)]
pub fn compare(relation: Relation, x: i64, y: i64) -> bool
    ensures { result ≡ comparison relation x y }
{
    match relation {
        Relation::Equal => x == y,
        Relation::Unequal => x != y,
        Relation::Less => x < y,
        Relation::AtMost => x <= y,
        Relation::Greater => x > y,
        Relation::AtLeast => x >= y,
    }
}

/// Whether a number is odd.
#[inline(always)]
pub fn is_odd(x: i64) -> bool
    ensures { result ≡ is_odd x }
{
    x % 2 != 0
}
