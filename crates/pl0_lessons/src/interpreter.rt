//! A step's instructions, one by one, with the operands on the stack.

ghost use Rattle.std.specs.Prelude.{◌≡◌, ◌+◌, ◌<◌, ◌^◌, ◌++◌, IfOk, OnOk, slice_get};
ghost use Rattle.pl0_unit.specs.Mnemonics.{instruction_text};
ghost use Rattle.pl0_lessons.specs.Interpreter.{entered_lines, first_lines, instruction_and, instruction_line, jumped_lines, led, of_one, of_two, onward_lines, operand_text, operands_text, operated, passed_lines, put, top};
ghost use Rattle.pl0_lessons.specs.Taken.{IsTaken};

use crate::columns::{put_left, put_right_column};
use pl0_machine::StepOutcome;
use pl0_meaning::{RunFault, apply, compare, is_odd, negate};
use pl0_tree::{Operator, Relation};
use pl0_unit::{Instruction, Operation};
use std::alloc::{AllocError, Global};

/// The width of the column of an address.
const ADDRESS_WIDTH: usize = 18;

/// The width of the column of an instruction.
const INSTRUCTION_WIDTH: usize = 14;

/// Does an operation on the operands of a step, the top last, and returns whether it did. It doesn't where operands are
/// missing, where it faults, and where it ends the step; the operands are as before then.
///
/// # Errors
///
/// `AllocError`, where an allocation failed.
pub fn operate(operation: Operation, stack: &mut Vec<i64>) -> Result<bool, AllocError>
    ensures { IfOk result (IsTaken (operated operation stack.old.items) stack.old.items stack.new.items) }
{
    match operation {
        Operation::Negate | Operation::Odd => {
            let outcome = of_one(operation, top(stack, 1));
            put_outcome(stack, 1, outcome)
        }
        _ => {
            let outcome = of_two(operation, top(stack, 2), top(stack, 1));
            put_outcome(stack, 2, outcome)
        }
    }
}

/// Returns the operand that has n - 1 above it.
fn top(stack: &[i64], n: usize) -> Option<i64>
    ensures { result ≡ top n stack.now }
{
    if stack.len() < n {
        return None;
    }
    stack.get(stack.len() - n).copied()
}

/// Puts the result of an operation in the place of its operands, and returns whether there is one.
fn put_outcome(
    stack: &mut Vec<i64>,
    operands: usize,
    outcome: Option<Result<i64, RunFault>>,
) -> Result<bool, AllocError>
    ensures { IfOk result (IsTaken (put operands stack.old.items outcome) stack.old.items stack.new.items) }
{
    match outcome {
        Some(Ok(number)) => {
            stack.truncate(stack.len().saturating_sub(operands));
            stack.push(number)?;
            Ok(true)
        }
        _ => Ok(false),
    }
}

/// Returns the result of an operation of one operand.
fn of_one(operation: Operation, operand: Option<i64>) -> Option<Result<i64, RunFault>>
    ensures { result ≡ of_one operation operand }
{
    match (operation, operand) {
        (Operation::Negate, Some(number)) => Some(negate(number)),
        (Operation::Odd, Some(number)) => Some(Ok(is_odd(number) as i64)),
        _ => None,
    }
}

/// Returns the result of an operation of two operands. A truth value is 1 or 0.
fn of_two(
    operation: Operation,
    first: Option<i64>,
    second: Option<i64>,
) -> Option<Result<i64, RunFault>>
    ensures { result ≡ of_two operation first second }
{
    let (Some(x), Some(y)) = (first, second) else {
        return None;
    };
    match operation {
        Operation::Add => Some(apply(Operator::Add, x, y)),
        Operation::Subtract => Some(apply(Operator::Subtract, x, y)),
        Operation::Multiply => Some(apply(Operator::Multiply, x, y)),
        Operation::Divide => Some(apply(Operator::Divide, x, y)),
        Operation::Equal => Some(Ok(compare(Relation::Equal, x, y) as i64)),
        Operation::Unequal => Some(Ok(compare(Relation::Unequal, x, y) as i64)),
        Operation::Less => Some(Ok(compare(Relation::Less, x, y) as i64)),
        Operation::AtLeast => Some(Ok(compare(Relation::AtLeast, x, y) as i64)),
        Operation::Greater => Some(Ok(compare(Relation::Greater, x, y) as i64)),
        Operation::AtMost => Some(Ok(compare(Relation::AtMost, x, y) as i64)),
        _ => None,
    }
}

/// Returns where the instruction at an address leads that ends a step, with the newest frame's return address `back`.
pub fn led(back: usize, instruction: Instruction, address: usize, stack: &[i64]) -> Option<usize>
    requires { address + 1 < 2 ^ 64 }
    ensures { result ≡ led back instruction address stack.now }
{
    match instruction {
        Instruction::Store { .. } | Instruction::Operate(Operation::Write) => Some(address + 1),
        Instruction::Operate(Operation::Return) => Some(back),
        Instruction::Call {
            address: target,
            ..
        } => Some(target),
        Instruction::JumpIfZero(target) => match top(stack, 1) {
            Some(0) => Some(target),
            Some(_) => Some(address + 1),
            None => None,
        },
        _ => None,
    }
}

/// Appends the line of an instruction: its address, its name, level and address, and the operands before it, the top last.
///
/// # Errors
///
/// `AllocError`, where an allocation failed.
pub fn put_instruction(
    alloc: Global,
    page: &mut Vec<u8>,
    address: usize,
    instruction: Instruction,
    stack: &[i64],
) -> Result<(), AllocError>
    ensures { OnOk result (page.new.items ≡ page.old.items ++ instruction_line address instruction stack.now) }
{
    let number = format!(in alloc; "{address}")?;
    put_right_column(page, ADDRESS_WIDTH, number.as_bytes())?;
    let text = instruction.to_string(alloc)?;
    put_with_operands(alloc, page, text.as_bytes(), stack)?;
    page.push(b'\n')?;
    Ok(())
}

/// Appends a text, and operands in the next column, if there are any.
fn put_with_operands(
    alloc: Global,
    page: &mut Vec<u8>,
    text: &[u8],
    stack: &[i64],
) -> Result<(), AllocError>
    ensures { OnOk result (page.new.items ≡ page.old.items ++ instruction_and text.now stack.now) }
{
    if stack.is_empty() {
        return page.extend_from_slice(text);
    }
    put_left(page, INSTRUCTION_WIDTH, text)?;
    put_operands(alloc, page, stack)
}

/// Appends operands, each with a space before it.
fn put_operands(alloc: Global, page: &mut Vec<u8>, stack: &[i64]) -> Result<(), AllocError>
    ensures { OnOk result (page.new.items ≡ page.old.items ++ operands_text stack.now) }
{
    for operand in stack {
        put_operand(alloc, page, *operand)?;
    }
    Ok(())
}

/// Appends an operand with a space before it.
fn put_operand(alloc: Global, page: &mut Vec<u8>, operand: i64) -> Result<(), AllocError>
    ensures { OnOk result (page.new.items ≡ page.old.items ++ operand_text operand) }
{
    let text = format!(in alloc; " {operand}")?;
    page.extend_from_slice(text.as_bytes())
}

/// Appends the lines of the instructions that are passed before the first step, at position 0.
///
/// # Errors
///
/// `AllocError`, where an allocation failed.
pub fn put_first(
    alloc: Global,
    page: &mut Vec<u8>,
    code: &[Instruction],
    position: u64,
) -> Result<(), AllocError>
    ensures { OnOk result (page.new.items ≡ page.old.items ++ first_lines code.now position) }
{
    if position == 0 {
        return put_passed(alloc, page, code, 0);
    }
    Ok(())
}

/// Appends the lines of the instructions that are passed after a step of this outcome, which led to an address.
///
/// # Errors
///
/// `AllocError`, where an allocation failed.
pub fn put_onward(
    alloc: Global,
    page: &mut Vec<u8>,
    code: &[Instruction],
    outcome: StepOutcome,
    to: Option<usize>,
) -> Result<(), AllocError>
    ensures { OnOk result (page.new.items ≡ page.old.items ++ onward_lines code.now outcome to) }
{
    match (outcome, to) {
        (StepOutcome::Went(_), Some(address)) => put_passed(alloc, page, code, address),
        _ => Ok(()),
    }
}

/// Appends the lines of the instructions from an address on that begin no step.
fn put_passed(
    alloc: Global,
    page: &mut Vec<u8>,
    code: &[Instruction],
    address: usize,
) -> Result<(), AllocError>
    ensures { OnOk result (page.new.items ≡ page.old.items ++ passed_lines code.now address) }
{
    match code.get(address) {
        Some(instruction) => put_jumped(alloc, page, code, address, *instruction),
        None => Ok(()),
    }
}

/// Appends the line of the instruction at an address if it is a jump, and of that behind it which makes a block's cells.
fn put_jumped(
    alloc: Global,
    page: &mut Vec<u8>,
    code: &[Instruction],
    address: usize,
    instruction: Instruction,
) -> Result<(), AllocError>
    ensures { OnOk result (page.new.items ≡ page.old.items ++ jumped_lines code.now address instruction) }
{
    match instruction {
        Instruction::Jump(target) => {
            put_instruction(alloc, page, address, instruction, &[])?;
            put_entered(alloc, page, code, target)
        }
        _ => Ok(()),
    }
}

/// Appends the line of the instruction at an address if it makes the cells of a block.
fn put_entered(
    alloc: Global,
    page: &mut Vec<u8>,
    code: &[Instruction],
    address: usize,
) -> Result<(), AllocError>
    ensures { OnOk result (page.new.items ≡ page.old.items ++ entered_lines address (slice_get code.now address)) }
{
    match code.get(address).copied() {
        Some(Instruction::Enter(count)) => {
            put_instruction(alloc, page, address, Instruction::Enter(count), &[])
        }
        _ => Ok(()),
    }
}
