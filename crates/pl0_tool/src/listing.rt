//! The listing of a program: the code under each line of its text.

use crate::lines::first_line;
use pl0_lessons::{put_left, put_right};
use pl0_tree::StepNumber;
use pl0_unit::{Instruction, Operation, Unit};
use std::alloc::{AllocError, Global};

/// The width of the column of marks.
const MARK_WIDTH: usize = 10;

/// The width of the column of addresses.
const ADDRESS_WIDTH: usize = 5;

/// The width of an instruction's text before what its operation is called.
const TEXT_WIDTH: usize = 10;

/// Returns the text of a program with the code of each line under it. An instruction has a mark `@n` where it begins
/// step n, its number, its name, level and address, and the name of its operation.
///
/// # Errors
///
/// `AllocError`, where an allocation failed.
pub(crate) fn listing(alloc: Global, unit: &Unit) -> Result<Vec<u8>, AllocError> {
    let mut listed = Vec::new(alloc);
    let mut left = unit.tree.text.as_slice();
    let mut line = 0;
    for (address, instruction) in unit.code.iter().enumerate() {
        let wanted = line_of(unit, address, *instruction).max(line);
        left = put_lines(&mut listed, left, (wanted - line) as usize)?;
        line = wanted;
        put_instruction(alloc, &mut listed, unit, address, *instruction)?;
    }
    // There are no more lines than bytes.
    put_lines(&mut listed, left, left.len())?;
    Ok(listed)
}

/// Appends the first lines of a text, as many as it has of this `count`, and returns what follows them.
fn put_lines<'a>(
    listed: &mut Vec<u8>,
    text: &'a [u8],
    count: usize,
) -> Result<&'a [u8], AllocError> {
    let mut left = text;
    for put in 0..count {
        let Some((line, behind)) = first_line(left) else {
            return Ok(left);
        };
        listed.extend_from_slice(line)?;
        listed.push(b'\n')?;
        left = behind;
    }
    Ok(left)
}

/// Returns the line under which an instruction stands, by its number: that of its step, and 0 where it has none.
fn line_of(unit: &Unit, address: usize, instruction: Instruction) -> u32 {
    match step_of(unit, address, instruction) {
        Some(number) if number < unit.steps.len() => unit.steps[number].place.line,
        _ => 0,
    }
}

/// Returns the step with which an instruction stands: the one that it begins. What enters a block stands with the step
/// that follows.
fn step_of(unit: &Unit, address: usize, instruction: Instruction) -> Option<StepNumber> {
    if enters(address, instruction) {
        first_begun(unit.begun_steps.as_slice(), address)
    } else {
        step_at(unit, address)
    }
}

/// Whether an instruction enters a block.
fn enters(address: usize, instruction: Instruction) -> bool {
    match instruction {
        Instruction::Enter(_) => true,
        Instruction::Jump(target) => address < target,
        _ => false,
    }
}

/// Returns the first step that is begun at an address or behind it.
fn first_begun(begun: &[Option<StepNumber>], address: usize) -> Option<StepNumber> {
    for index in address..begun.len() {
        if let Some(step) = begun[index] {
            return Some(step);
        }
    }
    None
}

/// Returns the step that the instruction at an address begins, if it begins one.
fn step_at(unit: &Unit, address: usize) -> Option<StepNumber> {
    *unit.begun_steps.get(address)?
}

/// Appends an instruction.
fn put_instruction(
    alloc: Global,
    listed: &mut Vec<u8>,
    unit: &Unit,
    address: usize,
    instruction: Instruction,
) -> Result<(), AllocError> {
    let mark = mark(alloc, step_at(unit, address))?;
    put_right(listed, MARK_WIDTH, mark.as_bytes())?;
    listed.push(b' ')?;
    let number = format!(in alloc; "{address}")?;
    put_right(listed, ADDRESS_WIDTH, number.as_bytes())?;
    listed.push(b' ')?;
    put_text(alloc, listed, instruction)?;
    listed.extend_from_slice(b"\n")
}

/// Returns the mark of a step that is begun, if one is.
fn mark(alloc: Global, begun: Option<StepNumber>) -> Result<String, AllocError> {
    match begun {
        Some(step) => format!(in alloc; "@{step}"),
        None => Ok(String::new(alloc)),
    }
}

/// Appends an instruction's name, level and address, and what its operation is called.
fn put_text(
    alloc: Global,
    listed: &mut Vec<u8>,
    instruction: Instruction,
) -> Result<(), AllocError> {
    let text = instruction.to_string(alloc)?;
    match instruction {
        Instruction::Operate(operation) => {
            put_left(listed, TEXT_WIDTH, text.as_bytes())?;
            listed.extend_from_slice(operation_name(operation).as_bytes())
        }
        _ => listed.extend_from_slice(text.as_bytes()),
    }
}

/// Returns what an operation is called.
fn operation_name(operation: Operation) -> &'static str {
    match operation {
        Operation::Return => "return",
        Operation::Negate => "negate",
        Operation::Add => "add",
        Operation::Subtract => "subtract",
        Operation::Multiply => "multiply",
        Operation::Divide => "divide",
        Operation::Odd => "odd",
        Operation::Equal => "equal",
        Operation::Unequal => "not equal",
        Operation::Less => "less",
        Operation::AtLeast => "not less",
        Operation::Greater => "greater",
        Operation::AtMost => "not greater",
        Operation::Write => "write",
    }
}
