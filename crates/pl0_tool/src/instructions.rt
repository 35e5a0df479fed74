//! The instructions of a step, as Wirth's interpreter does them.

ghost use Rattle.std.specs.Prelude.{◌≡◌, ◌<◌, ◌-◌, ◌++◌, [], None, ℕ, drop, IfOk, OnOk, MatchOption};
ghost use Rattle.pl0_unit.specs.Code.{frame_head};
ghost use Rattle.pl0_meaning.specs.Values.{number_of};
ghost use Rattle.pl0_machine.specs.Machine.{depth_of, frame_of, frames, number_up};
ghost use Rattle.pl0_lessons.specs.Interpreter.{after, step_led, step_lines, with_number};
ghost use Rattle.pl0_lessons.specs.Taken.{IsTaken};
ghost use Rattle.pl0_tool.specs.Instructing.{IsBegun, finished};

use crate::drawing::return_address;
use crate::tracing::variable_count;
use pl0_lessons::{led, operate, put_first, put_instruction, put_onward};
use pl0_machine::{Machine, StepOutcome};
use pl0_unit::{FRAME_HEAD, Instruction, Unit};
use std::alloc::{AllocError, Global};

/// What is told of a step's instructions before it is taken.
#[derive(Drop)]
pub struct Begun {
    pub lines: Vec<u8>,
    /// Where the last instruction leads.
    pub to: Option<usize>,
}

/// Tells the instructions of a machine's next step, if they are to be `told`, and at position 0 those that were passed on
/// the way to it.
///
/// # Errors
///
/// `AllocError`, where an allocation failed.
pub fn begin_if(told: bool, alloc: Global, machine: &Machine) -> Result<Option<Begun>, AllocError>
    requires { 0 < depth_of machine.now }
    ensures { IfOk result (IsBegun told machine.now) }
{
    if !told {
        return Ok(None);
    }
    let unit: &Unit = machine.unit();
    let code: &[Instruction] = &unit.code;
    let address = machine.address();
    let back = return_address(machine, machine.depth() - 1);
    let mut lines = Vec::new(alloc);
    put_first(alloc, &mut lines, code, machine.position())?;
    let to = put_step(alloc, &mut lines, machine, code, address, back)?;
    Ok(Some(Begun { lines, to }))
}

/// Returns the lines of a step of this outcome, with what is passed behind it in its code.
///
/// # Errors
///
/// `AllocError`, where an allocation failed.
pub fn finish(
    alloc: Global,
    code: &[Instruction],
    outcome: StepOutcome,
    begun: Option<Begun>,
) -> Result<Vec<u8>, AllocError>
    ensures { IfOk result (λ lines. lines.items ≡ finished code.now outcome begun) }
{
    match begun {
        Some(begun) => {
            let Begun { mut lines, to } = begun;
            put_onward(alloc, &mut lines, code, outcome, to)?;
            Ok(lines)
        }
        None => Ok(Vec::new(alloc)),
    }
}

/// Appends the lines of a step of a machine, whose code stands from an address on, and returns where it leads.
fn put_step(
    alloc: Global,
    lines: &mut Vec<u8>,
    machine: &Machine,
    code: &[Instruction],
    address: usize,
    back: usize,
) -> Result<Option<usize>, AllocError>
    requires { 0 < depth_of machine.now }
    ensures led { IfOk result (λ to. to ≡ step_led (frames machine.now) back (drop address code.now) address []) }
    ensures lines { OnOk result (lines.new.items
        ≡ lines.old.items ++ step_lines (frames machine.now) (drop address code.now) address []) }
{
    let mut stack = Vec::new(alloc);
    for at in address..code.len() {
        let instruction = code[at];
        put_instruction(alloc, lines, at, instruction, &stack)?;
        if !take_operand(machine, &mut stack, instruction)? {
            return Ok(led(back, instruction, at, &stack));
        }
    }
    Ok(None)
}

/// Does an instruction of a machine's newest frame with operands, and returns whether it did. It doesn't where the
/// instruction ends the step, or faults; the operands are as before then.
fn take_operand(
    machine: &Machine,
    stack: &mut Vec<i64>,
    instruction: Instruction,
) -> Result<bool, AllocError>
    requires { 0 < depth_of machine.now }
    ensures { IfOk result (IsTaken (after (frames machine.now) instruction stack.old.items)
        stack.old.items stack.new.items) }
{
    match instruction {
        Instruction::Literal(number) => put_number(stack, Some(number)),
        Instruction::Load { level, address } => put_number(stack, load(machine, level, address)),
        Instruction::Operate(operation) => operate(operation, stack),
        _ => Ok(false),
    }
}

/// Puts a number on top of operands, if there is one, and returns whether there is.
fn put_number(stack: &mut Vec<i64>, number: Option<i64>) -> Result<bool, AllocError>
    ensures { IfOk result (IsTaken (with_number number stack.old.items) stack.old.items stack.new.items) }
{
    match number {
        Some(number) => {
            stack.push(number)?;
            Ok(true)
        }
        None => Ok(false),
    }
}

/// Returns the number in a cell of the frame that is this many static links away from the newest.
fn load(machine: &Machine, level: usize, address: usize) -> Option<i64>
    requires { 0 < depth_of machine.now }
    ensures { result ≡ number_up (frames machine.now) level (address - frame_head) (depth_of machine.now - 1) }
{
    match frame_up(machine, level) {
        Some(frame) => number_in(machine, frame, address.saturating_sub(FRAME_HEAD)),
        None => None,
    }
}

/// Returns the number in a variable of a frame, if the frame has that variable.
#[tactic(auto, using(crate::proofs::ToldInstructions::no_variable))]
fn number_in(machine: &Machine, frame: usize, variable: usize) -> Option<i64>
    requires { frame < depth_of machine.now }
    ensures { result ≡ number_of (frame_of machine.now frame) variable }
{
    if variable < variable_count(machine, frame) {
        Some(machine.value(frame, variable))
    } else {
        None
    }
}

/// Returns the frame that is this many static links away from the newest.
fn frame_up(machine: &Machine, level: usize) -> Option<usize>
    requires { 0 < depth_of machine.now }
    ensures { MatchOption result
        ((k : ℕ) → number_up (frames machine.now) level k (depth_of machine.now - 1) ≡ None)
        (λ frame. (frame < depth_of machine.now) × ((k : ℕ) → number_up (frames machine.now) level k
        (depth_of machine.now - 1) ≡ number_of (frame_of machine.now frame) k)) }
{
    let mut frame = machine.depth() - 1;
    for followed in 0..level {
        match machine.static_parent(frame) {
            Some(parent) => frame = parent,
            None => return None,
        }
    }
    Some(frame)
}
