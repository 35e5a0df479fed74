//! A program that runs, step by step.

ghost use Rattle.std.specs.Prelude.{◌≡◌, IfOk};
ghost use Rattle.stack_language.specs.Language.{IsInitial, Steps, plain_state};
ghost use Rattle.stack_language.specs.Shown.{IsFirstFrom, has_instruction, line_called, line_of_frame};

use crate::program::Instruction;
use crate::state::{Outcome, State};
use std::alloc::{AllocError, Global};

/// A program, and its state.
#[derive(Drop)]
pub struct Machine {
    program: Vec<Instruction>,
    state: State,
}

impl Machine {
    /// Returns a machine before the first line, whose first variable is the input.
    pub(crate) fn new(alloc: Global, program: Vec<Instruction>, input: i64) -> Machine
        ensures initial { IsInitial input (plain_state result.state) }
        ensures program { result.program ≡ program }
    {
        Machine {
            program,
            state: State::new(alloc, input),
        }
    }

    /// Returns the state.
    pub(crate) fn state(&self) -> &State
        ensures { result.now ≡ self.now.state }
    {
        &self.state
    }

    /// Takes a step. One that fails changes nothing.
    ///
    /// # Errors
    ///
    /// An allocation failed.
    pub(crate) fn take_step(&mut self) -> Result<Outcome, AllocError>
        ensures { IfOk result (λ outcome. Steps self.old outcome self.new) }
    {
        let Some(instruction) = self.program.get(self.state.line).copied() else {
            return Ok(Outcome::Ended);
        };
        let state = &mut self.state;
        match instruction {
            Instruction::Nothing => Ok(state.go_on()),
            Instruction::Push(number) => state.push(number),
            Instruction::Load(variable) => state.push(state.value(variable)),
            Instruction::Store(variable) => Ok(state.store(variable)),
            Instruction::Calculate(operator) => Ok(state.calculate(operator)),
            Instruction::Print => Ok(state.print()),
            Instruction::Jump(line) => Ok(state.jump(line)),
            Instruction::JumpZero(line) => Ok(state.jump_if_zero(line)),
            Instruction::Call(line) => state.call(line),
            Instruction::Return => Ok(state.return_from_call()),
        }
    }

    /// Returns the line where a frame stands, of which the newest is 0: the line that comes next, or the call that made
    /// the frame before it.
    pub fn line_of_frame(&self, frame: usize) -> usize
        ensures { result ≡ line_of_frame self.now frame }
    {
        if frame == 0 {
            return self.state.line;
        }
        let index = self.state.returns.len().saturating_sub(frame);
        let line = self.state.returns.get(index).copied().unwrap_or(0);
        line.saturating_sub(1)
    }

    /// Returns the line that was called when a frame was made, of which the newest is 0; `None` for the oldest.
    pub fn line_called(&self, frame: usize) -> Option<usize>
        ensures { result ≡ line_called self.now frame }
    {
        if self.state.returns.len() <= frame {
            return None;
        }
        match self
            .program
            .get(self.line_of_frame(frame.saturating_add(1)))
        {
            Some(Instruction::Call(line)) => Some(*line),
            _ => None,
        }
    }

    /// Returns the first line at or after one that has an instruction.
    pub fn line_at_or_after(&self, line: usize) -> Option<usize>
        ensures { IsFirstFrom self.now line result }
    {
        for index in line..self.program.len() {
            if self.has_instruction(index) {
                return Some(index);
            }
        }
        None
    }

    /// Whether a line has an instruction.
    pub fn has_instruction(&self, line: usize) -> bool
        ensures { result ≡ has_instruction self.now line }
    {
        !matches!(self.program.get(line), Some(Instruction::Nothing) | None)
    }
}
