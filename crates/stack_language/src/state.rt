//! What each instruction does.

ghost use Rattle.std.specs.Prelude.{◌≡◌, ◌<◌, ◌≤◌, ◌-◌, ◌^◌, IfOk, length};
ghost use Rattle.stack_language.specs.Language.{AreTopTwo, Does, IsInitial, make_one, plain_state, result_of, set, value_of};
ghost use Rattle.stack_language.specs.declared.program.Instruction.TheVariants.{Nothing, Push, Store, Calculate, Print, Jump, JumpZero, Call, Return};

use crate::program::{Operator, VARIABLES};
use std::alloc::{AllocError, Global};

/// The most numbers on the stack, and the most calls that are alive at once.
const MOST: usize = 1000;

/// Why an instruction can't be carried out.
#[derive(Clone, Copy)]
pub enum Fault {
    /// The result doesn't fit 64 bits with a sign.
    Overflow,
    DivisionByZero,
    /// It takes more numbers than there are.
    TooFew,
    /// There would be a number or a call too many.
    TooMany,
}

/// What an instruction comes to.
#[derive(Clone, Copy)]
pub enum Outcome {
    Went,
    Printed(i64),
    Ended,
    /// Nothing has changed.
    Failed(Fault),
}

/// A state of a program.
#[derive(Drop)]
pub struct State {
    /// The line that comes next, of which the first is 0.
    pub line: usize,
    /// The numbers on the stack, the top one last.
    pub numbers: Vec<i64>,
    /// The lines where the calls that are alive return to, the newest call last.
    pub returns: Vec<usize>,
    /// The values of `a` to `z`.
    pub variables: [i64; VARIABLES],
}

impl State {
    /// Returns the state before the first line.
    pub fn new(alloc: Global, input: i64) -> State
        ensures { IsInitial input (plain_state result) }
    {
        let mut state = State {
            line: 0,
            numbers: Vec::new(alloc),
            returns: Vec::new(alloc),
            variables: [0; VARIABLES],
        };
        state.set(0, input);
        state
    }

    /// Returns the value of a variable; 0 where there is none.
    pub fn value(&self, variable: usize) -> i64
        ensures { result ≡ value_of variable (plain_state self.now) }
    {
        self.variables.get(variable).copied().unwrap_or(0)
    }

    /// Goes on to the next line.
    pub fn go_on(&mut self) -> Outcome
        requires { self.old.line < 2 ^ 64 - 1 }
        ensures { Does Nothing self.old result self.new }
    {
        self.line += 1;
        Outcome::Went
    }

    /// Goes on at this line.
    pub fn jump(&mut self, line: usize) -> Outcome
        ensures { Does (Jump line) self.old result self.new }
    {
        self.line = line;
        Outcome::Went
    }

    /// Puts a number on the stack.
    ///
    /// # Errors
    ///
    /// An allocation failed.
    pub fn push(&mut self, number: i64) -> Result<Outcome, AllocError>
        requires { self.old.line < 2 ^ 64 - 1 }
        ensures { IfOk result (λ outcome. Does (Push number) self.old outcome self.new) }
    {
        if self.numbers.len() >= MOST {
            return Ok(Outcome::Failed(Fault::TooMany));
        }
        self.numbers.push(number)?;
        Ok(self.go_on())
    }

    /// Takes the top number, and makes it the value of a variable.
    pub fn store(&mut self, variable: usize) -> Outcome
        requires { self.old.line < 2 ^ 64 - 1 }
        ensures { Does (Store variable) self.old result self.new }
    {
        let Some(number) = self.numbers.pop() else {
            return Outcome::Failed(Fault::TooFew);
        };
        self.set(variable, number);
        self.go_on()
    }

    /// Changes the value of a variable, if there is one.
    fn set(&mut self, variable: usize, number: i64)
        ensures line { self.new.line ≡ self.old.line }
        ensures state { plain_state self.new ≡ set variable number (plain_state self.old) }
    {
        if variable < VARIABLES {
            self.variables[variable] = number;
        }
    }

    /// Takes the two top numbers, and puts their result on the stack.
    pub fn calculate(&mut self, operator: Operator) -> Outcome
        requires { self.old.line < 2 ^ 64 - 1 }
        ensures { Does (Calculate operator) self.old result self.new }
    {
        let Some((left, right)) = self.top_two() else {
            return Outcome::Failed(Fault::TooFew);
        };
        match result_of(operator, left, right) {
            Ok(number) => {
                self.make_one(number);
                self.go_on()
            }
            Err(fault) => Outcome::Failed(fault),
        }
    }

    /// Returns the two top numbers, of which the right one is on top.
    fn top_two(&self) -> Option<(i64, i64)>
        ensures { AreTopTwo (plain_state self.now).numbers result }
    {
        match self.numbers.as_slice() {
            [.., left, right] => Some((*left, *right)),
            _ => None,
        }
    }

    /// Puts a number in the place of the two top ones.
    fn make_one(&mut self, number: i64)
        requires { 2 ≤ length self.old.numbers.items }
        ensures line { self.new.line ≡ self.old.line }
        ensures state { plain_state self.new ≡ make_one number (plain_state self.old) }
    {
        self.numbers.pop();
        if let Some(top) = self.numbers.last_mut() {
            *top = number;
        }
    }

    /// Takes the top number, and prints it.
    pub fn print(&mut self) -> Outcome
        requires { self.old.line < 2 ^ 64 - 1 }
        ensures { Does Print self.old result self.new }
    {
        let Some(number) = self.numbers.pop() else {
            return Outcome::Failed(Fault::TooFew);
        };
        self.line += 1;
        Outcome::Printed(number)
    }

    /// Takes the top number, and goes on at this line where it is 0.
    pub fn jump_if_zero(&mut self, line: usize) -> Outcome
        requires { self.old.line < 2 ^ 64 - 1 }
        ensures { Does (JumpZero line) self.old result self.new }
    {
        match self.numbers.pop() {
            Some(0) => self.jump(line),
            Some(_) => self.go_on(),
            None => Outcome::Failed(Fault::TooFew),
        }
    }

    /// Calls this line, and comes back to the next one.
    ///
    /// # Errors
    ///
    /// An allocation failed.
    pub fn call(&mut self, line: usize) -> Result<Outcome, AllocError>
        requires { self.old.line < 2 ^ 64 - 1 }
        ensures { IfOk result (λ outcome. Does (Call line) self.old outcome self.new) }
    {
        if self.returns.len() >= MOST {
            return Ok(Outcome::Failed(Fault::TooMany));
        }
        self.returns.push(self.line + 1)?;
        Ok(self.jump(line))
    }

    /// Returns from the newest call. Outside of a call the program ends.
    pub fn return_from_call(&mut self) -> Outcome
        ensures { Does Return self.old result self.new }
    {
        match self.returns.pop() {
            Some(line) => self.jump(line),
            None => Outcome::Ended,
        }
    }
}

/// Returns what two numbers make.
fn result_of(operator: Operator, left: i64, right: i64) -> Result<i64, Fault>
    ensures { result ≡ result_of operator left right }
{
    match operator {
        Operator::Add => left.checked_add(right).ok_or(Fault::Overflow),
        Operator::Sub => left.checked_sub(right).ok_or(Fault::Overflow),
        Operator::Mul => left.checked_mul(right).ok_or(Fault::Overflow),
        Operator::Div if right == 0 => Err(Fault::DivisionByZero),
        Operator::Div => left.checked_div(right).ok_or(Fault::Overflow),
    }
}
