//! What a debugger is to know of the stack language.

ghost use Rattle.std.specs.Prelude.{◌≡◌, ◌<◌, ◌∷◌, IfOk, length, map, string_bytes};
ghost use Rattle.std.specs.List.{range_with_len};
ghost use Rattle.debuggee.specs.Plain.{plain_step};
ghost use Rattle.debuggee.specs.Shown.{plain_variable};
ghost use Rattle.stack_language.specs.Language.{name_of, plain_state, reason, step_of};
ghost use Rattle.stack_language.specs.Shown.{input_in, name_of_frame, no_variable, number_at, shown_line, stack_of, variable_of};

use crate::machine::Machine;
use crate::parsing::{Parsed, parse, variable};
use crate::program::VARIABLES;
use crate::state::{Fault, Outcome, State};
use debuggee::{Debuggee, Evaluated, Frame, Language, Location, Page, Step, Variable};
use serde_json::Value;
use std::alloc::{AllocError, Global};

/// What is told of an expression that isn't the name of a variable.
const NO_VARIABLE: &str = "no variable has this name";
/// The number by which the numbers on the stack are asked for.
const STACK: usize = 0;

impl Debuggee for Machine {
    ghost use Rattle.stack_language.specs.Language.{takes};
    ghost use Rattle.stack_language.specs.Shown.{sees};

    ghost takes = { takes };

    ghost sees = { sees };

    fn step(&mut self, alloc: Global) -> Result<Step, AllocError> {
        step_of(alloc, self.take_step()?)
    }

    fn place(&self) -> Option<usize> {
        let line = self.state().line;
        if self.has_instruction(line) {
            Some(line)
        } else {
            None
        }
    }

    fn depth(&self) -> usize {
        self.state().returns.len() + 1
    }

    fn evaluate(
        &self,
        alloc: Global,
        _frame: usize,
        expression: &str,
    ) -> Result<Evaluated, AllocError> {
        match variable(expression) {
            Some(variable) => {
                let value = self.state().value(variable);
                Ok(Evaluated::Value(format!(in alloc; "{value}")?, value != 0))
            }
            None => Ok(Evaluated::NoValue(String::from_str(alloc, NO_VARIABLE)?)),
        }
    }

    fn holds(&self, _alloc: Global, condition: &str) -> Result<bool, AllocError> {
        match variable(condition) {
            Some(variable) => Ok(self.state().value(variable) != 0),
            None => Ok(true),
        }
    }
}

impl Language for Machine {
    ghost use Rattle.stack_language.specs.Shown.{shows};

    ghost shows = { shows };

    fn load(
        alloc: Global,
        text: &str,
        arguments: &str,
    ) -> Result<Result<Machine, String>, AllocError> {
        match parse(alloc, text)? {
            Parsed::Program(program) => {
                let input = input_in(alloc, arguments)?;
                Ok(Ok(Machine::new(alloc, program, input)))
            }
            Parsed::Mistake(line) => Ok(Err(format!(in alloc; "line {line} is no instruction")?)),
        }
    }

    fn place_for(&self, line: u64) -> Option<Location> {
        let place = self.line_at_or_after(index_of(line.saturating_sub(1)))?;
        let line = shown_line(place);
        Some(Location { place, line })
    }

    fn mistake_in(
        &self,
        alloc: Global,
        _place: usize,
        condition: &str,
    ) -> Result<Option<String>, AllocError> {
        match variable(condition) {
            Some(_) => Ok(None),
            None => Ok(Some(String::from_str(alloc, NO_VARIABLE)?)),
        }
    }

    fn frame(&self, alloc: Global, index: usize) -> Result<Frame, AllocError> {
        Ok(Frame {
            name: name_of_frame(alloc, self, index)?,
            line: shown_line(self.line_of_frame(index)),
            column: 1,
        })
    }

    fn scopes(&self, alloc: Global, _frame: usize) -> Result<Vec<String>, AllocError> {
        let mut names = Vec::new(alloc);
        names.push(String::from_str(alloc, "variables")?)?;
        Ok(names)
    }

    fn variables(
        &self,
        alloc: Global,
        _frame: usize,
        _scope: usize,
        page: Page,
    ) -> Result<Vec<Variable>, AllocError> {
        let all = variables(alloc, self.state())?;
        let shown = page.of(all)?;
        Ok(shown)
    }

    fn inside(
        &self,
        alloc: Global,
        number: usize,
        page: Page,
    ) -> Result<Option<Vec<Variable>>, AllocError> {
        if number != STACK {
            return Ok(None);
        }
        let all = numbers(alloc, self.state())?;
        let shown = page.of(all)?;
        Ok(Some(shown))
    }
}

/// Returns the number under `input` of a launch's arguments; 0 where there is none.
fn input_in(alloc: Global, arguments: &str) -> Result<i64, AllocError>
    ensures { IfOk result (λ input. input ≡ input_in arguments.now) }
{
    match Value::from_str(alloc, arguments) {
        Ok(value) => Ok(value.get("input").and_then(Value::as_i64).unwrap_or(0)),
        Err(error) if error.is_memory() => Err(AllocError),
        Err(_) => Ok(0),
    }
}

/// Returns the name of a frame: the line that was called, and `main` for the oldest.
fn name_of_frame(alloc: Global, machine: &Machine, index: usize) -> Result<String, AllocError>
    ensures { IfOk result (λ name. string_bytes name ≡ name_of_frame machine.now index) }
{
    match machine.line_called(index) {
        Some(line) => format!(in alloc; "line {}", shown_line(line)),
        None => String::from_str(alloc, "main"),
    }
}

/// Returns the number of a line for the client, which counts from 1.
fn shown_line(line: usize) -> u64
    ensures { result ≡ shown_line line }
{
    (line as u64).saturating_add(1)
}

/// Returns the stack and all variables.
fn variables(alloc: Global, state: &State) -> Result<Vec<Variable>, AllocError>
    ensures { IfOk result (λ all. map plain_variable all.items ≡
        stack_of (plain_state state.now) ∷ map (variable_of (plain_state state.now)) (range_with_len 0 VARIABLES)) }
{
    let mut all = Vec::new(alloc);
    all.push(stack(alloc, state)?)?;
    for index in 0..VARIABLES {
        all.push(named(alloc, state, index)?)?;
    }
    Ok(all)
}

/// Returns the stack as a variable.
fn stack(alloc: Global, state: &State) -> Result<Variable, AllocError>
    ensures { IfOk result (λ one. plain_variable one ≡ stack_of (plain_state state.now)) }
{
    Ok(Variable {
        name: String::from_str(alloc, "stack")?,
        value: format!(in alloc; "{}", state.numbers.len())?,
        inside: Some(STACK),
    })
}

/// Returns the numbers on the stack, the top one first.
fn numbers(alloc: Global, state: &State) -> Result<Vec<Variable>, AllocError>
    ensures { IfOk result (λ all. map plain_variable all.items ≡
        map (number_at (plain_state state.now)) (range_with_len 0 (length state.now.numbers.items))) }
{
    let mut all = Vec::new(alloc);
    for place in 0..state.numbers.len() {
        all.push(number_at(alloc, state, place)?)?;
    }
    Ok(all)
}

/// Returns a number on the stack, by its place, of which the top is 0.
fn number_at(alloc: Global, state: &State, place: usize) -> Result<Variable, AllocError>
    requires { place < length state.now.numbers.items }
    ensures { IfOk result (λ one. plain_variable one ≡ number_at (plain_state state.now) place) }
{
    let number = state.numbers[state.numbers.len() - 1 - place];
    Ok(Variable {
        name: format!(in alloc; "{place}")?,
        value: format!(in alloc; "{number}")?,
        inside: None,
    })
}

/// Returns a variable.
fn named(alloc: Global, state: &State, index: usize) -> Result<Variable, AllocError>
    requires { index < VARIABLES }
    ensures { IfOk result (λ one. plain_variable one ≡ variable_of (plain_state state.now) index) }
{
    let letter = char::from(b'a' + index as u8);
    Ok(Variable {
        name: format!(in alloc; "{letter}")?,
        value: format!(in alloc; "{}", state.value(index))?,
        inside: None,
    })
}

/// Returns what is told of an outcome.
fn step_of(alloc: Global, outcome: Outcome) -> Result<Step, AllocError>
    ensures { IfOk result (λ step. plain_step step ≡ step_of outcome) }
{
    match outcome {
        Outcome::Went => Ok(Step::Goes),
        Outcome::Printed(number) => Ok(Step::Prints(format!(in alloc; "{number}\n")?)),
        Outcome::Ended => Ok(Step::Ends(0)),
        Outcome::Failed(fault) => Ok(Step::Fails(debuggee::Fault {
            name: String::from_str(alloc, name_of(fault))?,
            text: String::from_str(alloc, reason(fault))?,
        })),
    }
}

/// Returns what a fault is called.
fn name_of(fault: Fault) -> &'static str
    ensures { result.now ≡ name_of fault }
{
    match fault {
        Fault::Overflow => "Overflow",
        Fault::DivisionByZero => "DivisionByZero",
        Fault::TooFew => "TooFew",
        Fault::TooMany => "TooMany",
    }
}

/// Returns why an instruction can't be carried out.
fn reason(fault: Fault) -> &'static str
    ensures { result.now ≡ reason fault }
{
    match fault {
        Fault::Overflow => "overflow",
        Fault::DivisionByZero => "division by zero",
        Fault::TooFew => "a number is missing on the stack",
        Fault::TooMany => "there are too many numbers or calls",
    }
}

/// Returns a number as an index; the largest one where `usize` is too narrow, which is an index of nothing.
fn index_of(number: u64) -> usize
    ensures { result ≡ number }
{
    number.min(usize::MAX as u64) as usize
}
