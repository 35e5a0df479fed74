//! Reading a program.

ghost use Rattle.std.specs.Prelude.{◌≡◌, IfOk, map};
ghost use Rattle.std.specs.Bool.{Decides};
ghost use Rattle.std.specs.Str.Lines.{lines};
ghost use Rattle.stack_language.specs.Text.{IsLine, IsNumber, IsOperand, IsParsed, IsTarget, StartsComment, variable_named, with_operand, without_operand};

use crate::program::{Instruction, Operator};
use std::alloc::{AllocError, Global};

/// A program, or the first line that is no instruction, counted from 1.
#[derive(Drop)]
pub enum Parsed {
    Program(Vec<Instruction>),
    Mistake(usize),
}

/// What a word is as an operand: a number, a variable, a line.
#[derive(Clone, Copy)]
struct Operand {
    number: Option<i64>,
    variable: Option<usize>,
    line: Option<usize>,
}

/// Returns the program that the lines of a text are, or the first line that is no instruction.
///
/// # Errors
///
/// An allocation failed.
pub fn parse(alloc: Global, text: &str) -> Result<Parsed, AllocError>
    ensures { IfOk result (IsParsed (lines text.now)) }
{
    let lines = lines_of(alloc, text)?;
    parse_lines(alloc, lines.as_slice())
}

/// Returns the lines of a text.
fn lines_of<'t>(alloc: Global, text: &'t str) -> Result<Vec<&'t str>, AllocError>
    ensures { IfOk result (λ all. map (λ line. line.now) all.items ≡ lines text.now) }
{
    text.lines().collect(alloc)
}

/// Reads lines, one after another.
fn parse_lines(alloc: Global, lines: &[&str]) -> Result<Parsed, AllocError>
    ensures { IfOk result (IsParsed (map (λ line. line.now) lines.now)) }
{
    let mut program = Vec::new(alloc);
    let mut number = 0;
    for line in lines {
        number += 1;
        match instruction_of(line) {
            Some(instruction) => program.push(instruction)?,
            None => return Ok(Parsed::Mistake(number)),
        }
    }
    Ok(Parsed::Program(program))
}

/// Reads a line; `None` where it is no instruction.
fn instruction_of(line: &str) -> Option<Instruction>
    ensures { IsLine line.now result }
{
    let mut words = line.split_whitespace();
    let Some(name) = words.next() else {
        return Some(Instruction::Nothing);
    };
    if starts_comment(name) {
        return Some(Instruction::Nothing);
    }
    let Some(word) = words.next() else {
        return without_operand(name);
    };
    match words.next() {
        Some(_) => None,
        None => with_operand(name, operand_of(word)),
    }
}

/// Whether a word makes its line a comment.
fn starts_comment(word: &str) -> bool
    ensures { Decides result (StartsComment word.now) }
{
    word.starts_with(';')
}

/// Reads an instruction that has no operand.
fn without_operand(name: &str) -> Option<Instruction>
    ensures { result ≡ without_operand name.now }
{
    match name {
        "add" => Some(Instruction::Calculate(Operator::Add)),
        "sub" => Some(Instruction::Calculate(Operator::Sub)),
        "mul" => Some(Instruction::Calculate(Operator::Mul)),
        "div" => Some(Instruction::Calculate(Operator::Div)),
        "print" => Some(Instruction::Print),
        "ret" => Some(Instruction::Return),
        _ => None,
    }
}

/// Reads an instruction with an operand.
fn with_operand(name: &str, operand: Operand) -> Option<Instruction>
    ensures { result ≡ with_operand name.now operand }
{
    match name {
        "push" => Some(Instruction::Push(operand.number?)),
        "load" => Some(Instruction::Load(operand.variable?)),
        "store" => Some(Instruction::Store(operand.variable?)),
        "jump" => Some(Instruction::Jump(operand.line?)),
        "jzero" => Some(Instruction::JumpZero(operand.line?)),
        "call" => Some(Instruction::Call(operand.line?)),
        _ => None,
    }
}

/// Reads a word as an operand.
fn operand_of(word: &str) -> Operand
    ensures { IsOperand word.now result }
{
    Operand {
        number: number(word),
        variable: variable(word),
        line: target(word),
    }
}

/// Reads a number.
fn number(word: &str) -> Option<i64>
    ensures { IsNumber word.now result }
{
    match word.parse::<i64>() {
        Ok(number) => Some(number),
        Err(_) => None,
    }
}

/// Reads the name of a variable.
pub fn variable(word: &str) -> Option<usize>
    ensures { result ≡ variable_named word.now }
{
    match word.as_bytes() {
        [letter] if letter.is_ascii_lowercase() => Some(usize::from(letter.saturating_sub(b'a'))),
        _ => None,
    }
}

/// Reads a line, counted from 1.
fn target(word: &str) -> Option<usize>
    ensures { IsTarget word.now result }
{
    match word.parse::<usize>() {
        Ok(number) => number.checked_sub(1),
        Err(_) => None,
    }
}
