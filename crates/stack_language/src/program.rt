//! Programs of the stack language.
//!
//! A line is empty, or a comment that begins with `;`, or an instruction. Numbers have 64 bits, variables are called `a` to
//! `z`, and lines are counted from 1.
//!
//! | Instruction | What it does |
//! |---|---|
//! | `push N`, `load V`, `store V` | puts a number or a variable's value on the stack, or takes a number from it |
//! | `add`, `sub`, `mul`, `div` | takes two numbers, and puts what they make |
//! | `print` | takes a number, and prints it |
//! | `jump L`, `jzero L` | goes on at a line, always or where the number that it takes is 0 |
//! | `call L`, `ret` | goes on at a line, and comes back |
//!
//! `ret` outside of a call ends the program, and so does going on at a line behind the last one.

/// How many variables there are, `a` to `z`.
pub const VARIABLES: usize = 26;

/// An instruction.
#[derive(Clone, Copy)]
pub enum Instruction {
    /// An empty line, or a comment.
    Nothing,
    Push(i64),
    Load(usize),
    Store(usize),
    Calculate(Operator),
    Print,
    /// Jumps and calls go to a line, of which the first is 0.
    Jump(usize),
    JumpZero(usize),
    Call(usize),
    Return,
}

/// How two numbers are made into one.
#[derive(Clone, Copy)]
pub enum Operator {
    Add,
    Sub,
    Mul,
    Div,
}
