//! The tree of a program, as it is drawn.
//!
//! The code of a program is dealt out to the nodes of its tree: each function takes the code that stands from its node
//! on, and returns what is left of it.

use crate::columns::put_spaces;
use crate::standing::behind_block;
use pl0_tree::{Block, Condition, Constant, Expression, Name, Operator, Relation, Statement};
use pl0_unit::{FRAME_HEAD, Instruction, Unit};
use std::alloc::{AllocError, Global};

/// How much further in a node stands than the one above it.
const INNER: usize = 2;

/// How far in a node stands at most.
const FURTHEST: usize = 128;

/// Returns the tree of a program, drawn by lines: a line for each node, under that of the node above it and further in.
/// A declared name has its level and address, or its value; a name that is used has the instruction that finds it.
///
/// # Errors
///
/// `AllocError`, where an allocation failed.
pub fn program_tree(alloc: Global, unit: &Unit) -> Result<Vec<u8>, AllocError> {
    let mut page = Vec::new(alloc);
    put_block(alloc, &mut page, 0, unit, &unit.tree.program, 0, 0)?;
    Ok(page)
}

/// Appends the lines of the block whose code begins at an address, with this many blocks around it.
fn put_block(
    alloc: Global,
    page: &mut Vec<u8>,
    indent: usize,
    unit: &Unit,
    block: &Block,
    level: usize,
    begins: usize,
) -> Result<(), AllocError> {
    put_constants(alloc, page, indent, &block.constants)?;
    put_variables(alloc, page, indent, &block.variables, level)?;
    let mut next = begins.saturating_add(1);
    for procedure in &block.procedures {
        put_place(
            alloc,
            page,
            indent,
            "procedure ",
            level,
            next,
            &procedure.name,
        )?;
        put_block(
            alloc,
            page,
            deeper(indent),
            unit,
            &procedure.block,
            level.saturating_add(1),
            next,
        )?;
        next = behind_block(unit, next);
    }
    let code = code_from(unit, next);
    put_statement(alloc, page, indent, &block.body, behind_first(code))?;
    Ok(())
}

/// Returns the code of a program from an address on.
fn code_from(unit: &Unit, address: usize) -> &[Instruction] {
    let code: &[Instruction] = &unit.code;
    &code[address.min(code.len())..]
}

/// Appends the lines of constants.
fn put_constants(
    alloc: Global,
    page: &mut Vec<u8>,
    indent: usize,
    constants: &[Constant],
) -> Result<(), AllocError> {
    for constant in constants {
        put_constant(alloc, page, indent, constant)?;
    }
    Ok(())
}

/// Appends the lines of the variables of a block with this many blocks around it.
fn put_variables(
    alloc: Global,
    page: &mut Vec<u8>,
    indent: usize,
    variables: &[Name],
    level: usize,
) -> Result<(), AllocError> {
    for (index, name) in variables.iter().enumerate() {
        put_place(
            alloc,
            page,
            indent,
            "var ",
            level,
            FRAME_HEAD.saturating_add(index),
            name,
        )?;
    }
    Ok(())
}

/// Appends the line of a constant.
fn put_constant(
    alloc: Global,
    page: &mut Vec<u8>,
    indent: usize,
    constant: &Constant,
) -> Result<(), AllocError> {
    let value = constant.value;
    let text = format!(in alloc; "= {value}")?;
    put_name(alloc, page, indent, "const ", &constant.name, text.as_str())
}

/// Appends the line of a declared name that has a level and an address.
fn put_place(
    alloc: Global,
    page: &mut Vec<u8>,
    indent: usize,
    kind: &str,
    level: usize,
    address: usize,
    name: &Name,
) -> Result<(), AllocError> {
    let text = format!(in alloc; "level {level}, address {address}")?;
    put_name(alloc, page, indent, kind, name, text.as_str())
}

/// Appends the lines of a statement.
#[cycle(statement)]
fn put_statement<'a>(
    alloc: Global,
    page: &mut Vec<u8>,
    indent: usize,
    statement: &Statement,
    code: &'a [Instruction],
) -> Result<&'a [Instruction], AllocError> {
    match statement {
        Statement::Empty => put_empty(page, indent, code),
        Statement::Assign { target, value } => put_assignment(
            alloc, page, indent, target, value, code,
        ),
        Statement::Call { procedure, .. } => put_use(alloc, page, indent, "call ", procedure, code),
        Statement::Write { value, .. } => {
            put_line(page, indent, "!")?;
            let left = put_expression(alloc, page, deeper(indent), value, code)?;
            Ok(behind_first(left))
        }
        Statement::Begin(all) => put_sequence(alloc, page, indent, all, code),
        Statement::If {
            condition,
            body,
            ..
        } => {
            let left = put_test(alloc, page, indent, "if", condition, code)?;
            put_statement(alloc, page, deeper(indent), body, left)
        }
        Statement::While {
            condition,
            body,
            ..
        } => {
            let left = put_test(alloc, page, indent, "while", condition, code)?;
            let left = put_statement(alloc, page, deeper(indent), body, left)?;
            Ok(behind_first(left))
        }
    }
}

/// Appends the lines of the statements between `begin` and `end`. The parser makes no list without a statement; it would
/// be drawn as an empty one.
#[cycle(statement)]
fn put_sequence<'a>(
    alloc: Global,
    page: &mut Vec<u8>,
    indent: usize,
    all: &[Statement],
    code: &'a [Instruction],
) -> Result<&'a [Instruction], AllocError> {
    if all.is_empty() {
        put_line(page, indent, "empty")?;
        return Ok(code);
    }
    put_line(page, indent, "begin")?;
    let mut left = code;
    for part in all {
        left = put_statement(alloc, page, deeper(indent), part, left)?;
    }
    Ok(left)
}

/// Appends the line of an empty statement, which has no code.
fn put_empty<'a>(
    page: &mut Vec<u8>,
    indent: usize,
    code: &'a [Instruction],
) -> Result<&'a [Instruction], AllocError> {
    put_line(page, indent, "empty")?;
    Ok(code)
}

/// Appends the lines of an assignment. Its last instruction, which stores, is drawn first.
fn put_assignment<'a>(
    alloc: Global,
    page: &mut Vec<u8>,
    indent: usize,
    target: &Name,
    value: &Expression,
    code: &'a [Instruction],
) -> Result<&'a [Instruction], AllocError> {
    let mut below = Vec::new(alloc);
    let left = put_expression(alloc, &mut below, deeper(indent), value, code)?;
    let left = put_use(alloc, page, indent, ":= ", target, left)?;
    page.extend_from_slice(below.as_slice())?;
    Ok(left)
}

/// Appends the line of an `if` or a `while`, and those of its condition. What is left is behind the jump.
fn put_test<'a>(
    alloc: Global,
    page: &mut Vec<u8>,
    indent: usize,
    word: &str,
    condition: &Condition,
    code: &'a [Instruction],
) -> Result<&'a [Instruction], AllocError> {
    put_line(page, indent, word)?;
    let left = put_condition(alloc, page, deeper(indent), condition, code)?;
    Ok(behind_first(left))
}

/// Appends the lines of a condition.
fn put_condition<'a>(
    alloc: Global,
    page: &mut Vec<u8>,
    indent: usize,
    condition: &Condition,
    code: &'a [Instruction],
) -> Result<&'a [Instruction], AllocError> {
    match condition {
        Condition::Odd(value) => {
            put_line(page, indent, "odd")?;
            let left = put_expression(alloc, page, deeper(indent), value, code)?;
            Ok(behind_first(left))
        }
        Condition::Compare(relation, first, second) => {
            put_line(page, indent, relation_sign(*relation))?;
            let left = put_expression(alloc, page, deeper(indent), first, code)?;
            let left = put_expression(alloc, page, deeper(indent), second, left)?;
            Ok(behind_first(left))
        }
    }
}

/// Appends the lines of an expression.
fn put_expression<'a>(
    alloc: Global,
    page: &mut Vec<u8>,
    indent: usize,
    expression: &Expression,
    code: &'a [Instruction],
) -> Result<&'a [Instruction], AllocError> {
    match expression {
        Expression::Name(name) => put_use(alloc, page, indent, "", name, code),
        Expression::Number(number) => {
            let text = format!(in alloc; "{number}")?;
            put_line(page, indent, text.as_str())?;
            Ok(behind_first(code))
        }
        Expression::Negate(inner) => {
            put_line(page, indent, "-")?;
            let left = put_expression(alloc, page, deeper(indent), inner, code)?;
            Ok(behind_first(left))
        }
        Expression::Binary(operator, first, second) => {
            put_line(page, indent, operator_sign(*operator))?;
            let left = put_expression(alloc, page, deeper(indent), first, code)?;
            let left = put_expression(alloc, page, deeper(indent), second, left)?;
            Ok(behind_first(left))
        }
    }
}

/// Appends the line of a name that is used, with the instruction that stands first.
fn put_use<'a>(
    alloc: Global,
    page: &mut Vec<u8>,
    indent: usize,
    what: &str,
    name: &Name,
    code: &'a [Instruction],
) -> Result<&'a [Instruction], AllocError> {
    if let Some(instruction) = code.first() {
        let text = instruction.to_string(alloc)?;
        put_name(alloc, page, indent, what, name, text.as_str())?;
    }
    Ok(behind_first(code))
}

/// Appends the line of a name, after what is done with it, and what it is found as.
fn put_name(
    alloc: Global,
    page: &mut Vec<u8>,
    indent: usize,
    what: &str,
    name: &Name,
    found: &str,
) -> Result<(), AllocError> {
    let name = name.text.as_str();
    let text = format!(in alloc; "{what}{name}  {found}")?;
    put_line(page, indent, text.as_str())
}

/// Appends a line that begins so far in.
fn put_line(page: &mut Vec<u8>, indent: usize, text: &str) -> Result<(), AllocError> {
    put_spaces(page, indent)?;
    page.extend_from_slice(text.as_bytes())?;
    page.push(b'\n')?;
    Ok(())
}

/// Returns the code behind its first instruction.
fn behind_first(code: &[Instruction]) -> &[Instruction] {
    match code.split_first() {
        Some((_, left)) => left,
        None => code,
    }
}

/// Returns how far in the nodes below one stand.
fn deeper(indent: usize) -> usize {
    indent.saturating_add(INNER).min(FURTHEST)
}

/// Returns the sign of an operator.
fn operator_sign(operator: Operator) -> &'static str {
    match operator {
        Operator::Add => "+",
        Operator::Subtract => "-",
        Operator::Multiply => "*",
        Operator::Divide => "/",
    }
}

/// Returns the sign of a comparison.
fn relation_sign(relation: Relation) -> &'static str {
    match relation {
        Relation::Equal => "=",
        Relation::Unequal => "#",
        Relation::Less => "<",
        Relation::AtMost => "<=",
        Relation::Greater => ">",
        Relation::AtLeast => ">=",
    }
}
