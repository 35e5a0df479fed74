//! The listing of a program: its steps, an empty line, and its code.

ghost use Rattle.std.specs.Prelude.{◌≡◌, ◌++◌, string_bytes, slice_get, IfOk, OnOk};
ghost use Rattle.pl0_tree.specs.Plain.{plain_block};
ghost use Rattle.pl0_tree.specs.Steps.{steps};
ghost use Rattle.adapter.specs.Listing.{listing_text, lines_from, step_line, kind_name, instruction_line, begun_by, begun_text};

use pl0_code::{Instruction, Unit};
use pl0_tree::{Step, StepKind, StepNumber};
use std::alloc::{AllocError, Global};

/// Returns the listing of a program: a line for each step, with its number, line, column and kind; an empty line; and a
/// line for each instruction, with its number, name, level and address, and ` @n` where it begins step n.
///
/// # Errors
///
/// `AllocError`, where an allocation failed.
pub fn listing(alloc: Global, unit: &Unit) -> Result<String, AllocError>
    ensures { IfOk result (λ text. string_bytes text
        ≡ listing_text (steps (plain_block unit.now.tree.program)) unit.now.code.items unit.now.begun_steps.items) }
{
    let mut text = String::new(alloc);
    write_steps(&mut text, unit.steps.as_slice())?;
    text.push_str("\n")?;
    write_code(&mut text, unit.code.as_slice(), unit.begun_steps.as_slice())?;
    Ok(text)
}

/// Appends a line for each step.
fn write_steps(text: &mut String, steps: &[Step]) -> Result<(), AllocError>
    ensures { OnOk result (string_bytes text.new
        ≡ string_bytes text.old ++ lines_from (λ n s. step_line n s.kind s.place) 0 steps.now) }
{
    for (number, step) in steps.iter().enumerate() {
        write_step(text, number, *step)?;
    }
    Ok(())
}

/// Appends the line of one step.
fn write_step(text: &mut String, number: StepNumber, step: Step) -> Result<(), AllocError>
    ensures { OnOk result (string_bytes text.new ≡ string_bytes text.old ++ step_line number step.kind step.place) }
{
    let kind = name_of_kind(step.kind);
    let line = step.place.line;
    let column = step.place.column;
    writeln!(text, "{number} {line} {column} {kind}")
}

/// The name of a kind of step in the listing.
fn name_of_kind(kind: StepKind) -> &'static str
    ensures { result.now ≡ kind_name kind }
{
    match kind {
        StepKind::Assign => "assign",
        StepKind::Call => "call",
        StepKind::Write => "write",
        StepKind::If => "if",
        StepKind::While => "while",
        StepKind::Return => "return",
    }
}

/// Appends a line for each instruction. `begun` has, at each instruction's number, the step that it begins, if any.
fn write_code(
    text: &mut String,
    code: &[Instruction],
    begun: &[Option<StepNumber>],
) -> Result<(), AllocError>
    ensures { OnOk result (string_bytes text.new ≡ string_bytes text.old
        ++ lines_from (λ n i. instruction_line n i (begun_by (slice_get begun.now n))) 0 code.now) }
{
    for (number, instruction) in code.iter().enumerate() {
        write_instruction(text, number, *instruction, step_begun(begun, number))?;
    }
    Ok(())
}

/// Returns the step that the instruction with this number begins, if any.
fn step_begun(begun: &[Option<StepNumber>], number: usize) -> Option<StepNumber>
    ensures { result ≡ begun_by (slice_get begun.now number) }
{
    match begun.get(number) {
        Some(step) => *step,
        None => None,
    }
}

/// Appends the line of one instruction.
fn write_instruction(
    text: &mut String,
    number: usize,
    instruction: Instruction,
    begins: Option<StepNumber>,
) -> Result<(), AllocError>
    ensures { OnOk result (string_bytes text.new ≡ string_bytes text.old
        ++ instruction_line number instruction begins) }
{
    write!(text, "{number} {instruction}")?;
    write_begun(text, begins)?;
    text.push_str("\n")
}

/// Appends ` @n` where the instruction begins step n, and else nothing.
fn write_begun(text: &mut String, begins: Option<StepNumber>) -> Result<(), AllocError>
    ensures { OnOk result (string_bytes text.new ≡ string_bytes text.old ++ begun_text begins) }
{
    match begins {
        Some(step) => write!(text, " @{step}"),
        None => Ok(()),
    }
}
