//! The table of a trace: a line for each position.

ghost use Rattle.std.specs.Prelude.{◌≡◌, ◌++◌, ℕ, List, decimal, OnOk};
ghost use Rattle.pl0_lessons.specs.Columns.{column, right};
ghost use Rattle.pl0_tool.specs.Traced.{IsRowOf};

use crate::blocks::frame_name;
use crate::drawing::{Drawing, FrameHead};
use crate::lines::first_line;
use crate::tracing::{FrameRow, Row, View};
use pl0_lessons::{put_left_column, put_right, put_right_column};
use pl0_machine::StepOutcome;
use pl0_syntax::block;
use pl0_tree::{Place, StepKind};
use pl0_unit::Unit;
use std::alloc::{AllocError, Global};

/// What stands above the columns of a step.
const STEP_HEAD: &str = "position  place    source                          writes  ";

/// What stands above the frames.
const FRAMES_HEAD: &str = "frames\n";

/// What stands above the registers and frames where the machine is drawn.
const MACHINE_HEAD: &str = "     P       B       T
              cell  static link  dynamic link  return address  frame\n";

/// What stands above instructions.
const INSTRUCTIONS_HEAD: &str = "                 P  instruction    operands\n";

/// The width of the column of a position.
const POSITION_WIDTH: usize = 8;

/// The width of the column of a place.
const PLACE_WIDTH: usize = 7;

/// The width of the column of a source.
const SOURCE_WIDTH: usize = 30;

/// The width of the column of the number that a step writes.
const WRITTEN_WIDTH: usize = 6;

/// The width of the column of a register.
const REGISTER_WIDTH: usize = 6;

/// The width of the column of the number of a frame's first cell.
const CELL_WIDTH: usize = 18;

/// The width of the column of a static link.
const STATIC_LINK_WIDTH: usize = 11;

/// The width of the column of a dynamic link.
const DYNAMIC_LINK_WIDTH: usize = 12;

/// The width of the column of a return address.
const RETURN_ADDRESS_WIDTH: usize = 14;

/// Appends the head of the table of a trace: position, place and source of the step that comes next, the number that it
/// writes, and the frames before it, with their variables. They stand in the same line, the oldest first, or under it,
/// the newest first, where the machine is drawn. Under that stand instructions, where they are told.
///
/// # Errors
///
/// `AllocError`, where an allocation failed.
pub(crate) fn put_head(page: &mut Vec<u8>, view: View) -> Result<(), AllocError> {
    page.extend_from_slice(STEP_HEAD.as_bytes())?;
    let state = if view.machine {
        MACHINE_HEAD
    } else {
        FRAMES_HEAD
    };
    page.extend_from_slice(state.as_bytes())?;
    if view.instructions {
        page.extend_from_slice(INSTRUCTIONS_HEAD.as_bytes())?;
    }
    Ok(())
}

/// Appends what is told of a position.
///
/// # Errors
///
/// `AllocError`, where an allocation failed; a part of it may be appended.
pub(crate) fn put_row(
    alloc: Global,
    page: &mut Vec<u8>,
    unit: &Unit,
    row: &Row,
) -> Result<(), AllocError>
    ensures { OnOk result ((text : List ℕ) × IsRowOf row.now.position text
        × (page.new.items ≡ page.old.items ++ text)) }
{
    put_column(alloc, page, POSITION_WIDTH, row.position)?;
    let rest = rest_of_row(alloc, unit, row)?;
    page.extend_from_slice(rest.as_slice())
}

/// Returns what is told of a position behind its number.
fn rest_of_row(alloc: Global, unit: &Unit, row: &Row) -> Result<Vec<u8>, AllocError> {
    let mut rest = Vec::new(alloc);
    put_step(alloc, &mut rest, unit.tree.text.as_slice(), row)?;
    put_state(alloc, &mut rest, unit, row)?;
    rest.extend_from_slice(row.instructions.as_slice())?;
    Ok(rest)
}

/// Appends the state before the step of a row: the machine, where it is drawn, or else the frames.
fn put_state(alloc: Global, page: &mut Vec<u8>, unit: &Unit, row: &Row) -> Result<(), AllocError> {
    match &row.drawing {
        Some(drawing) => put_machine(alloc, page, unit, row, drawing),
        None => put_frames(alloc, page, unit, row),
    }
}

/// Appends a number at the right of a column of this width.
fn put_number(
    alloc: Global,
    page: &mut Vec<u8>,
    width: usize,
    number: u64,
) -> Result<(), AllocError> {
    let number = format!(in alloc; "{number}")?;
    put_right(page, width, number.as_bytes())
}

/// Appends a number as `put_number` does, and the space to the next column.
fn put_column(
    alloc: Global,
    page: &mut Vec<u8>,
    width: usize,
    number: u64,
) -> Result<(), AllocError>
    ensures { OnOk result (page.new.items ≡ page.old.items ++ column (right width (decimal number))) }
{
    let number = format!(in alloc; "{number}")?;
    put_right_column(page, width, number.as_bytes())
}

// ---- the step

/// Appends what is told of the step of a row, in a program of this text.
fn put_step(alloc: Global, page: &mut Vec<u8>, text: &[u8], row: &Row) -> Result<(), AllocError> {
    put_place(alloc, page, row.place)?;
    put_left_column(page, SOURCE_WIDTH, source(text, row.kind, row.place))?;
    let written = written_text(alloc, row.outcome)?;
    put_right_column(page, WRITTEN_WIDTH, written.as_bytes())
}

/// Appends a place, and the space to the next column.
pub(crate) fn put_place(alloc: Global, page: &mut Vec<u8>, place: Place) -> Result<(), AllocError> {
    let Place { line, column } = place;
    let place = format!(in alloc; "{line}:{column}")?;
    put_left_column(page, PLACE_WIDTH, place.as_bytes())
}

/// Returns the number that a step writes, if it writes one.
fn written_text(alloc: Global, outcome: StepOutcome) -> Result<String, AllocError> {
    match outcome {
        StepOutcome::Went(Some(number)) => format!(in alloc; "{number}"),
        _ => Ok(String::new(alloc)),
    }
}

/// Returns the source of a step: what stands in a text from its place on, up to a semicolon or the end of the line.
fn source(text: &[u8], kind: StepKind, place: Place) -> &[u8] {
    if let StepKind::Return = kind {
        return b"return";
    }
    let line = line_at(text, place.line.saturating_sub(1) as usize);
    let before = (place.column.saturating_sub(1) as usize).min(line.len());
    let rest = &line[before..];
    &rest[..source_length(rest).min(rest.len())]
}

/// Returns the line of a text with this index, and nothing where there is none.
fn line_at(text: &[u8], index: usize) -> &[u8] {
    let mut left = text;
    for passed in 0..index {
        match first_line(left) {
            None => return &[],
            Some((_, behind)) => left = behind,
        }
    }
    match first_line(left) {
        None => &[],
        Some((line, _)) => line,
    }
}

/// Returns the length of the source at the beginning of a line: up to its first semicolon or carriage return.
fn source_length(line: &[u8]) -> usize {
    let end = line.iter().position(|byte| matches!(*byte, b';' | b'\r'));
    end.unwrap_or(line.len())
}

// ---- frames

/// Appends the frames of a row, and ends the line.
fn put_frames(alloc: Global, page: &mut Vec<u8>, unit: &Unit, row: &Row) -> Result<(), AllocError> {
    if row.hidden > 0 {
        put_number(alloc, page, 0, row.hidden as u64)?;
        page.extend_from_slice(b" more | ")?;
    }
    put_barred(alloc, page, unit, row.frames.as_slice())?;
    page.extend_from_slice(b"\n")
}

/// Appends frames with a bar between them.
fn put_barred(
    alloc: Global,
    page: &mut Vec<u8>,
    unit: &Unit,
    frames: &[FrameRow],
) -> Result<(), AllocError> {
    let Some((oldest, others)) = frames.split_first() else {
        return Ok(());
    };
    put_frame(alloc, page, unit, oldest)?;
    for frame in others {
        page.extend_from_slice(b" | ")?;
        put_frame(alloc, page, unit, frame)?;
    }
    Ok(())
}

/// Appends a frame: the name of its block, and its variables.
fn put_frame(
    alloc: Global,
    page: &mut Vec<u8>,
    unit: &Unit,
    frame: &FrameRow,
) -> Result<(), AllocError> {
    if frame.block as usize >= unit.nestings.len() {
        return Ok(());
    }
    page.extend_from_slice(frame_name(unit, frame.block).as_bytes())?;
    let declaring = block(&unit.tree.program, &unit.nestings, frame.block);
    for (variable, number) in declaring.variables.iter().zip(frame.numbers.iter()) {
        let name = variable.text.as_str();
        let variable = format!(in alloc; " {name}={number}")?;
        page.extend_from_slice(variable.as_bytes())?;
    }
    Ok(())
}

// ---- the machine

/// Appends the registers, ends the line, and appends a line for each frame, the newest first, and how many are left out.
fn put_machine(
    alloc: Global,
    page: &mut Vec<u8>,
    unit: &Unit,
    row: &Row,
    drawing: &Drawing,
) -> Result<(), AllocError> {
    put_registers(alloc, page, drawing)?;
    let count = row.frames.len().min(drawing.heads.len());
    for put in 0..count {
        let frame = count - 1 - put;
        put_frame_line(alloc, page, unit, &row.frames[frame], &drawing.heads[frame])?;
    }
    if row.hidden > 0 {
        put_number(alloc, page, CELL_WIDTH, row.hidden as u64)?;
        page.extend_from_slice(b" more\n")?;
    }
    Ok(())
}

/// Appends the registers, and ends the line.
fn put_registers(alloc: Global, page: &mut Vec<u8>, drawing: &Drawing) -> Result<(), AllocError> {
    put_column(alloc, page, REGISTER_WIDTH, drawing.address as u64)?;
    put_column(alloc, page, REGISTER_WIDTH, drawing.base as u64)?;
    put_number(alloc, page, REGISTER_WIDTH, drawing.top as u64)?;
    page.extend_from_slice(b"\n")
}

/// Appends the line of a frame.
fn put_frame_line(
    alloc: Global,
    page: &mut Vec<u8>,
    unit: &Unit,
    frame: &FrameRow,
    head: &FrameHead,
) -> Result<(), AllocError> {
    put_column(alloc, page, CELL_WIDTH, head.base as u64)?;
    put_column(alloc, page, STATIC_LINK_WIDTH, head.static_link as u64)?;
    put_column(alloc, page, DYNAMIC_LINK_WIDTH, head.dynamic_link as u64)?;
    put_column(
        alloc,
        page,
        RETURN_ADDRESS_WIDTH,
        head.return_address as u64,
    )?;
    put_frame(alloc, page, unit, frame)?;
    page.extend_from_slice(b"\n")
}
