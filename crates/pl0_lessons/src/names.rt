//! The table of a program's names.

use crate::columns::{put_left_column, put_right_column};
use crate::standing::behind_block;
use pl0_tree::{Block, Constant, Name};
use pl0_unit::{FRAME_HEAD, Unit};
use std::alloc::{AllocError, Global};

/// What stands above the columns.
const HEAD: &str = "kind       level  address  name\n";

/// The width of the column of a kind.
const KIND_WIDTH: usize = 9;

/// The width of the column of a level.
const LEVEL_WIDTH: usize = 5;

/// The width of the column of an address.
const ADDRESS_WIDTH: usize = 7;

/// Returns the table of a program's names: a row for each declaration, in the order of the text, with the level and
/// address of a variable or a procedure, and the value of a constant.
///
/// # Errors
///
/// `AllocError`, where an allocation failed.
pub fn name_table(alloc: Global, unit: &Unit) -> Result<Vec<u8>, AllocError> {
    let mut page = Vec::from_slice(alloc, HEAD.as_bytes())?;
    put_block(alloc, &mut page, unit, &unit.tree.program, 0, 0)?;
    Ok(page)
}

/// Appends the rows of the block whose code begins at an address, with this many blocks around it, and those of the
/// blocks in it.
fn put_block(
    alloc: Global,
    page: &mut Vec<u8>,
    unit: &Unit,
    block: &Block,
    level: usize,
    begins: usize,
) -> Result<(), AllocError> {
    put_constants(alloc, page, &block.constants)?;
    put_variables(alloc, page, &block.variables, level)?;
    let mut next = begins.saturating_add(1);
    for procedure in &block.procedures {
        put_place(alloc, page, "procedure", level, next, &procedure.name)?;
        put_block(
            alloc,
            page,
            unit,
            &procedure.block,
            level.saturating_add(1),
            next,
        )?;
        next = behind_block(unit, next);
    }
    Ok(())
}

/// Appends the rows of constants.
fn put_constants(
    alloc: Global,
    page: &mut Vec<u8>,
    constants: &[Constant],
) -> Result<(), AllocError> {
    for constant in constants {
        put_constant(alloc, page, constant)?;
    }
    Ok(())
}

/// Appends the row of a constant.
fn put_constant(alloc: Global, page: &mut Vec<u8>, constant: &Constant) -> Result<(), AllocError> {
    let name = constant.name.text.as_str();
    let value = constant.value;
    let text = format!(in alloc; "{name} = {value}")?;
    put_row(page, "constant", "", "", text.as_str())
}

/// Appends the rows of the variables of a block with this many blocks around it.
fn put_variables(
    alloc: Global,
    page: &mut Vec<u8>,
    variables: &[Name],
    level: usize,
) -> Result<(), AllocError> {
    for (index, name) in variables.iter().enumerate() {
        put_place(
            alloc,
            page,
            "variable",
            level,
            FRAME_HEAD.saturating_add(index),
            name,
        )?;
    }
    Ok(())
}

/// Appends the row of a name that has a level and an address.
fn put_place(
    alloc: Global,
    page: &mut Vec<u8>,
    kind: &str,
    level: usize,
    address: usize,
    name: &Name,
) -> Result<(), AllocError> {
    let level = format!(in alloc; "{level}")?;
    let address = format!(in alloc; "{address}")?;
    let name = name.text.as_str();
    put_row(page, kind, level.as_str(), address.as_str(), name)
}

/// Appends a row.
fn put_row(
    page: &mut Vec<u8>,
    kind: &str,
    level: &str,
    address: &str,
    name: &str,
) -> Result<(), AllocError> {
    put_left_column(page, KIND_WIDTH, kind.as_bytes())?;
    put_right_column(page, LEVEL_WIDTH, level.as_bytes())?;
    put_right_column(page, ADDRESS_WIDTH, address.as_bytes())?;
    page.extend_from_slice(name.as_bytes())?;
    page.push(b'\n')?;
    Ok(())
}
