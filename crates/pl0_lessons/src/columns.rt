//! Columns: what stands in one is filled up with spaces.

ghost use Rattle.std.specs.Prelude.{◌≡◌, ◌++◌, OnOk};
ghost use Rattle.pl0_lessons.specs.Columns.{column, left, right, spaces};

use std::alloc::AllocError;

/// How many spaces stand between two columns.
const GAP: usize = 2;

/// Appends a text as [`put_right`] does, and the space to the next column.
///
/// # Errors
///
/// An allocation failed; a part of it may be appended.
pub fn put_right_column(page: &mut Vec<u8>, width: usize, text: &[u8]) -> Result<(), AllocError>
    ensures { OnOk result (page.new.items ≡ page.old.items ++ column (right width text.now)) }
{
    put_right(page, width, text)?;
    put_spaces(page, GAP)
}

/// Appends a text as [`put_left`] does, and the space to the next column.
///
/// # Errors
///
/// An allocation failed; a part of it may be appended.
pub fn put_left_column(page: &mut Vec<u8>, width: usize, text: &[u8]) -> Result<(), AllocError>
    ensures { OnOk result (page.new.items ≡ page.old.items ++ column (left width text.now)) }
{
    put_left(page, width, text)?;
    put_spaces(page, GAP)
}

/// Appends a text at the right of a column of this width.
///
/// # Errors
///
/// An allocation failed; a part of it may be appended.
pub fn put_right(page: &mut Vec<u8>, width: usize, text: &[u8]) -> Result<(), AllocError>
    ensures { OnOk result (page.new.items ≡ page.old.items ++ right width text.now) }
{
    put_spaces(page, width.saturating_sub(text.len()))?;
    page.extend_from_slice(text)
}

/// Appends a text at the left of a column of this width.
///
/// # Errors
///
/// An allocation failed; a part of it may be appended.
pub fn put_left(page: &mut Vec<u8>, width: usize, text: &[u8]) -> Result<(), AllocError>
    ensures { OnOk result (page.new.items ≡ page.old.items ++ left width text.now) }
{
    page.extend_from_slice(text)?;
    put_spaces(page, width.saturating_sub(text.len()))
}

/// Appends this many spaces.
pub(crate) fn put_spaces(page: &mut Vec<u8>, count: usize) -> Result<(), AllocError>
    ensures { OnOk result (page.new.items ≡ page.old.items ++ spaces count) }
{
    for put in 0..count {
        page.push(b' ')?;
    }
    Ok(())
}
