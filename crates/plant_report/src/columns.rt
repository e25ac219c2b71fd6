//! Appends one column to a line of a printed list, padded with spaces to a fixed width where the list is to be read as
//! a table, or ends the line.

ghost use Rattle.std.specs.Prelude.{◌≡◌, [], ◌∷◌, ◌++◌, ◌-◌, ◌≤◌, length, replicate};
ghost use Rattle.plant_types.specs.Adding.{Adds};
ghost use Rattle.plant_report.specs.{Columns.{left, right, line as line_of}, Moments.{moment_text}, declared.columns.TheConstants.{WIDEST}};

use crate::moments;
use plant_types::Moment;
use std::alloc::AllocError;

/// The width of the widest column.
const WIDEST: usize = 32;

/// Spaces to pad a column with.
const SPACES: [u8; WIDEST] = [b' '; WIDEST];

/// Adds a column and the space after it.
pub fn push_column(text: &mut Vec<u8>, column: &[u8]) -> Result<(), AllocError>
    ensures { Adds result text.old.items text.new.items (column.now ++ 32 ∷ []) }
{
    text.extend_from_slice(column)?;
    Ok(text.push(b' ')?)
}

/// Adds a column, padded with spaces on the right, and the space after it.
pub fn push_left(text: &mut Vec<u8>, width: usize, column: &[u8]) -> Result<(), AllocError>
    requires { width ≤ WIDEST }
    ensures { Adds result text.old.items text.new.items (left width column.now ++ 32 ∷ []) }
{
    text.extend_from_slice(column)?;
    push_padding(text, width, column)?;
    Ok(text.push(b' ')?)
}

/// Adds a column, padded with spaces on the left, and the space after it.
pub fn push_right(text: &mut Vec<u8>, width: usize, column: &[u8]) -> Result<(), AllocError>
    requires { width ≤ WIDEST }
    ensures { Adds result text.old.items text.new.items (right width column.now ++ 32 ∷ []) }
{
    push_padding(text, width, column)?;
    push_column(text, column)
}

/// Adds a moment and the space after it.
pub fn push_moment(text: &mut Vec<u8>, moment: Moment) -> Result<(), AllocError>
    ensures { Adds result text.old.items text.new.items (moment_text moment ++ 32 ∷ []) }
{
    push_column(text, &moments::write(moment))
}

/// Adds the last column, and ends the line.
pub fn push_last(text: &mut Vec<u8>, column: &[u8]) -> Result<(), AllocError>
    ensures { Adds result text.old.items text.new.items (line_of (column.now ∷ [])) }
{
    text.extend_from_slice(column)?;
    Ok(text.push(b'\n')?)
}

/// Adds the last column, padded with spaces on the left, and ends the line.
pub fn push_last_right(text: &mut Vec<u8>, width: usize, column: &[u8]) -> Result<(), AllocError>
    requires { width ≤ WIDEST }
    ensures { Adds result text.old.items text.new.items
        (line_of (right width column.now ∷ [])) }
{
    push_padding(text, width, column)?;
    push_last(text, column)
}

/// Adds the spaces that pad a column to its width.
fn push_padding(text: &mut Vec<u8>, width: usize, column: &[u8]) -> Result<(), AllocError>
    requires { width ≤ WIDEST }
    ensures { Adds result text.old.items text.new.items
        (replicate (width - length column.now) 32) }
{
    push_spaces(text, width.saturating_sub(column.len()))
}

fn push_spaces(text: &mut Vec<u8>, count: usize) -> Result<(), AllocError>
    requires { count ≤ WIDEST }
    ensures { Adds result text.old.items text.new.items (replicate count 32) }
{
    Ok(text.extend_from_slice(&SPACES[..count])?)
}
