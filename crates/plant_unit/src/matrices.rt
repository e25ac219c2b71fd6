//! The matrices of a unit: read from their rows, and written as rows.

ghost use Rattle.std.specs.Prelude.{◌≡◌, ◌≤◌, ◌++◌, All, IfOk, OnOk, length};
ghost use Rattle.plant_types.specs.Results.{OnlyMemory};
ghost use Rattle.plant_model.specs.steps.{RowChanges.{matrix_changes}, RowFacts.{cells_at}};
ghost use Rattle.plant_unit.specs.{MatrixRows.{band_puts, cell_lists, cell_puts, items_of, limits_at, row_puts}, Readings.{matrix_found}};

use plant_model::{BandRow, CellRow, Row, RowEdit, UnitRows};
use plant_ration::{Cell, Matrix};
use plant_types::{Fault, List};
use std::alloc::Global;

/// The limits of the matrix with a number.
fn limits_of(alloc: Global, bands: &[BandRow], number: u32) -> Result<Vec<u64>, Fault>
    ensures value { IfOk result (λ limits. limits.items ≡ limits_at bands.now number) }
    ensures err { OnlyMemory result }
{
    let own = bands.iter().filter(|band| number == band.matrix_no);
    Ok(own.map(|band| band.limit_s).collect(alloc)?)
}

/// The cells of a severity in the matrix with a number.
fn row_of(alloc: Global, cells: &[CellRow], number: u32, severity: u8) -> Result<Vec<Cell>, Fault>
    ensures value { IfOk result (λ row. row.items ≡ cells_at cells.now number severity) }
    ensures err { OnlyMemory result }
{
    let own = cells.iter().filter(|cell| number == cell.matrix_no && severity == cell.severity);
    Ok(own.map(|cell| cell.cell_no).collect(alloc)?)
}

/// The cells of the matrix with a number, by severity, without the severities that have none.
fn cells_of(alloc: Global, cells: &[CellRow], number: u32) -> Result<Vec<Vec<Cell>>, Fault>
    ensures value { IfOk result (λ rows. items_of rows.items ≡ cell_lists cells.now number) }
    ensures err { OnlyMemory result }
{
    let mut rows = Vec::new(alloc);
    for place in 0..5u8 {
        let row = row_of(alloc, cells, number, place + 1)?;
        if !row.as_slice().is_empty() {
            rows.push(row)?;
        }
    }
    Ok(rows)
}

/// The matrix with a number, if its rows form one.
pub fn matrix_of(alloc: Global, rows: &UnitRows, number: u32) -> Result<Option<Matrix>, Fault>
    ensures value { IfOk result (λ matrix. matrix ≡ matrix_found rows.now number) }
    ensures err { OnlyMemory result }
{
    let limits = limits_of(alloc, rows.bands.as_slice(), number)?;
    let cells = cells_of(alloc, rows.cells.as_slice(), number)?;
    Ok(Matrix::new(alloc, &limits, &cells)?.ok())
}

fn push_bands(changes: &mut List<RowEdit>, number: u32, limits: &[u64]) -> Result<(), Fault>
    requires { length limits.now ≤ 4 }
    ensures value { OnOk result (changes.new ≡ changes.old ++ band_puts number limits.now) }
    ensures err { OnlyMemory result }
{
    for (i, limit) in limits.iter().enumerate() {
        changes.push(RowEdit::Put(Row::Band(BandRow {
            matrix_no: number,
            band_no: i as u8 + 1,
            limit_s: *limit,
        })))?;
    }
    Ok(())
}

fn push_row(
    changes: &mut List<RowEdit>,
    number: u32,
    severity: u8,
    row: &[Cell],
) -> Result<(), Fault>
    requires { length row.now ≤ 5 }
    ensures value { OnOk result (changes.new ≡ changes.old ++ row_puts number (severity, row.now)) }
    ensures err { OnlyMemory result }
{
    for (i, cell) in row.iter().enumerate() {
        changes.push(RowEdit::Put(Row::Cell(CellRow {
            matrix_no: number,
            severity,
            band_no: i as u8 + 1,
            cell_no: *cell,
        })))?;
    }
    Ok(())
}

fn push_cells(changes: &mut List<RowEdit>, number: u32, cells: &[Vec<Cell>]) -> Result<(), Fault>
    requires rows { length cells.now ≤ 5 }
    requires wide { All (λ row. length row.items ≤ 5) cells.now }
    ensures value { OnOk result (changes.new ≡ changes.old ++ cell_puts number cells.now) }
    ensures err { OnlyMemory result }
{
    for (i, row) in cells.iter().enumerate() {
        push_row(changes, number, i as u8 + 1, row)?;
    }
    Ok(())
}

/// Appends the changes that put the rows of a matrix.
pub fn push_matrix(changes: &mut List<RowEdit>, number: u32, matrix: &Matrix) -> Result<(), Fault>
    ensures value { OnOk result (changes.new ≡ changes.old ++ matrix_changes number matrix.now) }
    ensures err { OnlyMemory result }
{
    let cells = matrix.cells();
    push_bands(changes, number, matrix.limits())?;
    push_cells(changes, number, cells)
}
