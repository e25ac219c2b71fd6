//! Reads the two members that are lists: the limits between the bands of a matrix, and the rows of its cells.

ghost use Rattle.std.specs.Prelude.{◌≡◌, map};
ghost use Rattle.serde_json.specs.View.{view, items_view};
ghost use Rattle.plant_wire_body.specs.{Lists.{all_of, cell_from, row_from, numbers_at, rows_from}, Members.{ReadsAsSeen, or_body, whole_number}};
ghost use Rattle.plant_wire_body.specs.Lists as spec;

use crate::members::{BodyError, Unfit, whole_number};
use plant_ration::Cell;
use serde_json::Value;
use std::alloc::Global;

const BAD: BodyError = BodyError::Because(Unfit::Body);

fn cell_named(name: &str) -> Option<Cell>
    ensures { result ≡ spec.cell_named name.now }
{
    if name == "P1" {
        Some(Cell::P1)
    } else if name == "P2" {
        Some(Cell::P2)
    } else if name == "P3" {
        Some(Cell::P3)
    } else if name == "P4" {
        Some(Cell::P4)
    } else if name == "N" {
        Some(Cell::N)
    } else {
        None
    }
}

fn cell_from(value: &Value) -> Option<Cell>
    ensures { result ≡ cell_from (view value.now) }
{
    value.as_str().and_then(cell_named)
}

fn all_numbers(alloc: Global, items: &[Value]) -> Result<Vec<u64>, BodyError>
    ensures { ReadsAsSeen (λ v. v.items) result (or_body (all_of whole_number (items_view items.now))) }
{
    let mut numbers = Vec::new(alloc);
    for item in items {
        match whole_number(item) {
            Some(number) => numbers.push(number)?,
            None => return Err(BAD),
        }
    }
    Ok(numbers)
}

fn all_cells(alloc: Global, items: &[Value]) -> Result<Vec<Cell>, BodyError>
    ensures { ReadsAsSeen (λ v. v.items) result (or_body (all_of cell_from (items_view items.now))) }
{
    let mut cells = Vec::new(alloc);
    for item in items {
        match cell_from(item) {
            Some(cell) => cells.push(cell)?,
            None => return Err(BAD),
        }
    }
    Ok(cells)
}

fn row_from(alloc: Global, value: &Value) -> Result<Vec<Cell>, BodyError>
    ensures { ReadsAsSeen (λ v. v.items) result (or_body (row_from (view value.now))) }
{
    all_cells(alloc, value.as_array().ok_or(BAD)?)
}

fn all_rows(alloc: Global, items: &[Value]) -> Result<Vec<Vec<Cell>>, BodyError>
    ensures { ReadsAsSeen (λ v. map (λ row. row.items) v.items) result
        (or_body (all_of row_from (items_view items.now))) }
{
    let mut rows = Vec::new(alloc);
    for item in items {
        match row_from(alloc, item) {
            Ok(row) => rows.push(row)?,
            Err(e) => return Err(e),
        }
    }
    Ok(rows)
}

/// A member that is a list of numbers.
pub(crate) fn numbers_in(alloc: Global, value: &Value, name: &str) -> Result<Vec<u64>, BodyError>
    ensures { ReadsAsSeen (λ v. v.items) result (or_body (numbers_at name.now (view value.now))) }
{
    all_numbers(alloc, value.get(name).and_then(Value::as_array).ok_or(BAD)?)
}

/// A member that is a list of lists of cells.
pub(crate) fn rows_in(alloc: Global, value: &Value, name: &str) -> Result<Vec<Vec<Cell>>, BodyError>
    ensures { ReadsAsSeen (λ v. map (λ row. row.items) v.items) result
        (or_body (rows_from name.now (view value.now))) }
{
    all_rows(alloc, value.get(name).and_then(Value::as_array).ok_or(BAD)?)
}
