//! Applies changes to the rows of one unit in memory.

ghost use Rattle.std.specs.Prelude.{◌≡◌, ◌∷◌, [], IfOk, OnOk};
ghost use Rattle.plant_books.specs.{Changing.{is_event_put, puts_event}};
ghost use Rattle.plant_model.specs.steps.RowChanges.{changed, changed_by, put, removed};
ghost use Rattle.plant_types.specs.Results.{OnlyMemory};

use plant_import::put_events;
use plant_model::{Key, Row, RowEdit, UnitRow, UnitRows};
use plant_types::{Fault, List};
use std::alloc::Global;

/// The table with this one row.
fn one_row(alloc: Global, row: UnitRow) -> Result<List<UnitRow>, Fault>
    ensures value { IfOk result (λ rows. rows ≡ row ∷ []) }
    ensures memory { OnlyMemory result }
{
    let mut rows = List::new(alloc);
    rows.push(row)?;
    Ok(rows)
}

/// Inserts a row into its table, or replaces the row with its key.
fn put_row(alloc: Global, rows: &mut UnitRows, row: Row) -> Result<(), Fault>
    ensures ok { OnOk result (rows.new ≡ put row rows.old) }
    ensures memory { OnlyMemory result }
{
    match row {
        Row::Unit(row) => {
            rows.units = one_row(alloc, row)?;
            Ok(())
        }
        Row::Grant(row) => rows.grants.put(row),
        Row::Alarm(row) => rows.alarms.put(row),
        Row::Shelf(row) => rows.shelves.put(row),
        Row::Event(row) => rows.events.put(row),
        Row::Band(row) => rows.bands.put(row),
        Row::Cell(row) => rows.cells.put(row),
        Row::Record(row) => rows.records.put(row),
        Row::Change(row) => rows.changes.put(row),
    }
}

/// Removes the row with a key, if any.
fn take_out(rows: &mut UnitRows, key: Key)
    ensures { rows.new ≡ removed key rows.old }
{
    match key {
        Key::Grant(person, role) => {
            let _removed = rows.grants.remove(&(person, role));
        }
        Key::Shelf(tag) => {
            let _removed = rows.shelves.remove(&tag);
        }
    }
}

/// Makes one change to the rows.
fn make_change(alloc: Global, rows: &mut UnitRows, change: RowEdit) -> Result<(), Fault>
    ensures value { OnOk result (rows.new ≡ changed change rows.old) }
    ensures memory { OnlyMemory result }
{
    match change {
        RowEdit::Put(row) => put_row(alloc, rows, row),
        RowEdit::PutEvents(events) => put_events(alloc, &mut rows.events, events),
        RowEdit::Remove(key) => {
            take_out(rows, key);
            Ok(())
        }
    }
}

/// Whether a change puts an event.
fn is_event_put(change: &RowEdit) -> bool
    ensures { result ≡ is_event_put change.now }
{
    matches!(change, RowEdit::PutEvents(_) | RowEdit::Put(Row::Event(_)))
}

/// Whether some change puts an event.
pub fn puts_event(changes: &List<RowEdit>) -> bool
    ensures { result ≡ puts_event changes.now }
{
    let mut changes = changes.as_slice().iter();
    changes.any(is_event_put)
}

/// The rows after the changes, in their order.
pub fn after_changes(
    alloc: Global,
    rows: UnitRows,
    changes: List<RowEdit>,
) -> Result<UnitRows, Fault>
    ensures value { IfOk result (λ after. after ≡ changed_by changes rows) }
    ensures memory { OnlyMemory result }
{
    let mut after = rows;
    for change in changes.into_vec() {
        make_change(alloc, &mut after, change)?;
    }
    Ok(after)
}
